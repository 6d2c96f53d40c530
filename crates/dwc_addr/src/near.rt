//! How many sources of a run lie below a wasm offset, and how many gaps of a function stand in front of a source. Hints say about where
//! to look: what is found near one is tested, and where the test fails, found by halves.
ghost use Rattle.std.specs.Prelude.{◌≡◌, ◌<◌, ◌≤◌, ◌+◌, true, false, length, slice_index_or};
ghost use Rattle.std.specs.List.Sorted.{IsNonDecreasingBy};
ghost use Rattle.dwc_addr.specs.declared.address_map.AddressMap.{AddressMap};
ghost use Rattle.dwc_addr.specs.PositionPlaces.{AreBelow, IsCountBelow};

use crate::address_map::WasmAddress;
use crate::sources::Sources;
use dwc_compiled::Gap;

// So many sources, or gaps, are counted from where a hint says, without a branch.
pub(crate) const WINDOW: usize = 12;

// How many sources of some lie below a wasm offset.
pub(crate) fn sources_below(sources: &Sources<'_>, hint: usize, addr: WasmAddress) -> usize
    requires { IsNonDecreasingBy (λ e. e.wasm) sources.now }
    ensures { IsCountBelow (λ e. e.wasm) sources.now addr result }
{
    let count = sources.below_near(hint, addr);
    if are_sources_below(sources, count, addr) && !is_source_below(sources, count, addr) {
        return count;
    }
    sources.below(addr)
}

// Whether there is a source at a place, and it lies below a wasm offset.
fn is_source_below(sources: &Sources<'_>, place: usize, addr: WasmAddress) -> bool
    ensures below { result ≡ true → AreBelow (λ e. e.wasm) sources.now addr (place + 1) }
    ensures above { result ≡ false → (d : AddressMap) → place < length sources.now → addr ≤ (slice_index_or sources.now place d).wasm }
{
    place < sources.len() && u64::from(sources.at(place).wasm) < addr
}

// Whether there are so many sources, and the last of them lies below one.
fn are_sources_below(sources: &Sources<'_>, count: usize, addr: WasmAddress) -> bool
    ensures { result ≡ true → AreBelow (λ e. e.wasm) sources.now addr count }
{
    match count.checked_sub(1) {
        None => true,
        Some(last) => is_source_below(sources, last, addr),
    }
}

// How many gaps have fewer sources in front of them than so many.
pub(crate) fn gaps_before(gaps: &[Gap], hint: usize, before: usize) -> usize
    requires { IsNonDecreasingBy (λ g. g.before) gaps.now }
    ensures { IsCountBelow (λ g. g.before) gaps.now before result }
{
    let count = gaps_near(gaps, hint, before);
    if are_gaps_before(gaps, count, before) && !is_gap_before(gaps, count, before) {
        return count;
    }
    gaps.partition_point(|gap| (gap.before as usize) < before)
}

// The same, if the last that has stands in the window that a hint begins.
fn gaps_near(gaps: &[Gap], hint: usize, before: usize) -> usize {
    if gaps.len() < WINDOW {
        return gaps.len();
    }
    let first = hint.min(gaps.len() - WINDOW);
    let mut count = first;
    for i in first..first + WINDOW {
        if (gaps[i].before as usize) < before {
            count = count.wrapping_add(1);
        }
    }
    count
}

// Whether there is a gap at a place, and it has fewer sources in front of it than so many.
fn is_gap_before(gaps: &[Gap], place: usize, before: usize) -> bool
    ensures below { result ≡ true → AreBelow (λ g. g.before) gaps.now before (place + 1) }
    ensures above { result ≡ false → (d : Gap) → place < length gaps.now → before ≤ (slice_index_or gaps.now place d).before }
{
    place < gaps.len() && (gaps[place].before as usize) < before
}

// Whether there are so many gaps, and the last of them has.
fn are_gaps_before(gaps: &[Gap], count: usize, before: usize) -> bool
    ensures { result ≡ true → AreBelow (λ g. g.before) gaps.now before count }
{
    match count.checked_sub(1) {
        None => true,
        Some(last) => is_gap_before(gaps, last, before),
    }
}
