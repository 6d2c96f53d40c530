//! Where a run begins and ceases to have the code of a wasm offset, by halves.
ghost use Rattle.std.specs.Prelude.{◌≡◌, ◌+◌, ◌-◌, ◌<◌, ◌≤◌, ◌^◌, ◌==◌, ◌&&◌, nat_lt, length, take, drop, All, IfSome, slice_index_or, option_map, if◌then◌else◌, Some, None};
ghost use Rattle.std.specs.List.{find};
ghost use Rattle.std.specs.List.Sorted.{IsNonDecreasingBy};
ghost use Rattle.dwc_native.specs.Runs.{Position, start_in as begin_in, end_in as cease_in};
ghost use Rattle.dwc_addr.specs.declared.address_map.AddressMap.{AddressMap};
ghost use Rattle.dwc_addr.specs.RunViews.{positions_of, run_view, IsRunOf};
ghost use Rattle.dwc_addr.specs.PositionPlaces.{IsCountBelow, IsCountUpTo, start_at as begin_at, start_or as begin_or};

use crate::address_map::{GeneratedAddress, WasmAddress};
use crate::function_map::FunctionMap;
use crate::hints::{gap_hint, source_hint};
use crate::near::{gaps_before, sources_below};
use crate::run::Run;
use crate::sources::Sources;
use dwc_compiled::Gap;

// Where the first entry begins that has no source and in front of which so many with one stand.
fn gap_behind(gaps: &[Gap], hint: usize, before: usize) -> Option<GeneratedAddress>
    requires apart { IsNonDecreasingBy (λ g. g.before) gaps.now }
    ensures found { result ≡ option_map (λ g. g.generated) (find (λ g. g.before == before) gaps.now) }
    ensures low { IfSome result (λ native. native < 2 ^ 32) }
{
    let first = gaps_before(gaps, hint, before);
    let gap = gaps.get(first)?;
    if gap.before as usize != before {
        return None;
    }
    Some(gap.generated as usize)
}

// Where the native code of a source ends: where the next entry begins, with or without a source, or with the function.
#[inline(always)]
fn native_end(function: &FunctionMap<'_>, place: usize) -> GeneratedAddress
    requires { place < length function.now.addresses }
    ensures end { (d : Position) → result ≡ (slice_index_or (positions_of function.now) place d).end }
    ensures low { result < 2 ^ 32 }
{
    match gap_behind(function.gaps, gap_hint(function, place + 1), place + 1) {
        Some(native) => native,
        None => start_or(&function.addresses, place + 1, function.len),
    }
}

// Where the source at a place begins; else another native offset.
fn start_or(sources: &Sources<'_>, place: usize, other: GeneratedAddress) -> GeneratedAddress
    requires other_low { other < 2 ^ 32 }
    ensures start { result ≡ begin_or sources.now place other }
    ensures low { result < 2 ^ 32 }
{
    match sources.get(place) {
        Some(source) => source.generated as usize,
        None => other,
    }
}

// Where the source at a place begins, if there is one with a wasm offset.
fn start_at(sources: &Sources<'_>, place: usize, addr: WasmAddress) -> Option<GeneratedAddress>
    ensures start { result ≡ begin_at sources.now place addr }
    ensures low { IfSome result (λ native. native < 2 ^ 32) }
{
    let source = sources.get(place)?;
    if u64::from(source.wasm) != addr {
        return None;
    }
    Some(source.generated as usize)
}

// How many sources do not lie above a wasm offset.
#[tactic(auto, using(crate::proofs::NativeLaws::below_up_to))]
fn sources_up_to(sources: &Sources<'_>, hint: usize, addr: WasmAddress) -> usize
    requires { IsNonDecreasingBy (λ e. e.wasm) sources.now }
    ensures { IsCountUpTo (λ e. e.wasm) sources.now addr result }
{
    if addr < u64::MAX {
        return sources_below(sources, hint, addr + 1);
    }
    sources.up_to(addr)
}

// How many sources begin below a native offset, by the place of one that begins there: seldom does another.
fn begun_below(sources: &Sources<'_>, place: usize, native: GeneratedAddress) -> usize
    requires order { IsNonDecreasingBy (λ e. e.generated) sources.now }
    requires place { place < length sources.now }
    requires begins { (d : AddressMap) → (slice_index_or sources.now place d).generated ≡ native }
    ensures { IsCountBelow (λ e. e.generated) sources.now native result }
{
    if place > 0 && sources.at(place - 1).generated as usize >= native {
        return sources.begun_below(native);
    }
    place
}

// How many do not begin above it, by such a place.
fn begun_up_to(sources: &Sources<'_>, place: usize, native: GeneratedAddress) -> usize
    requires order { IsNonDecreasingBy (λ e. e.generated) sources.now }
    requires place { place < length sources.now }
    requires begins { (d : AddressMap) → (slice_index_or sources.now place d).generated ≡ native }
    ensures { IsCountUpTo (λ e. e.generated) sources.now native result }
{
    let count = sources.len();
    let behind = place + 1;
    if behind < count && sources.at(behind).generated as usize <= native {
        return sources.begun_up_to(native);
    }
    behind
}

// The sources of a run.
fn sources_of<'a>(function: &FunctionMap<'a>, run: &Run) -> Sources<'a>
    requires { IsRunOf function.now run.now }
    ensures sources { result ≡ take (run.now.behind - run.now.first) (drop run.now.first function.now.addresses) }
    ensures wasm { IsNonDecreasingBy (λ e. e.wasm) result }
    ensures native { IsNonDecreasingBy (λ e. e.generated) result }
    ensures size { length result ≡ run.now.behind - run.now.first }
{
    function.addresses.part(run.first, run.behind)
}

// Where a run begins to have the code from a wasm offset on: the start of the first position at it; else the end of the last position
// below it; else the run's own start. Sources that begin at one native offset are one position.
#[inline(always)]
pub(crate) fn start_in(function: &FunctionMap<'_>, run: &Run, addr: WasmAddress) -> GeneratedAddress
    requires { IsRunOf function.now run.now }
    ensures start { result ≡ begin_in addr (run_view function.now run.now) }
    ensures low { result < 2 ^ 32 }
{
    let sources = sources_of(function, run);
    let count = sources_below(&sources, source_hint(function, addr), addr);
    if count == 0 {
        return start_at(&sources, 0, addr).unwrap_or(run.start);
    }
    let native = sources.at(count - 1).generated as usize;
    let behind = begun_up_to(&sources, count - 1, native);
    match start_at(&sources, behind, addr) {
        Some(start) => start,
        None => native_end(function, run.first + behind - 1),
    }
}

// Where a run ceases to have the code before a wasm offset: the end of the last position at it; else the start of the first position
// above it; else the run's own end.
pub(crate) fn end_in(function: &FunctionMap<'_>, run: &Run, addr: WasmAddress) -> GeneratedAddress
    requires { IsRunOf function.now run.now }
    ensures end { result ≡ cease_in addr (run_view function.now run.now) }
    ensures low { result < 2 ^ 32 }
{
    let sources = sources_of(function, run);
    let count = sources_up_to(&sources, source_hint(function, addr), addr);
    if count == 0 {
        return start_or(&sources, 0, run.end);
    }
    let native = sources.at(count - 1).generated as usize;
    let first = begun_below(&sources, count - 1, native);
    let behind = begun_up_to(&sources, count - 1, native);
    if u64::from(sources.at(first).wasm) == addr {
        return native_end(function, run.first + behind - 1);
    }
    start_or(&sources, behind, run.end)
}
