//! Hints of where in a function the sources of a wasm offset stand, and the gaps in front of a source. They are tested where they are
//! used, so a block that has no hint, or one that is not true, costs a search by halves.
ghost use Rattle.std.specs.Prelude.{◌≤◌, IfOk};

use crate::address_map::WasmAddress;
use crate::by_start::start_of;
use crate::function_map::FunctionMap;
use crate::near::WINDOW;
use crate::sources::Sources;
use dwc_compiled::{Gap, capacity};
use std::alloc::{AllocError, Global};

// So many sources stand in a block of wasm offsets on average, at least.
const SOURCES_OF_BLOCK: usize = 4;

// For each function there are so many blocks of wasm offsets at most, and half as many at least.
const BLOCKS_OF_FUNCTION: usize = 4;

// Each of so many sources in a row is noted.
const STEP: usize = 4;

// A list of hints has room for so many at least: 64 bytes.
const LEAST_HINTS: usize = 16;

// A wasm offset has so many bits.
const OFFSET_BITS: u32 = 32;

// A block of sources has 2^6 of them.
const GAP_BITS: u32 = 6;

// For blocks of a power of two wasm offsets, from the begin of a function on, about how many sources lie below each; and that power. There
// are none where there are few sources, or several runs.
pub(crate) fn source_hints(
    alloc: Global,
    start: WasmAddress,
    end: WasmAddress,
    sources: &Sources<'_>,
    later_runs: &[usize],
) -> Result<(u32, Vec<u32>), AllocError>
    ensures { IfOk result (λ found. found.0 ≤ 32) }
{
    if sources.len() <= WINDOW || !later_runs.is_empty() {
        return Ok((0, Vec::new(alloc)));
    }
    let bytes = end.saturating_sub(start);
    let bits = block_bits(bytes, sources.len());
    let mut hints = no_hints(alloc, block_of(0, bits, bytes).saturating_add(1))?;
    note_sources(&mut hints, start, bits, sources);
    Ok((bits, hints))
}

// The hints of so many blocks before anything is noted.
fn no_hints(alloc: Global, blocks: usize) -> Result<Vec<u32>, AllocError> {
    let mut hints = Vec::with_capacity(alloc, capacity(blocks, LEAST_HINTS))?;
    hints.resize(blocks, 0)?;
    Ok(hints)
}

// The least power of two of a block, of so many bytes of sources.
fn block_bits(bytes: u64, sources: usize) -> u32
    ensures { result ≤ 32 }
{
    let blocks = (sources / SOURCES_OF_BLOCK) as u64;
    for bits in 0..OFFSET_BITS {
        if bytes >> bits < blocks {
            return bits;
        }
    }
    OFFSET_BITS
}

// The block of a wasm offset, of a function that begins at another.
fn block_of(start: WasmAddress, bits: u32, addr: WasmAddress) -> usize
    requires { bits ≤ 32 }
{
    (addr.saturating_sub(start) >> bits) as usize
}

// Notes sources in the hints of the blocks behind them.
fn note_sources(hints: &mut [u32], start: WasmAddress, bits: u32, sources: &Sources<'_>)
    requires { bits ≤ 32 }
{
    for i in 0..sources.len() / STEP {
        let place = i * STEP;
        let block = block_of(start, bits, u64::from(sources.at(place).wasm));
        note(hints, block, place);
    }
}

// Notes that what stands at a place lies in a block, for the block behind it.
fn note(hints: &mut [u32], block: usize, place: usize) {
    let Ok(count) = u32::try_from(place.saturating_add(1)) else {
        return;
    };
    if let Some(hint) = hints.get_mut(block.saturating_add(1)) {
        *hint = count;
    }
}

// For blocks of sources how many gaps stand in front of each, about; none where there are few gaps.
pub(crate) fn gap_hints(
    alloc: Global,
    sources: usize,
    gaps: &[Gap],
) -> Result<Vec<u32>, AllocError> {
    if gaps.len() <= WINDOW {
        return Ok(Vec::new(alloc));
    }
    let mut hints = no_hints(alloc, (sources >> GAP_BITS).saturating_add(1))?;
    note_gaps(&mut hints, gaps);
    Ok(hints)
}

// Notes gaps in the hints of the blocks behind them.
fn note_gaps(hints: &mut [u32], gaps: &[Gap]) {
    for i in 0..gaps.len() {
        note(hints, (gaps[i].before >> GAP_BITS) as usize, i);
    }
}

// About how many functions begin below each block of a power of two wasm offsets; and that power.
#[derive(Drop)]
pub(crate) struct StartHints {
    bits: u32,
    counts: Vec<u32>,
    ghost few_bits: { bits ≤ 32 },
}

// The hints of some functions by their keys.
pub(crate) fn start_hints(alloc: Global, keys: &[u64]) -> Result<StartHints, AllocError> {
    let bytes = match keys.last() {
        Some(key) => start_of(*key),
        None => 0,
    };
    let bits = block_bits(
        bytes,
        keys.len()
            .saturating_mul(SOURCES_OF_BLOCK * BLOCKS_OF_FUNCTION),
    );
    let mut counts = no_hints(alloc, block_of(0, bits, bytes).saturating_add(1))?;
    note_starts(&mut counts, bits, keys);
    fill(&mut counts);
    Ok(StartHints { bits, counts })
}

// Notes functions in the hints of the blocks behind their starts.
fn note_starts(counts: &mut [u32], bits: u32, keys: &[u64])
    requires { bits ≤ 32 }
{
    for i in 0..keys.len() {
        note(counts, block_of(0, bits, start_of(keys[i])), i);
    }
}

// Gives blocks that have no hint that of the block before.
fn fill(counts: &mut [u32]) {
    let mut before = 0;
    for i in 0..counts.len() {
        before = before.max(counts[i]);
        counts[i] = before;
    }
}

// About how many functions begin at or below an address.
pub(crate) fn start_hint(hints: &StartHints, addr: WasmAddress) -> usize {
    hint_at(&hints.counts, block_of(0, hints.bits, addr))
}

// About how many sources of a function lie below a wasm offset.
pub(crate) fn source_hint(function: &FunctionMap<'_>, addr: WasmAddress) -> usize {
    let block = block_of(function.wasm_start, function.block_bits, addr);
    hint_at(&function.source_hints, block)
}

// About how many gaps of a function have fewer sources in front of them than so many.
pub(crate) fn gap_hint(function: &FunctionMap<'_>, before: usize) -> usize {
    hint_at(&function.gap_hints, before >> GAP_BITS)
}

// The hint of a block, 0 where it has none.
fn hint_at(hints: &[u32], block: usize) -> usize {
    match hints.get(block) {
        Some(hint) => *hint as usize,
        None => 0,
    }
}
