//! The bounds of a function's runs in the wasm code, by which those are passed over that an interval does not meet.
ghost use Rattle.std.specs.Prelude.{ℕ, ◌≡◌, ◌+◌, ◌<◌, ◌≤◌, ◌^◌, true, length, All, IfOk, slice_index_or};
ghost use Rattle.dwc_addr.specs.RunBounds.{no_bounds, wasm_begin, wasm_end as wasm_end_of, AreRunBounds, AreBlockBounds, IsApart, Encloses};

use crate::address_map::WasmAddress;
use crate::sources::Sources;
use std::alloc::{AllocError, Global};

/// Where a run, or a block of runs, begins and ends in the wasm file.
#[derive(Clone, Copy)]
pub struct Bounds {
    pub begin: u32,
    pub end: u32,
}

// How many runs a block has, and how many a block of blocks.
pub(crate) const BLOCK: usize = 64;

pub(crate) const OUTER: usize = BLOCK * BLOCK;

// Whether there are bounds at a place and an interval does not meet them.
pub(crate) fn is_apart(
    bounds: &[Bounds],
    place: usize,
    start: WasmAddress,
    end: WasmAddress,
) -> bool
    ensures inside { result ≡ true → place < length bounds.now }
    ensures apart { result ≡ true → IsApart (slice_index_or bounds.now place no_bounds) start end }
{
    let Some(there) = bounds.get(place) else {
        return false;
    };
    u64::from(there.begin) >= end || u64::from(there.end) < start
}

// The bounds of the runs of a function from `start` to `end`, by its sources and the places of its later runs; none where it has
// no later run.
pub(crate) fn run_bounds(
    alloc: Global,
    start: WasmAddress,
    end: WasmAddress,
    sources: &Sources<'_>,
    later_runs: &[usize],
) -> Result<Vec<Bounds>, AllocError>
    requires start_low { start < 2 ^ 32 }
    requires end_low { end < 2 ^ 32 }
    requires places { All (λ p. (0 < p) × (p < length sources.now)) later_runs.now }
    ensures { IfOk result (λ bounds. AreRunBounds (wasm_begin start sources.now later_runs.now) (wasm_end_of end sources.now later_runs.now) (length later_runs.now) bounds.items) }
{
    let mut bounds = Vec::new(alloc);
    if later_runs.is_empty() {
        return Ok(bounds);
    }
    let mut begin = start as u32;
    for place in later_runs {
        let last = sources.at(*place - 1).wasm;
        bounds.push(Bounds { begin, end: last })?;
        begin = sources.at(*place).wasm;
    }
    bounds.push(Bounds {
        begin,
        end: end as u32,
    })?;
    Ok(bounds)
}

// The bounds of the full blocks of some runs, by those of the runs, or of blocks of blocks, by those of the blocks.
pub(crate) fn block_bounds(alloc: Global, bounds: &[Bounds]) -> Result<Vec<Bounds>, AllocError>
    ensures { IfOk result (λ blocks. AreBlockBounds bounds.now blocks.items) }
{
    let mut blocks = Vec::new(alloc);
    for block in 0..bounds.len() / BLOCK {
        blocks.push(around(bounds, block * BLOCK))?;
    }
    Ok(blocks)
}

// The least begin and the greatest end of the bounds of a block that begins at a place.
fn around(bounds: &[Bounds], first: usize) -> Bounds
    requires { first + 64 ≤ length bounds.now }
    ensures { (i : ℕ) → first ≤ i → i < first + 64 → Encloses result (slice_index_or bounds.now i no_bounds).begin (slice_index_or bounds.now i no_bounds).end }
{
    let mut all = bounds[first];
    for i in first + 1..first + BLOCK {
        all = joined(all, bounds[i]);
    }
    all
}

// Bounds that enclose two.
fn joined(one: Bounds, other: Bounds) -> Bounds
    ensures one { Encloses result one.begin one.end }
    ensures other { Encloses result other.begin other.end }
{
    Bounds {
        begin: one.begin.min(other.begin),
        end: one.end.max(other.end),
    }
}
