//! The offsets of the entries that are kept.
ghost use Rattle.std.specs.Prelude.{◌≡◌, ◌==◌, ◌&&◌, nat_le, nat_lt, length, map, IfOk};
ghost use Rattle.std.specs.List.{filter, list_any};
ghost use Rattle.std.specs.List.Sorted.{IsNonDecreasingBy};
ghost use Rattle.dwc_kept.specs.EntryGraphs.{marked_of, AreKeptOffsets};
ghost use Rattle.dwc_kept.specs.GraphEntries.{AreRising};

use crate::graph::{EntryGraph, closure};
use crate::graph_entry::GraphEntry;
use std::alloc::{AllocError, Global};
use std::marker::Model;

/// The offsets in `.debug_info` of the entries of a module that are kept, in rising order.
#[derive(Drop)]
pub struct Kept {
    offsets: Vec<u32>,
}

impl Model for Kept {
    ghost use Rattle.std.specs.Prelude.{List, ℕ};
    ghost use Rattle.std.specs.List.Sorted.{IsNonDecreasingBy};

    ghost Value = { List ℕ };

    ghost view = { λ k. k.offsets.items };

    ghost invariant = { λ k. IsNonDecreasingBy (λ offset. offset) k.offsets.items };
}

impl Kept {
    /// The entries of a graph that are kept with the required ones: the least set that holds these and all that its entries keep.
    ///
    /// # Errors
    /// `AllocError` for want of memory.
    pub fn new(alloc: Global, graph: &EntryGraph, required: &[bool]) -> Result<Kept, AllocError>
        requires { length required.now ≡ length graph.now }
        ensures { IfOk result (λ kept. AreKeptOffsets graph.now required.now kept) }
    {
        let marks = closure(alloc, graph, required)?;
        let offsets = marked_offsets(alloc, graph.entries(), &marks)?;
        Ok(Kept { offsets })
    }

    /// Whether the entry at an offset is kept.
    pub fn contains(&self, offset: u64) -> bool
        ensures { result ≡ list_any (λ kept. kept == offset) self.now }
    {
        holds(&self.offsets, offset)
    }

    /// The offsets from one on and below another, in rising order; none where the first is above the second.
    pub fn between(&self, start: u64, end: u64) -> &[u32]
        ensures { result.now ≡ filter (λ offset. nat_le start offset && nat_lt offset end) self.now }
    {
        between(&self.offsets, start, end)
    }

    /// The offsets, in rising order.
    pub fn offsets(&self) -> &[u32]
        ensures { result.now ≡ self.now }
    {
        &self.offsets
    }
}

// The offsets of the marked entries.
fn marked_offsets(
    alloc: Global,
    entries: &[GraphEntry],
    marks: &[bool],
) -> Result<Vec<u32>, AllocError>
    requires { length marks.now ≡ length entries.now }
    ensures { IfOk result (λ offsets. offsets.items ≡ marked_of (map (λ e. e.offset) entries.now) marks.now) }
{
    let mut offsets = Vec::new(alloc);
    for i in 0..entries.len() {
        if marks[i] {
            offsets.push(entries[i].offset)?;
        }
    }
    Ok(offsets)
}

// Whether an offset is among some that do not fall.
fn holds(offsets: &[u32], offset: u64) -> bool
    requires { IsNonDecreasingBy (λ offset. offset) offsets.now }
    ensures { result ≡ list_any (λ kept. kept == offset) offsets.now }
{
    let place = offsets.partition_point(|kept| u64::from(*kept) < offset);
    place < offsets.len() && u64::from(offsets[place]) == offset
}

// Those of some offsets, which do not fall, that are at least one and below another.
fn between(offsets: &[u32], start: u64, end: u64) -> &[u32]
    requires { IsNonDecreasingBy (λ offset. offset) offsets.now }
    ensures { result.now ≡ filter (λ offset. nat_le start offset && nat_lt offset end) offsets.now }
{
    let last = offsets.partition_point(|kept| u64::from(*kept) < end);
    let (before_end, _) = offsets.split_at(last);
    let first = before_end.partition_point(|kept| u64::from(*kept) < start);
    let (_, inside) = before_end.split_at(first);
    inside
}
