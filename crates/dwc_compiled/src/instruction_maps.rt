//! The entries of an address map.
ghost use Rattle.std.specs.Prelude.{◌≡◌, [], ◌∷◌, ◌++◌, List, map, IfOk, OnOk, OnErr, IfSome, None};
ghost use Rattle.std.specs.Iterator.{YieldsFirst};
ghost use Rattle.std.specs.List.{filter_map};
ghost use Rattle.dwc_native.specs.Functions.{Recorded, recorded_entry};
ghost use Rattle.dwc_compiled.specs.Gaps.{entry_view, gaps_behind, gaps_of, source_view, AreGapsOf};

use crate::list_room::capacity;
use dwc_base::FilePos;
use std::alloc::{AllocError, Global};
use std::marker::Model;

/// An entry of an address map: the source of the code from an offset on.
#[derive(Clone, Copy)]
pub struct InstructionAddressMap {
    /// The place in the wasm file, or none.
    pub srcloc: FilePos,
    /// The offset of the code from the function's start.
    pub code_offset: u32,
}

/// An entry of an address map that has a source, in eight bytes.
#[derive(Clone, Copy)]
pub struct InstructionSource {
    /// The offset of the code from the function's start.
    pub code_offset: u32,
    /// The place in the wasm file.
    pub source: u32,
}

/// An entry of an address map that has no source, in eight bytes.
#[derive(Clone, Copy)]
pub struct Gap {
    /// How many entries that have a source stand in front of it.
    pub before: u32,
    /// Where the code without a source begins.
    pub generated: u32,
}

/// The entries of an address map, in order. Those that have a source are kept apart from those that have none, so that whoever looks for code
/// by its source borrows them as they are. A contract sees all in order, each as its code offset and the place of its source.
#[derive(Drop)]
pub struct InstructionMaps {
    sources: Vec<InstructionSource>,
    gaps: Vec<Gap>,
}

impl Model for InstructionMaps {
    ghost use Rattle.std.specs.Prelude.{ℕ, List, Option, map};
    ghost use Rattle.dwc_compiled.specs.Gaps.{merged, source_view, IsSplit};

    ghost Value = { List (ℕ × Option ℕ) };

    ghost view = { λ m. merged m.gaps.items 0 (map source_view m.sources.items) };

    ghost invariant = { λ m. IsSplit m.sources.items m.gaps.items };
}

// A list has room for so many entries at least: 64 bytes.
const LEAST: usize = 8;

impl InstructionMaps {
    /// No entries. They take no memory.
    pub fn new(alloc: Global) -> InstructionMaps
        ensures { result ≡ [] }
    {
        InstructionMaps {
            sources: Vec::new(alloc),
            gaps: Vec::new(alloc),
        }
    }

    /// Puts an entry behind the others.
    ///
    /// # Errors
    /// `AllocError` for want of memory; the entries are then as before.
    #[inline(always)]
    pub fn push(&mut self, entry: InstructionAddressMap) -> Result<(), AllocError>
        ensures pushed { OnOk result (self.new ≡ self.old ++ entry_view entry ∷ []) }
        ensures failed { OnErr result (self.new ≡ self.old) }
    {
        match entry.srcloc.file_offset() {
            Some(source) => self.sources.push(InstructionSource {
                code_offset: entry.code_offset,
                source,
            })?,
            None => self
                .gaps
                .push(gap_at(self.sources.len(), entry.code_offset)?)?,
        }
        Ok(())
    }

    /// Leaves no entries, and keeps their memory for others.
    pub fn clear(&mut self)
        ensures { self.new ≡ [] }
    {
        self.sources.clear();
        self.gaps.clear();
    }

    /// The same entries in memory of about their size, which the ones that are read into lists that grow do not have.
    ///
    /// # Errors
    /// `AllocError` for want of memory.
    pub fn compact(&self, alloc: Global) -> Result<InstructionMaps, AllocError>
        ensures { IfOk result (λ m. m ≡ self.now) }
    {
        Ok(InstructionMaps {
            sources: compact_list(alloc, &self.sources)?,
            gaps: compact_list(alloc, &self.gaps)?,
        })
    }

    /// Those that have a source, in order.
    pub fn sources(&self) -> &[InstructionSource]
        ensures { map source_view result.now ≡ filter_map recorded_entry self.now }
    {
        &self.sources
    }

    /// Those that have none, in order.
    pub fn gaps(&self) -> &[Gap]
        ensures { result.now ≡ gaps_of 0 self.now }
    {
        &self.gaps
    }

    /// All, one by one.
    pub fn iter(&self) -> Instructions<'_>
        ensures { result ≡ self.now }
    {
        Instructions {
            sources: &self.sources,
            gaps: &self.gaps,
            before: 0,
        }
    }
}

// A list of the same items, in memory of about their size; none for an empty one.
fn compact_list<T: Copy>(alloc: Global, items: &[T]) -> Result<Vec<T>, AllocError>
    ensures { IfOk result (λ list. list.items ≡ items.now) }
{
    if items.is_empty() {
        return Ok(Vec::new(alloc));
    }
    let mut list = Vec::with_capacity(alloc, capacity(items.len(), LEAST))?;
    list.extend_from_slice(items)?;
    Ok(list)
}

// A gap in front of which so many sources stand; there is no memory for more than its number says.
fn gap_at(before: usize, generated: u32) -> Result<Gap, AllocError>
    ensures { IfOk result (λ g. g ≡ record { before = before; generated = generated }) }
{
    let Ok(before) = u32::try_from(before) else {
        return Err(AllocError);
    };
    Ok(Gap { before, generated })
}

/// The entries of an address map that are still to come, in order.
#[derive(Drop)]
pub struct Instructions<'a> {
    sources: &'a [InstructionSource],
    gaps: &'a [Gap],
    // So many sources stand in front.
    before: usize,
}

impl<'a> Model for Instructions<'a> {
    ghost use Rattle.std.specs.Prelude.{ℕ, List, Option, map};
    ghost use Rattle.dwc_compiled.specs.Gaps.{merged, source_view, AreLeft};

    ghost Value = { List (ℕ × Option ℕ) };

    ghost view = { λ m. merged m.gaps.now m.before (map source_view m.sources.now) };

    ghost invariant = { λ m. AreLeft m.before m.sources.now m.gaps.now };
}

impl Instructions<'_> {
    // The next entry; None behind the last.
    #[inline(always)]
    fn next_entry(&mut self) -> Option<(u32, Option<u32>)>
        ensures { YieldsFirst (λ r. r) self.old result self.new }
    {
        if let Some((native, later)) = gap_behind(self.gaps, self.before) {
            self.gaps = later;
            return Some((native, None));
        }
        let (source, later) = self.sources.split_first()?;
        self.sources = later;
        self.before += 1;
        Some((source.code_offset, Some(source.source)))
    }
}

impl<'a> Iterator for Instructions<'a> {
    ghost use Rattle.std.specs.Iterator.{YieldsFirst, item_count};

    // A code offset, and the place of its source.
    type Item = (u32, Option<u32>);

    ghost next_gives = { YieldsFirst (λ r. r) };

    ghost remaining = { item_count (λ r. r) };

    fn next(&mut self) -> Option<(u32, Option<u32>)> {
        self.next_entry()
    }
}

// Where the first of the gaps that are left begins, and those behind it, if so many sources stand in front of it.
#[inline(always)]
fn gap_behind(gaps: &[Gap], before: usize) -> Option<(u32, &[Gap])>
    ensures first { IfSome result (λ r. gaps.now ≡ record { before = before; generated = r.0 } ∷ (r.1).now) }
    ensures none { result ≡ None → (es : List Recorded) → AreGapsOf before es gaps.now → gaps_behind gaps.now before ≡ [] }
{
    let (gap, later) = gaps.split_first()?;
    if gap.before as usize != before {
        return None;
    }
    Some((gap.generated, later))
}
