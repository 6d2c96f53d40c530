//! Where the entries of a module stand in the output.
ghost use Rattle.std.specs.Prelude.{◌≡◌, ◌<◌, ◌≤◌, ◌+◌, [], ◌++◌, true, false, get_or, length, map, option_map, OnOk};
ghost use Rattle.std.specs.List.Sorted.{IsNonDecreasingBy};
ghost use Rattle.dwc_source.specs.declared.places.EmittedEntry.{EmittedEntry};
ghost use Rattle.dwc_source.specs.OutputPlaces.{AreBefore, numbered, offsets_of, place_at, place_of, place_pair};

use std::alloc::{AllocError, Global};
use std::marker::Model;

// Parts of `.debug_info` have 2^6 bytes, in which few entries stand.
const PART_BITS: u32 = 6;

/// Where an entry stands in the output: the number of its unit, and its own number there.
#[derive(Clone, Copy)]
pub struct OutputPlace {
    pub unit: usize,
    pub entry: usize,
}

/// An entry of the input that the output has, by its offset in `.debug_info`, with where it stands there.
#[derive(Clone, Copy)]
pub(crate) struct EmittedEntry {
    pub offset: u32,
    pub unit: u32,
    pub entry: u32,
}

/// The entries of a module that the output has, in the order of their offsets in `.debug_info`.
#[derive(Drop)]
pub struct Places {
    entries: Vec<EmittedEntry>,
    // For each part of `.debug_info` how many entries stand before it, as a hint.
    before: Vec<u32>,
}

impl Model for Places {
    ghost use Rattle.std.specs.Prelude.{List};
    ghost use Rattle.std.specs.List.Sorted.{IsNonDecreasingBy};
    ghost use Rattle.dwc_source.specs.declared.places.EmittedEntry as declared;
    ghost use Rattle.dwc_source.specs.OutputPlaces.{offsets_of};

    ghost Value = { List declared.EmittedEntry };

    ghost view = { λ p. p.entries.items };

    ghost invariant = { λ p. IsNonDecreasingBy (λ offset. offset) (offsets_of p.entries.items) };
}

impl Places {
    /// No entries.
    pub fn new(alloc: Global) -> Places
        ensures { result ≡ [] }
    {
        Places {
            entries: Vec::new(alloc),
            before: Vec::new(alloc),
        }
    }

    /// Adds the entries of the unit of a number of the output, by their offsets in file order, behind those of the units before it.
    ///
    /// # Errors
    /// `AllocError` for want of memory, and for a number of 2^32 or more.
    pub fn add_unit(&mut self, unit: usize, offsets: &[u32]) -> Result<(), AllocError>
        requires rising { IsNonDecreasingBy (λ offset. offset) (offsets_of self.old ++ offsets.now) }
        ensures { OnOk result (self.new ≡ self.old ++ numbered unit 0 offsets.now) }
    {
        let Ok(unit) = u32::try_from(unit) else {
            return Err(AllocError);
        };
        let first = self.entries.len();
        add_offsets(&mut self.entries, unit, offsets)?;
        note_parts(&mut self.before, first, offsets)
    }

    /// Where the entry at an offset stands in the output; None where it is not in it.
    #[inline(always)]
    pub fn find(&self, offset: u32) -> Option<OutputPlace>
        ensures { option_map place_pair result ≡ place_of self.now offset }
    {
        match self.before.get(part_of(offset)) {
            None => found(&self.entries, offset),
            Some(count) => found_near(&self.entries, *count as usize, offset),
        }
    }
}

// The part of `.debug_info` that an offset lies in.
fn part_of(offset: u32) -> usize {
    (offset >> PART_BITS) as usize
}

// Notes for each part up to that of the last of some offsets how many entries stand before it, as so many stand before the first of these.
fn note_parts(before: &mut Vec<u32>, first: usize, offsets: &[u32]) -> Result<(), AllocError> {
    for i in 0..offsets.len() {
        let part = part_of(offsets[i]);
        if before.len() <= part {
            let Ok(count) = u32::try_from(first.saturating_add(i)) else {
                return Err(AllocError);
            };
            before.resize(part.saturating_add(1), count)?;
        }
    }
    Ok(())
}

// Adds entries of a unit by their offsets; a front of them where memory ends.
fn add_offsets(
    entries: &mut Vec<EmittedEntry>,
    unit: u32,
    offsets: &[u32],
) -> Result<(), AllocError>
    requires rising { IsNonDecreasingBy (λ offset. offset) (offsets_of entries.old.items ++ offsets.now) }
    ensures added { OnOk result (entries.new.items ≡ entries.old.items ++ numbered unit 0 offsets.now) }
    ensures rising { IsNonDecreasingBy (λ offset. offset) (offsets_of entries.new.items) }
{
    entries.reserve(offsets.len())?;
    for i in 0..offsets.len() {
        let Ok(entry) = u32::try_from(i) else {
            return Err(AllocError);
        };
        entries.push(EmittedEntry {
            offset: offsets[i],
            unit,
            entry,
        })?;
    }
    Ok(())
}

// The place of the first entry at an offset, among entries whose offsets do not fall.
fn found(entries: &[EmittedEntry], offset: u32) -> Option<OutputPlace>
    requires { IsNonDecreasingBy (λ offset. offset) (offsets_of entries.now) }
    ensures { option_map place_pair result ≡ place_of entries.now offset }
{
    let place = entries.partition_point(|entry| entry.offset < offset);
    match entries.get(place) {
        None => None,
        Some(entry) => place_if(*entry, offset),
    }
}

// The place of an entry, if that stands at an offset.
fn place_if(entry: EmittedEntry, offset: u32) -> Option<OutputPlace>
    ensures { option_map place_pair result ≡ place_at offset entry }
{
    if entry.offset != offset {
        return None;
    }
    Some(OutputPlace {
        unit: entry.unit as usize,
        entry: entry.entry as usize,
    })
}

// Whether there is an entry at a place, and it stands before an offset.
fn is_before(entries: &[EmittedEntry], place: usize, offset: u32) -> bool
    ensures before { result ≡ true → AreBefore offset entries.now (place + 1) }
    ensures behind { result ≡ false → (d : EmittedEntry) → place < length entries.now → offset ≤ (get_or entries.now place d).offset }
{
    place < entries.len() && entries[place].offset < offset
}

// Whether so many entries stand before an offset, among those whose offsets do not fall.
fn are_before(entries: &[EmittedEntry], count: usize, offset: u32) -> bool
    ensures { result ≡ true → AreBefore offset entries.now count }
{
    match count.checked_sub(1) {
        None => true,
        Some(last) => is_before(entries, last, offset),
    }
}

// The place of the first entry at an offset, among entries whose offsets do not fall, and of which so many stand before it at least.
fn found_behind(entries: &[EmittedEntry], count: usize, offset: u32) -> Option<OutputPlace>
    requires rising { IsNonDecreasingBy (λ offset. offset) (offsets_of entries.now) }
    requires before { AreBefore offset entries.now count }
    ensures { option_map place_pair result ≡ place_of entries.now offset }
{
    let mut place = count;
    while is_before(entries, place, offset) {
        place += 1;
    }
    match entries.get(place) {
        None => None,
        Some(entry) => place_if(*entry, offset),
    }
}

// The same, where it is likely that so many stand before it.
fn found_near(entries: &[EmittedEntry], count: usize, offset: u32) -> Option<OutputPlace>
    requires { IsNonDecreasingBy (λ offset. offset) (offsets_of entries.now) }
    ensures { option_map place_pair result ≡ place_of entries.now offset }
{
    if are_before(entries, count, offset) {
        return found_behind(entries, count, offset);
    }
    found(entries, offset)
}
