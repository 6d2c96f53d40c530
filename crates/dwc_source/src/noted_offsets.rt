//! What is noted of the texts of a section, by the offsets where they stand.
ghost use Rattle.std.specs.Prelude.{◌≡◌, ◌≤◌, ◌==◌, ◌%◌, ◌⊎◌, ℕ, None, Some, IfSome, OnErr, OnOk, if◌then◌else◌, length, true, false};
ghost use Rattle.std.specs.BTreeMap.{get};
ghost use Rattle.std.specs.Ordering.{nat_cmp};
ghost use Rattle.dwc_source.specs.NotedOffsets.{HoldsOther, IsTold, id_told, noted_at, slot_count, slot_in};

use dwc_unit::StringId;
use std::alloc::{AllocError, Global};
use std::collections::BTreeMap;

// How many slots there are.
const SLOTS: usize = 8192;

// A slot: the offset of a text, and 2 more than its number in the table of texts; 1 where it has none, 0 where the slot is free.
#[derive(Clone, Copy)]
pub(crate) struct Slot {
    offset: u64,
    told: usize,
}

const FREE: Slot = Slot { offset: 0, told: 0 };

// What is noted of texts: the number of each in the table of texts, if it was added there. One is found by the slot of its offset, and in a
// map where another text has the slot. So most look-ups end at a slot, and no choice of offsets makes one slower than a look at the map.
#[derive(Drop)]
pub(crate) struct NotedOffsets {
    slots: Vec<Slot>,
    others: BTreeMap<u64, Option<StringId>>,
}

impl NotedOffsets {
    // Nothing is noted yet.
    pub(crate) fn new(alloc: Global) -> NotedOffsets
        ensures { (n : ℕ) → noted_at result n ≡ None }
    {
        NotedOffsets {
            slots: Vec::new(alloc),
            others: BTreeMap::new(alloc),
        }
    }

    // What is noted of the text at an offset.
    pub(crate) fn find(&self, offset: u64) -> Option<Option<StringId>>
        ensures { result ≡ noted_at self.now offset }
    {
        let slot = slot_in(&self.slots, offset);
        if slot.told == 0 {
            return self.others.get(&offset).copied();
        }
        if slot.offset == offset {
            return Some(id_told(slot.told));
        }
        self.others.get(&offset).copied()
    }

    // Notes the number of the text at an offset, if it has one.
    pub(crate) fn note(&mut self, offset: u64, id: Option<StringId>) -> Result<(), AllocError>
        ensures ok { OnOk result ((n : ℕ) → noted_at self.new n ≡ (if offset == n then Some id else noted_at self.old n)) }
        ensures err { OnErr result ((n : ℕ) → noted_at self.new n ≡ noted_at self.old n) }
    {
        if holds_other(slot_in(&self.slots, offset), offset) {
            return keep_other(&mut self.others, offset, id);
        }
        let Some(told) = told_id(id) else {
            return Err(AllocError);
        };
        keep_slot(&mut self.slots, Slot { offset, told })
    }
}

// The slot of an offset.
fn slot_in(slots: &[Slot], offset: u64) -> Slot
    ensures { result ≡ slot_in slots.now offset }
{
    match slots.get(offset as usize % SLOTS) {
        Some(slot) => *slot,
        None => FREE,
    }
}

// Whether a slot is that of a text at another offset.
fn holds_other(slot: Slot, offset: u64) -> bool
    ensures other { result ≡ true → HoldsOther slot offset }
    ensures own { result ≡ false → (slot.told ≡ 0) ⊎ (slot.offset ≡ offset) }
{
    slot.told != 0 && slot.offset != offset
}

// The number that a slot tells of its text.
fn id_told(told: usize) -> Option<StringId>
    ensures { result ≡ id_told told }
{
    if told < 2 {
        return None;
    }
    Some(StringId { index: told - 2 })
}

// What a slot tells of a text with this number, or with none.
fn told_id(id: Option<StringId>) -> Option<usize>
    ensures { IfSome result (λ told. IsTold told id) }
{
    match id {
        Some(id) => id.index.checked_add(2),
        None => Some(1),
    }
}

// All slots; those that there were stay.
fn make_slots(slots: &mut Vec<Slot>) -> Result<(), AllocError>
    ensures all { OnOk result (slot_count ≤ length slots.new.items) }
    ensures same { (n : ℕ) → slot_in slots.new.items n ≡ slot_in slots.old.items n }
{
    if slots.len() < SLOTS {
        slots.resize(SLOTS, FREE)?;
    }
    Ok(())
}

// Keeps a slot at its place.
fn keep_slot(slots: &mut Vec<Slot>, slot: Slot) -> Result<(), AllocError>
    ensures ok { OnOk result ((n : ℕ) → slot_in slots.new.items n ≡ (if n % slot_count == slot.offset % slot_count then slot else slot_in slots.old.items n)) }
    ensures err { OnErr result ((n : ℕ) → slot_in slots.new.items n ≡ slot_in slots.old.items n) }
{
    make_slots(slots)?;
    slots[slot.offset as usize % SLOTS] = slot;
    Ok(())
}

// Keeps the number of the text at an offset, whose slot another text has.
fn keep_other(
    others: &mut BTreeMap<u64, Option<StringId>>,
    offset: u64,
    id: Option<StringId>,
) -> Result<(), AllocError>
    ensures ok { OnOk result ((n : ℕ) → get nat_cmp others.new n ≡ (if offset == n then Some id else get nat_cmp others.old n)) }
    ensures err { OnErr result ((n : ℕ) → get nat_cmp others.new n ≡ get nat_cmp others.old n) }
{
    others.insert(offset, id)?;
    Ok(())
}
