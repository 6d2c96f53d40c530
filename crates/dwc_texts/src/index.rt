//! The places of texts, looked up by what they say.
ghost use Rattle.std.specs.Prelude.{◌≡◌, ◌<◌, ◌++◌, ◌∷◌, ◌==◌, ◌%◌, [], ℕ, List, None, Some, IfSome, OnErr, OnOk, get_or, if◌then◌else◌, length, true};
ghost use Rattle.std.specs.BTreeMap.{get};
ghost use Rattle.std.specs.List.{position};
ghost use Rattle.std.specs.Ordering.{nat_cmp};
ghost use Rattle.std.specs.Str.{bytes_eq};
ghost use Rattle.dwc_texts.specs.TextIndexes.{AreIndexed, AreSized, HasAllSlots, IsKnown, known_place, place_behind, place_by_bytes, slot_count, slot_in, taken, text_number};

use crate::text::Text;
use std::alloc::{AllocError, Global};
use std::collections::BTreeMap;
use std::hash::{FoldHasher, Hasher};

// How many slots there are.
const SLOTS: usize = 8192;

// A slot: the number of a text, and the place behind its own; 0 where the slot is free.
#[derive(Clone, Copy)]
pub(crate) struct Slot {
    number: u64,
    behind: usize,
}

const FREE: Slot = Slot {
    number: 0,
    behind: 0,
};

// What is known of the texts of a number.
#[derive(Clone, Copy)]
pub(crate) enum Known {
    // There is none, and the slot of the number is free.
    Nothing,
    // The first of them stands there.
    First(usize),
    // There is none, and another number has the slot.
    Elsewhere,
}

impl Known {
    // Where the first text of the number stands.
    fn place(self) -> Option<usize>
        ensures { result ≡ known_place self }
    {
        match self {
            Known::First(place) => Some(place),
            Known::Nothing | Known::Elsewhere => None,
        }
    }
}

// Where texts stand in a list. The first text of a number is found by the number's slot, and in a map where another has the slot. Other texts
// of the number are found by their bytes. So most look-ups end at a slot, and no choice of texts makes one slower than a look at two maps.
#[derive(Drop)]
pub(crate) struct TextIndex {
    slots: Vec<Slot>,
    spare: BTreeMap<u64, usize>,
    others: BTreeMap<Vec<u8>, usize>,
}

// The number of a text.
#[tactic(auto, unfolding(crate::specs::TextIndexes::text_number))]
pub(crate) fn number_of(text: &[u8]) -> u64
    ensures { result ≡ text_number text.now }
{
    let mut hasher = FoldHasher::default();
    hasher.write(text);
    hasher.finish()
}

impl TextIndex {
    // An index of no texts.
    pub(crate) fn new(alloc: Global) -> TextIndex
        ensures { AreIndexed result [] }
    {
        TextIndex {
            slots: Vec::new(alloc),
            spare: BTreeMap::new(alloc),
            others: BTreeMap::new(alloc),
        }
    }

    // What is known of a number.
    pub(crate) fn known(&self, number: u64) -> Known
        ensures { IsKnown self.now.slots.items (get nat_cmp self.now.spare) number result }
    {
        known_in(&self.slots, &self.spare, number)
    }

    // The place of a text, by what is known of its number.
    pub(crate) fn find(&self, texts: &[Text], known: Known, text: &[u8]) -> Option<usize>
        requires { IfSome (known_place known) (λ place. place < length texts.now) }
        ensures { result ≡ place_behind (place_by_bytes self.now.others) texts.now text.now (known_place known) }
    {
        let first = known.place()?;
        if stands_at(texts, first, text) {
            return Some(first);
        }
        self.others.get(text).copied()
    }

    // Notes that a text with its number, which none of the texts is, stands at the place behind them; by what is known of the number.
    pub(crate) fn note(
        &mut self,
        alloc: Global,
        place: usize,
        number: u64,
        known: Known,
        text: &[u8],
    ) -> Result<(), AllocError>
        requires sized { AreSized self.old.slots.items }
        ensures ok { (ts : List (List ℕ)) → AreIndexed self.old ts → IsKnown self.old.slots.items (get nat_cmp self.old.spare) number known → number ≡ text_number text.now → place ≡ length ts → position (bytes_eq text.now) ts ≡ None → OnOk result (AreIndexed self.new (ts ++ text.now ∷ [])) }
        ensures err { (ts : List (List ℕ)) → AreIndexed self.old ts → OnErr result (AreIndexed self.new ts) }
    {
        match known {
            Known::Nothing => keep_slot(&mut self.slots, number, place),
            Known::First(_) => keep_other(alloc, &mut self.others, text, place),
            Known::Elsewhere => keep_spare(&mut self.spare, number, place),
        }
    }
}

// What is known of a number by slots and by a map of those that have none.
fn known_in(slots: &[Slot], spare: &BTreeMap<u64, usize>, number: u64) -> Known
    ensures { IsKnown slots.now (get nat_cmp spare.now) number result }
{
    let slot = slot_in(slots, number);
    if slot.behind == 0 {
        return Known::Nothing;
    }
    if slot.number == number {
        return Known::First(slot.behind - 1);
    }
    match spare.get(&number) {
        Some(place) => Known::First(*place),
        None => Known::Elsewhere,
    }
}

// The slot of a number.
fn slot_in(slots: &[Slot], number: u64) -> Slot
    ensures { result ≡ slot_in slots.now number }
{
    match slots.get(number as usize % SLOTS) {
        Some(slot) => *slot,
        None => FREE,
    }
}

// Whether a text stands at a place.
fn stands_at(texts: &[Text], place: usize, text: &[u8]) -> bool
    ensures inside { result ≡ true → place < length texts.now }
    ensures same { place < length texts.now → result ≡ bytes_eq (get_or texts.now place []) text.now }
{
    match texts.get(place) {
        Some(known) => known.as_bytes() == text,
        None => false,
    }
}

// All slots; where there were none, they are free.
fn make_slots(slots: &mut Vec<Slot>) -> Result<(), AllocError>
    requires { AreSized slots.old.items }
    ensures ok { OnOk result (HasAllSlots slots.old.items slots.new.items) }
    ensures err { OnErr result (slots.new.items ≡ slots.old.items) }
{
    if slots.is_empty() {
        slots.resize(SLOTS, FREE)?;
    }
    Ok(())
}

// Keeps a place as that of the first text of a number, in its slot.
fn keep_slot(slots: &mut Vec<Slot>, number: u64, place: usize) -> Result<(), AllocError>
    requires { AreSized slots.old.items }
    ensures sized { AreSized slots.new.items }
    ensures ok { OnOk result ((n : ℕ) → slot_in slots.new.items n ≡ (if n % slot_count == number % slot_count then taken number place else slot_in slots.old.items n)) }
    ensures err { OnErr result ((n : ℕ) → slot_in slots.new.items n ≡ slot_in slots.old.items n) }
{
    let Some(behind) = place.checked_add(1) else {
        return Err(AllocError);
    };
    make_slots(slots)?;
    slots[number as usize % SLOTS] = Slot { number, behind };
    Ok(())
}

// Keeps a place as that of the first text of a number, whose slot another has.
fn keep_spare(spare: &mut BTreeMap<u64, usize>, number: u64, place: usize) -> Result<(), AllocError>
    ensures ok { OnOk result ((n : ℕ) → get nat_cmp spare.new n ≡ (if number == n then Some place else get nat_cmp spare.old n)) }
    ensures err { OnErr result ((n : ℕ) → get nat_cmp spare.new n ≡ get nat_cmp spare.old n) }
{
    spare.insert(number, place)?;
    Ok(())
}

// Keeps the place of a text by its bytes.
fn keep_other(
    alloc: Global,
    others: &mut BTreeMap<Vec<u8>, usize>,
    text: &[u8],
    place: usize,
) -> Result<(), AllocError>
    ensures ok { OnOk result ((t : List ℕ) → place_by_bytes others.new t ≡ (if bytes_eq text.now t then Some place else place_by_bytes others.old t)) }
    ensures err { OnErr result ((t : List ℕ) → place_by_bytes others.new t ≡ place_by_bytes others.old t) }
{
    others.insert(text.to_vec(alloc)?, place)?;
    Ok(())
}
