//! What later passes over a unit look for, noted while its entries are laid out, so that they need not go over all attributes again.
ghost use Rattle.std.specs.Prelude.{◌≡◌, ◌++◌, ◌≤◌, ◌⊎◌, [], true, IfOk, OnOk, ◌&&◌, length};
ghost use Rattle.std.specs.List.{flat_map};
ghost use Rattle.dwc_base.specs.declared.records.Endian.{Endian};
ghost use Rattle.dwc_unit.specs.GivenUnits.{no_places, written_attributes, written_of};
ghost use Rattle.dwc_write.specs.LayoutViews.{AdvancesOrMemory};
ghost use Rattle.dwc_unit.specs.Lists.{no_lists, nowhere};
ghost use Rattle.dwc_write.specs.Noted.{are_free, if_listed, is_free};
ghost use Rattle.dwc_write.specs.ShortLists.{are_short_values};
ghost use Rattle.dwc_unit.specs.SpelledUnits.{attribute_bytes, written_bytes};
ghost use Rattle.dwc_unit.specs.declared.lists.ListKind.TheVariants.{Locations, Ranges};
ghost use Rattle.dwc_unit.specs.UsedTexts.{text_of_value, texts_of_attributes};
ghost use Rattle.dwc_section.specs.Writers.{most_bytes};

use crate::room::{Counts, NO_COUNTS, count_locations, count_ranges, count_relocated};
use crate::short_lists::has_short_values;
use crate::sizes::{advanced, block_size, constant_size, in_four_bytes};
use dwc_section::WriteError;
use dwc_unit::attributes::{Held, KeptAttribute};
use dwc_unit::file_order::FilePlace;
use std::alloc::{AllocError, Global};

// What is noted of entries, in file order.
#[derive(Drop)]
pub struct Notes {
    // those that have range lists, and those that have location lists
    pub ranged: Vec<FilePlace>,
    pub located: Vec<FilePlace>,
    // the numbers of the texts that they name, each as often as it is named
    pub texts: Vec<u32>,
    // whether the expressions of their location lists are short
    pub short: bool,
    // how much room is taken in sections
    pub counts: Counts,
}

impl Notes {
    // Nothing is noted of so many entries, of which most name one text.
    pub fn new(alloc: Global, entries: usize) -> Result<Notes, AllocError>
        ensures ranged { IfOk result (λ notes. notes.ranged.items ≡ []) }
        ensures located { IfOk result (λ notes. notes.located.items ≡ []) }
        ensures texts { IfOk result (λ notes. notes.texts.items ≡ []) }
        ensures short { IfOk result (λ notes. notes.short ≡ true) }
    {
        Ok(Notes {
            ranged: Vec::new(alloc),
            located: Vec::new(alloc),
            texts: Vec::with_capacity(alloc, entries)?,
            short: true,
            counts: NO_COUNTS,
        })
    }
}

// Notes an entry, whose attributes are given and stand at a place. Answers the place behind them.
#[tactic(auto, using(crate::proofs::NotedLaws::free_short))]
pub fn note_entry(
    notes: &mut Notes,
    entry: FilePlace,
    attributes: &[KeptAttribute],
    place: usize,
    size: u8,
) -> Result<usize, WriteError>
    requires place { place ≤ most_bytes }
    requires size { (size ≡ 4) ⊎ (size ≡ 8) }
    ensures ranged { OnOk result (notes.new.ranged.items ≡ notes.old.ranged.items ++ if_listed Ranges attributes.now entry) }
    ensures located { OnOk result (notes.new.located.items ≡ notes.old.located.items ++ if_listed Locations attributes.now entry) }
    ensures texts { OnOk result (notes.new.texts.items ≡ notes.old.texts.items ++ texts_of_attributes attributes.now) }
    ensures short { OnOk result (notes.new.short ≡ (notes.old.short && are_short_values attributes.now)) }
    ensures end { (order : Endian) → AdvancesOrMemory result place (length (flat_map (attribute_bytes order size) (written_attributes nowhere no_places no_lists attributes.now))) }
{
    let mut free = Free {
        of_ranges: true,
        of_locations: true,
    };
    let behind = note_values(
        &mut notes.counts,
        &mut notes.texts,
        &mut free,
        attributes,
        place,
        size,
    )?;
    if !free.of_ranges {
        notes.ranged.push(entry)?;
    }
    if !free.of_locations {
        notes.located.push(entry)?;
        notes.short = notes.short && has_short_values(attributes);
    }
    Ok(behind)
}

// Whether there is no range list, and no location list.
#[derive(Clone, Copy)]
struct Free {
    of_ranges: bool,
    of_locations: bool,
}

// Counts values that stand at a place, and notes the texts that they name, and which lists are none of them. Answers the place
// behind them.
fn note_values(
    counts: &mut Counts,
    texts: &mut Vec<u32>,
    free: &mut Free,
    attributes: &[KeptAttribute],
    place: usize,
    size: u8,
) -> Result<usize, WriteError>
    requires place { place ≤ most_bytes }
    requires size { (size ≡ 4) ⊎ (size ≡ 8) }
    requires ranges { free.old.of_ranges ≡ true }
    requires locations { free.old.of_locations ≡ true }
    ensures texts { OnOk result (texts.new.items ≡ texts.old.items ++ texts_of_attributes attributes.now) }
    ensures ranges { OnOk result (free.new.of_ranges ≡ are_free Ranges attributes.now) }
    ensures locations { OnOk result (free.new.of_locations ≡ are_free Locations attributes.now) }
    ensures end { (order : Endian) → AdvancesOrMemory result place (length (flat_map (attribute_bytes order size) (written_attributes nowhere no_places no_lists attributes.now))) }
{
    let mut behind = place;
    for i in 0..attributes.len() {
        let length = note_value(counts, texts, free, &attributes[i], size)?;
        behind = advanced(behind, length)?;
    }
    Ok(behind)
}

// The same of a value. Answers how many bytes it has; an offset that it names has four wherever it stands.
#[inline(always)]
fn note_value(
    counts: &mut Counts,
    texts: &mut Vec<u32>,
    free: &mut Free,
    attribute: &KeptAttribute,
    size: u8,
) -> Result<usize, AllocError>
    requires { (size ≡ 4) ⊎ (size ≡ 8) }
    ensures texts { OnOk result (texts.new.items ≡ texts.old.items ++ text_of_value attribute.now.value) }
    ensures ranges { OnOk result (free.new.of_ranges ≡ (is_free Ranges attribute.now.value && free.old.of_ranges)) }
    ensures locations { OnOk result (free.new.of_locations ≡ (is_free Locations attribute.now.value && free.old.of_locations)) }
    ensures length { IfOk result (λ count. (order : Endian) → count ≡ length (written_bytes order size (written_of no_places no_lists attribute.now.value))) }
{
    match attribute.value() {
        Held::Address(_) => {
            count_relocated(counts);
            Ok(usize::from(size))
        }
        Held::Constant { form, bits } => Ok(usize::from(constant_size(form, bits))),
        Held::Flag(_) => Ok(1),
        Held::Block(bytes) => Ok(block_size(bytes)),
        Held::Exprloc(bytes) => Ok(block_size(bytes)),
        Held::StringRef(id) => {
            count_relocated(counts);
            texts.push(in_four_bytes(id.index)?)?;
            Ok(4)
        }
        Held::LineProgramRef => {
            count_relocated(counts);
            Ok(4)
        }
        Held::RangeListRef(list) => {
            count_ranges(counts, list.as_slice());
            free.of_ranges = false;
            Ok(4)
        }
        Held::LocationListRef(locations) => {
            count_locations(counts, locations);
            free.of_locations = false;
            Ok(4)
        }
        Held::UnitRef(_) => Ok(4),
        Held::DebugInfoRef(_) => {
            count_relocated(counts);
            Ok(4)
        }
    }
}
