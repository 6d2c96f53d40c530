//! Where the entries of units stand, found before a byte is written: a reference names an entry by its offset, which may stand
//! behind it. (DWARF 4, sections 7.5.1 and 7.5.4.)
ghost use Rattle.std.specs.Prelude.{◌≡◌, ◌++◌, ◌∷◌, [], ℕ, List, ◌+◌, ◌<◌, ◌≤◌, ◌⊎◌, OnOk, IfOk, IfErr, ◌&&◌, get_or, length, map, replicate};
ghost use Rattle.std.specs.List.{All, AllZip, flat_map};
ghost use Rattle.dwc_base.specs.declared.records.Endian.{Endian};
ghost use Rattle.dwc_unit.specs.FileOrders.{looked_up};
ghost use Rattle.dwc_unit.specs.GivenUnits.{Addition, AreWritable, FitsOrdered, first_uses, no_places, ordered, shapes_of, size_of, written_attributes, written_entries};
ghost use Rattle.dwc_write.specs.LayoutViews.{AdvancesOrMemory, IsLaidOut, IsNoting, IsTooLong, offset_known, places_view};
ghost use Rattle.dwc_write.specs.Layouts.{codes_of, offset_among, offsets_by_number, places_of_units, unit_length, units_length};
ghost use Rattle.dwc_unit.specs.Lists.{no_lists, nowhere};
ghost use Rattle.dwc_write.specs.Noted.{if_listed};
ghost use Rattle.dwc_unit.specs.declared.lists.ListKind.TheVariants.{Locations, Ranges};
ghost use Rattle.dwc_write.specs.ShapeViews.{AreFound, shape_view};
ghost use Rattle.dwc_write.specs.ShortLists.{are_short_values};
ghost use Rattle.dwc_base.specs.NumberBytes.{uleb_bytes};
ghost use Rattle.dwc_section.specs.Spelled.{at_places};
ghost use Rattle.dwc_write.specs.SpelledOutput.{IsRefusal};
ghost use Rattle.dwc_unit.specs.SpelledUnits.{attribute_bytes, entry_bytes, header_length, shaped};
ghost use Rattle.dwc_unit.specs.UsedTexts.{texts_of_attributes};
ghost use Rattle.dwc_unit.specs.WidestGiven.{IsWideRefusal};
ghost use Rattle.dwc_section.specs.Writers.{most_bytes};

use crate::abbreviations::{code_of_entry, put_table};
use crate::notes::{Notes, note_entry};
use crate::shapes::Shapes;
use crate::sizes::{advanced, in_four_bytes};
use dwc_section::WriteError;
use dwc_section::leb_sizes::uleb_length;
use dwc_unit::Unit;
use dwc_unit::additions::Additions;
use dwc_unit::attributes::KeptAttribute;
use dwc_unit::file_order::{FilePlace, depth_of_first, file_order};
use dwc_unit::small_places::SmallPlace;
use std::alloc::{AllocError, Global};

// The bytes of the header of a unit of a version.
fn header_length(version: u16) -> usize
    ensures { result ≡ header_length version }
{
    if version < 5 { 11 } else { 12 }
}

// Room is made at first for so many shapes.
const USUAL_SHAPES: usize = 14;

// Most declarations have no more bytes.
const USUAL_BYTES: usize = 16;

// How many guesses of shapes are kept: for 64 tags, with children or without, and 8 numbers of attributes.
const GUESSES: usize = 1024;

// A unit as it will stand.
#[derive(Drop)]
pub struct UnitLayout {
    // where it begins in `.debug_info`, and how long it is
    pub start: usize,
    pub length: usize,
    // its entries in file order, the codes of their shapes, and the table that declares these
    pub order: Vec<FilePlace>,
    pub codes: Vec<u32>,
    pub table: Vec<u8>,
    // what is noted of its entries
    pub notes: Notes,
    // the offsets in it of its entries by their numbers, 0 for a number that is only reserved
    pub offsets: Vec<u32>,
}

// The entries of a unit in file order, with what is found of them.
#[derive(Drop)]
struct Coded {
    shapes: Shapes,
    codes: Vec<u32>,
    offsets: Vec<u32>,
    notes: Notes,
}

/// Units one behind another, before they are written. `TooLarge` is answered only where `.debug_info` would have more than 2^31 - 1
/// bytes, and `OutOfMemory` for want of memory.
pub fn lay_out(alloc: Global, units: &[Unit]) -> Result<Vec<UnitLayout>, WriteError>
    requires { AreWritable (map ordered units.now) }
    ensures places { IfOk result (λ ls. (order : Endian) → map places_view ls.items ≡ places_of_units order (size_of (map ordered units.now)) 0 (map ordered units.now)) }
    ensures units { IfOk result (λ ls. AllZip IsLaidOut units.now ls.items) }
    ensures short { OnOk result ((order : Endian) → units_length order (map ordered units.now) ≤ most_bytes) }
    ensures large { IfErr result (λ e. (order : Endian) (texts : List (List ℕ)) → IsRefusal order texts (map ordered units.now) e) }
    ensures widest { IfErr result (λ e. (texts : List (List ℕ)) → IsWideRefusal texts (map ordered units.now) e) }
{
    let mut layouts = Vec::with_capacity(alloc, units.len())?;
    let mut start = 0;
    for i in 0..units.len() {
        let layout = lay_out_unit(alloc, &units[i], start)?;
        start = advanced(start, layout.length)?;
        layouts.push(layout)?;
    }
    Ok(layouts)
}

// A unit that begins at a place.
fn lay_out_unit(alloc: Global, unit: &Unit, start: usize) -> Result<UnitLayout, WriteError>
    ensures unit { IfOk result (λ l. IsLaidOut unit.now l) }
    ensures places { IfOk result (λ l. (order : Endian) → places_view l ≡ record { start = start; offsets = offsets_by_number order unit.now.address_size (ordered unit.now) }) }
    ensures length { IfOk result (λ l. (order : Endian) → l.length ≡ unit_length order unit.now.address_size (ordered unit.now)) }
    ensures large { IfErr result (λ e. (order : Endian) → IsTooLong e (unit_length order unit.now.address_size (ordered unit.now))) }
    ensures fits { FitsOrdered (ordered unit.now) }
{
    let order = file_order(alloc, &unit.additions)?;
    let mut coded = Coded {
        shapes: Shapes::with_capacity(alloc, order.len().min(USUAL_SHAPES))?,
        codes: Vec::with_capacity(alloc, order.len())?,
        offsets: Vec::with_capacity(alloc, order.len())?,
        notes: Notes::new(alloc, order.len())?,
    };
    let length = place_entries(
        alloc,
        unit.version,
        unit.address_size,
        &unit.additions,
        &order,
        &mut coded,
    )?;
    let by_place = offsets_by_place(alloc, &order, &coded.offsets, unit.additions.len())?;
    let mut table = Vec::with_capacity(alloc, coded.shapes.len().saturating_mul(USUAL_BYTES))?;
    put_table(&mut table, coded.shapes.as_slice())?;
    let Coded { codes, notes, .. } = coded;
    Ok(UnitLayout {
        start,
        length,
        order,
        codes,
        table,
        notes,
        offsets: offsets_by_number(alloc, &unit.places, &by_place)?,
    })
}

// Entries one behind another: their codes and their offsets in the unit. Answers how long the unit is.
#[inline(never)]
fn place_entries(
    alloc: Global,
    version: u16,
    size: u8,
    additions: &Additions,
    order: &[FilePlace],
    coded: &mut Coded,
) -> Result<usize, WriteError>
    requires size { (size ≡ 4) ⊎ (size ≡ 8) }
    requires known { All (λ f. f.index < length additions.now) order.now }
    requires shapes { map shape_view coded.old.shapes.shapes.items ≡ [] }
    requires found { AreFound coded.old.shapes }
    requires codes { coded.old.codes.items ≡ [] }
    requires offsets { coded.old.offsets.items ≡ [] }
    requires notes { IsNoting additions.now coded.old.notes [] }
    ensures shapes { OnOk result (map shape_view coded.new.shapes.shapes.items ≡ first_uses [] (shapes_of (map (looked_up additions.now) order.now))) }
    ensures codes { OnOk result (coded.new.codes.items ≡ codes_of (map (looked_up additions.now) order.now)) }
    ensures offsets { OnOk result ((o : Endian) → coded.new.offsets.items ≡ at_places (entry_bytes o size) (λ place x. place ∷ []) (header_length version) (shaped (written_entries nowhere no_places no_lists (first_uses [] (shapes_of (map (looked_up additions.now) order.now))) (map (looked_up additions.now) order.now)))) }
    ensures notes { OnOk result (IsNoting additions.now coded.new.notes (map (looked_up additions.now) order.now)) }
    ensures end { (o : Endian) → AdvancesOrMemory result (header_length version) (length (flat_map (entry_bytes o size) (shaped (written_entries nowhere no_places no_lists (first_uses [] (shapes_of (map (looked_up additions.now) order.now))) (map (looked_up additions.now) order.now))))) }
{
    let mut words = Vec::new(alloc);
    // the places of the shapes that were last found for entries alike
    let mut guesses = [0; GUESSES];
    let mut place = header_length(version);
    for i in 0..order.len() {
        let depth = order[i].depth as usize;
        let index = order[i].index as usize;
        let tag = additions.tag(index);
        let attributes = additions.attributes(index);
        let next = depth_of_first(&order[i + 1..]);
        let alike = guess_place(tag, depth < next, attributes.len());
        let code = code_of_entry(
            &mut coded.shapes,
            &mut words,
            guesses[alike],
            tag,
            depth < next,
            attributes,
        )?;
        guesses[alike] = code - 1;
        coded.codes.push(in_four_bytes(code as usize)?)?;
        coded.offsets.push(in_four_bytes(place)?)?;
        place = place_entry(
            &mut coded.notes,
            order[i],
            attributes,
            place,
            size,
            code,
            depth.saturating_sub(next),
        )?;
    }
    Ok(place)
}

// The place of the guess for an entry: alike are those of a tag with as many attributes, and with children or without.
fn guess_place(tag: u16, has_children: bool, count: usize) -> usize
    ensures { result < 1024 }
{
    let kind = usize::from(tag)
        .wrapping_mul(2)
        .wrapping_add(usize::from(has_children));
    kind.wrapping_mul(8).wrapping_add(count) % GUESSES
}

// Notes an entry at a place. Answers the place behind it: behind its code, its values, and an end for each list of siblings that ends.
fn place_entry(
    notes: &mut Notes,
    entry: FilePlace,
    attributes: &[KeptAttribute],
    place: usize,
    size: u8,
    code: u64,
    ends: usize,
) -> Result<usize, WriteError>
    requires place { place ≤ most_bytes }
    requires size { (size ≡ 4) ⊎ (size ≡ 8) }
    ensures ranged { OnOk result (notes.new.ranged.items ≡ notes.old.ranged.items ++ if_listed Ranges attributes.now entry) }
    ensures located { OnOk result (notes.new.located.items ≡ notes.old.located.items ++ if_listed Locations attributes.now entry) }
    ensures texts { OnOk result (notes.new.texts.items ≡ notes.old.texts.items ++ texts_of_attributes attributes.now) }
    ensures short { OnOk result (notes.new.short ≡ (notes.old.short && are_short_values attributes.now)) }
    ensures end { (order : Endian) → AdvancesOrMemory result place (length (uleb_bytes code ++ (flat_map (attribute_bytes order size) (written_attributes nowhere no_places no_lists attributes.now) ++ replicate {A = ℕ} ends 0))) }
{
    let behind_code = advanced(place, usize::from(uleb_length(code)))?;
    let behind_values = note_entry(notes, entry, attributes, behind_code, size)?;
    Ok(advanced(behind_values, ends)?)
}

// The offsets of entries by their places in the order of addition, of which there are so many. The first of a place counts.
fn offsets_by_place(
    alloc: Global,
    order: &[FilePlace],
    offsets: &[u32],
    count: usize,
) -> Result<Vec<u32>, AllocError>
    requires known { All (λ f. f.index < count) order.now }
    requires each { length offsets.now ≡ length order.now }
    ensures { IfOk result (λ found. (added : List Addition) → (place : ℕ) → get_or found.items place 0 ≡ offset_among place (map (looked_up added) order.now) offsets.now) }
{
    let mut found = vec![in alloc; 0; count]?;
    let mut k = order.len();
    while k > 0 {
        k -= 1;
        found[order[k].index as usize] = offsets[k];
    }
    Ok(found)
}

// The offsets of entries by their numbers, whose places in the order of addition are given.
fn offsets_by_number(
    alloc: Global,
    places: &[SmallPlace],
    by_place: &[u32],
) -> Result<Vec<u32>, AllocError>
    ensures { IfOk result (λ offsets. offsets.items ≡ map (offset_known by_place.now) places.now) }
{
    let mut offsets = Vec::with_capacity(alloc, places.len())?;
    for place in places {
        offsets.push(known_offset(by_place, place.get()))?;
    }
    Ok(offsets)
}

// The offset of an entry by its place in the order of addition, where it has one.
fn known_offset(by_place: &[u32], place: Option<usize>) -> u32
    ensures { result ≡ offset_known by_place.now place }
{
    match place {
        Some(place) if place < by_place.len() => by_place[place],
        _ => 0,
    }
}
