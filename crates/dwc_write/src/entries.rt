//! Units with their entries, as they are written. (DWARF 4 and 5, section 7.5.)
ghost use Rattle.std.specs.Prelude.{◌≡◌, ◌++◌, ◌∷◌, [], ◌+◌, ◌<◌, ◌≤◌, ◌⊎◌, OnOk, map, length, get_or, replicate};
ghost use Rattle.std.specs.List.{All, flat_map};
ghost use Rattle.dwc_base.specs.NumberBytes.{sleb_bytes, uleb_bytes};
ghost use Rattle.dwc_section.specs.Spelled.{block_bytes};
ghost use Rattle.dwc_unit.specs.SpelledUnits.{attribute_bytes, entry_bytes, shaped, written_bytes};
ghost use Rattle.dwc_write.specs.SpelledRelocations.{entries_relocations, value_relocations, values_relocations};
ghost use Rattle.dwc_unit.specs.SpelledUnits.{table_place};
ghost use Rattle.dwc_write.specs.SpelledSections.{header_bytes};
ghost use Rattle.dwc_unit.specs.GivenUnits.{IsWrittenVersion, FitsAttribute, FitsEntry as FitsGivenEntry, FitsOperand, constant_of, first_uses, numbered, shapes_of, behind_entries, written_attributes, written_entries, written_of};
ghost use Rattle.dwc_unit.specs.FileOrders.{looked_up};
ghost use Rattle.dwc_write.specs.LayoutViews.{places_view, spelling_places};
ghost use Rattle.dwc_write.specs.Layouts.{AreShort, codes_of, offset_in_section, offset_of_text};
ghost use Rattle.dwc_unit.specs.SpelledTables.{table_bytes};
ghost use Rattle.dwc_write.specs.SpelledOutput.{WritesUnit};
ghost use Rattle.dwc_unit.specs.Lists.{AreWithin, behind_attributes as behind_all};
ghost use Rattle.dwc_base.specs.declared.section_name.SectionName.TheVariants.{Abbrev};
ghost use Rattle.dwc_section.specs.Writers.{Writes, most_bytes, offset_relocation};

use crate::layout::UnitLayout;
use crate::list_places::behind_value;
use crate::list_sections::{section_of_locations, section_of_ranges};
use dwc_base::constants::{
    DW_FORM_data1, DW_FORM_data2, DW_FORM_data4, DW_FORM_data8, DW_FORM_sdata, DW_UT_compile,
};
use dwc_base::{Endian, SectionName};
use dwc_section::append::{bytes_2, put_sleb};
use dwc_section::{WriteError, WriterRelocate, put_uleb};
use dwc_unit::additions::Additions;
use dwc_unit::attributes::{Held, KeptAttribute};
use dwc_unit::file_order::{FilePlace, depth_of_first};
use dwc_unit::lists::ListPlaces;
use dwc_unit::{DebugInfoRef, StringId, UnitEntryId, UnitId};

// How the values of a unit are written: the order of bytes, the version, the size of an address, and where what they name stands: the unit's
// line table, its lists with their ends, its entries by their numbers, the entries of all units, and texts by their numbers.
#[derive(Clone, Copy)]
pub struct Spelling<'a> {
    pub order: Endian,
    pub version: u16,
    pub size: u8,
    pub line_offset: usize,
    pub lists: ListPlaces,
    pub lists_end: ListPlaces,
    pub offsets: &'a [u32],
    pub units: &'a [UnitLayout],
    pub texts: &'a [Option<usize>],
}

impl Spelling<'_> {
    // The offset in the unit of one of its entries.
    fn offset_of(&self, id: UnitEntryId) -> usize
        ensures { result ≡ get_or self.now.offsets.now id.index 0 }
    {
        offset_at(self.offsets, id)
    }

    // The offset in `.debug_info` of an entry of a unit, 0 where there is no such unit.
    fn section_offset_of(&self, unit: UnitId, id: UnitEntryId) -> usize
        requires { offset_in_section (map places_view self.now.units.now) unit.index id.index ≤ most_bytes }
        ensures { result ≡ offset_in_section (map places_view self.now.units.now) unit.index id.index }
    {
        match self.units.get(unit.index) {
            Some(layout) => layout.start + offset_at(&layout.offsets, id),
            None => 0,
        }
    }

    // The offset in `.debug_str` of a text, 0 where it does not stand there.
    fn text_offset_of(&self, id: StringId) -> usize
        ensures { result ≡ offset_of_text self.now.texts.now id.index }
    {
        match self.texts.get(id.index) {
            Some(offset) => offset.unwrap_or(0),
            None => 0,
        }
    }
}

// The offset of an entry by its number, 0 where there is none.
fn offset_at(offsets: &[u32], id: UnitEntryId) -> usize
    ensures { result ≡ get_or offsets.now id.index 0 }
{
    match offsets.get(id.index) {
        Some(offset) => *offset as usize,
        None => 0,
    }
}

// A unit: its entries behind their header, in file order, and the abbreviation table that declares them.
pub fn write_unit(
    tables: &mut WriterRelocate,
    info: &mut WriterRelocate,
    scratch: &mut Vec<u8>,
    spelling: &Spelling<'_>,
    additions: &Additions,
    layout: &UnitLayout,
) -> Result<(), WriteError>
    requires order { spelling.now.order ≡ info.old.order }
    requires version { IsWrittenVersion spelling.now.version }
    requires size { (spelling.now.size ≡ 4) ⊎ (spelling.now.size ≡ 8) }
    requires short { AreShort (spelling_places spelling.now) }
    requires fits { All (FitsGivenEntry spelling.now.size) (map (looked_up additions.now) layout.now.order.items) }
    requires lists { AreWithin (behind_entries spelling.now.version spelling.now.size spelling.now.lists (map (looked_up additions.now) layout.now.order.items)) }
    requires known { All (λ f. f.index < length additions.now) layout.now.order.items }
    requires codes { layout.now.codes.items ≡ codes_of (map (looked_up additions.now) layout.now.order.items) }
    requires table { layout.now.table.items ≡ table_bytes (numbered 1 (first_uses [] (shapes_of (map (looked_up additions.now) layout.now.order.items)))) }
    ensures { WritesUnit tables.old tables.new info.old info.new result spelling.now.size spelling.now.lists (spelling_places spelling.now) (map (looked_up additions.now) layout.now.order.items) }
{
    let place = info.place();
    write_header(info, spelling, tables.place())?;
    write_entries(
        info,
        scratch,
        spelling,
        additions,
        &layout.order,
        &layout.codes,
    )?;
    info.finish_length(place);
    tables.put_bytes(&layout.table)
}

// A header: room for the length, the version, and by it the offset of the abbreviation table, the size of an address and the unit's type.
fn write_header(
    info: &mut WriterRelocate,
    spelling: &Spelling<'_>,
    table_offset: usize,
) -> Result<(), WriteError>
    requires version { IsWrittenVersion spelling.now.version }
    requires order { spelling.now.order ≡ info.old.order }
    requires table { table_offset ≤ most_bytes }
    ensures { Writes info.old info.new result (header_bytes spelling.now.version info.old.order spelling.now.size table_offset) (offset_relocation (length info.old.body + table_place spelling.now.version) 4 Abbrev table_offset ∷ []) }
{
    let version = bytes_2(spelling.order, spelling.version);
    if spelling.version < 5 {
        info.put_bytes(&[0, 0, 0, 0, version[0], version[1]])?;
        info.put_offset(table_offset, SectionName::Abbrev)?;
        return info.put_bytes(&[spelling.size]);
    }
    info.put_bytes(&[
        0,
        0,
        0,
        0,
        version[0],
        version[1],
        DW_UT_compile,
        spelling.size,
    ])?;
    info.put_offset(table_offset, SectionName::Abbrev)
}

// Entries in file order, one behind another, with the codes of their shapes.
#[inline(never)]
fn write_entries(
    info: &mut WriterRelocate,
    scratch: &mut Vec<u8>,
    spelling: &Spelling<'_>,
    additions: &Additions,
    order: &[FilePlace],
    codes: &[u32],
) -> Result<(), WriteError>
    requires order { spelling.now.order ≡ info.old.order }
    requires size { (spelling.now.size ≡ 4) ⊎ (spelling.now.size ≡ 8) }
    requires short { AreShort (spelling_places spelling.now) }
    requires fits { All (FitsGivenEntry spelling.now.size) (map (looked_up additions.now) order.now) }
    requires lists { AreWithin (behind_entries spelling.now.version spelling.now.size spelling.now.lists (map (looked_up additions.now) order.now)) }
    requires known { All (λ f. f.index < length additions.now) order.now }
    requires codes { codes.now ≡ codes_of (map (looked_up additions.now) order.now) }
    ensures { Writes info.old info.new result
        (flat_map (entry_bytes info.old.order spelling.now.size) (shaped (written_entries (behind_all spelling.now.version spelling.now.size) (spelling_places spelling.now) spelling.now.lists (first_uses [] (shapes_of (map (looked_up additions.now) order.now))) (map (looked_up additions.now) order.now))))
        (entries_relocations info.old.order spelling.now.size (length info.old.body) (shaped (written_entries (behind_all spelling.now.version spelling.now.size) (spelling_places spelling.now) spelling.now.lists (first_uses [] (shapes_of (map (looked_up additions.now) order.now))) (map (looked_up additions.now) order.now)))) }
{
    let mut lists = spelling.lists;
    for i in 0..order.len() {
        let depth = order[i].depth as usize;
        let attributes = additions.attributes(order[i].index as usize);
        let ends = depth.saturating_sub(depth_of_first(&order[i + 1..]));
        let code = u64::from(codes[i]);
        write_entry(info, scratch, spelling, &mut lists, code, attributes, ends)?;
    }
    Ok(())
}

// An entry: its code, its values, and an end for each list of siblings that ends behind it. The first of its lists stand at some
// places, and the next ones behind them.
pub fn write_entry(
    info: &mut WriterRelocate,
    scratch: &mut Vec<u8>,
    spelling: &Spelling<'_>,
    lists: &mut ListPlaces,
    code: u64,
    attributes: &[KeptAttribute],
    ends: usize,
) -> Result<(), WriteError>
    requires order { spelling.now.order ≡ info.old.order }
    requires size { (spelling.now.size ≡ 4) ⊎ (spelling.now.size ≡ 8) }
    requires short { AreShort (spelling_places spelling.now) }
    requires fits { All (FitsAttribute spelling.now.size) attributes.now }
    requires lists { AreWithin (behind_all spelling.now.version spelling.now.size lists.old attributes.now) }
    ensures bytes { Writes info.old info.new result
        (uleb_bytes code ++ (flat_map (attribute_bytes info.old.order spelling.now.size) (written_attributes (behind_all spelling.now.version spelling.now.size) (spelling_places spelling.now) lists.old attributes.now) ++ replicate ends 0))
        (values_relocations info.old.order spelling.now.size (length info.old.body + length (uleb_bytes code)) (written_attributes (behind_all spelling.now.version spelling.now.size) (spelling_places spelling.now) lists.old attributes.now)) }
    ensures lists { OnOk result (lists.new ≡ behind_all spelling.now.version spelling.now.size lists.old attributes.now) }
{
    write_uleb(info, scratch, code)?;
    write_values(info, scratch, spelling, lists, attributes)?;
    write_ends(info, ends)
}

// An unsigned LEB128 number, which mostly has one byte.
#[inline(always)]
pub(crate) fn write_uleb(
    info: &mut WriterRelocate,
    scratch: &mut Vec<u8>,
    value: u64,
) -> Result<(), WriteError>
    ensures { Writes info.old info.new result (uleb_bytes value) [] }
{
    if value < 128 {
        return info.put_byte(value as u8);
    }
    write_long_uleb(info, scratch, value)
}

// The same of any length.
#[inline(never)]
fn write_long_uleb(
    info: &mut WriterRelocate,
    scratch: &mut Vec<u8>,
    value: u64,
) -> Result<(), WriteError>
    ensures { Writes info.old info.new result (uleb_bytes value) [] }
{
    scratch.clear();
    put_uleb(scratch, value)?;
    info.put_bytes(scratch)
}

// The ends of lists of siblings.
fn write_ends(info: &mut WriterRelocate, count: usize) -> Result<(), WriteError>
    ensures { Writes info.old info.new result (replicate count 0) [] }
{
    for _ in 0..count {
        info.put_byte(0)?;
    }
    Ok(())
}

// The values of attributes, one behind another. The first of their lists stand at some places, and the next ones behind them.
fn write_values(
    info: &mut WriterRelocate,
    scratch: &mut Vec<u8>,
    spelling: &Spelling<'_>,
    lists: &mut ListPlaces,
    attributes: &[KeptAttribute],
) -> Result<(), WriteError>
    requires order { spelling.now.order ≡ info.old.order }
    requires size { (spelling.now.size ≡ 4) ⊎ (spelling.now.size ≡ 8) }
    requires short { AreShort (spelling_places spelling.now) }
    requires fits { All (FitsAttribute spelling.now.size) attributes.now }
    requires lists { AreWithin (behind_all spelling.now.version spelling.now.size lists.old attributes.now) }
    ensures bytes { Writes info.old info.new result
        (flat_map (attribute_bytes info.old.order spelling.now.size) (written_attributes (behind_all spelling.now.version spelling.now.size) (spelling_places spelling.now) lists.old attributes.now))
        (values_relocations info.old.order spelling.now.size (length info.old.body) (written_attributes (behind_all spelling.now.version spelling.now.size) (spelling_places spelling.now) lists.old attributes.now)) }
    ensures lists { OnOk result (lists.new ≡ behind_all spelling.now.version spelling.now.size lists.old attributes.now) }
{
    for i in 0..attributes.len() {
        let attribute = &attributes[i];
        write_value(info, scratch, spelling, *lists, attribute)?;
        *lists = behind_value(spelling.version, *lists, spelling.size, attribute);
    }
    Ok(())
}

// A value in its form; a list stands at a place of its kind.
fn write_value(
    info: &mut WriterRelocate,
    scratch: &mut Vec<u8>,
    spelling: &Spelling<'_>,
    lists: ListPlaces,
    attribute: &KeptAttribute,
) -> Result<(), WriteError>
    requires order { spelling.now.order ≡ info.old.order }
    requires size { (spelling.now.size ≡ 4) ⊎ (spelling.now.size ≡ 8) }
    requires short { AreShort (spelling_places spelling.now) }
    requires fits { FitsOperand spelling.now.size attribute.now.value }
    requires lists { AreWithin lists }
    ensures { Writes info.old info.new result (written_bytes info.old.order spelling.now.size (written_of (spelling_places spelling.now) lists attribute.now.value)) (value_relocations spelling.now.size (length info.old.body) (written_of (spelling_places spelling.now) lists attribute.now.value)) }
{
    match attribute.value() {
        Held::Address(address) => info.put_address(address, spelling.size),
        Held::Constant { form, bits } => write_constant(info, scratch, form, bits),
        Held::Flag(flag) => info.put_byte(u8::from(flag)),
        Held::Block(bytes) => write_block(info, scratch, bytes),
        Held::Exprloc(bytes) => write_block(info, scratch, bytes),
        Held::StringRef(id) => { info.put_offset(spelling.text_offset_of(id), SectionName::Str) }
        Held::LineProgramRef => info.put_offset(spelling.line_offset, SectionName::Line),
        Held::RangeListRef(_) => {
            info.put_offset(lists.ranges, section_of_ranges(spelling.version))
        },
        Held::LocationListRef(_) => {
            info.put_offset(lists.locations, section_of_locations(spelling.version))
        },
        Held::UnitRef(id) => info.put_number(4, spelling.offset_of(id) as u64),
        Held::DebugInfoRef(DebugInfoRef::Entry(unit, id)) => {
            info.put_offset(spelling.section_offset_of(unit, id), SectionName::Info)
        }
    }
}

// Bytes behind their length.
fn write_block(
    info: &mut WriterRelocate,
    scratch: &mut Vec<u8>,
    bytes: &[u8],
) -> Result<(), WriteError>
    ensures { Writes info.old info.new result (block_bytes bytes.now) [] }
{
    write_uleb(info, scratch, bytes.len() as u64)?;
    info.put_bytes(bytes)
}

// A constant in its form.
fn write_constant(
    info: &mut WriterRelocate,
    scratch: &mut Vec<u8>,
    form: u16,
    bits: u64,
) -> Result<(), WriteError>
    ensures { Writes info.old info.new result (written_bytes info.old.order 8 (constant_of form bits)) [] }
{
    match form {
        DW_FORM_data1 => info.put_number(1, bits),
        DW_FORM_data2 => info.put_number(2, bits),
        DW_FORM_data4 => info.put_number(4, bits),
        DW_FORM_data8 => info.put_number(8, bits),
        DW_FORM_sdata => write_sleb(info, scratch, bits.cast_signed()),
        _ => write_uleb(info, scratch, bits),
    }
}

// A signed LEB128 number.
fn write_sleb(
    info: &mut WriterRelocate,
    scratch: &mut Vec<u8>,
    value: i64,
) -> Result<(), WriteError>
    ensures { Writes info.old info.new result (sleb_bytes value) [] }
{
    scratch.clear();
    put_sleb(scratch, value)?;
    info.put_bytes(scratch)
}
