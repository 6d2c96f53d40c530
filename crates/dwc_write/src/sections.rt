//! The sections of an output.
ghost use Rattle.std.specs.Prelude.{◌≡◌, ◌+◌, ◌<◌, ◌≤◌, ◌↔◌, ◌⊎◌, ℕ, List, ◌++◌, false, true, get_or, length, None, Err, OnOk, IfOk, IfErr, IsOkUnless, map};
ghost use Rattle.dwc_base.specs.declared.records.Endian.{Endian};
ghost use Rattle.std.specs.List.{All, AllZip};
ghost use Rattle.dwc_dwarf.specs.ReadUnits.{units};
ghost use Rattle.dwc_native.specs.CallFrames.{is_sound_if};
ghost use Rattle.dwc_output.specs.Fields.{AreRelocated, IsRelocated};
ghost use Rattle.dwc_output.specs.FramesCarried.{FramesCarried, others_in};
ghost use Rattle.dwc_output.specs.OutputForm.{HasDistinctNames, HaveTargetForm};
ghost use Rattle.dwc_output.specs.OwnDirectories.{AreOfVersion5};
ghost use Rattle.dwc_base.specs.Outputs.{output_sections, section_view};
ghost use Rattle.dwc_dwarf.specs.TreeLaws.{HasTextsOnce};
ghost use Rattle.dwc_base.specs.declared.faults.Limit.TheVariants.{Expression};
ghost use Rattle.dwc_output.specs.TreeReading.{CarriesTrees};
ghost use Rattle.dwc_section.specs.declared.error.WriteError.TheVariants.{OutOfMemory, TooLarge};
ghost use Rattle.dwc_frames.specs.Frames.{IsFrameRefusal, common_given, descriptions_given, first_refusal, optional_section, refused_frames, told_refusal, widest_given_frames};
ghost use Rattle.dwc_write.specs.GivenFrames.{given_frames};
ghost use Rattle.dwc_unit.specs.GivenLines.{FitsLines};
ghost use Rattle.dwc_unit.specs.GivenTrees.{given_trees};
ghost use Rattle.dwc_unit.specs.GivenUnits.{AreShortUnits, AreWritable, FitsEntry, FitsOrdered, GivenEntry, HaveShortLists, in_file_order, lists_of_entries, ordered, size_of, version_of};
ghost use Rattle.dwc_output.specs.Versions.{are_short_in};
ghost use Rattle.dwc_unit.specs.Lists.{AreWithin, ListEntry, contribution_bytes, locations_in, ranges_in};
ghost use Rattle.dwc_write.specs.declared.layout.UnitLayout.{UnitLayout};
ghost use Rattle.dwc_write.specs.LayoutViews.{IsLaidOut, IsNoting, places_view};
ghost use Rattle.dwc_write.specs.Layouts.{AreShort, first_place, lists_from, offset_of_text, offsets_by_number, places_in, places_of_units, units_length};
ghost use Rattle.dwc_write.specs.SpelledOutput.{AreSpelled, AreWellMade, IsRefusal, IsRefusalAmong, WritesLists, WritesOne, all_units, empty_sections, entries_alone, section_unless_empty, sections_of, spelled_sections};
ghost use Rattle.dwc_section.specs.RisingRelocations.{DoRelocationsRise};
ghost use Rattle.dwc_write.specs.PathViews.{IsPathLayout};
ghost use Rattle.dwc_write.specs.ReadBack.{ReadsBack};
ghost use Rattle.dwc_write.specs.SectionViews.{sections_view, tables_view};
ghost use Rattle.dwc_unit.specs.UsedTexts.{HaveTexts};
ghost use Rattle.dwc_unit.specs.WidestGiven.{IsWideRefusal};
ghost use Rattle.dwc_section.specs.Writers.{IsSound, most_bytes};

use crate::entries::{Spelling, write_unit};
use crate::layout::{UnitLayout, lay_out};
use crate::line_names::{LineNames, write_names};
use crate::list_sections::{section_of_locations, section_of_ranges};
use crate::lists::write_lists;
use crate::notes::Notes;
use crate::room::NO_COUNTS;
use crate::short_lists::are_short_lists;
use crate::tables::write_lines;
use crate::text_layout::{lay_out_texts, write_texts};
use crate::unit_names::{lay_out_names, own_directory};
use dwc_base::{DwarfSection, Endian, Limit, SectionName};
use dwc_frames::FrameTable;
use dwc_frames::frames::{check_table, write_table};
use dwc_section::{WriteError, WriterRelocate};
use dwc_texts::Text;
use dwc_unit::additions::Additions;
use dwc_unit::lists::{ListKind, ListPlaces};
use dwc_unit::{Dwarf, Unit, UnitTable};
use std::alloc::Global;

// The bytes in front of the lists of a unit of version 5.
const LIST_HEADER_LENGTH: usize = 12;

// The sections as they are written.
#[derive(Drop)]
pub(crate) struct Sections {
    pub(crate) abbrev: WriterRelocate,
    pub(crate) info: WriterRelocate,
    pub(crate) line: WriterRelocate,
    pub(crate) ranges: WriterRelocate,
    pub(crate) locations: WriterRelocate,
}

/// The sections `.debug_abbrev`, `.debug_info`, `.debug_line`, `.debug_ranges`, `.debug_loc` and `.debug_str` of some units of version 4, or
/// `.debug_abbrev`, `.debug_info`, `.debug_line`, `.debug_line_str`, `.debug_rnglists`, `.debug_loclists` and `.debug_str` of some of version 5,
/// in this order, and `.debug_frame` of a frame table behind them; those that are empty are left out. All units have one version. Each text
/// that an entry names stands once, in the order of first use, and no other, and so does each name in a line table of version 5. Directory 0
/// of such a table is the compilation directory of its unit.
///
/// # Errors
/// `InvalidFrameCodeOffset` and `InvalidFrameDataOffset` are answered exactly for the first frame description that cannot be written,
/// which comes first of all. `TooLarge` is answered for an expression exactly where one of a location list of version 4 has more than 65,535
/// bytes, which comes next, else for a section only where it would have more than 2^31 - 1 bytes, and `OutOfMemory` for want of memory. (DWARF 4 and 5,
/// sections 2.6, 6.2, 6.4 and 7.5.)
pub fn write_sections(
    alloc: Global,
    dwarf: Dwarf,
    frames: Option<FrameTable>,
    order: Endian,
) -> Result<Vec<DwarfSection>, WriteError>
    requires units { AreWritable (map ordered dwarf.units.units.items) }
    requires texts { HaveTexts dwarf.strings (map ordered dwarf.units.units.items) }
    requires sound { is_sound_if (common_given frames) ≡ true }
    requires unit { 0 < length (descriptions_given frames) → 0 < length dwarf.units.units.items }
    ensures sections { IfOk result (λ s. map section_view s.items ≡ spelled_sections order dwarf.strings (map ordered dwarf.units.units.items) ++ given_frames order frames dwarf.units.units.items) }
    ensures spelled { IfOk result (λ s. AreSpelled order (map section_view s.items)) }
    ensures sound { IfOk result (λ s. All (IsSound order) (map section_view s.items)) }
    ensures rise { IfOk result (λ s. All DoRelocationsRise (map section_view s.items)) }
    ensures read { IfOk result (λ s. ReadsBack order (map ordered dwarf.units.units.items) (map section_view s.items)) }
    ensures trees { IfOk result (λ s. CarriesTrees order (given_trees dwarf.strings (map ordered dwarf.units.units.items)) (map section_view s.items)) }
    ensures texts_once { IfOk result (λ s. HasTextsOnce (output_sections order (map section_view s.items))) }
    ensures form { IfOk result (λ s. (version size : ℕ) → All (λ u. u.version ≡ version) dwarf.units.units.items → All (λ u. u.address_size ≡ size) dwarf.units.units.items → HaveTargetForm version size (units (output_sections order (map section_view s.items))).items) }
    ensures of_5 { IfOk result (λ s. (version : ℕ) → All (λ u. u.version ≡ version) dwarf.units.units.items → AreOfVersion5 version (output_sections order (map section_view s.items)) (units (output_sections order (map section_view s.items))).items) }
    ensures names { IfOk result (λ s. HasDistinctNames (map section_view s.items)) }
    ensures relocated { IfOk result (λ s. All (IsRelocated (output_sections order (map section_view s.items))) (others_in (map section_view s.items))) }
    ensures frames { IfOk result (λ s. FramesCarried order (size_of (map ordered dwarf.units.units.items)) (common_given frames) (descriptions_given frames) (map section_view s.items)) }
    ensures refused { told_refusal result ≡ first_refusal (refused_frames frames) }
    ensures expressions { first_refusal (refused_frames frames) ≡ None → ((result ≡ Err (TooLarge Expression)) ↔ (are_short_in (version_of (map ordered dwarf.units.units.items)) (given_trees dwarf.strings (map ordered dwarf.units.units.items)) ≡ false)) }
    ensures large { IfErr result (λ e. IsRefusal order dwarf.strings (map ordered dwarf.units.units.items) e ⊎ IsFrameRefusal (widest_given_frames frames) e) }
    ensures widest { IfErr result (λ e. IsWideRefusal dwarf.strings (map ordered dwarf.units.units.items) e ⊎ IsFrameRefusal (widest_given_frames frames) e) }
{
    check_table(&frames)?;
    let size = address_size_of(dwarf.units.units.as_slice());
    let mut sections = write_unit_sections(alloc, dwarf, order)?;
    let section = write_table(alloc, order, size, &frames)?;
    push_optional(&mut sections, section)?;
    Ok(sections)
}

// The size of the addresses of units, which is that of the first.
fn address_size_of(units: &[Unit]) -> u8
    ensures size { result ≡ size_of (map ordered units.now) }
    ensures known { (result ≡ 4) ⊎ (result ≡ 8) }
{
    match units {
        [] => 8,
        [first, ..] => address_size(first),
    }
}

// The size of the addresses of a unit.
fn address_size(unit: &Unit) -> u8
    ensures size { result ≡ unit.now.address_size }
    ensures known { (result ≡ 4) ⊎ (result ≡ 8) }
{
    unit.address_size
}

// The sections of units and of the texts that they name.
fn write_unit_sections(
    alloc: Global,
    dwarf: Dwarf,
    order: Endian,
) -> Result<Vec<DwarfSection>, WriteError>
    requires units { AreWritable (map ordered dwarf.units.units.items) }
    requires texts { HaveTexts dwarf.strings (map ordered dwarf.units.units.items) }
    ensures sections { IfOk result (λ s. map section_view s.items ≡ spelled_sections order dwarf.strings (map ordered dwarf.units.units.items)) }
    ensures made { IfOk result (λ s. AreWellMade dwarf.strings (map ordered dwarf.units.units.items)) }
    ensures sound { IfOk result (λ s. All (IsSound order) (map section_view s.items)) }
    ensures rise { IfOk result (λ s. All DoRelocationsRise (map section_view s.items)) }
    ensures read { IfOk result (λ s. ReadsBack order (map ordered dwarf.units.units.items) (map section_view s.items)) }
    ensures trees { IfOk result (λ s. CarriesTrees order (given_trees dwarf.strings (map ordered dwarf.units.units.items)) (map section_view s.items)) }
    ensures texts_once { IfOk result (λ s. HasTextsOnce (output_sections order (map section_view s.items))) }
    ensures form { IfOk result (λ s. (version size : ℕ) → All (λ u. u.version ≡ version) dwarf.units.units.items → All (λ u. u.address_size ≡ size) dwarf.units.units.items → HaveTargetForm version size (units (output_sections order (map section_view s.items))).items) }
    ensures of_5 { IfOk result (λ s. (version : ℕ) → All (λ u. u.version ≡ version) dwarf.units.units.items → AreOfVersion5 version (output_sections order (map section_view s.items)) (units (output_sections order (map section_view s.items))).items) }
    ensures names { IfOk result (λ s. HasDistinctNames (map section_view s.items)) }
    ensures relocated { IfOk result (λ s. AreRelocated order (map section_view s.items)) }
    ensures expressions { (result ≡ Err (TooLarge Expression)) ↔ (are_short_in (version_of (map ordered dwarf.units.units.items)) (given_trees dwarf.strings (map ordered dwarf.units.units.items)) ≡ false) }
    ensures large { IfErr result (λ e. IsRefusal order dwarf.strings (map ordered dwarf.units.units.items) e) }
    ensures widest { IfErr result (λ e. IsWideRefusal dwarf.strings (map ordered dwarf.units.units.items) e) }
{
    let Dwarf {
        units: UnitTable { units: all },
        strings,
    } = dwarf;
    let units = all.as_slice();
    let version = shared_version(units);
    strings.know_texts();
    let texts = strings.as_slice();
    let laid = lay_out(alloc, units);
    if !are_short_lists(version, units, &laid) {
        return Err(WriteError::TooLarge {
            what: Limit::Expression,
        });
    }
    let layouts = laid?;
    let text_layout = lay_out_texts(alloc, &layouts, texts)?;
    let names = lay_out_names(alloc, version, units, texts)?;
    let tables = Tables {
        layouts: &layouts,
        offsets: &text_layout.offsets,
        texts,
        names: &names,
    };
    let sections = write_units(alloc, order, version, all, &tables)?;
    let line_strings = write_names(alloc, order, &names)?;
    let strings = write_texts(alloc, order, texts, &text_layout)?;
    gather(alloc, sections, line_strings, strings)
}

// What is laid out of all units: where they and their entries stand, where the texts that entries name stand, these texts, and the names that line
// tables take from elsewhere.
#[derive(Clone, Copy)]
pub(crate) struct Tables<'a> {
    pub(crate) layouts: &'a [UnitLayout],
    pub(crate) offsets: &'a [Option<usize>],
    pub(crate) texts: &'a [Text],
    pub(crate) names: &'a LineNames,
}

// Units, one behind another, that are laid out with the texts that they name.
fn write_units(
    alloc: Global,
    order: Endian,
    version: u16,
    units: Vec<Unit>,
    tables: &Tables<'_>,
) -> Result<Sections, WriteError>
    requires version { version ≡ version_of (map ordered units.items) }
    requires writable { AreWritable (map ordered units.items) }
    requires laid { AllZip IsLaidOut units.items tables.now.layouts.now }
    requires placed { map places_view tables.now.layouts.now ≡ places_of_units order (size_of (map ordered units.items)) 0 (map ordered units.items) }
    requires short { units_length order (map ordered units.items) ≤ most_bytes }
    requires texts { (id : ℕ) → offset_of_text tables.now.offsets.now id ≤ most_bytes }
    requires names { IsPathLayout tables.now.names.now }
    requires expressions { AreShortUnits (map ordered units.items) }
    ensures ok { IfOk result (λ s. sections_view s ≡ all_units order (tables_view tables.now) (map ordered units.items)) }
    ensures large { IfErr result (λ e. IsRefusalAmong order (tables_view tables.now) (map ordered units.items) e) }
    ensures widest { IfErr result (λ e. IsWideRefusal tables.now.texts.now (map ordered units.items) e) }
    ensures fits { OnOk result (All FitsOrdered (map ordered units.items)) }
    ensures lines { OnOk result (All (λ u. FitsLines u.lines) (map ordered units.items)) }
{
    let mut sections = begun_sections(alloc, order, version)?;
    make_room(&mut sections, version, units.as_slice(), tables.layouts);
    let mut scratch = Vec::new(alloc);
    let mut place = 0;
    for unit in units {
        write_one(order, &mut sections, &mut scratch, unit, tables, place)?;
        place += 1;
    }
    Ok(sections)
}

// Sections without a byte.
fn begun_sections(alloc: Global, order: Endian, version: u16) -> Result<Sections, WriteError>
    ensures ok { IfOk result (λ s. sections_view s ≡ empty_sections order version) }
    ensures memory { IsOkUnless result OutOfMemory }
{
    Ok(Sections {
        abbrev: WriterRelocate::new(alloc, order, SectionName::Abbrev)?,
        info: WriterRelocate::new(alloc, order, SectionName::Info)?,
        line: WriterRelocate::new(alloc, order, SectionName::Line)?,
        ranges: WriterRelocate::new(alloc, order, section_of_ranges(version))?,
        locations: WriterRelocate::new(alloc, order, section_of_locations(version))?,
    })
}

// Makes room for the entries and lists of all units at once, if there is memory for it, so that their sections are not moved while they
// grow.
fn make_room(sections: &mut Sections, version: u16, units: &[Unit], layouts: &[UnitLayout])
    ensures { sections.new ≡ sections.old }
{
    let size = address_size_of(units);
    let mut counts = NO_COUNTS;
    let mut length: usize = 0;
    for layout in layouts {
        counts.add(&layout.notes.counts);
        length = length.saturating_add(layout.length);
    }
    let relocations = counts.relocated.saturating_add(layouts.len());
    sections.info.make_room(length, relocations);
    sections.ranges.make_room(
        counts.range_bytes(version, size),
        counts.range_relocations(version),
    );
    sections.locations.make_room(
        counts.location_bytes(version, size),
        counts.location_relocations(version),
    );
}

// A unit with its line table, at a place among others. What is not read again is let go.
fn write_one(
    order: Endian,
    sections: &mut Sections,
    scratch: &mut Vec<u8>,
    unit: Unit,
    tables: &Tables<'_>,
    place: usize,
) -> Result<(), WriteError>
    requires info { order ≡ sections.old.info.order }
    requires line { order ≡ sections.old.line.order }
    requires place { place < length tables.now.layouts.now }
    requires laid { (d : UnitLayout) → IsLaidOut unit (get_or tables.now.layouts.now place d) }
    requires offsets { (d : UnitLayout) → (get_or tables.now.layouts.now place d).offsets.items ≡ offsets_by_number order unit.address_size (ordered unit) }
    requires short { (line : ℕ) → line ≤ most_bytes → AreShort (places_in (tables_view tables.now) unit.version (offsets_by_number order unit.address_size (ordered unit)) line) }
    requires names { IsPathLayout tables.now.names.now }
    requires expressions { HaveShortLists unit.version (ordered unit).entries }
    ensures bytes { WritesOne (tables_view tables.now) (sections_view sections.old) (sections_view sections.new) result (ordered unit) }
    ensures fits { FitsOrdered (ordered unit) }
    ensures lines { FitsLines unit.lines }
{
    let own = own_directory(&unit, tables.texts);
    let Unit {
        version,
        address_size: size,
        lines,
        places,
        additions,
    } = unit;
    drop(places);
    let line_offset = sections.line.place();
    write_lines(
        &mut sections.line,
        scratch,
        order,
        version,
        size,
        own,
        &lines,
        tables.names,
    )?;
    drop(lines);
    let layouts = tables.layouts;
    let layout = &layouts[place];
    let begins = places_behind(&sections.ranges, &sections.locations);
    write_unit_lists(
        version,
        &mut sections.ranges,
        &mut sections.locations,
        size,
        &additions,
        &layout.notes,
    )?;
    let ends = places_behind(&sections.ranges, &sections.locations);
    let spelling = Spelling {
        order,
        version,
        size,
        line_offset,
        lists: first_lists(version, begins, ends),
        lists_end: ends,
        offsets: &layout.offsets,
        units: layouts,
        texts: tables.offsets,
    };
    write_unit(
        &mut sections.abbrev,
        &mut sections.info,
        scratch,
        &spelling,
        &additions,
        layout,
    )
}

// The lists of a unit's entries, each kind in its section.
fn write_unit_lists(
    version: u16,
    ranges: &mut WriterRelocate,
    locations: &mut WriterRelocate,
    size: u8,
    additions: &Additions,
    notes: &Notes,
) -> Result<(), WriteError>
    requires size { (size ≡ 4) ⊎ (size ≡ 8) }
    requires fits { All (FitsEntry size) (in_file_order additions.now) }
    requires noted { IsNoting additions.now notes.now (in_file_order additions.now) }
    requires short { HaveShortLists version (in_file_order additions.now) }
    ensures { WritesLists ranges.old ranges.new locations.old locations.new result (entries_alone version size (in_file_order additions.now)) }
{
    let ranged = notes.ranged.as_slice();
    let located = notes.located.as_slice();
    write_lists(version, ranges, ListKind::Ranges, size, additions, ranged)?;
    write_lists(
        version,
        locations,
        ListKind::Locations,
        size,
        additions,
        located,
    )
}

// Where lists stand behind what is there.
fn places_behind(ranges: &WriterRelocate, locations: &WriterRelocate) -> ListPlaces
    ensures places { result ≡ record { ranges = length ranges.now.body; locations = length locations.now.body } }
    ensures short { AreWithin result }
{
    ListPlaces {
        ranges: ranges.place(),
        locations: locations.place(),
    }
}

// Where the first lists of a unit stand, by where those of each kind begin and end: from version 5 on behind a header, where there are some.
fn first_lists(version: u16, begins: ListPlaces, ends: ListPlaces) -> ListPlaces
    requires { AreWithin begins }
    ensures { (first second : Endian) (size : ℕ) (es : List GivenEntry) → ends.ranges ≡ begins.ranges + length (contribution_bytes version first size (lists_of_entries ranges_in es)) → ends.locations ≡ begins.locations + length (contribution_bytes version second size (lists_of_entries locations_in es)) → result ≡ lists_from version es begins }
{
    ListPlaces {
        ranges: first_place(version, begins.ranges, ends.ranges),
        locations: first_place(version, begins.locations, ends.locations),
    }
}

// The same of a kind.
fn first_place(version: u16, begin: usize, end: usize) -> usize
    requires { begin ≤ most_bytes }
    ensures { (order : Endian) (size : ℕ) (es : List ListEntry) → end ≡ begin + length (contribution_bytes version order size es) → result ≡ first_place version es begin }
{
    if version < 5 || begin == end {
        return begin;
    }
    begin + LIST_HEADER_LENGTH
}

// The version of units, which is that of the first.
fn shared_version(units: &[Unit]) -> u16
    ensures { result ≡ version_of (map ordered units.now) }
{
    match units {
        [] => 4,
        [first, ..] => first.version,
    }
}

// The sections that are not empty.
fn gather(
    alloc: Global,
    sections: Sections,
    names: WriterRelocate,
    strings: WriterRelocate,
) -> Result<Vec<DwarfSection>, WriteError>
    ensures sections { IfOk result (λ s. map section_view s.items ≡ sections_of (sections_view sections) names strings) }
    ensures sound { (order : Endian) → sections.abbrev.order ≡ order → sections.info.order ≡ order → sections.line.order ≡ order → sections.ranges.order ≡ order → sections.locations.order ≡ order → names.order ≡ order → strings.order ≡ order → IfOk result (λ s. All (IsSound order) (map section_view s.items)) }
    ensures memory { IsOkUnless result OutOfMemory }
{
    let Sections {
        abbrev,
        info,
        line,
        ranges,
        locations,
    } = sections;
    let mut list = Vec::with_capacity(alloc, 7)?;
    push_section(&mut list, abbrev)?;
    push_section(&mut list, info)?;
    push_section(&mut list, line)?;
    push_section(&mut list, names)?;
    push_section(&mut list, ranges)?;
    push_section(&mut list, locations)?;
    push_section(&mut list, strings)?;
    Ok(list)
}

// A section behind others, where it is not empty.
fn push_section(list: &mut Vec<DwarfSection>, writer: WriterRelocate) -> Result<(), WriteError>
    ensures section { OnOk result (map section_view list.new.items ≡ map section_view list.old.items ++ section_unless_empty writer.name writer.body writer.relocations) }
    ensures sound { OnOk result (All (IsSound writer.order) (map section_view list.old.items) → All (IsSound writer.order) (map section_view list.new.items)) }
    ensures memory { IsOkUnless result OutOfMemory }
{
    if writer.place() == 0 {
        return Ok(());
    }
    list.push(writer.take())?;
    Ok(())
}

// A section behind others, if there is one.
fn push_optional(
    list: &mut Vec<DwarfSection>,
    section: Option<DwarfSection>,
) -> Result<(), WriteError>
    ensures section { OnOk result (map section_view list.new.items ≡ map section_view list.old.items ++ optional_section section) }
    ensures memory { IsOkUnless result OutOfMemory }
{
    match section {
        None => {}
        Some(section) => list.push(section)?,
    }
    Ok(())
}
