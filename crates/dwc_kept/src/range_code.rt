//! What range lists show of the code of subprograms, by the functions that their entries are in. (DWARF 4, section 2.17.3; DWARF 5,
//! sections 2.17.3 and 7.25.)
ghost use Rattle.std.specs.Prelude.{◌≡◌, ◌||◌, IsTrue, OnOk, Some, option_map, option_to_list};
ghost use Rattle.std.specs.List.{filter_map, flat_map};
ghost use Rattle.dwc_dwarf.specs.Entries.{attribute};
ghost use Rattle.dwc_dwarf.specs.Lists.{list_source};
ghost use Rattle.dwc_dwarf.specs.RawLists.{raw_ranges};
ghost use Rattle.dwc_rules.specs.RangeKept.{base_beside, begins_in_code, can_translate, list_shows_code, some_shows_code};
ghost use Rattle.dwc_rules.specs.RangeRefusals.{index_fault, list_faults};
ghost use Rattle.dwc_base.specs.Listing.{first_of};
ghost use Rattle.dwc_dwarf.specs.Values.{address_index};
ghost use Rattle.dwc_read.specs.EntriesSeen.{entry_view};
ghost use Rattle.dwc_read.specs.Faults.{fault_seen};
ghost use Rattle.dwc_read.specs.ValuesSeen.{value_view};
ghost use Rattle.dwc_tabs.specs.RangeLists.{entry_view as list_entry_view};
ghost use Rattle.dwc_kept.specs.RangeCode.{address_fault, entry_fault, faults_left, list_place, seen_behind, told_at_list};
ghost use Rattle.dwc_kept.specs.ReadEntries.{ReadsOrTells};
ghost use Rattle.dwc_kept.specs.ShownLists.{KnowsLists};

use crate::shown_lists::{ShownLists, note_shown, shown};
use dwc_addr::AddressTransform;
use dwc_base::constants::{DW_AT_low_pc, DW_AT_ranges};
use dwc_base::{Address, SectionName, What};
use dwc_read::{AttributeValue, Entry, ReadFault, Unit};
use dwc_tabs::{RangeEntries, RangeEntry, is_range_list};

// What was seen of a list so far: whether its base is in a function, if one is known, and whether an entry shows that it is of code.
#[derive(Clone, Copy)]
pub(crate) struct CodeSeen {
    pub base: Option<bool>,
    pub shows_code: bool,
}

// Whether an address is in a function with a symbol.
fn can_translate(transform: &AddressTransform<'_>, address: Address) -> bool
    ensures { result ≡ can_translate transform.now address }
{
    match address {
        Address::Constant(address) => transform.func_at(address).is_some(),
        Address::Symbol { .. } => false,
    }
}

// A fault told at a list.
fn at_list(fault: ReadFault, section: SectionName, offset: u64) -> ReadFault
    ensures { fault_seen result ≡ option_map (told_at_list section offset) (fault_seen fault) }
{
    match fault {
        ReadFault::Read { .. } => ReadFault::Read {
            what: What::RangeList,
            section,
            offset,
        },
        ReadFault::Unsupported { what, .. } => ReadFault::Unsupported { what, offset },
        ReadFault::OutOfMemory => ReadFault::OutOfMemory,
    }
}

// The address at an index that a list names, told at the list where it cannot be read.
fn address_at(
    unit: &Unit<'_>,
    section: SectionName,
    offset: u64,
    index: u64,
) -> Result<Address, ReadFault>
    ensures { ReadsOrTells (λ address. (list_source unit.now.sections unit.now.header).indexed index ≡ Ok address) (address_fault (list_source unit.now.sections unit.now.header) (list_place section offset) index) result }
{
    match unit.address(index) {
        Ok(address) => Ok(address),
        Err(fault) => Err(at_list(fault, section, offset)),
    }
}

// What is known behind an entry that selects a base.
fn with_base(seen: CodeSeen, in_function: bool) -> CodeSeen
    ensures { result ≡ record { base = Some in_function; shows_code = seen.shows_code } }
{
    CodeSeen {
        base: Some(in_function),
        shows_code: seen.shows_code,
    }
}

// What is known behind an entry that may show code.
fn with_code(seen: CodeSeen, shows_code: bool) -> CodeSeen
    ensures { result ≡ record { base = seen.base; shows_code = shows_code || seen.shows_code } }
{
    CodeSeen {
        base: seen.base,
        shows_code: shows_code || seen.shows_code,
    }
}

// What is known behind an entry of a list, whose addresses by an index are read.
fn seen_behind(
    unit: &Unit<'_>,
    section: SectionName,
    offset: u64,
    transform: &AddressTransform<'_>,
    seen: CodeSeen,
    entry: RangeEntry,
) -> Result<CodeSeen, ReadFault>
    ensures { ReadsOrTells (λ behind. behind ≡ seen_behind (list_source unit.now.sections unit.now.header) transform.now seen (list_entry_view entry)) (entry_fault (list_source unit.now.sections unit.now.header) (list_place section offset) (list_entry_view entry)) result }
{
    match entry {
        RangeEntry::BaseAddressx(index) => {
            let base = address_at(unit, section, offset, index)?;
            Ok(with_base(seen, can_translate(transform, base)))
        }
        RangeEntry::StartxEndx(start, end) => {
            let start = address_at(unit, section, offset, start)?;
            address_at(unit, section, offset, end)?;
            Ok(with_code(seen, can_translate(transform, start)))
        }
        RangeEntry::StartxLength(start, _) => {
            let start = address_at(unit, section, offset, start)?;
            Ok(with_code(seen, can_translate(transform, start)))
        }
        RangeEntry::BaseAddress(base) => Ok(with_base(seen, can_translate(transform, base))),
        RangeEntry::Base(base) => Ok(with_base(seen, can_translate(transform, base))),
        RangeEntry::StartEnd(begin, _) => Ok(with_code(seen, can_translate(transform, begin))),
        RangeEntry::StartLength(start, _) => Ok(with_code(seen, can_translate(transform, start))),
        RangeEntry::Pair(begin, _) => Ok(match seen.base {
            Some(in_function) => with_code(seen, in_function),
            None => with_code(seen, can_translate(transform, begin)),
        }),
        RangeEntry::OffsetPair(_, _) => Ok(seen),
    }
}

// Whether the entries that are left of a list at a place show that it is of code, from what is known of its base on.
fn entries_show_code(
    unit: &Unit<'_>,
    section: SectionName,
    offset: u64,
    transform: &AddressTransform<'_>,
    base: Option<bool>,
    entries: &mut RangeEntries<'_>,
) -> Result<bool, ReadFault>
    ensures { ReadsOrTells (λ shows. shows ≡ some_shows_code (list_source unit.now.sections unit.now.header) transform.now base entries.old.left.items) (first_of (faults_left (list_source unit.now.sections unit.now.header) (list_place section offset) entries.old.left)) result }
{
    let mut seen = CodeSeen {
        base,
        shows_code: false,
    };
    while let Some(entry) = entries.next_raw()? {
        seen = seen_behind(unit, section, offset, transform, seen, entry)?;
    }
    Ok(seen.shows_code)
}

// Whether a list at a place shows that it is of code, from what is known of its base on; its entries are read if that was not noted.
fn whole_list_shows_code(
    unit: &Unit<'_>,
    section: SectionName,
    offset: u64,
    transform: &AddressTransform<'_>,
    base: Option<bool>,
    entries: &mut RangeEntries<'_>,
    lists: &mut ShownLists,
) -> Result<bool, ReadFault>
    requires entries { entries.old.left ≡ raw_ranges (list_source unit.now.sections unit.now.header) (list_place section offset) }
    requires lists { KnowsLists (list_source unit.now.sections unit.now.header) transform.now lists.old }
    ensures lists { OnOk result (KnowsLists (list_source unit.now.sections unit.now.header) transform.now lists.new) }
    ensures shows { ReadsOrTells (λ shows. shows ≡ some_shows_code (list_source unit.now.sections unit.now.header) transform.now base entries.old.left.items) (first_of (faults_left (list_source unit.now.sections unit.now.header) (list_place section offset) entries.old.left)) result }
{
    if let Some(shows_code) = shown(lists, section, base, offset) {
        return Ok(shows_code);
    }
    let shows_code = entries_show_code(unit, section, offset, transform, base, entries)?;
    note_shown(lists, section, base, offset, shows_code)?;
    Ok(shows_code)
}

// Whether the `low_pc` beside a list is in a function, if it is an address in place.
fn base_beside(transform: &AddressTransform<'_>, low_pc: Option<AttributeValue<'_>>) -> Option<bool>
    ensures { result ≡ base_beside transform.now (option_map value_view low_pc.entry) }
{
    match low_pc {
        Some(AttributeValue::Addr(address)) => Some(can_translate(transform, address)),
        _ => None,
    }
}

// Whether the range list that a value of an entry names shows that it is of code.
fn list_shows_code(
    unit: &Unit<'_>,
    entry: &Entry<'_>,
    transform: &AddressTransform<'_>,
    value: AttributeValue<'_>,
    lists: &mut ShownLists,
) -> Result<bool, ReadFault>
    requires { KnowsLists (list_source unit.now.sections unit.now.header) transform.now lists.old }
    ensures lists { OnOk result (KnowsLists (list_source unit.now.sections unit.now.header) transform.now lists.new) }
    ensures shows { ReadsOrTells (λ shows. shows ≡ list_shows_code (list_source unit.now.sections unit.now.header) transform.now (attribute DW_AT_low_pc (entry_view entry.now)) (value_view value.entry)) (first_of (list_faults (list_source unit.now.sections unit.now.header) (entry_view entry.now).offset (value_view value.entry))) result }
{
    if !is_range_list(&value) {
        return Ok(false);
    }
    let base = base_beside(transform, entry.attr(DW_AT_low_pc));
    match RangeEntries::new(unit, value) {
        Ok(entries) => {
            let mut entries = entries;
            let section = entries.section();
            let offset = entries.offset();
            whole_list_shows_code(unit, section, offset, transform, base, &mut entries, lists)
        }
        Err(fault) => Err(fault.at(entry.offset)),
    }
}

/// Whether the `ranges` of an entry show that it is of code; None for an entry without them.
///
/// # Errors
/// `Read` at the first byte of the list for an address by an index that it names, and else for an entry of it, that cannot be read; at
/// the entry where the list cannot be found.
pub(crate) fn ranges_show_code(
    unit: &Unit<'_>,
    entry: &Entry<'_>,
    transform: &AddressTransform<'_>,
    lists: &mut ShownLists,
) -> Result<Option<bool>, ReadFault>
    requires { KnowsLists (list_source unit.now.sections unit.now.header) transform.now lists.old }
    ensures lists { OnOk result (KnowsLists (list_source unit.now.sections unit.now.header) transform.now lists.new) }
    ensures shows { ReadsOrTells (λ shows. shows ≡ option_map (list_shows_code (list_source unit.now.sections unit.now.header) transform.now (attribute DW_AT_low_pc (entry_view entry.now))) (attribute DW_AT_ranges (entry_view entry.now))) (first_of (flat_map (list_faults (list_source unit.now.sections unit.now.header) (entry_view entry.now).offset) (option_to_list (attribute DW_AT_ranges (entry_view entry.now))))) result }
{
    let Some(ranges) = entry.attr(DW_AT_ranges) else {
        return Ok(None);
    };
    let shows_code = list_shows_code(unit, entry, transform, ranges, lists)?;
    Ok(Some(shows_code))
}

// Whether the address at an index is in a function with a symbol, told at an entry where it cannot be read.
fn begins_at_index(
    unit: &Unit<'_>,
    offset: u64,
    transform: &AddressTransform<'_>,
    index: u64,
) -> Result<bool, ReadFault>
    ensures { ReadsOrTells (λ begins. begins ≡ begins_in_code (list_source unit.now.sections unit.now.header) transform.now (Some (address_index index))) (index_fault (list_source unit.now.sections unit.now.header) offset (address_index index)) result }
{
    match unit.address(index) {
        Ok(address) => Ok(can_translate(transform, address)),
        Err(fault) => Err(fault.at(offset)),
    }
}

/// Whether the first `low_pc` of an entry is an address of a function with a symbol.
///
/// # Errors
/// `Read` at the entry where it is an address by an index that cannot be read.
pub(crate) fn begins_in_code(
    unit: &Unit<'_>,
    entry: &Entry<'_>,
    transform: &AddressTransform<'_>,
) -> Result<bool, ReadFault>
    ensures { ReadsOrTells (λ begins. begins ≡ begins_in_code (list_source unit.now.sections unit.now.header) transform.now (attribute DW_AT_low_pc (entry_view entry.now))) (first_of (filter_map (index_fault (list_source unit.now.sections unit.now.header) (entry_view entry.now).offset) (option_to_list (attribute DW_AT_low_pc (entry_view entry.now))))) result }
{
    match entry.attr(DW_AT_low_pc) {
        Some(AttributeValue::Addr(address)) => Ok(can_translate(transform, address)),
        Some(AttributeValue::AddrIndex(index)) => {
            Ok(begins_at_index(unit, entry.offset, transform, index)?)
        }
        _ => Ok(false),
    }
}
