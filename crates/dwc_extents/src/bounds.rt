//! The bounds of entries, as their attributes are read in order. (DWARF 4 and 5, section 2.17.)
ghost use Rattle.std.specs.Prelude.{◌≡◌, ◌<◌, ℕ, List, ◌&&◌, not, true, None, Some, length, map, option_map, take};
ghost use Rattle.dwc_base.specs.declared.constants.TheConstants.{DW_AT_ranges as ranges};
ghost use Rattle.dwc_dwarf.specs.Entries.{attribute};
ghost use Rattle.dwc_rules.specs.EntryRules.{bound_value_refused, of_list};
ghost use Rattle.dwc_native.specs.Functions.{Function};
ghost use Rattle.dwc_dwarf.specs.Indexed.{texts_of_unit};
ghost use Rattle.dwc_rules.specs.Kept.{Placed};
ghost use Rattle.dwc_dwarf.specs.RawLists.{ListSource};
ghost use Rattle.dwc_dwarf.specs.Lists.{list_source};
ghost use Rattle.dwc_rules.specs.RangeRefusals.{begins_by_low_pc, bound_refusal, extent_refusal, has_name, index_fault, is_later_bound};
ghost use Rattle.dwc_rules.specs.Refusals.{of_place};
ghost use Rattle.dwc_rules.specs.Clones.{UnitSource, bound_becomes};
ghost use Rattle.dwc_dwarf.specs.Values.{Value};
ghost use Rattle.dwc_read.specs.EntriesSeen.{entry_view};
ghost use Rattle.dwc_read.specs.ValuesSeen.{attribute_view, value_view};
ghost use Rattle.dwc_extents.specs.BoundRefusals.{IsSound, interval_refusal, list_refusal};
ghost use Rattle.dwc_isa.specs.Registers.{Registers};
ghost use Rattle.dwc_extents.specs.CodeSources.{GivesInForce, clone_rules, source_with};
ghost use Rattle.dwc_source.specs.KnownTexts.{KnowsTexts};
ghost use Rattle.dwc_source.specs.MadeValues.{GivesMade};
ghost use Rattle.dwc_extents.specs.NativeExtents.{TellsRefusal};

use crate::input_extent::check_bounds;
use crate::lineage::Lineage;
use crate::location::check_placed;
use crate::ranges::check_list;
use dwc_base::constants::{DW_AT_high_pc, DW_AT_low_pc, DW_AT_ranges};
use dwc_read::{AttributeValue, Entry, Unit};
use dwc_source::{CloneError, CloneSource, KnownTexts, check_text};
use dwc_tabs::is_range_list;
use std::alloc::Global;

// Whether some attributes have one of a name. It is looked for from the last one on, so that the looks for all bounds of a name in front
// of each go over the attributes of an entry once, as each ends at the one before.
fn has_name(attributes: &[(u16, AttributeValue<'_>)], name: u16) -> bool
    ensures { result ≡ has_name name (map attribute_view attributes.now) }
{
    let mut left = attributes.len();
    while left > 0 {
        left -= 1;
        let found = attributes[left].0;
        if found == name {
            return true;
        }
    }
    false
}

// Whether some attributes have one of a name and none of another.
fn has_only(attributes: &[(u16, AttributeValue<'_>)], name: u16, other: u16) -> bool
    ensures { result ≡ (not (has_name other (map attribute_view attributes.now)) && has_name name (map attribute_view attributes.now)) }
{
    !has_name(attributes, other) && has_name(attributes, name)
}

// Whether an attribute of an entry, of a name and behind so many, is the later one of both bounds.
fn is_later_bound(entry: &Entry<'_>, number: usize, name: u16) -> bool
    requires { number < length (entry_view entry.now).attributes }
    ensures { (before : List (ℕ × Value)) (v : Value) → before ≡ take number (entry_view entry.now).attributes → result ≡ is_later_bound before (name, v) }
{
    let (before, _) = entry.attrs().split_at(number);
    if name == DW_AT_low_pc {
        return has_only(before, DW_AT_high_pc, DW_AT_low_pc);
    }
    if name == DW_AT_high_pc {
        return has_only(before, DW_AT_low_pc, DW_AT_high_pc);
    }
    false
}

// Reads the address that a value is, of the entry at an offset.
fn check_address<'d>(
    unit: &Unit<'d>,
    offset: u64,
    value: AttributeValue<'d>,
) -> Result<(), CloneError>
    ensures { TellsRefusal (option_map of_place (index_fault (list_source unit.now.sections unit.now.header) offset (value_view value.entry))) result }
{
    match unit.address_of(&value) {
        Ok(_) => Ok(()),
        Err(fault) => Err(CloneError::from(fault.at(offset))),
    }
}

// Reads the range list that a bound of the entry at an offset names, if it names one.
fn check_listed(
    unit: &Unit<'_>,
    offset: u64,
    name: u16,
    value: AttributeValue<'_>,
) -> Result<(), CloneError>
    ensures { TellsRefusal (option_map of_list (list_refusal (list_source unit.now.sections unit.now.header) offset (name, value_view value.entry))) result }
{
    if name == DW_AT_ranges && is_range_list(&value) {
        return check_list(unit, offset, value);
    }
    Ok(())
}

// Reads the interval between both bounds of an entry, at the later one of them.
fn check_interval(
    unit: &Unit<'_>,
    entry: &Entry<'_>,
    number: usize,
    name: u16,
) -> Result<(), CloneError>
    requires { number < length (entry_view entry.now).attributes }
    ensures { (before : List (ℕ × Value)) (v : Value) → before ≡ take number (entry_view entry.now).attributes → TellsRefusal (option_map of_list (interval_refusal (list_source unit.now.sections unit.now.header) (entry_view entry.now) before (name, v))) result }
{
    if is_later_bound(entry, number, name) {
        return check_bounds(unit, entry);
    }
    Ok(())
}

// Reads what a bound of an entry says of its extent: its range list, or at the later one of both bounds the interval between them.
fn check_extent(
    unit: &Unit<'_>,
    entry: &Entry<'_>,
    number: usize,
    name: u16,
    value: AttributeValue<'_>,
) -> Result<(), CloneError>
    requires { number < length (entry_view entry.now).attributes }
    ensures { (before : List (ℕ × Value)) → before ≡ take number (entry_view entry.now).attributes → TellsRefusal (option_map of_list (extent_refusal (list_source unit.now.sections unit.now.header) (entry_view entry.now) before (name, value_view value.entry))) result }
{
    check_listed(unit, entry.offset, name, value)?;
    check_interval(unit, entry, number, name)
}

// Whether two values name the same range list.
#[tactic(auto, using(crate::proofs::BoundLaws::same_reference, crate::proofs::BoundLaws::same_index))]
fn is_same_list(first: AttributeValue<'_>, other: AttributeValue<'_>) -> bool
    ensures { result ≡ true → value_view first.entry ≡ value_view other.entry }
{
    match first {
        AttributeValue::RangeRef(here) => match other {
            AttributeValue::RangeRef(there) => here == there,
            _ => false,
        },
        AttributeValue::RangeIndex(here) => match other {
            AttributeValue::RangeIndex(there) => here == there,
            _ => false,
        },
        _ => false,
    }
}

// Whether a value behind so many attributes names the range list of an entry, which is that of its first `ranges`. An earlier one is looked
// for first, so that the looks for all `ranges` of an entry go over its attributes once.
fn is_own_list(entry: &Entry<'_>, number: usize, value: AttributeValue<'_>) -> bool
    requires { number < length (entry_view entry.now).attributes }
    ensures { result ≡ true → attribute ranges (entry_view entry.now) ≡ Some (value_view value.entry) }
{
    let (before, _) = entry.attrs().split_at(number);
    if has_name(before, DW_AT_ranges) {
        return false;
    }
    match entry.attr(DW_AT_ranges) {
        Some(first) => is_same_list(first, value),
        None => false,
    }
}

// Whether a bound of an entry names no range list but the entry's own.
fn names_no_other(entry: &Entry<'_>, number: usize, name: u16, value: AttributeValue<'_>) -> bool
    requires { number < length (entry_view entry.now).attributes }
    ensures { result ≡ true → (s : ListSource) → IsSound s (entry_view entry.now) → list_refusal s (entry_view entry.now).offset (name, value_view value.entry) ≡ None }
{
    if name == DW_AT_ranges {
        return is_own_list(entry, number, value);
    }
    true
}

// Reads what a bound of an entry says of its code. Where the entry begins in a function by its `low_pc`, its extent is not looked at; where
// the extent is sound, it is not read again.
fn check_code(
    unit: &Unit<'_>,
    begins: bool,
    is_sound: bool,
    entry: &Entry<'_>,
    number: usize,
    name: u16,
    value: AttributeValue<'_>,
) -> Result<(), CloneError>
    requires within { number < length (entry_view entry.now).attributes }
    requires sound { is_sound ≡ true → IsSound (list_source unit.now.sections unit.now.header) (entry_view entry.now) }
    ensures { (fs : List Function) (before : List (ℕ × Value)) → begins ≡ begins_by_low_pc (list_source unit.now.sections unit.now.header) fs (entry_view entry.now) → before ≡ take number (entry_view entry.now).attributes → TellsRefusal (option_map of_list (bound_refusal (list_source unit.now.sections unit.now.header) fs (entry_view entry.now) before (name, value_view value.entry))) result }
{
    check_address(unit, entry.offset, value)?;
    if begins {
        return Ok(());
    }
    if is_sound && names_no_other(entry, number, name, value) {
        return Ok(());
    }
    check_extent(unit, entry, number, name, value)
}

// Reads what a bound of an entry says: an expression in its place as one, and else what it says of its code.
fn check_said(
    alloc: Global,
    source: &CloneSource<'_, '_>,
    lineage: &Lineage,
    begins: bool,
    is_sound: bool,
    entry: &Entry<'_>,
    number: usize,
    name: u16,
    value: AttributeValue<'_>,
) -> Result<(), CloneError>
    requires within { number < length (entry_view entry.now).attributes }
    requires sound { is_sound ≡ true → IsSound (list_source source.now.unit.now.sections source.now.unit.now.header) (entry_view entry.now) }
    ensures { (registers : Registers) (s : UnitSource) (e : Placed) (before : List (ℕ × Value)) → e.entry ≡ entry_view entry.now → begins ≡ begins_by_low_pc (list_source source.now.unit.now.sections source.now.unit.now.header) source.now.transform.now e.entry → before ≡ take number (entry_view entry.now).attributes → GivesInForce source.now s e lineage.now → TellsRefusal (bound_value_refused (source_with registers source.now s) e before name (value_view value.entry)) result }
{
    match value {
        AttributeValue::Exprloc(bytes) => check_placed(
            alloc,
            source,
            lineage,
            entry.offset,
            number,
            name,
            bytes,
        ),
        _ => check_code(source.unit, begins, is_sound, entry, number, name, value),
    }
}

/// Reads a bound of an entry, which becomes nothing where it stands: a text that it is, and what it says of the code. `begins` tells whether
/// the entry is a subprogram that begins in a function by its `low_pc`, `is_sound` that nothing is refused of its extent; `number`
/// attributes come before this one.
///
/// # Errors
/// `Read` at the entry for a text, or an address by an index, that cannot be read, at a range list, and at an expression; `LongRange` for
/// a start plus a length that is no address.
#[inline(never)]
pub fn check_bound(
    alloc: Global,
    source: &CloneSource<'_, '_>,
    lineage: &Lineage,
    begins: bool,
    is_sound: bool,
    entry: &Entry<'_>,
    number: usize,
    name: u16,
    value: AttributeValue<'_>,
    known: &mut KnownTexts,
) -> Result<(), CloneError>
    requires within { number < length (entry_view entry.now).attributes }
    requires sound { is_sound ≡ true → IsSound (list_source source.now.unit.now.sections source.now.unit.now.header) (entry_view entry.now) }
    ensures made { (texts : List (List ℕ)) → KnowsTexts source.now.unit.now.sections texts known.old → (registers : Registers) (s : UnitSource) (e : Placed) (before : List (ℕ × Value)) → s.texts ≡ texts_of_unit source.now.unit.now.sections source.now.unit.now.header → e.entry ≡ entry_view entry.now → begins ≡ begins_by_low_pc (list_source source.now.unit.now.sections source.now.unit.now.header) source.now.transform.now e.entry → before ≡ take number (entry_view entry.now).attributes → GivesInForce source.now s e lineage.now → GivesMade (λ draft done. draft ≡ None) (bound_becomes (clone_rules registers source.now s) s e before (name, value_view value.entry)) result }
    ensures known { (texts : List (List ℕ)) → KnowsTexts source.now.unit.now.sections texts known.old → KnowsTexts source.now.unit.now.sections texts known.new }
{
    check_text(source.unit, entry.offset, value, known)?;
    check_said(
        alloc, source, lineage, begins, is_sound, entry, number, name, value,
    )
}
