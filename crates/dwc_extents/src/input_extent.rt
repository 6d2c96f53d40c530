//! What the input says of the code of entries. (DWARF 4 and 5, section 2.17.)
ghost use Rattle.std.specs.Prelude.{◌≡◌, ℕ, IfSome, IsTrue, None, option_map, option_and_then};
ghost use Rattle.dwc_base.specs.declared.constants.TheConstants.{DW_AT_high_pc as high_pc};
ghost use Rattle.dwc_dwarf.specs.Entries.{attribute};
ghost use Rattle.dwc_rules.specs.EntryRules.{of_list};
ghost use Rattle.dwc_dwarf.specs.Lists.{list_source};
ghost use Rattle.dwc_rules.specs.RangeAttributes.{extent, extent_of_bounds, interval_to, range_list_of};
ghost use Rattle.dwc_rules.specs.RangeRefusals.{bounds_refusal};
ghost use Rattle.dwc_dwarf.specs.RawLists.{is_range_list};
ghost use Rattle.dwc_read.specs.EntriesSeen.{entry_view};
ghost use Rattle.dwc_read.specs.ValuesSeen.{value_view};
ghost use Rattle.dwc_tabs.specs.RangeEnds.{GivesOrRefusal, interval_view};
ghost use Rattle.dwc_extents.specs.InputExtents.{NamesRanges, constant_said, extent_said, interval_up_to};
ghost use Rattle.dwc_extents.specs.ReadExtents.{IsSoundWhere};
ghost use Rattle.dwc_extents.specs.NativeExtents.{TellsRefusal};

use dwc_base::Address;
use dwc_base::constants::{DW_AT_high_pc, DW_AT_low_pc, DW_AT_ranges};
use dwc_kept::address_said;
use dwc_read::{AttributeValue, Entry, Unit};
use dwc_source::CloneError;
use dwc_tabs::{ListFault, interval_between, interval_of_length, is_range_list};

/// What the input says of the code of an entry.
#[derive(Clone, Copy)]
pub(crate) enum InputExtent<'d> {
    /// The intervals of the range list that this value names.
    Listed(AttributeValue<'d>),
    /// The interval from its `low_pc` to its `high_pc`; None where these make no interval.
    Bounded(Option<(Address, Address)>),
    /// A `low_pc` alone.
    Position(Address),
    Nowhere,
}

// Where the code of an entry ends that begins at its `low_pc`.
#[derive(Clone, Copy)]
enum CodeEnd {
    At(Address),
    // So many bytes behind the begin.
    Behind(u64),
}

// The value of a constant.
fn constant_said(value: AttributeValue<'_>) -> Option<u64>
    ensures { result ≡ constant_said (value_view value.entry) }
{
    match value {
        AttributeValue::Constant { bits, .. } => Some(bits),
        _ => None,
    }
}

// Where the `high_pc` of an entry says that its code ends: None without one, and where it is neither a constant nor an address that can be
// read.
fn end_said(unit: &Unit<'_>, entry: &Entry<'_>) -> Option<CodeEnd>
    ensures { (low : Address) → option_map (interval_up_to low) result ≡ option_and_then (interval_to (list_source unit.now.sections unit.now.header) low) (attribute high_pc (entry_view entry.now)) }
{
    let high = entry.attr(DW_AT_high_pc)?;
    match constant_said(high) {
        Some(length) => Some(CodeEnd::Behind(length)),
        None => Some(CodeEnd::At(address_said(unit, entry, DW_AT_high_pc)?)),
    }
}

// The interval from a begin to an end.
fn interval_to(begin: Address, end: CodeEnd) -> Result<Option<(Address, Address)>, ListFault>
    ensures { GivesOrRefusal (option_map interval_view) (interval_up_to begin end) result }
{
    match end {
        CodeEnd::At(end) => Ok(interval_between(begin, end)),
        CodeEnd::Behind(length) => Ok(interval_of_length(begin, length)?),
    }
}

// The range list that an entry names.
fn range_list<'d>(entry: &Entry<'d>) -> Option<AttributeValue<'d>>
    ensures list { option_map value_view result ≡ range_list_of (entry_view entry.now) }
    ensures named { IfSome result (λ value. IsTrue (is_range_list (value_view value))) }
{
    let value = entry.attr(DW_AT_ranges)?;
    if is_range_list(&value) {
        return Some(value);
    }
    None
}

// What the bounds of an entry without a range list say.
fn bounds_said<'d>(unit: &Unit<'_>, entry: &Entry<'d>) -> InputExtent<'d>
    requires { None ≡ range_list_of (entry_view entry.now) }
    ensures said { extent_said (list_source unit.now.sections unit.now.header) (entry_view entry.now).offset result ≡ extent_of_bounds (list_source unit.now.sections unit.now.header) (entry_view entry.now) }
    ensures named { NamesRanges result }
    ensures sound { IsSoundWhere (list_source unit.now.sections unit.now.header) (entry_view entry.now) result }
{
    let Some(low) = address_said(unit, entry, DW_AT_low_pc) else {
        return InputExtent::Nowhere;
    };
    match end_said(unit, entry) {
        None => InputExtent::Position(low),
        Some(end) => match interval_to(low, end) {
            Ok(interval) => InputExtent::Bounded(interval),
            Err(_) => InputExtent::Bounded(None),
        },
    }
}

/// What the input says of the code of an entry: its range list; without one, the interval from its `low_pc` to its `high_pc`; and with a
/// `low_pc` alone a position. What cannot be read counts as not there. The list is not read.
pub(crate) fn input_extent<'d>(unit: &Unit<'_>, entry: &Entry<'d>) -> InputExtent<'d>
    ensures said { extent_said (list_source unit.now.sections unit.now.header) (entry_view entry.now).offset result ≡ extent (list_source unit.now.sections unit.now.header) (entry_view entry.now) }
    ensures named { NamesRanges result }
    ensures sound { IsSoundWhere (list_source unit.now.sections unit.now.header) (entry_view entry.now) result }
{
    match range_list(entry) {
        Some(list) => InputExtent::Listed(list),
        None => bounds_said(unit, entry),
    }
}

/// Whether the interval from an entry's `low_pc` to its `high_pc` can be, where that is what it has.
///
/// # Errors
/// `TooLarge` where the `low_pc` plus a length is no address.
pub(crate) fn check_bounds(unit: &Unit<'_>, entry: &Entry<'_>) -> Result<(), CloneError>
    ensures { TellsRefusal (option_map of_list (bounds_refusal (list_source unit.now.sections unit.now.header) (entry_view entry.now))) result }
{
    if range_list(entry).is_some() {
        return Ok(());
    }
    let Some(low) = address_said(unit, entry, DW_AT_low_pc) else {
        return Ok(());
    };
    match end_said(unit, entry) {
        None => Ok(()),
        Some(end) => {
            interval_to(low, end)?;
            Ok(())
        }
    }
}
