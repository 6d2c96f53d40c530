//! Range lists as native code. (DWARF 4, section 2.17.3; DWARF 5, section 2.17.3.)
ghost use Rattle.std.specs.Prelude.{◌≡◌, ◌++◌, ◌∷◌, [], IsTrue, IfOk, OnOk, List, Some, option_map};
ghost use Rattle.dwc_native.specs.Addends.{HaveAddends};
ghost use Rattle.dwc_rules.specs.EntryRules.{of_list};
ghost use Rattle.dwc_dwarf.specs.Lists.{list_source, of_place, ranges_of_value};
ghost use Rattle.dwc_native.specs.ScopesKept.{native_of_intervals};
ghost use Rattle.dwc_dwarf.specs.RawLists.{is_range_list};
ghost use Rattle.dwc_native.specs.Runs.{native_in_function};
ghost use Rattle.dwc_base.specs.Sections.{Fault};
ghost use Rattle.dwc_dwarf.specs.Trees.{Interval};
ghost use Rattle.dwc_addr.specs.Translations.{with_lengths};
ghost use Rattle.dwc_read.specs.Faults.{fault_at, fault_seen};
ghost use Rattle.dwc_read.specs.ValuesSeen.{value_view};
ghost use Rattle.dwc_tabs.specs.RangeEnds.{interval_view, refusal_view};
ghost use Rattle.dwc_extents.specs.NativeExtents.{AreRanges, BeginsList, EndsList, IsNative, TellsRefusal, ranges_of_offsets};

use dwc_addr::{AddressTransform, translations_are_said};
use dwc_base::Address;
use dwc_read::{AttributeValue, ReadFault, Unit};
use dwc_source::CloneError;
use dwc_tabs::{ListFault, Ranges};
use std::alloc::{AllocError, Global};

/// What a range list of the input is in the native code.
#[derive(Drop)]
pub struct NativeRanges {
    /// Whether the list has intervals.
    pub listed: bool,
    /// What they are translated to, one after another: where each range begins and how many bytes it has.
    pub ranges: Vec<(Address, u64)>,
    /// Why no more of its intervals are told.
    pub fault: Option<ListFault>,
}

/// Adds what an interval of the input is translated to.
pub(crate) fn add_native(
    transform: &AddressTransform<'_>,
    begin: Address,
    end: Address,
    ranges: &mut Vec<(Address, u64)>,
) -> Result<(), AllocError>
    requires functions { HaveAddends transform.now }
    ensures { (before : List Interval) → AreRanges ranges.old.items before → OnOk result (AreRanges ranges.new.items (before ++ native_of_intervals transform.now (interval_view (begin, end) ∷ []))) }
{
    translations_are_said();
    match begin {
        Address::Constant(begin) => match end {
            Address::Constant(end) => push_translated(transform, begin, end, ranges),
            Address::Symbol { .. } => Ok(()),
        },
        Address::Symbol { .. } => Ok(()),
    }
}

// Pushes what an interval of wasm offsets is translated to.
fn push_translated(
    transform: &AddressTransform<'_>,
    begin: u64,
    end: u64,
    ranges: &mut Vec<(Address, u64)>,
) -> Result<(), AllocError>
    ensures { OnOk result (ranges.new.items ≡ ranges.old.items ++ with_lengths (native_in_function transform.now begin end)) }
{
    for range in transform.translate_ranges(begin, end) {
        ranges.push(range)?;
    }
    Ok(())
}

/// What some intervals of wasm offsets are translated to, one after another.
pub(crate) fn translated_offsets(
    alloc: Global,
    transform: &AddressTransform<'_>,
    intervals: &[(u64, u64)],
) -> Result<Vec<(Address, u64)>, AllocError>
    ensures { IfOk result (λ ranges. ranges.items ≡ ranges_of_offsets transform.now intervals.now) }
{
    let mut ranges = Vec::new(alloc);
    for (begin, end) in intervals {
        push_translated(transform, *begin, *end, &mut ranges)?;
    }
    Ok(ranges)
}

/// The fault of a list that cannot be found, told at the entry at an offset.
pub(crate) fn told_at(fault: ReadFault, offset: u64) -> ListFault
    ensures { (f : Fault) → fault_seen fault ≡ Some f → refusal_view result ≡ of_place (fault_at offset f) }
{
    match fault {
        ReadFault::Read { what, section, .. } => ListFault::Read {
            what,
            section,
            offset,
        },
        ReadFault::Unsupported { what, .. } => ListFault::Unsupported { what, offset },
        // Finding a list takes no memory.
        ReadFault::OutOfMemory => ListFault::TooLarge,
    }
}

/// The range list that a value of the entry at an offset names, at its begin.
pub(crate) fn list_begun<'u, 'd>(
    unit: &'u Unit<'d>,
    offset: u64,
    value: AttributeValue<'d>,
) -> Result<Ranges<'u, 'd>, ListFault>
    requires list { IsTrue (is_range_list (value_view value)) }
    ensures { BeginsList (ranges_of_value (list_source unit.now.sections unit.now.header) offset (value_view value.entry)) result }
{
    match Ranges::new(unit, value) {
        Ok(list) => Ok(list),
        Err(fault) => Err(told_at(fault, offset)),
    }
}

// What the intervals that are left of a list are in the native code.
fn translated_list(
    alloc: Global,
    transform: &AddressTransform<'_>,
    list: &mut Ranges<'_, '_>,
) -> Result<NativeRanges, AllocError>
    requires functions { HaveAddends transform.now }
    ensures { IfOk result (IsNative transform.now list.old) }
{
    let mut listed = false;
    let mut ranges = Vec::new(alloc);
    loop {
        match list.next_range() {
            Ok(Some((begin, end))) => {
                add_native(transform, begin, end, &mut ranges)?;
                listed = true;
            }
            Ok(None) => return Ok(NativeRanges {
                listed,
                ranges,
                fault: None,
            }),
            Err(fault) => return Ok(NativeRanges {
                listed,
                ranges,
                fault: Some(fault),
            }),
        }
    }
}

/// What the range list is in the native code that a value of the entry at an offset names. It is read once, up to its end or to what is
/// refused of it.
pub fn native_ranges(
    alloc: Global,
    unit: &Unit<'_>,
    transform: &AddressTransform<'_>,
    offset: u64,
    value: AttributeValue<'_>,
) -> Result<NativeRanges, AllocError>
    requires list { IsTrue (is_range_list (value_view value)) }
    requires functions { HaveAddends transform.now }
    ensures { IfOk result (IsNative transform.now (ranges_of_value (list_source unit.now.sections unit.now.header) offset (value_view value.entry))) }
{
    match list_begun(unit, offset, value) {
        Ok(list) => {
            let mut list = list;
            translated_list(alloc, transform, &mut list)
        }
        Err(fault) => Ok(NativeRanges {
            listed: false,
            ranges: Vec::new(alloc),
            fault: Some(fault),
        }),
    }
}

// Reads what is left of a list, up to its end.
fn read_to_end(list: &mut Ranges<'_, '_>) -> Result<(), ListFault>
    ensures { EndsList list.old result }
{
    while let Some(_) = list.next_range()? {}
    Ok(())
}

/// Reads the range list that a value of the entry at an offset names, up to its end.
///
/// # Errors
/// The first that is refused of it: `Read` at the list, or at the entry where the list cannot be found; `TooLarge` for a start plus a length
/// that is no address.
pub(crate) fn check_list(
    unit: &Unit<'_>,
    offset: u64,
    value: AttributeValue<'_>,
) -> Result<(), CloneError>
    requires list { IsTrue (is_range_list (value_view value)) }
    ensures { TellsRefusal (option_map of_list (ranges_of_value (list_source unit.now.sections unit.now.header) offset (value_view value.entry)).fault) result }
{
    let mut list = list_begun(unit, offset, value)?;
    read_to_end(&mut list)?;
    Ok(())
}
