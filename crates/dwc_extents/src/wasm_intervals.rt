//! The code of entries as intervals of wasm offsets. (DWARF 4 and 5, section 2.17.)
ghost use Rattle.std.specs.Prelude.{◌≡◌, ◌++◌, [], true, false, is_some, IfOk, OnOk, IsTrue, option_map, option_to_list};
ghost use Rattle.std.specs.List.{filter_map};
ghost use Rattle.dwc_dwarf.specs.Lists.{list_source, ranges_of_value};
ghost use Rattle.dwc_rules.specs.RangeAttributes.{extent};
ghost use Rattle.dwc_native.specs.ScopesKept.{wasm_interval};
ghost use Rattle.dwc_dwarf.specs.RawLists.{is_range_list};
ghost use Rattle.dwc_rules.specs.Scopes.{scope_of_extent};
ghost use Rattle.dwc_read.specs.EntriesSeen.{entry_view};
ghost use Rattle.dwc_read.specs.ValuesSeen.{value_view};
ghost use Rattle.dwc_tabs.specs.RangeEnds.{interval_view};
ghost use Rattle.dwc_extents.specs.BoundRefusals.{IsSound};
ghost use Rattle.dwc_extents.specs.ReadExtents.{AreReadOf};

use crate::input_extent::{InputExtent, input_extent};
use crate::ranges::list_begun;
use dwc_base::Address;
use dwc_read::{AttributeValue, Entry, Unit};
use dwc_tabs::Ranges;
use smallvec::SmallVec;
use std::alloc::{AllocError, Global};

/// Intervals of wasm offsets. Most scopes are one, which takes no memory.
pub(crate) type Scope = SmallVec<(u64, u64), 1>;

// An interval of the input as two numbers.
fn wasm_interval(begin: Address, end: Address) -> Option<(u64, u64)>
    ensures { result ≡ wasm_interval (interval_view (begin, end)) }
{
    match (begin, end) {
        (Address::Constant(begin), Address::Constant(end)) => Some((begin, end)),
        _ => None,
    }
}

// Adds an interval of the input, if it is one of wasm offsets.
fn add_interval(begin: Address, end: Address, intervals: &mut Scope) -> Result<(), AllocError>
    ensures { OnOk result (intervals.new.items ≡ intervals.old.items ++ option_to_list (wasm_interval (interval_view (begin, end)))) }
{
    if let Some(interval) = wasm_interval(begin, end) {
        intervals.push(interval)?;
    }
    Ok(())
}

/// The intervals of wasm offsets that an extent is read as.
#[derive(Drop)]
pub(crate) struct ReadIntervals {
    pub intervals: Scope,
    /// Whether it is known that nothing is refused of the extent.
    pub is_sound: bool,
}

// The intervals of wasm offsets that are left of a list.
fn intervals_left(alloc: Global, list: &mut Ranges<'_, '_>) -> Result<ReadIntervals, AllocError>
    ensures { IfOk result (AreReadOf list.old) }
{
    let mut intervals = Scope::new(alloc);
    loop {
        match list.next_range() {
            Ok(Some((begin, end))) => add_interval(begin, end, &mut intervals)?,
            Ok(None) => return Ok(ReadIntervals {
                intervals,
                is_sound: true,
            }),
            Err(_) => return Ok(ReadIntervals {
                intervals,
                is_sound: false,
            }),
        }
    }
}

// No intervals, of an extent that may be refused.
fn no_intervals(alloc: Global) -> ReadIntervals
    ensures none { result.intervals.items ≡ [] }
    ensures unsound { result.is_sound ≡ false }
{
    ReadIntervals {
        intervals: Scope::new(alloc),
        is_sound: false,
    }
}

// Those of the range list that a value of the entry at an offset names.
fn listed_intervals(
    alloc: Global,
    unit: &Unit<'_>,
    offset: u64,
    value: AttributeValue<'_>,
) -> Result<ReadIntervals, AllocError>
    requires list { IsTrue (is_range_list (value_view value)) }
    ensures { IfOk result (AreReadOf (ranges_of_value (list_source unit.now.sections unit.now.header) offset (value_view value.entry))) }
{
    match list_begun(unit, offset, value) {
        Ok(list) => {
            let mut list = list;
            intervals_left(alloc, &mut list)
        }
        Err(_) => Ok(no_intervals(alloc)),
    }
}

// An interval as a list, if there is one, and it is one of wasm offsets.
fn interval_alone(
    alloc: Global,
    interval: Option<(Address, Address)>,
) -> Result<ReadIntervals, AllocError>
    ensures alone { IfOk result (λ r. r.intervals.items ≡ filter_map wasm_interval (option_to_list (option_map interval_view interval))) }
    ensures sound { IfOk result (λ r. r.is_sound ≡ is_some interval) }
{
    let mut intervals = Scope::new(alloc);
    let is_sound = interval.is_some();
    if let Some((begin, end)) = interval {
        add_interval(begin, end, &mut intervals)?;
    }
    Ok(ReadIntervals {
        intervals,
        is_sound,
    })
}

/// The intervals of wasm offsets that an entry has: those of its range list; without one, that from its `low_pc` to its `high_pc`. A
/// position is none, and what cannot be read counts as not there. An extent is known to be sound where its list was read to its end, or its
/// bounds make an interval.
pub(crate) fn intervals_of(
    alloc: Global,
    unit: &Unit<'_>,
    entry: &Entry<'_>,
) -> Result<ReadIntervals, AllocError>
    ensures intervals { IfOk result (λ r. r.intervals.items ≡ scope_of_extent (extent (list_source unit.now.sections unit.now.header) (entry_view entry.now))) }
    ensures sound { IfOk result (λ r. r.is_sound ≡ true → IsSound (list_source unit.now.sections unit.now.header) (entry_view entry.now)) }
{
    match input_extent(unit, entry) {
        InputExtent::Listed(list) => listed_intervals(alloc, unit, entry.offset, list),
        InputExtent::Bounded(interval) => interval_alone(alloc, interval),
        InputExtent::Position(_) | InputExtent::Nowhere => Ok(no_intervals(alloc)),
    }
}
