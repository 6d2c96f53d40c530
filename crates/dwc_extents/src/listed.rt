//! Location lists of the input, read whole. (DWARF 4 and 5, section 2.6.2.)
ghost use Rattle.std.specs.Prelude.{◌≡◌, IsTrue, map, option_map};
ghost use Rattle.dwc_dwarf.specs.Lists.{list_source, locations_of_value};
ghost use Rattle.dwc_rules.specs.LocationRules.{listed};
ghost use Rattle.dwc_rules.specs.RangeRules.{told_as};
ghost use Rattle.dwc_dwarf.specs.RawLists.{is_location_list};
ghost use Rattle.dwc_read.specs.ValuesSeen.{value_view};
ghost use Rattle.dwc_tabs.specs.Locations.{listed_view as location_seen};
ghost use Rattle.dwc_extents.specs.LocationListValues.{list_told, listed_in, listed_view, of_list};
ghost use Rattle.dwc_extents.specs.LocationValues.{GivesTold};
ghost use Rattle.dwc_extents.specs.NativeExtents.{BeginsList};

use crate::location_list_error::LocationListError;
use crate::ranges::told_at;
use dwc_base::{Address, SectionName};
use dwc_read::{AttributeValue, Unit};
use dwc_tabs::{ListFault, ListedLocation, Locations};
use std::alloc::Global;

/// An interval of a location list between two wasm offsets, with its expression.
#[derive(Clone, Copy)]
pub(crate) struct ListedExpression<'d> {
    pub start: u64,
    pub end: u64,
    /// The expression.
    pub bytes: &'d [u8],
    /// Where it stands: its section, and the offset of its first byte there.
    pub place: (SectionName, u64),
}

// The location list that a value of the entry at an offset names, at its begin.
fn list_begun<'u, 'd>(
    unit: &'u Unit<'d>,
    offset: u64,
    value: AttributeValue<'d>,
) -> Result<Locations<'u, 'd>, ListFault>
    requires list { IsTrue (is_location_list (value_view value)) }
    ensures { BeginsList (locations_of_value (list_source unit.now.sections unit.now.header) offset (value_view value.entry)) result }
{
    match Locations::new(unit, value) {
        Ok(list) => Ok(list),
        Err(fault) => Err(told_at(fault, offset)),
    }
}

// An interval with its expression; None where it is not between two numbers.
fn listed_expression<'d>(location: &ListedLocation<'d>) -> Option<ListedExpression<'d>>
    ensures { option_map listed_view result ≡ listed (location_seen location.now) }
{
    match location.begin {
        Address::Constant(start) => match location.end {
            Address::Constant(end) => Some(ListedExpression {
                start,
                end,
                bytes: location.bytes,
                place: (location.section, location.place),
            }),
            Address::Symbol { .. } => None,
        },
        Address::Symbol { .. } => None,
    }
}

// The intervals that are left of a list, up to its end.
fn read_listed<'d>(
    alloc: Global,
    list: &mut Locations<'_, 'd>,
) -> Result<Vec<ListedExpression<'d>>, LocationListError>
    ensures { GivesTold (λ xs. map listed_view xs.items) list_told (told_as of_list (listed_in list.old)) result }
{
    let mut expressions = Vec::new(alloc);
    while let Some(location) = list.next_listed()? {
        if let Some(expression) = listed_expression(&location) {
            expressions.push(expression)?;
        }
    }
    Ok(expressions)
}

/// The intervals of the location list that a value of the entry at an offset names, which is read whole.
///
/// # Errors
/// The first that is refused of the list: `Read` at the list, or at the entry where the list cannot be found; `TooLarge` for a start
/// plus a length that is no address. `OutOfMemory` for want of memory.
pub(crate) fn listed_expressions<'d>(
    alloc: Global,
    unit: &Unit<'d>,
    offset: u64,
    value: AttributeValue<'d>,
) -> Result<Vec<ListedExpression<'d>>, LocationListError>
    requires list { IsTrue (is_location_list (value_view value)) }
    ensures { GivesTold (λ xs. map listed_view xs.items) list_told (told_as of_list (listed_in (locations_of_value (list_source unit.now.sections unit.now.header) offset (value_view value.entry)))) result }
{
    let mut list = list_begun(unit, offset, value)?;
    read_listed(alloc, &mut list)
}
