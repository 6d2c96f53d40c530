//! What attributes become whose values are location lists. (DWARF 4 and 5, section 2.6.2.)
ghost use Rattle.std.specs.Prelude.{◌≡◌, ◌||◌, IsTrue, List, map, option_map};
ghost use Rattle.dwc_native.specs.Functions.{Function};
ghost use Rattle.dwc_rules.specs.LocationAttributes.{built_for, built_for_each, read_locations};
ghost use Rattle.dwc_dwarf.specs.Lists.{list_source};
ghost use Rattle.dwc_dwarf.specs.RawLists.{is_location_list};
ghost use Rattle.dwc_read.specs.ValuesSeen.{value_view};
ghost use Rattle.dwc_extents.specs.InForceSeen.{in_force_view};
ghost use Rattle.dwc_isa.specs.Registers.{Registers};
ghost use Rattle.dwc_extents.specs.LocationListValues.{PutsInterval, interval_read, list_told, listed_view, value_of_list, read_by, some_where};
ghost use Rattle.dwc_extents.specs.LocationValues.{GivesTold, location_value_view, locations_view, told};

use crate::expressions::{at_place, compile_at};
use crate::in_force::InForce;
use crate::listed::{ListedExpression, listed_expressions};
use crate::location_list_error::LocationListError;
use crate::location_value::LocationValue;
use dwc_addr::AddressTransform;
use dwc_base::{Address, Encoding};
use dwc_expr::{ExprError, put_locations};
use dwc_isa::TargetIsa;
use dwc_read::{AttributeValue, Unit};
use dwc_unit::Expression;
use std::alloc::Global;

// Puts what is built for an interval behind others, and answers whether its expression is supported.
fn put_interval(
    alloc: Global,
    locations: &mut Vec<(Address, u64, Expression)>,
    transform: &AddressTransform<'_>,
    isa: &dyn TargetIsa,
    in_force: &InForce<'_>,
    encoding: Encoding,
    interval: &ListedExpression<'_>,
) -> Result<bool, ExprError>
    ensures { PutsInterval (built_for (in_force_view transform.now (dwarf_registers isa.now) in_force.now) (listed_view interval.now)) locations.old.items locations.new.items result }
{
    match put_locations(
        alloc,
        locations,
        interval.bytes,
        encoding,
        in_force.base,
        (interval.start, interval.end),
        transform,
        in_force.frame,
        isa,
    ) {
        Ok(supported) => Ok(supported),
        Err(error) => Err(at_place(error, interval.place)),
    }
}

// Whether one of two holds.
fn either(one: bool, other: bool) -> bool
    ensures { result ≡ (one || other) }
{
    one || other
}

// Locations, where some expression is supported.
fn if_supported(
    supported: bool,
    locations: Vec<(Address, u64, Expression)>,
) -> Option<Vec<(Address, u64, Expression)>>
    ensures { option_map locations_view result ≡ some_where supported (locations_view locations) }
{
    if supported { Some(locations) } else { None }
}

// What is built for each of some intervals in order; None where no expression is supported.
fn built_intervals(
    alloc: Global,
    transform: &AddressTransform<'_>,
    isa: &dyn TargetIsa,
    in_force: &InForce<'_>,
    encoding: Encoding,
    intervals: &[ListedExpression<'_>],
) -> Result<Option<Vec<(Address, u64, Expression)>>, ExprError>
    ensures { GivesTold (option_map locations_view) told (built_for_each (in_force_view transform.now (dwarf_registers isa.now) in_force.now) (map listed_view intervals.now)) result }
{
    let mut locations = Vec::new(alloc);
    let mut supported = false;
    for interval in intervals {
        let put = put_interval(
            alloc,
            &mut locations,
            transform,
            isa,
            in_force,
            encoding,
            interval,
        )?;
        supported = either(supported, put);
    }
    Ok(if_supported(supported, locations))
}

/// What an attribute of the entry at an offset becomes whose value names a location list; None where no expression of the list is
/// supported. The whole list is read before its expressions; then each of them in order is compiled and built before the next.
///
/// # Errors
/// The first that is refused of the list: `Read` at the list, or at the entry where the list cannot be found; `TooLarge` for a start
/// plus a length that is no address. Else the first that is refused of its expressions: `Read` where an operation cannot be read, with
/// the place of its expression, or what `build_with_locals` refuses. `OutOfMemory` for want of memory.
#[tactic(auto, unfolding(dwc_rules::specs::LocationAttributes::value_of_locations))]
pub(crate) fn value_of_list(
    alloc: Global,
    unit: &Unit<'_>,
    transform: &AddressTransform<'_>,
    isa: &dyn TargetIsa,
    in_force: &InForce<'_>,
    offset: u64,
    value: AttributeValue<'_>,
) -> Result<Option<LocationValue>, LocationListError>
    requires list { IsTrue (is_location_list (value_view value)) }
    ensures { GivesTold (option_map location_value_view) list_told (value_of_list (list_source unit.now.sections unit.now.header) (in_force_view transform.now (dwarf_registers isa.now) in_force.now) offset (value_view value.entry)) result }
{
    let intervals = listed_expressions(alloc, unit, offset, value)?;
    let encoding = unit.encoding();
    let expressions = built_intervals(alloc, transform, isa, in_force, encoding, &intervals)?;
    match expressions {
        Some(expressions) => Ok(Some(LocationValue::List(expressions))),
        None => Ok(None),
    }
}

// Reads the expression of an interval.
fn check_interval(
    alloc: Global,
    in_force: &InForce<'_>,
    encoding: Encoding,
    interval: &ListedExpression<'_>,
) -> Result<(), ExprError>
    ensures { GivesTold (λ done. done) told (interval_read (option_map (λ x. x.now) in_force.now.base) (listed_view interval.now)) result }
{
    compile_at(
        alloc,
        in_force.base,
        encoding,
        interval.bytes,
        interval.place,
    )?;
    Ok(())
}

// Reads the expressions of some intervals in order.
fn check_intervals(
    alloc: Global,
    in_force: &InForce<'_>,
    encoding: Encoding,
    intervals: &[ListedExpression<'_>],
) -> Result<(), ExprError>
    ensures { (functions : List Function) (registers : Registers) → GivesTold (λ done. done) told (read_locations (in_force_view functions registers in_force.now) (map listed_view intervals.now)) result }
{
    for interval in intervals {
        check_interval(alloc, in_force, encoding, interval)?;
    }
    Ok(())
}

/// Reads the location list that a value of the entry at an offset names, and then its expressions, and builds nothing.
///
/// # Errors
/// The first that is refused of the list: `Read` at the list, or at the entry where the list cannot be found; `TooLarge` for a start
/// plus a length that is no address. Else `Read` with the place of its first expression of which an operation cannot be read.
/// `OutOfMemory` for want of memory.
pub(crate) fn check_location_list(
    alloc: Global,
    unit: &Unit<'_>,
    in_force: &InForce<'_>,
    offset: u64,
    value: AttributeValue<'_>,
) -> Result<(), LocationListError>
    requires list { IsTrue (is_location_list (value_view value)) }
    ensures { (functions : List Function) (registers : Registers) → GivesTold (λ done. done) list_told (read_by (list_source unit.now.sections unit.now.header) (in_force_view functions registers in_force.now) offset (value_view value.entry)) result }
{
    let intervals = listed_expressions(alloc, unit, offset, value)?;
    check_intervals(alloc, in_force, unit.encoding(), &intervals)?;
    Ok(())
}
