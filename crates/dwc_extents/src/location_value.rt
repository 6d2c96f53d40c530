//! What attributes become whose values are expressions. (DWARF 4 and 5, section 2.6.)
ghost use Rattle.std.specs.Prelude.{◌≡◌, ℕ, ◌<◌, ◌&&◌, [], List, map, length, option_map, slice_index_or, true, IfOk, None, Ok, Some};
ghost use Rattle.std.specs.Option.{unwrap_or};
ghost use Rattle.dwc_native.specs.Functions.{Function};
ghost use Rattle.dwc_rules.specs.LocationAttributes.{are_equal_to as are_equal, output_frame_base as frame_base_bytes, read_expression, value_of_built, value_of_code, value_of_expression, value_of_parts, value_over};
ghost use Rattle.dwc_native.specs.Parts.{single_code};
ghost use Rattle.dwc_isa.specs.Registers.{Registers};
ghost use Rattle.dwc_expr.specs.Builds.{built_view, location_view};
ghost use Rattle.dwc_extents.specs.InForceSeen.{in_force_view};
ghost use Rattle.dwc_extents.specs.LocationValues.{GivesLocationValue, GivesTold, are_alike as alike, expression_at, location_value_view, told};

use crate::expressions::{build_over, compile_at};
use crate::in_force::{InForce, base_for};
use dwc_addr::AddressTransform;
use dwc_base::constants::{DW_AT_frame_base, DW_OP_call_frame_cfa};
use dwc_base::{Address, Encoding, SectionName};
use dwc_expr::{BuiltCompiledExpression, CompiledExpression, ExprError};
use dwc_isa::TargetIsa;
use dwc_source::is_location_name;
use dwc_unit::Expression;
use std::alloc::{AllocError, Global};

/// What an attribute becomes whose value is an expression or a location list.
#[derive(Drop)]
pub(crate) enum LocationValue {
    /// One expression.
    Expression(Expression),
    /// A location list: expressions, each for so many bytes of native code from an address on.
    List(Vec<(Address, u64, Expression)>),
}

// ---- built expressions

// Whether some expressions all have the same bytes as said.
fn are_equal_to(bytes: &[u8], expressions: &[(Address, u64, Expression)]) -> bool
    ensures { result ≡ are_equal bytes.now (map location_view expressions.now) }
{
    for (_, _, expression) in expressions {
        if expression.as_slice() != bytes {
            return false;
        }
    }
    true
}

// Whether some expressions all have the same bytes.
fn are_alike(expressions: &[(Address, u64, Expression)]) -> bool
    ensures { result ≡ alike (map location_view expressions.now) }
{
    match expressions.split_first() {
        Some((first, others)) => are_equal_to(first.2.as_slice(), others),
        None => true,
    }
}

// Whether one expression holds for each byte of a scope.
fn holds_everywhere(built: &BuiltCompiledExpression) -> bool
    ensures { result ≡ (built.now.covers_entire_scope && alike (map location_view built.now.expressions.items)) }
{
    built.covers_entire_scope && are_alike(&built.expressions)
}

// The first of some expressions.
fn first_expression(mut expressions: Vec<(Address, u64, Expression)>) -> Expression
    requires { 0 < length expressions.items }
    ensures { (first : Address × ℕ × Expression) → result ≡ (slice_index_or expressions.items 0 first).2 }
{
    let (_, _, first) = expressions.swap_remove(0);
    first
}

// What built expressions become under a name: nothing where there are none; the one expression where it holds for each byte of the
// scope; else a location list, where the attribute may have one.
fn value_of_built(name: u16, built: BuiltCompiledExpression) -> Option<LocationValue>
    ensures { option_map location_value_view result ≡ value_of_built name (built_view built) }
{
    if built.expressions.is_empty() {
        return None;
    }
    if holds_everywhere(&built) {
        return Some(LocationValue::Expression(first_expression(built.expressions)));
    }
    if is_location_name(name) {
        return Some(LocationValue::List(built.expressions));
    }
    None
}

// ---- compiled expressions

// What operations that stay as they are become; nothing where there are none.
fn value_of_code(
    alloc: Global,
    parts: &CompiledExpression,
) -> Result<Option<LocationValue>, ExprError>
    ensures { GivesLocationValue (Ok (value_of_code (unwrap_or (single_code parts.now.parts) []))) result }
{
    let Some(code) = parts.build(alloc)? else {
        return Ok(None);
    };
    if code.as_slice().is_empty() {
        return Ok(None);
    }
    Ok(Some(LocationValue::Expression(code)))
}

// Whether it is known at once that nothing becomes of a compiled expression over a scope, and that it is not refused: one under a name
// that is no location name is nothing where it varies.
fn becomes_nothing(
    alloc: Global,
    transform: &AddressTransform<'_>,
    isa: &dyn TargetIsa,
    in_force: &InForce<'_>,
    name: u16,
    scope: &[(u64, u64)],
    parts: &CompiledExpression,
) -> bool
    ensures { result ≡ true → value_over name (in_force_view transform.now (dwarf_registers isa.now) in_force.now).surroundings parts.now (Some scope.now) ≡ Ok None }
{
    if is_location_name(name) {
        return false;
    }
    parts.varies_over(alloc, scope, transform, in_force.frame, isa)
}

// What a compiled expression becomes over the scope in force, if there is one.
fn value_over(
    alloc: Global,
    transform: &AddressTransform<'_>,
    isa: &dyn TargetIsa,
    in_force: &InForce<'_>,
    name: u16,
    parts: &CompiledExpression,
) -> Result<Option<LocationValue>, ExprError>
    ensures { GivesLocationValue (value_over name (in_force_view transform.now (dwarf_registers isa.now) in_force.now).surroundings parts.now (in_force_view transform.now (dwarf_registers isa.now) in_force.now).scope) result }
{
    let Some(scope) = in_force.scope else {
        return Ok(None);
    };
    if becomes_nothing(alloc, transform, isa, in_force, name, scope, parts) {
        return Ok(None);
    }
    let built = build_over(alloc, transform, isa, in_force, scope, parts)?;
    Ok(value_of_built(name, built))
}

// What a compiled expression becomes under a name. A simple one becomes its operations.
fn value_of_parts(
    alloc: Global,
    transform: &AddressTransform<'_>,
    isa: &dyn TargetIsa,
    in_force: &InForce<'_>,
    name: u16,
    parts: &CompiledExpression,
) -> Result<Option<LocationValue>, ExprError>
    ensures { GivesLocationValue (value_of_parts name (in_force_view transform.now (dwarf_registers isa.now) in_force.now) (Some parts.now)) result }
{
    if parts.is_simple() {
        value_of_code(alloc, parts)
    } else {
        value_over(alloc, transform, isa, in_force, name, parts)
    }
}

// ---- expressions of the input

// The frame base of the output: the canonical frame address.
fn output_frame_base(alloc: Global) -> Result<Expression, AllocError>
    ensures { IfOk result (λ e. e ≡ frame_base_bytes) }
{
    Expression::from_slice(alloc, &[DW_OP_call_frame_cfa])
}

/// What an attribute of a name becomes whose value is an expression that stands at a place; None where it becomes nothing. A frame base
/// becomes the canonical frame address.
///
/// # Errors
/// `Read` with the place exactly where an operation cannot be read. Those of `build_with_locals` where it is built over the scope in
/// force. `OutOfMemory` for want of memory.
pub(crate) fn value_of_expression(
    alloc: Global,
    transform: &AddressTransform<'_>,
    isa: &dyn TargetIsa,
    in_force: &InForce<'_>,
    name: u16,
    encoding: Encoding,
    bytes: &[u8],
    place: (SectionName, u64),
) -> Result<Option<LocationValue>, ExprError>
    ensures { GivesLocationValue (value_of_expression name (in_force_view transform.now (dwarf_registers isa.now) in_force.now) (expression_at bytes.now place)) result }
{
    let parts = compile_at(alloc, base_for(name, in_force), encoding, bytes, place)?;
    if name == DW_AT_frame_base {
        return Ok(Some(LocationValue::Expression(output_frame_base(alloc)?)));
    }
    match parts {
        Some(parts) => value_of_parts(alloc, transform, isa, in_force, name, &parts),
        None => Ok(None),
    }
}

/// Reads an expression that stands at a place, of an attribute of a name, and builds nothing.
///
/// # Errors
/// `Read` with the place exactly where an operation cannot be read. `OutOfMemory` for want of memory.
pub(crate) fn check_expression(
    alloc: Global,
    in_force: &InForce<'_>,
    name: u16,
    encoding: Encoding,
    bytes: &[u8],
    place: (SectionName, u64),
) -> Result<(), ExprError>
    ensures { (functions : List Function) (registers : Registers) → GivesTold (λ done. done) told (read_expression name (in_force_view functions registers in_force.now) (expression_at bytes.now place)) result }
{
    compile_at(alloc, base_for(name, in_force), encoding, bytes, place)?;
    Ok(())
}
