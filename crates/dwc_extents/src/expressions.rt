//! Expressions of the input, compiled where they stand and built over scopes.
ghost use Rattle.std.specs.Prelude.{◌≡◌, option_map};
ghost use Rattle.dwc_rules.specs.LocationAttributes.{built_at, compiled_at};
ghost use Rattle.dwc_expr.specs.Builds.{built_view};
ghost use Rattle.dwc_extents.specs.InForceSeen.{in_force_view};
ghost use Rattle.dwc_extents.specs.LocationValues.{GivesTold, error_at, expression_at, told};

use crate::in_force::InForce;
use dwc_addr::AddressTransform;
use dwc_base::{Encoding, SectionName};
use dwc_expr::{BuiltCompiledExpression, CompiledExpression, ExprError, compile_expression};
use dwc_isa::TargetIsa;
use std::alloc::Global;

// The error of an expression that stands at a place: an operation that cannot be read is told there.
pub(crate) fn at_place(error: ExprError, place: (SectionName, u64)) -> ExprError
    ensures { result ≡ error_at place error }
{
    match error {
        ExprError::Read { what, .. } => ExprError::Read {
            what,
            section: place.0,
            offset: place.1,
        },
        _ => error,
    }
}

/// What an expression compiles to that stands at a place, on a frame base if there is one; None where it is not supported.
///
/// # Errors
/// `Read` with the place exactly where an operation cannot be read. `OutOfMemory` for want of memory.
pub(crate) fn compile_at(
    alloc: Global,
    base: Option<&CompiledExpression>,
    encoding: Encoding,
    bytes: &[u8],
    place: (SectionName, u64),
) -> Result<Option<CompiledExpression>, ExprError>
    ensures { GivesTold (λ x. x) told (compiled_at (option_map (λ x. x.now) base.entry) (expression_at bytes.now place)) result }
{
    match compile_expression(alloc, bytes, encoding, base) {
        Ok(parts) => Ok(parts),
        Err(error) => Err(at_place(error, place)),
    }
}

/// What a compiled expression becomes over a scope, by what is in force.
///
/// # Errors
/// Those of `build_with_locals`.
pub(crate) fn build_over(
    alloc: Global,
    transform: &AddressTransform<'_>,
    isa: &dyn TargetIsa,
    in_force: &InForce<'_>,
    scope: &[(u64, u64)],
    parts: &CompiledExpression,
) -> Result<BuiltCompiledExpression, ExprError>
    ensures { GivesTold built_view told (built_at (in_force_view transform.now (dwarf_registers isa.now) in_force.now).surroundings scope.now parts.now) result }
{
    parts.build_with_locals(alloc, scope, transform, in_force.frame, isa)
}
