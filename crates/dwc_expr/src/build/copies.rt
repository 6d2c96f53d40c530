//! Operations that stay as they are, for each native range of a scope.
ghost use Rattle.std.specs.Prelude.{◌≡◌, ◌++◌, map, IfOk, OnOk};
ghost use Rattle.dwc_native.specs.BuiltExpressions.{copied as copied_over};
ghost use Rattle.dwc_native.specs.Placed.{scope_intervals};
ghost use Rattle.dwc_native.specs.Runs.{native_in_function};
ghost use Rattle.dwc_addr.specs.Translations.{with_lengths};
ghost use Rattle.dwc_expr.specs.Builds.{location_view, built_view};
ghost use Rattle.dwc_expr.specs.Copies.{copy_at};
ghost use Rattle.dwc_expr.specs.OverIntervals.{IsFront};

use crate::BuiltCompiledExpression;
use dwc_addr::AddressTransform;
use dwc_base::Address;
use dwc_unit::Expression;
use std::alloc::{AllocError, Global};

// Operations copied for each native range of each interval of a scope, in order.
pub(crate) fn copied(
    alloc: Global,
    scope: &[(u64, u64)],
    addr_tr: &AddressTransform<'_>,
    code: &[u8],
) -> Result<BuiltCompiledExpression, AllocError>
    ensures { IfOk result (λ built. built_view built ≡ copied_over (scope_intervals addr_tr.now scope.now) code.now) }
{
    let mut expressions = Vec::new(alloc);
    for (start, end) in scope {
        push_copies(alloc, &mut expressions, addr_tr, *start, *end, code)?;
    }
    Ok(BuiltCompiledExpression {
        expressions,
        covers_entire_scope: false,
    })
}

// Pushes a copy for each native range of an interval.
#[tactic(auto, using(crate::proofs::FrontLaws::front_same, crate::proofs::FrontLaws::front_more, crate::proofs::FrontLaws::front_behind))]
pub(crate) fn push_copies(
    alloc: Global,
    expressions: &mut Vec<(Address, u64, Expression)>,
    addr_tr: &AddressTransform<'_>,
    start: u64,
    end: u64,
    code: &[u8],
) -> Result<(), AllocError>
    ensures copies { OnOk result (map location_view expressions.new.items ≡ map location_view expressions.old.items ++ map (copy_at code.now) (with_lengths (native_in_function addr_tr.now start end))) }
    ensures front { IsFront expressions.old.items expressions.new.items }
{
    for (begin, length) in addr_tr.translate_ranges(start, end) {
        let copy = Expression::from_slice(alloc, code)?;
        expressions.push((begin, length, copy))?;
    }
    Ok(())
}
