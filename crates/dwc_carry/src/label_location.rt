//! Where the values of labels lie in native code.
ghost use Rattle.std.specs.Prelude.{◌≡◌, ℕ, IfOk, option_map};
ghost use Rattle.dwc_base.specs.declared.constants.TheConstants.{DW_AT_location};
ghost use Rattle.dwc_native.specs.Addends.{HaveAddends};
ghost use Rattle.dwc_native.specs.BuiltExpressions as Built;
ghost use Rattle.dwc_expr.specs.Builds.{surroundings};
ghost use Rattle.dwc_unit.specs.declared.attributes.AttributeValue.TheVariants.{LocationListRef};
ghost use Rattle.dwc_unit.specs.GivenUnits.{FitsValue};
ghost use Rattle.dwc_clone.specs.ContextPlaces.{LiesOver};

use dwc_addr::{AddressTransform, translations_are_said};
use dwc_expr::{CompiledExpression, ExprError, FunctionFrameInfo};
use dwc_isa::{TargetIsa, ValueLabel};
use dwc_unit::LocationList;
use std::alloc::Global;

/// Where the value of a label lies over a scope. No function of `addr_tr` with a symbol is longer than 2^31 - 1 bytes.
pub(crate) fn label_over(
    alloc: Global,
    label: ValueLabel,
    addr_tr: &AddressTransform<'_>,
    frame_info: Option<&FunctionFrameInfo<'_>>,
    scope_ranges: &[(u64, u64)],
    isa: &dyn TargetIsa,
) -> Result<LocationList, ExprError>
    requires functions { HaveAddends addr_tr.now }
    ensures fits { IfOk result (λ list. (size : ℕ) → FitsValue size DW_AT_location (LocationListRef list)) }
    ensures lies { LiesOver (Built.label_over (surroundings addr_tr.now (option_map (λ f. f.now) frame_info.entry) (dwarf_registers isa.now)) scope_ranges.now «label».0) result }
{
    translations_are_said();
    let place = CompiledExpression::from_label(alloc, label)?;
    let built = place.build_with_locals(alloc, scope_ranges, addr_tr, frame_info, isa)?;
    Ok(LocationList::new(built.expressions))
}
