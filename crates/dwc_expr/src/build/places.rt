//! Refusals of the places at which values lie.
ghost use Rattle.std.specs.Prelude.{◌≡◌, ◌∷◌, [], All, Some, if◌then◌else◌};
ghost use Rattle.std.specs.FinMap as finite;
ghost use Rattle.std.specs.List.{flat_map};
ghost use Rattle.std.specs.Option.{option_to_list};
ghost use Rattle.dwc_native.specs.BuiltExpressions.{memory_refusals, register_refusal_at, without_memory};
ghost use Rattle.dwc_isa.specs.ValueLabels.{place_view};
ghost use Rattle.dwc_isa.specs.ToldModules.{memory_view};
ghost use Rattle.dwc_expr.specs.LabelRanges.{HasPlaces};
ghost use Rattle.dwc_expr.specs.NeededLabels.{numbers};
ghost use Rattle.dwc_expr.specs.Refusals.{Checks, refusals_on};

use crate::build::setting::place_on;
use crate::{CachedValueLabelRange, ExprError};
use dwc_isa::{LabelValueLoc, ModuleMemoryOffset, TargetIsa, ValueLabel};

// Looks at the places of labels on ranges that have one for each, in order: where linear memory is read that is not there, at the
// first range; else for a register that DWARF does not know.
pub(crate) fn check_places(
    ranges: &[CachedValueLabelRange],
    labels: &[ValueLabel],
    lacks_memory: bool,
    isa: &dyn TargetIsa,
) -> Result<(), ExprError>
    requires { All (HasPlaces (numbers labels.now)) ranges.now }
    ensures { Checks (flat_map (refusals_on lacks_memory (numbers labels.now) (dwarf_registers isa.now)) ranges.now) result }
{
    for range in ranges {
        check_places_on(range, labels, lacks_memory, isa)?;
    }
    Ok(())
}

fn check_places_on(
    range: &CachedValueLabelRange,
    labels: &[ValueLabel],
    lacks_memory: bool,
    isa: &dyn TargetIsa,
) -> Result<(), ExprError>
    requires { HasPlaces (numbers labels.now) range.now }
    ensures { Checks (refusals_on lacks_memory (numbers labels.now) (dwarf_registers isa.now) range.now) result }
{
    if lacks_memory {
        return Err(ExprError::InvalidAttributeValue);
    }
    for label in labels {
        check_place(place_on(range, *label), isa)?;
    }
    Ok(())
}

pub(crate) fn check_place(place: LabelValueLoc, isa: &dyn TargetIsa) -> Result<(), ExprError>
    ensures { Checks (option_to_list (register_refusal_at (λ r. finite.get (dwarf_registers isa.now) r) (Some (place_view place)))) result }
{
    if let LabelValueLoc::Reg(register) = place
        && isa.map_regalloc_reg_to_dwarf(register).is_none()
    {
        return Err(ExprError::UnmappedRegister { register });
    }
    Ok(())
}

// Whether linear memory is read where there is none.
pub(crate) fn lacks_memory(memory: ModuleMemoryOffset, reads_memory: bool) -> bool
    ensures { memory_refusals (memory_view memory) reads_memory ≡ (if result then without_memory ∷ [] else []) }
{
    match memory {
        ModuleMemoryOffset::None => reads_memory,
        ModuleMemoryOffset::Defined(_) | ModuleMemoryOffset::Imported { .. } => false,
    }
}
