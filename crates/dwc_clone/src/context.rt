//! The variable that leads a debugger to the context of a module, and so to its linear memory. (DWARF 4 and 5, section 4.1.)
ghost use Rattle.std.specs.Prelude.{◌≡◌, ℕ, is_some, true, IfErr, IfOk, OnErr, OnOk, option_map};
ghost use Rattle.dwc_native.specs.Addends.{HaveAddends};
ghost use Rattle.dwc_native.specs.BuiltExpressions.{label_over};
ghost use Rattle.dwc_native.specs.Parts.{context_label};
ghost use Rattle.dwc_expr.specs.Builds.{surroundings};
ghost use Rattle.dwc_expr.specs.Errors.{refusal_told};
ghost use Rattle.dwc_base.specs.declared.constants.TheConstants.{DW_AT_location};
ghost use Rattle.dwc_unit.specs.declared.attributes.AttributeValue.TheVariants.{LocationListRef};
ghost use Rattle.dwc_unit.specs.GivenUnits.{FitsValue, IsAdded};
ghost use Rattle.dwc_clone.specs.ContextPlaces.{AddsContext, HasPartOfVariable, IsVariable, LiesOver, OfWritten};
ghost use Rattle.dwc_source.specs.MadeValues.{Grows};

use crate::made::{MadeValue, add_made};
use dwc_addr::{AddressTransform, translations_are_said};
use dwc_base::constants::{DW_AT_location, DW_AT_name, DW_AT_type, DW_TAG_variable};
use dwc_expr::{CompiledExpression, ExprError, FunctionFrameInfo};
use dwc_isa::TargetIsa;
use dwc_section::WriteError;
use dwc_source::add_text;
use dwc_unit::{AttributeValue, DebugInfoRef, LocationList, StringTable, Unit, UnitEntryId};
use std::alloc::Global;

// What a call of the writer answers, which is refused for want of memory alone.
fn of_memory<T: Drop>(written: Result<T, WriteError>) -> Result<T, ExprError>
    ensures { OfWritten written result }
{
    match written {
        Ok(value) => Ok(value),
        Err(_) => Err(ExprError::OutOfMemory),
    }
}

// Where the context lies over a scope.
fn context_over(
    alloc: Global,
    addr_tr: &AddressTransform<'_>,
    frame_info: Option<&FunctionFrameInfo<'_>>,
    scope_ranges: &[(u64, u64)],
    isa: &dyn TargetIsa,
) -> Result<LocationList, ExprError>
    requires functions { HaveAddends addr_tr.now }
    ensures fits { IfOk result (λ list. (size : ℕ) → FitsValue size DW_AT_location (LocationListRef list)) }
    ensures lies { LiesOver (label_over (surroundings addr_tr.now (option_map (λ f. f.now) frame_info.entry) (dwarf_registers isa.now)) scope_ranges.now context_label) result }
{
    translations_are_said();
    let context = CompiledExpression::vmctx(alloc)?;
    let built = context.build_with_locals(alloc, scope_ranges, addr_tr, frame_info, isa)?;
    Ok(LocationList::new(built.expressions))
}

// Adds the variable below a parent, with its type and where it lies.
fn add_context(
    unit: &mut Unit,
    parent: UnitEntryId,
    vmctx_ptr_die_ref: DebugInfoRef,
    locations: LocationList,
    out_strings: &mut StringTable,
) -> Result<(), WriteError>
    requires parent { IsAdded parent.index unit.old }
    requires fits { (size : ℕ) → FitsValue size DW_AT_location (LocationListRef locations) }
    ensures grows { Grows out_strings.old out_strings.new }
    ensures variable { OnOk result (IsVariable locations parent.index vmctx_ptr_die_ref out_strings.new unit.old unit.new) }
    ensures part { OnErr result (HasPartOfVariable parent.index vmctx_ptr_die_ref unit.old unit.new) }
{
    let name = add_text(out_strings, b"__vmctx")?;
    let variable = add_made(
        unit,
        parent,
        DW_TAG_variable,
        &[
            (DW_AT_name, MadeValue::Text(name)),
            (DW_AT_type, MadeValue::AnyEntry(vmctx_ptr_die_ref)),
        ],
    )?;
    let location = AttributeValue::LocationListRef(locations);
    unit.set(variable, DW_AT_location, location)
}

/// Adds the variable `__vmctx` to a unit below a parent: of the type that `vmctx_ptr_die_ref` refers to, a pointer to the context of the
/// module, and at the places where that lies over a scope in the frame of a function, if one is given. They may be none. The parent was
/// added to the unit, and no function of `addr_tr` with a symbol is longer than 2^31 - 1 bytes, so that addends say its bytes.
///
/// # Errors
/// `BadLabelRange` where the context has a range in the frame that begins above its end; `UnmappedRegister` where it lies in a register
/// for which the target has no number, on a byte of the scope; the unit and the texts are then as before. `OutOfMemory` for want of
/// memory; the variable may then be there without attributes, with its name, or with its name and its type, and its name among the texts.
pub fn append_vmctx_info(
    alloc: Global,
    unit: &mut Unit,
    parent: UnitEntryId,
    vmctx_ptr_die_ref: DebugInfoRef,
    addr_tr: &AddressTransform<'_>,
    frame_info: Option<&FunctionFrameInfo<'_>>,
    scope_ranges: &[(u64, u64)],
    out_strings: &mut StringTable,
    isa: &dyn TargetIsa,
) -> Result<(), ExprError>
    requires functions { HaveAddends addr_tr.now }
    requires parent { IsAdded parent.index unit.old }
    ensures grows { Grows out_strings.old out_strings.new }
    ensures variable { AddsContext (label_over (surroundings addr_tr.now (option_map (λ f. f.now) frame_info.entry) (dwarf_registers isa.now)) scope_ranges.now context_label) parent.index vmctx_ptr_die_ref out_strings.new unit.old unit.new result }
    ensures part { OnErr result (HasPartOfVariable parent.index vmctx_ptr_die_ref unit.old unit.new) }
    ensures refused { IfErr result (λ e. is_some (refusal_told e) ≡ true → (unit.new ≡ unit.old) × (out_strings.new ≡ out_strings.old)) }
{
    let locations = context_over(alloc, addr_tr, frame_info, scope_ranges, isa)?;
    of_memory(add_context(unit, parent, vmctx_ptr_die_ref, locations, out_strings))
}
