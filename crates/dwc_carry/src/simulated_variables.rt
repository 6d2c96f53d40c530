//! The parameters and variables of a simulated function, below its entry in the unit for functions without debugging information.
ghost use Rattle.std.specs.Prelude.{◌≡◌, ◌<◌, ◌∷◌, ◌==◌, [], ℕ, List, Option, false, Some, option_and_then, length, IfOk, OnOk};
ghost use Rattle.std.specs.List.{flat_map};
ghost use Rattle.std.specs.FinMap as finite;
ghost use Rattle.dwc_base.specs.declared.constants.TheConstants.{DW_AT_location};
ghost use Rattle.dwc_native.specs.Addends.{HaveAddends};
ghost use Rattle.dwc_native.specs.BuiltExpressions as Built;
ghost use Rattle.dwc_rules.specs.Carried.{Module};
ghost use Rattle.dwc_carried.specs.DefinedFunctions.{DefinedFunction};
ghost use Rattle.dwc_rules.specs.Drafts.{Draft};
ghost use Rattle.dwc_native.specs.Parts.{context_label};
ghost use Rattle.dwc_rules.specs.Refusals.{Refusal};
ghost use Rattle.dwc_base.specs.Listing.{first_of};
ghost use Rattle.dwc_carried.specs.SimulatedUnit as Simulated;
ghost use Rattle.dwc_carried.specs.SimulatedUnit.{place_of_type};
ghost use Rattle.dwc_base.specs.ToldFiles.{type_of_local};
ghost use Rattle.dwc_base.specs.TranslationNames.{HasSortedNames};
ghost use Rattle.dwc_expr.specs.Builds.{surroundings};
ghost use Rattle.dwc_unit.specs.declared.attributes.AttributeValue.TheVariants.{LocationListRef};
ghost use Rattle.dwc_unit.specs.GivenUnits.{FitsValue};
ghost use Rattle.dwc_source.specs.MadeValues.{Grows};
ghost use Rattle.dwc_carry.specs.SimulatedVariables.{AddsContextOr, Extends, GivesVariable, GivesVariables, IsSimulatedFunction, LeftVariables, LocatesOr, label_refusals, local_tag_of, of_label};
ghost use Rattle.dwc_carry.specs.MadeEntries.{IsDense};
ghost use Rattle.dwc_carry.specs.SyntheticUnits.{reference_meant};
ghost use Rattle.dwc_carry.specs.SimulatedDrafts.{HasVariables};

use crate::DebugError;
use crate::label_location::label_over;
use crate::local_types::{FunctionLocals, place_of_type};
use crate::simulated_entries::add_local;
use crate::simulated_functions::SimulatedModule;
use crate::simulated_names::local_name;
use crate::simulated_texts::add_text;
use dwc_base::Limit;
use dwc_base::constants::{DW_TAG_formal_parameter, DW_TAG_variable};
use dwc_clone::append_vmctx_info;
use dwc_expr::{ExprError, FunctionFrameInfo};
use dwc_isa::{TargetIsa, ValueLabel, get_vmctx_value_label};
use dwc_unit::{LocationList, StringTable, Unit, UnitEntryId};
use std::alloc::Global;

/// A simulated function, whose parameters and variables are added.
#[derive(Clone, Copy)]
pub(crate) struct SimulatedFunction<'l, 'a> {
    /// Its number among all of its module, of which the imported ones come first.
    pub index: u64,
    /// The source range of its code in the wasm file.
    pub scope: (u64, u64),
    /// The types of its locals.
    pub locals: &'l FunctionLocals<'a>,
    /// Where its values lie.
    pub frame: FunctionFrameInfo<'a>,
    /// Its entry in the unit.
    pub entry: UnitEntryId,
}

// The error of a label that is located in the module at a place.
fn of_label(error: ExprError, place: u32) -> DebugError
    ensures { result ≡ of_label place error }
{
    match error {
        ExprError::Read {
            what,
            section,
            offset,
        } => DebugError::Read {
            what,
            section,
            offset,
        },
        ExprError::TooLarge => DebugError::TooLarge { what: Limit::Jump },
        ExprError::BadLabelRange { label } => DebugError::BadLabelRange { label },
        ExprError::InvalidAttributeValue => DebugError::InvalidAttributeValue { module: place },
        ExprError::UnmappedRegister { register } => DebugError::UnmappedRegister { register },
        ExprError::OutOfMemory => DebugError::OutOfMemory,
    }
}

// Where the value of a label of a function lies over all of its source.
fn label_locations(
    alloc: Global,
    isa: &dyn TargetIsa,
    module: &SimulatedModule<'_>,
    function: &SimulatedFunction<'_, '_>,
    label: ValueLabel,
) -> Result<LocationList, DebugError>
    requires addends { HaveAddends «module».now.transform.now }
    ensures fits { IfOk result (λ list. (size : ℕ) → FitsValue size DW_AT_location (LocationListRef list)) }
    ensures lies { LocatesOr «module».now.compiled.now.place (Built.label_over (surroundings «module».now.transform.now (Some function.now.frame) (dwarf_registers isa.now)) (function.now.scope ∷ []) «label».0) result }
{
    let scope = [function.scope];
    match label_over(
        alloc,
        label,
        module.transform,
        Some(&function.frame),
        &scope,
        isa,
    ) {
        Ok(list) => Ok(list),
        Err(error) => Err(of_label(error, module.compiled.place)),
    }
}

// The place of the entry of a local's type, where it has one.
fn type_place(locals: &FunctionLocals<'_>, local: u32) -> Option<usize>
    ensures { result ≡ option_and_then place_of_type (type_of_local locals.now local) }
{
    match locals.type_of(u64::from(local)) {
        Some(value_type) => place_of_type(value_type),
        None => None,
    }
}

// The tag of a local.
fn local_tag(locals: &FunctionLocals<'_>, local: u32) -> u16
    ensures { result ≡ local_tag_of locals.now local }
{
    if locals.is_parameter(u64::from(local)) {
        DW_TAG_formal_parameter
    } else {
        DW_TAG_variable
    }
}

// Adds the context of a function.
fn add_context(
    alloc: Global,
    isa: &dyn TargetIsa,
    module: &SimulatedModule<'_>,
    function: &SimulatedFunction<'_, '_>,
    unit: &mut Unit,
    strings: &mut StringTable,
) -> Result<(), DebugError>
    requires addends { HaveAddends «module».now.transform.now }
    requires dense { IsDense unit.old }
    requires parent { function.now.entry.index < length unit.old.additions }
    ensures grows { Grows strings.old strings.new }
    ensures extends { OnOk result (Extends unit.old unit.new) }
    ensures context { AddsContextOr «module».now.compiled.now.place (Built.label_over (surroundings «module».now.transform.now (Some function.now.frame) (dwarf_registers isa.now)) (function.now.scope ∷ []) context_label) function.now.entry.index «module».now.vmctx_ptr strings.new unit.old unit.new result }
{
    let scope = [function.scope];
    match append_vmctx_info(
        alloc,
        unit,
        function.entry,
        module.vmctx_ptr,
        module.transform,
        Some(&function.frame),
        &scope,
        strings,
        isa,
    ) {
        Ok(()) => Ok(()),
        Err(error) => Err(of_label(error, module.compiled.place)),
    }
}

// Adds a local of a function, whose type has an entry at a place.
fn add_typed(
    alloc: Global,
    isa: &dyn TargetIsa,
    module: &SimulatedModule<'_>,
    function: &SimulatedFunction<'_, '_>,
    label: ValueLabel,
    type_place: usize,
    unit: &mut Unit,
    strings: &mut StringTable,
) -> Result<(), DebugError>
    requires addends { HaveAddends «module».now.transform.now }
    requires sorted { HasSortedNames «module».now.translation.now }
    requires dense { IsDense unit.old }
    requires parent { function.now.entry.index < length unit.old.additions }
    ensures grows { Grows strings.old strings.new }
    ensures extends { OnOk result (Extends unit.old unit.new) }
    ensures variable { (number : ℕ) (m : Module) (d : DefinedFunction) (before : List Draft) (left : List ℕ) (total : Option Refusal) → IsSimulatedFunction (dwarf_registers isa.now) m d «module».now function.now → («label».0 == context_label) ≡ false → Simulated.type_place m d «label».0 ≡ Some type_place → LeftVariables number (reference_meant «module».now.vmctx_ptr) m d before («label».0 ∷ left) function.now.entry.index total strings.old unit.old → GivesVariable number (reference_meant «module».now.vmctx_ptr) m d before left function.now.entry.index total strings.new unit.new result }
{
    let locations = label_locations(alloc, isa, module, function, label)?;
    let name = local_name(alloc, module.translation, function.index, label.0)?;
    let name = add_text(strings, &name)?;
    let tag = local_tag(function.locals, label.0);
    add_local(unit, function.entry.index, tag, name, type_place, locations)?;
    Ok(())
}

// Adds what a label of a function names: the context, or a local whose type has an entry; else nothing.
fn add_variable(
    alloc: Global,
    isa: &dyn TargetIsa,
    module: &SimulatedModule<'_>,
    function: &SimulatedFunction<'_, '_>,
    label: ValueLabel,
    unit: &mut Unit,
    strings: &mut StringTable,
) -> Result<(), DebugError>
    requires addends { HaveAddends «module».now.transform.now }
    requires sorted { HasSortedNames «module».now.translation.now }
    requires dense { IsDense unit.old }
    requires parent { function.now.entry.index < length unit.old.additions }
    ensures grows { Grows strings.old strings.new }
    ensures extends { OnOk result (Extends unit.old unit.new) }
    ensures variable { (number : ℕ) (m : Module) (d : DefinedFunction) (before : List Draft) (left : List ℕ) (total : Option Refusal) → IsSimulatedFunction (dwarf_registers isa.now) m d «module».now function.now → LeftVariables number (reference_meant «module».now.vmctx_ptr) m d before («label».0 ∷ left) function.now.entry.index total strings.old unit.old → GivesVariable number (reference_meant «module».now.vmctx_ptr) m d before left function.now.entry.index total strings.new unit.new result }
{
    if label.0 == get_vmctx_value_label().0 {
        return add_context(alloc, isa, module, function, unit, strings);
    }
    match type_place(function.locals, label.0) {
        Some(place) => add_typed(alloc, isa, module, function, label, place, unit, strings),
        None => Ok(()),
    }
}

/// Adds the parameters and variables of a function by rising labels: the context, and the locals of the types that have an entry.
///
/// # Errors
/// What is refused first of them: `BadLabelRange` and `UnmappedRegister`. `OutOfMemory` for want of memory.
pub(crate) fn add_variables(
    alloc: Global,
    isa: &dyn TargetIsa,
    module: &SimulatedModule<'_>,
    function: &SimulatedFunction<'_, '_>,
    unit: &mut Unit,
    strings: &mut StringTable,
) -> Result<(), DebugError>
    requires addends { HaveAddends «module».now.transform.now }
    requires sorted { HasSortedNames «module».now.translation.now }
    requires dense { IsDense unit.old }
    requires parent { function.now.entry.index < length unit.old.additions }
    ensures grows { Grows strings.old strings.new }
    ensures extends { OnOk result (Extends unit.old unit.new) }
    ensures variables { (number : ℕ) (m : Module) (d : DefinedFunction) (before : List Draft) → IsSimulatedFunction (dwarf_registers isa.now) m d «module».now function.now → HasVariables number (reference_meant «module».now.vmctx_ptr) m d strings.old before (finite.keys function.now.frame.value_ranges.now) function.now.entry.index unit.old → GivesVariables number (reference_meant «module».now.vmctx_ptr) m d before function.now.entry.index (first_of (flat_map (label_refusals m d) (finite.keys function.now.frame.value_ranges.now))) strings.new unit.new result }
{
    for label in function.frame.value_ranges.labels() {
        add_variable(alloc, isa, module, function, label, unit, strings)?;
    }
    Ok(())
}
