//! The simulated functions of a module, with their parameters and variables, in the unit for functions without debugging information.
ghost use Rattle.std.specs.Prelude.{◌≡◌, ◌<◌, ◌+◌, ◌++◌, ◌^◌, ℕ, List, Option, Some, length, slice_get, All, IfOk, IsOkUnless, OnOk};
ghost use Rattle.dwc_base.specs.declared.records.Encoding.{Encoding};
ghost use Rattle.dwc_native.specs.Addends.{HaveAddends};
ghost use Rattle.dwc_rules.specs.Carried.{Module};
ghost use Rattle.dwc_carried.specs.DefinedFunctions.{DefinedFunction};
ghost use Rattle.dwc_rules.specs.Drafts.{Draft};
ghost use Rattle.dwc_native.specs.Functions.{Function};
ghost use Rattle.dwc_carried.specs.SimulatedFunctions.{simulated_functions};
ghost use Rattle.dwc_rules.specs.Refusals.{Refusal};
ghost use Rattle.dwc_base.specs.Listing.{first_of};
ghost use Rattle.dwc_carried.specs.SimulatedUnit.{first_source, function_entries, variable_refusals};
ghost use Rattle.dwc_base.specs.TranslationNames.{HasSortedNames, told_file};
ghost use Rattle.dwc_dwarf.specs.Trees.{TreeValue};
ghost use Rattle.dwc_addr.specs.Transforms.{function_view};
ghost use Rattle.dwc_image.specs.CarriedLines.{AreKept};
ghost use Rattle.dwc_unit.specs.GivenLines.{GivenLines};
ghost use Rattle.dwc_unit.specs.GivenUnits.{Addition};
ghost use Rattle.dwc_clone.specs.BegunNumbers.{is_noted};
ghost use Rattle.dwc_source.specs.MadeValues.{Grows};
ghost use Rattle.dwc_carry.specs.declared.error.DebugError.TheVariants.{OutOfMemory};
ghost use Rattle.dwc_carry.specs.SimulatedCode.{HasFirstLine};
ghost use Rattle.dwc_carry.specs.SimulatedModules.{GivesFunction, GivesFunctions, IsSimulatedModule, LeftFunctions, simulated_from};
ghost use Rattle.dwc_carry.specs.SimulatedVariables.{Extends};
ghost use Rattle.dwc_carry.specs.MadeEntries.{IsDense};
ghost use Rattle.dwc_carry.specs.SyntheticUnits.{reference_meant};
ghost use Rattle.dwc_carry.specs.Refusals.{ReadsOr};
ghost use Rattle.dwc_carry.specs.SimulatedDrafts.{BeginsWith, HasFunctions, HasVariables, IsSimulated};

use crate::DebugError;
use crate::local_types::FunctionLocals;
use crate::simulated_entries::add_subprogram;
use crate::simulated_names::function_name;
use crate::simulated_texts::add_text;
use crate::simulated_variables::{SimulatedFunction, add_variables};
use dwc_addr::{AddressTransform, FunctionMap};
use dwc_base::ModuleTranslation;
use dwc_extents::source_end;
use dwc_isa::TargetIsa;
use dwc_source::CompiledModule;
use dwc_unit::{DebugInfoRef, StringTable, Unit, UnitEntryId};
use std::alloc::Global;
use std::collections::BTreeSet;

/// A module whose functions are simulated.
#[derive(Clone, Copy)]
pub(crate) struct SimulatedModule<'a> {
    pub translation: &'a ModuleTranslation<'a>,
    pub transform: &'a AddressTransform<'a>,
    pub compiled: &'a CompiledModule<'a>,
    /// The type of a pointer to the module's context.
    pub vmctx_ptr: DebugInfoRef,
}

// The offset in the code section that a function's code comes from: its first recorded source, else its start.
fn first_source(function: &FunctionMap<'_>) -> u64
    ensures { result ≡ first_source (function_view function.now) }
{
    match function.addresses.get(0) {
        Some(entry) => u64::from(entry.wasm),
        None => function.wasm_start,
    }
}

// Adds the entry of the function at a place, which has a symbol of a number.
fn begin_function(
    alloc: Global,
    translation: &ModuleTranslation<'_>,
    place: usize,
    function: &FunctionMap<'_>,
    number: usize,
    unit: &mut Unit,
    strings: &mut StringTable,
) -> Result<(u64, UnitEntryId), DebugError>
    requires place { place < 2 ^ 32 }
    requires line { HasFirstLine translation.now.code_section_offset (function_view function.now) }
    requires sorted { HasSortedNames translation.now }
    requires dense { IsDense unit.old }
    requires some { 0 < length unit.old.additions }
    ensures grows { Grows strings.old strings.new }
    ensures extends { OnOk result (Extends unit.old unit.new) }
    ensures index { IfOk result (λ r. r.0 ≡ translation.now.imported_funcs + place) }
    ensures entry { IfOk result (λ r. (r.1).index < length unit.new.additions) }
    ensures memory { IsOkUnless result OutOfMemory }
    ensures begun { (n : ℕ) (pointer : TreeValue) (m : Module) (d : DefinedFunction) (before : List Draft) → m.file ≡ told_file translation.now → d ≡ record { place = place; function = function_view function.now } → d.function.number ≡ number → IsSimulated n strings.old before unit.old → IfOk result (λ r. HasVariables n pointer m d strings.new before (m.told.labels d.function.number) (r.1).index unit.new) }
{
    let index = u64::from(translation.imported_funcs) + place as u64;
    let line = translation.code_section_offset + first_source(function);
    let name = function_name(alloc, translation, index)?;
    let name = add_text(strings, &name)?;
    let entry = add_subprogram(unit, name, number, function.len as u64, line)?;
    Ok((index, entry))
}

// Adds the function at a place, which has a symbol of a number, with its parameters and variables.
fn add_function(
    alloc: Global,
    isa: &dyn TargetIsa,
    module: &SimulatedModule<'_>,
    place: usize,
    number: usize,
    unit: &mut Unit,
    strings: &mut StringTable,
) -> Result<(), DebugError>
    requires inside { place < length «module».now.transform.now }
    requires addends { HaveAddends «module».now.transform.now }
    requires few { length «module».now.transform.now < 2 ^ 32 }
    requires lines { All (HasFirstLine «module».now.translation.now.code_section_offset) «module».now.transform.now }
    requires sorted { HasSortedNames «module».now.translation.now }
    requires dense { IsDense unit.old }
    requires some { 0 < length unit.old.additions }
    ensures grows { Grows strings.old strings.new }
    ensures extends { OnOk result (Extends unit.old unit.new) }
    ensures functions { (m : Module) (n : ℕ) (f : Function) (before : List Draft) → IsSimulatedModule (dwarf_registers isa.now) m «module».now → slice_get m.functions place ≡ Some f → f.symbol ≡ Some number → IsSimulated n strings.old before unit.old → ReadsOr (λ done. IsSimulated n strings.new (before ++ function_entries n (reference_meant «module».now.vmctx_ptr) m (record { place = place; function = f })) unit.new) (first_of (variable_refusals m (record { place = place; function = f }))) result }
{
    let function = &module.transform.map()[place];
    let (index, entry) = begin_function(
        alloc,
        module.translation,
        place,
        function,
        number,
        unit,
        strings,
    )?;
    match module.compiled.frame(number) {
        Some(frame) => {
            let locals = FunctionLocals::new(alloc, module.translation, place)?;
            let simulated = SimulatedFunction {
                index,
                scope: (function.wasm_start, source_end(function)),
                locals: &locals,
                frame,
                entry,
            };
            add_variables(alloc, isa, module, &simulated, unit, strings)
        }
        None => Ok(()),
    }
}

// Adds the function at a place, if it is simulated.
fn add_if_simulated(
    alloc: Global,
    isa: &dyn TargetIsa,
    module: &SimulatedModule<'_>,
    place: usize,
    translated: &BTreeSet<usize>,
    unit: &mut Unit,
    strings: &mut StringTable,
) -> Result<(), DebugError>
    requires inside { place < length «module».now.transform.now }
    requires addends { HaveAddends «module».now.transform.now }
    requires few { length «module».now.transform.now < 2 ^ 32 }
    requires lines { All (HasFirstLine «module».now.translation.now.code_section_offset) «module».now.transform.now }
    requires sorted { HasSortedNames «module».now.translation.now }
    requires dense { IsDense unit.old }
    requires some { 0 < length unit.old.additions }
    ensures grows { Grows strings.old strings.new }
    ensures extends { OnOk result (Extends unit.old unit.new) }
    ensures functions { (m : Module) (number : ℕ) (behind whole : List Draft) (total : Option Refusal) → IsSimulatedModule (dwarf_registers isa.now) m «module».now → LeftFunctions number (reference_meant «module».now.vmctx_ptr) m behind whole (simulated_from (is_noted translated.now) m place) total strings.old unit.old → GivesFunction number (reference_meant «module».now.vmctx_ptr) m behind whole (simulated_from (is_noted translated.now) m (place + 1)) total strings.new unit.new result }
{
    let function = &module.transform.map()[place];
    match function.symbol {
        Some(number) => {
            if translated.contains(&number) {
                return Ok(());
            }
            add_function(alloc, isa, module, place, number, unit, strings)
        }
        None => Ok(()),
    }
}

/// Adds the functions of a module, in order, that have a symbol and whose numbers are not among `translated`, each with its parameters and
/// variables by rising labels.
///
/// # Errors
/// What is refused first of their variables: `BadLabelRange` and `UnmappedRegister`. `OutOfMemory` for want of memory.
pub(crate) fn add_functions(
    alloc: Global,
    isa: &dyn TargetIsa,
    module: &SimulatedModule<'_>,
    translated: &BTreeSet<usize>,
    unit: &mut Unit,
    strings: &mut StringTable,
) -> Result<(), DebugError>
    requires functions { AreKept «module».now.transform.now }
    requires addends { HaveAddends «module».now.transform.now }
    requires few { length «module».now.transform.now < 2 ^ 32 }
    requires lines { All (HasFirstLine «module».now.translation.now.code_section_offset) «module».now.transform.now }
    requires sorted { HasSortedNames «module».now.translation.now }
    requires dense { IsDense unit.old }
    requires some { 0 < length unit.old.additions }
    ensures grows { Grows strings.old strings.new }
    ensures dense { OnOk result (IsDense unit.new) }
    ensures some { OnOk result (0 < length unit.new.additions) }
    ensures begins { (encoding : Encoding) (lines : GivenLines) (root : Addition) → BeginsWith encoding lines root unit.old → OnOk result (BeginsWith encoding lines root unit.new) }
    ensures functions { (m : Module) (number : ℕ) (behind whole : List Draft) → IsSimulatedModule (dwarf_registers isa.now) m «module».now → HasFunctions number (reference_meant «module».now.vmctx_ptr) m strings.old behind whole (simulated_functions (is_noted translated.now) m) unit.old → GivesFunctions (is_noted translated.now) number (reference_meant «module».now.vmctx_ptr) m behind whole strings.new unit.new result }
{
    for place in 0..module.transform.map().len() {
        add_if_simulated(alloc, isa, module, place, translated, unit, strings)?;
    }
    Ok(())
}
