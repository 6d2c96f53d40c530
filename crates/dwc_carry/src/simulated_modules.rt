//! The entries of the simulated functions of all modules, in the unit for functions without debugging information.
ghost use Rattle.std.specs.Prelude.{◌≡◌, ◌<◌, ◌^◌, ℕ, List, None, length, map, All, OnOk};
ghost use Rattle.dwc_base.specs.declared.records.Encoding.{Encoding};
ghost use Rattle.dwc_native.specs.Addends.{HaveAddends};
ghost use Rattle.dwc_rules.specs.Drafts.{Draft};
ghost use Rattle.dwc_base.specs.TranslationNames.{HasSortedNames};
ghost use Rattle.dwc_image.specs.CarriedLines.{AreKept};
ghost use Rattle.dwc_unit.specs.GivenLines.{GivenLines};
ghost use Rattle.dwc_unit.specs.GivenUnits.{Addition};
ghost use Rattle.dwc_clone.specs.BegunNumbers.{is_noted};
ghost use Rattle.dwc_source.specs.MadeValues.{Grows};
ghost use Rattle.dwc_carry.specs.Inputs.{bad_map, functions_from, modules_of};
ghost use Rattle.dwc_carry.specs.SimulatedUnits.{GivesEntries};
ghost use Rattle.dwc_carry.specs.SimulatedCode.{HasFirstLine, HasLowEnd};
ghost use Rattle.dwc_carry.specs.SimulatedParts.{AddsModule};
ghost use Rattle.dwc_carry.specs.MadeEntries.{IsDense};
ghost use Rattle.dwc_carry.specs.SyntheticUnits.{reference_meant};
ghost use Rattle.dwc_carry.specs.SimulatedDrafts.{BeginsWith, HasModules};

use crate::DebugError;
use crate::compiled_module::compiled_module;
use crate::simulated_functions::{SimulatedModule, add_functions};
use dwc_addr::{AddressTransform, Compilation};
use dwc_base::{ModuleTranslation, StaticModuleIndex};
use dwc_isa::TargetIsa;
use dwc_source::CompiledModule;
use dwc_unit::{DebugInfoRef, StringTable, Unit};
use std::alloc::Global;
use std::collections::BTreeSet;

// Adds the simulated functions of a module, with their parameters and variables.
fn add_module(
    alloc: Global,
    isa: &dyn TargetIsa,
    translation: &ModuleTranslation<'_>,
    transform: &AddressTransform<'_>,
    compiled: &CompiledModule<'_>,
    vmctx_ptr: &DebugInfoRef,
    translated: &BTreeSet<usize>,
    unit: &mut Unit,
    strings: &mut StringTable,
) -> Result<(), DebugError>
    requires functions { AreKept transform.now }
    requires addends { HaveAddends transform.now }
    requires few { length transform.now < 2 ^ 32 }
    requires lines { All (HasFirstLine translation.now.code_section_offset) transform.now }
    requires sorted { HasSortedNames translation.now }
    requires dense { IsDense unit.old }
    requires some { 0 < length unit.old.additions }
    ensures grows { Grows strings.old strings.new }
    ensures dense { OnOk result (IsDense unit.new) }
    ensures some { OnOk result (0 < length unit.new.additions) }
    ensures begins { (encoding : Encoding) (lines : GivenLines) (root : Addition) → BeginsWith encoding lines root unit.old → OnOk result (BeginsWith encoding lines root unit.new) }
    ensures functions { AddsModule (dwarf_registers isa.now) (is_noted translated.now) translation.now transform.now compiled.now vmctx_ptr.now strings.old strings.new unit.old unit.new result }
{
    let module = SimulatedModule {
        translation: &*translation,
        transform: &*transform,
        compiled: &*compiled,
        vmctx_ptr: *vmctx_ptr,
    };
    add_functions(alloc, isa, &module, &*translated, unit, strings)
}

/// Adds the simulated functions of all modules to a unit that has its root and the types of numbers, with their parameters and variables.
/// `vmctx_ptrs` are the types of pointers to the contexts of the modules, one for each.
///
/// # Errors
/// What is refused first of their variables: `BadLabelRange` and `UnmappedRegister`. `OutOfMemory` for want of memory.
pub(crate) fn add_modules(
    alloc: Global,
    isa: &dyn TargetIsa,
    compilation: &Compilation<'_>,
    transforms: &[AddressTransform<'_>],
    translated: &BTreeSet<usize>,
    vmctx_ptrs: &[DebugInfoRef],
    unit: &mut Unit,
    strings: &mut StringTable,
) -> Result<(), DebugError>
    requires transforms { transforms.now ≡ functions_from compilation.now.tunables.output_for 0 compilation.now.translations compilation.now.functions }
    requires maps { bad_map compilation.now ≡ None }
    requires low { All (All HasLowEnd) compilation.now.functions }
    requires functions { All AreKept transforms.now }
    requires addends { All HaveAddends transforms.now }
    requires contexts { length vmctx_ptrs.now ≡ length compilation.now.translations }
    requires dense { IsDense unit.old }
    requires some { 0 < length unit.old.additions }
    ensures grows { Grows strings.old strings.new }
    ensures begins { (encoding : Encoding) (lines : GivenLines) (root : Addition) → BeginsWith encoding lines root unit.old → OnOk result (BeginsWith encoding lines root unit.new) }
    ensures entries { (number : ℕ) (whole : List Draft) → HasModules (is_noted translated.now) number (map reference_meant vmctx_ptrs.now) strings.old whole (modules_of (dwarf_registers isa.now) compilation.now) unit.old → GivesEntries (is_noted translated.now) number whole (modules_of (dwarf_registers isa.now) compilation.now) strings.new unit.new result }
{
    let translations = compilation.translations();
    for i in 0..translations.len() {
        let compiled = compiled_module(compilation, StaticModuleIndex(i as u32));
        add_module(
            alloc,
            isa,
            &translations[i],
            &transforms[i],
            &compiled,
            &vmctx_ptrs[i],
            translated,
            unit,
            strings,
        )?;
    }
    Ok(())
}
