//! The units of the output, from the modules of an input.
ghost use Rattle.std.specs.Prelude.{◌≡◌, ◌⊎◌, ◌<◌, ℕ, suc, length, All, OnOk};
ghost use Rattle.dwc_base.specs.declared.section_name.SectionName.TheVariants.{Info};
ghost use Rattle.dwc_native.specs.Addends.{HaveAddends};
ghost use Rattle.dwc_carried.specs.SimulatedFunctions.{begun_in_module};
ghost use Rattle.dwc_base.specs.Translations.{translation_sections};
ghost use Rattle.dwc_image.specs.CarriedLines.{AreKept};
ghost use Rattle.dwc_unit.specs.TextTables.{IsText};
ghost use Rattle.dwc_clone.specs.BegunNumbers.{NotesFunctions};
ghost use Rattle.dwc_source.specs.CompiledModules.{told_by, HasFrames};
ghost use Rattle.dwc_carry.specs.CarriedModules.{transformed_module, GivesCarried, GivesModules};
ghost use Rattle.dwc_carry.specs.SyntheticUnits.{ReferToSynthetic};
ghost use Rattle.dwc_carry.specs.Inputs.{functions_from, modules_of};

use crate::carry_units::carry_units;
use crate::compiled_module::compiled_module;
use crate::module_places::module_places;
use crate::output_form::OutputForm;
use crate::{DebugError, ModuleSyntheticUnit};
use dwc_addr::{AddressTransform, Compilation};
use dwc_base::{Kind, ModuleTranslation, SectionName, StaticModuleIndex};
use dwc_isa::TargetIsa;
use dwc_kept::kept_module;
use dwc_read::Sections;
use dwc_source::CompiledModule;
use dwc_unit::{DebugInfoRef, Dwarf};
use std::alloc::Global;
use std::collections::BTreeSet;
use std::vec::Vec;

// The sections of a module, whose `.debug_info` is bytes.
fn sections_of<'d>(translation: &ModuleTranslation<'d>) -> Sections<'d>
    ensures sections { result ≡ translation_sections translation.now }
    ensures bytes { All (λ b. b < 256) ((translation_sections translation.now).bytes Info) }
{
    let sections = Sections::of_module(translation);
    let _ = sections.bytes(SectionName::Info);
    sections
}

// Adds the units of the output that carry those of a module, behind its own: its entries are read once to find those that are kept, and
// once more, unit by unit, to be cloned. The numbers of the functions that its kept subprograms begin in are added to `translated`.
fn carry_module(
    alloc: Global,
    isa: &dyn TargetIsa,
    translation: &ModuleTranslation<'_>,
    transform: &AddressTransform<'_>,
    compiled: &CompiledModule<'_>,
    synthetic: &ModuleSyntheticUnit,
    form: OutputForm,
    dwarf: &mut Dwarf,
    translated: &mut BTreeSet<usize>,
) -> Result<(), DebugError>
    requires version { (form.encoding.version ≡ 4) ⊎ (form.encoding.version ≡ 5) }
    requires size { (form.encoding.address_size ≡ 4) ⊎ (form.encoding.address_size ≡ 8) }
    requires functions { AreKept transform.now }
    requires addends { HaveAddends transform.now }
    requires frames { HasFrames compiled.now transform.now }
    requires names { IsText compiled.now.names.resolve_memory.now }
    requires behind { 0 < length dwarf.old.units.units.items }
    requires synthetic { (number : ℕ) → length dwarf.old.units.units.items ≡ suc number → ReferToSynthetic number (told_by (dwarf_registers isa.now) compiled.now).memory synthetic.now.vmctx_ptr synthetic.now.wasm_ptr }
    ensures noted { OnOk result (NotesFunctions (begun_in_module (transformed_module form.encoding.version translation.now transform.now (told_by (dwarf_registers isa.now) compiled.now))) translated.old translated.new) }
    ensures added { (synthetic : ℕ) → length dwarf.old.units.units.items ≡ suc synthetic → GivesCarried form.encoding form.big_endian (transformed_module form.encoding.version translation.now transform.now (told_by (dwarf_registers isa.now) compiled.now)) synthetic dwarf.old dwarf.new result }
{
    if let Some(offset) = translation.compressed {
        return Err(DebugError::Unsupported {
            what: Kind::Compressed,
            offset,
        });
    }
    let module = kept_module(alloc, sections_of(translation), transform)?;
    let places = module_places(alloc, &module, dwarf.units.len())?;
    carry_units(
        alloc, isa, &module, &places, transform, compiled, synthetic, form, dwarf, translated,
    )
}

/// What the units of modules tell to the unit behind them.
#[derive(Drop)]
pub(crate) struct CarriedModules {
    /// The numbers of the functions that kept subprograms of carried units begin in.
    pub translated: BTreeSet<usize>,
    /// The type of a pointer to the context of each module.
    pub vmctx_ptrs: Vec<DebugInfoRef>,
}

/// Adds the units of the output that are made for the modules of a compilation, in order, each module with its transform: of each its
/// own, and those that carry its units. It answers what they tell to the unit behind them.
///
/// # Errors
/// The first refusal of a module, in order. `OutOfMemory` for want of memory.
pub(crate) fn carry_modules(
    alloc: Global,
    isa: &dyn TargetIsa,
    compilation: &Compilation<'_>,
    transforms: &[AddressTransform<'_>],
    form: OutputForm,
    dwarf: &mut Dwarf,
) -> Result<CarriedModules, DebugError>
    requires version { (form.encoding.version ≡ 4) ⊎ (form.encoding.version ≡ 5) }
    requires size { (form.encoding.address_size ≡ 4) ⊎ (form.encoding.address_size ≡ 8) }
    requires asked { form.encoding.version ≡ compilation.now.tunables.dwarf_version }
    requires transforms { transforms.now ≡ functions_from compilation.now.tunables.output_for 0 compilation.now.translations compilation.now.functions }
    requires functions { All AreKept transforms.now }
    requires addends { All HaveAddends transforms.now }
    ensures { GivesModules form.encoding form.big_endian (modules_of (dwarf_registers isa.now) compilation.now) dwarf.old dwarf.new result }
{
    let translations = compilation.translations();
    let mut translated = BTreeSet::new(alloc);
    let mut vmctx_ptrs = Vec::new(alloc);
    for i in 0..translations.len() {
        let module = StaticModuleIndex(i as u32);
        let compiled = compiled_module(compilation, module);
        let translation = &translations[i];
        let transform = &transforms[i];
        let synthetic = ModuleSyntheticUnit::new(
            alloc,
            module,
            compilation,
            form.encoding,
            &mut dwarf.units,
            &mut dwarf.strings,
        )?;
        carry_module(
            alloc,
            isa,
            translation,
            transform,
            &compiled,
            &synthetic,
            form,
            dwarf,
            &mut translated,
        )?;
        vmctx_ptrs.push(synthetic.vmctx_ptr_die_ref())?;
    }
    Ok(CarriedModules {
        translated,
        vmctx_ptrs,
    })
}
