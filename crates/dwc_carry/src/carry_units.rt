//! The units of the output, from those of a module.
ghost use Rattle.std.specs.Prelude.{◌≡◌, ◌<◌, ◌⊎◌, ℕ, suc, length, All, OnOk};
ghost use Rattle.dwc_native.specs.Addends.{HaveAddends};
ghost use Rattle.dwc_rules.specs.Carried.{Module};
ghost use Rattle.dwc_carried.specs.SimulatedFunctions.{begun_functions, begun_in_module};
ghost use Rattle.dwc_dwarf.specs.Entries.{entries as entries_of};
ghost use Rattle.dwc_dwarf.specs.ReadValues.{IsReadEntry};
ghost use Rattle.dwc_kept.specs.declared.kept_units.KeptModule.{KeptModule as KeptModuleValue};
ghost use Rattle.dwc_kept.specs.ReadUnits.{unit_read};
ghost use Rattle.dwc_image.specs.CarriedLines.{AreKept};
ghost use Rattle.dwc_unit.specs.TextTables.{IsText};
ghost use Rattle.dwc_clone.specs.BegunNumbers.{NotesFunctions};
ghost use Rattle.dwc_source.specs.CompiledModules.{told_by, HasFrames};
ghost use Rattle.dwc_source.specs.KnownTexts.{KnowsTexts};
ghost use Rattle.dwc_carry.specs.LastLines.{IsLast};
ghost use Rattle.dwc_carry.specs.ModulePlaces.{emitted, numbered_lists};
ghost use Rattle.dwc_carry.specs.SyntheticUnits.{ReferToSynthetic};
ghost use Rattle.dwc_carry.specs.CarriedUnits.{IsOfModule, HasModule, IsUnitOf, GivesUnit, GivesUnits};

use crate::begun_unit::{BegunUnit, begun_unit};
use crate::last_lines::{LastLines, last_after};
use crate::module_places::carried_entries;
use crate::output_form::OutputForm;
use crate::{DebugError, ModuleSyntheticUnit};
use dwc_addr::AddressTransform;
use dwc_clone::clone_unit;
use dwc_isa::TargetIsa;
use dwc_kept::{KeptModule, ReadUnit};
use dwc_source::{CloneSource, CompiledModule, KnownTexts, Places};
use dwc_unit::Dwarf;
use std::alloc::Global;
use std::collections::BTreeSet;

// Adds the unit of the output that carries a unit, whose kept entries stand at some offsets, and answers the line table that was
// carried last. `last` is the one before, in a unit of the output. The numbers of the functions that its kept subprograms begin in are added
// to `translated`.
fn carry_unit(
    alloc: Global,
    isa: &dyn TargetIsa,
    read: &ReadUnit<'_>,
    kept: &[u32],
    places: &Places,
    last: Option<LastLines>,
    transform: &AddressTransform<'_>,
    compiled: &CompiledModule<'_>,
    synthetic: &ModuleSyntheticUnit,
    form: OutputForm,
    dwarf: &mut Dwarf,
    known: &mut KnownTexts,
    translated: &mut BTreeSet<usize>,
) -> Result<Option<LastLines>, DebugError>
    requires version { (form.encoding.version ≡ 4) ⊎ (form.encoding.version ≡ 5) }
    requires size { (form.encoding.address_size ≡ 4) ⊎ (form.encoding.address_size ≡ 8) }
    requires functions { AreKept transform.now }
    requires addends { HaveAddends transform.now }
    requires frames { HasFrames compiled.now transform.now }
    requires names { IsText compiled.now.names.resolve_memory.now }
    requires known { IsLast transform.now form.encoding read.now.unit.sections dwarf.old.units.units.items last }
    requires read { All IsReadEntry (entries_of read.now.unit.sections read.now.unit.header).items }
    requires texts { KnowsTexts read.now.unit.sections dwarf.old.strings known.old }
    ensures texts { KnowsTexts read.now.unit.sections dwarf.new.strings known.new }
    ensures noted { (c : Module) (m : KeptModuleValue) (first : ℕ) → IsUnitOf form.encoding.version c transform.now (told_by (dwarf_registers isa.now) compiled.now) m first (length dwarf.old.units.units.items) places.now kept.now read.now → OnOk result (NotesFunctions (begun_functions (record { module_of = c; unit = unit_read c.sections read.now.unit.header })) translated.old translated.new) }
    ensures added { (c : Module) (m : KeptModuleValue) (first : ℕ) → IsUnitOf form.encoding.version c transform.now (told_by (dwarf_registers isa.now) compiled.now) m first (length dwarf.old.units.units.items) places.now kept.now read.now → ReferToSynthetic first c.told.memory synthetic.now.vmctx_ptr synthetic.now.wasm_ptr → GivesUnit form.encoding form.big_endian c first places.now (unit_read c.sections read.now.unit.header) dwarf.old dwarf.new result }
{
    let BegunUnit { unit, files } = begun_unit(
        alloc,
        read,
        last,
        &dwarf.units,
        transform,
        form.encoding,
    )?;
    let source = CloneSource {
        unit: &read.unit,
        transform,
        module: *compiled,
        places,
        vmctx_ptr: synthetic.vmctx_ptr_die_ref(),
        wasm_ptr: synthetic.wasm_ptr_die_ref(),
        files,
        big_endian: form.big_endian,
    };
    let unit = clone_unit(
        alloc,
        isa,
        &source,
        kept,
        unit,
        &mut dwarf.strings,
        known,
        translated,
    )?;
    let id = dwarf.units.add(unit)?;
    Ok(last_after(read, files, id, last))
}

/// Adds the units of the output that carry those of a module, in order, behind its own; those that are not carried have none. A line table that units
/// behind one another name is read and carried once, and so is a text, whichever units name it. The numbers of the functions that their
/// kept subprograms begin in are added to `translated`.
///
/// # Errors
/// What is refused first of the carried units in order: of each its line table, and then its kept entries. `OutOfMemory` for want of
/// memory.
pub(crate) fn carry_units(
    alloc: Global,
    isa: &dyn TargetIsa,
    read_module: &KeptModule<'_>,
    places: &Places,
    transform: &AddressTransform<'_>,
    compiled: &CompiledModule<'_>,
    synthetic: &ModuleSyntheticUnit,
    form: OutputForm,
    dwarf: &mut Dwarf,
    translated: &mut BTreeSet<usize>,
) -> Result<(), DebugError>
    requires version { (form.encoding.version ≡ 4) ⊎ (form.encoding.version ≡ 5) }
    requires size { (form.encoding.address_size ≡ 4) ⊎ (form.encoding.address_size ≡ 8) }
    requires functions { AreKept transform.now }
    requires addends { HaveAddends transform.now }
    requires frames { HasFrames compiled.now transform.now }
    requires names { IsText compiled.now.names.resolve_memory.now }
    requires read { HasModule form.encoding.version transform.now (told_by (dwarf_registers isa.now) compiled.now) read_module.now }
    requires behind { 0 < length dwarf.old.units.units.items }
    requires synthetic { (number : ℕ) → length dwarf.old.units.units.items ≡ suc number → ReferToSynthetic number (told_by (dwarf_registers isa.now) compiled.now).memory synthetic.now.vmctx_ptr synthetic.now.wasm_ptr }
    requires places { places.now ≡ numbered_lists (length dwarf.old.units.units.items) (emitted read_module.now.kept read_module.now.units.items) }
    ensures noted { (c : Module) → IsOfModule form.encoding.version c transform.now (told_by (dwarf_registers isa.now) compiled.now) read_module.now → OnOk result (NotesFunctions (begun_in_module c) translated.old translated.new) }
    ensures added { (c : Module) (synthetic : ℕ) → length dwarf.old.units.units.items ≡ suc synthetic → IsOfModule form.encoding.version c transform.now (told_by (dwarf_registers isa.now) compiled.now) read_module.now → GivesUnits form.encoding form.big_endian c synthetic dwarf.old dwarf.new result }
{
    let mut last = None;
    let mut known = KnownTexts::new(alloc);
    for i in 0..read_module.units.len() {
        let read = &read_module.units[i];
        let kept = carried_entries(read_module, read);
        if kept.len() > 0 {
            last = carry_unit(
                alloc, isa, read, kept, places, last, transform, compiled, synthetic, form, dwarf,
                &mut known, translated,
            )?;
        }
    }
    Ok(())
}
