//! The unit for functions without debugging information, behind those of all modules.
ghost use Rattle.std.specs.Prelude.{◌≡◌, ◌<◌, ◌⊎◌, map, None, true, length, All, IfErr, IfOk, IsOkUnless, OnErr, OnOk};
ghost use Rattle.dwc_native.specs.Addends.{HaveAddends};
ghost use Rattle.dwc_rules.specs.Carried.{Module};
ghost use Rattle.dwc_base.specs.TranslationNames.{told_file};
ghost use Rattle.dwc_carried.specs.UnitPaths.{is_file_name, path_name};
ghost use Rattle.dwc_isa.specs.Registers.{Registers};
ghost use Rattle.dwc_image.specs.CarriedLines.{AreKept};
ghost use Rattle.dwc_image.specs.SimulatedSequences.{simulated_view};
ghost use Rattle.dwc_unit.specs.TextTables.{IsText};
ghost use Rattle.dwc_section.specs.declared.error.WriteError.TheVariants.{OutOfMemory};
ghost use Rattle.dwc_clone.specs.BegunNumbers.{is_noted};
ghost use Rattle.dwc_source.specs.MadeValues.{Grows};
ghost use Rattle.dwc_carry.specs.Inputs.{bad_map, counted_behind, functions_from, modules_of};
ghost use Rattle.dwc_carry.specs.SimulatedUnits.{GivesSimulatedUnit, GivesUnit, IsPathOf, IsTyped, counted_name};
ghost use Rattle.dwc_carry.specs.SimulatedCode.{CanWrite};
ghost use Rattle.dwc_carry.specs.Refusals.{memory, told};
ghost use Rattle.dwc_carry.specs.UnitPathParts.{IsUnitPath};

use crate::DebugError;
use crate::simulated_code::{simulated_functions, whole_ranges};
use crate::simulated_entries::add_types;
use crate::simulated_modules::add_modules;
use crate::simulated_root::root_unit;
use crate::simulated_texts::{root_texts, type_texts};
use crate::unit_path::{UnitPath, is_file_name, path_name, unit_path};
use dwc_addr::{AddressTransform, Compilation, FunctionMap};
use dwc_base::{Encoding, ModuleTranslation, OutputFor};
use dwc_image::simulated_lines;
use dwc_isa::TargetIsa;
use dwc_section::WriteError;
use dwc_unit::{DebugInfoRef, StringTable, Unit, UnitTable};
use std::alloc::{AllocError, Global};
use std::collections::BTreeSet;

// The unit of a path with its root and the types of numbers, for some simulated functions.
fn typed_unit(
    alloc: Global,
    output_for: OutputFor,
    encoding: Encoding,
    path: &[u8],
    functions: &[(u64, &FunctionMap<'_>)],
    strings: &mut StringTable,
) -> Result<Unit, WriteError>
    requires version { (encoding.version ≡ 4) ⊎ (encoding.version ≡ 5) }
    requires size { (encoding.address_size ≡ 4) ⊎ (encoding.address_size ≡ 8) }
    requires path { IsText path.now }
    requires name { is_file_name (path_name path.now) ≡ true }
    requires functions { All CanWrite (map simulated_view functions.now) }
    ensures grows { Grows strings.old strings.new }
    ensures typed { IfOk result (IsTyped output_for encoding path.now (map simulated_view functions.now) strings.new) }
    ensures memory { IsOkUnless result OutOfMemory }
{
    let ranges = whole_ranges(alloc, functions)?;
    let lines = simulated_lines(alloc, encoding, path_name(path), functions)?;
    let texts = root_texts(strings, path)?;
    let types = type_texts(strings)?;
    let mut unit = root_unit(alloc, output_for, encoding, lines, &texts, ranges)?;
    add_types(&mut unit, &types)?;
    Ok(unit)
}

// The unit of a path for the simulated functions of all modules.
fn simulated_unit(
    alloc: Global,
    isa: &dyn TargetIsa,
    compilation: &Compilation<'_>,
    transforms: &[AddressTransform<'_>],
    translated: &BTreeSet<usize>,
    vmctx_ptrs: &[DebugInfoRef],
    encoding: Encoding,
    path: &[u8],
    strings: &mut StringTable,
) -> Result<Unit, DebugError>
    requires version { (encoding.version ≡ 4) ⊎ (encoding.version ≡ 5) }
    requires size { (encoding.address_size ≡ 4) ⊎ (encoding.address_size ≡ 8) }
    requires transforms { transforms.now ≡ functions_from compilation.now.tunables.output_for 0 compilation.now.translations compilation.now.functions }
    requires maps { bad_map compilation.now ≡ None }
    requires functions { All AreKept transforms.now }
    requires addends { All HaveAddends transforms.now }
    requires contexts { length vmctx_ptrs.now ≡ length compilation.now.translations }
    requires some { 0 < length compilation.now.translations }
    requires path { IsText path.now }
    requires name { is_file_name (path_name path.now) ≡ true }
    ensures grows { Grows strings.old strings.new }
    ensures unit { GivesUnit (is_noted translated.now) encoding path.now (modules_of (dwarf_registers isa.now) compilation.now) vmctx_ptrs.now strings.old strings.new result }
{
    let functions = simulated_functions(alloc, compilation, transforms, translated)?;
    let output_for = compilation.tunables().output_for;
    let mut unit = typed_unit(alloc, output_for, encoding, path, &functions, strings)?;
    add_modules(
        alloc,
        isa,
        compilation,
        transforms,
        translated,
        vmctx_ptrs,
        &mut unit,
        strings,
    )?;
    Ok(unit)
}

// The path of the unit of a module, which has no zero byte.
fn plain_path(
    alloc: Global,
    translation: &ModuleTranslation<'_>,
    next_id: u64,
) -> Result<UnitPath, AllocError>
    ensures path { IfOk result (IsUnitPath translation.now next_id) }
    ensures plain { (m : Module) → m.file ≡ told_file translation.now → IfOk result (λ u. IsText u.path.items) }
{
    unit_path(alloc, translation, next_id)
}

// Counts a name that is generated.
fn count_name(compilation: &mut Compilation<'_>, is_generated: bool)
    ensures { compilation.new ≡ counted_name is_generated compilation.old }
{
    if is_generated {
        compilation.take_id();
    }
}

// The path of the unit of a compilation that has a module; the counter of names rises where it is made of that.
fn taken_path(alloc: Global, compilation: &mut Compilation<'_>) -> Result<Vec<u8>, AllocError>
    requires { 0 < length compilation.old.translations }
    ensures path { IfOk result (λ path. IsPathOf compilation.old path.items) }
    ensures counter { (registers : Registers) → OnOk result (compilation.new ≡ counted_behind registers compilation.old) }
    ensures unchanged { OnErr result (compilation.new ≡ compilation.old) }
{
    let translations = compilation.translations();
    let path = plain_path(alloc, &translations[0], compilation.next_id())?;
    count_name(compilation, path.is_generated);
    Ok(path.path)
}

/// Adds the unit for functions without debugging information of all modules of a compilation, behind the units that are there: of version
/// 4, with a path, a line table whose lines are offsets in the wasm files, the types of numbers, and an entry for each function with a
/// symbol whose number is not among `translated`, with its parameters and variables. The path is that of the first module; without modules
/// nothing is added. `addr_tr` are the transforms of the modules, and `vmctx_ptr_die_refs` the types of pointers to their contexts: any
/// references, one for each module, in order. `translated` are the numbers of functions that have entries already, as those that kept
/// subprograms of carried units begin in.
///
/// # Errors
/// `Path` exactly where the name that the path ends with is empty, `.` or `..`. Where it is not: `BadLabelRange` and `UnmappedRegister`
/// for the first variable that is refused. `OutOfMemory` for want of memory. The units are then as before, and the texts may have more
/// behind them. The counter of names has risen where the path is made of it, but for want of memory, where it may have.
pub fn generate_simulated_dwarf(
    alloc: Global,
    compilation: &mut Compilation<'_>,
    addr_tr: &[AddressTransform<'_>],
    translated: &BTreeSet<usize>,
    out_encoding: Encoding,
    vmctx_ptr_die_refs: &[DebugInfoRef],
    out_units: &mut UnitTable,
    out_strings: &mut StringTable,
    isa: &dyn TargetIsa,
) -> Result<(), DebugError>
    requires version { (out_encoding.version ≡ 4) ⊎ (out_encoding.version ≡ 5) }
    requires size { (out_encoding.address_size ≡ 4) ⊎ (out_encoding.address_size ≡ 8) }
    requires transforms { addr_tr.now ≡ functions_from compilation.old.tunables.output_for 0 compilation.old.translations compilation.old.functions }
    requires maps { bad_map compilation.old ≡ None }
    requires functions { All AreKept addr_tr.now }
    requires addends { All HaveAddends addr_tr.now }
    requires contexts { length vmctx_ptr_die_refs.now ≡ length compilation.old.translations }
    ensures added { GivesSimulatedUnit (is_noted translated.now) out_encoding compilation.old.next_id (modules_of (dwarf_registers isa.now) compilation.old) vmctx_ptr_die_refs.now out_units.old.units.items out_units.new.units.items out_strings.old out_strings.new result }
    ensures units { OnErr result (out_units.new.units.items ≡ out_units.old.units.items) }
    ensures texts { Grows out_strings.old out_strings.new }
    ensures counter { OnOk result (compilation.new ≡ counted_behind (dwarf_registers isa.now) compilation.old) }
    ensures refused { IfErr result (λ e. (compilation.new ≡ compilation.old) ⊎ (compilation.new ≡ counted_behind (dwarf_registers isa.now) compilation.old)) }
    ensures counted { IfErr result (λ e. (told e ≡ memory) ⊎ (compilation.new ≡ counted_behind (dwarf_registers isa.now) compilation.old)) }
{
    if compilation.translations().is_empty() {
        return Ok(());
    }
    let path = taken_path(alloc, compilation)?;
    if !is_file_name(path_name(&path)) {
        return Err(DebugError::Path);
    }
    let unit = simulated_unit(
        alloc,
        isa,
        compilation,
        addr_tr,
        translated,
        vmctx_ptr_die_refs,
        out_encoding,
        &path,
        out_strings,
    )?;
    out_units.add(unit)?;
    Ok(())
}
