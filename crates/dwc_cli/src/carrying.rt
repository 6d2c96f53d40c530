//! The DWARF for the functions of a map, before it is written.
ghost use Rattle.std.specs.Prelude.{◌≡◌, ◌⊎◌, true, map, length, option_map, if◌then◌else◌, IfOk, All, string_bytes};
ghost use Rattle.dwc_base.specs.declared.records.Endian.TheVariants.{Little, Big};
ghost use Rattle.dwc_native.specs.CallFrames.{is_sound_if};
ghost use Rattle.dwc_base.specs.TranslationNames.{HasSortedNames};
ghost use Rattle.dwc_isa.specs.CallFrames.{cie_view};
ghost use Rattle.dwc_isa.specs.Registers.{registers_of};
ghost use Rattle.dwc_addr.specs.Compilations.{lists, IsCounted};
ghost use Rattle.dwc_isa.specs.ToldModules.{AreNames};
ghost use Rattle.dwc_carry.specs.Emits as carrying;
ghost use Rattle.dwc_carry.specs.Emits.{IsReady};
ghost use Rattle.dwc_cli.specs.Inputs.{Loaded};
ghost use Rattle.dwc_map.specs.MapFile.{IsMapFor};
ghost use Rattle.dwc_map.specs.MapViews.{path_view, map_file_view, linkage_names};
ghost use Rattle.dwc_cli.specs.ToldPaths.{HavePaths};
ghost use Rattle.dwc_cli.specs.Answers.{IsReadAs, Carries};
ghost use Rattle.dwc_cli.specs.Compiled.{IsCompiled};

use crate::failure::Failure;
use dwc_addr::{Compilation, LinkageNames};
use dwc_base::{Endian, ModuleTranslation, OutputFor, SymbolId, Tunables};
use dwc_carry::{CarriedDwarf, DebugError, carry_dwarf};
use dwc_compiled::CompiledFunctionMetadata;
use dwc_isa::{ModuleMemoryOffset, TableIsa};
use dwc_map::{MapFile, MapModule, Names, Target};
use std::alloc::{AllocError, Global};

// How code is generated and laid out, as far as a map does not tell it, the version of DWARF that is written, and whom it is written for.
fn tunables(version: u16, output_for: OutputFor) -> Tunables
    ensures version { result.dwarf_version ≡ version }
    ensures output { result.output_for ≡ output_for }
{
    Tunables {
        debug_symbols: true,
        page_align: 4096,
        internal_traps: false,
        dwarf_version: version,
        output_for,
    }
}

// The DWARF that the one of some modules carries over to, for the functions of a map of these modules. Nothing of the map and of the
// translations is held behind it.
pub(crate) fn carry(
    alloc: Global,
    map_file: MapFile,
    translations: Vec<ModuleTranslation<'_>>,
) -> Result<CarriedDwarf, Failure<'static>>
    requires fits { IsMapFor (map (λ t. t.defined_funcs) translations.items) (map_file_view map_file) }
    requires sorted { All HasSortedNames translations.items }
    ensures carried { (read : Loaded) → IsReadAs translations.entry.items map_file read → Carries read result }
    ensures ready { IfOk result IsReady }
{
    let MapFile {
        target,
        names,
        modules,
        next_id,
    } = map_file;
    let ModuleParts {
        functions,
        memory_offsets,
        paths,
    } = parts_of(alloc, modules)?;
    let translations = with_paths(translations, &paths);
    carry_at(
        alloc,
        target,
        &translations,
        &functions,
        &names,
        memory_offsets,
        u64::from(next_id),
    )
}

// The DWARF of modules for a target, for the functions that are compiled from them.
fn carry_at(
    alloc: Global,
    target: Target,
    translations: &[ModuleTranslation<'_>],
    functions: &[Vec<(Option<SymbolId>, CompiledFunctionMetadata)>],
    names: &Names,
    memory_offsets: Vec<ModuleMemoryOffset>,
    next_id: u64,
) -> Result<CarriedDwarf, Failure<'static>>
    requires version { (target.version ≡ 4) ⊎ (target.version ≡ 5) }
    requires size { (target.pointer_bytes ≡ 4) ⊎ (target.pointer_bytes ≡ 8) }
    requires sound { is_sound_if (option_map cie_view target.cie) ≡ true }
    requires counted { IsCounted translations.now (lists functions.now) memory_offsets.items }
    requires names { AreNames (string_bytes names.now.set) (string_bytes names.now.resolve) }
    requires sorted { All HasSortedNames translations.now }
    ensures carried { (read : Loaded) → IsCompiled target.output_for target.version (if target.big_endian then Big else Little) target.pointer_bytes (registers_of target.registers.items) (option_map cie_view target.cie) (linkage_names names.now) translations.now (lists functions.now) memory_offsets.items next_id read → Carries read result }
    ensures ready { IfOk result IsReady }
{
    let tunables = tunables(target.version, target.output_for);
    let isa = table_of(alloc, target)?;
    compiled(
        alloc,
        &isa,
        &tunables,
        translations,
        functions,
        names,
        memory_offsets,
        next_id,
    )
}

// The DWARF of modules, for the functions that are compiled from them.
fn compiled<'a>(
    alloc: Global,
    isa: &TableIsa,
    tunables: &'a Tunables,
    translations: &'a [ModuleTranslation<'a>],
    functions: &'a [Vec<(Option<SymbolId>, CompiledFunctionMetadata)>],
    names: &'a Names,
    memory_offsets: Vec<ModuleMemoryOffset>,
    next_id: u64,
) -> Result<CarriedDwarf, Failure<'static>>
    requires version { (tunables.now.dwarf_version ≡ 4) ⊎ (tunables.now.dwarf_version ≡ 5) }
    requires counted { IsCounted translations.now (lists functions.now) memory_offsets.items }
    requires names { AreNames (string_bytes names.now.set) (string_bytes names.now.resolve) }
    requires sorted { All HasSortedNames translations.now }
    ensures carried { (read : Loaded) → IsCompiled tunables.now.output_for tunables.now.dwarf_version isa.now.order isa.now.pointer_bytes isa.now.registers isa.now.common_entry (linkage_names names.now) translations.now (lists functions.now) memory_offsets.items next_id read → Carries read result }
    ensures ready { IfOk result IsReady }
{
    let names = LinkageNames {
        set_memory: &names.set,
        resolve_memory: &names.resolve,
    };
    let mut compilation = Compilation::new(
        alloc,
        isa,
        translations,
        functions,
        None,
        tunables,
        memory_offsets,
        names,
        next_id,
    )?;
    Ok(carry_for(alloc, isa, &mut compilation)?)
}

// The DWARF of a compilation, for a target that is given by tables.
fn carry_for(
    alloc: Global,
    isa: &TableIsa,
    compilation: &mut Compilation<'_>,
) -> Result<CarriedDwarf, DebugError>
    requires version { (compilation.old.tunables.dwarf_version ≡ 4) ⊎ (compilation.old.tunables.dwarf_version ≡ 5) }
    ensures carried { carrying.Carries isa.now.order isa.now.pointer_bytes isa.now.registers isa.now.common_entry compilation.old result }
    ensures ready { IfOk result IsReady }
{
    carry_dwarf(alloc, isa, compilation)
}

// What a map tells of its modules, module by module.
#[derive(Drop)]
struct ModuleParts {
    functions: Vec<Vec<(Option<SymbolId>, CompiledFunctionMetadata)>>,
    memory_offsets: Vec<ModuleMemoryOffset>,
    // The paths of their files, where they are told.
    paths: Vec<Option<String>>,
}

// The functions, the memories and the paths of some modules of a map.
fn parts_of(alloc: Global, modules: Vec<MapModule>) -> Result<ModuleParts, AllocError>
    ensures functions { IfOk result (λ parts. lists parts.functions.items ≡ map (λ m. m.functions.items) modules.items) }
    ensures memories { IfOk result (λ parts. parts.memory_offsets.items ≡ map (λ m. m.memory) modules.items) }
    ensures paths { IfOk result (λ parts. parts.paths.items ≡ map (λ m. m.path) modules.items) }
{
    let mut functions = Vec::with_capacity(alloc, modules.len())?;
    let mut memory_offsets = Vec::with_capacity(alloc, modules.len())?;
    let mut paths = Vec::with_capacity(alloc, modules.len())?;
    for module in modules {
        functions.push(module.functions)?;
        memory_offsets.push(module.memory)?;
        paths.push(module.path)?;
    }
    Ok(ModuleParts {
        functions,
        memory_offsets,
        paths,
    })
}

// Translations with the paths of their files, of which there are as many.
fn with_paths<'d>(
    mut translations: Vec<ModuleTranslation<'d>>,
    paths: &'d [Option<String>],
) -> Vec<ModuleTranslation<'d>>
    requires { length translations.items ≡ length paths.now }
    ensures { HavePaths translations.entry.items (map path_view paths.now) result.items }
{
    set_paths(&mut translations, paths);
    translations
}

// Sets the path of the file in each translation.
fn set_paths<'d>(translations: &mut [ModuleTranslation<'d>], paths: &'d [Option<String>])
    requires { length translations.old ≡ length paths.now }
    ensures { HavePaths translations.old (map path_view paths.now) translations.new }
{
    for i in 0..paths.len() {
        translations[i].path = paths[i].as_deref();
    }
}

// The target of a map.
fn table_of(alloc: Global, target: Target) -> Result<TableIsa, AllocError>
    requires size { (target.pointer_bytes ≡ 4) ⊎ (target.pointer_bytes ≡ 8) }
    requires sound { is_sound_if (option_map cie_view target.cie) ≡ true }
    ensures order { IfOk result (λ isa. isa.order ≡ if target.big_endian then Big else Little) }
    ensures size { IfOk result (λ isa. isa.pointer_bytes ≡ target.pointer_bytes) }
    ensures registers { IfOk result (λ isa. isa.registers ≡ registers_of target.registers.items) }
    ensures architecture { IfOk result (λ isa. isa.architecture ≡ target.arch) }
    ensures entry { IfOk result (λ isa. isa.common_entry ≡ option_map cie_view target.cie) }
{
    let order = if target.big_endian {
        Endian::Big
    } else {
        Endian::Little
    };
    TableIsa::new(
        alloc,
        target.arch,
        order,
        target.pointer_bytes,
        target.registers,
        target.cie,
    )
}
