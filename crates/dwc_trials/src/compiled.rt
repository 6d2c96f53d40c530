//! A module that defines one function, compiled.
ghost use Rattle.std.specs.Prelude.{◌≡◌, [], ◌∷◌, map, length, IfOk, All};
ghost use Rattle.dwc_base.specs.TranslationNames.{HasSortedNames};
ghost use Rattle.dwc_addr.specs.Compilations.{lists};
ghost use Rattle.dwc_isa.specs.ToldModules.{AreNames};

use dwc_addr::{AddressTransform, Compilation, LinkageNames, ModuleMemoryOffset};
use dwc_base::{
    Endian, FilePos, ModuleTranslation, OutputFor, StaticModuleIndex, SymbolId, Tunables,
};
use dwc_clif::{
    Architecture, CfaUnwindInfo, CompiledFunctionMetadata, FunctionAddressMap,
    InstructionAddressMap, InstructionMaps, TableIsa, ValueLabelsRanges,
};
use std::alloc::{AllocError, Global};
use std::test::Fail;

const TUNABLES: Tunables = Tunables {
    debug_symbols: true,
    page_align: 4096,
    internal_traps: false,
    dwarf_version: 4,
    output_for: OutputFor::Default,
};

const DEBUGGER_TUNABLES: Tunables = Tunables {
    debug_symbols: true,
    page_align: 4096,
    internal_traps: false,
    dwarf_version: 4,
    output_for: OutputFor::Debugger,
};

const NAMES: LinkageNames<'static> = LinkageNames {
    set_memory: "set_mem",
    resolve_memory: "resolve_mem",
};

/// An entry of an address map: the offset of the code, and its place in the wasm file.
pub(crate) type MapEntry = (u32, Option<u32>);

// A place of a file, if it is one.
fn place(offset: Option<u32>) -> FilePos {
    match offset {
        Some(offset) if offset < u32::MAX => FilePos::new(offset),
        _ => FilePos::default(),
    }
}

/// The functions of the modules of a compilation.
pub(crate) type Functions = Vec<Vec<(Option<SymbolId>, CompiledFunctionMetadata)>>;

// A function of 30 bytes whose source begins and ends at places of the file.
fn compiled(
    alloc: Global,
    source: (u32, u32),
    entries: &[MapEntry],
    frame: Option<CfaUnwindInfo>,
) -> Result<CompiledFunctionMetadata, AllocError> {
    let start = place(Some(source.0));
    let end = place(Some(source.1));
    let mut instructions = InstructionMaps::new(alloc);
    for (code_offset, offset) in entries {
        instructions.push(InstructionAddressMap {
            srcloc: place(*offset),
            code_offset: *code_offset,
        })?;
    }
    Ok(CompiledFunctionMetadata {
        address_map: FunctionAddressMap {
            instructions,
            start_srcloc: start,
            end_srcloc: end,
            body_offset: 0,
            body_len: 30,
        },
        value_labels_ranges: ValueLabelsRanges::new(alloc),
        unwind_info: None,
        cfa_unwind_info: frame,
        start_srcloc: start,
        end_srcloc: end,
    })
}

/// The functions of one module: one, which has a symbol, and whose code, source and entries are these.
pub(crate) fn functions_of(
    alloc: Global,
    source: (u32, u32),
    entries: &[MapEntry],
) -> Result<Functions, AllocError>
    ensures { IfOk result (λ functions. map length (lists functions.items) ≡ 1 ∷ []) }
{
    framed_functions(alloc, source, entries, None)
}

/// The same with the description of its frame, if there is one.
pub(crate) fn framed_functions(
    alloc: Global,
    source: (u32, u32),
    entries: &[MapEntry],
    frame: Option<CfaUnwindInfo>,
) -> Result<Functions, AllocError>
    ensures { IfOk result (λ functions. map length (lists functions.items) ≡ 1 ∷ []) }
{
    let mut of_module = Vec::new(alloc);
    of_module.push((Some(SymbolId(0)), compiled(alloc, source, entries, frame)?))?;
    let mut functions = Vec::new(alloc);
    functions.push(of_module)?;
    Ok(functions)
}

/// The transform of a module that defines one function, which is compiled, for an output.
pub(crate) fn transform_of<'a>(
    alloc: Global,
    output_for: OutputFor,
    modules: &'a [ModuleTranslation<'a>],
    functions: &'a [Vec<(Option<SymbolId>, CompiledFunctionMetadata)>],
) -> Result<AddressTransform<'a>, Fail>
    requires modules { map (λ m. m.defined_funcs) modules.now ≡ 1 ∷ [] }
    requires functions { map length (lists functions.now) ≡ 1 ∷ [] }
    requires sorted { All HasSortedNames modules.now }
{
    let isa = target(alloc)?;
    let tunables = match output_for {
        OutputFor::Default => &TUNABLES,
        OutputFor::Debugger => &DEBUGGER_TUNABLES,
    };
    transform_over(alloc, &isa, modules, functions, tunables, NAMES)
}

// The transform of a module that defines one function.
fn transform_over<'a>(
    alloc: Global,
    isa: &TableIsa,
    modules: &'a [ModuleTranslation<'a>],
    functions: &'a [Vec<(Option<SymbolId>, CompiledFunctionMetadata)>],
    tunables: &'a Tunables,
    names: LinkageNames<'a>,
) -> Result<AddressTransform<'a>, Fail>
    requires modules { map (λ m. m.defined_funcs) modules.now ≡ 1 ∷ [] }
    requires functions { map length (lists functions.now) ≡ 1 ∷ [] }
    requires names { AreNames names.set_memory.now names.resolve_memory.now }
    requires sorted { All HasSortedNames modules.now }
{
    let compilation = compilation_over(alloc, isa, modules, functions, tunables, names)?;
    let module = StaticModuleIndex(0);
    Ok(AddressTransform::new(alloc, &compilation, module)?)
}

/// The compilation of a module that defines one function, of which no name was made up.
pub(crate) fn compilation_of<'a>(
    alloc: Global,
    isa: &TableIsa,
    modules: &'a [ModuleTranslation<'a>],
    functions: &'a [Vec<(Option<SymbolId>, CompiledFunctionMetadata)>],
) -> Result<Compilation<'a>, Fail>
    requires modules { map (λ m. m.defined_funcs) modules.now ≡ 1 ∷ [] }
    requires functions { map length (lists functions.now) ≡ 1 ∷ [] }
    requires sorted { All HasSortedNames modules.now }
    ensures modules { IfOk result (λ c. c.translations ≡ modules.now) }
    ensures version { IfOk result (λ c. c.tunables.dwarf_version ≡ 4) }
{
    compilation_over(alloc, isa, modules, functions, &TUNABLES, NAMES)
}

// The same with tunables and names.
fn compilation_over<'a>(
    alloc: Global,
    isa: &TableIsa,
    modules: &'a [ModuleTranslation<'a>],
    functions: &'a [Vec<(Option<SymbolId>, CompiledFunctionMetadata)>],
    tunables: &'a Tunables,
    names: LinkageNames<'a>,
) -> Result<Compilation<'a>, Fail>
    requires modules { map (λ m. m.defined_funcs) modules.now ≡ 1 ∷ [] }
    requires functions { map length (lists functions.now) ≡ 1 ∷ [] }
    requires names { AreNames names.set_memory.now names.resolve_memory.now }
    requires sorted { All HasSortedNames modules.now }
    ensures modules { IfOk result (λ c. c.translations ≡ modules.now) }
    ensures version { IfOk result (λ c. c.tunables ≡ tunables.now) }
{
    let mut offsets = Vec::new(alloc);
    offsets.push(ModuleMemoryOffset::None)?;
    Ok(Compilation::new(
        alloc, isa, modules, functions, None, tunables, offsets, names, 0,
    )?)
}

// A target.
fn target(alloc: Global) -> Result<TableIsa, AllocError> {
    let registers = Vec::new(alloc);
    TableIsa::new(
        alloc,
        Architecture::X86_64,
        Endian::Little,
        8,
        registers,
        None,
    )
}
