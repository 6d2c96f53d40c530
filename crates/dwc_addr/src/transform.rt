//! The functions of a module as its DWARF names them: by wasm offsets, which count from the contents of the code section.
ghost use Rattle.std.specs.Prelude.{◌≡◌, ◌-◌, ◌+◌, ◌<◌, ◌^◌, length, map, slice_get, option_map, Some, None, IfOk, IfSome, IsSome, vec_len};
ghost use Rattle.std.specs.Option.{unwrap_or};
ghost use Rattle.dwc_native.specs.Functions.{map_fault as first_fault, function_of, owner, function_at};
ghost use Rattle.dwc_compiled.specs.AddressMaps.{address_map_view};
ghost use Rattle.dwc_addr.specs.Transforms.{function_view, Transforms};
ghost use Rattle.dwc_addr.specs.Numbers.{first_number};
ghost use Rattle.dwc_addr.specs.Compilations.{functions_at, code_offset_at};
ghost use Rattle.dwc_addr.specs.Runs.{recorded_view, run_starts};
ghost use Rattle.dwc_addr.specs.Starts.{IsStartTable, IsOwnerPlace};

use crate::Compilation;
use crate::address_map::WasmAddress;
use crate::bounds::{block_bounds, run_bounds};
use crate::by_start::{owner_place, start_table};
use crate::error::AddrError;
use crate::function_map::FunctionMap;
use crate::hints::{StartHints, gap_hints, source_hints, start_hints};
use crate::maps::map_fault;
use crate::shown::shown_parts;
use crate::sources::Sources;
use dwc_base::{DefinedFuncIndex, FilePos, OutputFor, StaticModuleIndex, SymbolId};
use dwc_compiled::CompiledFunctionMetadata;
use std::alloc::{AllocError, Global};
use std::marker::Model;

/// The defined functions of a module, found by wasm offset. A contract sees the list of them.
#[derive(Drop)]
pub struct AddressTransform<'a> {
    functions: Vec<FunctionMap<'a>>,
    // Their keys in rising order.
    by_start: Vec<u64>,
    hints: StartHints,
}

impl<'a> Model for AddressTransform<'a> {
    ghost use Rattle.std.specs.Prelude.{List, map};
    ghost use Rattle.dwc_native.specs.Functions.{Function};
    ghost use Rattle.dwc_addr.specs.Transforms.{function_view};
    ghost use Rattle.dwc_addr.specs.Starts.{IsStartTable};

    ghost Value = { List Function };

    ghost view = { λ t. map function_view t.functions.items };

    ghost invariant = { λ t. IsStartTable (map function_view t.functions.items) t.by_start.items };
}

impl<'a> AddressTransform<'a> {
    /// The transform of a module of a compilation.
    ///
    /// # Errors
    /// `BadAddressMap` exactly where some function's map breaks a rule: the first such function, and the first rule.
    /// `OutOfMemory` for want of memory.
    pub fn new(
        alloc: Global,
        compilation: &Compilation<'a>,
        module: StaticModuleIndex,
    ) -> Result<AddressTransform<'a>, AddrError>
        requires { «module».0 < length compilation.now.translations }
        ensures { Transforms (λ t. t) «module».0 compilation.now.tunables.output_for (code_offset_at compilation.now «module».0) (first_number compilation.now.functions «module».0) (map address_map_view (functions_at compilation.now «module».0)) result }
    {
        let code_offset = compilation.translations()[module.0 as usize].code_section_offset;
        let functions = compilation.functions_of(module);
        let first_number = compilation.first_number(module);
        let output_for = compilation.tunables().output_for;
        AddressTransform::of_functions(
            alloc,
            module.0,
            output_for,
            code_offset,
            first_number,
            functions,
        )
    }

    // The transform of a module by its number, for some output, whose code section's contents begin at `code_section_offset` of its file, and
    // whose defined functions, of which the first has the number `first_number` among those of all modules, are given in
    // order, each with its symbol if it has one.
    fn of_functions(
        alloc: Global,
        module_index: u32,
        output_for: OutputFor,
        code_section_offset: u64,
        first_number: usize,
        functions: &'a [(Option<SymbolId>, CompiledFunctionMetadata)],
    ) -> Result<AddressTransform<'a>, AddrError>
        requires count { length functions.now < 2 ^ 32 }
        requires numbers { first_number + length functions.now < 2 ^ 64 }
        ensures { Transforms (λ t. t) module_index output_for code_section_offset first_number (map address_map_view functions.now) result }
    {
        let functions = function_maps(
            alloc,
            module_index,
            output_for,
            code_section_offset,
            first_number,
            functions,
        )?;
        let by_start = start_table(alloc, &functions)?;
        let hints = start_hints(alloc, &by_start)?;
        Ok(AddressTransform {
            functions,
            by_start,
            hints,
        })
    }

    /// The defined function, by its place, with the greatest start at or below an address, of several with that start the
    /// last; None where all begin above it.
    pub fn find_func_index(&self, addr: u64) -> Option<DefinedFuncIndex>
        ensures owner { option_map (λ k. slice_get self.now k.0) result ≡ option_map Some (owner self.now addr) }
        ensures place { IfSome result (λ k. IsOwnerPlace self.now addr k.0) }
    {
        let place = owner_place(&self.by_start, &self.hints, addr)?;
        Some(DefinedFuncIndex(place))
    }

    /// That function where it has a symbol, and the address is neither 0 nor 0xFFFFFFFF, the marks of code that was not
    /// linked.
    pub fn func_at(&self, addr: u64) -> Option<&FunctionMap<'a>>
        ensures symbol { IfSome result (λ f. IsSome f.now.symbol) }
        ensures found { option_map (λ f. function_view f.now) result ≡ function_at self.now addr }
    {
        function_at(&self.functions, &self.by_start, &self.hints, addr)
    }

    /// Where the code of a defined function begins, counted from itself, and how many bytes it has: 0 and its length.
    pub fn func_range(&self, index: DefinedFuncIndex) -> (usize, usize)
        requires { index.0 < length self.now }
        ensures { slice_get (map (λ f. (0, f.length)) self.now) index.0 ≡ Some result }
    {
        (0, self.functions[index.0 as usize].len)
    }

    /// Where a defined function begins and ends in the wasm file, counted from the contents of the code section.
    pub fn func_source_range(&self, index: DefinedFuncIndex) -> (u64, u64)
        requires { index.0 < length self.now }
        ensures { slice_get (map (λ f. (f.start, f.end)) self.now) index.0 ≡ Some result }
    {
        let function = &self.functions[index.0 as usize];
        (function.wasm_start, function.wasm_end)
    }

    /// The defined functions, in order.
    pub fn map(&self) -> &[FunctionMap<'a>]
        ensures { map function_view result.now ≡ self.now }
    {
        &self.functions
    }
}

// The mark of code that was not linked, beside 0.
const UNLINKED: u64 = 0xFFFF_FFFF;

// What `func_at` answers, of the functions and their keys.
fn function_at<'f, 'a>(
    functions: &'f [FunctionMap<'a>],
    keys: &[u64],
    hints: &StartHints,
    addr: u64,
) -> Option<&'f FunctionMap<'a>>
    requires { IsStartTable (map function_view functions.now) keys.now }
    ensures symbol { IfSome result (λ f. IsSome f.now.symbol) }
    ensures found { option_map (λ f. function_view f.now) result ≡ function_at (map function_view functions.now) addr }
{
    if addr == 0 || addr == UNLINKED {
        return None;
    }
    let place = owner_place(keys, hints, addr)?;
    let function = &functions[place as usize];
    if function.symbol.is_none() {
        return None;
    }
    Some(function)
}

// What is kept of some functions, of which the first has a number; or the first whose map is not good.
fn function_maps<'a>(
    alloc: Global,
    module_index: u32,
    output_for: OutputFor,
    code_section_offset: u64,
    first_number: usize,
    functions: &'a [(Option<SymbolId>, CompiledFunctionMetadata)],
) -> Result<Vec<FunctionMap<'a>>, AddrError>
    requires count { length functions.now < 2 ^ 32 }
    requires numbers { first_number + length functions.now < 2 ^ 64 }
    ensures count { IfOk result (λ maps. vec_len maps ≡ length functions.now) }
    ensures functions { Transforms (λ maps. map function_view maps.items) module_index output_for code_section_offset first_number (map address_map_view functions.now) result }
{
    let mut maps = Vec::with_capacity(alloc, functions.len())?;
    for i in 0..functions.len() {
        let (symbol, metadata) = &functions[i];
        if let Some(why) = map_fault(code_section_offset, metadata) {
            return Err(AddrError::BadAddressMap {
                module: module_index,
                func: i as u32,
                why,
            });
        }
        let number = first_number + i;
        maps.push(function_map(
            alloc,
            output_for,
            code_section_offset,
            number,
            *symbol,
            metadata,
        )?)?;
    }
    Ok(maps)
}

// What is kept of a function by its number.
fn function_map<'a>(
    alloc: Global,
    output_for: OutputFor,
    code_section_offset: u64,
    number: usize,
    symbol: Option<SymbolId>,
    metadata: &'a CompiledFunctionMetadata,
) -> Result<FunctionMap<'a>, AllocError>
    requires { first_fault code_section_offset (address_map_view (symbol, metadata.now)) ≡ None }
    ensures { IfOk result (λ f. function_view f ≡ function_of output_for code_section_offset number (address_map_view (symbol, metadata.now))) }
{
    let map = &metadata.address_map;
    let addresses = Sources::new(map.instructions.sources(), code_section_offset);
    let gaps = map.instructions.gaps();
    let later_runs = later_runs(alloc, &addresses)?;
    let wasm_start = start_offset(map.start_srcloc, code_section_offset);
    let wasm_end = start_offset(map.end_srcloc, code_section_offset);
    let run_bounds = run_bounds(alloc, wasm_start, wasm_end, &addresses, &later_runs)?;
    let blocks = block_bounds(alloc, &run_bounds)?;
    let outer_bounds = block_bounds(alloc, &blocks)?;
    let (block_bits, source_hints) = source_hints(
        alloc,
        wasm_start,
        wasm_end,
        &addresses,
        &later_runs,
    )?;
    let gap_hints = gap_hints(alloc, addresses.len(), gaps)?;
    let len = map.body_len as usize;
    let (stretches, tables) = shown_parts(alloc, output_for, wasm_start, len, &addresses)?;
    Ok(FunctionMap {
        output_for,
        symbol: symbol.map(|_| number),
        offset: 0,
        len,
        wasm_start,
        wasm_end,
        addresses,
        gaps,
        later_runs,
        run_bounds,
        block_bounds: blocks,
        outer_bounds,
        block_bits,
        source_hints,
        gap_hints,
        stretches,
        tables,
    })
}

// The wasm offset of a place in the file; 0 for no place, and in front of the code section.
fn start_offset(place: FilePos, code_section_offset: u64) -> WasmAddress
    ensures value { result ≡ unwrap_or place 0 - code_section_offset }
    ensures low { result < 2 ^ 32 }
{
    let offset = place.file_offset().unwrap_or(0);
    u64::from(offset).saturating_sub(code_section_offset)
}

// The places of the sources that lie below the one before.
fn later_runs(alloc: Global, sources: &Sources<'_>) -> Result<Vec<usize>, AllocError>
    ensures { IfOk result (λ places. places.items ≡ run_starts 0 0 (map recorded_view sources.now)) }
{
    let mut places = Vec::new(alloc);
    let mut last = 0;
    for place in 0..sources.len() {
        let wasm = sources.at(place).wasm;
        if wasm < last {
            places.push(place)?;
        }
        last = wasm;
    }
    Ok(places)
}
