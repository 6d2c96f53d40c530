//! What is compiled together: modules, and the functions that are compiled from them.
ghost use Rattle.std.specs.Prelude.{◌≡◌, ◌+◌, ◌<◌, ◌%◌, ◌^◌, map, length, slice_get, option_map, All, Some, IfOk};
ghost use Rattle.dwc_base.specs.TranslationNames.{HasSortedNames};
ghost use Rattle.dwc_addr.specs.Numbers.{first_number, all_symbols, AreDistinct};
ghost use Rattle.dwc_addr.specs.Compilations.{CompilationValue, lists, functions_at, numbered, IsCounted, HasDistinctSymbols};
ghost use Rattle.dwc_isa.specs.ToldModules.{AreNames};

use crate::compilation_text::write_compilation;
use crate::symbols::{all_symbols, check_distinct, first_numbers};
use crate::{CompilationError, LinkageNames, ModuleMemoryOffset};
use dwc_base::{DefinedFuncIndex, ModuleTranslation, StaticModuleIndex, SymbolId, Tunables};
use dwc_compiled::CompiledFunctionMetadata;
use dwc_isa::TargetIsa;
use std::alloc::Global;
use std::fmt;
use std::fmt::{Debug, Formatter, Write};
use std::marker::Model;

/// Modules and the functions that are compiled from them. Functions are numbered over all modules in order, and a function is
/// named by its number in addresses of the output. No two functions have one symbol.
#[derive(Drop)]
pub struct Compilation<'a> {
    translations: &'a [ModuleTranslation<'a>],
    functions: &'a [Vec<(Option<SymbolId>, CompiledFunctionMetadata)>],
    package_bytes: Option<&'a [u8]>,
    tunables: &'a Tunables,
    memory_offsets: Vec<ModuleMemoryOffset>,
    names: LinkageNames<'a>,
    next_id: u64,
    // The number of the first function of each module.
    first_numbers: Vec<usize>,
    // The symbols of all functions by their numbers.
    symbols: Vec<Option<SymbolId>>,
}

impl<'a> Model for Compilation<'a> {
    ghost use Rattle.std.specs.Prelude.{◌≡◌, All, option_map};
    ghost use Rattle.dwc_base.specs.TranslationNames.{HasSortedNames};
    ghost use Rattle.std.specs.Coded.{codes};
    ghost use Rattle.dwc_isa.specs.ValueLabels.{labelled_code};
    ghost use Rattle.dwc_addr.specs.Numbers.{numbers_from, all_symbols};
    ghost use Rattle.dwc_addr.specs.Compilations.{CompilationValue, lists, IsCounted, HasDistinctSymbols};
    ghost use Rattle.dwc_isa.specs.ToldModules.{AreNames};

    ghost Value = { CompilationValue };

    ghost coded = { Prim.hlevel (codes, labelled_code) };

    ghost view = { λ c. record {
      translations = c.translations.now;
      functions = lists c.functions.now;
      memory_offsets = c.memory_offsets.items;
      package_bytes = option_map (λ bytes. bytes.now) c.package_bytes;
      tunables = c.tunables.now;
      set_memory = c.names.set_memory.now;
      resolve_memory = c.names.resolve_memory.now;
      next_id = c.next_id;
    } };

    ghost invariant = { λ c. IsCounted c.translations.now (lists c.functions.now) c.memory_offsets.items × HasDistinctSymbols (lists c.functions.now) × (c.first_numbers.items ≡ numbers_from 0 (lists c.functions.now)) × (c.symbols.items ≡ all_symbols (lists c.functions.now)) × AreNames c.names.set_memory.now c.names.resolve_memory.now × All HasSortedNames c.translations.now };
}

impl<'a> Compilation<'a> {
    /// The compilation of modules for a target: each module's translation, whose names stand by rising numbers, its functions in order, each
    /// with its symbol if it has one, and the offset of its memory; the bytes of a package of split DWARF, if there is one; the names of two
    /// functions of the run time, which have no zero byte; and the counter of names that are made up.
    ///
    /// # Errors
    /// `SharedSymbol` exactly where two functions have one symbol. `OutOfMemory` for want of memory.
    pub fn new(
        alloc: Global,
        _isa: &dyn TargetIsa,
        translations: &'a [ModuleTranslation<'a>],
        functions: &'a [Vec<(Option<SymbolId>, CompiledFunctionMetadata)>],
        dwarf_package_bytes: Option<&'a [u8]>,
        tunables: &'a Tunables,
        memory_offsets: Vec<ModuleMemoryOffset>,
        names: LinkageNames<'a>,
        next_id: u64,
    ) -> Result<Compilation<'a>, CompilationError>
        requires counted { IsCounted translations.now (lists functions.now) memory_offsets.items }
        requires names { AreNames names.set_memory.now names.resolve_memory.now }
        requires sorted { All HasSortedNames translations.now }
        ensures distinct { AreDistinct (all_symbols (lists functions.now)) result }
        ensures value { IfOk result (λ c. c ≡ record { translations = translations.now; functions = lists functions.now; memory_offsets = memory_offsets.items; package_bytes = option_map (λ bytes. bytes.now) dwarf_package_bytes.entry; tunables = tunables.now; set_memory = names.entry.set_memory.now; resolve_memory = names.entry.resolve_memory.now; next_id = next_id }) }
    {
        let symbols = all_symbols(alloc, functions)?;
        check_distinct(alloc, &symbols)?;
        let first_numbers = first_numbers(alloc, functions)?;
        Ok(Compilation {
            translations,
            functions,
            package_bytes: dwarf_package_bytes,
            tunables,
            memory_offsets,
            names,
            next_id,
            first_numbers,
            symbols,
        })
    }

    /// The symbol of a function by its number, if it has one.
    pub fn symbol_id(&self, sym: usize) -> Option<SymbolId>
        requires { sym < length (all_symbols self.now.functions) }
        ensures { slice_get (all_symbols self.now.functions) sym ≡ Some result }
    {
        self.symbols[sym]
    }

    /// The counter of names that are made up.
    pub fn next_id(&self) -> u64
        ensures { result ≡ self.now.next_id }
    {
        self.next_id
    }

    /// The modules' translations, in order, with names by rising numbers. There are as many lists of functions, each with as many functions as
    /// its module defines, and as many offsets of memories.
    pub fn translations(&self) -> &'a [ModuleTranslation<'a>]
        ensures translations { result.now ≡ self.now.translations }
        ensures counted { IsCounted self.now.translations self.now.functions self.now.memory_offsets }
        ensures distinct { HasDistinctSymbols self.now.functions }
        ensures sorted { All HasSortedNames self.now.translations }
    {
        self.translations
    }

    /// A defined function of a module: its number, where it has a symbol, and what is known of it.
    pub fn function(
        &self,
        module: StaticModuleIndex,
        func: DefinedFuncIndex,
    ) -> (Option<usize>, &'a CompiledFunctionMetadata)
        requires inside { «module».0 < length self.now.translations }
        requires func { func.0 < length (functions_at self.now «module».0) }
        ensures { option_map (numbered (first_number self.now.functions «module».0 + func.0)) (slice_get (functions_at self.now «module».0) func.0) ≡ Some (result.0, result.1.now) }
    {
        let (symbol, metadata) = &self.functions_of(module)[func.0 as usize];
        let number = self.first_number(module) + func.0 as usize;
        (symbol.map(|_| number), metadata)
    }

    /// The functions of a module, in order, each with its symbol, if it has one, and what is known of it.
    pub fn functions_of(
        &self,
        module: StaticModuleIndex,
    ) -> &'a [(Option<SymbolId>, CompiledFunctionMetadata)]
        requires { «module».0 < length self.now.translations }
        ensures functions { result.now ≡ functions_at self.now «module».0 }
        ensures few { length result.now < 2 ^ 32 }
    {
        &self.functions[module.0 as usize]
    }

    /// The number of a module's first function among those of all modules.
    pub fn first_number(&self, module: StaticModuleIndex) -> usize
        requires { «module».0 < length self.now.translations }
        ensures number { result ≡ first_number self.now.functions «module».0 }
        ensures few { result + length (functions_at self.now «module».0) < 2 ^ 32 }
    {
        self.first_numbers[module.0 as usize]
    }

    /// The offset of a module's memory.
    pub fn memory_offset(&self, module: StaticModuleIndex) -> &ModuleMemoryOffset
        requires { «module».0 < length self.now.translations }
        ensures { slice_get self.now.memory_offsets «module».0 ≡ Some result.now }
    {
        &self.memory_offsets[module.0 as usize]
    }

    /// The bytes of a package of split DWARF.
    pub fn package(&self) -> Option<&'a [u8]>
        ensures { option_map (λ bytes. bytes.now) result ≡ self.now.package_bytes }
    {
        self.package_bytes
    }

    /// The names of functions of the run time, which have no zero byte.
    pub fn names(&self) -> &LinkageNames<'a>
        ensures set_memory { result.now.set_memory.now ≡ self.now.set_memory }
        ensures resolve_memory { result.now.resolve_memory.now ≡ self.now.resolve_memory }
        ensures plain { AreNames self.now.set_memory self.now.resolve_memory }
    {
        &self.names
    }

    /// How code is generated and laid out.
    pub fn tunables(&self) -> &'a Tunables
        ensures { result.now ≡ self.now.tunables }
    {
        self.tunables
    }

    /// The counter, which rises by one; from 2^64 - 1 it goes to 0.
    pub fn take_id(&mut self) -> u64
        ensures id { result ≡ self.old.next_id }
        ensures next { self.new ≡ record self.old { next_id = (self.old.next_id + 1) % 2 ^ 64 } }
    {
        let id = self.next_id;
        self.next_id = id.wrapping_add(1);
        id
    }
}

impl Debug for Compilation<'_> {
    ghost use Rattle.std.specs.Prelude.{Some};
    ghost use Rattle.dwc_addr.specs.CompilationTexts.{compilation_text};

    ghost debug_output = { λ c. Some (compilation_text c.translations) };

    fn fmt<W: Write>(&self, f: &mut Formatter<W>) -> fmt::Result {
        write_compilation(f, self.translations)
    }
}
