//! The records that pass between the crates.
ghost use Rattle.std.specs.Prelude.{◌≡◌, ◌<◌, ◌^◌, ◌-◌, Some, None};

use std::marker::Model;

/// The order of the bytes of a number.
#[derive(Clone, Copy)]
pub enum Endian {
    Little,
    Big,
}

/// Whom an output is for.
#[derive(Clone, Copy)]
pub enum OutputFor {
    /// By the rules that stand by default.
    Default,
    /// As a debugger wants it: scopes are exact at each byte, lists have a base, and what debuggers cannot bear goes.
    Debugger,
}

/// An address: a number, or a place in a function, which is named by its number among all functions.
#[derive(Clone, Copy, Debug, PartialEq, Eq)]
pub enum Address {
    Constant(u64),
    Symbol { symbol: usize, addend: i64 },
}

/// How a unit spells its numbers: its version of DWARF, and the bytes of an address.
#[derive(Clone, Copy)]
pub struct Encoding {
    pub version: u16,
    pub address_size: u8,
}

/// A row of a line table (DWARF 4, section 6.2.2): its offset from the last `DW_LNE_set_address`, its file by number.
#[derive(Clone, Copy)]
pub struct LineRow {
    pub offset: u64,
    pub file: u64,
    pub line: u64,
    pub column: u64,
    pub is_stmt: bool,
    pub basic_block: bool,
    pub prologue_end: bool,
    pub epilogue_begin: bool,
    pub isa: u64,
    pub discriminator: u64,
}

/// The rule that an address map breaks.
#[derive(Clone, Copy, Debug)]
pub enum MapFault {
    /// The body does not begin at 0.
    BodyOffset,
    /// The function's start or end is missing.
    NoStart,
    /// The function starts before the code section.
    BeforeCodeSection,
    /// The function starts behind its end.
    Reversed,
    /// A code offset is below the one before.
    CodeFalls,
    /// A code offset is past the body.
    CodePastBody,
    /// A source is outside the function.
    SourceOutside,
}

/// The symbol of a compiled function.
#[derive(Clone, Copy)]
pub struct SymbolId(pub u32);

/// A defined function of a module, by its place among them.
#[derive(Clone, Copy, PartialEq, Eq)]
pub struct DefinedFuncIndex(pub u32);

/// A module, by its place among those that are compiled together.
#[derive(Clone, Copy, PartialEq, Eq)]
pub struct StaticModuleIndex(pub u32);

/// What a relocation of compiled code refers to.
#[derive(Clone, Copy, PartialEq, Eq)]
pub enum FuncKey {
    /// A function that a module defines.
    DefinedWasmFunction(StaticModuleIndex, DefinedFuncIndex),
    /// The call of a function of the host, by its number, from Pulley's bytecode.
    PulleyHostCall(u32),
    /// Anything else, by two numbers of the code generator.
    Other(u32, u32),
}

/// A place in the native code of a module.
#[derive(Clone, Copy)]
pub struct ModulePC(u32);

impl ModulePC {
    /// The place at an offset.
    pub fn new(offset: u32) -> ModulePC
        ensures { result.0 ≡ offset }
    {
        ModulePC(offset)
    }

    /// Its offset.
    pub fn raw(self) -> u32
        ensures { result ≡ self.0 }
    {
        self.0
    }
}

/// How code is generated and laid out.
#[derive(Clone, Copy)]
pub struct Tunables {
    /// Whether functions have symbols of their own in an object file.
    pub debug_symbols: bool,
    /// The multiple that the text of an object file is filled to, in bytes: a power of two.
    pub page_align: u64,
    /// Whether traps that a program cannot cause are told too.
    pub internal_traps: bool,
    /// The version of DWARF that is written: 4 or 5.
    pub dwarf_version: u16,
    /// Whom the DWARF is written for.
    pub output_for: OutputFor,
}

/// A place in a wasm file, or no place. A contract sees its offset, if it has one.
#[derive(Clone, Copy)]
pub struct FilePos {
    // The offset, or `NO_PLACE`.
    offset: u32,
}

// The offset that stands for no place.
const NO_PLACE: u32 = u32::MAX;

impl Model for FilePos {
    ghost use Rattle.std.specs.Prelude.{◌-◌, ◌^◌, ℕ, Option};
    ghost use Rattle.std.specs.Option.{unwrap_or};
    ghost use Rattle.std.proofs.Common.{ap};
    ghost use Rattle.dwc_base.specs.Places.{place_of, number-of-place};

    ghost Value = { Option ℕ };

    ghost view = { λ p. place_of p.offset };

    ghost inverse = { λ place. record { offset = unwrap_or place (2 ^ 32 - 1) } };

    ghost inverse_ok = { λ p _. ap (λ n. record { offset = n }) (number-of-place p.offset) };
}

impl FilePos {
    /// The place at an offset of the file; the offset 2^32 - 1 stands for no place, and none is made of it.
    pub fn new(offset: u32) -> FilePos
        requires { offset < 2 ^ 32 - 1 }
        ensures { result ≡ Some offset }
    {
        FilePos { offset }
    }

    /// The offset in the file; None for no place.
    pub fn file_offset(self) -> Option<u32>
        ensures { result ≡ self }
    {
        if self.offset == NO_PLACE {
            None
        } else {
            Some(self.offset)
        }
    }
}

impl Default for FilePos {
    ghost is_default = { λ p. p ≡ None };

    /// No place.
    fn default() -> FilePos {
        FilePos { offset: NO_PLACE }
    }
}
