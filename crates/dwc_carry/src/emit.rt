//! Emits the DWARF of a compilation for the native code of its functions.
ghost use Rattle.std.specs.Prelude.{◌≡◌, ◌⊎◌, false, is_some, map, true, IfErr, IfOk, OnOk};
ghost use Rattle.dwc_base.specs.Outputs.{section_view};
ghost use Rattle.dwc_carry.specs.Emits.{Carries, Emits, IsReady};
ghost use Rattle.dwc_carry.specs.Inputs.{counted_behind, input_of, refused_before_path};
ghost use Rattle.dwc_carry.specs.MeaningsCarried.{OutputMeans};
ghost use Rattle.dwc_carry.specs.Refusals.{memory, told};

use crate::DebugError;
use crate::frames::frame_table;
use crate::transform::transform_dwarf;
use dwc_addr::{Compilation, translations_keep_scopes};
use dwc_base::{DwarfSection, Endian};
use dwc_frames::FrameTable;
use dwc_isa::TargetIsa;
use dwc_unit::Dwarf;
use dwc_write::write_sections;
use std::alloc::Global;

/// The DWARF that the one of a compilation carries over to, before it is written: units with the texts that they name, the call frames of
/// functions, and the byte order. It holds nothing of the compilation, which can be let go before the sections take memory.
#[derive(Drop)]
pub struct CarriedDwarf {
    pub(crate) dwarf: Dwarf,
    pub(crate) frames: Option<FrameTable>,
    pub(crate) order: Endian,
}

impl CarriedDwarf {
    ghost use Rattle.dwc_carry.specs.Emits.{IsReady, Writes};

    /// Its sections. The work is linear in what is written.
    ///
    /// # Errors
    /// `InvalidFrameCodeOffset` or `InvalidFrameDataOffset` exactly where a function's frame description cannot be written, for the first.
    /// Where none is refused: `TooLarge` `Expression` exactly where units have version 4 and an expression of a location list has more than
    /// 65,535 bytes; else `TooLarge` `Section` only for a section that could be longer than 2^31 - 1 bytes, each of its numbers at its widest. `OutOfMemory`
    /// for want of memory.
    pub fn write(self, alloc: Global) -> Result<Vec<DwarfSection>, DebugError>
        requires { IsReady self }
        ensures { Writes self result }
    {
        translations_keep_scopes();
        let CarriedDwarf {
            dwarf,
            frames,
            order,
        } = self;
        Ok(write_sections(alloc, dwarf, frames, order)?)
    }
}

/// What the DWARF of a compilation carries over to, for a target, in the version of DWARF that its tunables ask for, 4 or 5, and for whom they
/// ask, with the call frames of its functions where the target has a common information entry. The compilation is left as it is but for its counter of names, which rises where the path of the unit for functions
/// without debugging information is made of it: not where an address map, a length or a module is refused. The work is linear in what is
/// read and made.
///
/// # Errors
/// Those of [`emit_dwarf`], each exactly where it says, but of frames, expressions of location lists and sections, which are looked at as they
/// are written.
pub fn carry_dwarf(
    alloc: Global,
    isa: &dyn TargetIsa,
    compilation: &mut Compilation<'_>,
) -> Result<CarriedDwarf, DebugError>
    requires version { (compilation.old.tunables.dwarf_version ≡ 4) ⊎ (compilation.old.tunables.dwarf_version ≡ 5) }
    ensures carried { Carries (byte_order isa.now) (pointer_size isa.now) (dwarf_registers isa.now) (common_entry isa.now) compilation.old result }
    ensures ready { IfOk result IsReady }
    ensures counter { OnOk result (compilation.new ≡ counted_behind (dwarf_registers isa.now) compilation.old) }
    ensures refused { IfErr result (λ e. (compilation.new ≡ compilation.old) ⊎ (compilation.new ≡ counted_behind (dwarf_registers isa.now) compilation.old)) }
    ensures early { is_some (refused_before_path (dwarf_registers isa.now) compilation.old) ≡ true → compilation.new ≡ compilation.old }
    ensures late { is_some (refused_before_path (dwarf_registers isa.now) compilation.old) ≡ false → IfErr result (λ e. (told e ≡ memory) ⊎ (compilation.new ≡ counted_behind (dwarf_registers isa.now) compilation.old)) }
{
    let dwarf = transform_dwarf(alloc, isa, compilation)?;
    let frames = frame_table(alloc, isa, compilation)?;
    let order = isa.endianness();
    Ok(CarriedDwarf {
        dwarf,
        frames,
        order,
    })
}

/// The sections of DWARF that those of a compilation carry over to, for a target, in the version of DWARF that its tunables ask for, 4 or 5,
/// and for whom they ask, with the call frames of its functions behind them where the target has a common information entry: [`carry_dwarf`], and what it carries written. The compilation is left as it is but for its
/// counter of names, which rises where the path of the unit for functions without debugging information is made of it: not where an address
/// map, a length or a module is refused. The work is linear in what is read and written.
///
/// Where what is told of the modules is bounded, the expressions of the output mean what those of the input do: each location that an entry
/// states for native bytes is of an expression of the entry that it was made of, runs as that expression's parts with the places that its
/// values have on these bytes, and keeps its meaning in WebAssembly, where it has one. A place of one local is the register or the slot.
///
/// # Errors
/// `BadAddressMap` exactly where a function's address map breaks a rule: the first module, its first such function, and the
/// first rule. Where no map does: `TooLarge` `Addend` exactly where a function with a symbol is longer than 2^31 - 1 bytes. Where
/// none is: `Read`, `Unsupported`, `InvalidFileIndex`, `TooLarge` `Range` for a range whose start plus its length is no address, or
/// `BadLabelRange`, `InvalidAttributeValue`, `UnmappedRegister` or `TooLarge` `Jump` for an expression that is built over its scope, or
/// `TooLarge` `Vmctx` for a module whose memory is too far behind in its context,
/// exactly where something is refused, for the first in the order of the work, module by module; then `Path` exactly where the path of the
/// simulated unit names no file, and what is refused of the variables of its functions. Where nothing is: `InvalidFrameCodeOffset` or `InvalidFrameDataOffset` exactly where a function's frame description cannot be written, for the first. Where nothing is refused: `TooLarge` `Expression`
/// exactly where the version is 4 and an expression of a location list has more than 65,535 bytes; else `TooLarge` `Section` only for a section that could be
/// longer than 2^31 - 1 bytes, each of its numbers at its widest. `OutOfMemory` for want of memory.
pub fn emit_dwarf(
    alloc: Global,
    isa: &dyn TargetIsa,
    compilation: &mut Compilation<'_>,
) -> Result<Vec<DwarfSection>, DebugError>
    requires version { (compilation.old.tunables.dwarf_version ≡ 4) ⊎ (compilation.old.tunables.dwarf_version ≡ 5) }
    ensures sections { Emits (byte_order isa.now) (pointer_size isa.now) (dwarf_registers isa.now) (common_entry isa.now) compilation.old result }
    ensures means { IfOk result (λ s. OutputMeans (input_of (byte_order isa.now) (pointer_size isa.now) (dwarf_registers isa.now) (common_entry isa.now) compilation.old) (map section_view s.items)) }
    ensures counter { OnOk result (compilation.new ≡ counted_behind (dwarf_registers isa.now) compilation.old) }
    ensures refused { IfErr result (λ e. (compilation.new ≡ compilation.old) ⊎ (compilation.new ≡ counted_behind (dwarf_registers isa.now) compilation.old)) }
    ensures early { is_some (refused_before_path (dwarf_registers isa.now) compilation.old) ≡ true → compilation.new ≡ compilation.old }
    ensures late { is_some (refused_before_path (dwarf_registers isa.now) compilation.old) ≡ false → IfErr result (λ e. (told e ≡ memory) ⊎ (compilation.new ≡ counted_behind (dwarf_registers isa.now) compilation.old)) }
{
    let carried = carry_dwarf(alloc, isa, compilation)?;
    carried.write(alloc)
}
