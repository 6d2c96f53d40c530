//! The DWARF of a compilation, before it is written.
ghost use Rattle.std.specs.Prelude.{◌≡◌, ◌⊎◌, false, is_some, true, IfErr, OnOk};
ghost use Rattle.dwc_carried.specs.Forests.{is_big};
ghost use Rattle.dwc_addr.specs.Compilations.{IsCounted};
ghost use Rattle.dwc_carry.specs.Inputs.{counted_behind, refused_before_path};
ghost use Rattle.dwc_carry.specs.Refusals.{memory, told};
ghost use Rattle.dwc_carry.specs.Transformed.{GivesTransforms, GivesDwarf};

use crate::DebugError;
use crate::carry_modules::carry_modules;
use crate::lengths::check_lengths;
use crate::output_form::OutputForm;
use crate::simulated_unit::generate_simulated_dwarf;
use dwc_addr::{AddressTransform, Compilation};
use dwc_base::{Encoding, Endian, StaticModuleIndex};
use dwc_isa::TargetIsa;
use dwc_unit::{Dwarf, StringTable, UnitTable};
use std::alloc::Global;

/// The units of DWARF for a compilation and a target: module by module and in order, the module's own, and one for each compile unit
/// of which an entry is kept, with an entry for each kept one; and behind these one for the functions without debugging information, where
/// there is a module. The compilation is left as it is but for its counter of names, which rises where the path of that unit is made of it:
/// not where an address map, a length or a module is refused.
///
/// # Errors
/// `BadAddressMap` exactly where a function's address map breaks a rule: the first module, its first such function, and the
/// first rule. Where no map does: `TooLarge` `Addend` exactly where a function with a symbol is longer than 2^31 - 1 bytes. Where
/// none is: `Read`, `Unsupported`, `InvalidFileIndex`, `TooLarge` `Range` for a range whose start plus its length is no address, or
/// `BadLabelRange`, `InvalidAttributeValue`, `UnmappedRegister` or `TooLarge` `Jump` for an expression that is built over its scope, or
/// `TooLarge` `Vmctx` for a module whose memory is too far behind in its context,
/// exactly where something is refused, for the first in the order of the work, module by module; then `Path` exactly where the path of the
/// simulated unit names no file, and what is refused of the variables of its functions. `OutOfMemory` for want of memory.
pub fn transform_dwarf(
    alloc: Global,
    isa: &dyn TargetIsa,
    compilation: &mut Compilation<'_>,
) -> Result<Dwarf, DebugError>
    requires version { (compilation.old.tunables.dwarf_version ≡ 4) ⊎ (compilation.old.tunables.dwarf_version ≡ 5) }
    ensures units { GivesDwarf (byte_order isa.now) (pointer_size isa.now) (dwarf_registers isa.now) compilation.old result }
    ensures counter { OnOk result (compilation.new ≡ counted_behind (dwarf_registers isa.now) compilation.old) }
    ensures refused { IfErr result (λ e. (compilation.new ≡ compilation.old) ⊎ (compilation.new ≡ counted_behind (dwarf_registers isa.now) compilation.old)) }
    ensures early { is_some (refused_before_path (dwarf_registers isa.now) compilation.old) ≡ true → compilation.new ≡ compilation.old }
    ensures late { is_some (refused_before_path (dwarf_registers isa.now) compilation.old) ≡ false → IfErr result (λ e. (told e ≡ memory) ⊎ (compilation.new ≡ counted_behind (dwarf_registers isa.now) compilation.old)) }
{
    let transforms = transforms(alloc, compilation)?;
    check_lengths(&transforms)?;
    let form = output_form(isa, compilation.tunables().dwarf_version);
    let mut dwarf = Dwarf {
        units: UnitTable::new(alloc),
        strings: StringTable::new(alloc),
    };
    let carried = carry_modules(alloc, isa, compilation, &transforms, form, &mut dwarf)?;
    generate_simulated_dwarf(
        alloc,
        compilation,
        &transforms,
        &carried.translated,
        form.encoding,
        &carried.vmctx_ptrs,
        &mut dwarf.units,
        &mut dwarf.strings,
        isa,
    )?;
    Ok(dwarf)
}

// The form of the output for a target: units of a version with addresses of the target's size.
fn output_form(isa: &dyn TargetIsa, version: u16) -> OutputForm
    ensures encoding { result.encoding ≡ record { version = version; address_size = pointer_size isa.now } }
    ensures size { (result.encoding.address_size ≡ 4) ⊎ (result.encoding.address_size ≡ 8) }
    ensures order { result.big_endian ≡ is_big (byte_order isa.now) }
{
    OutputForm {
        encoding: Encoding {
            version,
            address_size: isa.pointer_bytes(),
        },
        big_endian: match isa.endianness() {
            Endian::Little => false,
            Endian::Big => true,
        },
    }
}

// The transforms of the modules of a compilation, in order.
fn transforms<'a>(
    alloc: Global,
    compilation: &Compilation<'a>,
) -> Result<Vec<AddressTransform<'a>>, DebugError>
    ensures counted { IsCounted compilation.now.translations compilation.now.functions compilation.now.memory_offsets }
    ensures transforms { GivesTransforms compilation.now result }
{
    let mut transforms = Vec::new(alloc);
    for i in 0..compilation.translations().len() {
        let module = StaticModuleIndex(i as u32);
        transforms.push(AddressTransform::new(alloc, compilation, module)?)?;
    }
    Ok(transforms)
}
