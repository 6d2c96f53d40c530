//! The bytes of values, places and parts, behind what a buffer holds. (DWARF 4 and 5, sections 2.5 and 2.6.1.1.)
ghost use Rattle.std.specs.Prelude.{◌≡◌, ◌++◌, ◌∷◌, [], if◌then◌else◌, pos, true, OnOk, Some};
ghost use Rattle.std.specs.FinMap as finite;
ghost use Rattle.std.specs.Option.{unwrap_or};
ghost use Rattle.dwc_native.specs.Built.{base_added, base_place_bytes, frame_address, jump_bytes, location_bytes, part_bytes, plus_offset, plus_some, register_location, register_value, value_bytes};
ghost use Rattle.dwc_native.specs.Compiled.{in_register, at_frame_offset};
ghost use Rattle.dwc_native.specs.Parts.{dereference};
ghost use Rattle.dwc_isa.specs.ValueLabels.{place_view};
ghost use Rattle.dwc_isa.specs.ToldModules.{memory_view};
ghost use Rattle.dwc_expr.specs.LabelRanges.{IsPlacedOn};
ghost use Rattle.dwc_expr.specs.PartViews.{part_view};
ghost use Rattle.dwc_expr.specs.RangeSettings.{setting_on, with_registers, no_registers};

use crate::CompiledExpressionPart;
use crate::build::setting::{RangeSetting, place_on};
use dwc_base::constants::{
    DW_OP_and, DW_OP_bra, DW_OP_breg0, DW_OP_bregx, DW_OP_const4u, DW_OP_consts, DW_OP_deref,
    DW_OP_fbreg, DW_OP_plus, DW_OP_reg0, DW_OP_regx, DW_OP_skip, DW_OP_swap,
};
use dwc_isa::{LabelValueLoc, ModuleMemoryOffset, Reg, TargetIsa, get_vmctx_value_label};
use dwc_unit::Expression;
use std::alloc::AllocError;

// Registers below this number have operations of their own.
const SHORT_REGISTERS: u16 = 32;

// The mask of the low 32 bits, in any order of bytes.
const LOW_BITS: [u8; 4] = [0xFF; 4];

// DWARF's number of a register, 0 where it has none.
fn register_number(register: Reg, isa: &dyn TargetIsa) -> u16
    ensures { result ≡ unwrap_or (finite.get (dwarf_registers isa.now) register.0) 0 }
{
    isa.map_regalloc_reg_to_dwarf(register).unwrap_or(0)
}

// A register's value plus an offset, by its DWARF number.
fn put_register_value(out: &mut Expression, register: u16, offset: i64) -> Result<(), AllocError>
    ensures { OnOk result (out.new ≡ out.old ++ register_value register offset) }
{
    if register < SHORT_REGISTERS {
        out.push(DW_OP_breg0 + register as u8)?;
    } else {
        out.push(DW_OP_bregx)?;
        out.put_uleb(u64::from(register))?;
    }
    out.put_sleb(offset)
}

// The register itself.
fn put_register(out: &mut Expression, register: u16) -> Result<(), AllocError>
    ensures { OnOk result (out.new ≡ out.old ++ register_location register) }
{
    if register < SHORT_REGISTERS {
        out.push(DW_OP_reg0 + register as u8)?;
        return Ok(());
    }
    out.push(DW_OP_regx)?;
    out.put_uleb(u64::from(register))
}

// An address at an offset from the canonical frame address.
fn put_frame_address(out: &mut Expression, offset: i64) -> Result<(), AllocError>
    ensures { OnOk result (out.new ≡ out.old ++ frame_address offset) }
{
    out.push(DW_OP_fbreg)?;
    out.put_sleb(offset)
}

// The value that lies at a place.
fn put_value(
    out: &mut Expression,
    place: LabelValueLoc,
    isa: &dyn TargetIsa,
) -> Result<(), AllocError>
    ensures { OnOk result (out.new ≡ out.old ++ value_bytes (with_registers (dwarf_registers isa.now)) (Some (place_view place))) }
{
    match place {
        LabelValueLoc::Reg(register) => {
            put_register_value(out, register_number(register, isa), 0)
        }
        LabelValueLoc::CFAOffset(offset) => put_frame_value(out, offset),
    }
}

// The value at an offset from the canonical frame address.
fn put_frame_value(out: &mut Expression, offset: i64) -> Result<(), AllocError>
    ensures { OnOk result (out.new ≡ out.old ++ (frame_address offset ++ DW_OP_deref ∷ [])) }
{
    put_frame_address(out, offset)?;
    out.push(DW_OP_deref)?;
    Ok(())
}

// The place itself.
fn put_location(
    out: &mut Expression,
    place: LabelValueLoc,
    isa: &dyn TargetIsa,
) -> Result<(), AllocError>
    ensures { OnOk result (out.new ≡ out.old ++ location_bytes (with_registers (dwarf_registers isa.now)) (Some (place_view place))) }
{
    match place {
        LabelValueLoc::Reg(register) => put_register(out, register_number(register, isa)),
        LabelValueLoc::CFAOffset(offset) => put_frame_address(out, offset),
    }
}

// An offset added.
fn put_plus(out: &mut Expression, offset: u32) -> Result<(), AllocError>
    ensures { OnOk result (out.new ≡ out.old ++ plus_offset offset) }
{
    out.push(DW_OP_consts)?;
    out.put_sleb(i64::from(offset))?;
    out.push(DW_OP_plus)?;
    Ok(())
}

// The same where it is not 0.
fn put_plus_some(out: &mut Expression, offset: u32) -> Result<(), AllocError>
    ensures { OnOk result (out.new ≡ out.old ++ plus_some offset) }
{
    if offset == 0 {
        return Ok(());
    }
    put_plus(out, offset)
}

// Where the address of the linear memory's base lies, by the register in which the context lies.
fn put_base_by_register(
    out: &mut Expression,
    memory: ModuleMemoryOffset,
    register: Reg,
    isa: &dyn TargetIsa,
) -> Result<(), AllocError>
    ensures { OnOk result (out.new ≡ out.old ++ base_place_bytes (with_registers (dwarf_registers isa.now)) (memory_view memory) (Some (in_register register.0))) }
{
    let number = register_number(register, isa);
    match memory {
        ModuleMemoryOffset::None => Ok(()),
        ModuleMemoryOffset::Defined(base) => put_register_value(out, number, i64::from(base)),
        ModuleMemoryOffset::Imported {
            offset_to_vm_memory_definition: definition,
            offset_to_memory_base: base,
        } => {
            put_register_value(out, number, i64::from(definition))?;
            out.push(DW_OP_deref)?;
            put_plus_some(out, base)
        }
    }
}

// The same by the offset from the canonical frame address at which the context lies.
fn put_base_by_frame(
    out: &mut Expression,
    memory: ModuleMemoryOffset,
    offset: i64,
) -> Result<(), AllocError>
    ensures { OnOk result (out.new ≡ out.old ++ base_place_bytes no_registers (memory_view memory) (Some (at_frame_offset offset))) }
{
    match memory {
        ModuleMemoryOffset::None => Ok(()),
        ModuleMemoryOffset::Defined(base) => {
            put_frame_value(out, offset)?;
            put_plus(out, base)
        }
        ModuleMemoryOffset::Imported {
            offset_to_vm_memory_definition: definition,
            offset_to_memory_base: base,
        } => {
            put_frame_value(out, offset)?;
            put_plus_some(out, definition)?;
            out.push(DW_OP_deref)?;
            put_plus_some(out, base)
        }
    }
}

// The same by the place of the context.
fn put_base_place(
    out: &mut Expression,
    memory: ModuleMemoryOffset,
    place: LabelValueLoc,
    isa: &dyn TargetIsa,
) -> Result<(), AllocError>
    ensures { OnOk result (out.new ≡ out.old ++ base_place_bytes (with_registers (dwarf_registers isa.now)) (memory_view memory) (Some (place_view place))) }
{
    match place {
        LabelValueLoc::Reg(register) => put_base_by_register(out, memory, register, isa),
        LabelValueLoc::CFAOffset(offset) => put_base_by_frame(out, memory, offset),
    }
}

// The base that lies there added to the low 32 bits of the address under it.
fn put_base_added(out: &mut Expression) -> Result<(), AllocError>
    ensures { OnOk result (out.new ≡ out.old ++ base_added) }
{
    out.extend_from_slice(&[DW_OP_deref, DW_OP_swap, DW_OP_const4u])?;
    out.extend_from_slice(&LOW_BITS)?;
    out.extend_from_slice(&[DW_OP_and, DW_OP_plus])
}

// An address in linear memory made one of the native code.
fn put_dereference(
    out: &mut Expression,
    setting: &RangeSetting<'_>,
    isa: &dyn TargetIsa,
) -> Result<(), AllocError>
    requires { IsPlacedOn setting.now.range.now dereference }
    ensures { OnOk result (out.new ≡ out.old ++ part_bytes (setting_on setting.now (dwarf_registers isa.now)) (pos 0) dereference) }
{
    let context = place_on(setting.range, get_vmctx_value_label());
    put_base_place(out, setting.memory, context, isa)?;
    put_base_added(out)
}

// The same, if it is wanted.
pub(crate) fn put_dereference_if(
    wanted: bool,
    out: &mut Expression,
    setting: &RangeSetting<'_>,
    isa: &dyn TargetIsa,
) -> Result<(), AllocError>
    requires { wanted ≡ true → IsPlacedOn setting.now.range.now dereference }
    ensures { OnOk result (out.new ≡ out.old ++ (if wanted then part_bytes (setting_on setting.now (dwarf_registers isa.now)) (pos 0) dereference else [])) }
{
    if !wanted {
        return Ok(());
    }
    put_dereference(out, setting, isa)
}

// The value of a label by its place, or, trailing, the place.
pub(crate) fn put_local(
    out: &mut Expression,
    place: LabelValueLoc,
    trailing: bool,
    isa: &dyn TargetIsa,
) -> Result<(), AllocError>
    ensures { OnOk result (out.new ≡ out.old ++ (if trailing then location_bytes (with_registers (dwarf_registers isa.now)) (Some (place_view place)) else value_bytes (with_registers (dwarf_registers isa.now)) (Some (place_view place)))) }
{
    if trailing {
        put_location(out, place, isa)
    } else {
        put_value(out, place, isa)
    }
}

// The operation of a jump.
fn jump_opcode(conditionally: bool) -> u8
    ensures { result ≡ (if conditionally then DW_OP_bra else DW_OP_skip) }
{
    if conditionally { DW_OP_bra } else { DW_OP_skip }
}

// A jump over a distance from behind it.
fn put_jump(out: &mut Expression, conditionally: bool, distance: i16) -> Result<(), AllocError>
    ensures { OnOk result (out.new ≡ out.old ++ jump_bytes conditionally distance) }
{
    out.push(jump_opcode(conditionally))?;
    out.extend_from_slice(&distance.to_le_bytes())
}

// A part; a jump goes over a distance from behind it.
pub(crate) fn put_part(
    out: &mut Expression,
    part: &CompiledExpressionPart,
    distance: i16,
    setting: &RangeSetting<'_>,
    isa: &dyn TargetIsa,
) -> Result<(), AllocError>
    requires { IsPlacedOn setting.now.range.now (part_view part.now) }
    ensures { OnOk result (out.new ≡ out.old ++ part_bytes (setting_on setting.now (dwarf_registers isa.now)) distance (part_view part.now)) }
{
    match part {
        CompiledExpressionPart::Code(code) => out.extend_from_slice(code),
        CompiledExpressionPart::Local { label, trailing } => {
            put_local(out, place_on(setting.range, *label), *trailing, isa)
        }
        CompiledExpressionPart::Deref => put_dereference(out, setting, isa),
        CompiledExpressionPart::Jump { conditionally, .. } => {
            put_jump(out, *conditionally, distance)
        }
        CompiledExpressionPart::LandingPad(_) => Ok(()),
    }
}
