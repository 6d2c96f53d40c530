//! Instructions of call frames, as they are written. (DWARF 4 and 5, section 6.4.2; DWARF 4, section 7.23.)
ghost use Rattle.std.specs.Prelude.{◌≡◌, ◌∷◌, [], ◌+◌, ◌<◌, map, nat_abs, int_div};
ghost use Rattle.std.specs.List.{flat_map};
ghost use Rattle.dwc_output.specs.FrameSections.{advance_numbers, advancing_numbers, by_sign, fixed, instruction_numbers, one_byte, saved_numbers, sleb, uleb, with_register};
ghost use Rattle.dwc_isa.specs.CallFrames.{cie_view, instruction_view};
ghost use Rattle.dwc_section.specs.Writers.{IsSize};
ghost use Rattle.dwc_frames.specs.Frames.{Puts, PutsIn, advancing_view};

use dwc_base::Endian;
use dwc_base::constants::{
    DW_CFA_advance_loc, DW_CFA_advance_loc1, DW_CFA_advance_loc2, DW_CFA_advance_loc4,
    DW_CFA_def_cfa, DW_CFA_def_cfa_offset, DW_CFA_def_cfa_offset_sf, DW_CFA_def_cfa_register,
    DW_CFA_def_cfa_sf, DW_CFA_offset, DW_CFA_offset_extended, DW_CFA_offset_extended_sf,
    DW_CFA_remember_state, DW_CFA_restore, DW_CFA_restore_extended, DW_CFA_restore_state,
    DW_CFA_same_value, DW_CFA_undefined,
};
use dwc_isa::{Cie, FrameOp};
use dwc_section::append::{put_sized, put_sleb};
use dwc_section::put_uleb;
use std::alloc::AllocError;

// Registers below this number stand in the opcode.
const SHORT_REGISTERS: u16 = 64;

// A byte.
pub fn put_byte(out: &mut Vec<u8>, byte: u8) -> Result<(), AllocError>
    ensures { Puts out.old.items out.new.items result (one_byte byte ∷ []) }
{
    out.push(byte)?;
    Ok(())
}

// An unsigned LEB128 number.
pub fn put_unsigned(out: &mut Vec<u8>, value: u64) -> Result<(), AllocError>
    ensures { Puts out.old.items out.new.items result (uleb value ∷ []) }
{
    put_uleb(out, value)
}

// A signed one.
pub fn put_signed(out: &mut Vec<u8>, value: i64) -> Result<(), AllocError>
    ensures { Puts out.old.items out.new.items result (sleb value ∷ []) }
{
    put_sleb(out, value)
}

// A number of so many bytes.
pub fn put_fixed(out: &mut Vec<u8>, order: Endian, size: u8, value: u64) -> Result<(), AllocError>
    requires { IsSize size }
    ensures { PutsIn order out.old.items out.new.items result (fixed size value ∷ []) }
{
    put_sized(out, order, size, value)
}

// An opcode and a register.
fn put_of_register(out: &mut Vec<u8>, opcode: u8, register: u16) -> Result<(), AllocError>
    ensures { Puts out.old.items out.new.items result (one_byte opcode ∷ uleb register ∷ []) }
{
    put_byte(out, opcode)?;
    put_unsigned(out, u64::from(register))
}

// A register in its opcode where it fits, and else behind an extended one.
fn put_with_register(
    out: &mut Vec<u8>,
    opcode: u8,
    extended: u8,
    register: u16,
) -> Result<(), AllocError>
    requires { opcode + 63 < 256 }
    ensures { Puts out.old.items out.new.items result (with_register opcode extended register) }
{
    if register < SHORT_REGISTERS {
        put_byte(out, opcode + register as u8)
    } else {
        put_of_register(out, extended, register)
    }
}

// An offset in units of the data factor.
fn units_of(factor: i8, offset: i32) -> i64
    requires { 0 < nat_abs factor }
    ensures { result ≡ int_div offset factor }
{
    i64::from(offset) / i64::from(factor)
}

// The rule that the frame's address is a register plus an offset.
fn put_cfa(out: &mut Vec<u8>, factor: i8, register: u16, offset: i32) -> Result<(), AllocError>
    requires { 0 < nat_abs factor }
    ensures { Puts out.old.items out.new.items result (by_sign DW_CFA_def_cfa DW_CFA_def_cfa_sf (uleb register ∷ []) factor offset) }
{
    if offset < 0 {
        put_of_register(out, DW_CFA_def_cfa_sf, register)?;
        put_signed(out, units_of(factor, offset))
    } else {
        put_of_register(out, DW_CFA_def_cfa, register)?;
        put_unsigned(out, u64::from(offset as u32))
    }
}

// The rule that the frame's address is at another offset.
fn put_cfa_offset(out: &mut Vec<u8>, factor: i8, offset: i32) -> Result<(), AllocError>
    requires { 0 < nat_abs factor }
    ensures { Puts out.old.items out.new.items result (by_sign DW_CFA_def_cfa_offset DW_CFA_def_cfa_offset_sf [] factor offset) }
{
    if offset < 0 {
        put_byte(out, DW_CFA_def_cfa_offset_sf)?;
        put_signed(out, units_of(factor, offset))
    } else {
        put_byte(out, DW_CFA_def_cfa_offset)?;
        put_unsigned(out, u64::from(offset as u32))
    }
}

// Where a register is saved, by its factored offset.
fn put_saved(out: &mut Vec<u8>, register: u16, units: i64) -> Result<(), AllocError>
    ensures { Puts out.old.items out.new.items result (saved_numbers register units) }
{
    if units < 0 {
        put_of_register(out, DW_CFA_offset_extended_sf, register)?;
        put_signed(out, units)
    } else {
        put_with_register(out, DW_CFA_offset, DW_CFA_offset_extended, register)?;
        put_unsigned(out, units as u64)
    }
}

// An instruction.
pub fn put_instruction(out: &mut Vec<u8>, factor: i8, op: FrameOp) -> Result<(), AllocError>
    requires { 0 < nat_abs factor }
    ensures { Puts out.old.items out.new.items result (instruction_numbers factor (instruction_view op)) }
{
    match op {
        FrameOp::Cfa(register, offset) => put_cfa(out, factor, register, offset),
        FrameOp::CfaRegister(register) => put_of_register(out, DW_CFA_def_cfa_register, register),
        FrameOp::CfaOffset(offset) => put_cfa_offset(out, factor, offset),
        FrameOp::Restore(register) => {
            put_with_register(out, DW_CFA_restore, DW_CFA_restore_extended, register)
        }
        FrameOp::Undefined(register) => put_of_register(out, DW_CFA_undefined, register),
        FrameOp::SameValue(register) => put_of_register(out, DW_CFA_same_value, register),
        FrameOp::Offset(register, offset) => put_saved(out, register, units_of(factor, offset)),
        FrameOp::RememberState => put_byte(out, DW_CFA_remember_state),
        FrameOp::RestoreState => put_byte(out, DW_CFA_restore_state),
    }
}

// Instructions one behind another.
pub fn put_instructions(out: &mut Vec<u8>, cie: &Cie, ops: &[FrameOp]) -> Result<(), AllocError>
    requires { 0 < nat_abs cie.now.data_factor }
    ensures { Puts out.old.items out.new.items result (flat_map (instruction_numbers cie.now.data_factor) (map instruction_view ops.now)) }
{
    for i in 0..ops.len() {
        put_instruction(out, cie.data_factor, ops[i])?;
    }
    Ok(())
}

// An advance by so many units of the code factor.
fn put_advance(out: &mut Vec<u8>, order: Endian, units: u32) -> Result<(), AllocError>
    ensures { PutsIn order out.old.items out.new.items result (advance_numbers units) }
{
    if units == 0 {
        Ok(())
    } else if units < 0x40 {
        put_byte(out, DW_CFA_advance_loc + units as u8)
    } else if units < 0x100 {
        put_byte(out, DW_CFA_advance_loc1)?;
        put_fixed(out, order, 1, u64::from(units))
    } else if units < 0x1_0000 {
        put_byte(out, DW_CFA_advance_loc2)?;
        put_fixed(out, order, 2, u64::from(units))
    } else {
        put_byte(out, DW_CFA_advance_loc4)?;
        put_fixed(out, order, 4, u64::from(units))
    }
}

// Instructions with the offsets of code from which they hold, each behind an advance.
pub fn put_advancing(
    out: &mut Vec<u8>,
    order: Endian,
    cie: &Cie,
    ops: &[(u32, FrameOp)],
) -> Result<(), AllocError>
    requires code { 0 < cie.now.code_factor }
    requires data { 0 < nat_abs cie.now.data_factor }
    ensures { PutsIn order out.old.items out.new.items result (advancing_numbers (cie_view cie.now) 0 (map advancing_view ops.now)) }
{
    let mut before = 0;
    for i in 0..ops.len() {
        let (offset, op) = ops[i];
        let advanced = offset.saturating_sub(before);
        put_advance(out, order, advanced / u32::from(cie.code_factor))?;
        put_instruction(out, cie.data_factor, op)?;
        before = offset;
    }
    Ok(())
}
