//! How code unwinds, as a map file tells it.
ghost use Rattle.std.specs.Prelude.{◌≡◌, ◌≢◌, ℕ, ℤ, nat_abs, map, option_map, option_and_then, IfOk, Some, None};
ghost use Rattle.std.specs.List.{list_all};
ghost use Rattle.serde_json.specs.View.{view, items_view};
ghost use Rattle.dwc_native.specs.CallFrames.{FrameInstruction, has_factored_offset, is_sound};
ghost use Rattle.dwc_isa.specs.CallFrames.{instruction_view, cie_view, description_view};
ghost use Rattle.dwc_map.specs.MapValues.{u32_of, nullable, all_items, pair_of, value_or, named_in};
ghost use Rattle.dwc_map.specs.MapFrames.{alone, of_register, of_offset, of_both, instruction_kinds, instruction_of, frame_of, cie_of};
ghost use Rattle.dwc_map.specs.MapViews.{cie_with, frame_with};

use crate::json_fields::{
    byte_number, items, member, members, pair, plain_text, short_number, signed_byte,
    signed_offset, whole_number,
};
use dwc_isa::{CfaUnwindInfo, Cie, FrameOp};
use serde_json::Value;
use std::alloc::{AllocError, Global};

// ---- Operands

// An instruction without operands.
fn lone_instruction(op: FrameOp, operands: &[Value]) -> Option<FrameOp>
    ensures { option_map instruction_view result ≡ alone (instruction_view op) (items_view operands.now) }
{
    match operands.first() {
        Some(_) => None,
        None => Some(op),
    }
}

// One operand, a register.
fn register_operand(operands: &[Value]) -> Option<u16>
    ensures { (instruction : ℕ → FrameInstruction) → option_map instruction result ≡ of_register instruction (items_view operands.now) }
{
    let [register] = operands else {
        return None;
    };
    short_number(register)
}

// One operand, an offset.
fn offset_operand(operands: &[Value]) -> Option<i32>
    ensures { (instruction : ℤ → FrameInstruction) → option_map instruction result ≡ of_offset instruction (items_view operands.now) }
{
    let [offset] = operands else {
        return None;
    };
    signed_offset(offset)
}

// Two operands, a register and an offset.
fn two_operands(operands: &[Value]) -> Option<(u16, i32)>
    ensures { (instruction : ℕ → ℤ → FrameInstruction) → option_map (λ p. instruction p.0 p.1) result ≡ of_both instruction (items_view operands.now) }
{
    let [register, offset] = operands else {
        return None;
    };
    let register = short_number(register)?;
    let offset = signed_offset(offset)?;
    Some((register, offset))
}

// ---- What can be written

// Whether the offsets of instructions in units of the data factor are so many times the factor.
fn have_multiple_offsets(factor: i8, ops: &[FrameOp]) -> bool
    requires { nat_abs factor ≢ 0 }
    ensures { result ≡ list_all (has_factored_offset factor) (map instruction_view ops.now) }
{
    for op in ops {
        if !op.has_factored_offset(factor) {
            return false;
        }
    }
    true
}

// Whether an entry can be written.
fn can_be_written(cie: &Cie) -> bool
    ensures { result ≡ is_sound (cie_view cie.now) }
{
    cie.code_factor != 0 && cie.data_factor != 0 && have_multiple_offsets(cie.data_factor, &cie.ops)
}

// ---- Lists of instructions

/// The instruction of a name, with its operands.
pub(crate) fn named_instruction(name: &str, operands: &[Value]) -> Option<FrameOp>
    ensures { option_map instruction_view result ≡ option_and_then (λ kind. kind (items_view operands.now)) (named_in instruction_kinds name.now) }
{
    match name {
        "cfa" => {
            let (register, offset) = two_operands(operands)?;
            Some(FrameOp::Cfa(register, offset))
        }
        "cfa_register" => Some(FrameOp::CfaRegister(register_operand(operands)?)),
        "cfa_offset" => Some(FrameOp::CfaOffset(offset_operand(operands)?)),
        "restore" => Some(FrameOp::Restore(register_operand(operands)?)),
        "undefined" => Some(FrameOp::Undefined(register_operand(operands)?)),
        "same_value" => Some(FrameOp::SameValue(register_operand(operands)?)),
        "offset" => {
            let (register, offset) = two_operands(operands)?;
            Some(FrameOp::Offset(register, offset))
        }
        "remember" => lone_instruction(FrameOp::RememberState, operands),
        "restore_state" => lone_instruction(FrameOp::RestoreState, operands),
        _ => None,
    }
}

// An instruction: a list of its name and its operands.
#[tactic(auto, using(crate::proofs::FrameKinds::instruction_of_items))]
fn read_instruction(value: &Value) -> Option<FrameOp>
    ensures { option_map instruction_view result ≡ instruction_of (view value.now) }
{
    let (name, operands) = items(value)?.split_first()?;
    let name = plain_text(name)?;
    named_instruction(name, operands)
}

fn read_instructions(alloc: Global, values: &[Value]) -> Result<Option<Vec<FrameOp>>, AllocError>
    ensures { IfOk result (λ o. option_map (λ v. map instruction_view v.items) o ≡ all_items instruction_of (items_view values.now)) }
{
    let mut ops = Vec::with_capacity(alloc, values.len())?;
    for value in values {
        let Some(op) = read_instruction(value) else {
            return Ok(None);
        };
        ops.push(op)?;
    }
    Ok(Some(ops))
}

// A pair of a code offset and the instruction that holds from there on.
#[tactic(auto, using(crate::proofs::MapKinds::pair_of_parts))]
fn read_placed_instruction(value: &Value) -> Option<(u32, FrameOp)>
    ensures { option_map (λ op. (op.0, instruction_view op.1)) result ≡ pair_of u32_of instruction_of (view value.now) }
{
    let (code_offset, op) = pair(value)?;
    let code_offset = whole_number(code_offset)?;
    let op = read_instruction(op)?;
    Some((code_offset, op))
}

fn read_placed_instructions(
    alloc: Global,
    values: &[Value],
) -> Result<Option<Vec<(u32, FrameOp)>>, AllocError>
    ensures { IfOk result (λ o. option_map (λ v. map (λ op. (op.0, instruction_view op.1)) v.items) o
        ≡ all_items (pair_of u32_of instruction_of) (items_view values.now)) }
{
    let mut ops = Vec::with_capacity(alloc, values.len())?;
    for value in values {
        let Some(op) = read_placed_instruction(value) else {
            return Ok(None);
        };
        ops.push(op)?;
    }
    Ok(Some(ops))
}

// ---- Objects

// The fields of a common information entry, its instructions not yet read.
#[derive(Clone, Copy)]
struct CieFields<'v> {
    code_factor: u8,
    data_factor: i8,
    return_register: u8,
    ops: &'v [Value],
}

#[tactic(auto, using(crate::proofs::MapKinds::list_of_items), unfolding(crate::specs::MapFrames::cie_of))]
fn cie_fields(value: &Value) -> Option<CieFields<'_>>
    ensures { cie_of (view value.now) ≡ option_and_then cie_with result }
{
    let fields = members(value)?;
    let code_factor = byte_number(member(fields, "code_factor")?)?;
    let data_factor = signed_byte(member(fields, "data_factor")?)?;
    let return_register = byte_number(member(fields, "return_register")?)?;
    let ops = items(member(fields, "ops")?)?;
    Some(CieFields {
        code_factor,
        data_factor,
        return_register,
        ops,
    })
}

// A common information entry, where it can be written.
fn read_common_entry(alloc: Global, value: &Value) -> Result<Option<Cie>, AllocError>
    ensures { IfOk result (λ o. option_map cie_view o ≡ cie_of (view value.now)) }
{
    let Some(fields) = cie_fields(value) else {
        return Ok(None);
    };
    let Some(ops) = read_instructions(alloc, fields.ops)? else {
        return Ok(None);
    };
    let cie = Cie {
        code_factor: fields.code_factor,
        data_factor: fields.data_factor,
        return_register: fields.return_register,
        ops,
    };
    if !can_be_written(&cie) {
        return Ok(None);
    }
    Ok(Some(cie))
}

#[tactic(auto, using(crate::proofs::MapKinds::list_of_items), unfolding(crate::specs::MapFrames::frame_of))]
fn frame_fields(value: &Value) -> Option<(u32, &[Value])>
    ensures { frame_of (view value.now) ≡ option_and_then (λ p. frame_with p.0 (items_view p.1.now)) result }
{
    let fields = members(value)?;
    let len = whole_number(member(fields, "len")?)?;
    let values = items(member(fields, "ops")?)?;
    Some((len, values))
}

fn read_description(alloc: Global, value: &Value) -> Result<Option<CfaUnwindInfo>, AllocError>
    ensures { IfOk result (λ o. option_map description_view o ≡ frame_of (view value.now)) }
{
    let Some((len, values)) = frame_fields(value) else {
        return Ok(None);
    };
    let Some(ops) = read_placed_instructions(alloc, values)? else {
        return Ok(None);
    };
    Ok(Some(CfaUnwindInfo { len, ops }))
}

// A common information entry, none where it is null.
fn read_nullable_entry(alloc: Global, value: &Value) -> Result<Option<Option<Cie>>, AllocError>
    ensures { IfOk result (λ o. option_map (λ c. option_map cie_view c) o ≡ nullable cie_of (view value.now)) }
{
    if value.is_null() {
        return Ok(Some(None));
    }
    let Some(cie) = read_common_entry(alloc, value)? else {
        return Ok(None);
    };
    Ok(Some(Some(cie)))
}

// A frame record, none where it is null.
fn read_nullable_frame(
    alloc: Global,
    value: &Value,
) -> Result<Option<Option<CfaUnwindInfo>>, AllocError>
    ensures { IfOk result (λ o. option_map (λ f. option_map description_view f) o ≡ nullable frame_of (view value.now)) }
{
    if value.is_null() {
        return Ok(Some(None));
    }
    let Some(frame) = read_description(alloc, value)? else {
        return Ok(None);
    };
    Ok(Some(Some(frame)))
}

/// The common information entry of a target; none where nothing is told, or null.
pub(crate) fn read_cie(
    alloc: Global,
    value: Option<&Value>,
) -> Result<Option<Option<Cie>>, AllocError>
    ensures { IfOk result (λ o. option_map (λ c. option_map cie_view c) o
        ≡ value_or None (nullable cie_of) (option_map (λ v. view v.now) value.entry)) }
{
    match value {
        Some(entry) => read_nullable_entry(alloc, entry),
        None => Ok(Some(None)),
    }
}

/// The frame record of a function; none where nothing is told, or null.
pub(crate) fn read_frame(
    alloc: Global,
    value: Option<&Value>,
) -> Result<Option<Option<CfaUnwindInfo>>, AllocError>
    ensures { IfOk result (λ o. option_map (λ f. option_map description_view f) o
        ≡ value_or None (nullable frame_of) (option_map (λ v. view v.now) value.entry)) }
{
    match value {
        Some(frame) => read_nullable_frame(alloc, frame),
        None => Ok(Some(None)),
    }
}
