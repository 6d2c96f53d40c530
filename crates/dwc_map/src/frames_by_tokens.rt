//! How the frames of functions change, by the tokens of a map file.
ghost use Rattle.std.specs.Prelude.{◌≡◌, ◌<◌, ◌-◌, map, length, option_map, option_and_then, Some, IfOk, OnOk};
ghost use Rattle.serde_json.specs.View.{items_view};
ghost use Rattle.dwc_isa.specs.CallFrames.{instruction_view, description_view};
ghost use Rattle.dwc_map.specs.ByTokens.{Tells, TellsDescription, TellsItems};
ghost use Rattle.dwc_map.specs.MapFrames.{frame_of, instruction_kinds, instruction_of};
ghost use Rattle.dwc_map.specs.MapValues.{list_of, named_in, nullable, pair_of, u32_of};

use crate::frames::named_instruction;
use crate::stop::Stop;
use crate::token_parts::{begin_list, end_list, end_object, read_number, read_whole, take_name};
use dwc_isa::{CfaUnwindInfo, FrameOp};
use json::{Reader, Token};
use serde_json::Value;
use std::alloc::Global;

// The instruction of a name, with its operands.
fn instruction(name: &str, operands: &[Value]) -> Result<FrameOp, Stop>
    ensures { IfOk result (λ op. option_and_then (λ kind. kind (items_view operands.now)) (named_in instruction_kinds name.now) ≡ Some (instruction_view op)) }
{
    match named_instruction(name, operands) {
        Some(op) => Ok(op),
        None => Err(Stop::Unusual),
    }
}

// An instruction: a list of its name and its operands, of which there are two at most.
fn read_instruction(reader: &mut Reader<'_>, depth: usize) -> Result<FrameOp, Stop>
    requires { 0 < depth }
    ensures told { IfOk result (λ op. Tells depth instruction_of reader.old (instruction_view op) reader.new) }
    ensures shorter { OnOk result (length reader.new < length reader.old) }
{
    begin_list(reader)?;
    let Some(Token::String(name)) = reader.next() else {
        return Err(Stop::Unusual);
    };
    if reader.take_end_array() {
        return instruction(name, &[]);
    }
    let first = read_whole(reader)?;
    if reader.take_end_array() {
        return instruction(name, &[first]);
    }
    let second = read_whole(reader)?;
    end_list(reader)?;
    instruction(name, &[first, second])
}

// A pair of a code offset and the instruction that holds from there on.
fn read_placed_instruction(reader: &mut Reader<'_>, depth: usize) -> Result<(u32, FrameOp), Stop>
    requires { 1 < depth }
    ensures told { IfOk result (λ op. Tells depth (pair_of u32_of instruction_of) reader.old (op.0, instruction_view op.1) reader.new) }
    ensures shorter { OnOk result (length reader.new < length reader.old) }
{
    begin_list(reader)?;
    let code_offset = read_number(reader)?;
    let op = read_instruction(reader, depth - 1)?;
    end_list(reader)?;
    Ok((code_offset, op))
}

// The instructions of a frame record, behind the bracket that opens their list.
fn instructions_inside(
    alloc: Global,
    reader: &mut Reader<'_>,
    depth: usize,
) -> Result<Vec<(u32, FrameOp)>, Stop>
    requires { 1 < depth }
    ensures told { IfOk result (λ ops. TellsItems depth (pair_of u32_of instruction_of) reader.old (map (λ op. (op.0, instruction_view op.1)) ops.items) reader.new) }
    ensures shorter { OnOk result (length reader.new < length reader.old) }
{
    let mut ops = Vec::new(alloc);
    'items: while !reader.take_end_array() {
        let op = read_placed_instruction(reader, depth)?;
        ops.push(op)?;
    }
    Ok(ops)
}

fn read_instructions(
    alloc: Global,
    reader: &mut Reader<'_>,
    depth: usize,
) -> Result<Vec<(u32, FrameOp)>, Stop>
    requires { 2 < depth }
    ensures told { IfOk result (λ ops. Tells depth (list_of (pair_of u32_of instruction_of)) reader.old (map (λ op. (op.0, instruction_view op.1)) ops.items) reader.new) }
    ensures shorter { OnOk result (length reader.new < length reader.old) }
{
    begin_list(reader)?;
    instructions_inside(alloc, reader, depth - 1)
}

// A frame record with its fields in their usual order, behind the brace that opens it.
fn description_inside(
    alloc: Global,
    reader: &mut Reader<'_>,
    depth: usize,
) -> Result<CfaUnwindInfo, Stop>
    requires { 2 < depth }
    ensures told { IfOk result (λ f. TellsDescription depth reader.old (description_view f) reader.new) }
    ensures shorter { OnOk result (length reader.new < length reader.old) }
{
    take_name(reader, "len")?;
    let len = read_number(reader)?;
    take_name(reader, "ops")?;
    let ops = read_instructions(alloc, reader, depth)?;
    end_object(reader)?;
    Ok(CfaUnwindInfo { len, ops })
}

/// The frame record of a function; none where it is null.
pub(crate) fn read_frame(
    alloc: Global,
    reader: &mut Reader<'_>,
    depth: usize,
) -> Result<Option<CfaUnwindInfo>, Stop>
    requires { 3 < depth }
    ensures told { IfOk result (λ f. Tells depth (nullable frame_of) reader.old (option_map description_view f) reader.new) }
    ensures shorter { OnOk result (length reader.new < length reader.old) }
{
    match reader.next() {
        Some(Token::Null) => Ok(None),
        Some(Token::BeginObject) => Ok(Some(description_inside(alloc, reader, depth - 1)?)),
        _ => Err(Stop::Unusual),
    }
}
