//! The registers of a line program, and what each instruction does to them. (DWARF 4, sections 6.2.2 and 6.2.5.)
ghost use Rattle.std.specs.Prelude.{◌≡◌, ◌+◌, ◌-◌, ◌*◌, ◌%◌, ◌^◌, ◌<◌, ◌≤◌, ℤ, nat_abs, pos, ◌+ℤ◌, min, option_map, Some};
ghost use Rattle.dwc_dwarf.specs.LineRows.{at_sequence_start, special_advance, after_row, after, effect, appends, ends};
ghost use Rattle.dwc_tabs.specs.Headers.{program_header};
ghost use Rattle.dwc_tabs.specs.Instructions.{instruction_view};
ghost use Rattle.dwc_tabs.specs.Steps.{capped, registers_view, shown_step, shown_row, shown_view, end_view};

use crate::instruction::Instruction;
use crate::parameters::Parameters;
use crate::step::{LineStep, Shown};
use dwc_base::LineRow;

/// The registers. The offset stays at 2^64 - 1 where it would pass it: no row and no end shows an offset above 2^32 - 1, and
/// only `DW_LNE_set_address` and `DW_LNE_end_sequence` lower it. The line may fall below 0 and come back, so it is exact:
/// each instruction moves it by at most 2^63, and there are fewer than 2^64 instructions.
#[derive(Clone, Copy)]
pub struct Registers {
    pub offset: u64,
    pub file: u64,
    pub line: i128,
    pub column: u64,
    pub is_stmt: bool,
    pub basic_block: bool,
    pub prologue_end: bool,
    pub epilogue_begin: bool,
    pub isa: u64,
    pub discriminator: u64,
}

// One more than the highest offset and line of a row.
const LIMIT: u64 = 1 << 32;

/// The registers as a sequence begins.
pub fn sequence_start(parameters: &Parameters<'_>) -> Registers
    ensures { registers_view result ≡ at_sequence_start (program_header parameters.now) }
{
    Registers {
        offset: 0,
        file: 1,
        line: 1,
        column: 0,
        is_stmt: parameters.default_is_stmt,
        basic_block: false,
        prologue_end: false,
        epilogue_begin: false,
        isa: 0,
        discriminator: 0,
    }
}

/// Runs one instruction. It is inlined into the loops that decode one, so that none is stored.
#[inline(always)]
pub fn execute(
    registers: &mut Registers,
    parameters: &Parameters<'_>,
    instruction: Instruction<'_>,
) -> Shown
    requires { nat_abs registers.old.line + 2 ^ 63 < 2 ^ 127 }
    ensures line { nat_abs registers.new.line ≤ nat_abs registers.old.line + 2 ^ 63 }
    ensures after { registers_view registers.new ≡ capped (after (program_header parameters.now) (instruction_view instruction.entry) (registers_view registers.old)) }
    ensures shown { shown_view result ≡ option_map shown_step (effect (program_header parameters.now) (instruction_view instruction.entry) (registers_view registers.old)) }
{
    let offset = registers.offset;
    match instruction {
        Instruction::Special(opcode) => {
            // one division gives both advances where they stand side by side
            let count = operation_advance(parameters, opcode);
            registers.line = moved(registers.line, line_advance(parameters, opcode));
            registers.offset = advanced(offset, parameters, u64::from(count));
            return append(registers);
        }
        Instruction::Copy => return append(registers),
        Instruction::EndSequence => {
            *registers = sequence_start(parameters);
            return Shown::Step(LineStep::End(end_offset(offset)));
        }
        Instruction::SetAddress(address) => {
            registers.offset = 0;
            return Shown::Step(LineStep::Start(address));
        }
        Instruction::AdvancePc(count) => registers.offset = advanced(offset, parameters, count),
        Instruction::AdvanceLine(step) => registers.line = moved(registers.line, step),
        Instruction::SetFile(file) => registers.file = file,
        Instruction::SetColumn(column) => registers.column = column,
        Instruction::NegateStmt => registers.is_stmt = !registers.is_stmt,
        Instruction::SetBasicBlock => registers.basic_block = true,
        Instruction::ConstAddPc => {
            let count = operation_advance(parameters, u8::MAX);
            registers.offset = advanced(offset, parameters, u64::from(count));
        }
        Instruction::FixedAdvancePc(count) => {
            registers.offset = offset.saturating_add(u64::from(count));
        }
        Instruction::SetPrologueEnd => registers.prologue_end = true,
        Instruction::SetEpilogueBegin => registers.epilogue_begin = true,
        Instruction::SetIsa(isa) => registers.isa = isa,
        Instruction::SetDiscriminator(number) => registers.discriminator = number,
        Instruction::DefineFile(_) | Instruction::Unknown => {}
    }
    Shown::Nothing
}

// How many instructions a special opcode advances the address by.
fn operation_advance(parameters: &Parameters<'_>, opcode: u8) -> u8
    ensures { result ≡ special_advance (program_header parameters.now) opcode }
{
    opcode.saturating_sub(parameters.opcode_base) / parameters.line_range
}

// How many lines a special opcode advances the line by.
fn line_advance(parameters: &Parameters<'_>, opcode: u8) -> i64
    ensures { result ≡ parameters.now.line_base +ℤ pos ((opcode - parameters.now.opcode_base) % parameters.now.line_range) }
{
    let lines = opcode.saturating_sub(parameters.opcode_base) % parameters.line_range;
    i64::from(parameters.line_base) + i64::from(lines)
}

// An offset raised by the lengths of some instructions, and no further than 2^64 - 1.
fn advanced(offset: u64, parameters: &Parameters<'_>, count: u64) -> u64
    ensures { result ≡ min (offset + parameters.now.minimum_instruction_length * count) (2 ^ 64 - 1) }
{
    let length = u64::from(parameters.minimum_instruction_length).saturating_mul(count);
    offset.saturating_add(length)
}

// A line moved by a step.
fn moved(line: i128, step: i64) -> i128
    requires { nat_abs line + 2 ^ 63 < 2 ^ 127 }
    ensures value { result ≡ line +ℤ step }
    ensures near { nat_abs result ≤ nat_abs line + 2 ^ 63 }
{
    line + i128::from(step)
}

// Appends a row, and clears what a row clears.
fn append(registers: &mut Registers) -> Shown
    ensures line { registers.new.line ≡ registers.old.line }
    ensures after { registers_view registers.new ≡ after_row (registers_view registers.old) }
    ensures shown { shown_view result ≡ Some (shown_step (appends (registers_view registers.old))) }
{
    let row = row_of(*registers);
    registers.basic_block = false;
    registers.prologue_end = false;
    registers.epilogue_begin = false;
    registers.discriminator = 0;
    match row {
        Some(row) => Shown::Step(LineStep::Row(row)),
        None => Shown::OutOfRange,
    }
}

// The row of the registers, where it is in range.
fn row_of(registers: Registers) -> Option<LineRow>
    ensures { result ≡ shown_row (registers_view registers) }
{
    if registers.offset >= LIMIT || registers.line < 0 || registers.line >= i128::from(LIMIT) {
        return None;
    }
    Some(LineRow {
        offset: registers.offset,
        file: registers.file,
        line: registers.line as u64,
        column: registers.column,
        is_stmt: registers.is_stmt,
        basic_block: registers.basic_block,
        prologue_end: registers.prologue_end,
        epilogue_begin: registers.epilogue_begin,
        isa: registers.isa,
        discriminator: registers.discriminator,
    })
}

// The offset of an end, where it is in range.
fn end_offset(offset: u64) -> Option<u64>
    ensures { result ≡ end_view offset }
{
    (offset < LIMIT).then_some(offset)
}
