//! The instructions of a line program. (DWARF 4, section 6.2.5.)
ghost use Rattle.std.specs.Prelude.{◌≡◌, ◌<◌, ◌-◌};
ghost use Rattle.dwc_dwarf.specs.LineHeaders.{passed_operands_at, extended_at, extended_instruction_at, instruction_at};
ghost use Rattle.dwc_base.specs.Cursors.{Gives};
ghost use Rattle.dwc_tabs.specs.Headers.{program_header};
ghost use Rattle.dwc_tabs.specs.Instructions.{instruction_view, standard_at};

use crate::header::{LineFile, file_of_name};
use crate::parameters::Parameters;
use dwc_base::constants::{
    DW_LNE_define_file, DW_LNE_end_sequence, DW_LNE_set_address, DW_LNE_set_discriminator,
    DW_LNS_advance_line, DW_LNS_advance_pc, DW_LNS_const_add_pc, DW_LNS_copy,
    DW_LNS_fixed_advance_pc, DW_LNS_negate_stmt, DW_LNS_set_basic_block, DW_LNS_set_column,
    DW_LNS_set_epilogue_begin, DW_LNS_set_file, DW_LNS_set_isa, DW_LNS_set_prologue_end,
};
use dwc_base::fields::address;
use dwc_base::{Address, Cursor, Flaw, Relocations};

/// An instruction, with its operands.
#[derive(Clone, Copy)]
pub enum Instruction<'d> {
    /// A special opcode.
    Special(u8),
    Copy,
    AdvancePc(u64),
    AdvanceLine(i64),
    SetFile(u64),
    SetColumn(u64),
    NegateStmt,
    SetBasicBlock,
    ConstAddPc,
    FixedAdvancePc(u16),
    SetPrologueEnd,
    SetEpilogueBegin,
    SetIsa(u64),
    EndSequence,
    SetAddress(Address),
    DefineFile(LineFile<'d>),
    SetDiscriminator(u64),
    /// An opcode without a meaning, whose operands were passed.
    Unknown,
}

// The opcode that begins an extended instruction.
const EXTENDED: u8 = 0;

/// The instruction at the front. Opcodes from `opcode_base` on are special.
#[inline(always)]
#[tactic(auto, unfolding(dwc_dwarf::specs::LineHeaders::instruction_at))]
pub fn read_instruction<'d>(
    parameters: &Parameters<'d>,
    relocations: &Relocations<'d>,
    cursor: &mut Cursor<'d>,
) -> Result<Instruction<'d>, Flaw>
    ensures { Gives instruction_view (instruction_at relocations.now (program_header parameters.now) cursor.old) cursor.new result }
{
    let opcode = cursor.u8()?;
    if opcode >= parameters.opcode_base {
        return Ok(Instruction::Special(opcode));
    }
    if opcode == EXTENDED {
        return extended_instruction(parameters, relocations, cursor);
    }
    standard_instruction(parameters, opcode, cursor)
}

// The operands of a standard opcode; those of one without a meaning are passed.
#[inline(always)]
fn standard_instruction<'d>(
    parameters: &Parameters<'d>,
    opcode: u8,
    cursor: &mut Cursor<'d>,
) -> Result<Instruction<'d>, Flaw>
    requires some { 0 < opcode }
    requires below { opcode < parameters.now.opcode_base }
    ensures { Gives instruction_view (standard_at (program_header parameters.now) opcode cursor.old) cursor.new result }
{
    match opcode {
        DW_LNS_copy => Ok(Instruction::Copy),
        DW_LNS_advance_pc => Ok(Instruction::AdvancePc(cursor.uleb()?)),
        DW_LNS_advance_line => Ok(Instruction::AdvanceLine(cursor.sleb()?)),
        DW_LNS_set_file => Ok(Instruction::SetFile(cursor.uleb()?)),
        DW_LNS_set_column => Ok(Instruction::SetColumn(cursor.uleb()?)),
        DW_LNS_negate_stmt => Ok(Instruction::NegateStmt),
        DW_LNS_set_basic_block => Ok(Instruction::SetBasicBlock),
        DW_LNS_const_add_pc => Ok(Instruction::ConstAddPc),
        DW_LNS_fixed_advance_pc => Ok(Instruction::FixedAdvancePc(cursor.u16()?)),
        DW_LNS_set_prologue_end => Ok(Instruction::SetPrologueEnd),
        DW_LNS_set_epilogue_begin => Ok(Instruction::SetEpilogueBegin),
        DW_LNS_set_isa => Ok(Instruction::SetIsa(cursor.uleb()?)),
        _ => {
            let lengths = parameters.standard_opcode_lengths;
            let mut ahead = cursor.fork();
            let passed = pass_operands(lengths[opcode as usize - 1], &mut ahead)?;
            *cursor = ahead;
            Ok(passed)
        }
    }
}

// The operands of an opcode without a meaning, so many numbers, are passed.
fn pass_operands<'d>(count: u8, cursor: &mut Cursor<'d>) -> Result<Instruction<'d>, Flaw>
    ensures { Gives instruction_view (passed_operands_at count cursor.old) cursor.new result }
{
    for _ in 0..count {
        cursor.uleb()?;
    }
    Ok(Instruction::Unknown)
}

// An extended instruction behind its 0: a length, and in it an opcode and operands. The rest of the length is passed.
#[inline(always)]
#[tactic(auto, unfolding(dwc_dwarf::specs::LineHeaders::extended_instruction_at))]
fn extended_instruction<'d>(
    parameters: &Parameters<'d>,
    relocations: &Relocations<'d>,
    cursor: &mut Cursor<'d>,
) -> Result<Instruction<'d>, Flaw>
    ensures { Gives instruction_view (extended_instruction_at relocations.now (program_header parameters.now) cursor.old) cursor.new result }
{
    let size = cursor.uleb()?;
    let mut inside = cursor.part(size as usize)?;
    let opcode = inside.u8()?;
    extended_operands(parameters, relocations, opcode, &mut inside)
}

// The operands of an extended opcode; those of one without a meaning are left. Calls have a cursor of their own, so that a loop keeps
// its cursor in registers.
#[inline(always)]
#[tactic(auto, unfolding(dwc_dwarf::specs::LineHeaders::extended_at))]
fn extended_operands<'d>(
    parameters: &Parameters<'d>,
    relocations: &Relocations<'d>,
    opcode: u8,
    cursor: &mut Cursor<'d>,
) -> Result<Instruction<'d>, Flaw>
    ensures { Gives instruction_view (extended_at relocations.now (program_header parameters.now) opcode cursor.old) cursor.new result }
{
    match opcode {
        DW_LNE_end_sequence => Ok(Instruction::EndSequence),
        DW_LNE_set_address => {
            let mut ahead = cursor.fork();
            let address = address(relocations, parameters.address_size, &mut ahead)?;
            *cursor = ahead;
            Ok(Instruction::SetAddress(address))
        }
        DW_LNE_define_file if parameters.version < 5 => {
            let mut ahead = cursor.fork();
            let name = ahead.text()?;
            let file = file_of_name(name, &mut ahead)?;
            *cursor = ahead;
            Ok(Instruction::DefineFile(file))
        }
        DW_LNE_set_discriminator => Ok(Instruction::SetDiscriminator(cursor.uleb()?)),
        _ => Ok(Instruction::Unknown),
    }
}
