//! A line program is checked once, and then run step by step.
ghost use Rattle.std.specs.Prelude.{◌≡◌, map};
ghost use Rattle.dwc_tabs.specs.Headers.{file_view};
ghost use Rattle.dwc_tabs.specs.Steps.{registers_view, shown_view};
ghost use Rattle.dwc_tabs.specs.Programs.{numbers_with, noted, Checks, CanRun, steps_from, GivesStep, DefinesFile};

use crate::header::LineFile;
use crate::instruction::{Instruction, read_instruction};
use crate::parameters::Parameters;
use crate::registers::{Registers, execute, sequence_start};
use crate::step::{LineStep, Shown};
use dwc_base::{Cursor, NotRead, Relocations};

/// Between which numbers those of some files lie.
#[derive(Clone, Copy)]
pub struct FileNumbers {
    pub lowest: u64,
    pub highest: u64,
}

/// What a check of a program noted of its rows.
#[derive(Clone, Copy)]
pub struct ProgramCheck {
    /// Whether all are in range.
    pub in_range: bool,
    /// The files that they name, if there are rows.
    pub files: Option<FileNumbers>,
}

/// Reads and runs a whole program. The files that it defines go behind the given ones.
pub fn check_program<'d>(
    parameters: &Parameters<'d>,
    relocations: &Relocations<'d>,
    mut cursor: Cursor<'d>,
    files: &mut Vec<LineFile<'d>>,
) -> Result<ProgramCheck, NotRead>
    ensures { Checks parameters.now relocations.now cursor.entry (map file_view files.old.items) (map file_view files.new.items) result }
{
    let mut registers = sequence_start(parameters);
    let mut check = ProgramCheck {
        in_range: true,
        files: None,
    };
    let mut left = cursor.left();
    while left > 0 {
        let instruction = read_instruction(parameters, relocations, &mut cursor)?;
        define_file(files, instruction)?;
        let shown = execute(&mut registers, parameters, instruction);
        check = note(check, shown);
        left = cursor.left();
    }
    Ok(check)
}

// The file that an instruction defines goes behind the others.
fn define_file<'d>(
    files: &mut Vec<LineFile<'d>>,
    instruction: Instruction<'d>,
) -> Result<(), NotRead>
    ensures { DefinesFile instruction.entry (map file_view files.old.items) (map file_view files.new.items) result }
{
    if let Instruction::DefineFile(file) = instruction {
        files.push(file)?;
    }
    Ok(())
}

// The numbers of some files with a further one.
fn with_number(files: Option<FileNumbers>, file: u64) -> FileNumbers
    ensures { result ≡ numbers_with files file }
{
    match files {
        None => FileNumbers {
            lowest: file,
            highest: file,
        },
        Some(numbers) => FileNumbers {
            lowest: numbers.lowest.min(file),
            highest: numbers.highest.max(file),
        },
    }
}

// What was noted, with what one instruction shows.
fn note(check: ProgramCheck, shown: Shown) -> ProgramCheck
    ensures { result ≡ noted (shown_view shown) check }
{
    match shown {
        Shown::Step(LineStep::Row(row)) => ProgramCheck {
            in_range: check.in_range,
            files: Some(with_number(check.files, row.file)),
        },
        Shown::OutOfRange => ProgramCheck {
            in_range: false,
            files: check.files,
        },
        Shown::Nothing | Shown::Step(_) => check,
    }
}

/// Runs a checked program up to its next step; None at its end.
pub fn next_step<'d>(
    parameters: &Parameters<'d>,
    relocations: &Relocations<'d>,
    registers: &mut Registers,
    cursor: &mut Cursor<'d>,
) -> Option<LineStep>
    requires { CanRun parameters.now relocations.now (registers_view registers.old) cursor.old }
    ensures runs { CanRun parameters.now relocations.now (registers_view registers.new) cursor.new }
    ensures step { GivesStep result (steps_from parameters.now relocations.now (registers_view registers.old) cursor.old) (steps_from parameters.now relocations.now (registers_view registers.new) cursor.new) }
{
    while cursor.left() > 0 {
        let Ok(instruction) = read_instruction(parameters, relocations, cursor) else {
            return None;
        };
        match execute(registers, parameters, instruction) {
            Shown::Nothing => {}
            Shown::Step(step) => return Some(step),
            Shown::OutOfRange => return None,
        }
    }
    None
}
