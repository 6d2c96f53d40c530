//! Line tables that are read once: the rows of each segment are given as they are read.
ghost use Rattle.std.specs.Prelude.{◌≡◌, ◌<◌, ◌^◌, ◌&&◌, None, IfOk, OnOk, IsTrue, length, map};
ghost use Rattle.std.specs.List.{list_all};
ghost use Rattle.dwc_base.specs.Cursors.{slice_bytes};
ghost use Rattle.dwc_base.specs.FieldSizes.{is_field_size};
ghost use Rattle.dwc_dwarf.specs.Indexed.{text_base};
ghost use Rattle.dwc_dwarf.specs.LineFiles.{is_named};
ghost use Rattle.dwc_dwarf.specs.LineRows.{file_defined};
ghost use Rattle.dwc_tabs.specs.Headers.{file_view, source_view};
ghost use Rattle.dwc_tabs.specs.Instructions.{instruction_view};
ghost use Rattle.dwc_tabs.specs.Steps.{registers_view};
ghost use Rattle.dwc_tabs.specs.Tables.{is_named_within};
ghost use Rattle.dwc_tabs.specs.OpenTables.{RowWithin, Decodes, HasRoom, Opens, OpensAt, TakesRows};

use crate::header::{LineFile, line_header};
use crate::instruction::{Instruction, read_instruction};
use crate::parameters::Parameters;
use crate::registers::{Registers, execute, sequence_start};
use crate::source::{Source, source_of};
use crate::step::{LineStep, LineStop, Shown};
use crate::table::{are_named, have_names};
use crate::unread::unread_from;
use dwc_base::{Cursor, Flaw, LineRow, NotRead, Relocations, SectionName};
use dwc_read::Unit;
use std::alloc::Global;
use std::marker::Model;

/// A line table whose header is read, and whose program is read as its rows are taken. Only behind the last row is it known that
/// all of it can be read, and that all files are there. A program that defines files is none such.
#[derive(Drop)]
pub struct OpenTable<'d> {
    parameters: Parameters<'d>,
    // From number 1 on.
    directories: Vec<&'d [u8]>,
    files: Vec<LineFile<'d>>,
    relocations: Relocations<'d>,
    program: Cursor<'d>,
    // Behind the rows that are taken.
    registers: Registers,
    cursor: Cursor<'d>,
}

impl<'d> Model for OpenTable<'d> {
    ghost use Rattle.dwc_tabs.specs.Tables.{is_named_within};
    ghost use Rattle.dwc_tabs.specs.OpenTables.{OpenLines, open_view, RunsInRoom};

    ghost Value = { OpenLines };

    ghost view = { open_view };

    ghost invariant = { RunsInRoom };
}

impl<'d> OpenTable<'d> {
    /// The line table at an offset of `.debug_line`, for a unit that names it.
    ///
    /// # Errors
    /// Where `LineTable::read` refuses its header or the names in it, or for want of memory. That tells which.
    pub fn begin(alloc: Global, unit: &Unit<'d>, offset: u64) -> Result<OpenTable<'d>, NotRead>
        ensures { IfOk result (Opens unit.now.sections unit.now.header.address_size (text_base unit.now.sections unit.now.header) offset) }
    {
        let source = source_of(unit);
        let line = unit.section(SectionName::Line);
        let Some(cursor) = unread_from(line, source.order, offset) else {
            return Err(NotRead::Flawed(Flaw::EndsEarly));
        };
        open_at(alloc, source, unit.address_size(), cursor)
    }

    /// The version of the table.
    pub fn version(&self) -> u16
        ensures { result ≡ self.now.table.header.version }
    {
        self.parameters.version
    }

    /// The directories, from number 1 on.
    pub fn directories(&self) -> &[&'d [u8]]
        ensures { map slice_bytes result.now ≡ self.now.table.header.directories }
    {
        &self.directories
    }

    /// How many files the table has.
    pub fn file_count(&self) -> u64
        ensures { result ≡ length self.now.table.files }
    {
        self.files.len() as u64
    }

    /// The files in order.
    pub fn files(&self) -> &[LineFile<'d>]
        ensures { map file_view result.now ≡ self.now.table.files }
    {
        &self.files
    }

    /// Takes the rows up to the next stop in place of the given ones, their files counted from 1 in every version; None behind the
    /// last stop.
    ///
    /// # Errors
    /// Where something is not sound, or for want of memory. `LineTable::read` tells which.
    pub fn next_rows(&mut self, rows: &mut Vec<LineRow>) -> Result<Option<LineStop>, NotRead>
        ensures { IfOk result (λ stop. TakesRows self.old self.new rows.new.items stop) }
    {
        let (stop, registers, cursor) = decode(
            &self.parameters,
            &self.relocations,
            self.files.len() as u64,
            self.registers,
            self.cursor.fork(),
            rows,
        )?;
        self.registers = registers;
        self.cursor = cursor;
        Ok(stop)
    }
}

// The table at the front.
fn open_at<'d>(
    alloc: Global,
    source: Source<'d>,
    address_size: u8,
    cursor: Cursor<'d>,
) -> Result<OpenTable<'d>, NotRead>
    requires { IsTrue (is_field_size address_size) }
    ensures { IfOk result (OpensAt (source_view source.entry) address_size cursor.entry) }
{
    let header = line_header(alloc, &source, address_size, cursor)?;
    if !are_all_named(&header.files, &header.directories) {
        return Err(NotRead::Flawed(Flaw::Malformed));
    }
    know_size(header.program.left());
    let parameters = header.parameters;
    Ok(OpenTable {
        parameters,
        directories: header.directories,
        files: header.files,
        relocations: source.relocations,
        registers: sequence_start(&parameters),
        cursor: header.program.fork(),
        program: header.program,
    })
}

// Whether files have names, and directories that are there and have names too.
fn are_all_named(files: &[LineFile<'_>], directories: &[&[u8]]) -> bool
    ensures { result ≡ (list_all (is_named_within (length directories.now)) (map file_view files.now) && list_all is_named (map slice_bytes directories.now)) }
{
    are_named(files, directories.len()) && have_names(directories)
}

// That a size has 64 bits.
fn know_size(size: usize)
    ensures { size < 2 ^ 64 }
{}

// Reads and runs a program up to the next stop, None at its end. The rows go in place of the given ones, their files counted from 1.
fn decode<'d>(
    parameters: &Parameters<'d>,
    relocations: &Relocations<'d>,
    files: u64,
    mut registers: Registers,
    mut cursor: Cursor<'d>,
    rows: &mut Vec<LineRow>,
) -> Result<(Option<LineStop>, Registers, Cursor<'d>), NotRead>
    requires { HasRoom (registers_view registers) cursor }
    ensures { IfOk result (Decodes parameters.now relocations.now files (registers_view registers) cursor.entry rows.new.items) }
{
    rows.clear();
    while cursor.left() > 0 {
        let instruction = read_instruction(parameters, relocations, &mut cursor)?;
        match execute(&mut registers, parameters, instruction) {
            Shown::Nothing => check_unnamed(instruction)?,
            Shown::Step(LineStep::Row(row)) => {
                rows.push(row_within(parameters.version, files, row)?)?;
            }
            Shown::Step(LineStep::Start(address)) => {
                return Ok((Some(LineStop::Start(address)), registers, cursor));
            }
            Shown::Step(LineStep::End(offset)) => {
                return Ok((Some(LineStop::End(offset)), registers, cursor));
            }
            Shown::OutOfRange => return Err(NotRead::Flawed(Flaw::Malformed)),
        }
    }
    Ok((None, registers, cursor))
}

// Refuses an instruction that defines a file: rows before it may name that.
fn check_unnamed(instruction: Instruction<'_>) -> Result<(), Flaw>
    ensures { OnOk result (file_defined (instruction_view instruction.entry) ≡ None) }
{
    match instruction {
        Instruction::DefineFile(_) => Err(Flaw::Malformed),
        _ => Ok(()),
    }
}

// A row with its file's number counted from 1, where that is one of so many.
#[inline(always)]
fn row_within(version: u16, files: u64, row: LineRow) -> Result<LineRow, Flaw>
    ensures { RowWithin version files row result }
{
    if version < 5 {
        if row.file == 0 || row.file > files {
            return Err(Flaw::Malformed);
        }
        return Ok(row);
    }
    if row.file >= files {
        return Err(Flaw::Malformed);
    }
    Ok(LineRow {
        file: row.file + 1,
        ..row
    })
}
