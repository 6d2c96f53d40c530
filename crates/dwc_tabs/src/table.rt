//! Line tables, and their rows. (DWARF 4 and 5, section 6.2.)
ghost use Rattle.std.specs.Prelude.{◌≡◌, ◌&&◌, IsTrue, length, map, option_map, slice_get};
ghost use Rattle.std.specs.List.{list_all};
ghost use Rattle.dwc_base.specs.Cursors.{slice_bytes};
ghost use Rattle.dwc_dwarf.specs.LineFiles.{has_all_files, is_named as is_named_directory};
ghost use Rattle.dwc_dwarf.specs.Indexed.{text_base};
ghost use Rattle.dwc_dwarf.specs.LineRows.{line_table, numbered, file_numbered};
ghost use Rattle.dwc_base.specs.FieldSizes.{is_field_size};
ghost use Rattle.dwc_tabs.specs.Headers.{file_view, source_view};
ghost use Rattle.dwc_tabs.specs.Programs.{GivesStep, are_within};
ghost use Rattle.dwc_tabs.specs.Faults.{AnswersTable};
ghost use Rattle.dwc_tabs.specs.Tables.{table_at, table_in, Bounds, is_named_within, ReadsTable};

use crate::fault::{TabFault, flawed};
use crate::header::{LineFile, line_header};
use crate::parameters::Parameters;
use crate::program::{ProgramCheck, check_program, next_step};
use crate::registers::{Registers, sequence_start};
use crate::source::{Source, source_of};
use crate::step::LineStep;
use crate::unread::unread_from;
use dwc_base::{Cursor, Flaw, NotRead, Relocations, SectionName};
use dwc_read::Unit;
use std::alloc::Global;
use std::marker::Model;

/// A line table that was read whole: all its instructions can be read, all its rows are in range, and all the files and
/// directories that it names are there.
#[derive(Drop)]
pub struct LineTable<'d> {
    parameters: Parameters<'d>,
    // From number 1 on.
    directories: Vec<&'d [u8]>,
    // Those of the header, and behind them those that the program defines.
    files: Vec<LineFile<'d>>,
    header_files: usize,
    relocations: Relocations<'d>,
    program: Cursor<'d>,
}

impl<'d> Model for LineTable<'d> {
    ghost use Rattle.dwc_dwarf.specs.LineRows as spec;

    ghost Value = { spec.LineTable };

    ghost use Rattle.dwc_tabs.specs.Tables.{table_view, IsWhole};

    ghost view = { table_view };

    ghost invariant = { IsWhole };
}

/// The steps of a line table, one at a time and in order. They take no memory.
#[derive(Drop)]
pub struct Rows<'d> {
    parameters: Parameters<'d>,
    relocations: Relocations<'d>,
    registers: Registers,
    cursor: Cursor<'d>,
}

impl<'d> Model for Rows<'d> {
    ghost use Rattle.std.specs.Prelude.{List};
    ghost use Rattle.dwc_dwarf.specs.LineRows as spec;

    ghost Value = { List spec.LineStep };

    ghost use Rattle.dwc_tabs.specs.Tables.{rows_view, RunsOn};

    ghost view = { rows_view };

    ghost invariant = { RunsOn };
}

impl<'d> LineTable<'d> {
    /// The line table at an offset of `.debug_line`, read whole, for a unit that names it: its texts by an index are the unit's.
    /// Versions 2 to 5 are read. It answers `Read` where the bytes are no line table, a row's offset or line is out of range, or
    /// the text that a path names elsewhere, by its offset or by an index, cannot be read; `Unsupported` for the 64-bit format, for
    /// several operations in one instruction, for any other version, and in version 5 for an address size other than 4 and 8, for
    /// segment selectors and for forms of supplementary files; and `InvalidFileIndex` where the table names a file or a directory
    /// that is not there, or has one without a name. (DWARF 4 and 5, section 6.2.4; DWARF 5, section 7.26.)
    pub fn read(alloc: Global, unit: &Unit<'d>, offset: u64) -> Result<LineTable<'d>, TabFault>
        ensures { AnswersTable offset (line_table unit.now.sections unit.now.header.address_size (text_base unit.now.sections unit.now.header) offset) result }
    {
        let source = source_of(unit);
        let line = unit.section(SectionName::Line);
        LineTable::read_at(alloc, source, line, unit.address_size(), offset)
    }

    // The line table at an offset of the bytes of a line section, for a unit of an address size.
    fn read_at(
        alloc: Global,
        source: Source<'d>,
        line: &'d [u8],
        address_size: u8,
        offset: u64,
    ) -> Result<LineTable<'d>, TabFault>
        requires { IsTrue (is_field_size address_size) }
        ensures { AnswersTable offset (table_in (source_view source.entry) line.now address_size offset) result }
    {
        let Some(cursor) = unread_from(line, source.order, offset) else {
            return Err(flawed(Flaw::EndsEarly, offset));
        };
        match read_table(alloc, source, address_size, cursor) {
            Err(NotRead::OutOfMemory) => Err(TabFault::OutOfMemory),
            Err(NotRead::Flawed(flaw)) => Err(flawed(flaw, offset)),
            Ok((table, check)) => {
                if table.has_all_files(check) {
                    Ok(table)
                } else {
                    Err(TabFault::InvalidFileIndex { offset })
                }
            }
        }
    }

    /// The version of the table.
    pub fn version(&self) -> u16
        ensures { result ≡ self.now.header.version }
    {
        self.parameters.version
    }

    /// How many directories the table has, without the compilation directory.
    pub fn directory_count(&self) -> u64
        ensures { result ≡ length self.now.header.directories }
    {
        self.directories.len() as u64
    }

    /// The name of a directory; None at 0, the compilation directory, and behind the last one. (DWARF 4, section 6.2.4, 11;
    /// DWARF 5, section 6.2.4, 12.)
    pub fn directory(&self, i: u64) -> Option<&'d [u8]>
        ensures { option_map slice_bytes result ≡ numbered i self.now.header.directories }
    {
        at_number(&self.directories, i).copied()
    }

    /// The directories, from number 1 on.
    pub fn directories(&self) -> &[&'d [u8]]
        ensures { map slice_bytes result.now ≡ self.now.header.directories }
    {
        &self.directories
    }

    /// How many files the table has, those that its program defines among them.
    pub fn file_count(&self) -> u64
        ensures { result ≡ length self.now.files }
    {
        self.files.len() as u64
    }

    /// The files in order, those that its program defines behind the others.
    pub fn files(&self) -> &[LineFile<'d>]
        ensures { map file_view result.now ≡ self.now.files }
    {
        &self.files
    }

    /// The file of a number; files count from 1, from version 5 on from 0. (DWARF 4, section 6.2.4, 12; DWARF 5, section 6.2.4,
    /// 17.)
    pub fn file(&self, i: u64) -> Option<LineFile<'d>>
        ensures { option_map file_view result ≡ file_numbered self.now i }
    {
        if self.parameters.version < 5 {
            at_number(&self.files, i).copied()
        } else {
            at_place(&self.files, i).copied()
        }
    }

    /// The steps of the table's program, from its begin on.
    pub fn rows(&self) -> Rows<'d>
        ensures { result ≡ self.now.steps }
    {
        Rows {
            parameters: self.parameters,
            relocations: self.relocations.again(),
            registers: sequence_start(&self.parameters),
            cursor: self.program.fork(),
        }
    }

    // Whether all files and directories are there that the table names, by what was noted of its rows.
    fn has_all_files(&self, check: ProgramCheck) -> bool
        requires { Bounds check self.now.steps }
        ensures { result ≡ has_all_files self.now }
    {
        are_there(
            check,
            self.parameters.version,
            &self.files,
            &self.directories,
        )
    }
}

impl<'d> Rows<'d> {
    /// The next step; None at the end.
    pub fn next(&mut self) -> Option<LineStep>
        ensures { GivesStep result self.old self.new }
    {
        next_step(
            &self.parameters,
            &self.relocations,
            &mut self.registers,
            &mut self.cursor,
        )
    }
}

// What stands at a number, from 1 on.
fn at_number<T>(list: &[T], number: u64) -> Option<&T>
    ensures { option_map (λ x. x.now) result ≡ numbered number list.now }
{
    if number == 0 {
        return None;
    }
    list.get(number as usize - 1)
}

// What stands at a place, from 0 on.
fn at_place<T>(list: &[T], place: u64) -> Option<&T>
    ensures { option_map (λ x. x.now) result ≡ slice_get list.now place }
{
    list.get(place as usize)
}

// Whether the files are there that rows name, and the directories that files name, and none is without a name.
fn are_there(
    check: ProgramCheck,
    version: u16,
    files: &[LineFile<'_>],
    directories: &[&[u8]],
) -> bool
    ensures { result ≡ (are_within version (length files.now) check.files && list_all (is_named_within (length directories.now)) (map file_view files.now) && list_all is_named_directory (map slice_bytes directories.now)) }
{
    have_files(check, version, files.len())
        && are_named(files, directories.len())
        && have_names(directories)
}

// Whether rows name only files that are there, of as many as said.
fn have_files(check: ProgramCheck, version: u16, files: usize) -> bool
    ensures { result ≡ are_within version files check.files }
{
    match check.files {
        None => true,
        Some(numbers) if version < 5 => numbers.lowest >= 1 && numbers.highest <= files as u64,
        Some(numbers) => numbers.highest < files as u64,
    }
}

// Whether files have names, and directories that are there.
pub(crate) fn are_named(files: &[LineFile<'_>], directories: usize) -> bool
    ensures { result ≡ list_all (is_named_within directories) (map file_view files.now) }
{
    files.iter().all(|file| is_named(*file, directories))
}

// Whether a directory has a name.
fn has_name(name: &[u8]) -> bool
    ensures { result ≡ is_named_directory name.now }
{
    !name.is_empty()
}

// Whether directories have names.
pub(crate) fn have_names(directories: &[&[u8]]) -> bool
    ensures { result ≡ list_all is_named_directory (map slice_bytes directories.now) }
{
    directories.iter().all(|name| has_name(name))
}

// Whether a file has a name, and one of the directories or the compilation directory.
fn is_named(file: LineFile<'_>, directories: usize) -> bool
    ensures { result ≡ is_named_within directories (file_view file.entry) }
{
    file.directory <= directories as u64 && !file.name.is_empty()
}

// The table at the front, with what was noted of its rows.
fn read_table<'d>(
    alloc: Global,
    source: Source<'d>,
    address_size: u8,
    cursor: Cursor<'d>,
) -> Result<(LineTable<'d>, ProgramCheck), NotRead>
    requires { IsTrue (is_field_size address_size) }
    ensures { ReadsTable (table_at (source_view source.entry) address_size cursor.entry) result }
{
    let header = line_header(alloc, &source, address_size, cursor)?;
    let relocations = source.relocations;
    let parameters = header.parameters;
    let mut files = header.files;
    let header_files = files.len();
    let check = check_program(&parameters, &relocations, header.program.fork(), &mut files)?;
    if !check.in_range {
        return Err(NotRead::Flawed(Flaw::Malformed));
    }
    let table = LineTable {
        parameters,
        directories: header.directories,
        files,
        header_files,
        relocations,
        program: header.program,
    };
    Ok((table, check))
}
