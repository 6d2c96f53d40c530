//! Line programs as they are given: directories, files, and sequences of rows. (DWARF 4, section 6.2.)
ghost use Rattle.std.specs.Prelude.{◌≡◌, ◌+◌, ◌≤◌, ◌<◌, ◌^◌, [], OnOk, OnErr, IfOk, IsOkUnless, Some, None, length};
ghost use Rattle.dwc_unit.specs.SpelledLines.{FitsName};
ghost use Rattle.dwc_section.specs.declared.error.WriteError.TheVariants.{OutOfMemory};
ghost use Rattle.dwc_section.specs.Writers.{OkUnlessMemory};
ghost use Rattle.dwc_unit.specs.GivenLines.{no_lines, with_directory, with_file, with_begun, with_row, with_end, row_at, CanBegin, CanAppend, CanEnd};

use crate::names::{Files, Names};
use crate::spelled_rows::{EndedRows, SpelledRows};
use dwc_base::{Address, Encoding, LineRow};
use dwc_section::WriteError;
use std::alloc::Global;
use std::marker::Model;

/// A sequence that is ended.
#[derive(Drop)]
pub struct Sequence {
    /// Where it starts.
    pub start_address: Address,
    /// Its rows, and its end.
    pub rows: EndedRows,
}

/// The line program of a unit: directories and files by their numbers, and sequences of rows.
#[derive(Drop)]
pub struct LineProgram {
    /// The size of an address in bytes; none where there is no line program.
    pub address_size: Option<u8>,
    /// The directories, by their numbers from 1 on.
    pub directories: Names,
    /// The files, by their numbers from 1 on.
    pub files: Files,
    /// The sequences that are ended, in the order in which they were begun.
    pub sequences: Vec<Sequence>,
    start_address: Option<Address>,
    rows: SpelledRows,
}

impl Model for LineProgram {
    ghost use Rattle.std.specs.Prelude.{map, option_map};
    ghost use Rattle.dwc_unit.specs.GivenLines.{GivenLines, FitsLines};
    ghost use Rattle.dwc_unit.specs.LineViews.{sequence_view};

    ghost Value = { GivenLines };

    ghost view = { λ p. record {
      address_size = p.address_size;
      directories = p.directories;
      files = p.files;
      sequences = map sequence_view p.sequences.items;
      begun = option_map (λ a. record { start_address = a; rows = p.rows }) p.start_address;
    } };

    ghost invariant = { λ p. FitsLines (record {
      address_size = p.address_size;
      directories = p.directories;
      files = p.files;
      sequences = map sequence_view p.sequences.items;
      begun = option_map (λ a. record { start_address = a; rows = p.rows }) p.start_address;
    }) };
}

impl LineProgram {
    /// No line program.
    pub fn none(alloc: Global) -> LineProgram
        ensures { result ≡ no_lines None }
    {
        LineProgram {
            address_size: None,
            directories: Names::new(alloc),
            files: Files::new(alloc),
            sequences: Vec::new(alloc),
            start_address: None,
            rows: SpelledRows::new(alloc),
        }
    }

    /// An empty line program for a unit of this encoding, of version 4 or 5.
    pub fn new(alloc: Global, encoding: Encoding) -> Result<LineProgram, WriteError>
        ensures { OkUnlessMemory result (λ p. p ≡ no_lines (Some encoding.address_size)) }
    {
        Ok(LineProgram {
            address_size: Some(encoding.address_size),
            directories: Names::new(alloc),
            files: Files::new(alloc),
            sequences: Vec::new(alloc),
            start_address: None,
            rows: SpelledRows::new(alloc),
        })
    }

    /// Adds a directory; its number, from 1.
    pub fn add_directory(&mut self, name: &[u8]) -> Result<u64, WriteError>
        requires { FitsName name.now }
        ensures ok { OnOk result (self.new ≡ with_directory name.now self.old) }
        ensures number { IfOk result (λ n. n ≡ length self.old.directories + 1) }
        ensures err { OnErr result (self.new ≡ self.old) }
        ensures memory { IsOkUnless result OutOfMemory }
    {
        self.directories.push(name)?;
        Ok(self.directories.len() as u64)
    }

    /// Adds a file in a directory that was added, or in directory 0; its number, from 1.
    pub fn add_file(&mut self, directory: u64, name: &[u8]) -> Result<u64, WriteError>
        requires name { FitsName name.now }
        requires directory { directory ≤ length self.old.directories }
        ensures ok { OnOk result (self.new ≡ with_file (record { directory = directory; name = name.now }) self.old) }
        ensures number { IfOk result (λ n. n ≡ length self.old.files + 1) }
        ensures err { OnErr result (self.new ≡ self.old) }
        ensures memory { IsOkUnless result OutOfMemory }
    {
        self.files.push(directory, name)?;
        Ok(self.files.len() as u64)
    }

    /// Begins a sequence at an address.
    pub fn begin_sequence(&mut self, start: Address) -> Result<(), WriteError>
        requires { CanBegin self.old start }
        ensures ok { OnOk result (self.new ≡ with_begun (Some (record { start_address = start; rows = [] })) self.old) }
        ensures err { OnErr result (self.new ≡ self.old) }
        ensures memory { IsOkUnless result OutOfMemory }
    {
        self.start_address = Some(start);
        self.rows.clear();
        Ok(())
    }

    /// Appends a row to the sequence that is begun.
    pub fn generate_row(&mut self, row: LineRow) -> Result<(), WriteError>
        requires { CanAppend self.old row }
        ensures ok { OnOk result (self.new ≡ with_row row self.old) }
        ensures err { OnErr result (self.new ≡ self.old) }
        ensures memory { IsOkUnless result OutOfMemory }
    {
        self.generate_row_at(&row, row.offset)
    }

    /// Appends a row, at another offset than its own, to the sequence that is begun.
    #[inline(always)]
    pub fn generate_row_at(&mut self, row: &LineRow, offset: u64) -> Result<(), WriteError>
        requires { CanAppend self.old (row_at offset row.now) }
        ensures ok { OnOk result (self.new ≡ with_row (row_at offset row.now) self.old) }
        ensures err { OnErr result (self.new ≡ self.old) }
        ensures memory { IsOkUnless result OutOfMemory }
    {
        know_numbers(row.file, row.column, row.isa, row.discriminator);
        self.rows.push(row, offset)?;
        Ok(())
    }

    /// Ends the sequence that is begun at an offset from its start.
    pub fn end_sequence(&mut self, offset: u64) -> Result<(), WriteError>
        requires { CanEnd self.old offset }
        ensures ok { OnOk result (self.new ≡ with_end offset self.old) }
        ensures err { OnErr result (self.new ≡ self.old) }
        ensures memory { IsOkUnless result OutOfMemory }
    {
        let Some(start_address) = self.start_address else {
            unreachable!();
        };
        let rows = self.rows.ended(offset)?;
        let sequence = Sequence {
            start_address,
            rows,
        };
        self.sequences.push(sequence)?;
        self.start_address = None;
        Ok(())
    }
}

// How large the numbers of a row are.
fn know_numbers(file: u64, column: u64, isa: u64, discriminator: u64)
    ensures file { file < 2 ^ 64 }
    ensures column { column < 2 ^ 64 }
    ensures isa { isa < 2 ^ 64 }
    ensures discriminator { discriminator < 2 ^ 64 }
{}
