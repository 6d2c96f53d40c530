//! The line program that carries a line table.
ghost use Rattle.std.specs.Prelude.{◌≡◌, ◌+◌, ◌<◌, ◌^◌, None, [], IsSome, OnOk, IfOk, IsOkUnless, length, map, All};
ghost use Rattle.dwc_base.specs.Cursors.{slice_bytes};
ghost use Rattle.dwc_tabs.specs.Headers.{file_view};
ghost use Rattle.dwc_unit.specs.SpelledLines.{FitsName};
ghost use Rattle.dwc_image.specs.ImageRows.{IsOrdered};
ghost use Rattle.dwc_image.specs.ImageSequences.{FitsStep, AllRise, sequences_from, with_sequences};
ghost use Rattle.dwc_image.specs.CarriedLines.{carried_number, carried_row, carried_steps, FitsDirectories, IsRead, AreKept, CarriesTable, with_directories, with_files};

use crate::sequence::add_image;
use dwc_addr::AddressTransform;
use dwc_base::{Encoding, LineRow};
use dwc_section::WriteError;
use dwc_tabs::{LineFile, LineStep, LineTable};
use dwc_unit::LineProgram;
use std::alloc::Global;

/// The line program that carries a line table of any version for the functions of a module: the table's directories and files
/// in order, and one sequence for each segment that has an image. Files count from 1 there, as up to version 4, so that those
/// of version 5, which count from 0, have the number above. (DWARF 4, section 6.2.4; DWARF 5, section 6.2.4.)
///
/// # Errors
/// `OutOfMemory` for want of memory, and nothing else.
pub fn carried_lines(
    alloc: Global,
    table: &LineTable<'_>,
    transform: &AddressTransform<'_>,
    encoding: Encoding,
) -> Result<LineProgram, WriteError>
    requires table { IsRead table.now }
    requires functions { AreKept transform.now }
    ensures carries { IfOk result (λ p. CarriesTable table.now transform.now encoding.address_size p) }
    ensures memory { IsOkUnless result WriteError.OutOfMemory }
{
    let mut program = LineProgram::new(alloc, encoding)?;
    add_directories(&mut program, table.directories())?;
    add_files(&mut program, table.files())?;
    add_images(alloc, &mut program, table, transform)?;
    Ok(program)
}

// Adds the directories of a table.
pub(crate) fn add_directories(
    program: &mut LineProgram,
    directories: &[&[u8]],
) -> Result<(), WriteError>
    requires { All FitsName (map slice_bytes directories.now) }
    ensures added { OnOk result (program.new ≡ with_directories (map slice_bytes directories.now) program.old) }
    ensures memory { IsOkUnless result WriteError.OutOfMemory }
{
    for directory in directories {
        program.add_directory(directory)?;
    }
    Ok(())
}

// Adds the files of a table, whose directories are added.
pub(crate) fn add_files(program: &mut LineProgram, files: &[LineFile<'_>]) -> Result<(), WriteError>
    requires { All (FitsDirectories (length program.old.directories)) (map file_view files.now) }
    ensures added { OnOk result (program.new ≡ with_files (map file_view files.now) program.old) }
    ensures counted { OnOk result (length files.now < 2 ^ 64) }
    ensures memory { IsOkUnless result WriteError.OutOfMemory }
{
    for file in files {
        program.add_file(file.directory, file.name)?;
    }
    Ok(())
}

// A row with its file's number in the output, where files count from 1.
fn carried_row(table: &LineTable<'_>, row: LineRow) -> LineRow
    requires { carried_number table.now.header.version row.file < 2 ^ 64 }
    ensures { result ≡ carried_row table.now.header.version row }
{
    if table.version() < 5 {
        row
    } else {
        LineRow {
            file: row.file + 1,
            ..row
        }
    }
}

// Adds the images of the segments of a table, whose files are added.
fn add_images(
    alloc: Global,
    program: &mut LineProgram,
    table: &LineTable<'_>,
    transform: &AddressTransform<'_>,
) -> Result<(), WriteError>
    requires sized { IsSome program.old.address_size }
    requires ended { program.old.begun ≡ None }
    requires counted { length program.old.files < 2 ^ 64 }
    requires steps { All (FitsStep (length program.old.files)) (carried_steps table.now) }
    requires rise { AllRise None [] (carried_steps table.now) }
    requires functions { All IsOrdered transform.now }
    ensures added { OnOk result (program.new ≡ with_sequences (sequences_from transform.now None [] (carried_steps table.now)) program.old) }
    ensures memory { IsOkUnless result WriteError.OutOfMemory }
{
    let mut steps = table.rows();
    let mut start = None;
    let mut rows = Vec::new(alloc);
    while let Some(step) = steps.next() {
        match step {
            LineStep::Start(address) => {
                add_image(program, transform, start, &rows)?;
                start = Some(address);
                rows.clear();
            }
            LineStep::End(_) => {
                add_image(program, transform, start, &rows)?;
                start = None;
                rows.clear();
            }
            LineStep::Row(row) => rows.push(carried_row(table, row))?,
        }
    }
    Ok(())
}
