//! The line program that carries a line table that is read along with it.
ghost use Rattle.std.specs.Prelude.{◌≡◌, None, Some, [], true, IsSome, IfSome, IfOk, All, length};
ghost use Rattle.dwc_unit.specs.GivenLines.{no_lines};
ghost use Rattle.dwc_image.specs.ImageRows.{IsOrdered};
ghost use Rattle.dwc_image.specs.ImageSequences.{sequences_from, with_sequences};
ghost use Rattle.dwc_image.specs.CarriedLines.{AreKept, CarriesTable, carried_steps, with_directories, with_files};
ghost use Rattle.dwc_image.specs.OpenedTables.{IsOpen, start_behind};

use crate::lines::{add_directories, add_files};
use crate::sequence::add_image;
use dwc_addr::AddressTransform;
use dwc_base::{Address, Encoding};
use dwc_section::WriteError;
use dwc_tabs::{LineStop, OpenTable};
use dwc_unit::LineProgram;
use std::alloc::Global;

/// What `carried_lines` makes of a table, where all of it can be read and all its files are there. None where not, and for want of
/// memory: then `LineTable::read` and `carried_lines` tell which.
pub fn carried_open_lines(
    alloc: Global,
    table: &mut OpenTable<'_>,
    transform: &AddressTransform<'_>,
    encoding: Encoding,
) -> Option<LineProgram>
    requires table { IsOpen table.old }
    requires functions { AreKept transform.now }
    ensures sound { IfSome result (λ p. table.old.sound ≡ true) }
    ensures carries { IfSome result (λ p. CarriesTable table.old.table transform.now encoding.address_size p) }
{
    let Ok(mut program) = begun_program(alloc, table, encoding) else {
        return None;
    };
    if add_open_images(alloc, &mut program, table, transform) {
        Some(program)
    } else {
        None
    }
}

// A line program with the directories and files of a table.
fn begun_program(
    alloc: Global,
    table: &OpenTable<'_>,
    encoding: Encoding,
) -> Result<LineProgram, WriteError>
    requires { IsOpen table.now }
    ensures { IfOk result (λ p. p ≡ with_files table.now.table.files (with_directories table.now.table.header.directories (no_lines (Some encoding.address_size)))) }
{
    let mut program = LineProgram::new(alloc, encoding)?;
    add_directories(&mut program, table.directories())?;
    add_files(&mut program, table.files())?;
    Ok(program)
}

// The start of the rows behind a stop.
fn start_behind(stop: LineStop) -> Option<Address>
    ensures { result ≡ start_behind stop }
{
    match stop {
        LineStop::Start(address) => Some(address),
        LineStop::End(_) => None,
    }
}

// Adds the images of the segments of a table, whose files are added. It answers whether all of the table is sound, and there was memory.
fn add_open_images(
    alloc: Global,
    program: &mut LineProgram,
    table: &mut OpenTable<'_>,
    transform: &AddressTransform<'_>,
) -> bool
    requires sized { IsSome program.old.address_size }
    requires ended { program.old.begun ≡ None }
    requires files { length program.old.files ≡ length table.old.table.files }
    requires functions { All IsOrdered transform.now }
    ensures sound { result ≡ true → table.old.sound ≡ true }
    ensures added { result ≡ true → program.new ≡ with_sequences (sequences_from transform.now None [] (carried_steps table.old.table)) program.old }
{
    let mut start = None;
    let mut rows = Vec::new(alloc);
    while let Ok(taken) = table.next_rows(&mut rows) {
        let Some(stop) = taken else {
            return true;
        };
        match add_image(program, transform, start, &rows) {
            Ok(()) => start = start_behind(stop),
            Err(_) => return false,
        }
    }
    false
}
