//! The image of a segment as a sequence of a line program.
ghost use Rattle.std.specs.Prelude.{◌≡◌, None, IsSome, OnOk, IsOkUnless, length, All};
ghost use Rattle.dwc_image.specs.ImageRows.{IsOrdered};
ghost use Rattle.dwc_image.specs.ImageSequences.{FitsFiles, RiseIf, with_sequences, sequence_if};

use crate::image::add_rows;
use dwc_addr::AddressTransform;
use dwc_base::{Address, LineRow};
use dwc_section::WriteError;
use dwc_unit::LineProgram;

/// Adds the image of a segment of a line table by its start and its rows, where it has one; rows without a start are of no
/// segment.
///
/// # Errors
/// `OutOfMemory` for want of memory, and nothing else.
pub(crate) fn add_image(
    program: &mut LineProgram,
    transform: &AddressTransform<'_>,
    start: Option<Address>,
    rows: &[LineRow],
) -> Result<(), WriteError>
    requires sized { IsSome program.old.address_size }
    requires ended { program.old.begun ≡ None }
    requires order { RiseIf start rows.now }
    requires each { All (FitsFiles (length program.old.files)) rows.now }
    requires functions { All IsOrdered transform.now }
    ensures added { OnOk result (program.new ≡ with_sequences (sequence_if transform.now start rows.now) program.old) }
    ensures memory { IsOkUnless result WriteError.OutOfMemory }
{
    let Some(start) = start else {
        return Ok(());
    };
    let Address::Constant(start) = start else {
        return Ok(());
    };
    let Some(function) = transform.func_at(start) else {
        return Ok(());
    };
    let symbol = function.symbol.unwrap();
    let sources = &function.addresses;
    let found = add_rows(program, symbol, rows, start, sources, &function.later_runs)?;
    if found.is_none() {
        return Ok(());
    }
    program.end_sequence(function.len as u64)
}
