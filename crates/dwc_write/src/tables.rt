//! Line tables, as they are written. (DWARF 4, section 6.2.4.)
ghost use Rattle.std.specs.Prelude.{◌≡◌, ◌++◌, ◌∷◌, [], ◌+◌, ◌⊎◌, OnOk, Some, map, length};
ghost use Rattle.std.specs.List.{All, flat_map};
ghost use Rattle.dwc_base.specs.NumberBytes.{number_bytes};
ghost use Rattle.dwc_section.specs.Spelled.{sized_bytes, text_bytes};
ghost use Rattle.dwc_section.specs.SpelledAddresses.{address_bytes};
ghost use Rattle.dwc_unit.specs.SpelledLines.{file_bytes, line_fields_bytes, line_table_bytes, program_place, sequences_instructions};
ghost use Rattle.dwc_write.specs.SpelledSections.{lines_bytes};
ghost use Rattle.dwc_write.specs.SpelledRelocations.{lines_relocations, sequence_bytes, sequence_relocations, sequences_relocations};
ghost use Rattle.dwc_unit.specs.GivenLines.{FitsGivenSequence, FitsLines};
ghost use Rattle.dwc_unit.specs.GivenUnits.{IsOfSize, IsWrittenVersion};
ghost use Rattle.dwc_write.specs.PathViews.{IsPathLayout};
ghost use Rattle.dwc_write.specs.Layouts.{written_lines};
ghost use Rattle.dwc_unit.specs.LineViews.{sequence_view};
ghost use Rattle.dwc_section.specs.Writers.{FitsField, Writes, address_relocations};

use crate::line_names::LineNames;
use crate::path_tables::write_path_table;
use dwc_base::constants::DW_LNE_set_address;
use dwc_base::{Address, Endian};
use dwc_section::append::{bytes_2, put_text};
use dwc_section::{WriteError, WriterRelocate, put_uleb};
use dwc_unit::LineProgram;
use dwc_unit::lines::Sequence;
use dwc_unit::names::{Files, Names};
use std::alloc::AllocError;

// The most bytes of the instruction that sets the address of a sequence.
const WIDEST_START: usize = 11;

// The line table of a program, where there is one, by the version of its unit, with the compilation directory of that and the names that stand
// elsewhere.
pub fn write_lines(
    line: &mut WriterRelocate,
    scratch: &mut Vec<u8>,
    order: Endian,
    version: u16,
    size: u8,
    own: &[u8],
    lines: &LineProgram,
    names: &LineNames,
) -> Result<(), WriteError>
    requires version { IsWrittenVersion version }
    requires order { order ≡ line.old.order }
    requires size { (size ≡ 4) ⊎ (size ≡ 8) }
    requires same { IsOfSize size lines.now.address_size }
    requires names { IsPathLayout names.now }
    ensures bytes { Writes line.old line.new result (lines_bytes line.old.order size (written_lines version names.now.texts own.now lines.now)) (lines_relocations line.old.order size (length line.old.body) (written_lines version names.now.texts own.now lines.now)) }
    ensures fits { FitsLines lines.now }
{
    let Some(_) = lines.address_size else {
        return Ok(());
    };
    if version < 5 {
        return write_old_table(line, scratch, order, size, lines);
    }
    write_path_table(line, scratch, size, own, lines, names)
}

// A table of version 4, whose names stand in it.
fn write_old_table(
    line: &mut WriterRelocate,
    scratch: &mut Vec<u8>,
    order: Endian,
    size: u8,
    lines: &LineProgram,
) -> Result<(), WriteError>
    requires order { order ≡ line.old.order }
    requires size { (size ≡ 4) ⊎ (size ≡ 8) }
    requires same { lines.now.address_size ≡ Some size }
    ensures { Writes line.old line.new result (line_table_bytes line.old.order size lines.now.directories lines.now.files (sequences_instructions lines.now.sequences)) (sequences_relocations line.old.order size (length line.old.body + program_place lines.now.directories lines.now.files) lines.now.sequences) }
{
    scratch.clear();
    put_fields(scratch, &lines.directories, &lines.files)?;
    let place = line.place();
    write_header(line, order, scratch)?;
    write_sequences(line, size, &lines.sequences)?;
    line.finish_length(place);
    Ok(())
}

// Room for the length, the version, and the fields of the header behind their length.
fn write_header(line: &mut WriterRelocate, order: Endian, fields: &[u8]) -> Result<(), WriteError>
    requires { order ≡ line.old.order }
    ensures { Writes line.old line.new result ((0 ∷ 0 ∷ 0 ∷ 0 ∷ []) ++ (number_bytes order 2 4 ++ sized_bytes order fields.now)) [] }
{
    let version = bytes_2(order, 4);
    line.put_bytes(&[0, 0, 0, 0, version[0], version[1]])?;
    line.put_sized_part(fields)
}

// Sequences, one behind another.
pub fn write_sequences(
    line: &mut WriterRelocate,
    size: u8,
    sequences: &[Sequence],
) -> Result<(), WriteError>
    requires size { (size ≡ 4) ⊎ (size ≡ 8) }
    requires fits { All (FitsGivenSequence size) (map sequence_view sequences.now) }
    ensures { Writes line.old line.new result (flat_map (sequence_bytes line.old.order size) (map sequence_view sequences.now)) (sequences_relocations line.old.order size (length line.old.body) (map sequence_view sequences.now)) }
{
    line.make_room(length_of(sequences), sequences.len());
    put_sequences(line, size, sequences)
}

// The same, where there is room.
fn put_sequences(
    line: &mut WriterRelocate,
    size: u8,
    sequences: &[Sequence],
) -> Result<(), WriteError>
    requires size { (size ≡ 4) ⊎ (size ≡ 8) }
    requires fits { All (FitsGivenSequence size) (map sequence_view sequences.now) }
    ensures { Writes line.old line.new result (flat_map (sequence_bytes line.old.order size) (map sequence_view sequences.now)) (sequences_relocations line.old.order size (length line.old.body) (map sequence_view sequences.now)) }
{
    for i in 0..sequences.len() {
        write_sequence(line, size, &sequences[i])?;
    }
    Ok(())
}

// About how many bytes sequences take.
fn length_of(sequences: &[Sequence]) -> usize {
    let mut length: usize = 0;
    for sequence in sequences {
        let rows = sequence.rows.code().len();
        length = length.saturating_add(rows).saturating_add(WIDEST_START);
    }
    length
}

// A sequence: its start, its rows and its end.
fn write_sequence(
    line: &mut WriterRelocate,
    size: u8,
    sequence: &Sequence,
) -> Result<(), WriteError>
    requires size { (size ≡ 4) ⊎ (size ≡ 8) }
    requires fits { FitsGivenSequence size (sequence_view sequence.now) }
    ensures { Writes line.old line.new result (sequence_bytes line.old.order size (sequence_view sequence.now)) (sequence_relocations line.old.order size (length line.old.body) (sequence_view sequence.now)) }
{
    write_start(line, size, sequence.start_address)?;
    line.put_bytes(sequence.rows.code())
}

// The instruction that sets the address of a sequence.
fn write_start(line: &mut WriterRelocate, size: u8, start: Address) -> Result<(), WriteError>
    requires size { (size ≡ 4) ⊎ (size ≡ 8) }
    requires fits { FitsField size start }
    ensures { Writes line.old line.new result ((0 ∷ (size + 1) ∷ 2 ∷ []) ++ address_bytes line.old.order size start) (address_relocations (length line.old.body + 3) size start) }
{
    line.put_bytes(&[0, size + 1, DW_LNE_set_address])?;
    line.put_address(start, size)
}

// The fields of a header: how instructions are spelled, the directories and the files.
fn put_fields(out: &mut Vec<u8>, directories: &Names, files: &Files) -> Result<(), AllocError>
    ensures { OnOk result (out.new.items ≡ out.old.items ++ line_fields_bytes directories.now files.now) }
{
    let minimum_length = 1;
    let operations = 1;
    let default_is_stmt = 1;
    let line_base = 251;
    let line_range = 14;
    let opcode_base = 13;
    out.extend_from_slice(&[
        minimum_length,
        operations,
        default_is_stmt,
        line_base,
        line_range,
        opcode_base,
    ])?;
    out.extend_from_slice(&STANDARD_OPCODE_LENGTHS)?;
    put_directories(out, directories)?;
    put_files(out, files)
}

// How many operands the standard opcodes have.
const STANDARD_OPCODE_LENGTHS: [u8; 12] = [0, 1, 1, 1, 1, 0, 0, 0, 1, 0, 0, 1];

// Directories, and the end of their list.
fn put_directories(out: &mut Vec<u8>, directories: &Names) -> Result<(), AllocError>
    ensures { OnOk result (out.new.items ≡ out.old.items ++ (flat_map text_bytes directories.now ++ 0 ∷ [])) }
{
    for i in 0..directories.len() {
        put_text(out, directories.get(i))?;
    }
    out.push(0)?;
    Ok(())
}

// Files, and the end of their list.
fn put_files(out: &mut Vec<u8>, files: &Files) -> Result<(), AllocError>
    ensures { OnOk result (out.new.items ≡ out.old.items ++ (flat_map file_bytes files.now ++ 0 ∷ [])) }
{
    for i in 0..files.len() {
        put_file(out, files.name(i), files.directory(i))?;
    }
    out.push(0)?;
    Ok(())
}

// A file: its name and its directory, without time and length.
fn put_file(out: &mut Vec<u8>, name: &[u8], directory: u64) -> Result<(), AllocError>
    ensures { OnOk result (out.new.items ≡ out.old.items ++ file_bytes (record { directory = directory; name = name.now })) }
{
    put_text(out, name)?;
    put_uleb(out, directory)?;
    out.extend_from_slice(&[0, 0])?;
    Ok(())
}
