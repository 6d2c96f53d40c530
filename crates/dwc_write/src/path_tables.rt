//! Line tables of version 5, as they are written: names stand in `.debug_line_str`. (DWARF 5, section 6.2.4.)
ghost use Rattle.std.specs.Prelude.{◌≡◌, ◌++◌, ◌∷◌, [], ◌+◌, ◌⊎◌, Some, length, suc};
ghost use Rattle.std.specs.List.{flat_map};
ghost use Rattle.dwc_base.specs.NumberBytes.{uleb_bytes};
ghost use Rattle.dwc_dwarf.specs.LineHeaders.{LineFile};
ghost use Rattle.dwc_output.specs.Versions.{files_written};
ghost use Rattle.dwc_section.specs.Spelled.{sized_bytes};
ghost use Rattle.dwc_section.specs.Writers.{Writes};
ghost use Rattle.dwc_unit.specs.SpelledLines.{sequences_instructions};
ghost use Rattle.dwc_write.specs.PathTables.{names_relocations, path_bytes, path_directories_bytes, path_directories_relocations, path_fields_bytes, path_file_bytes, path_files_bytes, path_files_relocations, path_relocations, path_table_bytes, path_table_relocations};
ghost use Rattle.dwc_write.specs.PathViews.{IsPathLayout, directories_relocations_at, fields_relocations_at, files_relocations_at, path_front};

use crate::entries::write_uleb;
use crate::line_names::{LineNames, offset_of_name};
use crate::tables::write_sequences;
use dwc_base::SectionName;
use dwc_section::{WriteError, WriterRelocate};
use dwc_unit::LineProgram;
use dwc_unit::names::{Files, Names};

// The table of a program, which has one, in a unit with a compilation directory.
pub fn write_path_table(
    line: &mut WriterRelocate,
    scratch: &mut Vec<u8>,
    size: u8,
    own: &[u8],
    lines: &LineProgram,
    names: &LineNames,
) -> Result<(), WriteError>
    requires size { (size ≡ 4) ⊎ (size ≡ 8) }
    requires same { lines.now.address_size ≡ Some size }
    requires names { IsPathLayout names.now }
    ensures { Writes line.old line.new result (path_table_bytes line.old.order size names.now.texts own.now lines.now.directories lines.now.files (sequences_instructions lines.now.sequences)) (path_table_relocations line.old.order size (length line.old.body) names.now.texts own.now lines.now.directories lines.now.files lines.now.sequences) }
{
    let place = line.place();
    write_header(
        line,
        scratch,
        names,
        size,
        own,
        &lines.directories,
        &lines.files,
    )?;
    write_sequences(line, size, &lines.sequences)?;
    line.finish_length(place);
    Ok(())
}

// Room for the length, the version, the size of an address, no segment selector, and the header behind its length.
fn write_header(
    line: &mut WriterRelocate,
    scratch: &mut Vec<u8>,
    names: &LineNames,
    size: u8,
    own: &[u8],
    directories: &Names,
    files: &Files,
) -> Result<(), WriteError>
    requires { IsPathLayout names.now }
    ensures { Writes line.old line.new result (path_front line.old.order size (path_fields_bytes line.old.order names.now.texts own.now directories.now files.now)) (names_relocations line.old.order names.now.texts (length line.old.body) own.now directories.now files.now) }
{
    line.put_bytes(&[0, 0, 0, 0])?;
    line.put_number(2, 5)?;
    line.put_bytes(&[size, 0])?;
    write_sized_fields(line, scratch, names, own, directories, files)
}

// The fields of a header behind their length.
fn write_sized_fields(
    line: &mut WriterRelocate,
    scratch: &mut Vec<u8>,
    names: &LineNames,
    own: &[u8],
    directories: &Names,
    files: &Files,
) -> Result<(), WriteError>
    requires { IsPathLayout names.now }
    ensures { Writes line.old line.new result (sized_bytes line.old.order (path_fields_bytes line.old.order names.now.texts own.now directories.now files.now)) (fields_relocations_at line.old.order names.now.texts (length line.old.body + 4) own.now directories.now files.now) }
{
    let place = line.place();
    line.put_bytes(&[0, 0, 0, 0])?;
    write_fields(line, scratch, names, own, directories, files)?;
    line.finish_length(place);
    Ok(())
}

// The fields of a header: how instructions are spelled, the directories and the files.
fn write_fields(
    line: &mut WriterRelocate,
    scratch: &mut Vec<u8>,
    names: &LineNames,
    own: &[u8],
    directories: &Names,
    files: &Files,
) -> Result<(), WriteError>
    requires { IsPathLayout names.now }
    ensures { Writes line.old line.new result (path_fields_bytes line.old.order names.now.texts own.now directories.now files.now) (fields_relocations_at line.old.order names.now.texts (length line.old.body) own.now directories.now files.now) }
{
    line.put_bytes(&SPELLING)?;
    write_directories(line, scratch, names, own, directories)?;
    write_files(line, scratch, names, files)
}

// minimum_instruction_length, maximum_operations_per_instruction, default_is_stmt, line_base, line_range, opcode_base, and how many operands
// the standard opcodes have.
const SPELLING: [u8; 18] = [1, 1, 1, 251, 14, 13, 0, 1, 1, 1, 1, 0, 0, 0, 1, 0, 0, 1];

// Directories, behind what they are made of and how many there are. That of the unit is the first.
fn write_directories(
    line: &mut WriterRelocate,
    scratch: &mut Vec<u8>,
    names: &LineNames,
    own: &[u8],
    directories: &Names,
) -> Result<(), WriteError>
    requires { IsPathLayout names.now }
    ensures { Writes line.old line.new result (path_directories_bytes line.old.order names.now.texts (own.now ∷ directories.now)) (directories_relocations_at line.old.order names.now.texts (length line.old.body) (own.now ∷ directories.now)) }
{
    line.put_bytes(&[1, 1, 31])?;
    write_count(line, scratch, directories.len())?;
    write_name(line, names, own)?;
    put_directories(line, names, directories)
}

// A number that is one more than another.
fn write_count(
    line: &mut WriterRelocate,
    scratch: &mut Vec<u8>,
    before: usize,
) -> Result<(), WriteError>
    ensures { Writes line.old line.new result (uleb_bytes (suc before)) [] }
{
    let Some(count) = before.checked_add(1) else {
        return Err(WriteError::OutOfMemory);
    };
    write_uleb(line, scratch, count as u64)
}

// The offset of a name.
fn write_name(line: &mut WriterRelocate, names: &LineNames, name: &[u8]) -> Result<(), WriteError>
    requires { IsPathLayout names.now }
    ensures { Writes line.old line.new result (path_bytes line.old.order names.now.texts name.now) (path_relocations names.now.texts (length line.old.body) name.now) }
{
    let offset = offset_of_name(names, name);
    line.put_offset(offset, SectionName::LineStr)
}

// The offsets of directories.
fn put_directories(
    line: &mut WriterRelocate,
    names: &LineNames,
    directories: &Names,
) -> Result<(), WriteError>
    requires { IsPathLayout names.now }
    ensures { Writes line.old line.new result (flat_map (path_bytes line.old.order names.now.texts) directories.now) (path_directories_relocations line.old.order names.now.texts (length line.old.body) directories.now) }
{
    for i in 0..directories.len() {
        write_name(line, names, directories.get(i))?;
    }
    Ok(())
}

// Files, behind what they are made of and how many there are. The first stands for number 0 too.
fn write_files(
    line: &mut WriterRelocate,
    scratch: &mut Vec<u8>,
    names: &LineNames,
    files: &Files,
) -> Result<(), WriteError>
    requires { IsPathLayout names.now }
    ensures { Writes line.old line.new result (path_files_bytes line.old.order names.now.texts (files_written 5 files.now)) (files_relocations_at line.old.order names.now.texts (length line.old.body) (files_written 5 files.now)) }
{
    line.put_bytes(&[2, 1, 31, 2, 15])?;
    if files.len() == 0 {
        return line.put_byte(0);
    }
    write_count(line, scratch, files.len())?;
    write_file(line, scratch, names, files.name(0), files.directory(0))?;
    put_files(line, scratch, names, files)
}

// A file: the offset of its name, and its directory.
fn write_file(
    line: &mut WriterRelocate,
    scratch: &mut Vec<u8>,
    names: &LineNames,
    name: &[u8],
    directory: u64,
) -> Result<(), WriteError>
    requires { IsPathLayout names.now }
    ensures { Writes line.old line.new result (path_file_bytes line.old.order names.now.texts (record { directory = directory; name = name.now })) (path_relocations names.now.texts (length line.old.body) name.now) }
{
    write_name(line, names, name)?;
    write_uleb(line, scratch, directory)
}

// Files, one behind another.
fn put_files(
    line: &mut WriterRelocate,
    scratch: &mut Vec<u8>,
    names: &LineNames,
    files: &Files,
) -> Result<(), WriteError>
    requires { IsPathLayout names.now }
    ensures { Writes line.old line.new result (flat_map (path_file_bytes line.old.order names.now.texts) files.now) (path_files_relocations line.old.order names.now.texts (length line.old.body) files.now) }
{
    for i in 0..files.len() {
        write_file(line, scratch, names, files.name(i), files.directory(i))?;
    }
    Ok(())
}
