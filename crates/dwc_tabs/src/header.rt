//! The header of a line table. (DWARF 4 and 5, section 6.2.4.)
ghost use Rattle.std.specs.Prelude.{◌≡◌, ◌+◌, ◌-◌, ◌<◌, IsTrue, IfOk, map, option_map, length, ℕ};
ghost use Rattle.dwc_base.specs.Reading.{counted_at, items_at, number_at};
ghost use Rattle.dwc_dwarf.specs.LineHeaders.{signed_byte, directory_at, file_behind, file_at, operations_at, line_names_at, line_fields_at, line_address_size_at, line_header_at};
ghost use Rattle.dwc_base.specs.Cursors.{Gives, GivesLast, GivesOrMemory, GivesLastOrMemory, slice_bytes};
ghost use Rattle.dwc_base.specs.FieldSizes.{is_field_size};
ghost use Rattle.dwc_tabs.specs.Headers.{file_view, names_view, header_view, source_view};

use crate::file_entries::{directories_of_5, files_of_5};
use crate::parameters::Parameters;
use crate::source::Source;
use dwc_base::fields::sized_part;
use dwc_base::{Cursor, Flaw, Kind, NotRead};
use std::alloc::Global;

/// A file of a line table.
#[derive(Clone, Copy)]
pub struct LineFile<'d> {
    /// The number of its directory; 0 is the compilation directory.
    pub directory: u64,
    /// Its name, as it stands in the table.
    pub name: &'d [u8],
}

// The directories and the files of a header.
#[derive(Drop)]
struct Names<'d> {
    directories: Vec<&'d [u8]>,
    files: Vec<LineFile<'d>>,
}

/// A header, and the program behind it.
#[derive(Drop)]
pub struct Header<'d> {
    pub parameters: Parameters<'d>,
    /// The directories, from number 1 on.
    pub directories: Vec<&'d [u8]>,
    pub files: Vec<LineFile<'d>>,
    pub program: Cursor<'d>,
}

// A directory; an empty name ends the list.
#[tactic(auto, unfolding(dwc_dwarf::specs::LineHeaders::directory_at))]
fn directory<'d>(cursor: &mut Cursor<'d>) -> Result<Option<&'d [u8]>, Flaw>
    ensures { Gives (option_map slice_bytes) (directory_at cursor.old) cursor.new result }
{
    let name = cursor.text()?;
    if name.is_empty() {
        Ok(None)
    } else {
        Ok(Some(name))
    }
}

// The directories of a header, up to an empty name.
fn directories<'d>(alloc: Global, cursor: &mut Cursor<'d>) -> Result<Vec<&'d [u8]>, NotRead>
    ensures { GivesOrMemory (λ v. map slice_bytes v.items) (items_at directory_at cursor.old) cursor.new result }
{
    let mut names = Vec::new(alloc);
    while let Some(name) = directory(cursor)? {
        names.push(name)?;
    }
    Ok(names)
}

/// The directory of a file behind its name; its time and its length are passed.
#[tactic(auto, unfolding(dwc_dwarf::specs::LineHeaders::file_behind))]
pub fn file_of_name<'d>(name: &'d [u8], cursor: &mut Cursor<'d>) -> Result<LineFile<'d>, Flaw>
    ensures { Gives file_view (file_behind name.now cursor.old) cursor.new result }
{
    let directory = cursor.uleb()?;
    cursor.uleb()?;
    cursor.uleb()?;
    Ok(LineFile { directory, name })
}

// A file; an empty name ends the list.
#[tactic(auto, unfolding(dwc_dwarf::specs::LineHeaders::file_at))]
fn file<'d>(cursor: &mut Cursor<'d>) -> Result<Option<LineFile<'d>>, Flaw>
    ensures { Gives (option_map file_view) (file_at cursor.old) cursor.new result }
{
    let name = cursor.text()?;
    if name.is_empty() {
        Ok(None)
    } else {
        Ok(Some(file_of_name(name, cursor)?))
    }
}

// The files of a header, up to an empty name.
fn files<'d>(alloc: Global, cursor: &mut Cursor<'d>) -> Result<Vec<LineFile<'d>>, NotRead>
    ensures { GivesOrMemory (λ v. map file_view v.items) (items_at file_at cursor.old) cursor.new result }
{
    let mut files = Vec::new(alloc);
    while let Some(file) = file(cursor)? {
        files.push(file)?;
    }
    Ok(files)
}

// The operations in one instruction, from version 4 on: one.
#[tactic(auto, unfolding(dwc_dwarf::specs::LineHeaders::operations_at))]
fn operations(version: u16, cursor: &mut Cursor<'_>) -> Result<u8, Flaw>
    ensures { Gives (λ x. x) (operations_at version cursor.old) cursor.new result }
{
    if version < 4 {
        return Ok(1);
    }
    let operations = cursor.u8()?;
    if operations == 0 {
        return Err(Flaw::Malformed);
    }
    if operations > 1 {
        return Err(Flaw::Refused(Kind::Operations));
    }
    Ok(operations)
}

// The number that a byte spells as a signed one.
fn as_signed(byte: u8) -> i8
    ensures { result ≡ signed_byte byte }
{
    byte.cast_signed()
}

// How many numbers stand behind each standard opcode below the first special one.
fn opcode_lengths<'d>(opcode_base: u8, cursor: &mut Cursor<'d>) -> Result<&'d [u8], Flaw>
    requires { 0 < opcode_base }
    ensures read { Gives slice_bytes (counted_at (opcode_base - 1) (number_at 1) cursor.old) cursor.new result }
    ensures length { IfOk result (λ x. length x.now ≡ opcode_base - 1) }
{
    Ok(cursor.take(opcode_base as usize - 1)?)
}

// The directories and the files of a version.
#[tactic(auto, unfolding(dwc_dwarf::specs::LineHeaders::line_names_at))]
fn directories_and_files<'d>(
    alloc: Global,
    source: &Source<'d>,
    version: u16,
    address_size: u8,
    cursor: &mut Cursor<'d>,
) -> Result<Names<'d>, NotRead>
    requires { IsTrue (is_field_size address_size) }
    ensures { GivesOrMemory names_view (line_names_at (source_view source.now) version address_size cursor.old) cursor.new result }
{
    let directories = if version == 5 {
        directories_of_5(alloc, source, address_size, cursor)?
    } else {
        directories(alloc, cursor)?
    };
    let files = if version == 5 {
        files_of_5(alloc, source, address_size, cursor)?
    } else {
        files(alloc, cursor)?
    };
    Ok(Names { directories, files })
}

// The fields behind the header's length.
#[tactic(auto, unfolding(dwc_dwarf::specs::LineHeaders::line_fields_at))]
fn fields<'d>(
    alloc: Global,
    source: &Source<'d>,
    version: u16,
    address_size: u8,
    program: Cursor<'d>,
    mut cursor: Cursor<'d>,
) -> Result<Header<'d>, NotRead>
    requires { IsTrue (is_field_size address_size) }
    ensures { GivesLastOrMemory header_view (line_fields_at (source_view source.now) version address_size program.entry cursor.entry) result }
{
    let minimum_instruction_length = cursor.u8()?;
    operations(version, &mut cursor)?;
    let default_is_stmt = cursor.u8()? != 0;
    let line_base = as_signed(cursor.u8()?);
    let line_range = cursor.u8()?;
    if line_range == 0 {
        return Err(NotRead::Flawed(Flaw::Malformed));
    }
    let opcode_base = cursor.u8()?;
    if opcode_base == 0 {
        return Err(NotRead::Flawed(Flaw::Malformed));
    }
    let standard_opcode_lengths = opcode_lengths(opcode_base, &mut cursor)?;
    let names = directories_and_files(alloc, source, version, address_size, &mut cursor)?;
    Ok(Header {
        parameters: Parameters {
            version,
            address_size,
            minimum_instruction_length,
            default_is_stmt,
            line_base,
            line_range,
            opcode_base,
            standard_opcode_lengths,
        },
        directories: names.directories,
        files: names.files,
        program,
    })
}

// The size of an address: that of the unit, from version 5 on the table's own, with no segment selectors.
#[tactic(auto, unfolding(dwc_dwarf::specs::LineHeaders::line_address_size_at))]
fn address_size(version: u16, unit_size: u8, cursor: &mut Cursor<'_>) -> Result<u8, Flaw>
    requires { IsTrue (is_field_size unit_size) }
    ensures read { Gives (λ x. x) (line_address_size_at version unit_size cursor.old) cursor.new result }
    ensures known { IfOk result (λ size. IsTrue (is_field_size size)) }
{
    if version != 5 {
        return Ok(unit_size);
    }
    let size = cursor.u8()?;
    if size != 4 && size != 8 {
        return Err(Flaw::Refused(Kind::AddressSize));
    }
    let selector_size = cursor.u8()?;
    if selector_size != 0 {
        return Err(Flaw::Refused(Kind::SegmentSelector));
    }
    Ok(size)
}

/// The header of the table at the front, for a unit of an address size.
#[tactic(auto, unfolding(dwc_dwarf::specs::LineHeaders::line_header_at))]
pub fn line_header<'d>(
    alloc: Global,
    source: &Source<'d>,
    unit_size: u8,
    mut cursor: Cursor<'d>,
) -> Result<Header<'d>, NotRead>
    requires { IsTrue (is_field_size unit_size) }
    ensures { GivesLastOrMemory header_view (line_header_at (source_view source.now) unit_size cursor.entry) result }
{
    let mut table = sized_part(&mut cursor)?;
    let version = table.u16()?;
    if version < 2 || version > 5 {
        return Err(NotRead::Flawed(Flaw::Refused(Kind::Version)));
    }
    let address_size = address_size(version, unit_size, &mut table)?;
    let size = table.u32()?;
    let parts = table.part(size as usize)?;
    fields(alloc, source, version, address_size, table, parts)
}
