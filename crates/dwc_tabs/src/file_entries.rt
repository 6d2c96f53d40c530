//! Directories and files of version 5. (DWARF 5, sections 6.2.4 and 6.2.4.1.)
ghost use Rattle.std.specs.Prelude.{◌≡◌, ◌<◌, IsTrue, map, length, ℕ};
ghost use Rattle.std.specs.List.{list_any};
ghost use Rattle.dwc_base.specs.Reading.{counted_at};
ghost use Rattle.dwc_dwarf.specs.LineHeaders.{entry_format_at, entry_formats_at, is_path as says_path, has_one_path as have_one_path, entry_count_at, directory_or as directory_read, with_field as field_added, entry_field_at, entry_fields_at, no_fields, file_entry_at, directory_entry_at, directories_of_5_at, files_of_5_at};
ghost use Rattle.dwc_base.specs.Cursors.{Gives, GivesLast, GivesOrMemory, slice_bytes};
ghost use Rattle.dwc_base.specs.FieldSizes.{is_field_size};
ghost use Rattle.dwc_read.specs.ValuesSeen.{value_view};
ghost use Rattle.dwc_tabs.specs.Headers.{file_view, format_view, source_view};

use crate::header::LineFile;
use crate::path::path_text;
use crate::source::Source;
use dwc_base::constants::{DW_FORM_implicit_const, DW_LNCT_directory_index, DW_LNCT_path};
use dwc_base::{Cursor, Encoding, Flaw, NotRead};
use dwc_read::{AttributeSpec, AttributeValue, encoded_value, is_text_form};
use std::alloc::Global;

// A field of an entry: what it says, and its form.
#[derive(Clone, Copy)]
struct EntryFormat {
    content: u64,
    form: u64,
}

// The format of a field.
#[tactic(auto, unfolding(dwc_dwarf::specs::LineHeaders::entry_format_at))]
fn entry_format(cursor: &mut Cursor<'_>) -> Result<EntryFormat, Flaw>
    ensures { Gives format_view (entry_format_at cursor.old) cursor.new result }
{
    let content = cursor.uleb()?;
    let form = cursor.uleb()?;
    if form == u64::from(DW_FORM_implicit_const) {
        return Err(Flaw::Malformed);
    }
    Ok(EntryFormat { content, form })
}

// So many formats.
fn some_formats(
    alloc: Global,
    count: u8,
    cursor: &mut Cursor<'_>,
) -> Result<Vec<EntryFormat>, NotRead>
    ensures { GivesOrMemory (λ v. map format_view v.items) (counted_at count entry_format_at cursor.old) cursor.new result }
{
    let mut formats = Vec::new(alloc);
    for _ in 0..count {
        let format = entry_format(cursor)?;
        formats.push(format)?;
    }
    Ok(formats)
}

// The formats of the fields of an entry.
#[tactic(auto, unfolding(dwc_dwarf::specs::LineHeaders::entry_formats_at))]
fn entry_formats(alloc: Global, cursor: &mut Cursor<'_>) -> Result<Vec<EntryFormat>, NotRead>
    ensures { GivesOrMemory (λ v. map format_view v.items) (entry_formats_at cursor.old) cursor.new result }
{
    let count = cursor.u8()?;
    Ok(some_formats(alloc, count, cursor)?)
}

// Whether a field says the path.
fn is_path(format: EntryFormat) -> bool
    ensures { result ≡ says_path (format_view format) }
{
    format.content == u64::from(DW_LNCT_path)
}

// Whether some field says the path.
fn has_path(formats: &[EntryFormat]) -> bool
    ensures { result ≡ list_any says_path (map format_view formats.now) }
{
    for format in formats {
        if is_path(*format) {
            return true;
        }
    }
    false
}

// Whether one field says the path, and by a text.
fn has_one_path(formats: &[EntryFormat]) -> bool
    ensures { result ≡ have_one_path (map format_view formats.now) }
{
    for (i, format) in formats.iter().enumerate() {
        if is_path(*format) {
            let (_, others) = formats.split_at(i + 1);
            return is_text_form(format.form) && !has_path(others);
        }
    }
    false
}

// How many entries there are; where there are some, they have a path.
#[tactic(auto, unfolding(dwc_dwarf::specs::LineHeaders::entry_count_at))]
fn entry_count(formats: &[EntryFormat], cursor: &mut Cursor<'_>) -> Result<u64, Flaw>
    ensures { Gives (λ x. x) (entry_count_at (map format_view formats.now) cursor.old) cursor.new result }
{
    let count = cursor.uleb()?;
    if count > 0 && !has_one_path(formats) {
        return Err(Flaw::Malformed);
    }
    Ok(count)
}

// The number of a directory, which a constant says.
fn directory_or(before: u64, value: AttributeValue<'_>) -> u64
    ensures { result ≡ directory_read before (value_view value.entry) }
{
    match value {
        AttributeValue::Constant { bits, .. } => bits,
        _ => before,
    }
}

// An entry with what a further field says; other content is passed over.
fn with_field<'d>(
    source: &Source<'d>,
    looked_up: bool,
    content: u64,
    value: AttributeValue<'d>,
    entry: LineFile<'d>,
) -> Result<LineFile<'d>, Flaw>
    ensures { GivesLast file_view (field_added (source_view source.now) looked_up content (value_view value.entry) (file_view entry.entry)) result }
{
    if content == u64::from(DW_LNCT_path) {
        let name = path_text(source, looked_up, value)?;
        return Ok(LineFile {
            directory: entry.directory,
            name,
        });
    }
    if content == u64::from(DW_LNCT_directory_index) {
        return Ok(LineFile {
            directory: directory_or(entry.directory, value),
            name: entry.name,
        });
    }
    Ok(entry)
}

// A field of an entry.
#[tactic(auto, unfolding(dwc_dwarf::specs::LineHeaders::entry_field_at))]
fn entry_field<'d>(
    source: &Source<'d>,
    address_size: u8,
    looked_up: bool,
    format: EntryFormat,
    entry: LineFile<'d>,
    cursor: &mut Cursor<'d>,
) -> Result<LineFile<'d>, Flaw>
    requires { IsTrue (is_field_size address_size) }
    ensures { Gives file_view (entry_field_at (source_view source.now) address_size looked_up (format_view format) (file_view entry.entry) cursor.old) cursor.new result }
{
    let encoding = Encoding {
        version: 5,
        address_size,
    };
    let spec = AttributeSpec::new(0, format.form, 0);
    let value = encoded_value(&source.relocations, encoding, spec, cursor)?;
    Ok(with_field(source, looked_up, format.content, value, entry)?)
}

// A directory or a file.
fn entry<'d>(
    source: &Source<'d>,
    address_size: u8,
    looked_up: bool,
    formats: &[EntryFormat],
    cursor: &mut Cursor<'d>,
) -> Result<LineFile<'d>, Flaw>
    requires { IsTrue (is_field_size address_size) }
    ensures { Gives file_view (entry_fields_at (source_view source.now) address_size looked_up (map format_view formats.now) no_fields cursor.old) cursor.new result }
{
    let mut entry = LineFile {
        directory: 0,
        name: &[],
    };
    for format in formats {
        entry = entry_field(source, address_size, looked_up, *format, entry, cursor)?;
    }
    Ok(entry)
}

// So many directories above 0, by their names.
fn some_directories<'d>(
    alloc: Global,
    source: &Source<'d>,
    address_size: u8,
    formats: &[EntryFormat],
    count: u64,
    cursor: &mut Cursor<'d>,
) -> Result<Vec<&'d [u8]>, NotRead>
    requires { IsTrue (is_field_size address_size) }
    ensures { GivesOrMemory (λ v. map slice_bytes v.items) (counted_at count (directory_entry_at (source_view source.now) address_size (map format_view formats.now)) cursor.old) cursor.new result }
{
    let mut directories = Vec::new(alloc);
    for _ in 0..count {
        let directory = entry(source, address_size, true, formats, cursor)?;
        directories.push(directory.name)?;
    }
    Ok(directories)
}

// So many files.
fn some_files<'d>(
    alloc: Global,
    source: &Source<'d>,
    address_size: u8,
    formats: &[EntryFormat],
    count: u64,
    cursor: &mut Cursor<'d>,
) -> Result<Vec<LineFile<'d>>, NotRead>
    requires { IsTrue (is_field_size address_size) }
    ensures { GivesOrMemory (λ v. map file_view v.items) (counted_at count (file_entry_at (source_view source.now) address_size (map format_view formats.now)) cursor.old) cursor.new result }
{
    let mut files = Vec::new(alloc);
    for _ in 0..count {
        let file = entry(source, address_size, true, formats, cursor)?;
        files.push(file)?;
    }
    Ok(files)
}

/// The directories from number 1 on. Number 0 is the compilation directory, whose text elsewhere is not looked up.
#[tactic(auto, unfolding(dwc_dwarf::specs::LineHeaders::directories_of_5_at))]
pub fn directories_of_5<'d>(
    alloc: Global,
    source: &Source<'d>,
    address_size: u8,
    cursor: &mut Cursor<'d>,
) -> Result<Vec<&'d [u8]>, NotRead>
    requires { IsTrue (is_field_size address_size) }
    ensures { GivesOrMemory (λ v. map slice_bytes v.items) (directories_of_5_at (source_view source.now) address_size cursor.old) cursor.new result }
{
    let formats = entry_formats(alloc, cursor)?;
    let count = entry_count(&formats, cursor)?;
    if count == 0 {
        return Ok(Vec::new(alloc));
    }
    entry(source, address_size, false, &formats, cursor)?;
    Ok(some_directories(alloc, source, address_size, &formats, count - 1, cursor)?)
}

/// The files, from number 0 on.
#[tactic(auto, unfolding(dwc_dwarf::specs::LineHeaders::files_of_5_at))]
pub fn files_of_5<'d>(
    alloc: Global,
    source: &Source<'d>,
    address_size: u8,
    cursor: &mut Cursor<'d>,
) -> Result<Vec<LineFile<'d>>, NotRead>
    requires { IsTrue (is_field_size address_size) }
    ensures { GivesOrMemory (λ v. map file_view v.items) (files_of_5_at (source_view source.now) address_size cursor.old) cursor.new result }
{
    let formats = entry_formats(alloc, cursor)?;
    let count = entry_count(&formats, cursor)?;
    Ok(some_files(alloc, source, address_size, &formats, count, cursor)?)
}
