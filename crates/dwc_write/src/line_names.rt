//! Names of directories and files of line tables of version 5, found before a byte is written: each stands once in `.debug_line_str`, in the
//! order of first use. (DWARF 5, section 6.2.4.)
ghost use Rattle.std.specs.Prelude.{◌≡◌, ◌∷◌, [], ◌≤◌, IfOk, IsOkUnless, None, map};
ghost use Rattle.std.specs.List.{position};
ghost use Rattle.std.specs.Str.{bytes_eq};
ghost use Rattle.dwc_base.specs.declared.section_name.SectionName.TheVariants.{LineStr};
ghost use Rattle.dwc_section.specs.declared.error.WriteError.TheVariants.{OutOfMemory};
ghost use Rattle.dwc_section.specs.Writers.{Writes, most_bytes};
ghost use Rattle.dwc_dwarf.specs.TreeLaws.{texts_ended};
ghost use Rattle.dwc_output.specs.NewWidest.{names_in};
ghost use Rattle.dwc_write.specs.PathTables.{place_of_path};
ghost use Rattle.dwc_write.specs.PathViews.{IsPathLayout, UsesPaths};

use crate::text_layout::{behind_text, put_text};
use dwc_base::{Endian, SectionName};
use dwc_section::{WriteError, WriterRelocate};
use dwc_texts::{Text, Texts};
use dwc_unit::names::{Files, Names};
use std::alloc::Global;

// Names as they will stand.
#[derive(Drop)]
pub struct LineNames {
    // each once
    pub texts: Texts,
    // where each of them stands
    pub offsets: Vec<usize>,
    // how many bytes they take, each with the zero that ends it
    pub length: usize,
}

/// No names.
pub fn no_names(alloc: Global) -> LineNames
    ensures none { result.texts ≡ [] }
    ensures laid { IsPathLayout result }
{
    LineNames {
        texts: Texts::new(alloc),
        offsets: Vec::new(alloc),
        length: 0,
    }
}

/// The names of a table: the compilation directory of its unit, its directories and its files. `TooLarge` is answered only where
/// `.debug_line_str` would have more than 2^31 - 1 bytes, and `OutOfMemory` for want of memory.
pub fn use_table(
    names: &mut LineNames,
    own: &[u8],
    directories: &Names,
    files: &Files,
) -> Result<(), WriteError>
    requires { IsPathLayout names.old }
    ensures { UsesPaths names.old names.new result (names_in own.now directories.now files.now) }
{
    use_name(names, own)?;
    use_directories(names, directories)?;
    use_files(names, files)
}

// Directories, in their order.
fn use_directories(names: &mut LineNames, directories: &Names) -> Result<(), WriteError>
    requires { IsPathLayout names.old }
    ensures { UsesPaths names.old names.new result directories.now }
{
    for i in 0..directories.len() {
        use_name(names, directories.get(i))?;
    }
    Ok(())
}

// The names of files, in their order.
fn use_files(names: &mut LineNames, files: &Files) -> Result<(), WriteError>
    requires { IsPathLayout names.old }
    ensures { UsesPaths names.old names.new result (map (λ f. f.name) files.now) }
{
    for i in 0..files.len() {
        use_name(names, files.name(i))?;
    }
    Ok(())
}

// A name: where it is new, it stands behind the others.
fn use_name(names: &mut LineNames, name: &[u8]) -> Result<(), WriteError>
    requires { IsPathLayout names.old }
    ensures { UsesPaths names.old names.new result (name.now ∷ []) }
{
    match names.texts.find(name) {
        Some(_) => Ok(()),
        None => add_name(names, name),
    }
}

// A name that is new.
fn add_name(names: &mut LineNames, name: &[u8]) -> Result<(), WriteError>
    requires laid { IsPathLayout names.old }
    requires free { None ≡ position (bytes_eq name.now) names.old.texts }
    ensures { UsesPaths names.old names.new result (name.now ∷ []) }
{
    let behind = behind_text(SectionName::LineStr, names.length, name)?;
    names.texts.add(name)?;
    names.offsets.push(names.length)?;
    names.length = behind;
    Ok(())
}

/// Where a name stands in `.debug_line_str`.
pub fn offset_of_name(names: &LineNames, name: &[u8]) -> usize
    requires { IsPathLayout names.now }
    ensures place { result ≡ place_of_path 0 names.now.texts name.now }
    ensures short { result ≤ most_bytes }
{
    match names.texts.find(name) {
        Some(place) => names.offsets[place],
        None => names.length,
    }
}

/// The section `.debug_line_str` of names that are laid out. `OutOfMemory` is answered for want of memory.
pub fn write_names(
    alloc: Global,
    order: Endian,
    names: &LineNames,
) -> Result<WriterRelocate, WriteError>
    requires { IsPathLayout names.now }
    ensures ok { IfOk result (λ w. w ≡ record { order = order; name = LineStr; body = texts_ended names.now.texts; relocations = [] }) }
    ensures memory { IsOkUnless result OutOfMemory }
{
    let mut section = WriterRelocate::with_room(
        alloc,
        order,
        SectionName::LineStr,
        names.length,
        0,
    )?;
    put_names(&mut section, names.texts.as_slice())?;
    Ok(section)
}

// Names, one behind another.
fn put_names(section: &mut WriterRelocate, names: &[Text]) -> Result<(), WriteError>
    ensures { Writes section.old section.new result (texts_ended names.now) [] }
{
    for i in 0..names.len() {
        put_text(section, names[i].as_bytes())?;
    }
    Ok(())
}
