//! The reader of WebAssembly files: the sections of DWARF, lent, and the few facts that DWARF wants besides.
//! (WebAssembly 1.0, section 5.5.)
ghost use Rattle.std.specs.Prelude.{◌≡◌, ◌≤◌, ◌<◌, ◌^◌, List, [], None, length, IfOk};
ghost use Rattle.dwc_base.specs.declared.section_name.SectionName.{SectionName};
ghost use Rattle.dwc_base.specs.Wasm.{WasmModule, WasmSection, module_from_sections};
ghost use Rattle.dwc_wasm.specs.FunctionSections.{HoldsLast};
ghost use Rattle.dwc_base.specs.TranslationNames.{HasSortedNames, TellsNames};
ghost use Rattle.dwc_base.specs.Translations.{IsTranslation, section_bytes};
ghost use Rattle.dwc_wasm.specs.FileParts.{WalksSections, GivesLastPart, Notes, sections_start, first_compressed, section_view, custom_left};
ghost use Rattle.dwc_wasm.specs.FileTranslations.{TranslatesFile};

use crate::fields::BrokenField;
use crate::function_sections::FunctionSections;
use crate::functions::function_types;
use crate::name_section::names_in;
use crate::walk::{Contents, Section, next_section};
use dwc_base::{Cursor, Endian, ModuleTranslation, WasmSections};
use std::alloc::{AllocError, Global};
use thiserror::Error;

// The magic number and version 1.
const PREAMBLE: [u8; 8] = [0x00, 0x61, 0x73, 0x6D, 0x01, 0x00, 0x00, 0x00];

/// Why a file is no WebAssembly file that is read.
#[derive(Clone, Copy, Debug, Drop, Error)]
pub enum WasmFault {
    /// The grammar fails; the offset is that of the first byte of the first field that breaks it, or of the first byte
    /// left over at the end of an import or function section.
    #[error("Malformed {offset}")]
    Malformed { offset: u64 },
    #[error("out of memory")]
    OutOfMemory,
}

impl From<BrokenField> for WasmFault {
    ghost use Rattle.std.specs.Prelude.{◌≡◌};
    ghost use Rattle.dwc_wasm.specs.declared.split.WasmFault.TheVariants.{Malformed};

    ghost from_gives = { λ broken e. e ≡ Malformed broken.offset };

    fn from(broken: BrokenField) -> WasmFault {
        WasmFault::Malformed {
            offset: broken.offset,
        }
    }
}

impl From<AllocError> for WasmFault {
    ghost use Rattle.std.specs.Prelude.{◌≡◌};
    ghost use Rattle.dwc_wasm.specs.declared.split.WasmFault.TheVariants.{OutOfMemory};

    ghost from_gives = { λ _ e. e ≡ OutOfMemory };

    fn from(_: AllocError) -> WasmFault {
        WasmFault::OutOfMemory
    }
}

// What is told of a file without sections.
fn empty_translation<'d>(alloc: Global) -> ModuleTranslation<'d>
    ensures { IsTranslation result (module_from_sections []) }
{
    ModuleTranslation {
        sections: WasmSections::none(),
        dwo_sections: WasmSections::none(),
        compressed: None,
        code_section_offset: 0,
        imported_funcs: 0,
        defined_funcs: 0,
        module_name: None,
        func_names: Vec::new(alloc),
        local_names: Vec::new(alloc),
        funcs: Vec::new(alloc),
        path: None,
    }
}

// Takes note of a further section.
fn note_section<'d>(translation: &mut ModuleTranslation<'d>, section: Section<'d>)
    requires { length (custom_left (section_view section).contents) < 2 ^ 32 }
    ensures { Notes translation.old translation.new (section_view section.entry) }
{
    let Section { place, contents } = section;
    match contents {
        Contents::Custom { name, rest } => {
            translation.compressed = first_compressed(translation.compressed, place, name);
            let bytes = rest.unread();
            translation.sections.note(name.as_bytes(), bytes);
            translation.dwo_sections.note_split(name.as_bytes(), bytes);
        }
        Contents::Imports { functions } => translation.imported_funcs = functions,
        Contents::Functions { functions, .. } => translation.defined_funcs = functions,
        Contents::Code { body } => translation.code_section_offset = body.place() as u64,
        Contents::Other { .. } => {}
    }
}

/// Reads a WebAssembly file: the sections of DWARF, lent, and apart from them those of split units, whose names end in `.dwo`, of equal
/// names the later; how many functions it imports and defines; where the contents of its code section are; the first section that is
/// compressed; and the names of the module, its functions and their locals, with the types of these. Import and function sections and the
/// names of custom sections are read whole, and all else is lent as it is; of types, bodies and names what cannot be read tells nothing.
/// The numbers of DWARF in it are little-endian. It takes time linear in the file and in what it answers, and a logarithm more for names.
///
/// # Errors
/// [`WasmFault::Malformed`] exactly where the grammar fails. [`WasmFault::OutOfMemory`] for want of memory.
pub fn split_wasm<'d>(alloc: Global, bytes: &'d [u8]) -> Result<ModuleTranslation<'d>, WasmFault>
    ensures translated { TranslatesFile bytes.now result }
    ensures inside { IfOk result (λ t. (name : SectionName) → length (section_bytes t.sections name) ≤ length bytes.now) }
    ensures split_inside { IfOk result (λ t. (name : SectionName) → length (section_bytes t.dwo_sections name) ≤ length bytes.now) }
    ensures sorted { IfOk result HasSortedNames }
{
    let cursor = behind_preamble(bytes)?;
    let walked = walk_sections(alloc, cursor)?;
    Ok(with_names(alloc, walked.translation, walked.functions)?)
}

// The place of the first compressed section, behind a custom section at a place with a title.
fn first_compressed(before: Option<u64>, place: u64, title: &str) -> Option<u64>
    ensures { result ≡ first_compressed before place title.now }
{
    if before.is_none() && title.as_bytes().starts_with(b".zdebug_") {
        Some(place)
    } else {
        before
    }
}

// Where the sections of a file begin.
fn behind_preamble<'d>(bytes: &'d [u8]) -> Result<Cursor<'d>, BrokenField>
    ensures { GivesLastPart (λ u. u) (sections_start bytes.now) result }
{
    if !bytes.starts_with(&PREAMBLE) {
        return Err(BrokenField { offset: 0 });
    }
    let mut cursor = Cursor::new(bytes, Endian::Little);
    cursor.take(PREAMBLE.len())?;
    Ok(cursor)
}

// What the sections of a file hold: a translation without names, and the sections that tell of functions.
#[derive(Drop)]
struct WalkedSections<'d> {
    translation: ModuleTranslation<'d>,
    functions: FunctionSections<'d>,
}

// What the sections from a place on hold.
fn walk_sections<'d>(
    alloc: Global,
    mut cursor: Cursor<'d>,
) -> Result<WalkedSections<'d>, BrokenField>
    ensures walked { WalksSections cursor.entry result }
    ensures inside { IfOk result (λ w. (name : SectionName) → length (section_bytes (w.translation).sections name) ≤ length cursor.entry.left) }
    ensures split_inside { IfOk result (λ w. (name : SectionName) → length (section_bytes (w.translation).dwo_sections name) ≤ length cursor.entry.left) }
{
    let mut translation = empty_translation(alloc);
    let mut functions = FunctionSections::none();
    while let Some(section) = next_section(&mut cursor)? {
        functions.note(&section.contents);
        note_section(&mut translation, section);
    }
    Ok(WalkedSections {
        translation,
        functions,
    })
}

// A translation with the names and types that sections tell.
fn with_names<'d>(
    alloc: Global,
    translation: ModuleTranslation<'d>,
    sections: FunctionSections<'d>,
) -> Result<ModuleTranslation<'d>, AllocError>
    ensures kept { (m : WasmModule) → IsTranslation translation.entry m → IfOk result (λ t. IsTranslation t m) }
    ensures sections { IfOk result (λ t. t.sections ≡ (translation.entry).sections) }
    ensures dwo_sections { IfOk result (λ t. t.dwo_sections ≡ (translation.entry).dwo_sections) }
    ensures told { (all : List WasmSection) → HoldsLast sections.entry all → IfOk result (λ t. TellsNames t (module_from_sections all)) }
{
    let names = names_in(alloc, sections.names.unread())?;
    let funcs = function_types(alloc, sections.types, sections.functions, sections.code)?;
    Ok(ModuleTranslation {
        module_name: names.module,
        func_names: names.functions,
        local_names: names.locals,
        funcs,
        ..translation
    })
}
