//! The walk over the sections of a WebAssembly file. (WebAssembly 1.0, section 5.5.2.)
ghost use Rattle.std.specs.Prelude.{◌≡◌, ◌<◌, ◌^◌, length, IfOk};
ghost use Rattle.dwc_base.specs.Cursors.{Gives};
ghost use Rattle.dwc_base.specs.Wasm.{field, type_numbers_at, exactly, contents_of, section_bytes_at, wasm_section_at, next_wasm_section};
ghost use Rattle.dwc_wasm.specs.FileParts.{GivesPart, GivesLastPart, GivesSection, contents_view, section_view};

use crate::fields::{BrokenField, name_field};
use crate::imports::imported_functions;
use dwc_base::{Cursor, Flaw};

// The ids of the sections that are read.
const CUSTOM: u8 = 0;

const IMPORT: u8 = 2;

const FUNCTION: u8 = 3;

const CODE: u8 = 10;

/// What a section holds: a custom one its name and the bytes behind it, the imports how many functions, the functions how
/// many and the contents with that count; all else is lent.
#[derive(Drop)]
pub enum Contents<'d> {
    Custom { name: &'d str, rest: Cursor<'d> },
    Imports { functions: u32 },
    Functions { functions: u32, body: Cursor<'d> },
    Code { body: Cursor<'d> },
    Other { id: u8, body: Cursor<'d> },
}

/// A section: the place of its id in the file, and what it holds.
#[derive(Drop)]
pub struct Section<'d> {
    pub place: u64,
    pub contents: Contents<'d>,
}

/// The next section; None at the end of the file.
#[tactic(auto, unfolding(dwc_base::specs::Wasm::next_wasm_section))]
pub fn next_section<'d>(cursor: &mut Cursor<'d>) -> Result<Option<Section<'d>>, BrokenField>
    ensures { GivesSection (next_wasm_section cursor.old) cursor.new result }
{
    if cursor.left() == 0 {
        Ok(None)
    } else {
        let section = read_section(cursor)?;
        Ok(Some(section))
    }
}

// The section at the front.
#[tactic(auto, unfolding(dwc_base::specs::Wasm::wasm_section_at, dwc_base::specs::Wasm::byte_at))]
fn read_section<'d>(cursor: &mut Cursor<'d>) -> Result<Section<'d>, BrokenField>
    ensures { GivesPart section_view (wasm_section_at cursor.old) cursor.new result }
{
    let place = cursor.place() as u64;
    let id = cursor.u8()?;
    let part = sized_part_field(cursor)?;
    let contents = read_contents(id, part)?;
    Ok(Section { place, contents })
}

// A size below 2^32 and that many bytes, one field.
fn sized_part_field<'d>(cursor: &mut Cursor<'d>) -> Result<Cursor<'d>, BrokenField>
    ensures read { GivesPart (λ x. x) (field section_bytes_at cursor.old) cursor.new result }
    ensures small { IfOk result (λ part. length part.left < 2 ^ 32) }
{
    let offset = cursor.place() as u64;
    sized_part(cursor).map_err(|_| BrokenField { offset })
}

// A size below 2^32 and that many bytes.
#[tactic(auto, using(dwc_base::proofs::Parts::part_at_short), unfolding(dwc_base::specs::Wasm::section_bytes_at, dwc_base::specs::Wasm::u32_at))]
fn sized_part<'d>(cursor: &mut Cursor<'d>) -> Result<Cursor<'d>, Flaw>
    ensures read { Gives (λ x. x) (section_bytes_at cursor.old) cursor.new result }
    ensures small { IfOk result (λ part. length part.left < 2 ^ 32) }
{
    let size = cursor.uleb()?;
    if size >= 1 << 32 {
        return Err(Flaw::Malformed);
    }
    Ok(cursor.part(size as usize)?)
}

// What a section with an id holds. An import and a function section end where their last field does.
#[tactic(auto, unfolding(dwc_base::specs::Wasm::contents_of))]
fn read_contents<'d>(id: u8, mut part: Cursor<'d>) -> Result<Contents<'d>, BrokenField>
    requires { length part.left < 2 ^ 32 }
    ensures { GivesLastPart contents_view (contents_of id part.entry) result }
{
    match id {
        CUSTOM => {
            let name = name_field(&mut part)?;
            Ok(Contents::Custom { name, rest: part })
        }
        IMPORT => {
            let count = part.uleb()?;
            let functions = imported_functions(count, &mut part)?;
            let functions = exactly(functions, &part)?;
            Ok(Contents::Imports { functions })
        }
        FUNCTION => {
            let body = part.fork();
            let count = part.uleb()?;
            let functions = type_numbers(count, &mut part)?;
            let functions = exactly(functions, &part)?;
            Ok(Contents::Functions { functions, body })
        }
        CODE => Ok(Contents::Code { body: part }),
        _ => Ok(Contents::Other { id, body: part }),
    }
}

// What was counted, where nothing is left behind it.
fn exactly(counted: u32, cursor: &Cursor<'_>) -> Result<u32, BrokenField>
    ensures { GivesLastPart (λ n. n) (exactly (counted, cursor.now)) result }
{
    if cursor.left() == 0 {
        Ok(counted)
    } else {
        let offset = cursor.place() as u64;
        Err(BrokenField { offset })
    }
}

// How many type numbers stand at the front: as many as said.
fn type_numbers(count: u64, cursor: &mut Cursor<'_>) -> Result<u32, BrokenField>
    requires { length cursor.old.left < 2 ^ 32 }
    ensures { GivesPart (λ n. n) (type_numbers_at count cursor.old) cursor.new result }
{
    let mut numbers = 0;
    for _ in 0..count {
        cursor.uleb()?;
        numbers += 1;
    }
    Ok(numbers)
}
