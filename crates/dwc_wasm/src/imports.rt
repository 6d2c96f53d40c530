//! Import sections of WebAssembly files, of which only the number of functions is wanted. (WebAssembly 1.0, section 5.5.5.)
ghost use Rattle.std.specs.Prelude.{◌≡◌, ◌<◌, ◌^◌, length, IfOk};
ghost use Rattle.dwc_base.specs.Wasm.{import_kind, import_of_kind, import_at, imports_at};
ghost use Rattle.dwc_wasm.specs.FileParts.{GivesPart};

use crate::fields::{BrokenField, byte_below, element_type, limits, name_field};
use dwc_base::Cursor;

// The kinds of imports, and how many there are; the last is a tag.
const FUNCTION: u8 = 0;

const TABLE: u8 = 1;

const MEMORY: u8 = 2;

const GLOBAL: u8 = 3;

const KINDS: u8 = 5;

/// How many of the imports at the front, as many as said, are functions.
pub fn imported_functions(count: u64, cursor: &mut Cursor<'_>) -> Result<u32, BrokenField>
    requires { length cursor.old.left < 2 ^ 32 }
    ensures { GivesPart (λ n. n) (imports_at count cursor.old) cursor.new result }
{
    let mut functions = 0;
    for _ in 0..count {
        if is_function_import(cursor)? {
            functions += 1;
        }
    }
    Ok(functions)
}

// An import: two names and a kind; whether it is a function.
#[tactic(auto, unfolding(dwc_base::specs::Wasm::import_at))]
fn is_function_import(cursor: &mut Cursor<'_>) -> Result<bool, BrokenField>
    ensures { GivesPart (λ b. b) (import_at cursor.old) cursor.new result }
{
    name_field(cursor)?;
    name_field(cursor)?;
    let kind = byte_below(cursor, KINDS)?;
    import_of_kind(kind, cursor)?;
    Ok(kind == FUNCTION)
}

// What stands behind the kind of an import.
#[tactic(auto, unfolding(dwc_base::specs::Wasm::import_of_kind, dwc_base::specs::Wasm::byte_at))]
fn import_of_kind(kind: u8, cursor: &mut Cursor<'_>) -> Result<(), BrokenField>
    ensures { GivesPart (λ _. tt) (import_of_kind (import_kind kind) cursor.old) cursor.new result }
{
    match kind {
        FUNCTION => {
            cursor.uleb()?;
            Ok(())
        }
        TABLE => {
            element_type(cursor)?;
            Ok(limits(cursor)?)
        }
        MEMORY => Ok(limits(cursor)?),
        GLOBAL => {
            cursor.u8()?;
            cursor.u8()?;
            Ok(())
        }
        _ => {
            cursor.u8()?;
            cursor.uleb()?;
            Ok(())
        }
    }
}
