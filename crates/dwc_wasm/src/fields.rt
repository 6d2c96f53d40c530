//! The fields of a WebAssembly file: names, bytes and limits. (WebAssembly 1.0, sections 5.2 and 5.3.)
ghost use Rattle.std.specs.Prelude.{◌≡◌, nat_lt, ◌==◌, ◌||◌};
ghost use Rattle.dwc_base.specs.Cursors.{Gives};
ghost use Rattle.dwc_base.specs.Wasm.{field, name_at, u32_at, byte_at, limits_at, section_bytes_at};
ghost use Rattle.dwc_wasm.specs.FileParts.{GivesPart};

use dwc_base::{Cursor, CursorFault, Flaw};

// What the elements of a table refer to: values of the host, or functions.
const EXTERN_REF: u8 = 0x6F;

const FUNC_REF: u8 = 0x70;

// The flags of limits are below this, and an odd one says that there is a greatest size.
const LIMIT_FLAGS: u8 = 8;

/// A file breaks the grammar: the place of the first byte of the first field that does.
#[derive(Clone, Copy)]
pub struct BrokenField {
    pub offset: u64,
}

impl From<CursorFault> for BrokenField {
    ghost use Rattle.std.specs.Prelude.{◌≡◌};
    ghost use Rattle.dwc_base.specs.Cursors.{place_of};

    ghost from_gives = { λ fault e. e.offset ≡ place_of fault };

    fn from(fault: CursorFault) -> BrokenField {
        match fault {
            CursorFault::End { offset } | CursorFault::Wide { offset } => BrokenField {
                offset: offset as u64,
            },
        }
    }
}

/// A length and a name in UTF-8, one field: where any of it is missing or is no UTF-8, the length is the broken place.
pub fn name_field<'d>(cursor: &mut Cursor<'d>) -> Result<&'d str, BrokenField>
    ensures { GivesPart (λ x. x.now) (field name_at cursor.old) cursor.new result }
{
    let offset = cursor.place() as u64;
    name(cursor).map_err(|_| BrokenField { offset })
}

/// A length and a name in UTF-8.
#[tactic(auto, unfolding(dwc_base::specs::Wasm::name_at))]
pub(crate) fn name<'d>(cursor: &mut Cursor<'d>) -> Result<&'d str, Flaw>
    ensures { Gives (λ x. x.now) (name_at cursor.old) cursor.new result }
{
    let size = cursor.uleb()?;
    let bytes = cursor.take(size as usize)?;
    let Ok(text) = str::from_utf8(bytes) else {
        return Err(Flaw::Malformed);
    };
    Ok(text)
}

/// A byte below a limit, one field.
#[tactic(auto, unfolding(dwc_base::specs::Wasm::byte_at))]
pub fn byte_below(cursor: &mut Cursor<'_>, limit: u8) -> Result<u8, BrokenField>
    ensures { GivesPart (λ x. x) (field (byte_at (λ b. nat_lt b limit)) cursor.old) cursor.new result }
{
    let offset = cursor.place() as u64;
    let byte = cursor.u8()?;
    if byte < limit {
        Ok(byte)
    } else {
        Err(BrokenField { offset })
    }
}

/// The type of a table's elements, one field.
#[tactic(auto, unfolding(dwc_base::specs::Wasm::byte_at))]
pub fn element_type(cursor: &mut Cursor<'_>) -> Result<u8, BrokenField>
    ensures { GivesPart (λ x. x) (field (byte_at (λ b. (b == 0x6F) || (b == 0x70))) cursor.old) cursor.new result }
{
    let offset = cursor.place() as u64;
    let byte = cursor.u8()?;
    if byte == EXTERN_REF || byte == FUNC_REF {
        Ok(byte)
    } else {
        Err(BrokenField { offset })
    }
}

/// Limits: a flag, the least size, and with an odd flag the greatest.
#[tactic(auto, unfolding(dwc_base::specs::Wasm::limits_at))]
pub fn limits(cursor: &mut Cursor<'_>) -> Result<(), BrokenField>
    ensures { GivesPart (λ _. tt) (limits_at cursor.old) cursor.new result }
{
    let flag = byte_below(cursor, LIMIT_FLAGS)?;
    cursor.uleb()?;
    if flag % 2 == 1 {
        cursor.uleb()?;
        Ok(())
    } else {
        Ok(())
    }
}

/// A number below 2^32.
#[tactic(auto, unfolding(dwc_base::specs::Wasm::u32_at))]
pub(crate) fn u32_number(cursor: &mut Cursor<'_>) -> Result<u32, Flaw>
    ensures { Gives (λ n. n) (u32_at cursor.old) cursor.new result }
{
    let number = cursor.uleb()?;
    if number >= 1 << 32 {
        return Err(Flaw::Malformed);
    }
    Ok(number as u32)
}
