//! Fields of DWARF that several readers share: numbers, addresses, and what has an initial length.
ghost use Rattle.std.specs.Prelude.{◌≡◌, ◌<◌, ◌^◌, length, IfOk, IsTrue};
ghost use Rattle.dwc_base.specs.Cursors.{Gives};
ghost use Rattle.dwc_base.specs.FieldSizes.{is_field_size};
ghost use Rattle.dwc_base.specs.Reading.{number_at};
ghost use Rattle.dwc_base.specs.Sections.{address_at};
ghost use Rattle.dwc_base.specs.Units.{sized_part_at};

use crate::{Address, Cursor, Flaw, Kind, Relocations};

/// A number of 1, 2, 4 or 8 bytes, in the cursor's order.
///
/// # Errors
/// `EndsEarly` exactly where bytes are missing.
pub fn number(size: u8, cursor: &mut Cursor<'_>) -> Result<u64, Flaw>
    requires { IsTrue (is_field_size size) }
    ensures { Gives (λ x. x) (number_at size cursor.old) cursor.new result }
{
    if size == 1 {
        let value = cursor.u8()?;
        return Ok(u64::from(value));
    }
    if size == 2 {
        let value = cursor.u16()?;
        return Ok(u64::from(value));
    }
    if size == 4 {
        let value = cursor.u32()?;
        return Ok(u64::from(value));
    }
    Ok(cursor.u64()?)
}

/// The address that a field of 1, 2, 4 or 8 bytes holds: a function's where a relocation of that size stands there, else the number
/// that the bytes spell.
///
/// # Errors
/// `EndsEarly` exactly where bytes are missing.
#[tactic(auto, unfolding(crate::specs::Sections::address_at))]
pub fn address(
    relocations: &Relocations<'_>,
    size: u8,
    cursor: &mut Cursor<'_>,
) -> Result<Address, Flaw>
    requires { IsTrue (is_field_size size) }
    ensures { Gives (λ x. x) (address_at relocations.now size cursor.old) cursor.new result }
{
    let place = cursor.place();
    let spelled = number(size, cursor)?;
    Ok(relocations.value(place, size, spelled))
}

/// What has an initial length: a length of four bytes, and that many bytes. (DWARF 4 and 5, sections 7.2.2 and 7.4.)
///
/// # Errors
/// `Refused(Format64)` for the length that begins the 64-bit format, `Malformed` for the other reserved lengths, and `EndsEarly` where
/// bytes are missing.
#[tactic(auto, using(crate::proofs::Parts::part_at_short), unfolding(crate::specs::Units::sized_part_at))]
pub fn sized_part<'d>(cursor: &mut Cursor<'d>) -> Result<Cursor<'d>, Flaw>
    ensures part { Gives (λ x. x) (sized_part_at cursor.old) cursor.new result }
    ensures short { IfOk result (λ part. length part.left < 2 ^ 32) }
{
    let size = cursor.u32()?;
    if size == 0xFFFF_FFFF {
        return Err(Flaw::Refused(Kind::Format64));
    }
    if size >= 0xFFFF_FFF0 {
        return Err(Flaw::Malformed);
    }
    Ok(cursor.part(size as usize)?)
}
