//! Addresses and texts that stand elsewhere, by an offset or by an index. (DWARF 5, sections 7.26 and 7.27.)
ghost use Rattle.std.specs.Prelude.{◌≡◌, ◌+◌, ◌*◌, ◌<◌, ◌^◌, length, option_map, SomeIff};
ghost use Rattle.dwc_base.specs.Cursors.{GivesLast, slice_bytes};
ghost use Rattle.dwc_dwarf.specs.Indexed.{address_from};
ghost use Rattle.dwc_dwarf.specs.LineHeaders.{text_in as found_text};
ghost use Rattle.dwc_dwarf.specs.Texts.{offset_of_text as text_offset, text_elsewhere as text_of_form, text_named as named_text};
ghost use Rattle.dwc_read.specs.Elsewhere.{UnreadFrom, texts_from};
ghost use Rattle.dwc_read.specs.Headers.{header_view};
ghost use Rattle.dwc_read.specs.TextPlaces.{place_elsewhere, text_place_named};
ghost use Rattle.dwc_read.specs.ValuesSeen.{value_view};

use crate::header::Header;
use crate::{AttributeValue, Sections, TextPlace};
use dwc_base::constants::{DW_FORM_line_strp, DW_FORM_strp};
use dwc_base::fields::address;
use dwc_base::{Address, Cursor, Endian, Flaw, SectionName};

// What is unread of some bytes from an offset on; None past their end.
fn unread_from<'d>(bytes: &'d [u8], order: Endian, offset: u64) -> Option<Cursor<'d>>
    requires { length bytes.now < 2 ^ 32 }
    ensures { UnreadFrom order bytes.now offset result }
{
    if offset >= bytes.len() as u64 {
        return None;
    }
    Some(Cursor::at(bytes, offset as u32, order))
}

// The offset of an item, the items being of one size and counted from a base; None where it does not fit 64 bits.
fn item_offset(base: u64, size: u8, index: u64) -> Option<u64>
    ensures { SomeIff result (base + size * index < 2 ^ 64) (base + size * index) }
{
    let distance = u64::from(size).checked_mul(index)?;
    base.checked_add(distance)
}

// What is unread of some bytes from an item on; None past their end.
fn item_from<'d>(
    bytes: &'d [u8],
    order: Endian,
    base: u64,
    size: u8,
    index: u64,
) -> Option<Cursor<'d>>
    requires { length bytes.now < 2 ^ 32 }
    ensures { UnreadFrom order bytes.now (base + size * index) result }
{
    let offset = item_offset(base, size, index)?;
    unread_from(bytes, order, offset)
}

// The address at an index, those of a unit beginning at a base.
#[tactic(auto, unfolding(dwc_dwarf::specs::Indexed::address_from))]
pub fn address_indexed(
    sections: &Sections<'_>,
    header: &Header<'_>,
    base: Option<u64>,
    index: u64,
) -> Result<Address, Flaw>
    ensures { GivesLast (λ a. a) (address_from sections.now (header_view header.now) base index) result }
{
    let Some(base) = base else {
        return Err(Flaw::Malformed);
    };
    let size = header.address_size;
    let bytes = sections.bytes(SectionName::Addr);
    let Some(mut cursor) = item_from(bytes, sections.order(), base, size, index) else {
        return Err(Flaw::EndsEarly);
    };
    let relocations = sections.relocations(SectionName::Addr);
    Ok(address(&relocations, size, &mut cursor)?)
}

// The text at an offset of a section.
fn text_in<'d>(sections: &Sections<'d>, name: SectionName, offset: u64) -> Result<&'d [u8], Flaw>
    ensures { GivesLast slice_bytes (found_text sections.now.order (sections.now.bytes name) offset) result }
{
    let Some(mut cursor) = unread_from(sections.bytes(name), sections.order(), offset) else {
        return Err(Flaw::EndsEarly);
    };
    Ok(cursor.text()?)
}

// The offset of a text by its index, the offsets of a unit beginning at a base.
fn offset_of_text(sections: &Sections<'_>, base: u64, index: u64) -> Result<u32, Flaw>
    ensures { GivesLast (λ n. n) (text_offset (texts_from sections.now base) index) result }
{
    let bytes = sections.bytes(SectionName::StrOffsets);
    let Some(mut cursor) = item_from(bytes, sections.order(), base, 4, index) else {
        return Err(Flaw::EndsEarly);
    };
    Ok(cursor.u32()?)
}

// The text that a number of a form names.
#[tactic(auto, unfolding(dwc_dwarf::specs::Texts::text_elsewhere))]
fn text_elsewhere<'d>(
    sections: &Sections<'d>,
    base: u64,
    form: u16,
    number: u64,
) -> Result<&'d [u8], Flaw>
    ensures { GivesLast slice_bytes (text_of_form (texts_from sections.now base) form number) result }
{
    match form {
        DW_FORM_strp => Ok(text_in(sections, SectionName::Str, number)?),
        DW_FORM_line_strp => Ok(text_in(sections, SectionName::LineStr, number)?),
        _ => {
            let offset = offset_of_text(sections, base, number)?;
            Ok(text_in(sections, SectionName::Str, u64::from(offset))?)
        }
    }
}

// The text that a value names, the offsets of a unit's texts beginning at a base; None for a value that is no text.
#[tactic(auto, unfolding(dwc_dwarf::specs::Texts::text_named))]
pub fn text_named<'d>(
    sections: &Sections<'d>,
    base: u64,
    value: AttributeValue<'d>,
) -> Result<Option<&'d [u8]>, Flaw>
    ensures { GivesLast (option_map slice_bytes) (named_text (texts_from sections.now base) (value_view value.entry)) result }
{
    match value {
        AttributeValue::Text(bytes) => Ok(Some(bytes)),
        AttributeValue::TextRef { form, bits } => {
            Ok(Some(text_elsewhere(sections, base, form, bits)?))
        }
        _ => Ok(None),
    }
}

// Where the text stands that a number of a form names.
#[tactic(auto, unfolding(crate::specs::TextPlaces::place_elsewhere))]
fn text_place_elsewhere(
    sections: &Sections<'_>,
    base: u64,
    form: u16,
    number: u64,
) -> Result<TextPlace, Flaw>
    ensures { GivesLast (λ p. p) (place_elsewhere (texts_from sections.now base) form number) result }
{
    match form {
        DW_FORM_strp => Ok(TextPlace {
            section: SectionName::Str,
            offset: number,
        }),
        DW_FORM_line_strp => Ok(TextPlace {
            section: SectionName::LineStr,
            offset: number,
        }),
        _ => {
            let offset = offset_of_text(sections, base, number)?;
            Ok(TextPlace {
                section: SectionName::Str,
                offset: u64::from(offset),
            })
        }
    }
}

// Where the text stands that a value names, the offsets of a unit's texts beginning at a base; None for a text in place, and for a value
// that is no text.
#[tactic(auto, unfolding(crate::specs::TextPlaces::text_place_named))]
pub fn text_place(
    sections: &Sections<'_>,
    base: u64,
    value: AttributeValue<'_>,
) -> Result<Option<TextPlace>, Flaw>
    ensures { GivesLast (λ p. p) (text_place_named (texts_from sections.now base) (value_view value.entry)) result }
{
    match value {
        AttributeValue::TextRef { form, bits } => {
            Ok(Some(text_place_elsewhere(sections, base, form, bits)?))
        }
        _ => Ok(None),
    }
}
