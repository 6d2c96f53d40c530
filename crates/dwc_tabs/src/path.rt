//! The texts of paths. (DWARF 5, sections 6.2.4.1 and 7.26.)
ghost use Rattle.std.specs.Prelude.{◌≡◌, ◌+◌, ◌*◌};
ghost use Rattle.dwc_dwarf.specs.Texts.{text_in as found_text, offset_of_text as text_offset, text_elsewhere as text_of_form, path_text as text_of_path};
ghost use Rattle.dwc_base.specs.Cursors.{GivesLast, slice_bytes};
ghost use Rattle.dwc_read.specs.ValuesSeen.{value_view};
ghost use Rattle.dwc_tabs.specs.Headers.{texts_view};
ghost use Rattle.dwc_tabs.specs.Tables.{UnreadFrom};

use crate::source::Source;
use crate::unread::unread_from;
use dwc_base::constants::{DW_FORM_line_strp, DW_FORM_strp};
use dwc_base::{Cursor, Endian, Flaw};
use dwc_read::AttributeValue;

// The text at an offset of a section.
fn text_in<'d>(section: &'d [u8], order: Endian, offset: u64) -> Result<&'d [u8], Flaw>
    ensures { GivesLast slice_bytes (found_text order section.now offset) result }
{
    let Some(mut cursor) = unread_from(section, order, offset) else {
        return Err(Flaw::EndsEarly);
    };
    Ok(cursor.text()?)
}

// What is unread of some bytes from an item of four bytes on, the items beginning at a base; None past their end.
fn item_from<'d>(bytes: &'d [u8], order: Endian, base: u64, index: u64) -> Option<Cursor<'d>>
    ensures { UnreadFrom order bytes.now (base + 4 * index) result }
{
    let distance = index.checked_mul(4)?;
    let offset = base.checked_add(distance)?;
    unread_from(bytes, order, offset)
}

// The offset of a text by its index.
fn offset_of_text(source: &Source<'_>, index: u64) -> Result<u32, Flaw>
    ensures { GivesLast (λ n. n) (text_offset (texts_view source.now) index) result }
{
    let Some(mut cursor) = item_from(source.offsets, source.order, source.base, index) else {
        return Err(Flaw::EndsEarly);
    };
    Ok(cursor.u32()?)
}

// The text that a number of a form names.
#[tactic(auto, unfolding(dwc_dwarf::specs::Texts::text_elsewhere))]
fn text_elsewhere<'d>(source: &Source<'d>, form: u16, number: u64) -> Result<&'d [u8], Flaw>
    ensures { GivesLast slice_bytes (text_of_form (texts_view source.now) form number) result }
{
    match form {
        DW_FORM_strp => Ok(text_in(source.strings, source.order, number)?),
        DW_FORM_line_strp => Ok(text_in(source.line_strings, source.order, number)?),
        _ => {
            let offset = offset_of_text(source, number)?;
            Ok(text_in(source.strings, source.order, u64::from(offset))?)
        }
    }
}

/// The text of a path. A text elsewhere is empty where it is not looked up.
#[tactic(auto, unfolding(dwc_dwarf::specs::Texts::path_text))]
pub fn path_text<'d>(
    source: &Source<'d>,
    looked_up: bool,
    value: AttributeValue<'d>,
) -> Result<&'d [u8], Flaw>
    ensures { GivesLast slice_bytes (text_of_path (texts_view source.now) looked_up (value_view value.entry)) result }
{
    match value {
        AttributeValue::Text(bytes) => Ok(bytes),
        AttributeValue::TextRef { form, bits } => {
            if looked_up {
                Ok(text_elsewhere(source, form, bits)?)
            } else {
                Ok(&[])
            }
        }
        _ => Err(Flaw::Malformed),
    }
}
