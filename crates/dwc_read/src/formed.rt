//! The values of the forms. (DWARF 4, section 7.5.4; DWARF 5, sections 7.5.4 to 7.5.6.)
ghost use Rattle.std.specs.Prelude.{◌≡◌, IsTrue};
ghost use Rattle.dwc_base.specs.Cursors.{Gives, slice_bytes};
ghost use Rattle.dwc_dwarf.specs.Values.{block_at, formed_value_at};
ghost use Rattle.dwc_base.specs.FieldSizes.{is_field_size};
ghost use Rattle.dwc_read.specs.Sizes.{size_view};
ghost use Rattle.dwc_read.specs.Forms.{form_view};
ghost use Rattle.dwc_read.specs.AttributeSpecs.{spec_view};
ghost use Rattle.dwc_read.specs.ValuesSeen.{value_view};

use crate::AttributeValue;
use crate::attribute_spec::AttributeSpec;
use crate::form::Form;
use crate::name::{block_value, constant_value, is_location_name, is_range_name, section_offset};
use crate::number::{Size, sized_number};
use dwc_base::fields::{address, number};
use dwc_base::{Cursor, Encoding, Flaw, Kind, Relocations};

// A length, and that many bytes.
#[tactic(auto, unfolding(dwc_dwarf::specs::Values::block_at))]
fn block<'d>(size: Size, cursor: &mut Cursor<'d>) -> Result<&'d [u8], Flaw>
    ensures { Gives slice_bytes (block_at (size_view size) cursor.old) cursor.new result }
{
    let length = sized_number(size, cursor)?;
    Ok(cursor.take(length as usize)?)
}

// The value of a form, in a section with some relocations.
#[tactic(auto, unfolding(dwc_dwarf::specs::Values::formed_value_at))]
pub fn formed_value<'d>(
    relocations: &Relocations<'_>,
    encoding: Encoding,
    spec: AttributeSpec,
    code: u16,
    form: Form,
    cursor: &mut Cursor<'d>,
) -> Result<AttributeValue<'d>, Flaw>
    requires { IsTrue (is_field_size encoding.address_size) }
    ensures { Gives value_view (formed_value_at relocations.now encoding (spec_view spec) code (form_view form) cursor.old) cursor.new result }
{
    match form {
        Form::Addr => {
            let value = address(relocations, encoding.address_size, cursor)?;
            Ok(AttributeValue::Addr(value))
        }
        Form::IndexedAddr(size) => {
            let index = sized_number(size, cursor)?;
            Ok(AttributeValue::AddrIndex(index))
        }
        Form::Blocks(size) => {
            let bytes = block(size, cursor)?;
            Ok(block_value(spec.name, bytes))
        }
        Form::Exprloc => {
            let bytes = block(Size::Variable, cursor)?;
            Ok(AttributeValue::Exprloc(bytes))
        }
        Form::DataOf(size) => {
            let bits = sized_number(size, cursor)?;
            Ok(constant_value(encoding.version, spec.name, code, bits))
        }
        Form::Sdata => {
            let value = cursor.sleb()?;
            let bits = value.cast_unsigned();
            Ok(AttributeValue::Constant { form: code, bits })
        }
        Form::Implicit => {
            let bits = spec.implicit.cast_unsigned();
            Ok(AttributeValue::Constant { form: code, bits })
        }
        Form::FlagByte => {
            let value = number(1, cursor)?;
            Ok(AttributeValue::Flag(value != 0))
        }
        Form::FlagPresent => Ok(AttributeValue::Flag(true)),
        Form::Text => {
            let bytes = cursor.text()?;
            Ok(AttributeValue::Text(bytes))
        }
        Form::TextElsewhere(size) => {
            let bits = sized_number(size, cursor)?;
            Ok(AttributeValue::TextRef { form: code, bits })
        }
        Form::Reference(size) => {
            let offset = sized_number(size, cursor)?;
            Ok(AttributeValue::UnitRef(offset))
        }
        Form::RefAddr => {
            let size = if encoding.version == 2 {
                encoding.address_size
            } else {
                4
            };
            let offset = number(size, cursor)?;
            Ok(AttributeValue::InfoRef(offset))
        }
        Form::SecOffset => {
            let offset = number(4, cursor)?;
            Ok(section_offset(spec.name, offset))
        }
        Form::IndexedLocation => {
            let index = cursor.uleb()?;
            if is_location_name(spec.name) {
                Ok(AttributeValue::LocIndex(index))
            } else {
                Ok(AttributeValue::Dropped)
            }
        }
        Form::IndexedRange => {
            let index = cursor.uleb()?;
            if is_range_name(spec.name) {
                Ok(AttributeValue::RangeIndex(index))
            } else {
                Ok(AttributeValue::Dropped)
            }
        }
        Form::PassedOver(size) => {
            cursor.take(size)?;
            Ok(AttributeValue::Dropped)
        }
        Form::Supplementary => Err(Flaw::Refused(Kind::Supplementary)),
    }
}
