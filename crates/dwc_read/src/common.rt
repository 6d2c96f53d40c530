//! The values of the forms that compilers mostly use, read in place.
ghost use Rattle.std.specs.Prelude.{◌≡◌};
ghost use Rattle.dwc_dwarf.specs.Values.{value_at};
ghost use Rattle.dwc_read.specs.AttributeSpecs.{spec_view};
ghost use Rattle.dwc_read.specs.ValuesSeen.{value_view, GivesOrStays};

use crate::attribute_spec::AttributeSpec;
use crate::name::{is_location_name, section_offset};
use crate::{AttributeValue, Unit};
use dwc_base::Cursor;
use dwc_base::constants::{
    DW_FORM_addr, DW_FORM_addrx, DW_FORM_data1, DW_FORM_data2, DW_FORM_data4, DW_FORM_flag_present,
    DW_FORM_implicit_const, DW_FORM_loclistx, DW_FORM_ref4, DW_FORM_sec_offset, DW_FORM_strp,
    DW_FORM_strx1, DW_FORM_strx2,
};

// The bytes of an address of WebAssembly.
const ADDRESS_SIZE: u8 = 4;

// The value of an attribute, where its form is one of these and it stands in full.
#[inline(always)]
#[tactic(auto, unfolding(dwc_dwarf::specs::Values::value_at, dwc_dwarf::specs::Values::encoded_value_at, dwc_dwarf::specs::Values::form_code_at, dwc_dwarf::specs::Values::formed_value_at, dwc_dwarf::specs::Values::sized_number_at, dwc_base::specs::Sections::address_at))]
pub fn common_value<'d>(
    unit: &Unit<'d>,
    spec: AttributeSpec,
    cursor: &mut Cursor<'d>,
) -> Option<AttributeValue<'d>>
    ensures { GivesOrStays value_view (value_at unit.now.sections unit.now.header (spec_view spec) cursor.old) cursor.old cursor.new result }
{
    if spec.form > 65535 {
        return None;
    }
    match spec.form as u16 {
        DW_FORM_ref4 => {
            let offset = u64::from(cursor.u32().ok()?);
            Some(AttributeValue::UnitRef(offset))
        }
        DW_FORM_flag_present => Some(AttributeValue::Flag(true)),
        DW_FORM_sec_offset => {
            let offset = u64::from(cursor.u32().ok()?);
            Some(section_offset(spec.name, offset))
        }
        DW_FORM_addrx => {
            let index = cursor.uleb().ok()?;
            Some(AttributeValue::AddrIndex(index))
        }
        DW_FORM_addr if unit.address_size() == ADDRESS_SIZE => {
            let place = cursor.place();
            let spelled = u64::from(cursor.u32().ok()?);
            let address = unit.info_relocations().value(place, ADDRESS_SIZE, spelled);
            Some(AttributeValue::Addr(address))
        }
        form => common_text(unit, spec, form, cursor),
    }
}

// The same of texts elsewhere.
#[inline(always)]
#[tactic(auto, unfolding(dwc_dwarf::specs::Values::value_at, dwc_dwarf::specs::Values::encoded_value_at, dwc_dwarf::specs::Values::form_code_at, dwc_dwarf::specs::Values::formed_value_at, dwc_dwarf::specs::Values::sized_number_at))]
fn common_text<'d>(
    unit: &Unit<'d>,
    spec: AttributeSpec,
    form: u16,
    cursor: &mut Cursor<'d>,
) -> Option<AttributeValue<'d>>
    requires { spec.form ≡ form }
    ensures { GivesOrStays value_view (value_at unit.now.sections unit.now.header (spec_view spec) cursor.old) cursor.old cursor.new result }
{
    match form {
        DW_FORM_strp => {
            let bits = u64::from(cursor.u32().ok()?);
            Some(AttributeValue::TextRef { form, bits })
        }
        DW_FORM_strx1 => {
            let bits = u64::from(cursor.u8().ok()?);
            Some(AttributeValue::TextRef { form, bits })
        }
        DW_FORM_strx2 => {
            let bits = u64::from(cursor.u16().ok()?);
            Some(AttributeValue::TextRef { form, bits })
        }
        _ => common_constant(unit, spec, form, cursor),
    }
}

// The same of constants. Below version 4 some of four bytes are offsets.
#[inline(always)]
#[tactic(auto, unfolding(dwc_dwarf::specs::Values::value_at, dwc_dwarf::specs::Values::encoded_value_at, dwc_dwarf::specs::Values::form_code_at, dwc_dwarf::specs::Values::formed_value_at, dwc_dwarf::specs::Values::sized_number_at))]
fn common_constant<'d>(
    unit: &Unit<'d>,
    spec: AttributeSpec,
    form: u16,
    cursor: &mut Cursor<'d>,
) -> Option<AttributeValue<'d>>
    requires { spec.form ≡ form }
    ensures { GivesOrStays value_view (value_at unit.now.sections unit.now.header (spec_view spec) cursor.old) cursor.old cursor.new result }
{
    let bits = match form {
        DW_FORM_data1 => u64::from(cursor.u8().ok()?),
        DW_FORM_data2 => u64::from(cursor.u16().ok()?),
        DW_FORM_data4 if unit.version() >= 4 => u64::from(cursor.u32().ok()?),
        DW_FORM_implicit_const => spec.implicit.cast_unsigned(),
        _ => return common_list(unit, spec, form, cursor),
    };
    Some(AttributeValue::Constant { form, bits })
}

// The same of location lists by their indexes.
#[inline(always)]
#[tactic(auto, unfolding(dwc_dwarf::specs::Values::value_at, dwc_dwarf::specs::Values::encoded_value_at, dwc_dwarf::specs::Values::form_code_at, dwc_dwarf::specs::Values::formed_value_at))]
fn common_list<'d>(
    unit: &Unit<'d>,
    spec: AttributeSpec,
    form: u16,
    cursor: &mut Cursor<'d>,
) -> Option<AttributeValue<'d>>
    requires { spec.form ≡ form }
    ensures { GivesOrStays value_view (value_at unit.now.sections unit.now.header (spec_view spec) cursor.old) cursor.old cursor.new result }
{
    if form != DW_FORM_loclistx {
        return None;
    }
    let index = cursor.uleb().ok()?;
    if is_location_name(spec.name) {
        Some(AttributeValue::LocIndex(index))
    } else {
        Some(AttributeValue::Dropped)
    }
}
