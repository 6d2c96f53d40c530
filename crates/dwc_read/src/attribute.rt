//! The attributes of an entry. (DWARF 4 and 5, section 7.5.4.)
ghost use Rattle.std.specs.Prelude.{◌≡◌, map, option_map, length, IsTrue};
ghost use Rattle.dwc_base.specs.declared.constants.TheConstants.{DW_FORM_exprloc};
ghost use Rattle.dwc_base.specs.Cursors.{Gives, GivesOrMemory};
ghost use Rattle.dwc_dwarf.specs.Entries.{attributes_at};
ghost use Rattle.dwc_dwarf.specs.Values.{form_behind as code_behind, form_code_at, encoded_value_at, value_at};
ghost use Rattle.dwc_base.specs.FieldSizes.{is_field_size};
ghost use Rattle.dwc_read.specs.AttributeSpecs.{spec_view};
ghost use Rattle.dwc_read.specs.ValuesSeen.{value_view, attribute_view, first_value};

use crate::attribute_spec::AttributeSpec;
use crate::common::common_value;
use crate::form::form_named;
use crate::formed::formed_value;
use crate::{AttributeValue, Unit};
use dwc_base::constants::{DW_FORM_exprloc, DW_FORM_implicit_const, DW_FORM_indirect};
use dwc_base::{Cursor, Encoding, Flaw, NotRead, Relocations};

// The code of the form behind `indirect`, which may stand there again.
#[tactic(auto, unfolding(dwc_dwarf::specs::Values::form_behind))]
fn form_behind(cursor: &mut Cursor<'_>) -> Result<u64, Flaw>
    ensures { Gives (λ x. x) (code_behind (length cursor.old.left) cursor.old) cursor.new result }
{
    for _ in 0..cursor.left() {
        let code = cursor.uleb()?;
        if code == u64::from(DW_FORM_indirect) {
            continue;
        }
        if code == u64::from(DW_FORM_implicit_const) {
            return Err(Flaw::Malformed);
        }
        return Ok(code);
    }
    Err(Flaw::Malformed)
}

// The code of an attribute's form.
#[tactic(auto, unfolding(dwc_dwarf::specs::Values::form_code_at))]
fn form_code(spec: AttributeSpec, cursor: &mut Cursor<'_>) -> Result<u64, Flaw>
    ensures { Gives (λ x. x) (form_code_at (spec_view spec) cursor.old) cursor.new result }
{
    if spec.form == u64::from(DW_FORM_indirect) {
        Ok(form_behind(cursor)?)
    } else {
        Ok(spec.form)
    }
}

/// The value at the front, by its form, in a section with some relocations. It is `Malformed` where the form's code names no
/// form, and `Refused` for a form of a supplementary file. (DWARF 5, section 7.5.6.)
#[tactic(auto, unfolding(dwc_dwarf::specs::Values::encoded_value_at), using(crate::proofs::FormLaws::form_of_large))]
pub fn encoded_value<'d>(
    relocations: &Relocations<'_>,
    encoding: Encoding,
    spec: AttributeSpec,
    cursor: &mut Cursor<'d>,
) -> Result<AttributeValue<'d>, Flaw>
    requires { IsTrue (is_field_size encoding.address_size) }
    ensures { Gives value_view (encoded_value_at relocations.now encoding (spec_view spec) cursor.old) cursor.new result }
{
    let code = form_code(spec, cursor)?;
    if code > 65535 {
        return Err(Flaw::Malformed);
    }
    let code = code as u16;
    let Some(form) = form_named(code) else {
        return Err(Flaw::Malformed);
    };
    Ok(formed_value(relocations, encoding, spec, code, form, cursor)?)
}

// The value of an attribute of an entry of a unit.
#[tactic(auto, unfolding(dwc_dwarf::specs::Values::value_at))]
pub fn value<'d>(
    unit: &Unit<'d>,
    spec: AttributeSpec,
    cursor: &mut Cursor<'d>,
) -> Result<AttributeValue<'d>, Flaw>
    ensures { Gives value_view (value_at unit.now.sections unit.now.header (spec_view spec) cursor.old) cursor.new result }
{
    let encoding = Encoding {
        version: unit.version(),
        address_size: unit.address_size(),
    };
    encoded_value(unit.info_relocations(), encoding, spec, cursor)
}

// The same of an expression.
#[inline(always)]
#[tactic(auto, unfolding(dwc_dwarf::specs::Values::value_at, dwc_dwarf::specs::Values::encoded_value_at, dwc_dwarf::specs::Values::form_code_at, dwc_dwarf::specs::Values::formed_value_at, dwc_dwarf::specs::Values::block_at, dwc_dwarf::specs::Values::sized_number_at))]
fn expression<'d>(
    unit: &Unit<'d>,
    spec: AttributeSpec,
    cursor: &mut Cursor<'d>,
) -> Result<AttributeValue<'d>, Flaw>
    requires { spec.form ≡ DW_FORM_exprloc }
    ensures { Gives value_view (value_at unit.now.sections unit.now.header (spec_view spec) cursor.old) cursor.new result }
{
    let length = cursor.uleb()?;
    let bytes = cursor.take(length as usize)?;
    Ok(AttributeValue::Exprloc(bytes))
}

// The same in the loop over attributes. Common forms and expressions are read in place and the others by a call with a cursor of its
// own, so that the loop keeps its cursor in registers.
#[inline(always)]
pub fn next_value<'d>(
    unit: &Unit<'d>,
    spec: AttributeSpec,
    cursor: &mut Cursor<'d>,
) -> Result<AttributeValue<'d>, Flaw>
    ensures { Gives value_view (value_at unit.now.sections unit.now.header (spec_view spec) cursor.old) cursor.new result }
{
    if let Some(value) = common_value(unit, spec, cursor) {
        return Ok(value);
    }
    if spec.form == u64::from(DW_FORM_exprloc) {
        return Ok(expression(unit, spec, cursor)?);
    }
    let mut ahead = cursor.fork();
    let value = value(unit, spec, &mut ahead)?;
    *cursor = ahead;
    Ok(value)
}

// The values of a declaration's attributes, one after another.
#[inline(always)]
pub fn attributes<'d>(
    unit: &Unit<'d>,
    specs: &[AttributeSpec],
    cursor: &mut Cursor<'d>,
    found: &mut Vec<(u16, AttributeValue<'d>)>,
) -> Result<(), NotRead>
    ensures { GivesOrMemory (λ _. map attribute_view found.new.items) (attributes_at unit.now.sections unit.now.header (map spec_view specs.now) cursor.old) cursor.new result }
{
    found.clear();
    for spec in specs {
        let value = next_value(unit, *spec, cursor)?;
        found.push((spec.name, value))?;
    }
    Ok(())
}

// The first value of a name.
pub fn first_of_name<'d>(
    attributes: &[(u16, AttributeValue<'d>)],
    name: u16,
) -> Option<AttributeValue<'d>>
    ensures { option_map value_view result ≡ first_value name (map attribute_view attributes.now) }
{
    for attribute in attributes {
        if attribute.0 == name {
            return Some(attribute.1);
        }
    }
    None
}
