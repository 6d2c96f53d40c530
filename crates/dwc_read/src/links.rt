//! What leads from an entry to others, to code and to a line table, among its attributes.
ghost use Rattle.std.specs.Prelude.{◌≡◌, ◌++◌, map, option_map, option_to_list, OnOk};
ghost use Rattle.dwc_base.specs.Cursors.{Gives, GivesOrMemory};
ghost use Rattle.dwc_read.specs.Links.{is_link_name, is_reference, link_at, link_of, links_at};
ghost use Rattle.dwc_read.specs.Skips.{AreSkips};
ghost use Rattle.dwc_read.specs.AttributeSpecs.{spec_view};
ghost use Rattle.dwc_read.specs.ValuesSeen.{value_view, attribute_view};

use crate::attribute::next_value;
use crate::attribute_spec::AttributeSpec;
use crate::{AttributeValue, Unit};
use dwc_base::constants::{DW_AT_low_pc, DW_AT_ranges, DW_AT_stmt_list};
use dwc_base::{Cursor, Flaw, NotRead};
use std::alloc::AllocError;

// Whether a value names an entry.
fn is_reference(value: AttributeValue<'_>) -> bool
    ensures { result ≡ is_reference (value_view value.entry) }
{
    match value {
        AttributeValue::UnitRef(_) => true,
        AttributeValue::InfoRef(_) => true,
        _ => false,
    }
}

// Whether a name is one of an attribute that leads to code or to a line table.
pub fn is_link_name(name: u16) -> bool
    ensures { result ≡ is_link_name name }
{
    name == DW_AT_low_pc || name == DW_AT_ranges || name == DW_AT_stmt_list
}

// A value under a name, if it leads elsewhere.
#[inline(always)]
fn link_of<'d>(name: u16, value: AttributeValue<'d>) -> Option<AttributeValue<'d>>
    ensures { option_map value_view result ≡ link_of name (value_view value.entry) }
{
    if is_link_name(name) || is_reference(value) {
        Some(value)
    } else {
        None
    }
}

// The value of an attribute, if it leads elsewhere.
#[inline(always)]
#[tactic(auto, unfolding(crate::specs::Links::link_at))]
fn next_link<'d>(
    unit: &Unit<'d>,
    spec: AttributeSpec,
    cursor: &mut Cursor<'d>,
) -> Result<Option<AttributeValue<'d>>, Flaw>
    ensures { Gives (option_map value_view) (link_at unit.now.sections unit.now.header (spec_view spec) cursor.old) cursor.new result }
{
    let value = next_value(unit, spec, cursor)?;
    Ok(link_of(spec.name, value))
}

// Puts a link, if there is one, behind others.
#[inline(always)]
fn put_link<'d>(
    found: &mut Vec<(u16, AttributeValue<'d>)>,
    name: u16,
    link: Option<AttributeValue<'d>>,
) -> Result<(), AllocError>
    ensures { OnOk result (map attribute_view found.new.items ≡ map attribute_view found.old.items ++ option_to_list (option_map (λ x. attribute_view (name, x)) link.entry)) }
{
    let Some(value) = link else {
        return Ok(());
    };
    found.push((name, value))?;
    Ok(())
}

// The links among the values of a declaration's attributes, one after another. A skip over attributes that lead nowhere is passed in one
// step.
#[inline(always)]
pub fn links<'d>(
    unit: &Unit<'d>,
    specs: &[AttributeSpec],
    cursor: &mut Cursor<'d>,
    found: &mut Vec<(u16, AttributeValue<'d>)>,
) -> Result<(), NotRead>
    requires { AreSkips specs.now }
    ensures { GivesOrMemory (λ _. map attribute_view found.new.items) (links_at unit.now.sections unit.now.header (map spec_view specs.now) cursor.old) cursor.new result }
{
    found.clear();
    let mut at = 0;
    while at < specs.len() {
        let spec = specs[at];
        if spec.skip > 0 {
            cursor.take(spec.skip_bytes as usize)?;
            at += spec.skip as usize;
            continue;
        }
        let link = next_link(unit, spec, cursor)?;
        put_link(found, spec.name, link)?;
        at += 1;
    }
    Ok(())
}
