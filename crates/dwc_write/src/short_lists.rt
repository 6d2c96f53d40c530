//! Whether the expressions of location lists are short enough for lengths of two bytes, found before a byte is written. They have such lengths
//! up to version 4. (DWARF 4, section 2.6.2.)
ghost use Rattle.std.specs.Prelude.{◌≡◌, IfOk};
ghost use Rattle.std.specs.List.{AllZip, list_all};
ghost use Rattle.dwc_unit.specs.GivenUnits.{ordered};
ghost use Rattle.dwc_write.specs.LayoutViews.{IsLaidOut};
ghost use Rattle.dwc_write.specs.ShortLists.{are_short_units, are_short_values, is_short_location, is_short_unit, is_short_value};

use crate::layout::UnitLayout;
use dwc_base::Address;
use dwc_section::WriteError;
use dwc_unit::additions::Additions;
use dwc_unit::attributes::{Held, KeptAttribute};
use dwc_unit::{Expression, Unit};

/// Whether all expressions of the location lists of units are; from version 5 on each is.
pub fn are_short_lists(
    version: u16,
    units: &[Unit],
    laid: &Result<Vec<UnitLayout>, WriteError>,
) -> bool
    requires { IfOk laid.now (λ ls. AllZip IsLaidOut units.now ls.items) }
    ensures { result ≡ are_short_units version units.now }
{
    if version < 5 {
        are_noted_short(units, laid)
    } else {
        true
    }
}

// Whether they are, as it is noted where units could be laid out.
#[tactic(auto, using(crate::proofs::NotedLaws::short_noted))]
fn are_noted_short(units: &[Unit], laid: &Result<Vec<UnitLayout>, WriteError>) -> bool
    requires { IfOk laid.now (λ ls. AllZip IsLaidOut units.now ls.items) }
    ensures { result ≡ list_all (λ u. is_short_unit (ordered u)) units.now }
{
    match laid {
        Ok(layouts) => have_short_notes(layouts),
        Err(_) => have_short_lists(units),
    }
}

// Whether those of units are.
fn have_short_lists(units: &[Unit]) -> bool
    ensures { result ≡ list_all (λ u. is_short_unit (ordered u)) units.now }
{
    units.iter().all(|unit| has_short_entries(unit))
}

// Whether those of units are, as it is noted.
fn have_short_notes(layouts: &[UnitLayout]) -> bool
    ensures { result ≡ list_all (λ l. l.notes.short) layouts.now }
{
    layouts.iter().all(|layout| layout.notes.short)
}

// Whether those of a unit are.
fn has_short_entries(unit: &Unit) -> bool
    ensures { result ≡ is_short_unit (ordered unit.now) }
{
    are_short_entries(&unit.additions)
}

// Whether those of entries are.
fn are_short_entries(additions: &Additions) -> bool
    ensures { result ≡ list_all (λ e. are_short_values e.attributes) additions.now }
{
    for place in 0..additions.len() {
        if !has_short_values(additions.attributes(place)) {
            return false;
        }
    }
    true
}

// Whether those of attributes are.
pub fn has_short_values(attributes: &[KeptAttribute]) -> bool
    ensures { result ≡ are_short_values attributes.now }
{
    attributes.iter().all(|attribute| is_short_list(attribute))
}

// Whether those of a value are.
fn is_short_list(attribute: &KeptAttribute) -> bool
    ensures { result ≡ is_short_value attribute.now.value }
{
    match attribute.value() {
        Held::LocationListRef(locations) => are_short(locations),
        _ => true,
    }
}

// Whether those of intervals are.
fn are_short(locations: &[(Address, u64, Expression)]) -> bool
    ensures { result ≡ list_all is_short_location locations.now }
{
    locations.iter().all(|location| is_short(location))
}

// Whether that of an interval is.
fn is_short(location: &(Address, u64, Expression)) -> bool
    ensures { result ≡ is_short_location location.now }
{
    location.2.as_slice().len() < 1 << 16
}
