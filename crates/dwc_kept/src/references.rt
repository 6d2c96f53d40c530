//! The offsets that the references of an entry name.
ghost use Rattle.std.specs.Prelude.{◌≡◌, ◌+◌, ◌≤◌, ◌++◌, length, map, filter_map, vec_capacity, vec_len};
ghost use Rattle.dwc_read.specs.ValuesSeen.{value_view, attribute_view};
ghost use Rattle.dwc_dwarf.specs.Values.{unit_reference};
ghost use Rattle.dwc_kept.specs.ReadEntries.{small_offset, named_offset, attribute_offset};

use dwc_base::constants::DW_AT_sibling;
use dwc_read::AttributeValue;

// An offset of `.debug_info`, if an entry may stand there.
fn small_offset(offset: u64) -> Option<u32>
    ensures { result ≡ small_offset offset }
{
    u32::try_from(offset).ok()
}

// The offset that a reference within a unit names.
fn offset_in_unit(unit: u64, end: u64, place: u64) -> Option<u32>
    ensures { result ≡ named_offset unit end (unit_reference place) }
{
    if place < end.saturating_sub(unit) {
        small_offset(unit + place)
    } else {
        None
    }
}

/// The offset that a value names, in a unit from an offset up to another.
pub fn named_offset(unit: u64, end: u64, value: AttributeValue<'_>) -> Option<u32>
    ensures { result ≡ named_offset unit end (value_view value.entry) }
{
    match value {
        AttributeValue::UnitRef(place) => offset_in_unit(unit, end, place),
        AttributeValue::InfoRef(offset) => small_offset(offset),
        _ => None,
    }
}

// The offset that an attribute, other than `sibling`, names.
fn attribute_offset(unit: u64, end: u64, attribute: &(u16, AttributeValue<'_>)) -> Option<u32>
    ensures { result ≡ attribute_offset unit end (attribute_view attribute.now) }
{
    if attribute.0 == DW_AT_sibling {
        None
    } else {
        named_offset(unit, end, attribute.1)
    }
}

/// Puts the offsets that attributes name, other than `sibling`, behind those in a list with room for one each. A reference within the
/// unit names an offset before the unit's end.
pub(crate) fn put_offsets(
    unit: u64,
    end: u64,
    attributes: &[(u16, AttributeValue<'_>)],
    offsets: &mut Vec<u32>,
)
    requires { vec_len offsets.old + length attributes.now ≤ vec_capacity offsets.old }
    ensures { offsets.new.items ≡ offsets.old.items ++ filter_map (attribute_offset unit end) (map attribute_view attributes.now) }
{
    for attribute in attributes {
        if let Some(offset) = attribute_offset(unit, end, attribute) {
            offsets.push_reserved(offset);
        }
    }
}
