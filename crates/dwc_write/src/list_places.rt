//! Where lists stand, found before their values are written: each kind in a section of its own, one list behind another. (DWARF 4,
//! sections 2.17.3 and 2.6.2; DWARF 5, sections 7.25, 7.28 and 7.29.)
ghost use Rattle.std.specs.Prelude.{◌≡◌, ◌≤◌, ◌+◌, map};
ghost use Rattle.dwc_unit.specs.Lists.{AreWithin, behind_value as behind_one, ended, list_length};
ghost use Rattle.dwc_section.specs.Writers.{most_bytes};

use crate::lists::{Listed, listed_length};
use dwc_unit::attributes::{Held, KeptAttribute};
use dwc_unit::lists::ListPlaces;

/// Where the next lists stand behind that of a value, if it has one.
pub fn behind_value(
    version: u16,
    places: ListPlaces,
    size: u8,
    attribute: &KeptAttribute,
) -> ListPlaces
    requires { AreWithin (behind_one version size places attribute.now.value) }
    ensures { result ≡ behind_one version size places attribute.now.value }
{
    match attribute.value() {
        Held::RangeListRef(list) => ListPlaces {
            ranges: behind_list(version, places.ranges, size, list.as_slice()),
            locations: places.locations,
        },
        Held::LocationListRef(locations) => ListPlaces {
            ranges: places.ranges,
            locations: behind_list(version, places.locations, size, locations),
        },
        _ => places,
    }
}

// The place behind a list with its end.
fn behind_list<T: Listed>(version: u16, place: usize, size: u8, entries: &[T]) -> usize
    requires { place + list_length version size (ended (map T.listed entries.now)) ≤ most_bytes }
    ensures { result ≡ place + list_length version size (ended (map T.listed entries.now)) }
{
    let mut next = place;
    for i in 0..entries.len() {
        let entry = &entries[i];
        next += listed_length(version, size, entry.extent(), entry.expression());
    }
    let end = listed_length(version, size, 0, None);
    next + end
}
