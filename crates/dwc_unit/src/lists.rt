//! Range lists and location lists, as they are given. (DWARF 4, sections 2.17.3 and 2.6.2.)
ghost use Rattle.std.specs.Prelude.{◌≡◌};

use crate::expressions::Expression;
use dwc_base::Address;
use std::marker::Model;

/// A range list: intervals of addresses in order, each by where it begins and how many bytes it has.
#[derive(Drop)]
pub struct RangeList {
    ranges: Vec<(Address, u64)>,
}

impl RangeList {
    /// The list of some intervals.
    pub fn new(ranges: Vec<(Address, u64)>) -> RangeList
        ensures { result ≡ record { ranges = ranges } }
    {
        RangeList { ranges }
    }

    /// Its intervals.
    pub fn as_slice(&self) -> &[(Address, u64)]
        ensures { result.now ≡ self.now.ranges.items }
    {
        self.ranges.as_slice()
    }
}

/// A location list: intervals of addresses in order, each with the expression that holds there.
#[derive(Drop)]
pub struct LocationList {
    locations: Vec<(Address, u64, Expression)>,
}

impl Model for LocationList {
    ghost use Rattle.dwc_unit.specs.LocationLists as seen;

    ghost Value = { seen.LocationList };

    ghost view = { λ l. record { locations = record { items = l.locations.items } } };
}

impl LocationList {
    /// The list of some intervals, each by where it begins and how many bytes it has.
    pub fn new(locations: Vec<(Address, u64, Expression)>) -> LocationList
        ensures { result ≡ record { locations = record { items = locations.items } } }
    {
        LocationList { locations }
    }

    // Its intervals with their expressions, taken out.
    pub(crate) fn into_locations(self) -> Vec<(Address, u64, Expression)>
        ensures { result.items ≡ self.locations.items }
    {
        self.locations
    }

    /// Its intervals with their expressions.
    pub fn as_slice(&self) -> &[(Address, u64, Expression)]
        ensures { result.now ≡ self.now.locations.items }
    {
        self.locations.as_slice()
    }
}

/// The two kinds of lists, each of which stands in a section of its own.
#[derive(Clone, Copy)]
pub enum ListKind {
    /// Range lists, in `.debug_ranges`.
    Ranges,
    /// Location lists, in `.debug_loc`.
    Locations,
}

/// Where the next range list and the next location list stand, each in its section.
#[derive(Clone, Copy)]
pub struct ListPlaces {
    /// The next range list, in bytes of `.debug_ranges`.
    pub ranges: usize,
    /// The next location list, in bytes of `.debug_loc`.
    pub locations: usize,
}
