//! The intervals of location lists, with their expressions. (DWARF 4, section 2.6.2; DWARF 5, section 2.6.2.)
ghost use Rattle.std.specs.Prelude.{option_map};
ghost use Rattle.dwc_dwarf.specs.Lists.{list_source};
ghost use Rattle.dwc_tabs.specs.OpenLists.{told_at_start};
ghost use Rattle.dwc_tabs.specs.RangeEnds.{GivesNextOf, GivesOrRefusal, among_given, given_at as given_with_base, given_view};
ghost use Rattle.dwc_tabs.specs.LocationLists.{range_view};
ghost use Rattle.dwc_tabs.specs.Locations.{listed_view, locations_given};

use crate::entry_given::given_at;
use crate::list_fault::ListFault;
use crate::list_start::{ListStart, told};
use crate::listed_location::{ListedLocation, with_expression};
use crate::location_entries::LocationEntries;
use crate::location_entry::LocationRange;
use dwc_base::Address;
use dwc_read::{AttributeValue, ReadFault, Unit};
use std::marker::Model;

/// The intervals of a location list that are still to come, with their expressions. They take no memory.
#[derive(Drop)]
pub struct Locations<'u, 'd> {
    unit: &'u Unit<'d>,
    entries: LocationEntries<'d>,
    // The base of what comes next.
    base: Address,
}

impl<'u, 'd> Model for Locations<'u, 'd> {
    ghost use Rattle.dwc_base.specs.Listing.{Listing};
    ghost use Rattle.dwc_dwarf.specs.Lists.{ListRefusal, ListedLocation};
    ghost use Rattle.dwc_tabs.specs.RangeEnds.{among_given};
    ghost use Rattle.dwc_tabs.specs.Locations.{locations_given};

    ghost Value = { Listing ListRefusal ListedLocation };

    ghost view = { λ l. among_given (locations_given l.unit.now.sections l.unit.now.header l.entries l.base) };
}

impl<'u, 'd> Locations<'u, 'd> {
    ghost use Rattle.std.specs.Prelude.{IsTrue};
    ghost use Rattle.dwc_dwarf.specs.RawLists.{is_location_list};
    ghost use Rattle.dwc_read.specs.ValuesSeen.{value_view};
    ghost use Rattle.dwc_tabs.specs.RangeEnds.{GivesNextOf};
    ghost use Rattle.dwc_tabs.specs.Locations.{BeginsLocations, GivesNextLocation, listed_view};

    /// The intervals of the location list that a value of the unit names: by its offset in `.debug_loc`, from version 5 on in
    /// `.debug_loclists`, or by its index among the unit's lists there. (DWARF 5, section 7.29.) They begin with the base that the
    /// unit's lists begin with.
    ///
    /// Asks for a `LocRef` or a `LocIndex`. Answers `Read` with the unit's offset where the offset of the list at an index passes
    /// the end of `.debug_loclists`.
    pub fn new(
        unit: &'u Unit<'d>,
        value: AttributeValue<'d>,
    ) -> Result<Locations<'u, 'd>, ReadFault>
        requires { IsTrue (is_location_list (value_view value)) }
        ensures { BeginsLocations unit.now.sections unit.now.header (value_view value.entry) result }
    {
        let entries = LocationEntries::new(unit, value)?;
        let base = unit.first_base();
        Ok(Locations {
            unit,
            entries,
            base,
        })
    }

    /// The next interval whose begin is below its end, with its expression: begin, end, and the expression's bytes. None at the
    /// end of the list. A default location is passed.
    ///
    /// Answers `Read` with the list's section and first byte where an entry, its expression, or an address by an index that it
    /// names cannot be read, and `TooLarge` where a start plus a length is no address. At the end, and after one of these, each
    /// later call answers the same.
    pub fn next_location(&mut self) -> Result<Option<(Address, Address, &'d [u8])>, ListFault>
        ensures { GivesNextLocation self.old self.new result }
    {
        match self.next_listed()? {
            Some(location) => Ok(Some((location.begin, location.end, location.bytes))),
            None => Ok(None),
        }
    }

    /// The same with the place of the expression, where a fault of it is told.
    pub fn next_listed(&mut self) -> Result<Option<ListedLocation<'d>>, ListFault>
        ensures { GivesNextOf listed_view self.old self.new result }
    {
        next_with_expression(self.unit, &mut self.entries, &mut self.base)
    }
}

// What an entry gives at a base: its interval, if it gives one, and the base behind it. A default location gives none.
#[inline(always)]
#[tactic(auto, unfolding(crate::specs::RangeEnds::given_at, dwc_dwarf::specs::Lists::interval_given, dwc_dwarf::specs::Lists::base_behind))]
fn range_given(
    unit: &Unit<'_>,
    start: ListStart,
    base: Address,
    says: LocationRange,
) -> Result<(Option<(Address, Address)>, Address), ListFault>
    ensures { GivesOrRefusal given_view (given_with_base (list_source unit.now.sections unit.now.header) (told_at_start start) base (range_view says)) result }
{
    match says {
        LocationRange::DefaultLocation => Ok((None, base)),
        LocationRange::Listed(entry) => Ok(given_at(unit, start, base, entry)?),
    }
}

// What the next entry gives, if there is one. The entries are put back where that is refused.
#[inline(always)]
fn next_given<'d>(
    unit: &Unit<'_>,
    entries: &mut LocationEntries<'d>,
    base: &mut Address,
) -> Result<Option<Option<ListedLocation<'d>>>, ListFault>
    ensures { GivesNextOf (option_map listed_view) (locations_given unit.now.sections unit.now.header entries.old base.old) (locations_given unit.now.sections unit.now.header entries.new base.new) result }
{
    let start = entries.start();
    let before = entries.again();
    match entries.next_raw() {
        Ok(Some(entry)) => match range_given(unit, start, *base, entry.says) {
            Ok(given) => {
                *base = given.1;
                Ok(Some(with_expression(given.0, entry.holds)))
            }
            Err(refusal) => {
                *entries = before;
                Err(refusal)
            }
        },
        Ok(None) => Ok(None),
        Err(fault) => Err(told(fault)),
    }
}

// The next interval with its expression, if there is one.
fn next_with_expression<'d>(
    unit: &Unit<'_>,
    entries: &mut LocationEntries<'d>,
    base: &mut Address,
) -> Result<Option<ListedLocation<'d>>, ListFault>
    ensures { GivesNextOf listed_view (among_given (locations_given unit.now.sections unit.now.header entries.old base.old)) (among_given (locations_given unit.now.sections unit.now.header entries.new base.new)) result }
{
    while let Some(given) = next_given(unit, entries, base)? {
        if let Some(location) = given {
            return Ok(Some(location));
        }
    }
    Ok(None)
}
