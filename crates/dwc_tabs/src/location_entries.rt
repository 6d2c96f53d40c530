//! The entries of location lists, as they stand. (DWARF 4, section 2.6.2; DWARF 5, sections 2.6.2, 7.7.3 and 7.29.)
ghost use Rattle.std.specs.Prelude.{◌≡◌};
ghost use Rattle.dwc_dwarf.specs.Lists.{list_source};
ghost use Rattle.dwc_dwarf.specs.RawLists.{is_location_list as names_location_list, raw_locations};
ghost use Rattle.dwc_read.specs.ValuesSeen.{value_view};

use crate::list_start::{ListStart, list_fault};
use crate::location_entry::{LocationEntry, location_entry, section_of_locations};
use crate::open_list::{OpenList, offset_indexed};
use dwc_base::{Flaw, SectionName, What};
use dwc_read::{AttributeValue, ReadFault, Unit};
use std::marker::Model;

// The entries of a location list that are still to come, as they stand. They take no memory.
#[derive(Drop)]
pub(crate) struct LocationEntries<'d> {
    list: OpenList<'d>,
}

impl<'d> Model for LocationEntries<'d> {
    ghost use Rattle.std.specs.Prelude.{IsTrue};
    ghost use Rattle.dwc_base.specs.FieldSizes.{is_field_size};
    ghost use Rattle.dwc_tabs.specs.LocationLists.{LocationEntriesView, locations_left, place_of_locations};

    ghost Value = { LocationEntriesView };

    ghost view = { λ e. record { place = place_of_locations e.list.in_pairs e.list.offset; left = locations_left e.list } };

    ghost invariant = { λ e. IsTrue (is_field_size e.list.address_size) };
}

/// Whether a value names a location list, by its offset or by an index.
pub fn is_location_list(value: &AttributeValue<'_>) -> bool
    ensures { result ≡ names_location_list (value_view value.now) }
{
    match value {
        AttributeValue::LocRef(_) => true,
        AttributeValue::LocIndex(_) => true,
        _ => false,
    }
}

impl<'d> LocationEntries<'d> {
    ghost use Rattle.std.specs.Prelude.{IsTrue};
    ghost use Rattle.dwc_dwarf.specs.RawLists.{is_location_list};
    ghost use Rattle.dwc_base.specs.declared.faults.What.TheVariants.{LocationList as LocationListRead};
    ghost use Rattle.dwc_read.specs.ValuesSeen.{value_view};
    ghost use Rattle.dwc_tabs.specs.RangeLists.{GivesNextRead};
    ghost use Rattle.dwc_tabs.specs.LocationLists.{BeginsLocationEntries, location_view, place_of_locations};

    // The list of a unit at an offset.
    fn at(unit: &Unit<'d>, in_pairs: bool, offset: u64) -> LocationEntries<'d>
        ensures place { result.place ≡ place_of_locations in_pairs offset }
        ensures left { result.left ≡ raw_locations (list_source unit.now.sections unit.now.header) (place_of_locations in_pairs offset) }
    {
        LocationEntries {
            list: OpenList::at(unit, section_of_locations(in_pairs), in_pairs, offset),
        }
    }

    // The entries of the location list that a value of the unit names: by its offset in `.debug_loc`, from version 5 on in
    // `.debug_loclists`, or by its index among the unit's lists there. (DWARF 5, section 7.29.)
    pub(crate) fn new(
        unit: &Unit<'d>,
        value: AttributeValue<'d>,
    ) -> Result<LocationEntries<'d>, ReadFault>
        requires { IsTrue (is_location_list (value_view value)) }
        ensures { BeginsLocationEntries unit.now.sections unit.now.header (value_view value.entry) result }
    {
        match value {
            AttributeValue::LocRef(offset) => {
                Ok(LocationEntries::at(unit, unit.version() < 5, offset))
            }
            AttributeValue::LocIndex(index) => {
                match offset_indexed(unit, SectionName::Loclists, index) {
                    Ok(offset) => Ok(LocationEntries::at(unit, false, offset)),
                    Err(flaw) => Err(list_fault(
                        flaw,
                        What::LocationList,
                        SectionName::Info,
                        unit.offset(),
                    )),
                }
            }
            // No other value is asked for.
            _ => Err(list_fault(
                Flaw::Malformed,
                What::LocationList,
                SectionName::Info,
                unit.offset(),
            )),
        }
    }

    // Where the list begins.
    pub(crate) fn start(&self) -> ListStart
        ensures { result ≡ record { what = LocationListRead; section = self.now.place.section; offset = self.now.place.offset } }
    {
        ListStart {
            what: What::LocationList,
            section: section_of_locations(self.list.in_pairs),
            offset: self.list.offset,
        }
    }

    // The same entries once more.
    #[inline(always)]
    pub(crate) fn again(&self) -> LocationEntries<'d>
        ensures { result ≡ self.now }
    {
        LocationEntries {
            list: self.list.again(),
        }
    }

    // The next entry; None at the end of the list. At the end, and after a fault, each later call answers the same.
    #[inline(always)]
    pub(crate) fn next_raw(&mut self) -> Result<Option<LocationEntry<'d>>, ReadFault>
        ensures next { GivesNextRead location_view self.old.left self.new.left result }
        ensures place { self.new.place ≡ self.old.place }
    {
        let mut ahead = self.list.cursor.fork();
        match location_entry(
            self.list.in_pairs,
            &self.list.relocations,
            self.list.address_size,
            &mut ahead,
        ) {
            Ok(Some(entry)) => {
                self.list.cursor = ahead;
                Ok(Some(entry))
            }
            Ok(None) => Ok(None),
            Err(flaw) => Err(list_fault(
                flaw,
                What::LocationList,
                section_of_locations(self.list.in_pairs),
                self.list.offset,
            )),
        }
    }
}
