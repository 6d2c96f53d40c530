//! The entries of range lists, as they stand. (DWARF 4, section 2.17.3; DWARF 5, sections 2.17.3, 7.25 and 7.28.)
ghost use Rattle.std.specs.Prelude.{◌≡◌};
ghost use Rattle.dwc_dwarf.specs.RawLists.{is_range_list as names_range_list, raw_ranges};
ghost use Rattle.dwc_dwarf.specs.Lists.{list_source};
ghost use Rattle.dwc_read.specs.ValuesSeen.{value_view};
ghost use Rattle.dwc_tabs.specs.RangeLists.{section_of_lists as section_of};

use crate::list_start::{ListStart, list_fault};
use crate::open_list::{OpenList, offset_indexed};
use crate::range_entry::{RangeEntry, range_entry};
use dwc_base::{Flaw, SectionName, What};
use dwc_read::{AttributeValue, ReadFault, Unit};
use std::marker::Model;

/// The entries of a range list that are still to come, as they stand. They take no memory.
#[derive(Drop)]
pub struct RangeEntries<'d> {
    list: OpenList<'d>,
}

impl<'d> Model for RangeEntries<'d> {
    ghost use Rattle.std.specs.Prelude.{IsTrue};
    ghost use Rattle.dwc_base.specs.FieldSizes.{is_field_size};
    ghost use Rattle.dwc_tabs.specs.RangeLists.{RangeEntriesView, entries_left, place_of_list};

    ghost Value = { RangeEntriesView };

    ghost view = { λ e. record { place = place_of_list e.list.in_pairs e.list.offset; left = entries_left e.list } };

    ghost invariant = { λ e. IsTrue (is_field_size e.list.address_size) };
}

/// Whether a value names a range list, by its offset or by an index.
pub fn is_range_list(value: &AttributeValue<'_>) -> bool
    ensures { result ≡ names_range_list (value_view value.now) }
{
    match value {
        AttributeValue::RangeRef(_) => true,
        AttributeValue::RangeIndex(_) => true,
        _ => false,
    }
}

// The section of lists of pairs, or of those from version 5 on.
fn section_of_lists(in_pairs: bool) -> SectionName
    ensures { result ≡ section_of in_pairs }
{
    if in_pairs {
        SectionName::Ranges
    } else {
        SectionName::Rnglists
    }
}

impl<'d> RangeEntries<'d> {
    ghost use Rattle.std.specs.Prelude.{IsTrue};
    ghost use Rattle.dwc_dwarf.specs.RawLists.{is_range_list};
    ghost use Rattle.dwc_base.specs.declared.faults.What.TheVariants.{RangeList as RangeListRead};
    ghost use Rattle.dwc_read.specs.ValuesSeen.{value_view};
    ghost use Rattle.dwc_tabs.specs.RangeLists.{BeginsEntries, GivesNextRead, entry_view, place_of_list};

    // The list of a unit at an offset.
    fn at(unit: &Unit<'d>, in_pairs: bool, offset: u64) -> RangeEntries<'d>
        ensures place { result.place ≡ place_of_list in_pairs offset }
        ensures left { result.left ≡ raw_ranges (list_source unit.now.sections unit.now.header) (place_of_list in_pairs offset) }
    {
        RangeEntries {
            list: OpenList::at(unit, section_of_lists(in_pairs), in_pairs, offset),
        }
    }

    /// The entries of the range list that a value of the unit names: by its offset in `.debug_ranges`, from version 5 on in
    /// `.debug_rnglists`, or by its index among the unit's lists there. (DWARF 5, section 7.28.)
    ///
    /// Asks for a `RangeRef` or a `RangeIndex`. Answers `Read` with the unit's offset where the offset of the list at an index
    /// passes the end of `.debug_rnglists`.
    pub fn new(unit: &Unit<'d>, value: AttributeValue<'d>) -> Result<RangeEntries<'d>, ReadFault>
        requires { IsTrue (is_range_list (value_view value)) }
        ensures { BeginsEntries unit.now.sections unit.now.header (value_view value.entry) result }
    {
        match value {
            AttributeValue::RangeRef(offset) => {
                Ok(RangeEntries::at(unit, unit.version() < 5, offset))
            }
            AttributeValue::RangeIndex(index) => {
                match offset_indexed(unit, SectionName::Rnglists, index) {
                    Ok(offset) => Ok(RangeEntries::at(unit, false, offset)),
                    Err(flaw) => Err(list_fault(
                        flaw,
                        What::RangeList,
                        SectionName::Info,
                        unit.offset(),
                    )),
                }
            }
            // No other value is asked for.
            _ => Err(list_fault(
                Flaw::Malformed,
                What::RangeList,
                SectionName::Info,
                unit.offset(),
            )),
        }
    }

    /// The section that the list stands in.
    pub fn section(&self) -> SectionName
        ensures { result ≡ self.now.place.section }
    {
        section_of_lists(self.list.in_pairs)
    }

    /// The offset of the list's first byte there.
    pub fn offset(&self) -> u64
        ensures { result ≡ self.now.place.offset }
    {
        self.list.offset
    }

    // Where the list begins.
    pub(crate) fn start(&self) -> ListStart
        ensures { result ≡ record { what = RangeListRead; section = self.now.place.section; offset = self.now.place.offset } }
    {
        ListStart {
            what: What::RangeList,
            section: self.section(),
            offset: self.list.offset,
        }
    }

    // The same entries once more.
    #[inline(always)]
    pub(crate) fn again(&self) -> RangeEntries<'d>
        ensures { result ≡ self.now }
    {
        RangeEntries {
            list: self.list.again(),
        }
    }

    /// The next entry; None at the end of the list.
    ///
    /// Answers `Read` with the list's section and first byte where no entry stands there: where its kind is none, or its operands
    /// pass the end of the section or do not fit 64 bits. At the end, and after one of these, each later call answers the same.
    #[inline(always)]
    pub fn next_raw(&mut self) -> Result<Option<RangeEntry>, ReadFault>
        ensures next { GivesNextRead entry_view self.old.left self.new.left result }
        ensures place { self.new.place ≡ self.old.place }
    {
        let mut ahead = self.list.cursor.fork();
        match range_entry(
            self.list.in_pairs,
            &self.list.relocations,
            self.list.address_size,
            &mut ahead,
        ) {
            Ok(Some(entry)) => {
                self.list.cursor = ahead;
                Ok(Some(entry))
            }
            Ok(None) => Ok(None),
            Err(flaw) => Err(list_fault(
                flaw,
                What::RangeList,
                section_of_lists(self.list.in_pairs),
                self.list.offset,
            )),
        }
    }
}
