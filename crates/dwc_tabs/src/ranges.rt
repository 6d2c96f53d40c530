//! The intervals of range lists. (DWARF 4, section 2.17.3; DWARF 5, section 2.17.3.)
ghost use Rattle.std.specs.Prelude.{option_map};
ghost use Rattle.dwc_tabs.specs.RangeEnds.{interval_view, ranges_given, among_given, GivesNextOf};

use crate::entry_given::given_at;
use crate::list_fault::ListFault;
use crate::list_start::told;
use crate::range_entries::RangeEntries;
use dwc_base::Address;
use dwc_read::{AttributeValue, ReadFault, Unit};
use std::marker::Model;

/// The intervals of a range list that are still to come. They take no memory.
#[derive(Drop)]
pub struct Ranges<'u, 'd> {
    unit: &'u Unit<'d>,
    entries: RangeEntries<'d>,
    // The base of what comes next.
    base: Address,
}

impl<'u, 'd> Model for Ranges<'u, 'd> {
    ghost use Rattle.dwc_base.specs.Listing.{Listing};
    ghost use Rattle.dwc_dwarf.specs.Lists.{ListRefusal};
    ghost use Rattle.dwc_dwarf.specs.Trees.{Interval};
    ghost use Rattle.dwc_tabs.specs.RangeEnds.{ranges_given, among_given};

    ghost Value = { Listing ListRefusal Interval };

    ghost view = { λ r. among_given (ranges_given r.unit.now.sections r.unit.now.header r.entries r.base) };
}

impl<'u, 'd> Ranges<'u, 'd> {
    ghost use Rattle.std.specs.Prelude.{IsTrue};
    ghost use Rattle.dwc_dwarf.specs.RawLists.{is_range_list};
    ghost use Rattle.dwc_read.specs.ValuesSeen.{value_view};
    ghost use Rattle.dwc_tabs.specs.RangeEnds.{BeginsRanges, GivesNextOf, interval_view};

    /// The intervals of the range list that a value of the unit names, as [`RangeEntries::new`] finds it. They begin with the base
    /// that the unit's lists begin with.
    ///
    /// Asks for a `RangeRef` or a `RangeIndex`. Answers `Read` with the unit's offset where the offset of the list at an index
    /// passes the end of `.debug_rnglists`.
    pub fn new(unit: &'u Unit<'d>, value: AttributeValue<'d>) -> Result<Ranges<'u, 'd>, ReadFault>
        requires { IsTrue (is_range_list (value_view value)) }
        ensures { BeginsRanges unit.now.sections unit.now.header (value_view value.entry) result }
    {
        let entries = RangeEntries::new(unit, value)?;
        let base = unit.first_base();
        Ok(Ranges {
            unit,
            entries,
            base,
        })
    }

    /// The next interval whose begin is below its end: its begin and its end. None at the end of the list.
    ///
    /// Answers `Read` with the list's section and first byte where an entry, or an address by an index that it names, cannot be
    /// read, and `TooLarge` where a start plus a length is no address. At the end, and after one of these, each later call answers
    /// the same.
    pub fn next_range(&mut self) -> Result<Option<(Address, Address)>, ListFault>
        ensures { GivesNextOf interval_view self.old self.new result }
    {
        next_interval(self.unit, &mut self.entries, &mut self.base)
    }
}

// What the next entry gives, if there is one. The entries are put back where that is refused.
#[inline(always)]
fn next_given(
    unit: &Unit<'_>,
    entries: &mut RangeEntries<'_>,
    base: &mut Address,
) -> Result<Option<Option<(Address, Address)>>, ListFault>
    ensures { GivesNextOf (option_map interval_view) (ranges_given unit.now.sections unit.now.header entries.old base.old) (ranges_given unit.now.sections unit.now.header entries.new base.new) result }
{
    let start = entries.start();
    let before = entries.again();
    match entries.next_raw() {
        Ok(Some(entry)) => match given_at(unit, start, *base, entry) {
            Ok(given) => {
                *base = given.1;
                Ok(Some(given.0))
            }
            Err(refusal) => {
                *entries = before;
                Err(refusal)
            }
        },
        Ok(None) => Ok(None),
        Err(fault) => Err(told(fault)),
    }
}

// The next interval, if there is one.
fn next_interval(
    unit: &Unit<'_>,
    entries: &mut RangeEntries<'_>,
    base: &mut Address,
) -> Result<Option<(Address, Address)>, ListFault>
    ensures { GivesNextOf interval_view (among_given (ranges_given unit.now.sections unit.now.header entries.old base.old)) (among_given (ranges_given unit.now.sections unit.now.header entries.new base.new)) result }
{
    while let Some(given) = next_given(unit, entries, base)? {
        if let Some(range) = given {
            return Ok(Some(range));
        }
    }
    Ok(None)
}
