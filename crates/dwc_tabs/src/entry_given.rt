//! What an entry of a list of ranges or of locations gives: an interval, and the base of what comes next. (DWARF 4, sections
//! 2.6.2 and 2.17.3; DWARF 5, sections 2.6.2 and 2.17.3.)
ghost use Rattle.std.specs.Prelude.{option_map};
ghost use Rattle.dwc_dwarf.specs.Lists.{list_source, interval_given as given_by_entry, base_behind as base_by_entry, indexed_at};
ghost use Rattle.dwc_tabs.specs.OpenLists.{told_at_start};
ghost use Rattle.dwc_tabs.specs.RangeLists.{entry_view};
ghost use Rattle.dwc_tabs.specs.RangeEnds.{GivesOrRefusal, interval_view, given_view, given_at as given_with_base};

use crate::list_fault::ListFault;
use crate::list_start::{ListStart, unreadable};
use crate::range_ends::{end_from_base, from_base, interval_between, interval_of_length};
use crate::range_entry::RangeEntry;
use dwc_base::Address;
use dwc_read::{ReadFault, Unit};

// The address at an index, told at the list where it cannot be read.
fn address_at(unit: &Unit<'_>, start: ListStart, index: u64) -> Result<Address, ListFault>
    ensures { GivesOrRefusal (λ a. a) (indexed_at (list_source unit.now.sections unit.now.header) (told_at_start start) index) result }
{
    match unit.address(index) {
        Ok(address) => Ok(address),
        Err(ReadFault::Unsupported { what, .. }) => Err(ListFault::Unsupported {
            what,
            offset: start.offset,
        }),
        Err(ReadFault::Read { .. }) => Err(unreadable(start)),
        Err(ReadFault::OutOfMemory) => Err(unreadable(start)),
    }
}

// The interval that an entry gives at a base, if it gives one.
#[inline(always)]
#[tactic(auto, unfolding(dwc_dwarf::specs::Lists::interval_given))]
fn interval_given(
    unit: &Unit<'_>,
    start: ListStart,
    base: Address,
    entry: RangeEntry,
) -> Result<Option<(Address, Address)>, ListFault>
    ensures { GivesOrRefusal (option_map interval_view) (given_by_entry (list_source unit.now.sections unit.now.header) (told_at_start start) base (entry_view entry)) result }
{
    match entry {
        RangeEntry::StartxEndx(first, last) => {
            let begin = address_at(unit, start, first)?;
            let end = address_at(unit, start, last)?;
            Ok(interval_between(begin, end))
        }
        RangeEntry::StartxLength(index, length) => {
            let begin = address_at(unit, start, index)?;
            Ok(interval_of_length(begin, length)?)
        }
        RangeEntry::OffsetPair(begin, end) => Ok(interval_between(
            from_base(base, begin),
            from_base(base, end),
        )),
        RangeEntry::StartEnd(begin, end) => Ok(interval_between(begin, end)),
        RangeEntry::StartLength(begin, length) => Ok(interval_of_length(begin, length)?),
        RangeEntry::Pair(begin, end) => Ok(interval_between(
            end_from_base(base, begin),
            end_from_base(base, end),
        )),
        RangeEntry::BaseAddressx(_) => Ok(None),
        RangeEntry::BaseAddress(_) => Ok(None),
        RangeEntry::Base(_) => Ok(None),
    }
}

// The base behind an entry: the one that it selects, else the one before.
#[inline(always)]
#[tactic(auto, unfolding(dwc_dwarf::specs::Lists::base_behind))]
fn base_behind(
    unit: &Unit<'_>,
    start: ListStart,
    base: Address,
    entry: RangeEntry,
) -> Result<Address, ListFault>
    ensures { GivesOrRefusal (λ a. a) (base_by_entry (list_source unit.now.sections unit.now.header) (told_at_start start) base (entry_view entry)) result }
{
    match entry {
        RangeEntry::BaseAddressx(index) => Ok(address_at(unit, start, index)?),
        RangeEntry::BaseAddress(address) => Ok(address),
        RangeEntry::Base(address) => Ok(address),
        RangeEntry::StartxEndx(_, _) => Ok(base),
        RangeEntry::StartxLength(_, _) => Ok(base),
        RangeEntry::OffsetPair(_, _) => Ok(base),
        RangeEntry::StartEnd(_, _) => Ok(base),
        RangeEntry::StartLength(_, _) => Ok(base),
        RangeEntry::Pair(_, _) => Ok(base),
    }
}

// What an entry gives at a base: its interval, if it gives one, and the base behind it.
#[inline(always)]
#[tactic(auto, unfolding(crate::specs::RangeEnds::given_at))]
pub(crate) fn given_at(
    unit: &Unit<'_>,
    start: ListStart,
    base: Address,
    entry: RangeEntry,
) -> Result<(Option<(Address, Address)>, Address), ListFault>
    ensures { GivesOrRefusal given_view (given_with_base (list_source unit.now.sections unit.now.header) (told_at_start start) base (entry_view entry)) result }
{
    let interval = interval_given(unit, start, base, entry)?;
    let behind = base_behind(unit, start, base, entry)?;
    Ok((interval, behind))
}
