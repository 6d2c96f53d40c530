//! The entry that a reference goes to. (DWARF 4, section 7.5.4; DWARF 5, section 7.5.5.)
ghost use Rattle.std.specs.Prelude.{◌≡◌, option_map};
ghost use Rattle.dwc_rules.specs.Targets.{entry_in_listing, entry_begun_at, entry_resolved};
ghost use Rattle.dwc_read.specs.EntriesSeen.{entry_view};
ghost use Rattle.dwc_read.specs.Faults.{GivesOrFault, fault_seen};
ghost use Rattle.dwc_read.specs.ValuesSeen.{value_view};
ghost use Rattle.dwc_carry.specs.ResolvedEntries.{GivesRead, GoesTo, is_fault_behind};

use crate::DebugError;
use dwc_read::{AttributeValue, Entries, Entry, ReadFault, Unit};
use std::alloc::Global;

// Goes on to the entry that begins at a place, and answers whether there is one; no entry behind the first at or behind the place is
// read.
fn go_to(entries: &mut Entries<'_>, place: u128) -> Result<bool, ReadFault>
    ensures { GoesTo place entries.old.left entries.new.current result }
{
    while entries.advance()? {
        let offset = u128::from(entries.current().offset);
        if offset >= place {
            return Ok(offset == place);
        }
    }
    Ok(false)
}

// Whether a fault stands behind a place.
fn is_behind(fault: &ReadFault, place: u128) -> bool
    ensures { result ≡ is_fault_behind place (fault_seen fault.now) }
{
    match fault {
        ReadFault::Read { offset, .. } => u128::from(*offset) > place,
        ReadFault::Unsupported { offset, .. } => u128::from(*offset) > place,
        ReadFault::OutOfMemory => false,
    }
}

// The entry, of those that are still to come, that begins at a place.
fn entry_in_listing<'d>(entries: Entries<'d>, place: u128) -> Result<Option<Entry<'d>>, ReadFault>
    ensures { GivesOrFault (option_map entry_view) (entry_in_listing place entries.entry.left) result }
{
    let mut entries = entries;
    match go_to(&mut entries, place) {
        Ok(true) => Ok(Some(entries.into_current())),
        Ok(false) => Ok(None),
        Err(fault) if is_behind(&fault, place) => Ok(None),
        Err(fault) => Err(fault),
    }
}

// The entry of a unit that begins at a place of `.debug_info`.
fn entry_begun_at<'d>(
    alloc: Global,
    unit: &Unit<'d>,
    place: u128,
) -> Result<Option<Entry<'d>>, ReadFault>
    ensures { GivesOrFault (option_map entry_view) (entry_begun_at unit.now.sections unit.now.header place) result }
{
    entry_in_listing(unit.entries(alloc)?, place)
}

/// The entry of its unit that a reference within the unit goes to, with its depth; None where no entry of the unit begins there, and for
/// all other values. The unit's entries are read up to that place; what cannot be read behind it plays no part.
///
/// # Errors
/// `Read` with the table's offset where the unit's abbreviation table cannot be read; `Read` and `Unsupported` for the first entry
/// up to the place that cannot be read, at its offset. `OutOfMemory` for want of memory.
pub fn resolve_die_ref<'d>(
    alloc: Global,
    unit: &Unit<'d>,
    value: &AttributeValue<'d>,
) -> Result<Option<Entry<'d>>, DebugError>
    ensures { GivesRead (option_map entry_view) (entry_resolved unit.now.sections unit.now.header (value_view value.now)) result }
{
    match value {
        AttributeValue::UnitRef(distance) => {
            // Wide enough for each sum of two offsets.
            let place = u128::from(unit.offset()) + u128::from(*distance);
            Ok(entry_begun_at(alloc, unit, place)?)
        }
        _ => Ok(None),
    }
}
