//! An entry on its own.
ghost use Rattle.std.specs.Prelude.{◌≡◌};
ghost use Rattle.dwc_read.specs.Faults.{GivesOrFault};
ghost use Rattle.dwc_read.specs.EntriesSeen.{entry_view};
ghost use Rattle.dwc_read.specs.Lone.{entry_with};

use crate::fault::refusal;
use crate::table::Table;
use crate::{Entry, ReadFault, Unit};
use dwc_base::{Cursor, SectionName, What};
use std::alloc::Global;

// The entry at the front, at depth 0; the end of a list of siblings is none.
pub fn lone_entry<'d>(
    alloc: Global,
    unit: &Unit<'d>,
    table: &Table,
    mut cursor: Cursor<'d>,
) -> Result<Entry<'d>, ReadFault>
    ensures { GivesOrFault entry_view (entry_with unit.now table.now cursor.entry) result }
{
    let offset = cursor.place() as u64;
    let mut entry = Entry::empty(alloc);
    match entry.read(unit, table, 0, &mut cursor) {
        Ok(Some(_)) => Ok(entry),
        Ok(None) => Err(no_entry(offset)),
        Err(e) => Err(refusal(e, What::Entry, SectionName::Info, offset)),
    }
}

// The refusal where no entry stands.
pub fn no_entry(offset: u64) -> ReadFault
    ensures { result ≡ ReadFault.Read What.Entry SectionName.Info offset }
{
    ReadFault::Read {
        what: What::Entry,
        section: SectionName::Info,
        offset,
    }
}
