//! The entries of a unit, one after another.
ghost use Rattle.std.specs.Prelude.{◌≡◌};
ghost use Rattle.dwc_dwarf.specs.Entries.{entries as entries_of};
ghost use Rattle.dwc_read.specs.Places.{GoesOn};

use crate::place::Place;
use crate::steps::go_on;
use crate::table::Table;
use crate::{Declaration, Entry, ReadFault, Unit};
use std::alloc::Global;
use std::marker::Model;
use std::rc::Rc;

/// The entries of a unit that are still to come, in file order, and the one that was read last.
#[derive(Drop)]
pub struct Entries<'d> {
    unit: Unit<'d>,
    table: Rc<Table>,
    place: Option<Place<'d>>,
    entry: Entry<'d>,
}

impl<'d> Model for Entries<'d> {
    ghost use Rattle.std.specs.Prelude.{option_map};
    ghost use Rattle.dwc_dwarf.specs.Entries.{entries_from};
    ghost use Rattle.dwc_read.specs.Places.{place_view, IsShallow};
    ghost use Rattle.dwc_read.specs.EntriesSeen.{EntriesView, entries_code, entry_view};

    ghost Value = { EntriesView };

    ghost coded = { entries_code };

    ghost view = { λ e. record {
      left = entries_from e.unit.sections e.unit.header e.table.value (option_map place_view e.place);
      current = entry_view e.entry;
      table = e.table.value;
    } };

    ghost invariant = { λ e. IsShallow (option_map place_view e.place) };
}

impl<'d> Entries<'d> {
    ghost use Rattle.std.specs.Prelude.{map, Ok};
    ghost use Rattle.std.specs.Borrow.{sem};
    ghost use Rattle.dwc_base.specs.Abbreviations.{abbreviation_table};
    ghost use Rattle.dwc_read.specs.Tables.{declaration_view};
    ghost use Rattle.dwc_read.specs.EntriesSeen.{entry_view};
    ghost use Rattle.dwc_read.specs.Lent.{Lends, LeavesOthers, Becomes};

    // The entries of a unit by its abbreviation table.
    pub fn of(alloc: Global, unit: Unit<'d>, table: Rc<Table>) -> Entries<'d>
        requires { abbreviation_table unit.sections unit.header.abbreviations ≡ Ok table.value }
        ensures start { result.left ≡ entries_of unit.entry.sections unit.entry.header }
        ensures table { result.table ≡ table.value }
    {
        let place = Some(Place {
            depth: 0,
            cursor: unit.content(),
        });
        let entry = Entry::empty(alloc);
        Entries {
            unit,
            table,
            place,
            entry,
        }
    }

    /// Goes on to the next entry, and answers whether there is one; it is then the current entry.
    ///
    /// Answers `Read` with the offset of the next entry where no entry stands there: where its code is not declared, a form is
    /// none, a value passes the unit's end or does not fit 64 bits. Answers `Unsupported` with it where it has a form
    /// that names a supplementary file. At the end, and after one of these, each later call answers the same. After
    /// `OutOfMemory` the call can be made again; which entry is current is then open.
    pub fn advance(&mut self) -> Result<bool, ReadFault>
        ensures next { GoesOn self.old.left self.new.left self.new.current result }
        ensures table { self.new.table ≡ self.old.table }
    {
        go_on(&self.unit, &self.table, &mut self.place, &mut self.entry)
    }

    /// The next entry, lent until the next call. It answers as [`Entries::advance`] does.
    pub fn next_entry(&mut self) -> Result<Option<&Entry<'d>>, ReadFault>
        ensures lends { Lends self.old.left result }
        ensures* leaves { sem 𝓛 (Becomes self.entry (λ v. LeavesOthers self.old.left v.left result)) }
    {
        if self.advance()? {
            Ok(Some(&self.entry))
        } else {
            Ok(None)
        }
    }

    /// The entry that was read last.
    pub fn current(&self) -> &Entry<'d>
        ensures { entry_view result.now ≡ self.now.current }
    {
        &self.entry
    }

    /// The entry that was read last, given away.
    pub fn into_current(self) -> Entry<'d>
        ensures { entry_view result ≡ self.entry.current }
    {
        self.entry
    }

    /// The declarations of the unit's abbreviation table, in their order. (DWARF 4 and 5, section 7.5.3.)
    pub fn declarations(&self) -> &[Declaration]
        ensures { map declaration_view result.now ≡ self.now.table }
    {
        self.table.declarations()
    }
}
