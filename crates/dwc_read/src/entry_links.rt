//! The entries of a unit with their links alone, one after another.
ghost use Rattle.std.specs.Prelude.{◌≡◌};
ghost use Rattle.dwc_dwarf.specs.Entries.{entries as entries_of};
ghost use Rattle.dwc_read.specs.Links.{linked};
ghost use Rattle.dwc_read.specs.Places.{GoesOn};

use crate::link_steps::go_on_links;
use crate::place::Place;
use crate::table::Table;
use crate::{Entry, ReadFault, Unit};
use std::alloc::Global;
use std::marker::Model;
use std::rc::Rc;

/// The entries of a unit that are still to come, in file order, and the one that was read last. Of its attributes an entry has
/// those alone that lead elsewhere: the references to entries, and what has the name `low_pc`, `ranges` or `stmt_list`.
#[derive(Drop)]
pub struct EntryLinks<'d> {
    unit: Unit<'d>,
    table: Rc<Table>,
    place: Option<Place<'d>>,
    entry: Entry<'d>,
}

impl<'d> Model for EntryLinks<'d> {
    ghost use Rattle.std.specs.Prelude.{option_map};
    ghost use Rattle.dwc_read.specs.Links.{linked_from};
    ghost use Rattle.dwc_read.specs.Places.{place_view, IsShallow};
    ghost use Rattle.dwc_read.specs.EntriesSeen.{EntriesView, entries_code, entry_view};

    ghost Value = { EntriesView };

    ghost coded = { entries_code };

    ghost view = { λ e. record {
      left = linked_from e.unit.sections e.unit.header e.table.value (option_map place_view e.place);
      current = entry_view e.entry;
      table = e.table.value;
    } };

    ghost invariant = { λ e. IsShallow (option_map place_view e.place) };
}

impl<'d> EntryLinks<'d> {
    ghost use Rattle.std.specs.Prelude.{Ok};
    ghost use Rattle.dwc_base.specs.Abbreviations.{abbreviation_table};
    ghost use Rattle.dwc_read.specs.EntriesSeen.{entry_view};

    // The entries of a unit by its abbreviation table.
    pub fn of(alloc: Global, unit: Unit<'d>, table: Rc<Table>) -> EntryLinks<'d>
        requires { abbreviation_table unit.sections unit.header.abbreviations ≡ Ok table.value }
        ensures { result.left ≡ linked (entries_of unit.entry.sections unit.entry.header) }
    {
        let place = Some(Place {
            depth: 0,
            cursor: unit.content(),
        });
        let entry = Entry::empty(alloc);
        EntryLinks {
            unit,
            table,
            place,
            entry,
        }
    }

    /// Goes on to the next entry, and answers as [`crate::Entries::advance`] does.
    pub fn advance(&mut self) -> Result<bool, ReadFault>
        ensures next { GoesOn self.old.left self.new.left self.new.current result }
        ensures table { self.new.table ≡ self.old.table }
    {
        go_on_links(&self.unit, &self.table, &mut self.place, &mut self.entry)
    }

    /// The entry that was read last.
    pub fn current(&self) -> &Entry<'d>
        ensures { entry_view result.now ≡ self.now.current }
    {
        &self.entry
    }
}
