//! Goes from entry to entry. (DWARF 4 and 5, sections 2.3 and 7.5.2.)
ghost use Rattle.std.specs.Prelude.{◌≡◌, option_map};
ghost use Rattle.dwc_dwarf.specs.Entries.{entries_from};
ghost use Rattle.dwc_read.specs.Places.{place_view, IsShallow, Steps, GoesOn};
ghost use Rattle.dwc_read.specs.EntriesSeen.{entry_view};

use crate::fault::refusal;
use crate::place::{Place, pass_entry, pass_siblings};
use crate::table::Table;
use crate::{Entry, ReadFault, Unit};
use dwc_base::{SectionName, What};

// What stands at a place: nothing more, the end of a list of siblings, or an entry.
#[derive(Clone, Copy)]
pub enum Step {
    End,
    Siblings,
    Found,
}

// One step over the entries from a place.
fn take_step<'d>(
    unit: &Unit<'d>,
    table: &Table,
    place: &mut Option<Place<'d>>,
    entry: &mut Entry<'d>,
) -> Result<Step, ReadFault>
    requires { IsShallow (option_map place_view place.old) }
    ensures shallow { IsShallow (option_map place_view place.new) }
    ensures step { Steps (entries_from unit.now.sections unit.now.header table.now) (option_map place_view place.old) (option_map place_view place.new) (entry_view entry.new) result }
{
    let Some(here) = place else {
        return Ok(Step::End);
    };
    if here.cursor.left() == 0 {
        return Ok(Step::End);
    }
    let depth = here.depth;
    let offset = here.cursor.place() as u64;
    let mut ahead = here.cursor.fork();
    match entry.read(unit, table, depth, &mut ahead) {
        Ok(Some(has_children)) => {
            pass_entry(place, depth, has_children, ahead);
            Ok(Step::Found)
        }
        Ok(None) => {
            pass_siblings(place, depth, ahead);
            Ok(Step::Siblings)
        }
        Err(e) => Err(refusal(e, What::Entry, SectionName::Info, offset)),
    }
}

// Goes on to the next entry from a place, if there is one.
pub fn go_on<'d>(
    unit: &Unit<'d>,
    table: &Table,
    place: &mut Option<Place<'d>>,
    entry: &mut Entry<'d>,
) -> Result<bool, ReadFault>
    requires { IsShallow (option_map place_view place.old) }
    ensures shallow { IsShallow (option_map place_view place.new) }
    ensures next { GoesOn (entries_from unit.now.sections unit.now.header table.now (option_map place_view place.old)) (entries_from unit.now.sections unit.now.header table.now (option_map place_view place.new)) (entry_view entry.new) result }
{
    loop {
        match take_step(unit, table, place, entry)? {
            Step::End => return Ok(false),
            Step::Found => return Ok(true),
            Step::Siblings => {}
        }
    }
}
