//! Which entries are required, and what cannot be read to know it.
ghost use Rattle.std.specs.Prelude.{◌≡◌, OnOk};
ghost use Rattle.dwc_dwarf.specs.Lists.{list_source};
ghost use Rattle.dwc_rules.specs.EntryRules.{is_required, named_faults};
ghost use Rattle.dwc_base.specs.Listing.{first_of};
ghost use Rattle.dwc_read.specs.EntriesSeen.{entry_view};
ghost use Rattle.dwc_kept.specs.ReadEntries.{ReadsOrTells};
ghost use Rattle.dwc_kept.specs.ShownLists.{KnowsLists};

use crate::range_code::{begins_in_code, ranges_show_code};
use crate::shown_lists::ShownLists;
use dwc_addr::AddressTransform;
use dwc_base::constants::DW_TAG_subprogram;
use dwc_read::{Entry, ReadFault, Unit};

/// Whether an entry is required: a subprogram that begins in a function with a symbol; one with `ranges`, where these are a list that shows
/// code of such functions. An entry of a list shows code by its start, and a pair of a list up to version 4 by the base where one is
/// known: the one that was selected, else the `low_pc` beside the list.
///
/// # Errors
/// `Read` and `Unsupported` for the first that cannot be read of a subprogram: its range list whole, as [`ranges_show_code`] tells it, and
/// then the address by an index that it begins at.
#[tactic(auto, unfolding(dwc_rules::specs::EntryRules::named_faults, dwc_rules::specs::RangeKept::is_required))]
pub(crate) fn is_required(
    unit: &Unit<'_>,
    entry: &Entry<'_>,
    transform: &AddressTransform<'_>,
    lists: &mut ShownLists,
) -> Result<bool, ReadFault>
    requires { KnowsLists (list_source unit.now.sections unit.now.header) transform.now lists.old }
    ensures lists { OnOk result (KnowsLists (list_source unit.now.sections unit.now.header) transform.now lists.new) }
    ensures needed { ReadsOrTells (λ needed. needed ≡ is_required transform.now unit.now.sections unit.now.header (entry_view entry.now)) (first_of (named_faults unit.now.sections unit.now.header (entry_view entry.now))) result }
{
    if entry.tag != DW_TAG_subprogram {
        return Ok(false);
    }
    let shows_code = ranges_show_code(unit, entry, transform, lists)?;
    let begins_in_code = begins_in_code(unit, entry, transform)?;
    Ok(shows_code.unwrap_or(begins_in_code))
}
