//! What is kept of the entries of some units.
ghost use Rattle.std.specs.Prelude.{◌≡◌, IfOk, option_map};
ghost use Rattle.dwc_rules.specs.EntryRules.{named_faults};
ghost use Rattle.dwc_rules.specs.Refusals.{of_place};
ghost use Rattle.dwc_base.specs.Listing.{first_of};
ghost use Rattle.dwc_kept.specs.ReadEntries.{headers_faults};
ghost use Rattle.dwc_kept.specs.ReadGraphs.{offsets_kept_of, units_of, AreLeastOffsets};
ghost use Rattle.dwc_carry.specs.Refusals.{ReadsOr};

use crate::DebugError;
use dwc_addr::AddressTransform;
use dwc_kept::Kept;
use dwc_read::Units;
use std::alloc::Global;

/// The entries that are kept of the units that are still to come. A subprogram that begins in a function with a symbol is required, one
/// with `ranges` where these are a range list that shows code of such functions; an entry keeps its parent, the entries that its attributes
/// other than `DW_AT_sibling` refer to, and those of its children that are parts of it. What is kept is the least set of entries that
/// holds the required ones and all that its entries keep.
///
/// # Errors
/// `Read` and `Unsupported` for the first fault in the order of reading: of each unit its header, its abbreviation table, and then its
/// entries, each with what it names before the next entry is read: the range list of a subprogram, told at the list, with the addresses
/// by an index in it, and then the address by an index that it begins at, told at the entry. `OutOfMemory` for want of memory.
pub fn build_dependencies(
    alloc: Global,
    units: Units<'_>,
    transform: &AddressTransform<'_>,
) -> Result<Kept, DebugError>
    ensures kept { ReadsOr (λ kept. kept ≡ offsets_kept_of transform.now units.entry.sections (units_of units.entry.sections units.entry.headers)) (option_map of_place (first_of (headers_faults (named_faults units.entry.sections) units.entry.sections units.entry.headers))) result }
    ensures least { IfOk result (λ kept. AreLeastOffsets transform.now units.entry.sections (units_of units.entry.sections units.entry.headers) kept) }
{
    Ok(dwc_kept::build_dependencies(alloc, units, transform)?)
}
