//! The units of a module, and the offsets of its entries that are kept.
ghost use Rattle.std.specs.Prelude.{◌≡◌, IfOk};
ghost use Rattle.dwc_rules.specs.EntryRules.{named_faults};
ghost use Rattle.dwc_rules.specs.ReachedEntries.{info_faults};
ghost use Rattle.dwc_base.specs.Listing.{first_of};
ghost use Rattle.dwc_kept.specs.ReadEntries.{ReadsOrTells, headers_faults};
ghost use Rattle.dwc_kept.specs.ReadGraphs.{offsets_kept_of, units_of, AreLeastOffsets};
ghost use Rattle.dwc_kept.specs.ReadUnits.{IsKeptAmong, IsKeptModule};

use crate::kept::Kept;
use crate::read_unit::ReadUnit;
use crate::walk::graph_of;
use dwc_addr::AddressTransform;
use dwc_read::{ReadFault, Sections, Units};
use std::alloc::Global;

/// The units of a module in file order, and its entries that are kept: the least set that holds the required ones and all that its
/// entries keep.
#[derive(Drop)]
pub struct KeptModule<'d> {
    pub units: Vec<ReadUnit<'d>>,
    pub kept: Kept,
}

// The units that are still to come, whose entries are read once, and those of their entries that are kept.
fn keep<'d>(
    alloc: Global,
    units: Units<'d>,
    transform: &AddressTransform<'_>,
) -> Result<KeptModule<'d>, ReadFault>
    ensures { ReadsOrTells (λ m. IsKeptAmong transform.now units.entry.sections units.entry.headers m) (first_of (headers_faults (named_faults units.entry.sections) units.entry.sections units.entry.headers)) result }
{
    let read = graph_of(alloc, units, transform)?;
    let kept = Kept::new(alloc, &read.graph, &read.required)?;
    Ok(KeptModule {
        units: read.units,
        kept,
    })
}

/// The units of a module, whose entries are read once, and those of its entries that are kept. A subprogram that begins in a function with
/// a symbol is required; one with `ranges`, where these are a range list that shows code of such functions.
///
/// # Errors
/// `Read` and `Unsupported` for the first fault in the order of reading: of each unit its header, its abbreviation table, and then its
/// entries, each with what it names before the next entry is read: the range list of a subprogram, told at the list, with the addresses
/// by an index in it, and then the address by an index that it begins at, told at the entry. `OutOfMemory` for want of memory.
pub fn kept_module<'d>(
    alloc: Global,
    sections: Sections<'d>,
    transform: &AddressTransform<'_>,
) -> Result<KeptModule<'d>, ReadFault>
    ensures { ReadsOrTells (λ m. IsKeptModule transform.now sections.entry m) (first_of (info_faults (named_faults sections.entry) sections.entry)) result }
{
    keep(alloc, Units::new(sections), transform)
}

/// The entries that are kept of the units that are still to come: the least set that holds the required ones among them and all that its
/// entries keep, as [`kept_module`] has it for all units of a module.
///
/// # Errors
/// As [`kept_module`].
pub fn build_dependencies(
    alloc: Global,
    units: Units<'_>,
    transform: &AddressTransform<'_>,
) -> Result<Kept, ReadFault>
    ensures kept { ReadsOrTells (λ kept. kept ≡ offsets_kept_of transform.now units.entry.sections (units_of units.entry.sections units.entry.headers)) (first_of (headers_faults (named_faults units.entry.sections) units.entry.sections units.entry.headers)) result }
    ensures least { IfOk result (λ kept. AreLeastOffsets transform.now units.entry.sections (units_of units.entry.sections units.entry.headers) kept) }
{
    let read = keep(alloc, units, transform)?;
    Ok(read.kept)
}
