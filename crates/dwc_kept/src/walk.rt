//! Reads the entries of a module once, and keeps what each of them keeps.
ghost use Rattle.std.specs.Prelude.{◌≡◌, ◌<◌, ◌^◌};
ghost use Rattle.std.specs.List.{AllZip};
ghost use Rattle.dwc_dwarf.specs.Entries.{entries as entries_of};
ghost use Rattle.dwc_dwarf.specs.Lists.{list_source};
ghost use Rattle.dwc_rules.specs.EntryRules.{is_required, named_faults};
ghost use Rattle.dwc_rules.specs.ReachedEntries.{listing_faults};
ghost use Rattle.dwc_base.specs.Listing.{first_of};
ghost use Rattle.dwc_dwarf.specs.UnitOffsets.{RiseIn, StandFrom};
ghost use Rattle.dwc_kept.specs.ReadEntries.{with_entries_read, with_units_read, none_read, AreAmong, StandBefore, ReadsOrTells, headers_faults};
ghost use Rattle.dwc_kept.specs.ReadGraphs.{IsModuleGraph, units_of};
ghost use Rattle.dwc_kept.specs.ReadingSeen.{reading_view, HasRead, IsRead};
ghost use Rattle.dwc_kept.specs.ReadUnits.{IsReadUnit};
ghost use Rattle.dwc_kept.specs.RootsSaid.{first_said};
ghost use Rattle.dwc_kept.specs.ShownLists.{KnowsLists};

use crate::graph::EntryGraph;
use crate::read_unit::{ReadUnit, RootEntry, is_compile_unit, root_or, table_named};
use crate::reading::{Reading, add_entry, none_read};
use crate::shown_lists::{ShownLists, no_lists};
use dwc_addr::AddressTransform;
use dwc_read::{EntryLinks, ReadFault, Unit, Units};
use std::alloc::Global;

// Adds the entries of a unit that are still to come, and answers what the first says.
fn add_entries(
    entries: &mut EntryLinks<'_>,
    transform: &AddressTransform<'_>,
    unit: &Unit<'_>,
    reading: &mut Reading,
    lists: &mut ShownLists,
) -> Result<Option<RootEntry>, ReadFault>
    requires lists { KnowsLists (list_source unit.now.sections unit.now.header) transform.now lists.old }
    requires among { AreAmong (reading_view reading.old) }
    requires before { StandBefore unit.now.header.offset (reading_view reading.old) }
    requires small { StandBefore (2 ^ 32) (reading_view reading.old) }
    requires some { unit.now.header.offset < unit.now.header.end }
    requires rise { RiseIn unit.now.header.offset unit.now.header.end entries.old.left.items }
    ensures { ReadsOrTells (λ root. HasRead (with_entries_read (is_required transform.now unit.now.sections unit.now.header) unit.now.header entries.old.left.items (reading_view reading.old)) unit.now.header.end (reading_view reading.new) × (root ≡ first_said entries.old.left.items)) (first_of (listing_faults (named_faults unit.now.sections unit.now.header) entries.old.left)) result }
{
    let mut root = None;
    while entries.advance()? {
        let entry = entries.current();
        add_entry(reading, transform, unit, entry, lists)?;
        root = root_or(root, entry);
    }
    Ok(root)
}

// Adds the entries of a unit, and answers what its root says.
fn add_unit(
    alloc: Global,
    unit: &Unit<'_>,
    transform: &AddressTransform<'_>,
    reading: &mut Reading,
) -> Result<Option<RootEntry>, ReadFault>
    requires among { AreAmong (reading_view reading.old) }
    requires before { StandBefore unit.now.header.offset (reading_view reading.old) }
    requires small { StandBefore (2 ^ 32) (reading_view reading.old) }
    requires some { unit.now.header.offset < unit.now.header.end }
    requires rise { RiseIn unit.now.header.offset unit.now.header.end (entries_of unit.now.sections unit.now.header).items }
    ensures { ReadsOrTells (λ root. HasRead (with_entries_read (is_required transform.now unit.now.sections unit.now.header) unit.now.header (entries_of unit.now.sections unit.now.header).items (reading_view reading.old)) unit.now.header.end (reading_view reading.new) × (root ≡ first_said (entries_of unit.now.sections unit.now.header).items)) (first_of (listing_faults (named_faults unit.now.sections unit.now.header) (entries_of unit.now.sections unit.now.header))) result }
{
    let mut entries = unit.links(alloc)?;
    let mut lists = no_lists(alloc);
    add_entries(&mut entries, transform, unit, reading, &mut lists)
}

/// What is kept of the entries of a module as they are read, and its units.
#[derive(Drop)]
pub(crate) struct ReadModule<'d> {
    pub reading: Reading,
    pub units: Vec<ReadUnit<'d>>,
}

/// What is kept of all entries of the units that are still to come, in file order, and these units.
///
/// Answers the first fault in the order of reading: of each unit its header, its abbreviation table, and then its entries, each with what
/// it names before the next one is read.
#[inline(never)]
pub(crate) fn read_entries<'d>(
    alloc: Global,
    headers: Units<'d>,
    transform: &AddressTransform<'_>,
) -> Result<ReadModule<'d>, ReadFault>
    requires { StandFrom headers.sections 0 headers.headers.items }
    ensures { ReadsOrTells (λ m. IsRead (with_units_read (is_required transform.now headers.entry.sections) headers.entry.sections headers.entry.headers.items none_read) (reading_view m.reading) × AllZip (IsReadUnit headers.entry.sections) headers.entry.headers.items m.units.items) (first_of (headers_faults (named_faults headers.entry.sections) headers.entry.sections headers.entry.headers)) result }
{
    let mut headers = headers;
    let mut reading = none_read(alloc);
    let mut units = Vec::new(alloc);
    while let Some(unit) = headers.next_unit(alloc)? {
        let root = add_unit(alloc, &unit, transform, &mut reading)?;
        let is_compile_unit = is_compile_unit(root);
        let line_table = table_named(root);
        units.push(ReadUnit {
            unit,
            is_compile_unit,
            line_table,
        })?;
    }
    Ok(ReadModule { reading, units })
}

/// The graph of the entries of some units, and for each entry in file order whether it is required; and the units.
#[derive(Drop)]
pub(crate) struct ModuleGraph<'d> {
    pub graph: EntryGraph,
    pub required: Vec<bool>,
    pub units: Vec<ReadUnit<'d>>,
}

/// The graph of the entries of the units that are still to come, which are read once, and which of them are required: subprograms of
/// functions with a symbol, by where they begin or by their range lists.
pub(crate) fn graph_of<'d>(
    alloc: Global,
    headers: Units<'d>,
    transform: &AddressTransform<'_>,
) -> Result<ModuleGraph<'d>, ReadFault>
    ensures { ReadsOrTells (λ m. IsModuleGraph transform.now headers.entry.sections (units_of headers.entry.sections headers.entry.headers) m.graph m.required.items × AllZip (IsReadUnit headers.entry.sections) headers.entry.headers.items m.units.items) (first_of (headers_faults (named_faults headers.entry.sections) headers.entry.sections headers.entry.headers)) result }
{
    // What this ensures of the units is what `read_entries` asks of them.
    headers.sections();
    let ReadModule { reading, units } = read_entries(alloc, headers, transform)?;
    Ok(ModuleGraph {
        graph: reading.graph,
        required: reading.required,
        units,
    })
}
