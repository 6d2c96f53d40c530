//! What is kept of the entries of a module as they are read, one after another.
ghost use Rattle.std.specs.Prelude.{◌≡◌, ◌^◌, ◌<◌, ◌≤◌, ◌||◌, ◌==◌, ◌++◌, ◌∷◌, [], length, map, option_map, OnOk, IfSome, All};
ghost use Rattle.dwc_base.specs.declared.constants.TheConstants.{DW_TAG_namespace};
ghost use Rattle.dwc_dwarf.specs.Lists.{list_source};
ghost use Rattle.dwc_rules.specs.EntryRules.{is_required, named_faults};
ghost use Rattle.dwc_base.specs.Listing.{first_of};
ghost use Rattle.dwc_read.specs.EntriesSeen.{entry_view};
ghost use Rattle.dwc_kept.specs.ReadEntries.{ReadSoFar, none_read, last_above, with_last_at, with_entry_read, AreAmong, StandBefore, MeetsOrTells};
ghost use Rattle.dwc_kept.specs.ReadingSeen.{reading_view};
ghost use Rattle.dwc_kept.specs.ShownLists.{KnowsLists};

use crate::graph::EntryGraph;
use crate::last_at::LastAt;
use crate::parts::is_part_below;
use crate::required::is_required;
use crate::shown_lists::ShownLists;
use dwc_addr::AddressTransform;
use dwc_base::constants::DW_TAG_namespace;
use dwc_read::{Entry, ReadFault, Unit};
use std::alloc::{AllocError, Global};

/// What is kept of the entries that were read: their graph, the last entry at each depth, and which of them are required.
#[derive(Drop)]
pub(crate) struct Reading {
    pub graph: EntryGraph,
    pub lasts: Vec<Option<LastAt>>,
    pub required: Vec<bool>,
}

/// Nothing is read yet.
pub(crate) fn none_read(alloc: Global) -> Reading
    ensures { reading_view result ≡ none_read }
{
    Reading {
        graph: EntryGraph::new(alloc),
        lasts: Vec::new(alloc),
        required: Vec::new(alloc),
    }
}

// The depth of an entry.
fn depth_of(entry: &Entry<'_>) -> usize
    ensures { result ≡ (entry_view entry.now).depth }
{
    entry.depth as usize
}

// The last entry above a depth.
fn last_above(lasts: &[Option<LastAt>], depth: usize) -> Option<LastAt>
    ensures { result ≡ last_above lasts.now depth }
{
    if depth == 0 || depth > lasts.len() {
        return None;
    }
    lasts[depth - 1]
}

// Makes an entry the last one at a depth.
fn put_last(lasts: &mut Vec<Option<LastAt>>, depth: usize, last: LastAt) -> Result<(), AllocError>
    ensures { OnOk result (lasts.new.items ≡ with_last_at lasts.old.items depth last) }
{
    while lasts.len() <= depth {
        lasts.push(None)?;
    }
    lasts[depth] = Some(last);
    Ok(())
}

// Whether an entry of a depth and a tag is a root or a namespace.
fn is_outer(depth: usize, tag: u16) -> bool
    ensures { result ≡ ((depth == 0) || (tag == DW_TAG_namespace)) }
{
    depth == 0 || tag == DW_TAG_namespace
}

// The number of an entry, if there is one.
fn number_of(last: Option<LastAt>) -> Option<u32>
    ensures { result ≡ option_map (λ p. p.number) last }
{
    match last {
        None => None,
        Some(last) => Some(last.number),
    }
}

/// Adds an entry of a unit.
///
/// # Errors
/// What [`is_required`] answers; else `OutOfMemory` alone.
pub(crate) fn add_entry(
    reading: &mut Reading,
    transform: &AddressTransform<'_>,
    unit: &Unit<'_>,
    entry: &Entry<'_>,
    lists: &mut ShownLists,
) -> Result<(), ReadFault>
    requires lists { KnowsLists (list_source unit.now.sections unit.now.header) transform.now lists.old }
    requires among { AreAmong (reading_view reading.old) }
    requires before { StandBefore (entry_view entry.now).offset (reading_view reading.old) }
    ensures added { OnOk result (reading_view reading.new ≡ with_entry_read (is_required transform.now unit.now.sections unit.now.header) unit.now.header (entry_view entry.now) (reading_view reading.old)) }
    ensures small { OnOk result ((entry_view entry.now).offset < 2 ^ 32) }
    ensures lists { OnOk result (KnowsLists (list_source unit.now.sections unit.now.header) transform.now lists.new) }
    ensures fault { MeetsOrTells (first_of (named_faults unit.now.sections unit.now.header (entry_view entry.now))) result }
{
    let is_required = is_required(unit, entry, transform, lists)?;
    let Ok(offset) = u32::try_from(entry.offset) else {
        return Err(ReadFault::OutOfMemory);
    };
    let Ok(number) = u32::try_from(reading.graph.len()) else {
        return Err(ReadFault::OutOfMemory);
    };
    let depth = depth_of(entry);
    let parent = last_above(&reading.lasts, depth);
    let is_part = is_part_below(parent, entry.tag);
    reading.graph.push_named(
        offset,
        number_of(parent),
        is_part,
        unit.offset(),
        unit.end(),
        entry.attrs(),
    )?;
    let is_outer = is_outer(depth, entry.tag);
    put_last(&mut reading.lasts, depth, LastAt { number, is_outer })?;
    reading.required.push(is_required)?;
    Ok(())
}
