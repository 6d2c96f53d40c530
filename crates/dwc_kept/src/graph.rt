//! The graph of what the entries of a module keep.
ghost use Rattle.std.specs.Prelude.{◌≡◌, ◌++◌, ◌∷◌, [], ◌<◌, ◌≤◌, ◌^◌, ◌&&◌, length, map, filter_map, is_some, All, IfSome, IfOk, OnOk, OnErr, IsTrue};
ghost use Rattle.dwc_kept.specs.EntryGraphs.{AreLeastMarks};
ghost use Rattle.dwc_kept.specs.GraphEntries.{with_entry, AreRising};
ghost use Rattle.dwc_kept.specs.ReadEntries.{attribute_offset};
ghost use Rattle.dwc_read.specs.ValuesSeen.{attribute_view};

use crate::graph_entry::GraphEntry;
use crate::marks::least_marks;
use crate::references::put_offsets;
use dwc_read::AttributeValue;
use std::alloc::{AllocError, Global};
use std::marker::Model;

/// What each entry of a module keeps. Entries are numbered in file order, from 0 on.
#[derive(Drop)]
pub struct EntryGraph {
    entries: Vec<GraphEntry>,
    targets: Vec<u32>,
}

impl Model for EntryGraph {
    ghost use Rattle.std.specs.Prelude.{List, length};
    ghost use Rattle.dwc_kept.specs.EntryGraphs.{Node};
    ghost use Rattle.dwc_kept.specs.GraphEntries.{nodes_seen, AreEntries};

    ghost Value = { List Node };

    ghost view = { λ g. nodes_seen 0 g.entries.items g.targets.items };

    ghost invariant = { λ g. AreEntries g.entries.items (length g.targets.items) };
}

impl EntryGraph {
    /// A graph without entries.
    pub fn new(alloc: Global) -> EntryGraph
        ensures { result ≡ [] }
    {
        EntryGraph {
            entries: Vec::new(alloc),
            targets: Vec::new(alloc),
        }
    }

    /// How many entries there are.
    pub fn len(&self) -> usize
        ensures { result ≡ length self.now }
    {
        self.entries.len()
    }

    // The entries in file order.
    pub(crate) fn entries(&self) -> &[GraphEntry]
        ensures offsets { map (λ e. e.offset) result.now ≡ map (λ n. n.offset) self.now }
        ensures rising { AreRising result.now }
    {
        &self.entries
    }

    /// Adds an entry behind the others: its offset in `.debug_info`, the number of its parent, whether it is a part of that parent, and the
    /// offsets that its references name.
    ///
    /// # Errors
    /// `AllocError` for want of memory, and where there would be more than 2^32 references. The graph is unchanged then.
    pub fn push(
        &mut self,
        offset: u32,
        parent: Option<u32>,
        is_part: bool,
        targets: &[u32],
    ) -> Result<(), AllocError>
        requires behind { All (λ n. n.offset < offset) self.old }
        requires parent { IfSome parent (λ p. p < length self.old) }
        ensures ok { OnOk result (self.new ≡ self.old ++ record { offset = offset; parent = parent; targets = targets.now; is_part = is_some parent && is_part } ∷ []) }
        ensures err { OnErr result (self.new ≡ self.old) }
    {
        let number = self.entries.len() as u32;
        let Ok(first_target) = u32::try_from(self.targets.len()) else {
            return Err(AllocError);
        };
        self.targets.reserve(targets.len())?;
        let own_parent = parent.unwrap_or(number);
        let is_part = has_part(parent, is_part);
        push_entry(
            &mut self.entries,
            number,
            offset,
            own_parent,
            is_part,
            first_target,
        )?;
        self.targets.extend_from_slice(targets).unwrap();
        Ok(())
    }

    // The same of an entry of a unit, with the offsets that its attributes name.
    pub(crate) fn push_named(
        &mut self,
        offset: u32,
        parent: Option<u32>,
        is_part: bool,
        unit: u64,
        end: u64,
        attributes: &[(u16, AttributeValue<'_>)],
    ) -> Result<(), AllocError>
        requires behind { All (λ n. n.offset < offset) self.old }
        requires parent { IfSome parent (λ p. p < length self.old) }
        ensures { OnOk result (self.new ≡ self.old ++ record { offset = offset; parent = parent; targets = filter_map (attribute_offset unit end) (map attribute_view attributes.now); is_part = is_some parent && is_part } ∷ []) }
    {
        let number = self.entries.len() as u32;
        let Ok(first_target) = u32::try_from(self.targets.len()) else {
            return Err(AllocError);
        };
        self.targets.reserve(attributes.len())?;
        let own_parent = parent.unwrap_or(number);
        let is_part = has_part(parent, is_part);
        push_entry(
            &mut self.entries,
            number,
            offset,
            own_parent,
            is_part,
            first_target,
        )?;
        put_offsets(unit, end, attributes, &mut self.targets);
        Ok(())
    }
}

// Whether there is a parent with a part.
fn has_part(parent: Option<u32>, is_part: bool) -> bool
    ensures { result ≡ (is_some parent && is_part) }
{
    parent.is_some() && is_part
}

// Adds an entry of a number, by the number of its parent, or its own.
fn push_entry(
    entries: &mut Vec<GraphEntry>,
    number: u32,
    offset: u32,
    parent: u32,
    is_part: bool,
    first_target: u32,
) -> Result<(), AllocError>
    requires number { number ≡ length entries.old.items }
    requires parent { IsTrue is_part → parent < length entries.old.items }
    ensures ok { OnOk result (entries.new.items ≡ with_entry entries.old.items offset parent is_part first_target) }
    ensures err { OnErr result (entries.new.items ≡ entries.old.items) }
{
    let previous_part = if is_part {
        entries[parent as usize].last_part
    } else {
        number
    };
    entries.push(GraphEntry {
        offset,
        parent,
        first_target,
        last_part: number,
        previous_part,
    })?;
    if is_part {
        entries[parent as usize].last_part = number;
    }
    Ok(())
}

/// The marks of the least set of entries that holds the required ones and all that its entries keep, one for each entry in file order.
/// Each entry and each reference is looked at once.
///
/// # Errors
/// `AllocError` for want of memory.
pub fn closure(
    alloc: Global,
    graph: &EntryGraph,
    required: &[bool],
) -> Result<Vec<bool>, AllocError>
    requires { length required.now ≡ length graph.now }
    ensures { IfOk result (λ marks. AreLeastMarks graph.now required.now marks.items) }
{
    least_marks(alloc, &graph.entries, &graph.targets, required)
}
