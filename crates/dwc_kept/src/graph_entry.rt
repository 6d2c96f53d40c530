//! Entries of a graph, as it keeps them.

/// An entry of a graph. Numbers are those of entries in file order, from 0 on. The parts of an entry are linked to a ring: from the entry to
/// its last part, from a part to the part before it, and from the first part back to the entry.
#[derive(Clone, Copy)]
pub(crate) struct GraphEntry {
    /// Its offset in `.debug_info`.
    pub offset: u32,
    /// The number of its parent, or its own where it has none.
    pub parent: u32,
    /// Where its targets begin among those of all entries; they end where those of the next entry begin.
    pub first_target: u32,
    /// The number of its last part, or its own where it has none.
    pub last_part: u32,
    /// Of a part of its parent, the number of the part before it, or of the parent where it is the first one; its own number where it
    /// is no part.
    pub previous_part: u32,
}
