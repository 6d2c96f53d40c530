//! The last entry that was read at a depth.

/// The last entry that was read at a depth: its number, and whether it is a unit's root or a namespace, of which no variable is a part.
#[derive(Clone, Copy)]
pub(crate) struct LastAt {
    pub number: u32,
    pub is_outer: bool,
}
