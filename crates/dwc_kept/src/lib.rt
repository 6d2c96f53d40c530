//! The entries of a module that are kept: the graph of what each entry keeps, and the least set of entries that holds the required ones
//! and all that its entries keep.
#![tactic(auto)]

mod begun;
mod blocks;
mod graph;
mod graph_entry;
mod kept;
mod kept_units;
mod last_at;
mod laws;
mod marks;
mod parts;
mod range_code;
mod read_unit;
mod reading;
mod references;
mod required;
mod shown_lists;
mod walk;

pub use begun::{address_said, function_begun};
pub use graph::{EntryGraph, closure};
pub use kept::Kept;
pub use kept_units::{KeptModule, build_dependencies, kept_module};
pub use laws::{kept_are_least, marks_are_kept, offsets_are_kept};
pub use read_unit::ReadUnit;
pub use references::named_offset;
