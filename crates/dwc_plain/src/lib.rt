//! The row for a native byte and the kept entries as their definitions say them, by plain scans of lists: what quicker
//! programs are compared with.
#![tactic(auto)]

mod entries;
mod kept;
mod rows;

pub use entries::{PlainEntry, PlainFunction, PlainValue};
pub use kept::kept_entries;
pub use rows::{row_for_byte, row_in_force};
