//! The types of entries, and the names of types and of their wrappers, along chains and in rings.
#![tactic(auto)]

mod known_type;
mod ring_key;
mod type_entry;
mod type_key;
mod type_name;
mod type_ring;

pub use type_entry::{TypeEntry, type_id, type_of};
pub use type_name::{TypeNames, name_of_wrapper};
