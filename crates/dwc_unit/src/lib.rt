//! What is given to the writer of DWARF: units with their line programs and entries, and the texts that entries name. Nothing of it is
//! written here. What the modules have beside what is named below is for the crate that writes it.
#![tactic(auto)]

pub mod additions;
pub mod attributes;
mod expressions;
mod few_bytes;
pub mod file_order;
pub mod lines;
pub mod lists;
pub mod names;
mod rows;
pub mod small_places;
pub mod spelled_rows;
mod strings;
mod units;

pub use attributes::{AttributeValue, DebugInfoRef};
pub use expressions::Expression;
pub use lines::LineProgram;
pub use lists::{LocationList, RangeList};
pub use strings::{StringId, StringTable};
pub use units::{Dwarf, Unit, UnitEntryId, UnitId, UnitTable};
