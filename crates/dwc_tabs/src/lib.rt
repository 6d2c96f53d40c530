//! Line tables: a table is read and checked once, and its rows are given one at a time. (DWARF 4 and 5, section 6.2.) Range lists:
//! their entries as they stand, and the intervals that these stand for. (DWARF 4, section 2.17.3; DWARF 5, sections 2.17.3 and 7.25.)
//! Location lists: their intervals with the expressions that hold there. (DWARF 4 and 5, section 2.6.2; DWARF 5, section 7.7.3.)
//! The operations of expressions. (DWARF 4 and 5, sections 2.5 and 7.7.1.)
#![tactic(auto)]

mod entry_given;
mod entry_kind;
mod fault;
mod file_entries;
mod header;
mod instruction;
mod list_fault;
mod list_start;
mod listed_location;
mod location_entries;
mod location_entry;
mod locations;
mod open_list;
mod open_table;
mod operation;
mod operations;
mod parameters;
mod path;
mod program;
mod range_ends;
mod range_entries;
mod range_entry;
mod ranges;
mod registers;
mod source;
mod step;
mod table;
mod unread;

pub use fault::TabFault;
pub use header::LineFile;
pub use list_fault::ListFault;
pub use listed_location::ListedLocation;
pub use location_entries::is_location_list;
pub use locations::Locations;
pub use open_table::OpenTable;
pub use operation::Operation;
pub use operations::Operations;
pub use range_ends::{interval_between, interval_of_length};
pub use range_entries::{RangeEntries, is_range_list};
pub use range_entry::RangeEntry;
pub use ranges::Ranges;
pub use step::{LineStep, LineStop};
pub use table::{LineTable, Rows};
