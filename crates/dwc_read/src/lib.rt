//! Reads units and entries of DWARF: the sections of a module or of an output, the units of `.debug_info`, and the
//! entries of a unit with the values of their attributes.
#![tactic(auto)]

mod abbreviation;
mod attribute;
mod attribute_spec;
mod bases;
mod chain;
mod common;
mod declaration;
mod entries;
mod entry;
mod entry_links;
mod fault;
mod form;
mod formed;
mod header;
mod headers;
mod indexed;
mod known_tables;
mod link_steps;
mod links;
mod lone;
mod name;
mod number;
mod place;
mod root_values;
mod sections;
mod skips;
mod steps;
mod table;
mod text_place;
mod unit;
mod unit_table;
mod units;
mod value;
mod value_end;

pub use attribute::encoded_value;
pub use attribute_spec::AttributeSpec;
pub use declaration::Declaration;
pub use entries::Entries;
pub use entry::Entry;
pub use entry_links::EntryLinks;
pub use fault::ReadFault;
pub use form::is_text_form;
pub use sections::Sections;
pub use text_place::TextPlace;
pub use unit::Unit;
pub use units::Units;
pub use value::AttributeValue;
