//! The writer of DWARF: where the entries and lists of units stand, and the sections that hold them, with those of texts and of frames.
//! What is written is read back by the definitions as it was given.
#![tactic(auto)]

mod abbreviations;
mod entries;
mod layout;
mod line_names;
mod list_places;
mod list_sections;
mod lists;
mod notes;
mod path_tables;
mod room;
mod sections;
mod shapes;
mod short_lists;
mod sizes;
mod tables;
mod text_layout;
mod unit_names;

pub use dwc_frames::FrameTable;
pub use dwc_section::{WriteError, Writer, WriterRelocate, put_uleb};
pub use dwc_unit::{
    AttributeValue, DebugInfoRef, Dwarf, Expression, LineProgram, LocationList, RangeList,
    StringId, StringTable, Unit, UnitEntryId, UnitId, UnitTable,
};
pub use sections::write_sections;
