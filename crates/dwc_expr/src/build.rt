//! What is built of a compiled expression over the native code of a scope. (DWARF 4 and 5, sections 2.5 and 2.6.)

pub(crate) mod alone;
pub(crate) mod built;
pub(crate) mod bytes;
pub(crate) mod copies;
pub(crate) mod jumps;
pub(crate) mod labels;
pub(crate) mod on_ranges;
pub(crate) mod over_intervals;
pub(crate) mod pads;
pub(crate) mod parts_to_build;
pub(crate) mod places;
pub(crate) mod setting;
mod varying;
