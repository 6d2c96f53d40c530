//! Frame tables, and the section `.debug_frame` that is written of one.
#![tactic(auto)]

mod frame_checks;
mod frame_instructions;
mod frame_section;
pub mod frames;

pub use frames::FrameTable;
