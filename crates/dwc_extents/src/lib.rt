//! What an entry has of its module's code: its extent and bounds, what is in force at it, and what its locations become.
#![tactic(auto)]

mod bounds;
mod code_names;
mod expressions;
mod extent;
mod given;
mod in_force;
mod inherited_attr;
mod input_extent;
mod lineage;
mod listed;
mod location;
mod location_list;
mod location_list_error;
mod location_value;
mod ranges;
mod wasm_intervals;

pub use bounds::check_bound;
pub use code_names::speaks_of_code;
pub use extent::{NativeExtent, carried_address, extent_by_scope};
pub use given::source_end;
pub use in_force::{InForce, frame_in_force, in_force_by};
pub use inherited_attr::InheritedAttr;
pub use lineage::Lineage;
pub use location::{of_expression, output_expression, output_locations};
pub use ranges::{NativeRanges, native_ranges};
