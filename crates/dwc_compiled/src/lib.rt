//! What a code generator tells of each function that it compiled: where its instructions come from, and its metadata.
#![tactic(auto)]

mod address_map;
mod instruction_maps;
mod list_room;
mod metadata;

pub use address_map::FunctionAddressMap;
pub use instruction_maps::{
    Gap, InstructionAddressMap, InstructionMaps, InstructionSource, Instructions,
};
pub use list_room::capacity;
pub use metadata::CompiledFunctionMetadata;
