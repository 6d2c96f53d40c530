//! The map file: what a code generator tells of the functions that it compiled, as a JSON object.
#![tactic(auto)]

mod by_tokens;
mod frames;
mod frames_by_tokens;
mod function;
mod json_fields;
mod labels;
mod labels_by_tokens;
mod map_file;
mod memory;
mod module;
mod registers;
mod stop;
mod token_parts;
mod tokens;

pub use map_file::{MapFile, MapModule, Names, Target, map_for, map_of, map_of_any};
