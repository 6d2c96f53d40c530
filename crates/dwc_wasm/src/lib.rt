//! The reader of WebAssembly files: the sections of DWARF, lent, and what DWARF wants to know of a file besides.
//! (WebAssembly 1.0, section 5.)
#![tactic(auto)]

mod fields;
mod function_sections;
mod functions;
mod imports;
mod name_section;
mod split;
mod walk;

pub use split::{WasmFault, split_wasm};
