//! What is compiled together; which function of a module an address of its DWARF is in; and where in the wasm file the code
//! of a function comes from.
#![tactic(auto)]

mod address_map;
mod bounds;
mod by_start;
mod compilation;
mod compilation_error;
mod compilation_text;
mod error;
mod function_map;
mod hints;
mod laws;
mod linkage_names;
mod maps;
mod near;
mod positions;
mod ranges;
mod run;
mod runs;
mod shown;
mod sources;
mod stretch;
mod symbols;
mod transform;
mod translate;

pub use address_map::{AddressMap, GeneratedAddress, WasmAddress};
pub use bounds::Bounds;
pub use compilation::Compilation;
pub use compilation_error::CompilationError;
pub use dwc_isa::ModuleMemoryOffset;
pub use error::AddrError;
pub use function_map::FunctionMap;
pub use laws::{
    runs_have_all, translations_are_said, translations_ascend, translations_keep_scopes,
};
pub use linkage_names::LinkageNames;
pub use maps::{get_wasm_code_offset, map_fault};
pub use ranges::{RawRanges, TranslatedRanges};
pub use sources::Sources;
pub use transform::AddressTransform;
