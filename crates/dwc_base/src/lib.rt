//! What the readers and the writer of DWARF share: a cursor over bytes, the records that pass between the crates, and (in
//! `specs/`) the definitions of bytes, of WebAssembly files and of the headers of DWARF that every contract above cites.
#![tactic(auto)]

pub mod constants;
mod cursor;
mod faults;
pub mod fields;
mod leb128;
mod ledger;
mod output;
mod records;
mod relocations;
mod section_bytes;
mod section_name;
mod translation;
mod wasm_sections;

pub use cursor::{Cursor, CursorFault};
pub use faults::{Flaw, Kind, Limit, NotRead, What};
pub use ledger::{Counting, Ledger, Silent, Steps};
pub use output::{DwarfSection, DwarfSectionReloc, DwarfSectionRelocTarget};
pub use records::{
    Address, DefinedFuncIndex, Encoding, Endian, FilePos, FuncKey, LineRow, MapFault, ModulePC,
    OutputFor, StaticModuleIndex, SymbolId, Tunables,
};
pub use relocations::Relocations;
pub use section_name::SectionName;
pub use translation::{FunctionMeta, ModuleTranslation, ParamTypes, ValType};
pub use wasm_sections::WasmSections;
