//! An entry of an address map that has a source.

/// An offset of a function's code from its start.
pub type GeneratedAddress = usize;

/// An offset of a wasm file from the contents of its code section.
pub type WasmAddress = u64;

/// Where the code of a source begins, and the source. Each takes four bytes: no offset of a function's code or of a wasm file has more.
#[derive(Clone, Copy)]
pub struct AddressMap {
    /// A `GeneratedAddress`.
    pub generated: u32,
    /// A `WasmAddress`.
    pub wasm: u32,
}
