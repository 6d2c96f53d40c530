//! A run of a function: code along which the wasm offsets of the sources do not fall.
ghost use Rattle.std.specs.Prelude.{◌<◌, ◌^◌};

use crate::address_map::{GeneratedAddress, WasmAddress};

// A run: the places of its addresses among its function's, and where it begins and ends in the wasm code and in the native code.
#[derive(Clone, Copy)]
pub(crate) struct Run {
    pub(crate) first: usize,
    pub(crate) behind: usize,
    pub(crate) wasm_start: WasmAddress,
    pub(crate) wasm_end: WasmAddress,
    pub(crate) start: GeneratedAddress,
    pub(crate) end: GeneratedAddress,
    ghost start_low: { start < 2 ^ 32 },
    ghost end_low: { end < 2 ^ 32 },
}
