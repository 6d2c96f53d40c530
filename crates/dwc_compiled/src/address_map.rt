//! Where the code of a function comes from.
ghost use Rattle.dwc_compiled.specs.EmptyRecords.{IsEmptyMap};

use crate::instruction_maps::InstructionMaps;
use dwc_base::FilePos;
use std::alloc::Global;

/// Where the instructions of a function come from.
#[derive(Drop)]
pub struct FunctionAddressMap {
    /// The entries by code offset; the last one at or below a byte is the byte's own.
    pub instructions: InstructionMaps,
    /// Where the function begins in the wasm file.
    pub start_srcloc: FilePos,
    /// Where it ends there.
    pub end_srcloc: FilePos,
    /// The offset of the body in the function's code.
    pub body_offset: usize,
    /// How many bytes of code the body has.
    pub body_len: u32,
}

impl FunctionAddressMap {
    /// A map without entries and places, of a body of no bytes at 0. It takes no memory.
    pub fn empty(alloc: Global) -> FunctionAddressMap
        ensures { IsEmptyMap result }
    {
        FunctionAddressMap {
            instructions: InstructionMaps::new(alloc),
            start_srcloc: FilePos::default(),
            end_srcloc: FilePos::default(),
            body_offset: 0,
            body_len: 0,
        }
    }
}
