//! What is known of a compiled function.
ghost use Rattle.dwc_compiled.specs.EmptyRecords.{IsEmptyMetadata};

use crate::FunctionAddressMap;
use dwc_base::FilePos;
use dwc_isa::{CfaUnwindInfo, UnwindInfo, ValueLabelsRanges};
use std::alloc::Global;

/// What is known of a compiled function.
#[derive(Drop)]
pub struct CompiledFunctionMetadata {
    /// Where its instructions come from.
    pub address_map: FunctionAddressMap,
    /// Where its values lie.
    pub value_labels_ranges: ValueLabelsRanges,
    /// How it unwinds, in the form of its target's system.
    pub unwind_info: Option<UnwindInfo>,
    /// The same for a frame description entry, where the other is none.
    pub cfa_unwind_info: Option<CfaUnwindInfo>,
    /// Where it begins in the wasm file.
    pub start_srcloc: FilePos,
    /// Where it ends there.
    pub end_srcloc: FilePos,
}

impl CompiledFunctionMetadata {
    /// That of a function of which nothing is known: an empty address map, no labels, nothing of how it unwinds, and no places. It takes no
    /// memory.
    pub fn empty(alloc: Global) -> CompiledFunctionMetadata
        ensures { IsEmptyMetadata result }
    {
        CompiledFunctionMetadata {
            address_map: FunctionAddressMap::empty(alloc),
            value_labels_ranges: ValueLabelsRanges::new(alloc),
            unwind_info: None,
            cfa_unwind_info: None,
            start_srcloc: FilePos::default(),
            end_srcloc: FilePos::default(),
        }
    }
}
