//! The records of a code generator: its target and the places of values (`dwc_isa`), and what it tells of each function that it compiled
//! (`dwc_compiled`), passed on under one name.
#![tactic(auto)]

pub use dwc_compiled::{
    CompiledFunctionMetadata, FunctionAddressMap, Gap, InstructionAddressMap, InstructionMaps,
    InstructionSource, Instructions, capacity,
};
pub use dwc_isa::{
    Architecture, ArmCodes, CfaUnwindInfo, Cie, FrameOp, LabelValueLoc, Labels, Reg, TableIsa,
    TargetIsa, ToldRanges, UnwindInfo, ValueLabel, ValueLabelsRanges, ValueLocRange,
    get_vmctx_value_label,
};
