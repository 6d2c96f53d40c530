//! The target of a code generator, by tables: its registers, byte order and call frames; and where values and memories lie at run time.
#![tactic(auto)]

mod architecture;
mod cie;
mod flat;
mod frame_op;
mod isa;
mod label_registers;
mod memory_offset;
mod reg;
mod table_isa;
mod told_ranges;
mod unwind_info;
mod value_label;
mod value_labels_ranges;

pub use architecture::Architecture;
pub use cie::Cie;
pub use frame_op::FrameOp;
pub use isa::TargetIsa;
pub use memory_offset::ModuleMemoryOffset;
pub use reg::Reg;
pub use table_isa::TableIsa;
pub use told_ranges::ToldRanges;
pub use unwind_info::{ArmCodes, CfaUnwindInfo, UnwindInfo};
pub use value_label::{LabelValueLoc, ValueLabel, ValueLocRange, get_vmctx_value_label};
pub use value_labels_ranges::{Labels, ValueLabelsRanges};
