//! Labels of values, and where values lie.
ghost use Rattle.std.specs.Prelude.{◌≡◌};
ghost use Rattle.dwc_native.specs.Parts.{context_label};

use crate::Reg;

/// A label of a value: the number of a local in the wasm function, or the label of the module's context.
#[derive(Clone, Copy, Debug, PartialEq, Eq)]
pub struct ValueLabel(pub u32);

/// Where a value lies.
#[derive(Clone, Copy, Debug, PartialEq, Eq)]
pub enum LabelValueLoc {
    /// In a register.
    Reg(Reg),
    /// In memory, at an offset in bytes from the canonical frame address.
    CFAOffset(i64),
}

/// Where a value lies in a part of a function's code.
#[derive(Clone, Copy)]
pub struct ValueLocRange {
    /// The place.
    pub loc: LabelValueLoc,
    /// The offset of the part's first byte in the code.
    pub start: u32,
    /// The offset of the first byte behind the part.
    pub end: u32,
}

// The label of the module's context, above those of all locals.
const VMCTX_LABEL: u32 = 0xFFFF_FFFE;

/// The label under which a code generator tells where the context of the module lies.
pub fn get_vmctx_value_label() -> ValueLabel
    ensures { result.0 ≡ context_label }
{
    ValueLabel(VMCTX_LABEL)
}
