//! Common information entries of call frames.
ghost use Rattle.std.specs.Prelude.{◌≡◌, IfOk};
ghost use Rattle.dwc_isa.specs.CallFrames.{cie_view};

use crate::FrameOp;
use std::alloc::{AllocError, Global};

/// What the frames of all functions of a target share: a common information entry (DWARF 5, section 6.4.1).
#[derive(Drop)]
pub struct Cie {
    /// How many bytes of code one unit of a code offset is; not 0.
    pub code_factor: u8,
    /// How many bytes one unit of a factored offset is; not 0. The factored offsets among the operations, those of `Offset`
    /// and the negative ones of `Cfa` and `CfaOffset`, are multiples of it.
    pub data_factor: i8,
    /// The register that holds the return address, by DWARF's number.
    pub return_register: u8,
    /// The rules that hold at the begin of each function.
    pub ops: Vec<FrameOp>,
}

// A copy of an entry.
pub(crate) fn copy_of(alloc: Global, cie: &Cie) -> Result<Cie, AllocError>
    ensures { IfOk result (λ copy. cie_view copy ≡ cie_view cie.now) }
{
    let mut ops = Vec::with_capacity(alloc, cie.ops.len())?;
    ops.extend_from_slice(&cie.ops)?;
    Ok(Cie {
        code_factor: cie.code_factor,
        data_factor: cie.data_factor,
        return_register: cie.return_register,
        ops,
    })
}
