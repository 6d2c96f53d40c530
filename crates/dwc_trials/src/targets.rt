//! The common information entry of a target, through the trait as a caller has it.
ghost use Rattle.std.specs.Prelude.{◌≡◌, IfOk, true};
ghost use Rattle.dwc_native.specs.CallFrames.{is_sound};
ghost use Rattle.dwc_isa.specs.CallFrames.{cie_view};

use dwc_base::Endian;
use dwc_clif::{Architecture, Cie, FrameOp, TableIsa, TargetIsa};
use std::alloc::{AllocError, Global};
use std::test::Fail;

// An entry of x86-64: the return address is saved right below the frame's address.
fn common_entry(alloc: Global) -> Result<Cie, AllocError>
    ensures { IfOk result (λ c. is_sound (cie_view c) ≡ true) }
{
    let mut ops = Vec::new(alloc);
    ops.push(FrameOp::Offset(16, -8))?;
    Ok(Cie {
        code_factor: 1,
        data_factor: -8,
        return_register: 16,
        ops,
    })
}

/// A target of x86-64 with that entry.
pub(crate) fn framed_target(alloc: Global) -> Result<TableIsa, AllocError> {
    let registers = Vec::new(alloc);
    let cie = common_entry(alloc)?;
    TableIsa::new(
        alloc,
        Architecture::X86_64,
        Endian::Little,
        8,
        registers,
        Some(cie),
    )
}

#[test]
fn target_with_frames(rt: HostRuntime) -> Result<(), Fail> {
    let alloc = rt.alloc();
    let made = framed_target(alloc)?;
    let isa: &dyn TargetIsa = &made;
    let cie = isa.create_systemv_cie(alloc)?.ok_or("no entry")?;
    assert_eq!(rt; cie.ops.as_slice(), [FrameOp::Offset(16, -8)].as_slice());
    Ok(())
}
