//! Instructions of call frames.
ghost use Rattle.std.specs.Prelude.{◌≡◌, ◌<◌, nat_abs, Some};
ghost use Rattle.dwc_native.specs.CallFrames.{below_zero, has_factored_offset, is_multiple_of};
ghost use Rattle.dwc_isa.specs.CallFrames.{instruction_view};

/// An instruction of a call frame (DWARF 5, section 6.4.2). Registers have DWARF's numbers; offsets are in bytes.
#[derive(Clone, Copy, Debug, PartialEq, Eq)]
pub enum FrameOp {
    /// The frame's address is a register plus an offset.
    Cfa(u16, i32),
    /// The frame's address is counted from another register.
    CfaRegister(u16),
    /// The frame's address is at another offset of its register.
    CfaOffset(i32),
    /// A register's rule is that of the common information entry.
    Restore(u16),
    /// A register's value is lost.
    Undefined(u16),
    /// A register keeps its value.
    SameValue(u16),
    /// A register was saved at an offset of the frame's address.
    Offset(u16, i32),
    /// The rules are put on a stack.
    RememberState,
    /// The rules are those on top of the stack, and that is taken off.
    RestoreState,
}

impl FrameOp {
    /// Whether the offset that is written in units of the data factor, if there is one, is a multiple of it (DWARF 5, section
    /// 6.4.2): that of `Offset`, and a negative one of `Cfa` and `CfaOffset`.
    pub fn has_factored_offset(self, factor: i8) -> bool
        requires { 0 < nat_abs factor }
        ensures { result ≡ has_factored_offset factor (instruction_view self) }
    {
        match self {
            FrameOp::Cfa(_, offset) => is_multiple_below_0(offset, factor),
            FrameOp::CfaOffset(offset) => is_multiple_below_0(offset, factor),
            FrameOp::Offset(_, offset) => is_multiple(offset, factor),
            _ => true,
        }
    }
}

// Whether an offset is from 0 on or a multiple of a factor.
fn is_multiple_below_0(offset: i32, factor: i8) -> bool
    requires { 0 < nat_abs factor }
    ensures { result ≡ is_multiple_of factor (below_zero offset) }
{
    if offset < 0 {
        is_multiple(offset, factor)
    } else {
        true
    }
}

// Whether an offset is a multiple of a factor. Of magnitudes, so that the lowest offset by -1 has no overflow.
fn is_multiple(offset: i32, factor: i8) -> bool
    requires { 0 < nat_abs factor }
    ensures { result ≡ is_multiple_of factor (Some offset) }
{
    offset.unsigned_abs() % u32::from(factor.unsigned_abs()) == 0
}
