//! How the code of a function unwinds, as a code generator tells it.
ghost use Rattle.std.specs.Prelude.{◌≡◌, Some, None, if◌then◌else◌, option_map};
ghost use Rattle.dwc_native.specs.UnwindRecords.{are_arm_codes};

use crate::FrameOp;

/// How the frame of a function changes along its code, for a frame description entry (DWARF 5, section 6.4.1).
#[derive(Drop)]
pub struct CfaUnwindInfo {
    /// How many bytes of code it speaks of.
    pub len: u32,
    /// Instructions, each with the offset of the code from which it holds.
    pub ops: Vec<(u32, FrameOp)>,
}

/// The unwind codes of Windows for a function on ARM64: whole words of 4 bytes, at most 255.
#[derive(Drop)]
pub struct ArmCodes(Vec<u8>);

impl ArmCodes {
    /// These codes; None where they are no whole words, or more than 255 of them.
    pub fn new(codes: Vec<u8>) -> Option<ArmCodes>
        ensures { option_map (λ a. a.0.items) result ≡ (if are_arm_codes codes.items then Some codes.items else None) }
    {
        if codes.len() % 4 == 0 && codes.len() <= 1020 {
            Some(ArmCodes(codes))
        } else {
            None
        }
    }

    /// The codes.
    pub fn codes(&self) -> &[u8]
        ensures { result.now ≡ self.now.0.items }
    {
        &self.0
    }
}

/// How a function unwinds, in the form of its target's system.
#[derive(Drop)]
pub enum UnwindInfo {
    /// For a frame description entry.
    SystemV(CfaUnwindInfo),
    /// The unwind codes of Windows on x64.
    WindowsX64(Vec<u8>),
    /// Those of Windows on ARM64.
    WindowsArm64(ArmCodes),
}
