//! Registers as a code generator numbers them.

/// A register by the code generator's own number, which DWARF does not know.
#[derive(Clone, Copy, Debug, PartialEq, Eq)]
pub struct Reg(pub u32);
