//! Why an expression is not compiled or not built.
use dwc_base::{SectionName, What};
use dwc_isa::{Reg, ValueLabel};
use std::alloc::{AllocError, AllocFailed};
use thiserror::Error;

/// Why an expression is not compiled or not built.
#[derive(Clone, Copy, Debug, PartialEq, Eq, Error)]
pub enum ExprError {
    /// The operation at `offset` of the expression cannot be read. A caller that knows where the expression stands puts its section
    /// and offset in place of these.
    #[error("Read {what:?} {name} {offset}", name = section.text())]
    Read {
        what: What,
        section: SectionName,
        offset: u64,
    },
    /// A built jump goes further than 16 bits with a sign say.
    #[error("TooLarge Jump")]
    TooLarge,
    /// A label that is needed has a range that begins above its end.
    #[error("BadLabelRange {}", label.0)]
    BadLabelRange {
        label: ValueLabel,
    },
    /// Linear memory is read where all values have places, and the module has none.
    #[error("InvalidAttributeValue")]
    InvalidAttributeValue,
    /// A value lies in a register that DWARF does not know.
    #[error("UnmappedRegister {}", register.0)]
    UnmappedRegister {
        register: Reg,
    },
    #[error("out of memory")]
    OutOfMemory,
}

impl From<AllocError> for ExprError {
    ghost use Rattle.std.specs.Prelude.{◌≡◌};
    ghost use Rattle.dwc_expr.specs.declared.error.ExprError.TheVariants.{OutOfMemory};

    ghost from_gives = { λ _ e. e ≡ OutOfMemory };

    fn from(_: AllocError) -> ExprError {
        ExprError::OutOfMemory
    }
}

impl<T: Drop> From<AllocFailed<T>> for ExprError {
    ghost use Rattle.std.specs.Prelude.{◌≡◌};
    ghost use Rattle.dwc_expr.specs.declared.error.ExprError.TheVariants.{OutOfMemory};

    ghost from_gives = { λ _ e. e ≡ OutOfMemory };

    fn from(_: AllocFailed<T>) -> ExprError {
        ExprError::OutOfMemory
    }
}
