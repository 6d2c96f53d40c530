//! Why the entries of a unit are not cloned.
ghost use Rattle.dwc_source.specs.Errors.{OfMemory};
ghost use Rattle.std.specs.Prelude.{◌≡◌};

use dwc_base::{Kind, SectionName, What};
use dwc_isa::{Reg, ValueLabel};
use dwc_read::ReadFault;
use dwc_section::WriteError;
use dwc_tabs::ListFault;
use std::alloc::{AllocError, AllocFailed};
use thiserror::Error;

/// Why the entries of a unit are not cloned.
#[derive(Clone, Copy, Debug, Error)]
pub enum CloneError {
    /// The bytes at `offset` of a section are no such thing of DWARF.
    #[error("Read {what:?} {name} {offset}", name = section.text())]
    Read {
        what: What,
        section: SectionName,
        offset: u64,
    },
    /// What stands at `offset` is of a kind that is refused.
    #[error("Unsupported {what:?} {offset}")]
    Unsupported {
        what: Kind,
        offset: u64,
    },
    /// A start plus a length is no address.
    #[error("TooLarge Range")]
    LongRange,
    /// A label that an expression needs has a range that begins above its end.
    #[error("BadLabelRange {}", label.0)]
    BadLabelRange {
        label: ValueLabel,
    },
    /// An expression reads linear memory, and the module, by its place among all, has none.
    #[error("InvalidAttributeValue {module}")]
    InvalidAttributeValue {
        module: u32,
    },
    /// A value that an expression needs lies in a register that DWARF does not know.
    #[error("UnmappedRegister {}", register.0)]
    UnmappedRegister {
        register: Reg,
    },
    /// A jump of an expression goes further than 16 bits with a sign say.
    #[error("TooLarge Jump")]
    LongJump,
    #[error("out of memory")]
    OutOfMemory,
}

impl From<ReadFault> for CloneError {
    ghost use Rattle.std.specs.Prelude.{◌≡◌};
    ghost use Rattle.dwc_source.specs.Errors.{of_reading};

    ghost from_gives = { λ fault e. e ≡ of_reading fault };

    fn from(fault: ReadFault) -> CloneError {
        match fault {
            ReadFault::Read {
                what,
                section,
                offset,
            } => CloneError::Read {
                what,
                section,
                offset,
            },
            ReadFault::Unsupported { what, offset } => CloneError::Unsupported { what, offset },
            ReadFault::OutOfMemory => CloneError::OutOfMemory,
        }
    }
}

impl From<ListFault> for CloneError {
    ghost use Rattle.std.specs.Prelude.{◌≡◌};
    ghost use Rattle.dwc_source.specs.Errors.{of_list};

    ghost from_gives = { λ fault e. e ≡ of_list fault };

    fn from(fault: ListFault) -> CloneError {
        match fault {
            ListFault::Read {
                what,
                section,
                offset,
            } => CloneError::Read {
                what,
                section,
                offset,
            },
            ListFault::Unsupported { what, offset } => CloneError::Unsupported { what, offset },
            ListFault::TooLarge => CloneError::LongRange,
        }
    }
}

impl From<AllocError> for CloneError {
    ghost use Rattle.std.specs.Prelude.{◌≡◌};
    ghost use Rattle.dwc_source.specs.declared.error.CloneError.TheVariants.{OutOfMemory};

    ghost from_gives = { λ _ e. e ≡ OutOfMemory };

    fn from(_: AllocError) -> CloneError {
        CloneError::OutOfMemory
    }
}

impl<T: Drop> From<AllocFailed<T>> for CloneError {
    ghost use Rattle.std.specs.Prelude.{◌≡◌};
    ghost use Rattle.dwc_source.specs.declared.error.CloneError.TheVariants.{OutOfMemory};

    ghost from_gives = { λ _ e. e ≡ OutOfMemory };

    fn from(_: AllocFailed<T>) -> CloneError {
        CloneError::OutOfMemory
    }
}

/// What a call of the writer answers, which is refused for want of memory alone.
pub fn of_memory<T: Drop>(written: Result<T, WriteError>) -> Result<T, CloneError>
    ensures { OfMemory written result }
{
    match written {
        Ok(value) => Ok(value),
        Err(_) => Err(CloneError::OutOfMemory),
    }
}
