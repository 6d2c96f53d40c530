//! Why something is not written.
use dwc_base::Limit;
use std::alloc::{AllocError, AllocFailed};
use thiserror::Error;

/// Why something is not written.
#[derive(Debug, Drop, Error)]
pub enum WriteError {
    /// A section would be longer than 2^31 - 1 bytes, or an expression of a location list is longer than 65,535. The writer refuses for
    /// no other limit.
    #[error("too large: {what:?}")]
    TooLarge { what: Limit },
    /// The code offsets of a function's frame description fall, or are no multiples of the code factor.
    #[error("invalid code offset in a frame of function {symbol}")]
    InvalidFrameCodeOffset { symbol: usize },
    /// A factored offset of a function's frame description is no multiple of the data factor.
    #[error("invalid data offset in a frame of function {symbol}")]
    InvalidFrameDataOffset { symbol: usize },
    #[error("out of memory")]
    OutOfMemory,
}

impl<T: Drop> From<AllocFailed<T>> for WriteError {
    ghost use Rattle.std.specs.Prelude.{◌≡◌};
    ghost use Rattle.dwc_section.specs.declared.error.WriteError.TheVariants.{OutOfMemory};

    ghost from_gives = { λ _ e. e ≡ OutOfMemory };

    fn from(_: AllocFailed<T>) -> WriteError {
        WriteError::OutOfMemory
    }
}

impl From<AllocError> for WriteError {
    ghost use Rattle.std.specs.Prelude.{◌≡◌};
    ghost use Rattle.dwc_section.specs.declared.error.WriteError.TheVariants.{OutOfMemory};

    ghost from_gives = { λ _ e. e ≡ OutOfMemory };

    fn from(_: AllocError) -> WriteError {
        WriteError::OutOfMemory
    }
}
