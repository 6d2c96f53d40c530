//! Why functions are not taken as one compilation.
use std::alloc::{AllocError, AllocFailed};
use thiserror::Error;

/// Why functions are not taken as one compilation.
#[derive(Debug, Drop, Error)]
pub enum CompilationError {
    /// Two functions have one symbol. They are told by their numbers over all modules: `second` is the least number whose
    /// symbol came before, and `first` is where it came.
    #[error("SharedSymbol {first} {second}")]
    SharedSymbol { first: usize, second: usize },
    #[error("out of memory")]
    OutOfMemory,
}

impl From<AllocError> for CompilationError {
    ghost use Rattle.std.specs.Prelude.{◌≡◌};
    ghost use Rattle.dwc_addr.specs.declared.compilation_error.CompilationError.TheVariants.{OutOfMemory};

    ghost from_gives = { λ _ e. e ≡ OutOfMemory };

    fn from(_: AllocError) -> CompilationError {
        CompilationError::OutOfMemory
    }
}

impl<T: Drop> From<AllocFailed<T>> for CompilationError {
    ghost use Rattle.std.specs.Prelude.{◌≡◌};
    ghost use Rattle.dwc_addr.specs.declared.compilation_error.CompilationError.TheVariants.{OutOfMemory};

    ghost from_gives = { λ _ e. e ≡ OutOfMemory };

    fn from(_: AllocFailed<T>) -> CompilationError {
        CompilationError::OutOfMemory
    }
}
