//! Why no address transform is made.
use dwc_base::MapFault;
use std::alloc::{AllocError, AllocFailed};
use thiserror::Error;

/// Why the functions of a module give no address transform.
#[derive(Debug, Drop, Error)]
pub enum AddrError {
    /// The address map of a function, by its place among the defined ones of its module, breaks a rule.
    #[error("the address map of function {func} of module {module} is not good: {why:?}")]
    BadAddressMap {
        module: u32,
        func: u32,
        why: MapFault,
    },
    #[error("out of memory")]
    OutOfMemory,
}

impl From<AllocError> for AddrError {
    ghost use Rattle.std.specs.Prelude.{◌≡◌};
    ghost use Rattle.dwc_addr.specs.declared.error.AddrError.TheVariants.{OutOfMemory};

    ghost from_gives = { λ _ e. e ≡ OutOfMemory };

    fn from(_: AllocError) -> AddrError {
        AddrError::OutOfMemory
    }
}

impl<T: Drop> From<AllocFailed<T>> for AddrError {
    ghost use Rattle.std.specs.Prelude.{◌≡◌};
    ghost use Rattle.dwc_addr.specs.declared.error.AddrError.TheVariants.{OutOfMemory};

    ghost from_gives = { λ _ e. e ≡ OutOfMemory };

    fn from(_: AllocFailed<T>) -> AddrError {
        AddrError::OutOfMemory
    }
}
