//! Why a map file is not read token by token.

use json::Invalid;
use std::alloc::{AllocError, AllocFailed};

/// Why a map file is not read token by token.
#[derive(Clone, Copy)]
pub(crate) enum Stop {
    /// It is no map, or one of another form than the usual.
    Unusual,
    OutOfMemory,
}

impl From<Invalid> for Stop {
    fn from(_: Invalid) -> Stop {
        Stop::Unusual
    }
}

impl From<AllocError> for Stop {
    fn from(_: AllocError) -> Stop {
        Stop::OutOfMemory
    }
}

impl<T: Drop> From<AllocFailed<T>> for Stop {
    fn from(_: AllocFailed<T>) -> Stop {
        Stop::OutOfMemory
    }
}
