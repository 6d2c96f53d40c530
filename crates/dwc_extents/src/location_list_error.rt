//! Why a location list of the input is not carried.
use dwc_expr::ExprError;
use dwc_tabs::ListFault;
use std::alloc::{AllocError, AllocFailed};

/// Why a location list of the input is not carried.
#[derive(Clone, Copy)]
pub(crate) enum LocationListError {
    /// The list cannot be read, or a start plus a length in it is no address.
    List(ListFault),
    /// One of its expressions cannot be read or is not built; or memory is wanted.
    Expression(ExprError),
}

impl From<ListFault> for LocationListError {
    ghost use Rattle.std.specs.Prelude.{◌≡◌};
    ghost use Rattle.dwc_extents.specs.declared.location_list_error.LocationListError.TheVariants.{List};

    ghost from_gives = { λ fault e. e ≡ List fault };

    fn from(fault: ListFault) -> LocationListError {
        LocationListError::List(fault)
    }
}

impl From<ExprError> for LocationListError {
    ghost use Rattle.std.specs.Prelude.{◌≡◌};
    ghost use Rattle.dwc_extents.specs.declared.location_list_error.LocationListError.TheVariants.{Expression};

    ghost from_gives = { λ error e. e ≡ Expression error };

    fn from(error: ExprError) -> LocationListError {
        LocationListError::Expression(error)
    }
}

impl From<AllocError> for LocationListError {
    ghost use Rattle.std.specs.Prelude.{◌≡◌};
    ghost use Rattle.dwc_expr.specs.declared.error.ExprError.TheVariants.{OutOfMemory};
    ghost use Rattle.dwc_extents.specs.declared.location_list_error.LocationListError.TheVariants.{Expression};

    ghost from_gives = { λ _ e. e ≡ Expression OutOfMemory };

    fn from(_: AllocError) -> LocationListError {
        LocationListError::Expression(ExprError::OutOfMemory)
    }
}

impl<T: Drop> From<AllocFailed<T>> for LocationListError {
    ghost use Rattle.std.specs.Prelude.{◌≡◌};
    ghost use Rattle.dwc_expr.specs.declared.error.ExprError.TheVariants.{OutOfMemory};
    ghost use Rattle.dwc_extents.specs.declared.location_list_error.LocationListError.TheVariants.{Expression};

    ghost from_gives = { λ _ e. e ≡ Expression OutOfMemory };

    fn from(_: AllocFailed<T>) -> LocationListError {
        LocationListError::Expression(ExprError::OutOfMemory)
    }
}
