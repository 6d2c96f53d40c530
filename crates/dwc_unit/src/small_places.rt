//! Places in lists in four bytes each, as a unit keeps one or two for each of its entries.
ghost use Rattle.std.specs.Prelude.{◌≡◌, Some, None, IfOk};

use std::alloc::AllocError;
use std::marker::Model;

/// A place in a list, or none.
#[derive(Drop)]
pub struct SmallPlace {
    // 0 for none, else one more than the place
    code: u32,
}

impl Model for SmallPlace {
    ghost use Rattle.std.specs.Prelude.{Option, ℕ};
    ghost use Rattle.dwc_unit.specs.SmallPlaces.{place_of_code};

    ghost Value = { Option ℕ };

    ghost view = { λ p. place_of_code p.code };
}

impl SmallPlace {
    // No place.
    pub(crate) fn none() -> SmallPlace
        ensures { result ≡ None }
    {
        SmallPlace { code: 0 }
    }

    // A place. There is no memory for a list so long that its places do not fit.
    pub(crate) fn new(place: usize) -> Result<SmallPlace, AllocError>
        ensures { IfOk result (λ p. p ≡ Some place) }
    {
        match u32::try_from(place) {
            Ok(number) if number < u32::MAX => Ok(SmallPlace { code: number + 1 }),
            _ => Err(AllocError),
        }
    }

    /// The place, if there is one.
    pub fn get(&self) -> Option<usize>
        ensures { result ≡ self.now }
    {
        if self.code == 0 {
            None
        } else {
            Some(self.code as usize - 1)
        }
    }
}
