//! Functions whose ends no addend can say.
ghost use Rattle.std.specs.Prelude.{◌≡◌, map};
ghost use Rattle.std.specs.List.{list_any};
ghost use Rattle.dwc_native.specs.Addends.{is_long as is_long_function};
ghost use Rattle.dwc_addr.specs.Transforms.{function_view};
ghost use Rattle.dwc_carry.specs.Transformed.{lengths_checked};

use crate::DebugError;
use dwc_addr::{AddressTransform, FunctionMap};
use dwc_base::Limit;

// The most bytes of a function with a symbol: an addend behind the symbol has 32 signed bits.
const LONGEST_FUNCTION: usize = (1 << 31) - 1;

// Whether a function with a symbol is longer.
fn is_long(function: &FunctionMap<'_>) -> bool
    ensures { result ≡ is_long_function (function_view function.now) }
{
    function.symbol.is_some() && function.len > LONGEST_FUNCTION
}

// Whether one of some functions is.
fn has_long(functions: &[FunctionMap<'_>]) -> bool
    ensures { result ≡ list_any is_long_function (map function_view functions.now) }
{
    for function in functions {
        if is_long(function) {
            return true;
        }
    }
    false
}

/// Refuses functions that are too long for addends.
///
/// # Errors
/// `TooLarge` exactly where a function with a symbol, of any module, is longer than 2^31 - 1 bytes.
pub(crate) fn check_lengths(transforms: &[AddressTransform<'_>]) -> Result<(), DebugError>
    ensures { result ≡ lengths_checked transforms.now }
{
    for transform in transforms {
        if has_long(transform.map()) {
            return Err(DebugError::TooLarge {
                what: Limit::Addend,
            });
        }
    }
    Ok(())
}
