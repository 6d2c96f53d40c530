//! What a frame tells of where a label lies.
ghost use Rattle.std.specs.Prelude.{◌≡◌, [], false, IfErr, IfOk, map, nat_lt, option_map, true};
ghost use Rattle.std.specs.List.{list_any};
ghost use Rattle.std.specs.Option.{unwrap_or};
ghost use Rattle.dwc_isa.specs.FlatRanges.{Flattens};
ghost use Rattle.dwc_isa.specs.ValueLabels.{range_view};
ghost use Rattle.dwc_expr.specs.declared.error.ExprError.TheVariants.{BadLabelRange};
ghost use Rattle.dwc_expr.specs.Frames.{told_frame};
ghost use Rattle.dwc_expr.specs.OwnPlaces.{own_function, own_ranges};

use crate::{ExprError, FunctionFrameInfo};
use dwc_isa::{ToldRanges, ValueLabel, ValueLocRange};

// The number of the function in whose code values have places, if it has a symbol.
pub(crate) fn own_function(frame: Option<&FunctionFrameInfo<'_>>) -> Option<usize>
    ensures { result ≡ own_function (option_map (λ f. told_frame f.now) frame.entry) }
{
    match frame {
        Some(frame) => frame.symbol,
        None => None,
    }
}

// The places of a label as flat ranges; refused where a range that was given begins above its end.
pub(crate) fn flat_ranges<'a>(
    frame: Option<&'a FunctionFrameInfo<'a>>,
    label: ValueLabel,
) -> Result<&'a [ValueLocRange], ExprError>
    ensures flat { IfOk result (λ flat. Flattens (own_ranges (option_map (λ f. told_frame f.now) frame.entry) label.0) (map range_view flat.now)) }
    ensures good { IfOk result (λ flat. list_any (λ r. nat_lt r.end r.start) (own_ranges (option_map (λ f. told_frame f.now) frame.entry) label.0) ≡ false) }
    ensures reversed { IfErr result (λ e. list_any (λ r. nat_lt r.end r.start) (own_ranges (option_map (λ f. told_frame f.now) frame.entry) label.0) ≡ true) }
    ensures refused { IfErr result (λ e. e ≡ BadLabelRange label) }
{
    let Some(told) = told_ranges(frame, label) else {
        return Ok(&[]);
    };
    match told.flat() {
        Some(flat) => Ok(flat),
        None => Err(ExprError::BadLabelRange { label }),
    }
}

// The ranges in which a label has places, if it is told of.
pub(crate) fn told_ranges<'a>(
    frame: Option<&'a FunctionFrameInfo<'a>>,
    label: ValueLabel,
) -> Option<&'a ToldRanges>
    ensures { unwrap_or (option_map (λ t. t.now) result) [] ≡ own_ranges (option_map (λ f. told_frame f.now) frame.entry) label.0 }
{
    match frame {
        Some(frame) => frame.value_ranges.told(label),
        None => None,
    }
}
