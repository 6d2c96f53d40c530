//! Where flat pieces begin to reach behind a byte.
ghost use Rattle.std.specs.Prelude.{◌≤◌, ◌<◌, All, AllPairs, length, map};
ghost use Rattle.dwc_native.specs.LabelRanges.{IsBefore};
ghost use Rattle.dwc_isa.specs.FlatRanges.{IsFlat};
ghost use Rattle.dwc_isa.specs.ValueLabels.{range_view};
ghost use Rattle.dwc_expr.specs.LabelRanges.{bounds_of};
ghost use Rattle.dwc_expr.specs.PlacedParts.{AllPassed, EndBy};

use crate::ranges::cached_range::CachedValueLabelRange;
use crate::ranges::cuts::is_own;
use dwc_isa::ValueLocRange;

// The first of flat pieces that ends behind a byte.
pub(crate) fn first_behind(pieces: &[ValueLocRange], byte: usize) -> usize
    requires { IsFlat (map range_view pieces.now) }
    ensures inside { result ≤ length pieces.now }
    ensures passed { EndBy byte result (map range_view pieces.now) }
{
    pieces.partition_point(|piece| piece.end as usize <= byte)
}

// The first of flat pieces that ends behind the begin of the first range of one's own function, if it has a number.
pub(crate) fn first_needed(
    own: Option<usize>,
    pieces: &[ValueLocRange],
    ranges: &[CachedValueLabelRange],
) -> usize
    requires flat { IsFlat (map range_view pieces.now) }
    requires ordered { AllPairs IsBefore (map bounds_of ranges.now) }
    requires nonempty { All (λ r. r.start < r.end) (map bounds_of ranges.now) }
    ensures inside { result ≤ length pieces.now }
    ensures passed { AllPassed own (map range_view pieces.now) (map bounds_of ranges.now) 0 result }
{
    for i in 0..ranges.len() {
        let range = &ranges[i];
        if is_own(own, range.func_index) {
            return first_behind(pieces, range.start);
        }
    }
    0
}
