//! Whether a label has a place at each byte of ranges of native code.
ghost use Rattle.std.specs.Prelude.{◌≡◌, ◌≤◌, ◌<◌, All, AllPairs, IfSome, is_some, length, map};
ghost use Rattle.std.specs.List.{list_all};
ghost use Rattle.dwc_native.specs.LabelRanges.{IsBefore, bytes_of};
ghost use Rattle.dwc_native.specs.Placed.{last_place};
ghost use Rattle.dwc_isa.specs.ValueLabels.{range_view};
ghost use Rattle.dwc_expr.specs.CodeRanges.{code_range_view};
ghost use Rattle.dwc_expr.specs.PlacedParts.{AllPassed, EndBy};
ghost use Rattle.dwc_isa.specs.FlatRanges.{IsFlat};
ghost use Rattle.dwc_expr.specs.LabelRanges.{bounds_of};
ghost use Rattle.dwc_expr.specs.OwnPlaces.{are_filled};

use crate::ranges::cached_range::CachedValueLabelRange;
use crate::ranges::code_range::CodeRange;
use crate::ranges::cuts::is_own;
use dwc_isa::ValueLocRange;

// Whether each byte of ranges has a place by the pieces of one's own function, if it has a number. The pieces in front of the first end
// in front of the ranges of that function.
pub(crate) fn are_filled(
    own: Option<usize>,
    pieces: &[ValueLocRange],
    ranges: &[CachedValueLabelRange],
    first: usize,
) -> bool
    requires flat { IsFlat (map range_view pieces.now) }
    requires ordered { AllPairs IsBefore (map bounds_of ranges.now) }
    requires nonempty { All (λ r. r.start < r.end) (map bounds_of ranges.now) }
    requires inside { first ≤ length pieces.now }
    requires passed { AllPassed own (map range_view pieces.now) (map bounds_of ranges.now) 0 first }
    ensures { result ≡ are_filled own (map range_view pieces.now) (map bounds_of ranges.now) }
{
    let mut next = first;
    for i in 0..ranges.len() {
        let range = ranges[i].bounds();
        if !is_own(own, range.function) {
            return false;
        }
        let Some(last) = last_in(range, pieces, next) else {
            return false;
        };
        next = last;
    }
    true
}

// The piece with the last byte of a range, of those from one on, where each byte of the range is in a piece.
pub(crate) fn last_in(range: CodeRange, pieces: &[ValueLocRange], first: usize) -> Option<usize>
    requires flat { IsFlat (map range_view pieces.now) }
    requires some { range.start < range.end }
    requires inside { first ≤ length pieces.now }
    requires passed { EndBy range.start first (map range_view pieces.now) }
    ensures filled { is_some result ≡ list_all (λ byte. is_some (last_place (map range_view pieces.now) byte)) (bytes_of (code_range_view range)) }
    ensures inside { IfSome result (λ last. last ≤ length pieces.now) }
    ensures passed { IfSome result (λ last. EndBy range.end last (map range_view pieces.now)) }
{
    let mut reached = range.start;
    for place in first..pieces.len() {
        let piece = &pieces[place];
        if piece.start as usize > reached {
            return None;
        }
        reached = reached.max(piece.end as usize);
        if reached >= range.end {
            return Some(place);
        }
    }
    None
}
