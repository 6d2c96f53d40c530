//! Label ranges with the place of one more label.
ghost use Rattle.std.specs.Prelude.{◌<◌, All, AllPairs, IfOk, map, option_map};
ghost use Rattle.dwc_native.specs.LabelRanges.{IsBefore};
ghost use Rattle.dwc_isa.specs.ValueLabels.{range_view};
ghost use Rattle.dwc_isa.specs.FlatRanges.{IsFlat};
ghost use Rattle.dwc_expr.specs.Frames.{told_frame};
ghost use Rattle.dwc_expr.specs.LabelRanges.{bounds_of};
ghost use Rattle.dwc_expr.specs.NarrowedRanges.{Narrows, NarrowsBy};

use crate::ranges::cuts::cut_ranges;
use crate::ranges::filled::are_filled;
use crate::ranges::passed::first_needed;
use crate::ranges::told::{flat_ranges, own_function};
use crate::{BuiltValueLabelRanges, ExprError, FunctionFrameInfo};
use dwc_isa::{ValueLabel, ValueLocRange};
use std::alloc::{AllocError, Global};

// The ranges on which one more label has a place.
pub(crate) fn narrowed(
    alloc: Global,
    frame: Option<&FunctionFrameInfo<'_>>,
    label: ValueLabel,
    built: &BuiltValueLabelRanges,
) -> Result<BuiltValueLabelRanges, ExprError>
    requires ordered { AllPairs IsBefore (map bounds_of built.now.ranges.items) }
    requires nonempty { All (λ r. r.start < r.end) (map bounds_of built.now.ranges.items) }
    ensures { Narrows (option_map (λ f. told_frame f.now) frame.entry) label.0 built.now result }
{
    let own = own_function(frame);
    let pieces = flat_ranges(frame, label)?;
    Ok(narrowed_by(alloc, own, label, pieces, built)?)
}

// The same by flat pieces, which tell the places of the label in one's own function.
fn narrowed_by(
    alloc: Global,
    own: Option<usize>,
    label: ValueLabel,
    pieces: &[ValueLocRange],
    built: &BuiltValueLabelRanges,
) -> Result<BuiltValueLabelRanges, AllocError>
    requires flat { IsFlat (map range_view pieces.now) }
    requires ordered { AllPairs IsBefore (map bounds_of built.now.ranges.items) }
    requires nonempty { All (λ r. r.start < r.end) (map bounds_of built.now.ranges.items) }
    ensures { IfOk result (NarrowsBy own label.0 (map range_view pieces.now) built.now) }
{
    let old = built.ranges.as_slice();
    let first = first_needed(own, pieces, old);
    let ranges = cut_ranges(alloc, own, label, pieces, old, first)?;
    let covers_entire_scope = built.covers_entire_scope && are_filled(own, pieces, old, first);
    Ok(BuiltValueLabelRanges {
        ranges,
        covers_entire_scope,
    })
}
