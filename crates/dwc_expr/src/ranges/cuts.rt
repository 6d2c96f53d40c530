//! The parts of ranges of native code on which one more label has a place.
ghost use Rattle.std.specs.Prelude.{◌≡◌, ◌≤◌, ℕ, AllPairs, IfOk, OnOk, drop, length, map, option_to_list, true};
ghost use Rattle.std.specs.List.{AllZip};
ghost use Rattle.dwc_native.specs.LabelRanges.{IsBefore};
ghost use Rattle.dwc_native.specs.Placed.{is_number};
ghost use Rattle.dwc_isa.specs.ValueLabels.{place_view, range_view};
ghost use Rattle.dwc_expr.specs.CodeRanges.{code_range_view};
ghost use Rattle.dwc_isa.specs.FlatRanges.{IsFlat};
ghost use Rattle.dwc_expr.specs.LabelRanges.{bounds_of};
ghost use Rattle.dwc_expr.specs.NarrowedRanges.{AddsMade, IsMadeIn, IsMadeOf};
ghost use Rattle.dwc_expr.specs.PlacedParts.{cut_by, cuts_from, cuts_of, AllPassed, EndBy};

use crate::ranges::cached_range::CachedValueLabelRange;
use crate::ranges::code_range::CodeRange;
use dwc_isa::{ValueLabel, ValueLocRange};
use std::alloc::{AllocError, Global};

// The parts of ranges that lie in pieces, in order, with the place of a label by its piece: of the ranges of one's own function, if it
// has a number. The pieces in front of the first end in front of these.
pub(crate) fn cut_ranges(
    alloc: Global,
    own: Option<usize>,
    label: ValueLabel,
    pieces: &[ValueLocRange],
    ranges: &[CachedValueLabelRange],
    first: usize,
) -> Result<Vec<CachedValueLabelRange>, AllocError>
    requires flat { IsFlat (map range_view pieces.now) }
    requires ordered { AllPairs IsBefore (map bounds_of ranges.now) }
    requires inside { first ≤ length pieces.now }
    requires passed { AllPassed own (map range_view pieces.now) (map bounds_of ranges.now) 0 first }
    ensures { IfOk result (λ made. AllZip (IsMadeIn label.0 ranges.now) (cuts_from own (map range_view pieces.now) 0 (map bounds_of ranges.now)) made.items) }
{
    let mut made = Vec::new(alloc);
    let mut next = first;
    for i in 0..ranges.len() {
        next = cut_range(&mut made, own, label, &ranges[i], pieces, next)?;
    }
    Ok(made)
}

// Cuts a range by pieces from one on, and answers the first piece that can have a byte behind the range.
fn cut_range(
    made: &mut Vec<CachedValueLabelRange>,
    own: Option<usize>,
    label: ValueLabel,
    range: &CachedValueLabelRange,
    pieces: &[ValueLocRange],
    first: usize,
) -> Result<usize, AllocError>
    requires flat { IsFlat (map range_view pieces.now) }
    requires inside { first ≤ length pieces.now }
    ensures cut { IfOk result (λ next. (index : ℕ) → AddsMade label.0 range.now (cuts_of own (drop first (map range_view pieces.now)) index (bounds_of range.now)) made.old.items made.new.items) }
    ensures inside { IfOk result (λ next. next ≤ length pieces.now) }
    ensures passed { IfOk result (λ next. (byte : ℕ) → (is_number own range.now.func_index ≡ true → range.now.end ≤ byte) → EndBy byte first (map range_view pieces.now) → EndBy byte next (map range_view pieces.now)) }
{
    if !is_own(own, range.func_index) {
        return Ok(first);
    }
    for place in first..pieces.len() {
        let piece = &pieces[place];
        push_cut(made, label, range, piece)?;
        if piece.end as usize > range.end {
            return Ok(place);
        }
    }
    Ok(pieces.len())
}

// Puts the bytes that a range has in a piece behind other parts, if there are any, with the place of a label by the piece.
fn push_cut(
    made: &mut Vec<CachedValueLabelRange>,
    label: ValueLabel,
    range: &CachedValueLabelRange,
    piece: &ValueLocRange,
) -> Result<(), AllocError>
    ensures { OnOk result ((index : ℕ) → AddsMade label.0 range.now (option_to_list (cut_by index (bounds_of range.now) (range_view piece.now))) made.old.items made.new.items) }
{
    let start = range.start.max(piece.start as usize);
    let end = range.end.min(piece.end as usize);
    if start < end {
        let part = CodeRange {
            function: range.func_index,
            start,
            end,
        };
        made.push(cut_from(label, range, part, piece)?)?;
    }
    Ok(())
}

// A part of a range as a range, with the place of a label.
fn cut_from(
    label: ValueLabel,
    range: &CachedValueLabelRange,
    part: CodeRange,
    piece: &ValueLocRange,
) -> Result<CachedValueLabelRange, AllocError>
    ensures { IfOk result (λ made. IsMadeOf label.0 range.now (code_range_view part) (place_view piece.now.loc) made) }
{
    let mut label_location = range.label_location.clone()?;
    label_location.insert(label.0, piece.loc)?;
    Ok(CachedValueLabelRange {
        func_index: part.function,
        start: part.start,
        end: part.end,
        label_location,
    })
}

// Whether a function is one's own.
pub(crate) fn is_own(own: Option<usize>, function: usize) -> bool
    ensures { result ≡ is_number own function }
{
    match own {
        Some(own) => own == function,
        None => false,
    }
}
