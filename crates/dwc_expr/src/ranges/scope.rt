//! The native code of a scope, joined where it overlaps or touches.
ghost use Rattle.std.specs.Prelude.{◌≡◌, ◌<◌, ◌^◌, [], None, All, AllPairs, map, IfOk, OnOk, true};
ghost use Rattle.dwc_native.specs.LabelRanges.{label_ranges};
ghost use Rattle.dwc_expr.specs.CodeRanges.{code_range_view};
ghost use Rattle.dwc_expr.specs.LabelRanges.{bounds_of};
ghost use Rattle.dwc_expr.specs.JoinedScopes.{IsInOrder, IsApart, AreApart, AreJoined, Adds, begins_in as range_begins_in, begins_in_last as range_begins_in_last};

use crate::ranges::cached_range::{CachedValueLabelRange, bounds_of_each, without_places};
use crate::ranges::code_range::CodeRange;
use std::alloc::{AllocError, Global};

/// The native ranges of a scope in order of functions and native code, joined where they overlap or touch, before any label has a
/// place. Ranges that are so already are neither sorted nor joined.
pub(crate) fn joined_without_places(
    alloc: Global,
    scope: Vec<CachedValueLabelRange>,
) -> Result<Vec<CachedValueLabelRange>, AllocError>
    requires nonempty { All (λ r. r.start < r.end) scope.items }
    requires places { All (λ r. r.label_location.entries ≡ []) scope.items }
    ensures joined { IfOk result (λ ranges. map bounds_of ranges.items ≡ label_ranges None [] (map bounds_of scope.items)) }
    ensures places { IfOk result (λ ranges. All (λ r. r.label_location.entries ≡ []) ranges.items) }
    ensures low { All (λ r. r.end < 2 ^ 32) scope.items → IfOk result (λ ranges. All (λ r. r.end < 2 ^ 32) ranges.items) }
{
    if are_apart(&scope) {
        return Ok(scope);
    }
    let code = bounds_of_each(alloc, &scope)?;
    let joined = joined_scope(alloc, &code)?;
    without_places(alloc, &joined)
}

// Whether each range begins behind the end of the one in front of it, or is of a later function.
fn are_apart(ranges: &[CachedValueLabelRange]) -> bool
    requires { All (λ r. r.start < r.end) ranges.now }
    ensures { result ≡ true → AreApart (map bounds_of ranges.now) }
{
    for i in 1..ranges.len() {
        if !is_apart(ranges[i - 1].bounds(), ranges[i].bounds()) {
            return false;
        }
    }
    true
}

// Whether a range begins behind the end of another, or is of a later function.
fn is_apart(range: CodeRange, next: CodeRange) -> bool
    ensures { result ≡ true → IsApart (code_range_view range) (code_range_view next) }
{
    range.function < next.function || (range.function == next.function && range.end < next.start)
}

// The native ranges of a scope in order of functions and native code, joined where they overlap or touch.
fn joined_scope(alloc: Global, scope: &[CodeRange]) -> Result<Vec<CodeRange>, AllocError>
    requires { All (λ r. r.start < r.end) scope.now }
    ensures joined { IfOk result (λ ranges. map code_range_view ranges.items ≡ label_ranges None [] (map code_range_view scope.now)) }
    ensures low { All (λ r. r.end < 2 ^ 32) scope.now → IfOk result (λ ranges. All (λ r. r.end < 2 ^ 32) ranges.items) }
{
    let mut sorted = Vec::from_slice(alloc, scope)?;
    sorted.sort_unstable_by_key(|range| (range.function, range.start));
    joined(alloc, &sorted)
}

// Ranges in order, joined where they overlap or touch.
fn joined(alloc: Global, ranges: &[CodeRange]) -> Result<Vec<CodeRange>, AllocError>
    requires nonempty { All (λ r. r.start < r.end) ranges.now }
    requires order { AllPairs IsInOrder (map code_range_view ranges.now) }
    ensures { IfOk result (λ joined. AreJoined (map code_range_view ranges.now) (map code_range_view joined.items)) }
{
    let mut out = Vec::new(alloc);
    for range in ranges {
        add(&mut out, *range)?;
    }
    Ok(out)
}

// Adds a range to joined ones that begin at or in front of its begin: to the last one where it begins in it or at its end.
fn add(out: &mut Vec<CodeRange>, range: CodeRange) -> Result<(), AllocError>
    ensures { OnOk result (Adds (code_range_view range) (map code_range_view out.old.items) (map code_range_view out.new.items)) }
{
    if begins_in_last(out, &range) {
        let place = out.len() - 1;
        let last = &mut out[place];
        last.end = last.end.max(range.end);
        return Ok(());
    }
    out.push(range)?;
    Ok(())
}

// Whether a range begins in the last of some or at its end.
fn begins_in_last(ranges: &[CodeRange], next: &CodeRange) -> bool
    ensures { result ≡ range_begins_in_last (map code_range_view ranges.now) (code_range_view next.now) }
{
    match ranges.split_last() {
        Some((last, _)) => begins_in(last, next),
        None => false,
    }
}

// Whether a range begins in another or at its end.
fn begins_in(range: &CodeRange, next: &CodeRange) -> bool
    ensures { result ≡ range_begins_in (code_range_view range.now) (code_range_view next.now) }
{
    range.function == next.function && next.start <= range.end
}
