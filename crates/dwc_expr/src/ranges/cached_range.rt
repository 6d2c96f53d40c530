//! A range of native code on which values lie at unchanged places.
ghost use Rattle.std.specs.Prelude.{◌≡◌, All, IfOk, [], map};
ghost use Rattle.dwc_expr.specs.CodeRanges.{code_range_view};
ghost use Rattle.dwc_expr.specs.LabelRanges.{bounds_of};

use crate::ranges::code_range::CodeRange;
use dwc_isa::LabelValueLoc;
use std::alloc::{AllocError, Global};
use std::collections::BTreeMap;

/// A range of native code on which each label that was processed has one unchanged place.
#[derive(Drop)]
pub struct CachedValueLabelRange {
    /// The function's number among those of all modules.
    pub func_index: usize,
    /// The offset of the first byte in the function's code.
    pub start: usize,
    /// The offset of the first byte behind it.
    pub end: usize,
    /// Where the value of each label lies, by the label's number.
    pub label_location: BTreeMap<u32, LabelValueLoc>,
}

impl CachedValueLabelRange {
    // The range without its places.
    pub(crate) fn bounds(&self) -> CodeRange
        ensures { code_range_view result ≡ bounds_of self.now }
    {
        CodeRange {
            function: self.func_index,
            start: self.start,
            end: self.end,
        }
    }
}

// Ranges without their places.
pub(crate) fn bounds_of_each(
    alloc: Global,
    ranges: &[CachedValueLabelRange],
) -> Result<Vec<CodeRange>, AllocError>
    ensures { IfOk result (λ out. map code_range_view out.items ≡ map bounds_of ranges.now) }
{
    let mut out = Vec::with_capacity(alloc, ranges.len())?;
    for i in 0..ranges.len() {
        out.push(ranges[i].bounds())?;
    }
    Ok(out)
}

// Ranges as they are before any label has a place.
pub(crate) fn without_places(
    alloc: Global,
    ranges: &[CodeRange],
) -> Result<Vec<CachedValueLabelRange>, AllocError>
    ensures bounds { IfOk result (λ out. map bounds_of out.items ≡ map code_range_view ranges.now) }
    ensures places { IfOk result (λ out. All (λ r. r.label_location.entries ≡ []) out.items) }
{
    let mut out = Vec::with_capacity(alloc, ranges.len())?;
    for range in ranges {
        out.push(CachedValueLabelRange {
            func_index: range.function,
            start: range.start,
            end: range.end,
            label_location: BTreeMap::new(alloc),
        })?;
    }
    Ok(out)
}
