//! The native ranges of the intervals of a scope.
ghost use Rattle.std.specs.Prelude.{◌≡◌, ◌++◌, ◌<◌, ◌^◌, [], All, IfOk, OnOk, map};
ghost use Rattle.dwc_native.specs.Runs.{native_in_function};
ghost use Rattle.dwc_native.specs.Placed.{ranges_in_function, scope_ranges};
ghost use Rattle.dwc_expr.specs.LabelRanges.{bounds_of};

use crate::CachedValueLabelRange;
use dwc_addr::AddressTransform;
use std::alloc::{AllocError, Global};
use std::collections::BTreeMap;

// The native ranges of each interval of a scope, in order, before any label has a place.
pub(crate) fn native_ranges(
    alloc: Global,
    scope: &[(u64, u64)],
    addr_tr: &AddressTransform<'_>,
) -> Result<Vec<CachedValueLabelRange>, AllocError>
    ensures ranges { IfOk result (λ ranges. map bounds_of ranges.items ≡ scope_ranges addr_tr.now scope.now) }
    ensures nonempty { IfOk result (λ ranges. All (λ r. r.start < r.end) ranges.items) }
    ensures low { IfOk result (λ ranges. All (λ r. r.end < 2 ^ 32) ranges.items) }
    ensures places { IfOk result (λ ranges. All (λ r. r.label_location.entries ≡ []) ranges.items) }
{
    let mut ranges = Vec::new(alloc);
    for (start, end) in scope {
        push_native(alloc, &mut ranges, addr_tr, *start, *end)?;
    }
    Ok(ranges)
}

// Puts the native ranges of an interval behind others.
fn push_native(
    alloc: Global,
    ranges: &mut Vec<CachedValueLabelRange>,
    addr_tr: &AddressTransform<'_>,
    start: u64,
    end: u64,
) -> Result<(), AllocError>
    ensures ranges { OnOk result (map bounds_of ranges.new.items ≡ map bounds_of ranges.old.items ++ ranges_in_function (native_in_function addr_tr.now start end)) }
    ensures nonempty { OnOk result (All (λ r. r.start < r.end) ranges.old.items → All (λ r. r.start < r.end) ranges.new.items) }
    ensures low { OnOk result (All (λ r. r.end < 2 ^ 32) ranges.old.items → All (λ r. r.end < 2 ^ 32) ranges.new.items) }
    ensures places { OnOk result (All (λ r. r.label_location.entries ≡ []) ranges.old.items → All (λ r. r.label_location.entries ≡ []) ranges.new.items) }
{
    let Some((function, mut found)) = addr_tr.translate_ranges_raw(start, end) else {
        return Ok(());
    };
    while let Some((start, end)) = found.next_range() {
        ranges.push(CachedValueLabelRange {
            func_index: function,
            start,
            end,
            label_location: BTreeMap::new(alloc),
        })?;
    }
    Ok(())
}
