//! Ranges in which a value lies, made disjoint and put in order.
ghost use Rattle.std.specs.Prelude.{◌≡◌, ◌≤◌, ◌-◌, ◌^◌, ◌++◌, ℕ, [], length, map, IfOk, OnOk, MatchOption};
ghost use Rattle.dwc_native.specs.Placed.{last_place};
ghost use Rattle.dwc_isa.specs.FlatRanges.{IsFlat, Flattens, Puts, part_between as part_of, PutsBetween, IsRest};
ghost use Rattle.dwc_isa.specs.ValueLabels.{range_view};

use crate::ValueLocRange;
use crate::told_ranges::goes_on_last;
use std::alloc::{AllocError, Global};

/// Ranges as disjoint ones in order, none of them empty, that are as long as they can be. Where some overlap, the place of the last
/// one counts.
pub(crate) fn flattened(
    alloc: Global,
    ranges: &[ValueLocRange],
) -> Result<Vec<ValueLocRange>, AllocError>
    ensures flat { IfOk result (λ flat. IsFlat (map range_view flat.items)) }
    ensures same { IfOk result (λ flat. (byte : ℕ) → last_place (map range_view flat.items) byte ≡ last_place (map range_view ranges.now) byte) }
{
    if let Some(flat) = collected(alloc, ranges)? {
        return Ok(flat);
    }
    let (earlier, later) = ranges.split_at(ranges.len() / 2);
    let below = flattened(alloc, earlier)?;
    let above = flattened(alloc, later)?;
    overlaid(alloc, &below, &above)
}

// The same in one pass; None where a range begins below an end of one in front.
fn collected(
    alloc: Global,
    ranges: &[ValueLocRange],
) -> Result<Option<Vec<ValueLocRange>>, AllocError>
    ensures { IfOk result (λ flat. MatchOption flat (2 ≤ length ranges.now) (λ v. Flattens (map range_view ranges.now) (map range_view v.items))) }
{
    let mut out = Vec::new(alloc);
    let mut end = 0;
    for range in ranges {
        if range.start < end {
            return Ok(None);
        }
        put(&mut out, *range)?;
        end = end.max(range.end);
    }
    Ok(Some(out))
}

// Disjoint ranges in order laid over others: at each byte the place of those above, where they have one, and else of those below.
fn overlaid(
    alloc: Global,
    below: &[ValueLocRange],
    above: &[ValueLocRange],
) -> Result<Vec<ValueLocRange>, AllocError>
    requires below { IsFlat (map range_view below.now) }
    requires above { IsFlat (map range_view above.now) }
    ensures { IfOk result (λ out. Flattens (map range_view below.now ++ map range_view above.now) (map range_view out.items)) }
{
    let mut out = Vec::new(alloc);
    let mut rest = below;
    let mut at = 0;
    for range in above {
        let ValueLocRange { start, end, .. } = *range;
        rest = put_between(&mut out, rest, at, start)?;
        put(&mut out, *range)?;
        at = end;
    }
    put_between(&mut out, rest, at, u32::MAX)?;
    Ok(out)
}

// Puts what disjoint ranges in order answer from a byte up to another behind others. Answers those that may reach further.
fn put_between<'a>(
    out: &mut Vec<ValueLocRange>,
    ranges: &'a [ValueLocRange],
    from: u32,
    to: u32,
) -> Result<&'a [ValueLocRange], AllocError>
    requires flat { IsFlat (map range_view ranges.now) }
    requires ends { from ≤ to }
    ensures put { OnOk result (PutsBetween from to (map range_view ranges.now) (map range_view out.old.items) (map range_view out.new.items)) }
    ensures rest { IfOk result (λ rest. IsRest to (map range_view ranges.now) (map range_view rest.now)) }
    ensures all { IfOk result (λ rest. to ≡ 2 ^ 32 - 1 → rest.now ≡ []) }
{
    let mut at = from;
    for (i, range) in ranges.iter().enumerate() {
        let ValueLocRange { start, end, .. } = *range;
        if start >= to {
            return Ok(&ranges[i..]);
        }
        put(out, part_between(range, at, to))?;
        if end > to {
            return Ok(&ranges[i..]);
        }
        at = at.max(end);
    }
    Ok(&ranges[ranges.len()..])
}

// The part of a range from a byte up to another.
fn part_between(range: &ValueLocRange, from: u32, to: u32) -> ValueLocRange
    ensures { range_view result ≡ part_of from to (range_view range.now) }
{
    ValueLocRange {
        loc: range.loc,
        start: range.start.max(from),
        end: range.end.min(to),
    }
}

// Puts a range behind others. An empty one is left out, and one that goes on where the last one ends lengthens that one.
fn put(out: &mut Vec<ValueLocRange>, range: ValueLocRange) -> Result<(), AllocError>
    ensures { OnOk result (Puts (range_view range) (map range_view out.old.items) (map range_view out.new.items)) }
{
    if range.end <= range.start {
        return Ok(());
    }
    if goes_on_last(out, &range) {
        let last = out.len() - 1;
        out[last].end = range.end;
        return Ok(());
    }
    out.push(range)?;
    Ok(())
}
