//! The kept entries, step by step.
ghost use Rattle.std.specs.Prelude.{◌≡◌, ◌==◌, suc, map, option_map, IfOk};
ghost use Rattle.dwc_rules.specs.Kept.{is_among, parent_of, is_parent, keeps, kept_step};
ghost use Rattle.dwc_plain.specs.PlainEntries.{function_view, entry_view, kept_by, kept_entries, required_entries};

use crate::entries::{PlainEntry, PlainFunction, is_part_of, is_required, refers_to};
use std::alloc::{AllocError, Global};

/// The kept entries of a module, in order: the required ones, and what they keep, and what that keeps, in as many steps as
/// there are entries. An entry keeps its parent, what it refers to, and those of its children that are parts of it. It
/// fails only for want of memory.
#[tactic(auto, unfolding(dwc_rules::specs::KeptEntries::kept_with))]
pub fn kept_entries<'d>(
    alloc: Global,
    functions: &[PlainFunction],
    entries: &[PlainEntry<'d>],
) -> Result<Vec<PlainEntry<'d>>, AllocError>
    ensures { IfOk result (λ kept. map entry_view kept.items ≡ kept_entries (map function_view functions.now) (map entry_view entries.now)) }
{
    let mut kept = required_entries(alloc, functions, entries)?;
    for _ in 0..entries.len() {
        kept = kept_step(alloc, entries, &kept)?;
    }
    Ok(kept)
}

// The required entries.
fn required_entries<'d>(
    alloc: Global,
    functions: &[PlainFunction],
    entries: &[PlainEntry<'d>],
) -> Result<Vec<PlainEntry<'d>>, AllocError>
    ensures { IfOk result (λ found. map entry_view found.items ≡ required_entries (map function_view functions.now) (map entry_view entries.now)) }
{
    let mut found = Vec::new(alloc);
    for entry in entries {
        if is_required(functions, entry) {
            found.push(*entry)?;
        }
    }
    Ok(found)
}

// The entries of a set, and those that they keep.
fn kept_step<'d>(
    alloc: Global,
    entries: &[PlainEntry<'d>],
    kept: &[PlainEntry<'d>],
) -> Result<Vec<PlainEntry<'d>>, AllocError>
    ensures { IfOk result (λ found. map entry_view found.items ≡ kept_step (map entry_view entries.now) (map entry_view kept.now)) }
{
    let mut found = Vec::new(alloc);
    for entry in entries {
        if is_among(kept, entry) || is_kept_by(entries, kept, entry) {
            found.push(*entry)?;
        }
    }
    Ok(found)
}

// Whether an entry is among some.
fn is_among(entries: &[PlainEntry], entry: &PlainEntry) -> bool
    ensures { result ≡ is_among (map entry_view entries.now) (entry_view entry.now) }
{
    for other in entries {
        if entry.offset == other.offset {
            return true;
        }
    }
    false
}

// Whether an entry is kept by one of some.
fn is_kept_by(entries: &[PlainEntry], kept: &[PlainEntry], entry: &PlainEntry) -> bool
    ensures { result ≡ kept_by (map entry_view entries.now) (map entry_view kept.now) (entry_view entry.now) }
{
    for keeper in kept {
        if keeps(entries, keeper, entry) {
            return true;
        }
    }
    false
}

// Whether one entry keeps another.
fn keeps(entries: &[PlainEntry], keeper: &PlainEntry, entry: &PlainEntry) -> bool
    ensures { result ≡ keeps (map entry_view entries.now) (entry_view keeper.now) (entry_view entry.now) }
{
    is_parent(entries, keeper, entry)
        || refers_to(keeper, entry)
        || (is_parent(entries, entry, keeper) && is_part_of(keeper, entry))
}

// Whether the parent of an entry is another one.
fn is_parent(entries: &[PlainEntry], entry: &PlainEntry, other: &PlainEntry) -> bool
    ensures { result ≡ is_parent (map entry_view entries.now) (entry_view entry.now) (entry_view other.now) }
{
    match parent_of(entries, entry) {
        Some(parent) => other.offset == parent.offset,
        None => false,
    }
}

// The parent of an entry: the last earlier one of depth one less.
fn parent_of<'d>(entries: &[PlainEntry<'d>], entry: &PlainEntry) -> Option<PlainEntry<'d>>
    ensures { option_map entry_view result ≡ parent_of (map entry_view entries.now) (entry_view entry.now) }
{
    let mut found = None;
    for other in entries {
        if entry.offset == other.offset {
            return found;
        }
        if is_one_above(other.depth, entry.depth) {
            found = Some(*other);
        }
    }
    found
}

// Whether a depth is one less than another.
fn is_one_above(depth: u64, other: u64) -> bool
    ensures { result ≡ (suc depth == other) }
{
    depth < other && other - depth == 1
}
