//! Marks numbers of entries, and keeps those whose entries are still to be looked at on a stack.
ghost use Rattle.std.specs.Prelude.{◌≡◌, ◌<◌, ◌≤◌, ◌^◌, length, drop, suc, replicate, false, [], OnOk, IfOk, filter_map};
ghost use Rattle.dwc_kept.specs.EntryGraphs.{AreLeastMarks};
ghost use Rattle.dwc_kept.specs.GraphEntries.{mark as mark_one, mark_all, number_at, parts_below, kept_numbers, numbers_from, targets_of, targets_start, AreRising, AreFirsts, AreLinked, HaveTargets, AreEntries, nodes_seen};

use crate::blocks::{firsts_of_blocks, number_of};
use crate::graph_entry::GraphEntry;
use std::alloc::{AllocError, Global};

// Marks a number, if it is not marked yet.
fn mark(marks: &mut [bool], stack: &mut Vec<u32>, number: u32) -> Result<(), AllocError>
    requires { number < length marks.old }
    ensures { OnOk result (record { marks = marks.new; stack = stack.new.items } ≡ mark_one number (record { marks = marks.old; stack = stack.old.items })) }
{
    let place = number as usize;
    if !marks[place] {
        stack.push(number)?;
        marks[place] = true;
    }
    Ok(())
}

// Marks the entries at some offsets.
fn mark_targets(
    entries: &[GraphEntry],
    firsts: &[u32],
    targets: &[u32],
    marks: &mut [bool],
    stack: &mut Vec<u32>,
) -> Result<(), AllocError>
    requires rising { AreRising entries.now }
    requires firsts { AreFirsts entries.now firsts.now }
    requires counted { length marks.old ≡ length entries.now }
    ensures { OnOk result (record { marks = marks.new; stack = stack.new.items } ≡ mark_all (filter_map (number_at entries.now) targets.now) (record { marks = marks.old; stack = stack.old.items })) }
{
    for target in targets {
        if let Some(number) = number_of(entries, firsts, *target) {
            mark(marks, stack, number)?;
        }
    }
    Ok(())
}

// Marks the parts of an entry.
fn mark_parts(
    entries: &[GraphEntry],
    number: u32,
    marks: &mut [bool],
    stack: &mut Vec<u32>,
) -> Result<(), AllocError>
    requires linked { AreLinked entries.now }
    requires counted { length marks.old ≡ length entries.now }
    requires inside { number < length entries.now }
    ensures { OnOk result (record { marks = marks.new; stack = stack.new.items } ≡ mark_all (parts_below entries.now number (length entries.now)) (record { marks = marks.old; stack = stack.old.items })) }
{
    let mut part = entries[number as usize].last_part;
    while part != number {
        mark(marks, stack, part)?;
        part = entries[part as usize].previous_part;
    }
    Ok(())
}

// Where the targets of an entry end, of so many targets.
fn targets_end(entries: &[GraphEntry], number: usize, size: usize) -> usize
    requires { number < length entries.now }
    ensures { result ≡ targets_start (drop (suc number) entries.now) size }
{
    match entries.get(number + 1) {
        Some(next) => next.first_target as usize,
        None => size,
    }
}

// The targets of an entry.
fn targets_at<'t>(entries: &[GraphEntry], targets: &'t [u32], number: usize) -> &'t [u32]
    requires inside { number < length entries.now }
    requires has { HaveTargets entries.now (length targets.now) }
    ensures { result.now ≡ targets_of entries.now targets.now number }
{
    let start = entries[number].first_target as usize;
    let end = targets_end(entries, number, targets.len());
    &targets[start..end]
}

// Marks what an entry keeps.
fn mark_kept(
    entries: &[GraphEntry],
    firsts: &[u32],
    targets: &[u32],
    number: u32,
    marks: &mut [bool],
    stack: &mut Vec<u32>,
) -> Result<(), AllocError>
    requires entries { AreEntries entries.now (length targets.now) }
    requires firsts { AreFirsts entries.now firsts.now }
    requires counted { length marks.old ≡ length entries.now }
    requires inside { number < length entries.now }
    ensures { OnOk result (record { marks = marks.new; stack = stack.new.items } ≡ mark_all (kept_numbers entries.now targets.now number) (record { marks = marks.old; stack = stack.old.items })) }
{
    mark(marks, stack, entries[number as usize].parent)?;
    let named = targets_at(entries, targets, number as usize);
    mark_targets(entries, firsts, named, marks, stack)?;
    mark_parts(entries, number, marks, stack)?;
    Ok(())
}

// Marks the required entries.
fn mark_required(
    required: &[bool],
    marks: &mut [bool],
    stack: &mut Vec<u32>,
) -> Result<(), AllocError>
    requires few { length required.now ≤ 2 ^ 32 }
    requires counted { length marks.old ≡ length required.now }
    ensures { OnOk result (record { marks = marks.new; stack = stack.new.items } ≡ mark_all (numbers_from 0 required.now) (record { marks = marks.old; stack = stack.old.items })) }
{
    for i in 0..required.len() {
        if required[i] {
            mark(marks, stack, i as u32)?;
        }
    }
    Ok(())
}

// Marks the least set of entries that holds the required ones and what its entries keep.
fn mark_least(
    entries: &[GraphEntry],
    firsts: &[u32],
    targets: &[u32],
    required: &[bool],
    marks: &mut [bool],
    stack: &mut Vec<u32>,
) -> Result<(), AllocError>
    requires entries { AreEntries entries.now (length targets.now) }
    requires firsts { AreFirsts entries.now firsts.now }
    requires each { length required.now ≡ length entries.now }
    requires unmarked { marks.old ≡ replicate (length entries.now) false }
    requires empty { stack.old.items ≡ [] }
    ensures { OnOk result (AreLeastMarks (nodes_seen 0 entries.now targets.now) required.now marks.new) }
{
    mark_required(required, marks, stack)?;
    while let Some(number) = stack.pop() {
        mark_kept(entries, firsts, targets, number, marks, stack)?;
    }
    Ok(())
}

/// The marks of the least set of entries that holds the required ones and what its entries keep. Each entry and each target is looked
/// at once.
///
/// # Errors
/// `AllocError` for want of memory.
pub(crate) fn least_marks(
    alloc: Global,
    entries: &[GraphEntry],
    targets: &[u32],
    required: &[bool],
) -> Result<Vec<bool>, AllocError>
    requires entries { AreEntries entries.now (length targets.now) }
    requires each { length required.now ≡ length entries.now }
    ensures { IfOk result (λ marks. AreLeastMarks (nodes_seen 0 entries.now targets.now) required.now marks.items) }
{
    let firsts = firsts_of_blocks(alloc, entries)?;
    let mut marks = vec![in alloc; false; entries.len()]?;
    let mut stack = Vec::new(alloc);
    mark_least(entries, &firsts, targets, required, &mut marks, &mut stack)?;
    Ok(marks)
}
