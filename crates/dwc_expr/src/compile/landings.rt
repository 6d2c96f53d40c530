//! Where the jumps of an expression arrive, as marks by place.
ghost use Rattle.std.specs.Prelude.{◌≡◌, ◌+◌, ◌<◌, ◌≤◌, ◌^◌, All, replicate, IfOk, is_some, length, map, slice_index_or, false};
ghost use Rattle.std.specs.List.{list_all, list_any};
ghost use Rattle.dwc_native.specs.Parts.{has_whole_jumps, jump_target, targets};
ghost use Rattle.dwc_expr.specs.Landings.{GivesLandings, marked_too, with_mark};

use crate::compile::step::Step;
use std::alloc::{AllocError, Global};

// Whether an operation jumps.
fn has_jump(steps: &[Step<'_>]) -> bool
    ensures { result ≡ list_any (λ o. is_some (jump_target o)) steps.now }
{
    for step in steps {
        if step.target().is_some() {
            return true;
        }
    }
    false
}

// Marks a place, if there is a mark for it.
fn mark(marks: &mut [bool], place: usize)
    ensures { marks.new ≡ with_mark place marks.old }
{
    if place < marks.len() {
        marks[place] = true;
    }
}

// Marks where the operations of an expression of a length begin, and its end.
fn mark_starts(steps: &[Step<'_>], size: usize, marks: &mut [bool])
    ensures { marks.new ≡ with_mark size (marked_too (map (λ o. o.place) steps.now) marks.old) }
{
    for step in steps {
        mark(marks, step.place());
    }
    mark(marks, size);
}

// The places where the operations of an expression of a length begin, and its end, as marks.
fn marked_starts(alloc: Global, steps: &[Step<'_>], size: usize) -> Result<Vec<bool>, AllocError>
    requires { size < 2 ^ 63 }
    ensures { IfOk result (λ marks. marks.items ≡ with_mark size (marked_too (map (λ o. o.place) steps.now) (replicate (size + 1) false))) }
{
    let mut marks = vec![in alloc; false; size + 1]?;
    mark_starts(steps, size, &mut marks);
    Ok(marks)
}

// Marks where operations jump to.
fn mark_targets(steps: &[Step<'_>], marks: &mut [bool])
    ensures { marks.new ≡ marked_too (targets steps.now) marks.old }
{
    for step in steps {
        if let Some(target) = step.target() {
            mark(marks, target);
        }
    }
}

// The places that the operations of an expression of a length jump to, as marks.
fn marked_targets(alloc: Global, steps: &[Step<'_>], size: usize) -> Result<Vec<bool>, AllocError>
    requires { size < 2 ^ 63 }
    ensures { IfOk result (λ marks. marks.items ≡ marked_too (targets steps.now) (replicate (size + 1) false)) }
{
    let mut marks = vec![in alloc; false; size + 1]?;
    mark_targets(steps, &mut marks);
    Ok(marks)
}

// Whether a place is marked.
pub(crate) fn is_marked(marks: &[bool], place: usize) -> bool
    ensures { result ≡ slice_index_or marks.now place false }
{
    match marks.get(place) {
        Some(mark) => *mark,
        None => false,
    }
}

// Whether each operation that jumps goes to a marked place.
fn arrive_at_marks(steps: &[Step<'_>], marks: &[bool]) -> bool
    ensures { result ≡ list_all (λ place. slice_index_or marks.now place false) (targets steps.now) }
{
    for step in steps {
        if let Some(target) = step.target() {
            if !is_marked(marks, target) {
                return false;
            }
        }
    }
    true
}

// Whether each operation of an expression of a length jumps to where an operation begins, or to the end.
fn has_whole_jumps(alloc: Global, steps: &[Step<'_>], size: usize) -> Result<bool, AllocError>
    requires size { size < 2 ^ 63 }
    requires inside { All (λ place. place ≤ size) (targets steps.now) }
    ensures { IfOk result (λ whole. whole ≡ has_whole_jumps size steps.now) }
{
    let starts = marked_starts(alloc, steps, size)?;
    Ok(arrive_at_marks(steps, &starts))
}

// The places that the operations of an expression of a length jump to, as marks; None where one is neither an operation's place nor the
// end. An expression without jumps has no marks.
pub(crate) fn landings(
    alloc: Global,
    steps: &[Step<'_>],
    size: usize,
) -> Result<Option<Vec<bool>>, AllocError>
    requires size { size < 2 ^ 63 }
    requires inside { All (λ place. place ≤ size) (targets steps.now) }
    ensures { IfOk result (GivesLandings size steps.now) }
{
    if !has_jump(steps) {
        return Ok(Some(Vec::new(alloc)));
    }
    if !has_whole_jumps(alloc, steps, size)? {
        return Ok(None);
    }
    Ok(Some(marked_targets(alloc, steps, size)?))
}
