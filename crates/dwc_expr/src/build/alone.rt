//! What one local alone becomes over a scope whose native code is one range.
ghost use Rattle.std.specs.Prelude.{◌≡◌, ◌∷◌, ◌++◌, ◌<◌, ◌^◌, [], List, Option, map, option_map, option_to_list, IfOk, IfSome, if◌then◌else◌, false, Some};
ghost use Rattle.dwc_native.specs.Built.{location_bytes, value_bytes};
ghost use Rattle.dwc_native.specs.BuiltExpressions.{built_on_ranges, has_bad_range};
ghost use Rattle.dwc_native.specs.Functions.{Function};
ghost use Rattle.dwc_native.specs.Parts.{CompiledParts};
ghost use Rattle.dwc_native.specs.Placed.{Frame, built_parts, ranges_in_function, scope_ranges};
ghost use Rattle.dwc_native.specs.Runs.{native_in_function};
ghost use Rattle.dwc_addr.specs.Translations.{with_length};
ghost use Rattle.dwc_isa.specs.ValueLabels.{place_view, range_view};
ghost use Rattle.dwc_expr.specs.Alone.{PutsAlone, framed, lone_part, part_at, parts_in};
ghost use Rattle.dwc_expr.specs.Builds.{Builds, surroundings};
ghost use Rattle.dwc_expr.specs.CodeRanges.{code_range_view};
ghost use Rattle.dwc_isa.specs.FlatRanges.{IsFlat};
ghost use Rattle.dwc_expr.specs.NarrowedRanges.{Tells};
ghost use Rattle.dwc_expr.specs.OverIntervals.{IsFront};
ghost use Rattle.dwc_expr.specs.PlacedParts.{cut_by, EndBy};
ghost use Rattle.dwc_expr.specs.RangeSettings.{with_registers};

use crate::build::bytes::put_local;
use crate::build::places::check_place;
use crate::ranges::code_range::CodeRange;
use crate::ranges::cuts::is_own;
use crate::ranges::filled::last_in;
use crate::ranges::passed::first_behind;
use crate::ranges::told::{flat_ranges, own_function};
use crate::{BuiltCompiledExpression, ExprError, FunctionFrameInfo};
use dwc_addr::AddressTransform;
use dwc_base::Address;
use dwc_isa::{LabelValueLoc, TargetIsa, ValueLabel, ValueLocRange};
use dwc_unit::Expression;
use std::alloc::{AllocError, Global};

// One local alone; where it is trailing, the place of the value itself.
#[derive(Clone, Copy)]
pub(crate) struct LoneLocal {
    pub(crate) label: ValueLabel,
    pub(crate) trailing: bool,
}

// The native code of a scope, where it is one range of one interval.
pub(crate) fn one_range(scope: &[(u64, u64)], addr_tr: &AddressTransform<'_>) -> Option<CodeRange>
    ensures range { IfSome result (λ r. scope_ranges addr_tr.now scope.now ≡ code_range_view r ∷ []) }
    ensures some { IfSome result (λ r. r.start < r.end) }
    ensures low { IfSome result (λ r. r.end < 2 ^ 32) }
{
    match scope {
        [(start, end)] => one_native(addr_tr, *start, *end),
        _ => None,
    }
}

// The native code of an interval, where it is one range.
fn one_native(addr_tr: &AddressTransform<'_>, start: u64, end: u64) -> Option<CodeRange>
    ensures range { IfSome result (λ r. ranges_in_function (native_in_function addr_tr.now start end) ≡ code_range_view r ∷ []) }
    ensures some { IfSome result (λ r. r.start < r.end) }
    ensures low { IfSome result (λ r. r.end < 2 ^ 32) }
{
    let (function, mut found) = addr_tr.translate_ranges_raw(start, end)?;
    let (start, end) = found.next_range()?;
    match found.next_range() {
        Some(_) => None,
        None => Some(CodeRange {
            function,
            start,
            end,
        }),
    }
}

// What a local becomes over a scope whose native code is one range.
pub(crate) fn build_alone(
    alloc: Global,
    local: LoneLocal,
    range: CodeRange,
    frame_info: Option<&FunctionFrameInfo<'_>>,
    isa: &dyn TargetIsa,
) -> Result<BuiltCompiledExpression, ExprError>
    requires some { range.start < range.end }
    requires low { range.end < 2 ^ 32 }
    ensures { (functions : List Function) (x : CompiledParts) → built_parts x ≡ lone_part local ∷ [] → Builds (built_on_ranges (surroundings functions (option_map (λ f. f.now) frame_info.entry) (dwarf_registers isa.now)) (code_range_view range ∷ []) x) result }
{
    let own = own_function(frame_info);
    let pieces = flat_ranges(frame_info, local.label)?;
    build_by(alloc, local, own, pieces, range, isa)
}

// The same by flat pieces, which tell the places of the label in one's own function.
fn build_by(
    alloc: Global,
    local: LoneLocal,
    own: Option<usize>,
    pieces: &[ValueLocRange],
    range: CodeRange,
    isa: &dyn TargetIsa,
) -> Result<BuiltCompiledExpression, ExprError>
    requires flat { IsFlat (map range_view pieces.now) }
    requires some { range.start < range.end }
    requires low { range.end < 2 ^ 32 }
    ensures { (functions : List Function) (frame : Option Frame) (x : CompiledParts) → Tells frame local.label.0 own (map range_view pieces.now) → has_bad_range frame local.label.0 ≡ false → built_parts x ≡ lone_part local ∷ [] → Builds (built_on_ranges (framed functions frame (dwarf_registers isa.now)) (code_range_view range ∷ []) x) result }
{
    if !is_own(own, range.function) {
        return Ok(BuiltCompiledExpression {
            expressions: Vec::new(alloc),
            covers_entire_scope: false,
        });
    }
    let first = first_behind(pieces, range.start);
    let mut expressions = Vec::with_capacity(alloc, count_in(pieces, first, range))?;
    put_expressions(alloc, &mut expressions, local, pieces, first, range, isa)?;
    Ok(BuiltCompiledExpression {
        expressions,
        covers_entire_scope: last_in(range, pieces, first).is_some(),
    })
}

// In how many flat pieces, of those from one on, a range has bytes.
pub(crate) fn count_in(pieces: &[ValueLocRange], first: usize, range: CodeRange) -> usize {
    let mut count = 0;
    for place in first..pieces.len() {
        let piece = &pieces[place];
        if part_in(range, piece).is_some() {
            count += 1;
        }
        if piece.end as usize > range.end {
            return count;
        }
    }
    count
}

// Puts the expressions of a local on the bytes that a range has in flat pieces behind others. The pieces in front of the first end in
// front of the range.
#[tactic(auto, using(crate::proofs::FrontLaws::front_same, crate::proofs::FrontLaws::front_more, crate::proofs::FrontLaws::front_behind))]
pub(crate) fn put_expressions(
    alloc: Global,
    expressions: &mut Vec<(Address, u64, Expression)>,
    local: LoneLocal,
    pieces: &[ValueLocRange],
    first: usize,
    range: CodeRange,
    isa: &dyn TargetIsa,
) -> Result<(), ExprError>
    requires flat { IsFlat (map range_view pieces.now) }
    requires passed { EndBy range.start first (map range_view pieces.now) }
    requires low { range.end < 2 ^ 32 }
    ensures puts { PutsAlone local.trailing (dwarf_registers isa.now) (parts_in range pieces.now) expressions.old.items expressions.new.items result }
    ensures front { IsFront expressions.old.items expressions.new.items }
{
    for place in first..pieces.len() {
        let piece = &pieces[place];
        put_in(alloc, expressions, local, range, piece, isa)?;
        if piece.end as usize > range.end {
            return Ok(());
        }
    }
    Ok(())
}

// Puts the expression on the bytes that a range has in a piece, if there are any.
#[tactic(auto, using(crate::proofs::FrontLaws::front_same, crate::proofs::FrontLaws::front_more, crate::proofs::FrontLaws::front_behind))]
fn put_in(
    alloc: Global,
    expressions: &mut Vec<(Address, u64, Expression)>,
    local: LoneLocal,
    range: CodeRange,
    piece: &ValueLocRange,
    isa: &dyn TargetIsa,
) -> Result<(), ExprError>
    requires low { range.end < 2 ^ 32 }
    ensures puts { PutsAlone local.trailing (dwarf_registers isa.now) (option_to_list (cut_by 0 (code_range_view range) (range_view piece.now))) expressions.old.items expressions.new.items result }
    ensures front { IsFront expressions.old.items expressions.new.items }
{
    match part_in(range, piece) {
        Some(part) => push_on(alloc, expressions, local.trailing, part, piece.loc, isa),
        None => Ok(()),
    }
}

// The bytes that a range has in a piece, if there are any.
pub(crate) fn part_in(range: CodeRange, piece: &ValueLocRange) -> Option<CodeRange>
    ensures part { cut_by 0 (code_range_view range) (range_view piece.now) ≡ option_map (part_at piece.now.loc) result }
    ensures some { IfSome result (λ p. p.start < p.end) }
    ensures low { range.end < 2 ^ 32 → IfSome result (λ p. p.end < 2 ^ 32) }
{
    let start = range.start.max(piece.start as usize);
    let end = range.end.min(piece.end as usize);
    if start < end {
        Some(CodeRange {
            function: range.function,
            start,
            end,
        })
    } else {
        None
    }
}

// Puts the expression on a part of a range, by the place of the label there.
#[tactic(auto, using(crate::proofs::FrontLaws::front_same, crate::proofs::FrontLaws::front_more, crate::proofs::FrontLaws::front_behind))]
fn push_on(
    alloc: Global,
    expressions: &mut Vec<(Address, u64, Expression)>,
    trailing: bool,
    part: CodeRange,
    place: LabelValueLoc,
    isa: &dyn TargetIsa,
) -> Result<(), ExprError>
    requires some { part.start < part.end }
    requires low { part.end < 2 ^ 32 }
    ensures puts { PutsAlone trailing (dwarf_registers isa.now) (part_at place part ∷ []) expressions.old.items expressions.new.items result }
    ensures front { IsFront expressions.old.items expressions.new.items }
{
    check_place(place, isa)?;
    let expression = expression_at(alloc, trailing, place, isa)?;
    let (begin, length) = extent_of(part);
    expressions.push((begin, length, expression))?;
    Ok(())
}

// Where a part begins, and how many bytes it has.
fn extent_of(part: CodeRange) -> (Address, u64)
    requires some { part.start < part.end }
    requires low { part.end < 2 ^ 32 }
    ensures { result ≡ with_length part.function (part.start, part.end) }
{
    let begin = Address::Symbol {
        symbol: part.function,
        addend: part.start as i64,
    };
    (begin, (part.end - part.start) as u64)
}

// The expression of a local by its place.
pub(crate) fn expression_at(
    alloc: Global,
    trailing: bool,
    place: LabelValueLoc,
    isa: &dyn TargetIsa,
) -> Result<Expression, AllocError>
    ensures { IfOk result (λ e. e ≡ (if trailing then location_bytes (with_registers (dwarf_registers isa.now)) (Some (place_view place)) else value_bytes (with_registers (dwarf_registers isa.now)) (Some (place_view place)))) }
{
    let mut expression = Expression::new(alloc);
    put_local(&mut expression, place, trailing, isa)?;
    Ok(expression)
}
