//! Scopes over which it is known at once that no one expression holds for each byte.
ghost use Rattle.std.specs.Prelude.{◌≡◌, ◌∷◌, ◌<◌, [], ℕ, List, Option, false, is_some, length, map, nat_lt, option_map, slice_index_or, true, Bool};
ghost use Rattle.std.specs.FinMap as finite;
ghost use Rattle.std.specs.List.{list_all, list_any};
ghost use Rattle.std.specs.Str.{bytes_eq};
ghost use Rattle.dwc_native.specs.BuiltExpressions.{built_over, built_on_ranges, has_bad_range};
ghost use Rattle.dwc_native.specs.Compiled.{LabelRange};
ghost use Rattle.dwc_native.specs.Functions.{Function};
ghost use Rattle.dwc_native.specs.LabelRanges.{bytes_of};
ghost use Rattle.dwc_native.specs.Parts.{CompiledParts};
ghost use Rattle.dwc_native.specs.Placed.{Frame, built_parts, last_place, scope_ranges};
ghost use Rattle.dwc_isa.specs.FlatRanges.{Flattens, IsFlat};
ghost use Rattle.dwc_isa.specs.LabelRegisters.{HaveSame, register_numbers, registers_of};
ghost use Rattle.dwc_isa.specs.ValueLabels.{place_view, range_view};
ghost use Rattle.dwc_isa.specs.declared.value_label.ValueLocRange.{ValueLocRange};
ghost use Rattle.dwc_expr.specs.Alone.{framed, lone_location, lone_part, parts_in};
ghost use Rattle.dwc_expr.specs.Builds.{surroundings};
ghost use Rattle.dwc_expr.specs.CodeRanges.{code_range_view};
ghost use Rattle.dwc_expr.specs.NarrowedRanges.{Tells};
ghost use Rattle.dwc_expr.specs.PartsToBuild.{all_parts};
ghost use Rattle.dwc_expr.specs.PlacedParts.{EndBy};
ghost use Rattle.dwc_expr.specs.Varying.{DifferOn, Varies, is_one, place_expression};

use crate::build::alone::{LoneLocal, expression_at, one_range, part_in};
use crate::build::built::single_code;
use crate::build::labels::lone_local;
use crate::build::parts_to_build::PartsToBuild;
use crate::ranges::code_range::CodeRange;
use crate::ranges::cuts::is_own;
use crate::ranges::passed::first_behind;
use crate::ranges::told::{own_function, told_ranges};
use crate::{CompiledExpression, FunctionFrameInfo};
use dwc_addr::AddressTransform;
use dwc_isa::{LabelValueLoc, Reg, TargetIsa, ToldRanges, ValueLocRange};
use std::alloc::Global;

impl CompiledExpression {
    /// Whether it is known at once that over a scope nothing of what the expression becomes is refused, and that no one expression holds
    /// for each byte of the native code. It is looked for where the expression is a local alone whose label has many ranges, and the
    /// native code is one range. False where it would take longer to know.
    pub fn varies_over(
        &self,
        alloc: Global,
        scope: &[(u64, u64)],
        addr_tr: &AddressTransform<'_>,
        frame_info: Option<&FunctionFrameInfo<'_>>,
        isa: &dyn TargetIsa,
    ) -> bool
        ensures { result ≡ true → Varies (built_over (surroundings addr_tr.now (option_map (λ f. f.now) frame_info.entry) (dwarf_registers isa.now)) scope.now self.now) }
    {
        if scope.is_empty() {
            return false;
        }
        let parts = self.parts.as_slice();
        match single_code(parts) {
            Some(_) => false,
            None => {
                let parts = PartsToBuild {
                    parts,
                    then_dereference: self.need_deref,
                };
                parts_vary(alloc, &parts, scope, addr_tr, frame_info, isa)
            }
        }
    }
}

// The same of parts that are not operations alone.
fn parts_vary(
    alloc: Global,
    parts: &PartsToBuild<'_>,
    scope: &[(u64, u64)],
    addr_tr: &AddressTransform<'_>,
    frame_info: Option<&FunctionFrameInfo<'_>>,
    isa: &dyn TargetIsa,
) -> bool
    ensures { result ≡ true → (x : CompiledParts) → built_parts x ≡ all_parts parts.now → Varies (built_on_ranges (surroundings addr_tr.now (option_map (λ f. f.now) frame_info.entry) (dwarf_registers isa.now)) (scope_ranges addr_tr.now scope.now) x) }
{
    match lone_local(parts) {
        Some(local) => match one_range(scope, addr_tr) {
            Some(range) => local_varies(alloc, local, range, frame_info, isa),
            None => false,
        },
        None => false,
    }
}

// The same of a local alone over one range of native code.
fn local_varies(
    alloc: Global,
    local: LoneLocal,
    range: CodeRange,
    frame_info: Option<&FunctionFrameInfo<'_>>,
    isa: &dyn TargetIsa,
) -> bool
    requires some { range.start < range.end }
    ensures { result ≡ true → (functions : List Function) (x : CompiledParts) → built_parts x ≡ lone_part local ∷ [] → Varies (built_on_ranges (surroundings functions (option_map (λ f. f.now) frame_info.entry) (dwarf_registers isa.now)) (code_range_view range ∷ []) x) }
{
    let own = own_function(frame_info);
    match told_ranges(frame_info, local.label) {
        Some(told) => varies_as_told(alloc, local, own, told, range, isa),
        None => false,
    }
}

// The same by the ranges that are told of the label, in one's own function.
fn varies_as_told(
    alloc: Global,
    local: LoneLocal,
    own: Option<usize>,
    told: &ToldRanges,
    range: CodeRange,
    isa: &dyn TargetIsa,
) -> bool
    requires some { range.start < range.end }
    ensures { result ≡ true → (functions : List Function) (frame : Option Frame) (x : CompiledParts) → ((ps : List LabelRange) → Flattens told.now ps → Tells frame local.label.0 own ps) → (list_any (λ r. nat_lt r.end r.start) told.now ≡ false → has_bad_range frame local.label.0 ≡ false) → built_parts x ≡ lone_part local ∷ [] → Varies (built_on_ranges (framed functions frame (dwarf_registers isa.now)) (code_range_view range ∷ []) x) }
{
    match told.flat() {
        Some(pieces) => match told.registers() {
            Some(registers) => varies_by(alloc, local, own, pieces, registers, range, isa),
            None => false,
        },
        None => false,
    }
}

// The same by flat pieces, which tell the places of the label, and by the registers among these. Where the range has bytes in fewer pieces
// than there are registers, no answer is looked for.
fn varies_by(
    alloc: Global,
    local: LoneLocal,
    own: Option<usize>,
    pieces: &[ValueLocRange],
    registers: &[Reg],
    range: CodeRange,
    isa: &dyn TargetIsa,
) -> bool
    requires flat { IsFlat (map range_view pieces.now) }
    requires some { range.start < range.end }
    ensures { result ≡ true → (told : List LabelRange) (functions : List Function) (frame : Option Frame) (x : CompiledParts) → ((byte : ℕ) → last_place (map range_view pieces.now) byte ≡ last_place told byte) → HaveSame (register_numbers registers.now) (registers_of told) → Tells frame local.label.0 own (map range_view pieces.now) → has_bad_range frame local.label.0 ≡ false → built_parts x ≡ lone_part local ∷ [] → Varies (built_on_ranges (framed functions frame (dwarf_registers isa.now)) (code_range_view range ∷ []) x) }
{
    if !is_own(own, range.function) {
        return false;
    }
    let first = first_behind(pieces, range.start);
    let behind = first_behind(pieces, range.end);
    if behind.saturating_sub(first) < registers.len() {
        return false;
    }
    if !varies_in(alloc, local.trailing, pieces, first, range, isa) {
        return false;
    }
    are_numbered(registers, isa)
}

// Whether the target has a number for each of some registers.
fn are_numbered(registers: &[Reg], isa: &dyn TargetIsa) -> bool
    ensures { result ≡ list_all (λ n. is_some (finite.get (dwarf_registers isa.now) n)) (register_numbers registers.now) }
{
    for register in registers {
        if isa.map_regalloc_reg_to_dwarf(*register).is_none() {
            return false;
        }
    }
    true
}

// Whether no one expression of a local holds for each byte of a range, by the first two pieces that reach behind its begin.
fn varies_in(
    alloc: Global,
    trailing: bool,
    pieces: &[ValueLocRange],
    first: usize,
    range: CodeRange,
    isa: &dyn TargetIsa,
) -> bool
    requires flat { IsFlat (map range_view pieces.now) }
    requires some { range.start < range.end }
    requires passed { EndBy range.start first (map range_view pieces.now) }
    ensures { result ≡ true → is_one (list_all (λ byte. is_some (last_place (map range_view pieces.now) byte)) (bytes_of (code_range_view range))) (map (lone_location trailing (dwarf_registers isa.now)) (parts_in range pieces.now)) ≡ false }
{
    if has_gap(pieces, first, range) {
        return true;
    }
    has_two(alloc, trailing, pieces, first, range, isa)
}

// Whether a range has a byte in no piece, at its begin or where the first piece ends that reaches behind it.
fn has_gap(pieces: &[ValueLocRange], first: usize, range: CodeRange) -> bool
    requires flat { IsFlat (map range_view pieces.now) }
    requires some { range.start < range.end }
    requires passed { EndBy range.start first (map range_view pieces.now) }
    ensures { result ≡ true → false ≡ list_all (λ byte. is_some (last_place (map range_view pieces.now) byte)) (bytes_of (code_range_view range)) }
{
    if begins_behind(pieces, first, range.start) {
        return true;
    }
    if first >= pieces.len() {
        return false;
    }
    let reached = range.start.max(pieces[first].end as usize);
    if reached >= range.end {
        return false;
    }
    begins_behind(pieces, first + 1, reached)
}

// Whether a piece begins behind a byte, if there is one at that place.
fn begins_behind(pieces: &[ValueLocRange], place: usize, byte: usize) -> bool
    ensures { result ≡ true → (d : ValueLocRange) → place < length pieces.now → byte < (slice_index_or pieces.now place d).start }
{
    if place >= pieces.len() {
        return true;
    }
    byte < pieces[place].start as usize
}

// Whether the expressions of a local differ on the bytes that a range has in a piece and in the next one.
fn has_two(
    alloc: Global,
    trailing: bool,
    pieces: &[ValueLocRange],
    first: usize,
    range: CodeRange,
    isa: &dyn TargetIsa,
) -> bool
    ensures { result ≡ true → (covers : Bool) → is_one covers (map (lone_location trailing (dwarf_registers isa.now)) (parts_in range pieces.now)) ≡ false }
{
    if first >= pieces.len() {
        return false;
    }
    let next = first + 1;
    if next >= pieces.len() {
        return false;
    }
    differ_on(alloc, trailing, range, &pieces[first], &pieces[next], isa)
}

// Whether the expressions of a local differ on the bytes that a range has in two pieces.
fn differ_on(
    alloc: Global,
    trailing: bool,
    range: CodeRange,
    piece: &ValueLocRange,
    next: &ValueLocRange,
    isa: &dyn TargetIsa,
) -> bool
    ensures { result ≡ true → DifferOn trailing (dwarf_registers isa.now) (code_range_view range) (range_view piece.now) (range_view next.now) }
{
    match part_in(range, piece) {
        Some(_) => match part_in(range, next) {
            Some(_) => differ(alloc, trailing, piece.loc, next.loc, isa),
            None => false,
        },
        None => false,
    }
}

// Whether the expressions of a local at two places differ. False for want of memory.
fn differ(
    alloc: Global,
    trailing: bool,
    one: LabelValueLoc,
    other: LabelValueLoc,
    isa: &dyn TargetIsa,
) -> bool
    ensures { result ≡ true → bytes_eq (place_expression trailing (dwarf_registers isa.now) (place_view one)) (place_expression trailing (dwarf_registers isa.now) (place_view other)) ≡ false }
{
    match expression_at(alloc, trailing, one, isa) {
        Ok(one) => match expression_at(alloc, trailing, other, isa) {
            Ok(other) => one.as_slice() != other.as_slice(),
            Err(_) => false,
        },
        Err(_) => false,
    }
}
