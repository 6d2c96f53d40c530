//! What expressions become over an interval, put behind other locations.
ghost use Rattle.std.specs.Prelude.{◌≡◌, ◌∷◌, ◌<◌, ◌^◌, [], List, Option, map, nat_lt, option_map, false, IfErr, Ok, OnOk};
ghost use Rattle.std.specs.List.{list_any};
ghost use Rattle.dwc_native.specs.BuiltExpressions.{built_on_ranges, built_over, has_bad_range};
ghost use Rattle.dwc_native.specs.Functions.{Function};
ghost use Rattle.dwc_native.specs.Parts.{compiled, holds_jump, label_alone};
ghost use Rattle.dwc_native.specs.Placed.{Frame};
ghost use Rattle.dwc_isa.specs.FlatRanges.{Flattens, IsFlat};
ghost use Rattle.dwc_isa.specs.Registers.{Registers};
ghost use Rattle.dwc_isa.specs.ValueLabels.{range_view};
ghost use Rattle.dwc_expr.specs.declared.error.ExprError.TheVariants.{OutOfMemory};
ghost use Rattle.dwc_expr.specs.Alone.{framed};
ghost use Rattle.dwc_expr.specs.Builds.{surroundings};
ghost use Rattle.dwc_expr.specs.CodeRanges.{code_range_view};
ghost use Rattle.dwc_expr.specs.Frames.{told_frame};
ghost use Rattle.dwc_expr.specs.OverIntervals.{IsFront, Puts, PutsBuilt, constant};
ghost use Rattle.dwc_expr.specs.NarrowedRanges.{Tells};
ghost use Rattle.dwc_expr.specs.OwnPlaces.{own_ranges};

use crate::build::alone::{LoneLocal, count_in, one_range, put_expressions};
use crate::build::copies::push_copies;
use crate::compile::holds_jump;
use crate::compile::short::{is_bit, is_on_stack, short_local};
use crate::ranges::code_range::CodeRange;
use crate::ranges::cuts::is_own;
use crate::ranges::passed::first_behind;
use crate::ranges::told::{flat_ranges, own_function};
use crate::{CompiledExpression, ExprError, FunctionFrameInfo, compile_expression};
use dwc_addr::AddressTransform;
use dwc_base::{Address, Encoding};
use dwc_isa::{TargetIsa, ValueLabel, ValueLocRange};
use dwc_unit::Expression;
use std::alloc::{AllocError, Global};

/// Puts what an expression of the input becomes over an interval of wasm offsets behind other locations, and answers whether it is
/// supported: `compile_expression` and `build_with_locals` in one, without what stands between them. Of one that is not supported
/// nothing is put.
///
/// # Errors
/// Those of `compile_expression`, and then those of `build_with_locals`. The locations that stood there stay in front then, as always;
/// some of what the expression becomes may stand behind them.
#[tactic(auto, using(crate::proofs::FrontLaws::front_same, crate::proofs::FrontLaws::front_more, crate::proofs::FrontLaws::front_behind))]
pub fn put_locations(
    alloc: Global,
    locations: &mut Vec<(Address, u64, Expression)>,
    bytes: &[u8],
    encoding: Encoding,
    frame_base: Option<&CompiledExpression>,
    interval: (u64, u64),
    addr_tr: &AddressTransform<'_>,
    frame_info: Option<&FunctionFrameInfo<'_>>,
    isa: &dyn TargetIsa,
) -> Result<bool, ExprError>
    ensures puts { Puts (surroundings addr_tr.now (option_map (λ f. f.now) frame_info.entry) (dwarf_registers isa.now)) (interval ∷ []) locations.old.items locations.new.items (compiled (option_map (λ x. x.now) frame_base.entry) bytes.now) result }
    ensures front { IsFront locations.old.items locations.new.items }
{
    if is_on_stack(bytes) {
        return Ok(false);
    }
    if holds_jump(frame_base) {
        return Ok(false);
    }
    match short_local(bytes) {
        Some(label) => {
            put_label(alloc, locations, label, interval, addr_tr, frame_info, isa)?;
            Ok(true)
        }
        None => put_other(
            alloc, locations, bytes, encoding, frame_base, interval, addr_tr, frame_info, isa,
        ),
    }
}

// The same of an expression that is no local of a short index, on a frame base without jumps.
#[tactic(auto, using(crate::proofs::FrontLaws::front_same, crate::proofs::FrontLaws::front_more, crate::proofs::FrontLaws::front_behind))]
fn put_other(
    alloc: Global,
    locations: &mut Vec<(Address, u64, Expression)>,
    bytes: &[u8],
    encoding: Encoding,
    frame_base: Option<&CompiledExpression>,
    interval: (u64, u64),
    addr_tr: &AddressTransform<'_>,
    frame_info: Option<&FunctionFrameInfo<'_>>,
    isa: &dyn TargetIsa,
) -> Result<bool, ExprError>
    requires free { holds_jump (option_map (λ x. x.now) frame_base) ≡ false }
    ensures puts { Puts (surroundings addr_tr.now (option_map (λ f. f.now) frame_info.entry) (dwarf_registers isa.now)) (interval ∷ []) locations.old.items locations.new.items (compiled (option_map (λ x. x.now) frame_base.entry) bytes.now) result }
    ensures front { IsFront locations.old.items locations.new.items }
{
    if is_bit(bytes) {
        put_constant(alloc, locations, bytes, interval, addr_tr)?;
        return Ok(true);
    }
    put_operations(
        alloc, locations, bytes, encoding, frame_base, interval, addr_tr, frame_info, isa,
    )
}

// Puts a constant over an interval.
#[tactic(auto, using(crate::proofs::FrontLaws::front_same, crate::proofs::FrontLaws::front_more, crate::proofs::FrontLaws::front_behind))]
fn put_constant(
    alloc: Global,
    locations: &mut Vec<(Address, u64, Expression)>,
    bytes: &[u8],
    interval: (u64, u64),
    addr_tr: &AddressTransform<'_>,
) -> Result<(), ExprError>
    ensures ok { OnOk result ((frame : Option Frame) (registers : Registers) → PutsBuilt (built_over (framed addr_tr.now frame registers) (interval ∷ []) (constant bytes.now)) locations.old.items locations.new.items (Ok tt)) }
    ensures memory { IfErr result (λ e. e ≡ OutOfMemory) }
    ensures front { IsFront locations.old.items locations.new.items }
{
    make_room(locations, 1)?;
    push_copies(alloc, locations, addr_tr, interval.0, interval.1, bytes)?;
    Ok(())
}

// The same of an expression of any form.
#[tactic(auto, using(crate::proofs::FrontLaws::front_same, crate::proofs::FrontLaws::front_more, crate::proofs::FrontLaws::front_behind))]
fn put_operations(
    alloc: Global,
    locations: &mut Vec<(Address, u64, Expression)>,
    bytes: &[u8],
    encoding: Encoding,
    frame_base: Option<&CompiledExpression>,
    interval: (u64, u64),
    addr_tr: &AddressTransform<'_>,
    frame_info: Option<&FunctionFrameInfo<'_>>,
    isa: &dyn TargetIsa,
) -> Result<bool, ExprError>
    ensures puts { Puts (surroundings addr_tr.now (option_map (λ f. f.now) frame_info.entry) (dwarf_registers isa.now)) (interval ∷ []) locations.old.items locations.new.items (compiled (option_map (λ x. x.now) frame_base.entry) bytes.now) result }
    ensures front { IsFront locations.old.items locations.new.items }
{
    match compile_expression(alloc, bytes, encoding, frame_base)? {
        Some(parts) => {
            put_built(alloc, locations, &parts, interval, addr_tr, frame_info, isa)?;
            Ok(true)
        }
        None => Ok(false),
    }
}

// Puts what a compiled expression becomes over an interval.
#[tactic(auto, using(crate::proofs::FrontLaws::front_same, crate::proofs::FrontLaws::front_more, crate::proofs::FrontLaws::front_behind))]
fn put_built(
    alloc: Global,
    locations: &mut Vec<(Address, u64, Expression)>,
    parts: &CompiledExpression,
    interval: (u64, u64),
    addr_tr: &AddressTransform<'_>,
    frame_info: Option<&FunctionFrameInfo<'_>>,
    isa: &dyn TargetIsa,
) -> Result<(), ExprError>
    ensures puts { PutsBuilt (built_over (surroundings addr_tr.now (option_map (λ f. f.now) frame_info.entry) (dwarf_registers isa.now)) (interval ∷ []) parts.now) locations.old.items locations.new.items result }
    ensures front { IsFront locations.old.items locations.new.items }
{
    let scope = [interval];
    let mut built = parts.build_with_locals(alloc, &scope, addr_tr, frame_info, isa)?;
    make_room(locations, built.expressions.len())?;
    locations.append(&mut built.expressions)?;
    Ok(())
}

// Puts what the place of a label becomes over an interval.
#[tactic(auto, using(crate::proofs::FrontLaws::front_same, crate::proofs::FrontLaws::front_more, crate::proofs::FrontLaws::front_behind))]
fn put_label(
    alloc: Global,
    locations: &mut Vec<(Address, u64, Expression)>,
    label: ValueLabel,
    interval: (u64, u64),
    addr_tr: &AddressTransform<'_>,
    frame_info: Option<&FunctionFrameInfo<'_>>,
    isa: &dyn TargetIsa,
) -> Result<(), ExprError>
    ensures puts { PutsBuilt (built_over (surroundings addr_tr.now (option_map (λ f. f.now) frame_info.entry) (dwarf_registers isa.now)) (interval ∷ []) (label_alone «label».0)) locations.old.items locations.new.items result }
    ensures front { IsFront locations.old.items locations.new.items }
{
    match flat_ranges(frame_info, label) {
        Ok(pieces) => put_by_pieces(
            alloc, locations, label, pieces, interval, addr_tr, frame_info, isa,
        ),
        Err(_) => {
            let parts = CompiledExpression::alone(alloc, label)?;
            put_built(alloc, locations, &parts, interval, addr_tr, frame_info, isa)
        }
    }
}

// The same by flat ranges, which tell the places of the label. Where there are none, the native code of the interval is not looked for.
#[tactic(auto, using(crate::proofs::FrontLaws::front_same, crate::proofs::FrontLaws::front_more, crate::proofs::FrontLaws::front_behind))]
fn put_by_pieces(
    alloc: Global,
    locations: &mut Vec<(Address, u64, Expression)>,
    label: ValueLabel,
    pieces: &[ValueLocRange],
    interval: (u64, u64),
    addr_tr: &AddressTransform<'_>,
    frame_info: Option<&FunctionFrameInfo<'_>>,
    isa: &dyn TargetIsa,
) -> Result<(), ExprError>
    requires flat { Flattens (own_ranges (option_map (λ f. told_frame f.now) frame_info) «label».0) (map range_view pieces.now) }
    requires good { list_any (λ r. nat_lt r.end r.start) (own_ranges (option_map (λ f. told_frame f.now) frame_info) «label».0) ≡ false }
    ensures puts { PutsBuilt (built_over (surroundings addr_tr.now (option_map (λ f. f.now) frame_info.entry) (dwarf_registers isa.now)) (interval ∷ []) (label_alone «label».0)) locations.old.items locations.new.items result }
    ensures front { IsFront locations.old.items locations.new.items }
{
    if pieces.is_empty() {
        return Ok(());
    }
    let scope = [interval];
    match one_range(&scope, addr_tr) {
        Some(range) => {
            let own = own_function(frame_info);
            put_on_range(alloc, locations, own, label, pieces, range, isa)
        }
        None => {
            let parts = CompiledExpression::alone(alloc, label)?;
            put_built(alloc, locations, &parts, interval, addr_tr, frame_info, isa)
        }
    }
}

// The same over one range of native code.
#[tactic(auto, using(crate::proofs::FrontLaws::front_same, crate::proofs::FrontLaws::front_more, crate::proofs::FrontLaws::front_behind))]
fn put_on_range(
    alloc: Global,
    locations: &mut Vec<(Address, u64, Expression)>,
    own: Option<usize>,
    label: ValueLabel,
    pieces: &[ValueLocRange],
    range: CodeRange,
    isa: &dyn TargetIsa,
) -> Result<(), ExprError>
    requires flat { IsFlat (map range_view pieces.now) }
    requires some { range.start < range.end }
    requires low { range.end < 2 ^ 32 }
    ensures puts { (functions : List Function) (frame : Option Frame) → Tells frame «label».0 own (map range_view pieces.now) → has_bad_range frame «label».0 ≡ false → PutsBuilt (built_on_ranges (framed functions frame (dwarf_registers isa.now)) (code_range_view range ∷ []) (label_alone «label».0)) locations.old.items locations.new.items result }
    ensures front { IsFront locations.old.items locations.new.items }
{
    if !is_own(own, range.function) {
        return Ok(());
    }
    let local = LoneLocal {
        label,
        trailing: true,
    };
    let first = first_behind(pieces, range.start);
    make_room(locations, count_in(pieces, first, range))?;
    put_expressions(alloc, locations, local, pieces, first, range, isa)
}

// Makes room for so many locations more: no more than these where there are none, as most lists have few.
fn make_room(
    locations: &mut Vec<(Address, u64, Expression)>,
    count: usize,
) -> Result<(), AllocError>
    ensures { locations.new.items ≡ locations.old.items }
{
    if locations.is_empty() {
        locations.reserve_exact(count)
    } else {
        locations.reserve(count)
    }
}
