//! Makes the parts of an expression whose operations are supported.
ghost use Rattle.std.specs.Prelude.{◌≡◌, ◌++◌, ◌∷◌, [], OnOk, IfOk, map, option_map};
ghost use Rattle.dwc_base.specs.NumberBytes.{uleb_bytes};
ghost use Rattle.dwc_base.specs.declared.constants.TheConstants.{DW_OP_plus_uconst};
ghost use Rattle.dwc_native.specs.Parts.{as_value, base_values, code, joined, old_format, parts_of};
ghost use Rattle.dwc_expr.specs.PartViews.{part_view};
ghost use Rattle.dwc_expr.specs.Landings.{marked_pad, parts_behind_marks};

use crate::compile::action::Action;
use crate::compile::joined_parts::JoinedParts;
use crate::compile::landings::is_marked;
use crate::compile::step::Step;
use crate::{CompiledExpression, CompiledExpressionPart};
use dwc_base::constants::{DW_OP_const1u, DW_OP_plus_uconst, DW_OP_shl, DW_OP_swap};
use dwc_section::put_uleb;
use std::alloc::{AllocError, Global};

// Where the upper half of 64 bits begins.
const UPPER_HALF: u8 = 32;

// Before a shift to the right the value, of 32 bits, is moved to the upper half, and the count raised as much.
const MOVED_UP: [u8; 7] = [
    DW_OP_plus_uconst,
    UPPER_HALF,
    DW_OP_swap,
    DW_OP_const1u,
    UPPER_HALF,
    DW_OP_shl,
    DW_OP_swap,
];

// Puts a part of a frame base, whose value is wanted: no label is trailing.
fn push_value(parts: &mut JoinedParts, part: &CompiledExpressionPart) -> Result<(), AllocError>
    ensures { OnOk result (joined parts.new ≡ joined (parts.old ++ as_value (part_view part.now) ∷ [])) }
{
    match part {
        CompiledExpressionPart::Code(bytes) => parts.push_code(bytes),
        CompiledExpressionPart::Local { label, .. } => {
            parts.push(CompiledExpressionPart::Local {
                label: *label,
                trailing: false,
            })
        }
        CompiledExpressionPart::Deref => parts.push(CompiledExpressionPart::Deref),
        CompiledExpressionPart::Jump {
            conditionally,
            target,
        } => parts.push(CompiledExpressionPart::Jump {
            conditionally: *conditionally,
            target: *target,
        }),
        CompiledExpressionPart::LandingPad(place) => {
            parts.push(CompiledExpressionPart::LandingPad(*place))
        }
    }
}

// Puts parts of a frame base.
fn push_values(parts: &mut JoinedParts, values: &[CompiledExpressionPart]) -> Result<(), AllocError>
    ensures { OnOk result (joined parts.new ≡ joined (parts.old ++ map as_value (map part_view values.now))) }
{
    for part in values {
        push_value(parts, part)?;
    }
    Ok(())
}

// Puts the value of the frame base, if there is one.
fn push_base(
    parts: &mut JoinedParts,
    frame_base: Option<&CompiledExpression>,
) -> Result<(), AllocError>
    ensures { OnOk result (joined parts.new ≡ joined (parts.old ++ base_values (option_map (λ x. x.now) frame_base.entry))) }
{
    match frame_base {
        Some(base) => push_values(parts, base.parts()),
        None => Ok(()),
    }
}

// Puts an offset from the frame base.
fn push_offset(
    alloc: Global,
    parts: &mut JoinedParts,
    frame_base: Option<&CompiledExpression>,
    offset: u64,
) -> Result<(), AllocError>
    ensures { OnOk result (joined parts.new ≡ joined (parts.old ++ (base_values (option_map (λ x. x.now) frame_base.entry) ++ code (DW_OP_plus_uconst ∷ uleb_bytes offset) ∷ []))) }
{
    push_base(parts, frame_base)?;
    let mut sum = Vec::new(alloc);
    sum.push(DW_OP_plus_uconst)?;
    put_uleb(&mut sum, offset)?;
    parts.push_code(&sum)
}

// Puts the parts of an operation.
fn push_step(
    alloc: Global,
    parts: &mut JoinedParts,
    frame_base: Option<&CompiledExpression>,
    step: &Step<'_>,
) -> Result<(), AllocError>
    ensures { OnOk result (joined parts.new ≡ joined (parts.old ++ parts_of (option_map (λ x. x.now) frame_base.entry) step.now)) }
{
    match step.action() {
        Action::LoadLocal(label) => parts.push(CompiledExpressionPart::Local {
            label,
            trailing: false,
        }),
        Action::AddToFrameBase => push_offset(alloc, parts, frame_base, step.first()),
        Action::Jump {
            conditionally,
            target,
        } => parts.push(CompiledExpressionPart::Jump {
            conditionally,
            target: target as u64,
        }),
        Action::ReadMemory => {
            parts.push(CompiledExpressionPart::Deref)?;
            parts.push_code(step.bytes())
        }
        Action::ShiftRight => {
            parts.push_code(&MOVED_UP)?;
            parts.push_code(step.bytes())
        }
        Action::Stay => parts.push_code(step.bytes()),
    }
}

// Puts a landing pad for a place that is marked.
fn push_pad(parts: &mut JoinedParts, landings: &[bool], place: usize) -> Result<(), AllocError>
    ensures { OnOk result (joined parts.new ≡ joined (parts.old ++ marked_pad landings.now place)) }
{
    if is_marked(landings, place) {
        parts.push(CompiledExpressionPart::LandingPad(place as u64))
    } else {
        Ok(())
    }
}

// Puts the parts of operations, each behind its landing pad.
fn push_steps(
    alloc: Global,
    parts: &mut JoinedParts,
    frame_base: Option<&CompiledExpression>,
    landings: &[bool],
    steps: &[Step<'_>],
) -> Result<(), AllocError>
    ensures { OnOk result (joined parts.new ≡ joined (parts.old ++ parts_behind_marks (option_map (λ x. x.now) frame_base.entry) landings.now steps.now)) }
{
    for step in steps {
        push_pad(parts, landings, step.place())?;
        push_step(alloc, parts, frame_base, step)?;
    }
    Ok(())
}

// Puts the frame base, if there is one, in front of an expression in the old format, which begins with `plus_uconst`.
fn push_old_format(
    parts: &mut JoinedParts,
    frame_base: Option<&CompiledExpression>,
    steps: &[Step<'_>],
) -> Result<(), AllocError>
    ensures { OnOk result (joined parts.new ≡ joined (parts.old ++ old_format (option_map (λ x. x.now) frame_base.entry) steps.now)) }
{
    match steps {
        [first, ..] => {
            if first.opcode() == DW_OP_plus_uconst {
                push_base(parts, frame_base)
            } else {
                Ok(())
            }
        }
        [] => Ok(()),
    }
}

// The parts of an expression of a length, whose jumps arrive at the marked places.
pub(crate) fn parts_of_steps(
    alloc: Global,
    frame_base: Option<&CompiledExpression>,
    landings: &[bool],
    steps: &[Step<'_>],
    size: usize,
) -> Result<Vec<CompiledExpressionPart>, AllocError>
    ensures { IfOk result (λ parts. map part_view parts.items ≡ joined (old_format (option_map (λ x. x.now) frame_base.entry) steps.now ++ (parts_behind_marks (option_map (λ x. x.now) frame_base.entry) landings.now steps.now ++ marked_pad landings.now size))) }
{
    let mut parts = JoinedParts::new(alloc);
    push_old_format(&mut parts, frame_base, steps)?;
    push_steps(alloc, &mut parts, frame_base, landings, steps)?;
    push_pad(&mut parts, landings, size)?;
    Ok(parts.into_parts())
}
