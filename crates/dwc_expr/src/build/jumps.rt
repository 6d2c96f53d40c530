//! Jumps from part to part.
ghost use Rattle.std.specs.Prelude.{◌≡◌, ◌<◌, ◌^◌, ◌-ℤ◌, IfSome, IsSome, pos};
ghost use Rattle.dwc_expr.specs.Jumps.{distance_by, fitting, pad_in, GivesDistance};
ghost use Rattle.dwc_expr.specs.PartViews.{part_view};
ghost use Rattle.dwc_expr.specs.WholeParts.{jump_place};

use crate::build::pads::Pads;
use crate::{CompiledExpressionPart, ExprError};

// How many bytes a jump has.
const JUMP_LENGTH: usize = 3;

// The greatest distance backward that 16 bits with a sign say.
const MOST_BACK: usize = 0x8000;

// How far a part at an offset of the bytes jumps from behind it to a landing pad that is known, 0 where it is no jump.
pub(crate) fn jump_distance(
    part: &CompiledExpressionPart,
    offset: usize,
    pads: &Pads,
) -> Result<i16, ExprError>
    requires offset { offset < 2 ^ 63 }
    requires pad { IfSome (jump_place (part_view part.now)) (λ place. IsSome (pad_in pads.now place)) }
    ensures { GivesDistance (distance_by pads.now offset (part_view part.now)) result }
{
    match part {
        CompiledExpressionPart::Jump { target, .. } => {
            distance(offset + JUMP_LENGTH, pads.offset_of(*target)).ok_or(ExprError::TooLarge)
        }
        CompiledExpressionPart::Code(_)
        | CompiledExpressionPart::Local { .. }
        | CompiledExpressionPart::Deref
        | CompiledExpressionPart::LandingPad(_) => Ok(0),
    }
}

// How far it is from one offset to another, if 16 bits with a sign say it.
fn distance(from: usize, to: usize) -> Option<i16>
    ensures { result ≡ fitting (pos to -ℤ pos from) }
{
    if from <= to {
        return i16::try_from(to - from).ok();
    }
    let back = from - to;
    if back > MOST_BACK {
        return None;
    }
    Some(-(back as i32) as i16)
}
