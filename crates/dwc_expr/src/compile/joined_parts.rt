//! Parts one behind another, with neighbouring bytes joined.
ghost use Rattle.std.specs.Prelude.{◌≡◌, ◌++◌, ◌∷◌, [], OnOk, OnErr, map, true, false};
ghost use Rattle.dwc_native.specs.Parts.{code, joined};
ghost use Rattle.dwc_expr.specs.PartViews.{part_view};
ghost use Rattle.dwc_expr.specs.JoinedParts.{is_code, ends_in_code, beside, behind};

use crate::CompiledExpressionPart;
use std::alloc::{AllocError, Global};
use std::marker::Model;

// Whether a part is bytes.
fn is_code(part: &CompiledExpressionPart) -> bool
    ensures { result ≡ is_code (part_view part.now) }
{
    match part {
        CompiledExpressionPart::Code(_) => true,
        CompiledExpressionPart::Local { .. } => false,
        CompiledExpressionPart::Deref => false,
        CompiledExpressionPart::Jump { .. } => false,
        CompiledExpressionPart::LandingPad(_) => false,
    }
}

// Whether the last of some parts is bytes.
fn ends_in_code(parts: &[CompiledExpressionPart]) -> bool
    ensures { result ≡ ends_in_code (map part_view parts.now) }
{
    match parts.last() {
        Some(part) => is_code(part),
        None => false,
    }
}

// Puts bytes behind those of a part.
fn extend_code(part: &mut CompiledExpressionPart, bytes: &[u8]) -> Result<(), AllocError>
    requires { is_code (part_view part.old) ≡ true }
    ensures ok { OnOk result (beside (part_view part.old) (code bytes.now) ≡ part_view part.new ∷ []) }
    ensures err { OnErr result (part_view part.new ≡ part_view part.old) }
{
    match part {
        CompiledExpressionPart::Code(code) => code.extend_from_slice(bytes),
        _ => Ok(()),
    }
}

// Room is made at first for so many bytes, no less than which a piece of memory has.
const USUAL_CODE: usize = 24;

// Puts bytes behind some parts.
fn push_code(
    alloc: Global,
    parts: &mut Vec<CompiledExpressionPart>,
    bytes: &[u8],
) -> Result<(), AllocError>
    ensures ok { OnOk result (map part_view parts.new.items ≡ behind (map part_view parts.old.items) (code bytes.now)) }
    ensures err { OnErr result (map part_view parts.new.items ≡ map part_view parts.old.items) }
{
    if ends_in_code(parts) {
        let last = parts.len() - 1;
        return extend_code(&mut parts[last], bytes);
    }
    let mut copy = Vec::with_capacity(alloc, bytes.len().max(USUAL_CODE))?;
    copy.extend_from_slice(bytes)?;
    parts.push(CompiledExpressionPart::Code(copy))?;
    Ok(())
}

// Parts one behind another. Bytes are joined with those that stand in front of them.
#[derive(Drop)]
pub(crate) struct JoinedParts {
    alloc: Global,
    parts: Vec<CompiledExpressionPart>,
}

impl Model for JoinedParts {
    ghost use Rattle.std.specs.Prelude.{◌≡◌, List, map};
    ghost use Rattle.dwc_native.specs.Parts.{Part, joined};
    ghost use Rattle.dwc_expr.specs.PartViews.{part_view};

    ghost Value = { List Part };

    ghost view = { λ x. map part_view x.parts.items };

    ghost invariant = { λ x. joined (map part_view x.parts.items) ≡ map part_view x.parts.items };
}

impl JoinedParts {
    // No parts.
    pub(crate) fn new(alloc: Global) -> JoinedParts
        ensures { result ≡ [] }
    {
        JoinedParts {
            alloc,
            parts: Vec::new(alloc),
        }
    }

    // Puts bytes behind the parts.
    pub(crate) fn push_code(&mut self, bytes: &[u8]) -> Result<(), AllocError>
        ensures { OnOk result (joined self.new ≡ joined (self.old ++ code bytes.now ∷ [])) }
    {
        push_code(self.alloc, &mut self.parts, bytes)
    }

    // Puts a part that is no bytes behind the parts.
    pub(crate) fn push(&mut self, part: CompiledExpressionPart) -> Result<(), AllocError>
        requires { is_code (part_view part) ≡ false }
        ensures { OnOk result (joined self.new ≡ joined (self.old ++ part_view part ∷ [])) }
    {
        self.parts.push(part)?;
        Ok(())
    }

    // The parts.
    pub(crate) fn into_parts(self) -> Vec<CompiledExpressionPart>
        ensures { map part_view result.items ≡ joined self }
    {
        self.parts
    }
}
