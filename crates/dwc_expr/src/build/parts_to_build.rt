//! The parts of an expression as they are built.
ghost use Rattle.std.specs.Prelude.{◌≡◌, map};
ghost use Rattle.std.specs.List.{list_any};
ghost use Rattle.dwc_native.specs.Parts.{is_jump};
ghost use Rattle.dwc_native.specs.Placed.{is_dereference};
ghost use Rattle.dwc_expr.specs.PartViews.{part_view};
ghost use Rattle.dwc_expr.specs.PartsToBuild.{all_parts};

use crate::CompiledExpressionPart;

// The parts that are built: those of an expression, behind which its result may be made an address of the native code.
#[derive(Clone, Copy)]
pub(crate) struct PartsToBuild<'a> {
    pub(crate) parts: &'a [CompiledExpressionPart],
    pub(crate) then_dereference: bool,
}

// Whether some part reads linear memory, or makes an address of it.
pub(crate) fn reads_memory(parts: &PartsToBuild<'_>) -> bool
    ensures { result ≡ list_any is_dereference (all_parts parts.now) }
{
    has_dereference(parts.parts) || parts.then_dereference
}

fn has_dereference(parts: &[CompiledExpressionPart]) -> bool
    ensures { result ≡ list_any is_dereference (map part_view parts.now) }
{
    for part in parts {
        if let CompiledExpressionPart::Deref = part {
            return true;
        }
    }
    false
}

// Whether some part is a jump.
pub(crate) fn has_jump(parts: &[CompiledExpressionPart]) -> bool
    ensures { result ≡ list_any is_jump (map part_view parts.now) }
{
    for part in parts {
        if let CompiledExpressionPart::Jump { .. } = part {
            return true;
        }
    }
    false
}
