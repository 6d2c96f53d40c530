//! The parts of a compiled expression.
ghost use Rattle.std.specs.Prelude.{◌≡◌, map};
ghost use Rattle.std.specs.List.{list_any};
ghost use Rattle.dwc_native.specs.Parts.{is_jump};
ghost use Rattle.dwc_expr.specs.PartViews.{part_view};

use dwc_isa::ValueLabel;

/// A part of a compiled expression.
#[derive(Drop)]
pub enum CompiledExpressionPart {
    /// Operations that stay as they are, as their bytes.
    Code(Vec<u8>),
    /// The value of a label; where it is trailing, the place of the value itself.
    Local { label: ValueLabel, trailing: bool },
    /// An address in linear memory is made one of the native code.
    Deref,
    /// A jump to where an operation began in the input, taken where a value is not 0 or always.
    Jump { conditionally: bool, target: u64 },
    /// Where jumps to an operation of the input arrive, by its place.
    LandingPad(u64),
}

// Whether a part is a jump.
fn is_jump(part: &CompiledExpressionPart) -> bool
    ensures { result ≡ is_jump (part_view part.now) }
{
    match part {
        CompiledExpressionPart::Code(_) => false,
        CompiledExpressionPart::Local { .. } => false,
        CompiledExpressionPart::Deref => false,
        CompiledExpressionPart::Jump { .. } => true,
        CompiledExpressionPart::LandingPad(_) => false,
    }
}

// Whether one of some parts is a jump.
pub(crate) fn any_is_jump(parts: &[CompiledExpressionPart]) -> bool
    ensures { result ≡ list_any is_jump (map part_view parts.now) }
{
    for part in parts {
        if is_jump(part) {
            return true;
        }
    }
    false
}
