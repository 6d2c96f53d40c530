//! Short expressions, by their bytes.
ghost use Rattle.std.specs.Prelude.{◌≡◌, ◌∷◌, [], IfSome, None, Ok, Option, Some, false, true};
ghost use Rattle.dwc_native.specs.Parts.{CompiledParts, compiled, holds_jump, label_alone};
ghost use Rattle.dwc_expr.specs.OverIntervals.{constant};

use dwc_base::constants::{DW_OP_WASM_location, DW_OP_consts, DW_OP_lit0, DW_OP_stack_value};
use dwc_isa::ValueLabel;

// Indexes below this number are one byte.
const SHORT_INDEXES: u8 = 128;

// Numbers below this one are 0 and 1.
const BITS: u8 = 2;

// The kind of a place on the operand stack.
const ON_STACK: u8 = 2;

// The local of an expression that is one local of a short index and `stack_value`, as most expressions are. None for each other.
pub(crate) fn short_local(bytes: &[u8]) -> Option<ValueLabel>
    ensures { IfSome result (λ label. (base : Option CompiledParts) → holds_jump base ≡ false → compiled base bytes.now ≡ Ok (Some (label_alone label.0))) }
{
    match bytes {
        [opcode, kind, index, end] => short_by(*opcode, *kind, *index, *end),
        _ => None,
    }
}

// The same by the bytes.
fn short_by(opcode: u8, kind: u8, index: u8, end: u8) -> Option<ValueLabel>
    ensures { IfSome result (λ label. (base : Option CompiledParts) → holds_jump base ≡ false → compiled base (opcode ∷ kind ∷ index ∷ end ∷ []) ≡ Ok (Some (label_alone label.0))) }
{
    if opcode == DW_OP_WASM_location
        && kind == 0
        && index < SHORT_INDEXES
        && end == DW_OP_stack_value
    {
        return Some(ValueLabel(u32::from(index)));
    }
    None
}

// Whether an expression is a place on the operand stack of a short index and another operation, which is not supported.
pub(crate) fn is_on_stack(bytes: &[u8]) -> bool
    ensures { result ≡ true → (base : Option CompiledParts) → compiled base bytes.now ≡ Ok None }
{
    match bytes {
        [opcode, kind, index, end] => begins_on_stack(*opcode, *kind, *index, *end),
        _ => false,
    }
}

// The same by the bytes.
fn begins_on_stack(opcode: u8, kind: u8, index: u8, end: u8) -> bool
    ensures { result ≡ true → (base : Option CompiledParts) → compiled base (opcode ∷ kind ∷ index ∷ end ∷ []) ≡ Ok None }
{
    if opcode == DW_OP_WASM_location && kind == ON_STACK && index < SHORT_INDEXES {
        return true;
    }
    false
}

// Whether an expression is 0 or 1 and `stack_value`, as most constants are. It stays as it is.
pub(crate) fn is_bit(bytes: &[u8]) -> bool
    ensures { result ≡ true → (base : Option CompiledParts) → holds_jump base ≡ false → compiled base bytes.now ≡ Ok (Some (constant bytes.now)) }
{
    match bytes {
        [opcode, end] => is_literal_bit(*opcode, *end),
        [opcode, number, end] => is_spelled_bit(*opcode, *number, *end),
        _ => false,
    }
}

// Whether it is the literal 0, by the bytes.
fn is_literal_bit(opcode: u8, end: u8) -> bool
    ensures { result ≡ true → (base : Option CompiledParts) → holds_jump base ≡ false → compiled base (opcode ∷ end ∷ []) ≡ Ok (Some (constant (opcode ∷ end ∷ []))) }
{
    if opcode == DW_OP_lit0 && end == DW_OP_stack_value {
        return true;
    }
    false
}

// Whether it is 0 or 1 as a signed number, by the bytes.
fn is_spelled_bit(opcode: u8, number: u8, end: u8) -> bool
    ensures { result ≡ true → (base : Option CompiledParts) → holds_jump base ≡ false → compiled base (opcode ∷ number ∷ end ∷ []) ≡ Ok (Some (constant (opcode ∷ number ∷ end ∷ []))) }
{
    if opcode == DW_OP_consts && number < BITS && end == DW_OP_stack_value {
        return true;
    }
    false
}
