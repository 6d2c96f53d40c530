//! Compiles expressions.
ghost use Rattle.std.specs.Prelude.{◌≡◌, ◌<◌, ◌≤◌, ◌^◌, All, IfOk, IfSome, Ok, Some, false, option_map};
ghost use Rattle.dwc_native.specs.Parts.{CompiledParts, compiled, holds_jump, leaves_address, lone_local, targets};
ghost use Rattle.dwc_expr.specs.Compiles.{Compiles};
ghost use Rattle.dwc_expr.specs.Supported.{compiled_supported};
ghost use Rattle.dwc_expr.specs.WholeParts.{IsWhole, IsWholeBase, JumpsLand};

pub(crate) mod action;
pub(crate) mod emit;
pub(crate) mod joined_parts;
pub(crate) mod landings;
pub(crate) mod rule;
pub(crate) mod short;
pub(crate) mod step;
pub(crate) mod steps;

use crate::compile::emit::parts_of_steps;
use crate::compile::landings::landings;
use crate::compile::short::short_local;
use crate::compile::step::Step;
use crate::compile::steps::read_steps;
use crate::part::any_is_jump;
use crate::{CompiledExpression, ExprError};
use dwc_base::Encoding;
use dwc_base::constants::DW_OP_stack_value;
use dwc_isa::ValueLabel;
use std::alloc::Global;

// Whether some part of a frame base is a jump; and it is whole, if there is one.
pub(crate) fn holds_jump(frame_base: Option<&CompiledExpression>) -> bool
    ensures jump { result ≡ holds_jump (option_map (λ x. x.now) frame_base.entry) }
    ensures whole { IsWholeBase (option_map (λ x. x.now) frame_base.entry) }
{
    match frame_base {
        Some(base) => base.has_jump(),
        None => false,
    }
}

// The local of an expression that is one local and `stack_value`.
fn lone_local(steps: &[Step<'_>]) -> Option<ValueLabel>
    ensures { option_map (λ label. label.0) result ≡ lone_local steps.now }
{
    match steps {
        [first, last] => {
            if last.opcode() == DW_OP_stack_value {
                first.local()
            } else {
                None
            }
        }
        _ => None,
    }
}

// Whether the result is an address: it is where there is a last operation that does not make it a value.
fn leaves_address(steps: &[Step<'_>]) -> bool
    ensures { result ≡ leaves_address steps.now }
{
    match steps.last() {
        Some(last) => last.opcode() != DW_OP_stack_value,
        None => false,
    }
}

// What the operations of an expression of a length compile to, which are all supported; None where a jump goes into an operation. The
// frame base has no jumps, and what they compile to is whole.
fn compile_steps(
    alloc: Global,
    frame_base: Option<&CompiledExpression>,
    steps: &[Step<'_>],
    size: usize,
) -> Result<Option<CompiledExpression>, ExprError>
    requires size { size < 2 ^ 63 }
    requires inside { All (λ place. place ≤ size) (targets steps.now) }
    requires free { holds_jump (option_map (λ x. x.now) frame_base) ≡ false }
    requires whole { (x : CompiledParts) → compiled_supported (option_map (λ x. x.now) frame_base) size steps.now ≡ Ok (Some x) → IsWhole x }
    ensures { Compiles (compiled_supported (option_map (λ x. x.now) frame_base.entry) size steps.now) result }
{
    let Some(landings) = landings(alloc, steps, size)? else {
        return Ok(None);
    };
    if let Some(label) = lone_local(steps) {
        return Ok(Some(CompiledExpression::alone(alloc, label)?));
    }
    let parts = parts_of_steps(alloc, frame_base, &landings, steps, size)?;
    let has_jump = any_is_jump(&parts);
    Ok(Some(CompiledExpression {
        parts,
        need_deref: leaves_address(steps),
        has_jump,
    }))
}

// What an expression of any form compiles to, on a frame base that is whole and has no jumps.
fn compile_operations(
    alloc: Global,
    bytes: &[u8],
    encoding: Encoding,
    frame_base: Option<&CompiledExpression>,
) -> Result<Option<CompiledExpression>, ExprError>
    requires free { holds_jump (option_map (λ x. x.now) frame_base) ≡ false }
    requires whole { IsWholeBase (option_map (λ x. x.now) frame_base) }
    ensures parts { Compiles (compiled (option_map (λ x. x.now) frame_base.entry) bytes.now) result }
    ensures lands { IfOk result (λ x. IfSome x (λ c. JumpsLand c.parts)) }
    ensures whole { IfOk result (λ x. IfSome x (λ c. IsWhole c)) }
{
    match read_steps(alloc, bytes, encoding, frame_base.is_some())? {
        Some(steps) => compile_steps(alloc, frame_base, &steps, bytes.len()),
        None => Ok(None),
    }
}

/// What an expression of the input compiles to, on the frame base in force if there is one: its parts. None where it is not
/// supported: where it has an operation that is not known, or that tells of the machine that the input was compiled for, a location
/// in WebAssembly that is no local, a jump out of the expression or into an operation, or an offset from a frame base that is not
/// given; and where the frame base has jumps. Of such a thing and of bytes that cannot be read the first in the order of bytes
/// decides; jumps into operations come last. Each jump of what is answered goes to a place of which it has a landing pad. What is
/// answered is the place of one label, or its operations are whole, each by itself, and none of them jumps. (DWARF 4 and 5, section
/// 2.5.)
///
/// # Errors
/// `Read` exactly where an operation is cut short, or has an operand that does not fit 64 bits, with `.debug_info` and the place of
/// the operation in the expression. `OutOfMemory` for want of memory.
pub fn compile_expression(
    alloc: Global,
    bytes: &[u8],
    encoding: Encoding,
    frame_base: Option<&CompiledExpression>,
) -> Result<Option<CompiledExpression>, ExprError>
    ensures parts { Compiles (compiled (option_map (λ x. x.now) frame_base.entry) bytes.now) result }
    ensures lands { IfOk result (λ x. IfSome x (λ c. JumpsLand c.parts)) }
    ensures whole { IfOk result (λ x. IfSome x (λ c. IsWhole c)) }
{
    if holds_jump(frame_base) {
        return Ok(None);
    }
    match short_local(bytes) {
        Some(label) => Ok(Some(CompiledExpression::alone(alloc, label)?)),
        None => compile_operations(alloc, bytes, encoding, frame_base),
    }
}
