//! What becomes of an operation that is supported.
ghost use Rattle.std.specs.Prelude.{◌≡◌, ◌==◌, ◌<◌, ◌^◌, ◌&&◌, nat_lt, pos, ◌+ℤ◌, if◌then◌else◌, Some, None, option_map};
ghost use Rattle.std.specs.Int.{w64, cast_signed};
ghost use Rattle.dwc_dwarf.specs.Operations.{target};
ghost use Rattle.dwc_native.specs.Parts.{context_label};
ghost use Rattle.dwc_tabs.specs.Operations.{operation_view};
ghost use Rattle.dwc_expr.specs.Rules.{rule_view};
ghost use Rattle.dwc_expr.specs.Actions.{GivesAction, IsReached, JumpsTo};

use crate::compile::rule::Rule;
use dwc_isa::{ValueLabel, get_vmctx_value_label};
use dwc_tabs::Operation;

// What becomes of an operation that is supported, with the local that it loads and with where it jumps to.
#[derive(Clone, Copy)]
pub(crate) enum Action {
    LoadLocal(ValueLabel),
    AddToFrameBase,
    Jump { conditionally: bool, target: usize },
    ReadMemory,
    ShiftRight,
    Stay,
}

// A place so many bytes on or back, where the number of bytes is signed modulo 2^64; None before the first place.
fn moved(place: u128, bytes: u64) -> Option<u128>
    requires { place < 2 ^ 65 }
    ensures { IsReached (pos place +ℤ cast_signed w64 bytes) result }
{
    let sum = place + u128::from(bytes);
    if bytes < 1 << 63 {
        Some(sum)
    } else {
        sum.checked_sub(1 << 64)
    }
}

// Where a jump goes, if it stays in an expression of a length.
fn jump_target(place: usize, operation: &Operation<'_>, size: usize) -> Option<usize>
    ensures { JumpsTo size (target (operation_view place operation.now)) result }
{
    let behind = place as u128 + operation.bytes.len() as u128;
    match moved(behind, operation.first) {
        Some(reached) => {
            if reached <= size as u128 {
                Some(reached as usize)
            } else {
                None
            }
        }
        None => None,
    }
}

// The local that a location in WebAssembly is: it is of kind 0, and below the label of the context.
fn loaded_local(operation: &Operation<'_>) -> Option<ValueLabel>
    ensures { option_map (λ label. label.0) result ≡ (if (operation.now.first == 0) && nat_lt operation.now.second context_label then Some operation.now.second else None) }
{
    if operation.first == 0 && operation.second < u64::from(get_vmctx_value_label().0) {
        Some(ValueLabel(operation.second as u32))
    } else {
        None
    }
}

// What becomes of an operation by its rule, in an expression of a length, with a frame base or without; None where it is not
// supported.
pub(crate) fn action_by(
    rule: Rule,
    place: usize,
    operation: &Operation<'_>,
    has_base: bool,
    size: usize,
) -> Option<Action>
    ensures { GivesAction (Some (rule_view rule)) has_base size (operation_view place operation.now) result }
{
    match rule {
        Rule::LoadsLocal => match loaded_local(operation) {
            Some(label) => Some(Action::LoadLocal(label)),
            None => None,
        },
        Rule::AddsToFrameBase => {
            if has_base {
                Some(Action::AddToFrameBase)
            } else {
                None
            }
        }
        Rule::Jumps { conditionally } => match jump_target(place, operation, size) {
            Some(target) => Some(Action::Jump {
                conditionally,
                target,
            }),
            None => None,
        },
        Rule::ReadsMemory => Some(Action::ReadMemory),
        Rule::ShiftsRight => Some(Action::ShiftRight),
        Rule::Stays => Some(Action::Stay),
    }
}
