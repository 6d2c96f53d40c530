//! The operations of an expression that are supported.
ghost use Rattle.std.specs.Prelude.{◌≡◌, ◌==◌, if◌then◌else◌, Some, None, option_map};
ghost use Rattle.dwc_base.specs.declared.constants.TheConstants.{DW_OP_WASM_location};
ghost use Rattle.dwc_native.specs.Parts.{rule_of as rule_by_code, is_supported, jump_target};
ghost use Rattle.dwc_tabs.specs.Operations.{operation_view};
ghost use Rattle.dwc_expr.specs.Actions.{IsActionOf};

use crate::compile::action::{Action, action_by};
use crate::compile::rule::rule_of;
use dwc_isa::ValueLabel;
use dwc_tabs::Operation;
use std::marker::Model;

// An operation that is supported, with its place and what becomes of it. A contract sees the operation.
#[derive(Drop)]
pub(crate) struct Step<'d> {
    place: usize,
    operation: Operation<'d>,
    action: Action,
}

impl<'d> Model for Step<'d> {
    ghost use Rattle.dwc_dwarf.specs.Operations.{Operation};
    ghost use Rattle.dwc_native.specs.Parts.{rule_of as rule_by_code};
    ghost use Rattle.dwc_tabs.specs.Operations.{operation_view};
    ghost use Rattle.dwc_expr.specs.Actions.{IsActionOf};

    ghost Value = { Operation };

    ghost view = { λ s. operation_view s.place s.operation };

    ghost invariant = { λ s. IsActionOf (rule_by_code s.operation.opcode) (operation_view s.place s.operation) s.action };
}

impl<'d> Step<'d> {
    // An operation at a place of an expression of a length, with a frame base or without; None where it is not supported.
    pub(crate) fn new(
        place: usize,
        operation: &Operation<'d>,
        has_base: bool,
        size: usize,
    ) -> Option<Step<'d>>
        ensures { result ≡ (if is_supported has_base size (operation_view place operation.now) then Some (operation_view place operation.now) else None) }
    {
        let rule = rule_of(operation.opcode)?;
        let action = action_by(rule, place, operation, has_base, size)?;
        Some(Step {
            place,
            operation: *operation,
            action,
        })
    }

    // Its place.
    pub(crate) fn place(&self) -> usize
        ensures { result ≡ self.now.place }
    {
        self.place
    }

    // Its code.
    pub(crate) fn opcode(&self) -> u8
        ensures { result ≡ self.now.opcode }
    {
        self.operation.opcode
    }

    // Its bytes.
    pub(crate) fn bytes(&self) -> &'d [u8]
        ensures { result.now ≡ self.now.bytes }
    {
        self.operation.bytes
    }

    // Its first operand.
    pub(crate) fn first(&self) -> u64
        ensures { result ≡ self.now.first }
    {
        self.operation.first
    }

    // What becomes of it.
    pub(crate) fn action(&self) -> Action
        ensures { IsActionOf (rule_by_code self.now.opcode) self.now result }
    {
        self.action
    }

    // Where it jumps to, if it jumps.
    pub(crate) fn target(&self) -> Option<usize>
        ensures { result ≡ jump_target self.now }
    {
        match self.action {
            Action::Jump { target, .. } => Some(target),
            _ => None,
        }
    }

    // The local that it loads, if it loads one.
    pub(crate) fn local(&self) -> Option<ValueLabel>
        ensures { option_map (λ label. label.0) result ≡ (if self.now.opcode == DW_OP_WASM_location then Some self.now.second else None) }
    {
        match self.action {
            Action::LoadLocal(label) => Some(label),
            _ => None,
        }
    }
}
