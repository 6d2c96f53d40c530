//! Compiled expressions.
ghost use Rattle.std.specs.Prelude.{◌≡◌, IfOk, IfErr, map};
ghost use Rattle.std.specs.List.{list_any};
ghost use Rattle.dwc_native.specs.Parts.{context_label, is_jump, is_simple as is_simple_by, label_alone, single_code};
ghost use Rattle.dwc_expr.specs.PartViews.{part_view};
ghost use Rattle.dwc_expr.specs.WholeParts.{IsWhole};
ghost use Rattle.dwc_expr.specs.declared.error.ExprError.TheVariants.{OutOfMemory};

use crate::{CompiledExpressionPart, ExprError};
use dwc_isa::{ValueLabel, get_vmctx_value_label};
use dwc_unit::Expression;
use std::alloc::{AllocError, Global};
use std::marker::Model;

/// An expression of the input in parts, in which locals, reads of linear memory and jumps stand apart from operations that stay as
/// they are. It is the place of one label; or operations that stay are whole and do not jump, and each jump goes to a place of which
/// the parts have a landing pad.
#[derive(Drop)]
pub struct CompiledExpression {
    pub(crate) parts: Vec<CompiledExpressionPart>,
    // Whether its result is an address in linear memory.
    pub(crate) need_deref: bool,
    // Whether one of its parts is a jump.
    pub(crate) has_jump: bool,
}

impl Model for CompiledExpression {
    ghost use Rattle.std.specs.Prelude.{◌≡◌, map};
    ghost use Rattle.std.specs.List.{list_any};
    ghost use Rattle.dwc_native.specs.Parts.{CompiledParts, is_jump};
    ghost use Rattle.dwc_expr.specs.PartViews.{part_view};
    ghost use Rattle.dwc_expr.specs.WholeParts.{IsWhole};

    ghost Value = { CompiledParts };

    ghost view = { λ x. record { parts = map part_view x.parts.items; need_deref = x.need_deref } };

    ghost invariant = { λ x. (x.has_jump ≡ list_any is_jump (map part_view x.parts.items)) × IsWhole (record { parts = map part_view x.parts.items; need_deref = x.need_deref }) };
}

impl CompiledExpression {
    /// The place of the module's context.
    ///
    /// # Errors
    /// `OutOfMemory` for want of memory.
    pub fn vmctx(alloc: Global) -> Result<CompiledExpression, ExprError>
        ensures place { IfOk result (λ x. x ≡ label_alone context_label) }
        ensures memory { IfErr result (λ e. e ≡ OutOfMemory) }
    {
        CompiledExpression::from_label(alloc, get_vmctx_value_label())
    }

    /// The place of a label.
    ///
    /// # Errors
    /// `OutOfMemory` for want of memory.
    pub fn from_label(alloc: Global, label: ValueLabel) -> Result<CompiledExpression, ExprError>
        ensures place { IfOk result (λ x. x ≡ label_alone «label».0) }
        ensures memory { IfErr result (λ e. e ≡ OutOfMemory) }
    {
        Ok(CompiledExpression::alone(alloc, label)?)
    }

    // The place of a label.
    pub(crate) fn alone(alloc: Global, label: ValueLabel) -> Result<CompiledExpression, AllocError>
        ensures { IfOk result (λ x. x ≡ label_alone «label».0) }
    {
        let mut parts = Vec::with_capacity(alloc, 1)?;
        parts.push(CompiledExpressionPart::Local {
            label,
            trailing: true,
        })?;
        Ok(CompiledExpression {
            parts,
            need_deref: false,
            has_jump: false,
        })
    }

    /// Whether it is operations that stay as they are alone, or nothing.
    pub fn is_simple(&self) -> bool
        ensures { result ≡ is_simple_by self.now }
    {
        match self.parts.as_slice() {
            [] => true,
            [CompiledExpressionPart::Code(_)] => true,
            _ => false,
        }
    }

    /// The expression itself where it is operations that stay as they are alone; None else.
    ///
    /// # Errors
    /// `OutOfMemory` for want of memory.
    pub fn build(&self, alloc: Global) -> Result<Option<Expression>, ExprError>
        ensures code { IfOk result (λ built. built ≡ single_code self.now.parts) }
        ensures memory { IfErr result (λ e. e ≡ OutOfMemory) }
    {
        match self.parts.as_slice() {
            [CompiledExpressionPart::Code(code)] => {
                Ok(Some(Expression::from_slice(alloc, code)?))
            }
            _ => Ok(None),
        }
    }

    // Whether one of its parts is a jump; and it is whole.
    pub(crate) fn has_jump(&self) -> bool
        ensures jump { result ≡ list_any is_jump self.now.parts }
        ensures whole { IsWhole self.now }
    {
        self.has_jump
    }

    /// Its parts.
    pub fn parts(&self) -> &[CompiledExpressionPart]
        ensures { map part_view result.now ≡ self.now.parts }
    {
        self.parts.as_slice()
    }

    /// Whether its result is an address in linear memory, which is made one of the native code behind the last part.
    pub fn need_deref(&self) -> bool
        ensures { result ≡ self.now.need_deref }
    {
        self.need_deref
    }
}
