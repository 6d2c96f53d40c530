//! Builds expressions over scopes.
ghost use Rattle.std.specs.Prelude.{◌≡◌, ◌∷◌, [], IfOk, true, map, option_map};
ghost use Rattle.dwc_native.specs.BuiltExpressions.{built_over, built_on_ranges, IsBounded};
ghost use Rattle.dwc_native.specs.Parts.{CompiledParts, single_code as code_alone};
ghost use Rattle.dwc_native.specs.Placed.{built_parts, scope_ranges};
ghost use Rattle.dwc_expr.specs.Alone.{lone_part};
ghost use Rattle.dwc_expr.specs.BuiltMeanings.{BuiltMean};
ghost use Rattle.dwc_expr.specs.Builds.{surroundings, built_view, Builds};
ghost use Rattle.dwc_expr.specs.LabelRanges.{has_interval};
ghost use Rattle.dwc_expr.specs.PartViews.{part_view};
ghost use Rattle.dwc_expr.specs.NeededLabels.{numbers, HaveSameFirsts};
ghost use Rattle.dwc_expr.specs.PartsToBuild.{all_parts, labels_needed};
ghost use Rattle.dwc_expr.specs.WholeParts.{IsWhole, JumpsLand};

use crate::build::alone::{LoneLocal, build_alone, one_range};
use crate::build::copies::copied;
use crate::build::labels::{lone_local, needed_labels, ranges_of_labels};
use crate::build::on_ranges::expressions_on;
use crate::build::parts_to_build::{PartsToBuild, reads_memory};
use crate::build::places::{check_places, lacks_memory};
use crate::build::setting::memory_of;
use crate::{CompiledExpression, CompiledExpressionPart, ExprError, FunctionFrameInfo};
use dwc_addr::AddressTransform;
use dwc_base::Address;
use dwc_isa::{TargetIsa, ValueLabel};
use dwc_unit::Expression;
use std::alloc::Global;

/// What an expression becomes over a scope.
#[derive(Drop)]
pub struct BuiltCompiledExpression {
    /// Expressions of the native code, each for so many bytes of code from an address on, in order of functions and native code.
    pub expressions: Vec<(Address, u64, Expression)>,
    /// Whether each byte of the native code of the scope has a place for each value that is needed. Never where the scope has no
    /// interval or the expression is operations that stay as they are alone.
    pub covers_entire_scope: bool,
}

impl CompiledExpression {
    /// What the expression becomes over a scope, which is some intervals of wasm offsets: its bytes for each range of native code on
    /// which the values that it needs lie at unchanged places in the frame of a function, if one is given. Operations that stay as they
    /// are alone are copied for each native range of the scope. Over no interval it becomes nothing.
    ///
    /// Where what the code generator told is bounded, the bytes on each range mean what the expression means. They run as its parts with
    /// the places of the range: step for step, with the same stack, pieces and mark, and they stop where the parts stop. Where the
    /// expression has a meaning in WebAssembly that can be kept, they have its result: the same low 32 bits, or the address in linear
    /// memory as one of the native code. An expression that is the place of one label becomes the register or the address of that place.
    ///
    /// # Errors
    /// In this order, and each exactly where it says: `BadLabelRange` where a label that is needed has a range in the frame that begins
    /// above its end, the first in the order of parts. `InvalidAttributeValue` where it reads linear memory, its values have places on
    /// some byte of the scope, and the frame's module has no memory; `UnmappedRegister` where on such a byte a value lies in a register
    /// for which the target has no number, the first in the order of bytes and then of parts. `TooLarge` where a jump would go further
    /// than 16 bits with a sign say. `OutOfMemory` for want of memory.
    pub fn build_with_locals(
        &self,
        alloc: Global,
        scope: &[(u64, u64)],
        addr_tr: &AddressTransform<'_>,
        frame_info: Option<&FunctionFrameInfo<'_>>,
        isa: &dyn TargetIsa,
    ) -> Result<BuiltCompiledExpression, ExprError>
        ensures built { Builds (built_over (surroundings addr_tr.now (option_map (λ f. f.now) frame_info.entry) (dwarf_registers isa.now)) scope.now self.now) result }
        ensures means { IfOk result (λ built. IsBounded (surroundings addr_tr.now (option_map (λ f. f.now) frame_info.entry) (dwarf_registers isa.now)) → BuiltMean (surroundings addr_tr.now (option_map (λ f. f.now) frame_info.entry) (dwarf_registers isa.now)) scope.now self.now (built_view built)) }
    {
        self.build_on_scope(alloc, scope, addr_tr, frame_info, isa)
    }

    // The same; and the expression is whole.
    #[tactic(auto, unfolding(dwc_native::specs::BuiltExpressions::built_over))]
    fn build_on_scope(
        &self,
        alloc: Global,
        scope: &[(u64, u64)],
        addr_tr: &AddressTransform<'_>,
        frame_info: Option<&FunctionFrameInfo<'_>>,
        isa: &dyn TargetIsa,
    ) -> Result<BuiltCompiledExpression, ExprError>
        ensures built { Builds (built_over (surroundings addr_tr.now (option_map (λ f. f.now) frame_info.entry) (dwarf_registers isa.now)) scope.now self.now) result }
        ensures whole { IsWhole self.now }
    {
        let parts = self.parts.as_slice();
        if scope.is_empty() {
            return Ok(BuiltCompiledExpression {
                expressions: Vec::new(alloc),
                covers_entire_scope: false,
            });
        }
        match single_code(parts) {
            Some(code) => Ok(copied(alloc, scope, addr_tr, code)?),
            None => {
                let parts = PartsToBuild {
                    parts,
                    then_dereference: self.need_deref,
                };
                build_parts(alloc, &parts, scope, addr_tr, frame_info, isa)
            }
        }
    }
}

// The operations of parts that are operations alone.
pub(crate) fn single_code(parts: &[CompiledExpressionPart]) -> Option<&[u8]>
    ensures { option_map (λ code. code.now) result ≡ code_alone (map part_view parts.now) }
{
    match parts {
        [CompiledExpressionPart::Code(code)] => Some(code),
        _ => None,
    }
}

// What parts that are not operations alone become over a scope that has an interval.
fn build_parts(
    alloc: Global,
    parts: &PartsToBuild<'_>,
    scope: &[(u64, u64)],
    addr_tr: &AddressTransform<'_>,
    frame_info: Option<&FunctionFrameInfo<'_>>,
    isa: &dyn TargetIsa,
) -> Result<BuiltCompiledExpression, ExprError>
    requires scope { has_interval scope.now ≡ true }
    requires lands { JumpsLand (map part_view parts.now.parts.now) }
    ensures { (x : CompiledParts) → built_parts x ≡ all_parts parts.now → Builds (built_on_ranges (surroundings addr_tr.now (option_map (λ f. f.now) frame_info.entry) (dwarf_registers isa.now)) (scope_ranges addr_tr.now scope.now) x) result }
{
    if let Some(local) = lone_local(parts) {
        return build_local(alloc, parts, local, scope, addr_tr, frame_info, isa);
    }
    let labels = needed_labels(alloc, parts)?;
    build_on_labels(alloc, parts, &labels, scope, addr_tr, frame_info, isa)
}

// What parts that are one local alone become over a scope that has an interval. Most scopes have one range of native code.
fn build_local(
    alloc: Global,
    parts: &PartsToBuild<'_>,
    local: LoneLocal,
    scope: &[(u64, u64)],
    addr_tr: &AddressTransform<'_>,
    frame_info: Option<&FunctionFrameInfo<'_>>,
    isa: &dyn TargetIsa,
) -> Result<BuiltCompiledExpression, ExprError>
    requires part { all_parts parts.now ≡ lone_part local ∷ [] }
    requires label { labels_needed parts.now ≡ local.label.0 ∷ [] }
    requires scope { has_interval scope.now ≡ true }
    requires lands { JumpsLand (map part_view parts.now.parts.now) }
    ensures { (x : CompiledParts) → built_parts x ≡ all_parts parts.now → Builds (built_on_ranges (surroundings addr_tr.now (option_map (λ f. f.now) frame_info.entry) (dwarf_registers isa.now)) (scope_ranges addr_tr.now scope.now) x) result }
{
    match one_range(scope, addr_tr) {
        Some(range) => build_alone(alloc, local, range, frame_info, isa),
        None => build_on_labels(
            alloc,
            parts,
            &[local.label],
            scope,
            addr_tr,
            frame_info,
            isa,
        ),
    }
}

// What parts that need some labels become over a scope that has an interval.
fn build_on_labels(
    alloc: Global,
    parts: &PartsToBuild<'_>,
    labels: &[ValueLabel],
    scope: &[(u64, u64)],
    addr_tr: &AddressTransform<'_>,
    frame_info: Option<&FunctionFrameInfo<'_>>,
    isa: &dyn TargetIsa,
) -> Result<BuiltCompiledExpression, ExprError>
    requires labels { HaveSameFirsts (numbers labels.now) (labels_needed parts.now) }
    requires scope { has_interval scope.now ≡ true }
    requires lands { JumpsLand (map part_view parts.now.parts.now) }
    ensures { (x : CompiledParts) → built_parts x ≡ all_parts parts.now → Builds (built_on_ranges (surroundings addr_tr.now (option_map (λ f. f.now) frame_info.entry) (dwarf_registers isa.now)) (scope_ranges addr_tr.now scope.now) x) result }
{
    let built = ranges_of_labels(alloc, labels, scope, addr_tr, frame_info)?;
    let memory = memory_of(frame_info);
    let lacks_memory = lacks_memory(memory, reads_memory(parts));
    check_places(&built.ranges, labels, lacks_memory, isa)?;
    let expressions = expressions_on(alloc, parts, &built.ranges, memory, isa)?;
    Ok(BuiltCompiledExpression {
        expressions,
        covers_entire_scope: built.covers_entire_scope,
    })
}
