//! The labels that parts need, and the ranges on which they have places.
ghost use Rattle.std.specs.Prelude.{◌≡◌, ◌++◌, ◌∷◌, [], map, option_map, All, IfErr, IfOk, IfSome, OnOk, Option};
ghost use Rattle.std.specs.List.{filter_map};
ghost use Rattle.std.specs.Option.{option_to_list};
ghost use Rattle.dwc_native.specs.Placed.{label_needed as label_of};
ghost use Rattle.dwc_expr.specs.declared.error.ExprError.TheVariants.{OutOfMemory};
ghost use Rattle.dwc_expr.specs.Frames.{told_frame, ToldFrame};
ghost use Rattle.dwc_expr.specs.LabelRanges.{gathered_of, HasPlaces};
ghost use Rattle.dwc_expr.specs.NarrowedRanges.{Gives};
ghost use Rattle.dwc_expr.specs.NeededLabels.{numbers, GivesLabelRanges, HaveSameFirsts, IsSetOf};
ghost use Rattle.dwc_expr.specs.PartViews.{part_view};
ghost use Rattle.dwc_expr.specs.Alone.{lone_part};
ghost use Rattle.dwc_expr.specs.PartsToBuild.{all_parts, labels_needed};

use crate::build::alone::LoneLocal;
use crate::build::parts_to_build::PartsToBuild;
use crate::ranges::label_ranges::has_interval;
use crate::ranges::narrowed::narrowed;
use crate::ranges::native::native_ranges;
use crate::ranges::scope::joined_without_places;
use crate::{BuiltValueLabelRanges, CompiledExpressionPart, ExprError, FunctionFrameInfo};
use dwc_addr::AddressTransform;
use dwc_isa::{ValueLabel, get_vmctx_value_label};
use std::alloc::{AllocError, Global};
use std::collections::BTreeSet;

// The local that parts are alone; None where they are not.
pub(crate) fn lone_local(parts: &PartsToBuild<'_>) -> Option<LoneLocal>
    ensures part { IfSome result (λ local. all_parts parts.now ≡ lone_part local ∷ []) }
    ensures label { IfSome result (λ local. labels_needed parts.now ≡ local.label.0 ∷ []) }
{
    if parts.then_dereference {
        return None;
    }
    match parts.parts {
        [CompiledExpressionPart::Local { label, trailing }] => Some(LoneLocal {
            label: *label,
            trailing: *trailing,
        }),
        _ => None,
    }
}

// The labels that parts need, each once, in the order in which they are first needed.
pub(crate) fn needed_labels(
    alloc: Global,
    parts: &PartsToBuild<'_>,
) -> Result<Vec<ValueLabel>, AllocError>
    ensures { IfOk result (λ labels. HaveSameFirsts (numbers labels.items) (filter_map label_of (all_parts parts.now))) }
{
    let mut labels = Vec::new(alloc);
    let mut seen = BTreeSet::new(alloc);
    add_labels(&mut labels, &mut seen, parts.parts)?;
    if parts.then_dereference {
        add_label(&mut labels, &mut seen, get_vmctx_value_label())?;
    }
    Ok(labels)
}

// Adds the labels that parts need. The set has the labels that are there.
fn add_labels(
    labels: &mut Vec<ValueLabel>,
    seen: &mut BTreeSet<u32>,
    parts: &[CompiledExpressionPart],
) -> Result<(), AllocError>
    requires { IsSetOf labels.old.items seen.old }
    ensures set { OnOk result (IsSetOf labels.new.items seen.new) }
    ensures labels { OnOk result (HaveSameFirsts (numbers labels.new.items) (numbers labels.old.items ++ filter_map label_of (map part_view parts.now))) }
{
    for part in parts {
        add_label_of(labels, seen, part)?;
    }
    Ok(())
}

// Adds the label that a part needs, if it needs one.
fn add_label_of(
    labels: &mut Vec<ValueLabel>,
    seen: &mut BTreeSet<u32>,
    part: &CompiledExpressionPart,
) -> Result<(), AllocError>
    requires { IsSetOf labels.old.items seen.old }
    ensures set { OnOk result (IsSetOf labels.new.items seen.new) }
    ensures labels { OnOk result (HaveSameFirsts (numbers labels.new.items) (numbers labels.old.items ++ option_to_list (label_of (part_view part.now)))) }
{
    match label_needed(part) {
        Some(label) => add_label(labels, seen, label),
        None => Ok(()),
    }
}

// Adds a label, unless it is there.
fn add_label(
    labels: &mut Vec<ValueLabel>,
    seen: &mut BTreeSet<u32>,
    label: ValueLabel,
) -> Result<(), AllocError>
    requires { IsSetOf labels.old.items seen.old }
    ensures set { OnOk result (IsSetOf labels.new.items seen.new) }
    ensures labels { OnOk result (HaveSameFirsts (numbers labels.new.items) (numbers labels.old.items ++ label.0 ∷ [])) }
{
    if seen.insert(label.0)? {
        labels.push(label)?;
    }
    Ok(())
}

// The label that a part needs, if it needs one. Linear memory is reached from the context.
fn label_needed(part: &CompiledExpressionPart) -> Option<ValueLabel>
    ensures { option_map (λ l. l.0) result ≡ label_of (part_view part.now) }
{
    match part {
        CompiledExpressionPart::Local { label, .. } => Some(*label),
        CompiledExpressionPart::Deref => Some(get_vmctx_value_label()),
        CompiledExpressionPart::Code(_)
        | CompiledExpressionPart::Jump { .. }
        | CompiledExpressionPart::LandingPad(_) => None,
    }
}

// The ranges of a scope on which labels have places; or the first label that is refused.
pub(crate) fn ranges_of_labels(
    alloc: Global,
    labels: &[ValueLabel],
    scope: &[(u64, u64)],
    addr_tr: &AddressTransform<'_>,
    frame_info: Option<&FunctionFrameInfo<'_>>,
) -> Result<BuiltValueLabelRanges, ExprError>
    ensures given { GivesLabelRanges (gathered_of addr_tr.now (option_map (λ f. told_frame f.now) frame_info.entry) scope.now) (numbers labels.now) result }
    ensures placed { IfOk result (λ built. All (HasPlaces (numbers labels.now)) built.ranges.items) }
{
    let mut built = ranges_of_scope(alloc, scope, addr_tr)?;
    for label in labels {
        built = narrowed(alloc, frame_info, *label, &built)?;
    }
    Ok(built)
}

// The native code of a scope, before any label has a place.
fn ranges_of_scope(
    alloc: Global,
    scope: &[(u64, u64)],
    addr_tr: &AddressTransform<'_>,
) -> Result<BuiltValueLabelRanges, ExprError>
    ensures given { IfOk result (λ built. (frame : Option ToldFrame) → Gives (gathered_of addr_tr.now frame scope.now) built) }
    ensures memory { IfErr result (λ e. e ≡ OutOfMemory) }
{
    let native = native_ranges(alloc, scope, addr_tr)?;
    let ranges = joined_without_places(alloc, native)?;
    Ok(BuiltValueLabelRanges {
        ranges,
        covers_entire_scope: has_interval(scope),
    })
}
