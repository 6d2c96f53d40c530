//! On which ranges of the native code of a scope values lie at unchanged places. (DWARF 4 and 5, section 2.6.2, has lists of such.)
ghost use Rattle.std.specs.Prelude.{◌≡◌, All, IfOk, IfErr, map, option_map};
ghost use Rattle.dwc_native.specs.LabelRanges.{AreMaximal};
ghost use Rattle.dwc_expr.specs.declared.error.ExprError.TheVariants.{OutOfMemory};
ghost use Rattle.dwc_expr.specs.Frames.{told_frame};
ghost use Rattle.dwc_expr.specs.LabelRanges.{bounds_of, gathered_frame, gathered_of, has_interval, GivesRanges, HasPlaces, Processes};

use crate::ranges::cached_range::{CachedValueLabelRange, bounds_of_each};
use crate::ranges::code_range::CodeRange;
use crate::ranges::narrowed::narrowed;
use crate::ranges::native::native_ranges;
use crate::ranges::scope::joined_without_places;
use crate::{ExprError, FunctionFrameInfo};
use dwc_addr::AddressTransform;
use dwc_isa::{TargetIsa, ValueLabel};
use std::alloc::Global;
use std::marker::Model;

/// The ranges of a scope that have been gathered.
#[derive(Drop)]
pub struct BuiltValueLabelRanges {
    /// The ranges, in order of functions and native code. They are disjoint, lie in the scope, and are as long as they can be.
    pub ranges: Vec<CachedValueLabelRange>,
    /// Whether the scope has an interval, and each byte of its native code has a place for each label that was processed.
    pub covers_entire_scope: bool,
}

/// Gathers, for labels one after another, the ranges of a scope on which they all lie at unchanged places. A contract sees the frame, the
/// native ranges of the scope, and the labels that were processed.
#[derive(Drop)]
pub struct ValueLabelRangesBuilder<'a> {
    frame_info: Option<&'a FunctionFrameInfo<'a>>,
    has_scope: bool,
    scope: Vec<CodeRange>,
    labels: Vec<u32>,
    built: BuiltValueLabelRanges,
}

impl<'a> Model for ValueLabelRangesBuilder<'a> {
    ghost use Rattle.std.specs.Prelude.{map, option_map};
    ghost use Rattle.std.specs.Coded.{codes};
    ghost use Rattle.dwc_isa.specs.ValueLabels.{labelled_code};
    ghost use Rattle.dwc_expr.specs.Frames.{told_frame};
    ghost use Rattle.dwc_expr.specs.LabelRanges.{Gathered, GivesRanges};
    ghost use Rattle.dwc_expr.specs.CodeRanges.{code_range_view};

    ghost Value = { Gathered };

    ghost coded = { Prim.hlevel (codes, labelled_code) };

    ghost view = { λ b. record { frame = option_map (λ f. told_frame f.now) b.frame_info; has_scope = b.has_scope; scope = map code_range_view b.scope.items; labels = b.labels.items } };

    ghost invariant = { λ b. GivesRanges (record { frame = option_map (λ f. told_frame f.now) b.frame_info; has_scope = b.has_scope; scope = map code_range_view b.scope.items; labels = b.labels.items }) b.built.ranges.items b.built.covers_entire_scope };
}

impl<'a> ValueLabelRangesBuilder<'a> {
    /// The native code of a scope, which is some intervals of wasm offsets, before any label is processed. Nothing of the target is
    /// kept. Without a frame no label has a place.
    ///
    /// # Errors
    /// `OutOfMemory` for want of memory.
    pub fn new(
        alloc: Global,
        scope: &[(u64, u64)],
        addr_tr: &'a AddressTransform<'_>,
        frame_info: Option<&'a FunctionFrameInfo<'a>>,
        _isa: &dyn TargetIsa,
    ) -> Result<ValueLabelRangesBuilder<'a>, ExprError>
        ensures scope { IfOk result (λ b. b ≡ gathered_of addr_tr.now (option_map (λ f. told_frame f.now) frame_info.entry) scope.now) }
        ensures memory { IfErr result (λ e. e ≡ OutOfMemory) }
    {
        let native = native_ranges(alloc, scope, addr_tr)?;
        let code = bounds_of_each(alloc, &native)?;
        let ranges = joined_without_places(alloc, native)?;
        let has_scope = has_interval(scope);
        Ok(ValueLabelRangesBuilder {
            frame_info,
            has_scope,
            scope: code,
            labels: Vec::new(alloc),
            built: BuiltValueLabelRanges {
                ranges,
                covers_entire_scope: has_scope,
            },
        })
    }

    /// Keeps of the ranges what has a place for one more label.
    ///
    /// # Errors
    /// `BadLabelRange` exactly where the frame has a range of the label that begins above its end. `OutOfMemory` for want of memory.
    /// Nothing is changed then.
    pub fn process_label(&mut self, label: ValueLabel) -> Result<(), ExprError>
        ensures { Processes label.0 self.old self.new result }
    {
        let alloc = *self.labels.allocator();
        let built = narrowed(alloc, self.frame_info, label, &self.built)?;
        self.labels.push(label.0)?;
        self.built = built;
        Ok(())
    }

    /// The ranges, with the places of all labels that were processed. They are the maximal ones, and each has a place for each of these
    /// labels. It takes no memory.
    pub fn into_ranges(self) -> BuiltValueLabelRanges
        ensures given { GivesRanges self.entry result.ranges.items result.covers_entire_scope }
        ensures placed { All (HasPlaces self.entry.labels) result.ranges.items }
        ensures whole { AreMaximal (gathered_frame self.entry) self.entry.labels self.entry.scope (map bounds_of result.ranges.items) }
    {
        self.built
    }
}

// Whether a scope has an interval.
pub(crate) fn has_interval(scope: &[(u64, u64)]) -> bool
    ensures { result ≡ has_interval scope.now }
{
    match scope {
        [] => false,
        _ => true,
    }
}
