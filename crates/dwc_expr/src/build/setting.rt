//! Where parts are built.
ghost use Rattle.std.specs.Prelude.{◌≡◌, IsSome, Some, option_map};
ghost use Rattle.dwc_isa.specs.ValueLabels.{place_view};
ghost use Rattle.dwc_expr.specs.Frames.{frame_view};
ghost use Rattle.dwc_isa.specs.ToldModules.{memory_view};
ghost use Rattle.dwc_native.specs.BuiltExpressions.{memory_of as memory_in};
ghost use Rattle.dwc_expr.specs.LabelRanges.{location_in};

use crate::{CachedValueLabelRange, FunctionFrameInfo};
use dwc_isa::{LabelValueLoc, ModuleMemoryOffset, ValueLabel};

// Where parts are built: a range, on which each label has one place, and the linear memory of the module.
#[derive(Clone, Copy)]
pub(crate) struct RangeSetting<'a> {
    pub(crate) range: &'a CachedValueLabelRange,
    pub(crate) memory: ModuleMemoryOffset,
}

// Where a label lies on a range that has a place for it.
pub(crate) fn place_on(range: &CachedValueLabelRange, label: ValueLabel) -> LabelValueLoc
    requires { IsSome (location_in range.now label.0) }
    ensures { location_in range.now label.0 ≡ Some (place_view result) }
{
    match range.label_location.get(&label.0) {
        Some(place) => *place,
        None => unreachable!(),
    }
}

// The linear memory of a frame's module.
pub(crate) fn memory_of(frame_info: Option<&FunctionFrameInfo<'_>>) -> ModuleMemoryOffset
    ensures { memory_view result ≡ memory_in (frame_view (option_map (λ f. f.now) frame_info.entry)) }
{
    match frame_info {
        Some(frame_info) => frame_info.memory_offset,
        None => ModuleMemoryOffset::None,
    }
}
