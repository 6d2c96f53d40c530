//! Where jumps arrive in the bytes of parts.
ghost use Rattle.std.specs.Prelude.{◌≡◌, ℕ, map, IfOk, IsSome, OnOk, Some};
ghost use Rattle.std.specs.BTreeMap.{get};
ghost use Rattle.std.specs.Option.{option_or};
ghost use Rattle.std.specs.Ordering.{nat_cmp};
ghost use Rattle.dwc_expr.specs.LabelRanges.{HasPlaces};
ghost use Rattle.dwc_expr.specs.PartsToBuild.{all_parts, labels_needed};
ghost use Rattle.dwc_expr.specs.PartViews.{part_view};
ghost use Rattle.dwc_expr.specs.Jumps.{pad_in, pad_here, FindsPads, KnowsPads};
ghost use Rattle.dwc_expr.specs.RangeSettings.{setting_on};
ghost use Rattle.dwc_expr.specs.WholeParts.{JumpsLand};

use crate::CompiledExpressionPart;
use crate::build::bytes::put_part;
use crate::build::parts_to_build::{PartsToBuild, has_jump};
use crate::build::setting::RangeSetting;
use dwc_isa::TargetIsa;
use dwc_unit::Expression;
use std::alloc::{AllocError, Global};
use std::collections::BTreeMap;

// Where the landing pads of parts lie in their bytes, by the places of the input.
#[derive(Drop)]
pub(crate) struct Pads {
    offsets: BTreeMap<u64, usize>,
}

// The landing pads of parts whose jumps all land. Where no part jumps none is looked for, and no memory is taken.
pub(crate) fn pads_of(
    alloc: Global,
    parts: &PartsToBuild<'_>,
    setting: &RangeSetting<'_>,
    isa: &dyn TargetIsa,
) -> Result<Pads, AllocError>
    requires lands { JumpsLand (map part_view parts.now.parts.now) }
    requires places { HasPlaces (labels_needed parts.now) setting.now.range.now }
    ensures { IfOk result (KnowsPads (setting_on setting.now (dwarf_registers isa.now)) (all_parts parts.now) (map part_view parts.now.parts.now)) }
{
    if !has_jump(parts.parts) {
        return Ok(Pads {
            offsets: BTreeMap::new(alloc),
        });
    }
    find_pads(alloc, parts, setting, isa)
}

// Builds the parts, with jumps that go nowhere, to find the pads. A jump's length does not hang on its distance.
fn find_pads(
    alloc: Global,
    parts: &PartsToBuild<'_>,
    setting: &RangeSetting<'_>,
    isa: &dyn TargetIsa,
) -> Result<Pads, AllocError>
    requires { HasPlaces (labels_needed parts.now) setting.now.range.now }
    ensures { IfOk result (FindsPads (setting_on setting.now (dwarf_registers isa.now)) (all_parts parts.now) (map part_view parts.now.parts.now)) }
{
    let mut bytes = Expression::new(alloc);
    let mut offsets = BTreeMap::new(alloc);
    for part in parts.parts {
        note_pad(&mut offsets, part, bytes.len())?;
        put_part(&mut bytes, part, 0, setting, isa)?;
    }
    Ok(Pads { offsets })
}

// Notes where a part lies, if it is the first landing pad of a place.
fn note_pad(
    offsets: &mut BTreeMap<u64, usize>,
    part: &CompiledExpressionPart,
    offset: usize,
) -> Result<(), AllocError>
    ensures { OnOk result ((place : ℕ) → get nat_cmp offsets.new place ≡ option_or (get nat_cmp offsets.old place) (pad_here (part_view part.now) offset place)) }
{
    if let CompiledExpressionPart::LandingPad(place) = part
        && !offsets.contains_key(place)
    {
        offsets.insert(*place, offset)?;
    }
    Ok(())
}

impl Pads {
    // Where in the bytes the landing pad of a place lies, which is known.
    pub(crate) fn offset_of(&self, place: u64) -> usize
        requires { IsSome (pad_in self.now place) }
        ensures { pad_in self.now place ≡ Some result }
    {
        match self.offsets.get(&place) {
            Some(offset) => *offset,
            None => unreachable!(),
        }
    }
}
