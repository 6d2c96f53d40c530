//! What is in force at an entry. (DWARF 4 and 5, sections 2.6 and 3.3.5.)
ghost use Rattle.dwc_dwarf.specs.Lists.{list_source};
ghost use Rattle.dwc_rules.specs.Clones.{UnitSource};
ghost use Rattle.dwc_rules.specs.Kept.{Placed};
ghost use Rattle.dwc_rules.specs.LocationRules.{frame_at};
ghost use Rattle.dwc_isa.specs.Registers.{Registers};
ghost use Rattle.dwc_expr.specs.Frames.{frame_view};
ghost use Rattle.dwc_source.specs.declared.source.CloneSource.{CloneSource};
ghost use Rattle.dwc_extents.specs.CodeSources.{IsInForce, source_with};
ghost use Rattle.dwc_source.specs.CompiledModules.{HasFrames};
ghost use Rattle.dwc_extents.specs.Lineages.{AreInForce};
ghost use Rattle.std.specs.Prelude.{◌≡◌, ◌==◌, None, if◌then◌else◌, option_map};
ghost use Rattle.dwc_base.specs.declared.constants.TheConstants.{DW_AT_frame_base as frame_base};

use crate::lineage::Lineage;
use dwc_base::constants::DW_AT_frame_base;
use dwc_expr::{CompiledExpression, FunctionFrameInfo};
use dwc_source::CloneSource;

/// What is in force at an entry, each of the nearest of it and its ancestors that gives one.
#[derive(Clone, Copy)]
pub struct InForce<'f> {
    /// The intervals of wasm offsets that are covered.
    pub scope: Option<&'f [(u64, u64)]>,
    /// What the function tells in whose frame expressions are evaluated.
    pub frame: Option<&'f FunctionFrameInfo<'f>>,
    /// The frame base.
    pub base: Option<&'f CompiledExpression>,
}

/// The frame base on which the expression of an attribute of a name is read: that of a frame base is read without one.
pub(crate) fn base_for<'f>(name: u16, in_force: &InForce<'f>) -> Option<&'f CompiledExpression>
    ensures { option_map (λ x. x.now) result ≡ (if name == frame_base then None else option_map (λ x. x.now) in_force.now.base) }
{
    if name == DW_AT_frame_base {
        None
    } else {
        in_force.base
    }
}

/// What the function tells to expressions whose frame is in force.
pub fn frame_in_force<'c>(
    source: &CloneSource<'c, '_>,
    lineage: &Lineage,
) -> Option<FunctionFrameInfo<'c>>
    ensures { (registers : Registers) (s : UnitSource) (e : Placed) → HasFrames source.now.module source.now.transform.now → AreInForce (list_source source.now.unit.now.sections source.now.unit.now.header) source.now.transform.now s.entries e lineage.now → frame_view result ≡ frame_at (source_with registers source.now s) e }
{
    source.module.frame(lineage.frame()?)
}

/// What is in force at the last entry, with what the function tells whose frame is.
pub fn in_force_by<'f>(
    lineage: &'f Lineage,
    frame: Option<&'f FunctionFrameInfo<'f>>,
) -> InForce<'f>
    ensures { (registers : Registers) (source : CloneSource) (s : UnitSource) (e : Placed) → AreInForce (list_source source.unit.now.sections source.unit.now.header) source.transform.now s.entries e lineage.now → frame_view (option_map (λ x. x.now) frame.entry) ≡ frame_at (source_with registers source s) e → IsInForce registers source s e result }
{
    InForce {
        scope: lineage.scope(),
        frame,
        base: lineage.base(),
    }
}
