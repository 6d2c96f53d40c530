//! Expressions on the ranges of native code on which their values have places.
ghost use Rattle.std.specs.Prelude.{◌≡◌, All, map};
ghost use Rattle.dwc_addr.specs.Translations.{with_length};
ghost use Rattle.dwc_isa.specs.ToldModules.{memory_view};
ghost use Rattle.dwc_expr.specs.Jumps.{KnowsPads, PutsParts};
ghost use Rattle.dwc_expr.specs.LabelRanges.{HasPlaces};
ghost use Rattle.dwc_expr.specs.PartsToBuild.{all_parts, labels_needed};
ghost use Rattle.dwc_expr.specs.PartViews.{part_view};
ghost use Rattle.dwc_expr.specs.RangeExpressions.{BuildsOne, BuildsEach, IsLowRange};
ghost use Rattle.dwc_expr.specs.RangeSettings.{setting_on};
ghost use Rattle.dwc_expr.specs.WholeParts.{JumpsLand};

use crate::build::bytes::{put_dereference_if, put_part};
use crate::build::jumps::jump_distance;
use crate::build::pads::{Pads, pads_of};
use crate::build::parts_to_build::PartsToBuild;
use crate::build::setting::RangeSetting;
use crate::{CachedValueLabelRange, ExprError};
use dwc_base::Address;
use dwc_isa::{ModuleMemoryOffset, TargetIsa};
use dwc_unit::Expression;
use std::alloc::Global;

// The expression of parts on each of some ranges, in order. Each jump of the parts lands, and each range has the places that they need.
pub(crate) fn expressions_on(
    alloc: Global,
    parts: &PartsToBuild<'_>,
    ranges: &[CachedValueLabelRange],
    memory: ModuleMemoryOffset,
    isa: &dyn TargetIsa,
) -> Result<Vec<(Address, u64, Expression)>, ExprError>
    requires low { All IsLowRange ranges.now }
    requires lands { JumpsLand (map part_view parts.now.parts.now) }
    requires places { All (HasPlaces (labels_needed parts.now)) ranges.now }
    ensures { BuildsEach (all_parts parts.now) (dwarf_registers isa.now) (memory_view memory) ranges.now result }
{
    let mut expressions = Vec::with_capacity(alloc, ranges.len())?;
    for range in ranges {
        let setting = RangeSetting { range, memory };
        let expression = expression_on(alloc, parts, &setting, isa)?;
        let (begin, length) = extent(range);
        expressions.push((begin, length, expression))?;
    }
    Ok(expressions)
}

// Where a range begins, and how many bytes it has.
fn extent(range: &CachedValueLabelRange) -> (Address, u64)
    requires { IsLowRange range.now }
    ensures { result ≡ with_length range.now.func_index (range.now.start, range.now.end) }
{
    let begin = Address::Symbol {
        symbol: range.func_index,
        addend: range.start as i64,
    };
    (begin, (range.end - range.start) as u64)
}

// The expression of parts on a range.
fn expression_on(
    alloc: Global,
    parts: &PartsToBuild<'_>,
    setting: &RangeSetting<'_>,
    isa: &dyn TargetIsa,
) -> Result<Expression, ExprError>
    requires lands { JumpsLand (map part_view parts.now.parts.now) }
    requires places { HasPlaces (labels_needed parts.now) setting.now.range.now }
    ensures { BuildsOne (setting_on setting.now (dwarf_registers isa.now)) (all_parts parts.now) result }
{
    let pads = pads_of(alloc, parts, setting, isa)?;
    let mut expression = Expression::new(alloc);
    put_parts(&mut expression, parts, setting, isa, &pads)?;
    put_dereference_if(parts.then_dereference, &mut expression, setting, isa)?;
    Ok(expression)
}

// The parts one behind another. Each jump goes to where its landing pad lies.
fn put_parts(
    out: &mut Expression,
    parts: &PartsToBuild<'_>,
    setting: &RangeSetting<'_>,
    isa: &dyn TargetIsa,
    pads: &Pads,
) -> Result<(), ExprError>
    requires places { HasPlaces (labels_needed parts.now) setting.now.range.now }
    requires pads { KnowsPads (setting_on setting.now (dwarf_registers isa.now)) (all_parts parts.now) (map part_view parts.now.parts.now) pads.now }
    ensures { PutsParts (setting_on setting.now (dwarf_registers isa.now)) (all_parts parts.now) (map part_view parts.now.parts.now) out.old out.new result }
{
    for part in parts.parts {
        let distance = jump_distance(part, out.len(), pads)?;
        put_part(out, part, distance, setting, isa)?;
    }
    Ok(())
}
