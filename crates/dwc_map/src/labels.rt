//! Where the values of a function lie, as a map file tells it.
ghost use Rattle.std.specs.Prelude.{◌≡◌, map, option_map, IfOk};
ghost use Rattle.std.specs.FinMap as finite;
ghost use Rattle.serde_json.specs.View.{view, items_view};
ghost use Rattle.dwc_isa.specs.ValueLabels.{place_view, range_view};
ghost use Rattle.dwc_map.specs.MapFile.{place_of, label_range_of, labels_of};
ghost use Rattle.dwc_map.specs.MapValues.{u32_of, pair_of, all_items, list_of, table_in, value_or};
ghost use Rattle.dwc_map.specs.MapViews.{label_view};

use crate::json_fields::{four, items, pair, plain_text, signed_number, whole_number};
use dwc_isa::{LabelValueLoc, Reg, ValueLabel, ValueLabelsRanges, ValueLocRange};
use serde_json::Value;
use std::alloc::{AllocError, Global};

/// The ranges of each label of a table, in which no label stands twice; none where nothing is told.
pub(crate) fn read_labels(
    alloc: Global,
    value: Option<&Value>,
) -> Result<Option<ValueLabelsRanges>, AllocError>
    ensures { IfOk result (λ o. o ≡ value_or finite.empty labels_of (option_map (λ v. view v.now) value.entry)) }
{
    match value {
        Some(table) => read_table(alloc, table),
        None => Ok(Some(ValueLabelsRanges::new(alloc))),
    }
}

#[tactic(auto, using(crate::proofs::MapKinds::table_of_items), unfolding(crate::specs::MapFile::labels_of))]
fn read_table(alloc: Global, value: &Value) -> Result<Option<ValueLabelsRanges>, AllocError>
    ensures { IfOk result (λ o. o ≡ labels_of (view value.now)) }
{
    let Some(values) = items(value) else {
        return Ok(None);
    };
    labels_in(alloc, values)
}

// The ranges of labels. The table is read from its end.
fn labels_in(alloc: Global, values: &[Value]) -> Result<Option<ValueLabelsRanges>, AllocError>
    ensures { IfOk result (λ o. o ≡ table_in (list_of label_range_of) (items_view values.now)) }
{
    let mut labels = ValueLabelsRanges::new(alloc);
    let mut k = values.len();
    while k > 0 {
        k -= 1;
        let Some((label, ranges)) = read_label(alloc, &values[k])? else {
            return Ok(None);
        };
        if labels.get(label).is_some() {
            return Ok(None);
        }
        labels.insert(label, ranges)?;
    }
    Ok(Some(labels))
}

// A pair of a label and its ranges.
#[tactic(auto, using(crate::proofs::MapKinds::pair_of_parts, crate::proofs::MapKinds::list_of_items))]
fn read_label(
    alloc: Global,
    value: &Value,
) -> Result<Option<(ValueLabel, Vec<ValueLocRange>)>, AllocError>
    ensures { IfOk result (λ o. option_map label_view o ≡ pair_of u32_of (list_of label_range_of) (view value.now)) }
{
    let Some((label, ranges)) = pair(value) else {
        return Ok(None);
    };
    let Some(label) = whole_number(label) else {
        return Ok(None);
    };
    let Some(values) = items(ranges) else {
        return Ok(None);
    };
    let Some(ranges) = read_ranges(alloc, values)? else {
        return Ok(None);
    };
    Ok(Some((ValueLabel(label), ranges)))
}

fn read_ranges(alloc: Global, values: &[Value]) -> Result<Option<Vec<ValueLocRange>>, AllocError>
    ensures { IfOk result (λ o. option_map (λ v. map range_view v.items) o ≡ all_items label_range_of (items_view values.now)) }
{
    let mut ranges = Vec::with_capacity(alloc, values.len())?;
    for value in values {
        let Some(range) = read_range(value) else {
            return Ok(None);
        };
        ranges.push(range)?;
    }
    Ok(Some(ranges))
}

// A start, an end, and a place by its name.
#[tactic(auto, unfolding(crate::specs::MapFile::label_range_of))]
fn read_range(value: &Value) -> Option<ValueLocRange>
    ensures { option_map range_view result ≡ label_range_of (view value.now) }
{
    let (start, end, name, place) = four(value)?;
    let start = whole_number(start)?;
    let end = whole_number(end)?;
    let loc = read_place(name, place)?;
    Some(ValueLocRange { loc, start, end })
}

fn read_place(name: &Value, value: &Value) -> Option<LabelValueLoc>
    ensures { option_map place_view result ≡ place_of (view name.now) (view value.now) }
{
    match plain_text(name)? {
        "reg" => Some(LabelValueLoc::Reg(Reg(whole_number(value)?))),
        "cfa" => Some(LabelValueLoc::CFAOffset(signed_number(value)?)),
        _ => None,
    }
}
