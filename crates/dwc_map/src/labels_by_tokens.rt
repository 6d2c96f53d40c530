//! Where the values of a function lie, by the tokens of a map file.
ghost use Rattle.std.specs.Prelude.{◌≡◌, ◌<◌, ◌-◌, ℕ, map, length, IfOk, OnOk};
ghost use Rattle.dwc_isa.specs.ValueLabels.{place_view, range_view};
ghost use Rattle.dwc_map.specs.ByTokens.{Tells, TellsItems, TellsPlace, TellsTable};
ghost use Rattle.dwc_map.specs.MapFile.{label_range_of, labels_of};
ghost use Rattle.dwc_map.specs.MapValues.{list_of, pair_of, u32_of};
ghost use Rattle.dwc_map.specs.MapViews.{label_view};

use crate::stop::Stop;
use crate::token_parts::{begin_list, end_list, read_number, read_signed};
use dwc_isa::{LabelValueLoc, Reg, ValueLabel, ValueLabelsRanges, ValueLocRange};
use json::{Reader, Token};
use std::alloc::Global;

// A place: its name, and the number of a register or an offset.
fn read_place(reader: &mut Reader<'_>) -> Result<LabelValueLoc, Stop>
    ensures told { IfOk result (λ p. (depth : ℕ) → TellsPlace depth reader.old (place_view p) reader.new) }
    ensures shorter { OnOk result (length reader.new < length reader.old) }
{
    let Some(Token::String(name)) = reader.next() else {
        return Err(Stop::Unusual);
    };
    match name {
        "reg" => Ok(LabelValueLoc::Reg(Reg(read_number(reader)?))),
        "cfa" => Ok(LabelValueLoc::CFAOffset(read_signed(reader)?)),
        _ => Err(Stop::Unusual),
    }
}

// A start, an end, and a place.
fn read_range(reader: &mut Reader<'_>, depth: usize) -> Result<ValueLocRange, Stop>
    requires { 0 < depth }
    ensures told { IfOk result (λ r. Tells depth label_range_of reader.old (range_view r) reader.new) }
    ensures shorter { OnOk result (length reader.new < length reader.old) }
{
    begin_list(reader)?;
    let start = read_number(reader)?;
    let end = read_number(reader)?;
    let loc = read_place(reader)?;
    end_list(reader)?;
    Ok(ValueLocRange { loc, start, end })
}

// The ranges of a label, behind the bracket that opens their list.
fn ranges_inside(
    alloc: Global,
    reader: &mut Reader<'_>,
    depth: usize,
) -> Result<Vec<ValueLocRange>, Stop>
    requires { 0 < depth }
    ensures told { IfOk result (λ rs. TellsItems depth label_range_of reader.old (map range_view rs.items) reader.new) }
    ensures shorter { OnOk result (length reader.new < length reader.old) }
{
    let mut ranges = Vec::new(alloc);
    'items: while !reader.take_end_array() {
        let range = read_range(reader, depth)?;
        ranges.push(range)?;
    }
    Ok(ranges)
}

fn read_ranges(
    alloc: Global,
    reader: &mut Reader<'_>,
    depth: usize,
) -> Result<Vec<ValueLocRange>, Stop>
    requires { 1 < depth }
    ensures told { IfOk result (λ rs. Tells depth (list_of label_range_of) reader.old (map range_view rs.items) reader.new) }
    ensures shorter { OnOk result (length reader.new < length reader.old) }
{
    begin_list(reader)?;
    ranges_inside(alloc, reader, depth - 1)
}

// A pair of a label and its ranges.
fn read_label(
    alloc: Global,
    reader: &mut Reader<'_>,
    depth: usize,
) -> Result<(ValueLabel, Vec<ValueLocRange>), Stop>
    requires { 2 < depth }
    ensures told { IfOk result (λ l. Tells depth (pair_of u32_of (list_of label_range_of)) reader.old (label_view l) reader.new) }
    ensures shorter { OnOk result (length reader.new < length reader.old) }
{
    begin_list(reader)?;
    let label = read_number(reader)?;
    let ranges = read_ranges(alloc, reader, depth - 1)?;
    end_list(reader)?;
    Ok((ValueLabel(label), ranges))
}

// The ranges of each label, behind the bracket that opens their list.
fn labels_inside(
    alloc: Global,
    reader: &mut Reader<'_>,
    depth: usize,
) -> Result<ValueLabelsRanges, Stop>
    requires { 2 < depth }
    ensures told { IfOk result (λ t. TellsTable depth (list_of label_range_of) reader.old t reader.new) }
    ensures shorter { OnOk result (length reader.new < length reader.old) }
{
    let mut labels = ValueLabelsRanges::new(alloc);
    'items: while !reader.take_end_array() {
        let (label, ranges) = read_label(alloc, reader, depth)?;
        if labels.get(label).is_some() {
            return Err(Stop::Unusual);
        }
        labels.insert(label, ranges)?;
    }
    Ok(labels)
}

/// The ranges of each label of a table, in which no label stands twice.
pub(crate) fn read_labels(
    alloc: Global,
    reader: &mut Reader<'_>,
    depth: usize,
) -> Result<ValueLabelsRanges, Stop>
    requires { 3 < depth }
    ensures told { IfOk result (λ t. Tells depth labels_of reader.old t reader.new) }
    ensures shorter { OnOk result (length reader.new < length reader.old) }
{
    begin_list(reader)?;
    labels_inside(alloc, reader, depth - 1)
}
