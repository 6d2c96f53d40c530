//! The functions of a map file: each with its symbol, address map, labels and frame.
ghost use Rattle.std.specs.Prelude.{ℕ, List, Option, ◌≡◌, map, option_map, option_and_then, IfOk, IfSome};
ghost use Rattle.serde_json.specs.View.{view, items_view, members_view};
ghost use Rattle.dwc_native.specs.CallFrames.{FrameDescription};
ghost use Rattle.dwc_compiled.specs.Gaps.{entry_view};
ghost use Rattle.dwc_isa.specs.CallFrames.{description_view};
ghost use Rattle.dwc_isa.specs.ValueLabels.{LabelledRanges};
ghost use Rattle.dwc_map.specs.MapFile.{function_by, function_in, map_function_of};
ghost use Rattle.dwc_map.specs.MapValues.{u32_of, source_of, pair_of, all_items};
ghost use Rattle.dwc_map.specs.MapViews.{function_told, function_with, function_view, told_beside, due_beside, AreConsistent, IsPlace};

use crate::frames::read_frame;
use crate::json_fields::{
    items, member, members, pair, place_at, source, source_offset, symbol, whole_number,
};
use crate::labels::read_labels;
use dwc_base::SymbolId;
use dwc_compiled::{
    CompiledFunctionMetadata, FunctionAddressMap, InstructionAddressMap, InstructionMaps,
};
use dwc_isa::{CfaUnwindInfo, ValueLabelsRanges};
use serde_json::{Map, Value};
use std::alloc::{AllocError, Global};

// The fields of a function beside its entries, the values of its labels and of its frame not yet read.
#[derive(Clone, Copy)]
struct FunctionFields<'v> {
    symbol: Option<SymbolId>,
    start: Option<u32>,
    end: Option<u32>,
    body_offset: u32,
    body_len: u32,
    labels: Option<&'v Value>,
    frame: Option<&'v Value>,
}

fn function_fields(fields: &Map<String, Value>) -> Option<FunctionFields<'_>>
    ensures whole { (entries : List (ℕ × Option ℕ)) → function_in entries (members_view fields.now.entries) ≡ option_and_then (function_with entries) result }
    ensures others { (entries : List (ℕ × Option ℕ)) → (labels : LabelledRanges) → (frame : Option FrameDescription) → function_by entries labels frame (members_view fields.now.entries) ≡ option_map (function_told entries labels frame) result }
    ensures places { IfSome result (λ f. IsPlace f.start × IsPlace f.end) }
{
    let symbol = symbol(member(fields, "symbol")?)?;
    let start = source_offset(member(fields, "start")?)?;
    let end = source_offset(member(fields, "end")?)?;
    let body_offset = match member(fields, "body_offset") {
        Some(field) => whole_number(field)?,
        None => 0,
    };
    let body_len = whole_number(member(fields, "body_len")?)?;
    Some(FunctionFields {
        symbol,
        start,
        end,
        body_offset,
        body_len,
        labels: member(fields, "labels"),
        frame: member(fields, "frame"),
    })
}

// A function by its fields.
fn function_of(
    fields: &FunctionFields<'_>,
    instructions: InstructionMaps,
    value_labels_ranges: ValueLabelsRanges,
    cfa_unwind_info: Option<CfaUnwindInfo>,
) -> (Option<SymbolId>, CompiledFunctionMetadata)
    requires start { IsPlace fields.now.start }
    requires end { IsPlace fields.now.end }
    ensures value { function_view result ≡ function_told instructions value_labels_ranges (option_map description_view cfa_unwind_info) fields.now }
    ensures records { told_beside result ≡ due_beside result }
{
    let start = place_at(fields.start);
    let end = place_at(fields.end);
    let address_map = FunctionAddressMap {
        instructions,
        start_srcloc: start,
        end_srcloc: end,
        body_offset: fields.body_offset as usize,
        body_len: fields.body_len,
    };
    let metadata = CompiledFunctionMetadata {
        address_map,
        value_labels_ranges,
        unwind_info: None,
        cfa_unwind_info,
        start_srcloc: start,
        end_srcloc: end,
    };
    (fields.symbol, metadata)
}

/// A function with these entries, labels and frame, by the other fields of its object; None where one is missing or of the wrong kind.
pub(crate) fn function_with(
    fields: &Map<String, Value>,
    instructions: InstructionMaps,
    labels: ValueLabelsRanges,
    frame: Option<CfaUnwindInfo>,
) -> Option<(Option<SymbolId>, CompiledFunctionMetadata)>
    ensures value { option_map function_view result ≡ function_by instructions labels (option_map description_view frame) (members_view fields.now.entries) }
    ensures records { IfSome result (λ f. told_beside f ≡ due_beside f) }
{
    let fields = function_fields(fields)?;
    Some(function_of(&fields, instructions, labels, frame))
}

// A function with these entries, by the other fields of its object; None where one is missing or of the wrong kind.
fn function_from(
    alloc: Global,
    fields: &Map<String, Value>,
    instructions: InstructionMaps,
) -> Result<Option<(Option<SymbolId>, CompiledFunctionMetadata)>, AllocError>
    ensures value { IfOk result (λ o. option_map function_view o ≡ function_in instructions (members_view fields.now.entries)) }
    ensures records { IfOk result (λ o. IfSome o (λ f. told_beside f ≡ due_beside f)) }
{
    let Some(fields) = function_fields(fields) else {
        return Ok(None);
    };
    let Some(labels) = read_labels(alloc, fields.labels)? else {
        return Ok(None);
    };
    let Some(frame) = read_frame(alloc, fields.frame)? else {
        return Ok(None);
    };
    Ok(Some(function_of(&fields, instructions, labels, frame)))
}

// A pair of a code offset and the source of the code from there on.
#[tactic(auto, using(crate::proofs::MapKinds::pair_of_parts))]
fn read_entry(value: &Value) -> Option<InstructionAddressMap>
    ensures { option_map entry_view result ≡ pair_of u32_of source_of (view value.now) }
{
    let (code_offset, srcloc) = pair(value)?;
    let code_offset = whole_number(code_offset)?;
    let srcloc = source(srcloc)?;
    Some(InstructionAddressMap {
        srcloc,
        code_offset,
    })
}

fn read_entries(alloc: Global, values: &[Value]) -> Result<Option<InstructionMaps>, AllocError>
    ensures { IfOk result (λ o. o
        ≡ all_items (pair_of u32_of source_of) (items_view values.now)) }
{
    let mut entries = InstructionMaps::new(alloc);
    for value in values {
        let Some(entry) = read_entry(value) else {
            return Ok(None);
        };
        entries.push(entry)?;
    }
    Ok(Some(entries))
}

#[tactic(auto, using(crate::proofs::MapKinds::list_of_items), unfolding(crate::specs::MapFile::map_function_of))]
fn read_function(
    alloc: Global,
    value: &Value,
) -> Result<Option<(Option<SymbolId>, CompiledFunctionMetadata)>, AllocError>
    ensures value { IfOk result (λ o. option_map function_view o ≡ map_function_of (view value.now)) }
    ensures records { IfOk result (λ o. IfSome o (λ f. told_beside f ≡ due_beside f)) }
{
    let Some(fields) = members(value) else {
        return Ok(None);
    };
    let Some(values) = member(fields, "map").and_then(items) else {
        return Ok(None);
    };
    let Some(entries) = read_entries(alloc, values)? else {
        return Ok(None);
    };
    function_from(alloc, fields, entries)
}

/// Functions in order, by their values; None where one is of the wrong kind.
pub(crate) fn read_functions(
    alloc: Global,
    values: &[Value],
) -> Result<Option<Vec<(Option<SymbolId>, CompiledFunctionMetadata)>>, AllocError>
    ensures value { IfOk result (λ o. option_map (λ v. map function_view v.items) o
        ≡ all_items map_function_of (items_view values.now)) }
    ensures records { IfOk result (λ o. IfSome o (λ v. AreConsistent v.items)) }
{
    let mut functions = Vec::with_capacity(alloc, values.len())?;
    for value in values {
        let Some(function) = read_function(alloc, value)? else {
            return Ok(None);
        };
        functions.push(function)?;
    }
    Ok(Some(functions))
}
