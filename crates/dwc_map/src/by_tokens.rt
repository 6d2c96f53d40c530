//! A map file by the tokens of its text: no value is made of the entries, the labels and the frames of its functions, which are most of it. A
//! map is read so where its numbers are whole, those of fields that nobody knows too, and where each frame has its two fields in their usual
//! order; any other, and what is no map, is left to the plain way.
ghost use Rattle.std.specs.Prelude.{◌≡◌, ◌<◌, ◌-◌, ◌^◌, ℕ, map, codes, length, option_map, Some, IfOk, OnOk};
ghost use Rattle.serde_json.specs.View.{members_view};
ghost use Rattle.dwc_compiled.specs.Gaps.{entry_view};
ghost use Rattle.dwc_isa.specs.CallFrames.{description_view};
ghost use Rattle.dwc_map.specs.ByTokens.{IsNumber, IsSource, Puts, Tells, TellsFunction, TellsItems, TellsMembers};
ghost use Rattle.dwc_map.specs.MapFile.{entries_of, functions_of, map_function_of, map_in, map_in_bytes, map_module_of, modules_of};
ghost use Rattle.dwc_map.specs.MapValues.{pair_of, source_of, u32_of};
ghost use Rattle.dwc_map.specs.MapViews.{function_view, map_file_view, module_view, told_beside, due_beside, AreConsistent, ModulesAreConsistent};

use crate::frames_by_tokens::read_frame;
use crate::function::function_with;
use crate::labels_by_tokens::read_labels;
use crate::map_file::{MapFile, MapModule, map_from};
use crate::module::module_from;
use crate::stop::Stop;
use crate::token_parts::{begin_list, begin_object, end_list, number_in, read_number};
use crate::tokens::{put_value, read_value};
use dwc_base::{FilePos, SymbolId};
use dwc_compiled::{CompiledFunctionMetadata, InstructionAddressMap, InstructionMaps};
use dwc_isa::{CfaUnwindInfo, ValueLabelsRanges};
use json::{Reader, Scratch, Token};
use serde_json::{Map, Value};
use std::alloc::Global;

// How deep the lists and objects of a map may nest.
const DEPTH: usize = 127;

// Takes the offset of a source, or null for no source.
fn read_source(reader: &mut Reader<'_>) -> Result<FilePos, Stop>
    ensures { IfOk result (λ p. IsSource reader.old p reader.new) }
{
    match reader.next() {
        Some(Token::Null) => Ok(FilePos::default()),
        Some(Token::Number(text)) => source_in(text),
        _ => Err(Stop::Unusual),
    }
}

// The offset of a source, below 2^32 - 1, that a text writes.
fn source_in(text: &str) -> Result<FilePos, Stop>
    ensures { IfOk result (λ p. (n : ℕ) × (p ≡ Some n) × IsNumber text.now n × (n < 2 ^ 32 - 1)) }
{
    let offset = number_in(text)?;
    if offset == u32::MAX {
        return Err(Stop::Unusual);
    }
    Ok(FilePos::new(offset))
}

// A pair of a code offset and the source of the code from there on.
fn read_entry(reader: &mut Reader<'_>, depth: usize) -> Result<InstructionAddressMap, Stop>
    requires { 0 < depth }
    ensures told { IfOk result (λ e. Tells depth (pair_of u32_of source_of) reader.old (entry_view e) reader.new) }
    ensures shorter { OnOk result (length reader.new < length reader.old) }
{
    begin_list(reader)?;
    let code_offset = read_number(reader)?;
    let srcloc = read_source(reader)?;
    end_list(reader)?;
    Ok(InstructionAddressMap {
        srcloc,
        code_offset,
    })
}

// The entries of a function. They are read into room that is used again for each function.
fn read_entries(
    alloc: Global,
    reader: &mut Reader<'_>,
    depth: usize,
    room: &mut InstructionMaps,
) -> Result<InstructionMaps, Stop>
    requires { 1 < depth }
    ensures told { IfOk result (λ es. Tells depth entries_of reader.old es reader.new) }
    ensures shorter { OnOk result (length reader.new < length reader.old) }
{
    begin_list(reader)?;
    entries_inside(alloc, reader, depth - 1, room)
}

// The entries of a function, behind the bracket that opens their list.
fn entries_inside(
    alloc: Global,
    reader: &mut Reader<'_>,
    depth: usize,
    room: &mut InstructionMaps,
) -> Result<InstructionMaps, Stop>
    requires { 0 < depth }
    ensures told { IfOk result (λ es. TellsItems depth (pair_of u32_of source_of) reader.old es reader.new) }
    ensures shorter { OnOk result (length reader.new < length reader.old) }
{
    room.clear();
    'items: while !reader.take_end_array() {
        let entry = read_entry(reader, depth)?;
        room.push(entry)?;
    }
    Ok(room.compact(alloc)?)
}

// Reads the value of a field and puts it among others.
fn read_field(
    alloc: Global,
    reader: &mut Reader<'_>,
    depth: usize,
    name: &str,
    fields: &mut Map<String, Value>,
) -> Result<(), Stop>
    ensures puts { OnOk result (Puts depth name.now reader.old (members_view fields.old.entries) (members_view fields.new.entries) reader.new) }
    ensures shorter { OnOk result (length reader.new < length reader.old) }
{
    let field = read_value(alloc, reader, depth)?;
    put_value(alloc, fields, name, field)
}

// What is read of a function: its entries, labels and frame, and its other fields.
#[derive(Drop)]
struct FunctionParts {
    fields: Map<String, Value>,
    entries: InstructionMaps,
    labels: ValueLabelsRanges,
    frame: Option<CfaUnwindInfo>,
}

// The parts of a function, behind the brace that opens it.
fn function_members(
    alloc: Global,
    reader: &mut Reader<'_>,
    depth: usize,
    room: &mut InstructionMaps,
) -> Result<FunctionParts, Stop>
    requires { 3 < depth }
    ensures told { IfOk result (λ p. TellsFunction depth reader.old (members_view p.fields.entries) p.entries p.labels (option_map description_view p.frame) reader.new) }
    ensures shorter { OnOk result (length reader.new < length reader.old) }
{
    let mut fields = Map::new(alloc);
    let mut entries = None;
    let mut labels = ValueLabelsRanges::new(alloc);
    let mut frame = None;
    'members: while let Some(name) = reader.next_key()? {
        match name {
            "map" => entries = Some(read_entries(alloc, reader, depth, room)?),
            "labels" => labels = read_labels(alloc, reader, depth)?,
            "frame" => frame = read_frame(alloc, reader, depth)?,
            _ => read_field(alloc, reader, depth, name, &mut fields)?,
        }
    }
    match entries {
        Some(entries) => Ok(FunctionParts {
            fields,
            entries,
            labels,
            frame,
        }),
        None => Err(Stop::Unusual),
    }
}

fn read_function(
    alloc: Global,
    reader: &mut Reader<'_>,
    depth: usize,
    room: &mut InstructionMaps,
) -> Result<(Option<SymbolId>, CompiledFunctionMetadata), Stop>
    requires { 4 < depth }
    ensures told { IfOk result (λ f. Tells depth map_function_of reader.old (function_view f) reader.new) }
    ensures records { IfOk result (λ f. told_beside f ≡ due_beside f) }
    ensures shorter { OnOk result (length reader.new < length reader.old) }
{
    begin_object(reader)?;
    let FunctionParts {
        fields,
        entries,
        labels,
        frame,
    } = function_members(alloc, reader, depth - 1, room)?;
    match function_with(&fields, entries, labels, frame) {
        Some(function) => Ok(function),
        None => Err(Stop::Unusual),
    }
}

fn read_functions(
    alloc: Global,
    reader: &mut Reader<'_>,
    depth: usize,
    room: &mut InstructionMaps,
) -> Result<Vec<(Option<SymbolId>, CompiledFunctionMetadata)>, Stop>
    requires { 5 < depth }
    ensures told { IfOk result (λ fs. Tells depth functions_of reader.old (map function_view fs.items) reader.new) }
    ensures records { IfOk result (λ fs. AreConsistent fs.items) }
    ensures shorter { OnOk result (length reader.new < length reader.old) }
{
    begin_list(reader)?;
    functions_inside(alloc, reader, depth - 1, room)
}

// The functions of a module, behind the bracket that opens their list.
fn functions_inside(
    alloc: Global,
    reader: &mut Reader<'_>,
    depth: usize,
    room: &mut InstructionMaps,
) -> Result<Vec<(Option<SymbolId>, CompiledFunctionMetadata)>, Stop>
    requires { 4 < depth }
    ensures told { IfOk result (λ fs. TellsItems depth map_function_of reader.old (map function_view fs.items) reader.new) }
    ensures records { IfOk result (λ fs. AreConsistent fs.items) }
    ensures shorter { OnOk result (length reader.new < length reader.old) }
{
    let mut functions = Vec::new(alloc);
    'items: while !reader.take_end_array() {
        let function = read_function(alloc, reader, depth, room)?;
        functions.push(function)?;
    }
    Ok(functions)
}

// The functions of a module and its other fields, behind the brace that opens it.
fn module_members(
    alloc: Global,
    reader: &mut Reader<'_>,
    depth: usize,
    room: &mut InstructionMaps,
) -> Result<
    (
        Map<String, Value>,
        Vec<(Option<SymbolId>, CompiledFunctionMetadata)>,
    ),
    Stop,
>
    requires { 5 < depth }
    ensures told { IfOk result (λ r. TellsMembers depth (codes "functions") functions_of reader.old (members_view r.0.entries) (map function_view r.1.items) reader.new) }
    ensures records { IfOk result (λ r. AreConsistent r.1.items) }
    ensures shorter { OnOk result (length reader.new < length reader.old) }
{
    let mut fields = Map::new(alloc);
    let mut functions = None;
    'members: while let Some(name) = reader.next_key()? {
        if name == "functions" {
            functions = Some(read_functions(alloc, reader, depth, room)?);
        } else {
            read_field(alloc, reader, depth, name, &mut fields)?;
        }
    }
    match functions {
        Some(functions) => Ok((fields, functions)),
        None => Err(Stop::Unusual),
    }
}

fn read_module(
    alloc: Global,
    reader: &mut Reader<'_>,
    depth: usize,
    room: &mut InstructionMaps,
) -> Result<MapModule, Stop>
    requires { 6 < depth }
    ensures told { IfOk result (λ m. Tells depth map_module_of reader.old (module_view m) reader.new) }
    ensures records { IfOk result (λ m. AreConsistent m.functions.items) }
    ensures shorter { OnOk result (length reader.new < length reader.old) }
{
    begin_object(reader)?;
    let (fields, functions) = module_members(alloc, reader, depth - 1, room)?;
    match module_from(alloc, &fields, functions)? {
        Some(module) => Ok(module),
        None => Err(Stop::Unusual),
    }
}

fn read_modules(
    alloc: Global,
    reader: &mut Reader<'_>,
    depth: usize,
    room: &mut InstructionMaps,
) -> Result<Vec<MapModule>, Stop>
    requires { 7 < depth }
    ensures told { IfOk result (λ ms. Tells depth modules_of reader.old (map module_view ms.items) reader.new) }
    ensures records { IfOk result (λ ms. ModulesAreConsistent ms.items) }
    ensures shorter { OnOk result (length reader.new < length reader.old) }
{
    begin_list(reader)?;
    modules_inside(alloc, reader, depth - 1, room)
}

// The modules of a map, behind the bracket that opens their list.
fn modules_inside(
    alloc: Global,
    reader: &mut Reader<'_>,
    depth: usize,
    room: &mut InstructionMaps,
) -> Result<Vec<MapModule>, Stop>
    requires { 6 < depth }
    ensures told { IfOk result (λ ms. TellsItems depth map_module_of reader.old (map module_view ms.items) reader.new) }
    ensures records { IfOk result (λ ms. ModulesAreConsistent ms.items) }
    ensures shorter { OnOk result (length reader.new < length reader.old) }
{
    let mut modules = Vec::new(alloc);
    'items: while !reader.take_end_array() {
        let module = read_module(alloc, reader, depth, room)?;
        modules.push(module)?;
    }
    Ok(modules)
}

// The modules of a map and its other fields, behind the brace that opens it.
fn map_members(
    alloc: Global,
    reader: &mut Reader<'_>,
    depth: usize,
    room: &mut InstructionMaps,
) -> Result<(Map<String, Value>, Vec<MapModule>), Stop>
    requires { 7 < depth }
    ensures told { IfOk result (λ r. TellsMembers depth (codes "modules") modules_of reader.old (members_view r.0.entries) (map module_view r.1.items) reader.new) }
    ensures records { IfOk result (λ r. ModulesAreConsistent r.1.items) }
    ensures shorter { OnOk result (length reader.new < length reader.old) }
{
    let mut fields = Map::new(alloc);
    let mut modules = None;
    'members: while let Some(name) = reader.next_key()? {
        if name == "modules" {
            modules = Some(read_modules(alloc, reader, depth, room)?);
        } else {
            read_field(alloc, reader, depth, name, &mut fields)?;
        }
    }
    match modules {
        Some(modules) => Ok((fields, modules)),
        None => Err(Stop::Unusual),
    }
}

fn read_map(
    alloc: Global,
    reader: &mut Reader<'_>,
    depth: usize,
    room: &mut InstructionMaps,
) -> Result<MapFile, Stop>
    requires { 8 < depth }
    ensures told { IfOk result (λ m. Tells depth map_in reader.old (map_file_view m) reader.new) }
    ensures records { IfOk result (λ m. ModulesAreConsistent m.modules.items) }
{
    begin_object(reader)?;
    let (fields, modules) = map_members(alloc, reader, depth - 1, room)?;
    match map_from(alloc, &fields, modules)? {
        Some(map) => Ok(map),
        None => Err(Stop::Unusual),
    }
}

/// The map that some bytes are, read token by token.
pub(crate) fn map_by_tokens(alloc: Global, bytes: &[u8]) -> Result<MapFile, Stop>
    ensures told { IfOk result (λ m. map_in_bytes bytes.now ≡ Some (map_file_view m)) }
    ensures records { IfOk result (λ m. ModulesAreConsistent m.modules.items) }
{
    let Ok(text) = str::from_utf8(bytes) else {
        return Err(Stop::Unusual);
    };
    let mut scratch = Scratch::new(alloc);
    let mut reader = Reader::new(text, &mut scratch)?;
    let mut room = InstructionMaps::new(alloc);
    let map = read_map(alloc, &mut reader, DEPTH, &mut room)?;
    if reader.next().is_some() {
        return Err(Stop::Unusual);
    }
    Ok(map)
}
