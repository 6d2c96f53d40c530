//! The map file: what a code generator tells of the functions that it compiled, as a JSON object.
ghost use Rattle.std.specs.Prelude.{◌≡◌, codes, map, option_map, option_and_then, IfOk, IfSome, Some, None};
ghost use Rattle.dwc_base.specs.declared.records.OutputFor.TheVariants.{Default};
ghost use Rattle.serde_json.specs.View.{view, members_view};
ghost use Rattle.dwc_map.specs.MapFile.{output_of, target_of, map_in, map_for, map_in_bytes, map_of_bytes, map_with, have_counts, is_countable, IsMap, IsMapFor};
ghost use Rattle.dwc_map.specs.MapValues.{text_of, u32_of, pair_of, value_or, with_default};
ghost use Rattle.dwc_map.specs.MapViews.{target_with, target_view, names_view, module_view, map_file_view, ModulesAreConsistent};

use crate::by_tokens::map_by_tokens;
use crate::frames::read_cie;
use crate::json_fields::{
    architecture, items, member, members, output_for, pair, plain_text, pointer_bytes, version,
    whole_number,
};
use crate::module::read_modules;
use crate::registers::read_registers;
use crate::stop::Stop;
use dwc_base::{ModuleTranslation, OutputFor, SymbolId};
use dwc_compiled::CompiledFunctionMetadata;
use dwc_isa::{Architecture, Cie, ModuleMemoryOffset, Reg};
use serde_json::{Map, Value};
use std::alloc::{AllocError, Global};

// Modules, and functions over all modules, are numbered with 32 bits.
const COUNT_LIMIT: usize = 1 << 32;

/// What the code was compiled for.
#[derive(Drop)]
pub struct Target {
    pub arch: Architecture,
    /// Whether its numbers begin with their highest byte.
    pub big_endian: bool,
    /// How many bytes an address has: 4 or 8.
    pub pointer_bytes: u8,
    /// The version of DWARF that is written: 4 or 5.
    pub version: u16,
    /// Whom it is written for.
    pub output_for: OutputFor,
    /// Its registers, each once, with DWARF's numbers of them.
    pub registers: Vec<(Reg, u16)>,
    /// What its frames share, if this is told; it can be written.
    pub cie: Option<Cie>,
}

/// The names of the two functions that give access to a module's memory.
#[derive(Drop)]
pub struct Names {
    /// The one that sets the memory.
    pub set: String,
    /// The one that resolves an address in it.
    pub resolve: String,
}

/// A module.
#[derive(Drop)]
pub struct MapModule {
    /// Its functions in the order of the code section, each with its symbol, if it has one.
    pub functions: Vec<(Option<SymbolId>, CompiledFunctionMetadata)>,
    /// Where its memory is found.
    pub memory: ModuleMemoryOffset,
    /// The path of its file, if this is told.
    pub path: Option<String>,
}

/// The value of a map file, with the defaults of the fields that it leaves out.
#[derive(Drop)]
pub struct MapFile {
    pub target: Target,
    pub names: Names,
    /// The modules in the order of the program's words.
    pub modules: Vec<MapModule>,
    /// The number of the next name that is made up.
    pub next_id: u32,
}

// The fields of a target, the values of its registers and of its common information entry not yet read.
#[derive(Clone, Copy)]
struct TargetFields<'v> {
    arch: Architecture,
    big_endian: bool,
    pointer_bytes: u8,
    version: u16,
    output_for: OutputFor,
    registers: Option<&'v Value>,
    cie: Option<&'v Value>,
}

// Whom the output is for, by the members of a target.
fn told_output(fields: &Map<String, Value>) -> Option<OutputFor>
    ensures { result ≡ with_default (codes "debugger") Default output_of (members_view fields.now.entries) }
{
    match member(fields, "debugger") {
        Some(field) => output_for(field),
        None => Some(OutputFor::Default),
    }
}

#[tactic(auto, unfolding(crate::specs::MapFile::target_of))]
fn target_fields(value: &Value) -> Option<TargetFields<'_>>
    ensures { target_of (view value.now) ≡ option_and_then target_with result }
{
    let fields = members(value)?;
    let arch = architecture(member(fields, "arch")?)?;
    let big_endian = match member(fields, "big_endian") {
        Some(field) => field.as_bool()?,
        None => false,
    };
    let pointer_bytes = match member(fields, "pointer_bytes") {
        Some(field) => pointer_bytes(field)?,
        None => 8,
    };
    let version = match member(fields, "version") {
        Some(field) => version(field)?,
        None => 4,
    };
    let output_for = told_output(fields)?;
    Some(TargetFields {
        arch,
        big_endian,
        pointer_bytes,
        version,
        output_for,
        registers: member(fields, "registers"),
        cie: member(fields, "cie"),
    })
}

fn read_target(alloc: Global, value: &Value) -> Result<Option<Target>, AllocError>
    ensures { IfOk result (λ o. option_map target_view o ≡ target_of (view value.now)) }
{
    let Some(fields) = target_fields(value) else {
        return Ok(None);
    };
    let Some(registers) = read_registers(alloc, fields.registers)? else {
        return Ok(None);
    };
    let Some(cie) = read_cie(alloc, fields.cie)? else {
        return Ok(None);
    };
    Ok(Some(Target {
        arch: fields.arch,
        big_endian: fields.big_endian,
        pointer_bytes: fields.pointer_bytes,
        version: fields.version,
        output_for: fields.output_for,
        registers,
        cie,
    }))
}

#[tactic(auto, using(crate::proofs::MapKinds::pair_of_parts))]
fn read_names(alloc: Global, value: &Value) -> Result<Option<Names>, AllocError>
    ensures { IfOk result (λ o. option_map names_view o ≡ pair_of text_of text_of (view value.now)) }
{
    let Some((set, resolve)) = pair(value) else {
        return Ok(None);
    };
    let Some(set) = plain_text(set) else {
        return Ok(None);
    };
    let Some(resolve) = plain_text(resolve) else {
        return Ok(None);
    };
    let set = String::from_str(alloc, set)?;
    let resolve = String::from_str(alloc, resolve)?;
    Ok(Some(Names { set, resolve }))
}

// The number of the next name that is made up, from its value; it begins with 0.
fn read_next_id(value: Option<&Value>) -> Option<u32>
    ensures { result ≡ value_or 0 u32_of (option_map (λ v. view v.now) value.entry) }
{
    match value {
        Some(value) => whole_number(value),
        None => Some(0),
    }
}

/// A map with these modules, by the other fields of its object; None where one is missing or of the wrong kind.
pub(crate) fn map_from(
    alloc: Global,
    fields: &Map<String, Value>,
    modules: Vec<MapModule>,
) -> Result<Option<MapFile>, AllocError>
    ensures value { IfOk result (λ o. option_map map_file_view o ≡ map_with (map module_view modules.items) (members_view fields.now.entries)) }
    ensures records { ModulesAreConsistent modules.items → IfOk result (λ o. IfSome o (λ f. ModulesAreConsistent f.modules.items)) }
{
    let Some(target) = member(fields, "target") else {
        return Ok(None);
    };
    let Some(target) = read_target(alloc, target)? else {
        return Ok(None);
    };
    let Some(names) = member(fields, "names") else {
        return Ok(None);
    };
    let Some(names) = read_names(alloc, names)? else {
        return Ok(None);
    };
    let Some(next_id) = read_next_id(member(fields, "next_id")) else {
        return Ok(None);
    };
    Ok(Some(MapFile {
        target,
        names,
        modules,
        next_id,
    }))
}

#[tactic(auto, using(crate::proofs::MapKinds::list_of_items), unfolding(crate::specs::MapFile::map_in))]
fn read_map(alloc: Global, value: &Value) -> Result<Option<MapFile>, AllocError>
    ensures value { IfOk result (λ o. option_map map_file_view o ≡ map_in (view value.now)) }
    ensures records { IfOk result (λ o. IfSome o (λ f. ModulesAreConsistent f.modules.items)) }
{
    let Some(fields) = members(value) else {
        return Ok(None);
    };
    let Some(values) = member(fields, "modules").and_then(items) else {
        return Ok(None);
    };
    let Some(modules) = read_modules(alloc, values)? else {
        return Ok(None);
    };
    map_from(alloc, fields, modules)
}

// The map that some bytes are, by the JSON value that they have.
#[tactic(auto, using(crate::proofs::MapKinds::map_in_bytes_read, crate::proofs::MapKinds::map_in_bytes_unread))]
fn map_by_value(alloc: Global, bytes: &[u8]) -> Result<Option<MapFile>, AllocError>
    ensures value { IfOk result (λ o. option_map map_file_view o ≡ map_in_bytes bytes.now) }
    ensures records { IfOk result (λ o. IfSome o (λ f. ModulesAreConsistent f.modules.items)) }
{
    match Value::from_slice(alloc, bytes) {
        Ok(value) => read_map(alloc, &value),
        Err(error) if error.is_memory() => Err(AllocError),
        Err(_) => Ok(None),
    }
}

// Whether each module has as many functions as are defined in it.
fn has_counts(modules: &[MapModule], translations: &[ModuleTranslation<'_>]) -> bool
    ensures { result ≡ have_counts (map (λ t. t.defined_funcs) translations.now) (map module_view modules.now) }
{
    if modules.len() != translations.len() {
        return false;
    }
    for i in 0..modules.len() {
        if modules[i].functions.len() != translations[i].defined_funcs as usize {
            return false;
        }
    }
    true
}

// Whether the modules, and the functions of all modules, are fewer than 2^32.
fn can_be_numbered(modules: &[MapModule]) -> bool
    ensures { result ≡ is_countable (map module_view modules.now) }
{
    if modules.len() >= COUNT_LIMIT {
        return false;
    }
    let mut functions = 0;
    for module in modules {
        if module.functions.len() >= COUNT_LIMIT - functions {
            return false;
        }
        functions += module.functions.len();
    }
    true
}

/// The value of a map file's bytes, for any modules.
///
/// Answers `Ok(None)` exactly where the bytes have no value as a map: they are not UTF-8 or no JSON text of at most 127
/// levels, a required field is missing, a value is of the wrong kind or out of its range, a register or a label of a function
/// stands twice, or a common information entry cannot be written. Unknown fields are passed over, and of two members of one name the later
/// counts.
///
/// # Errors
///
/// `AllocError` for want of memory alone.
pub fn map_of_any(alloc: Global, bytes: &[u8]) -> Result<Option<MapFile>, AllocError>
    ensures value { IfOk result (λ o. option_map map_file_view o ≡ map_in_bytes bytes.now) }
    ensures kinds { IfOk result (λ o. IfSome o (λ f. IsMap (map_file_view f))) }
    ensures records { IfOk result (λ o. IfSome o (λ f. ModulesAreConsistent f.modules.items)) }
{
    match map_by_tokens(alloc, bytes) {
        Ok(map) => Ok(Some(map)),
        Err(Stop::OutOfMemory) => Err(AllocError),
        Err(Stop::Unusual) => map_by_value(alloc, bytes),
    }
}

/// A map, if there is one, where its modules are as many as these, with as many functions as each of these defines, and modules and
/// functions are fewer than 2^32.
pub fn map_for(told: Option<MapFile>, modules: &[ModuleTranslation<'_>]) -> Option<MapFile>
    ensures value { option_map map_file_view result ≡ option_and_then (map_for (map (λ m. m.defined_funcs) modules.now)) (option_map map_file_view told) }
    ensures fits { IfSome told (λ f. IsMap (map_file_view f)) → IfSome result (λ f. IsMapFor (map (λ m. m.defined_funcs) modules.now) (map_file_view f)) }
    ensures same { IfSome result (λ f. told ≡ Some f) }
{
    let map = told?;
    if !has_counts(&map.modules, modules) || !can_be_numbered(&map.modules) {
        return None;
    }
    Some(map)
}

/// The value of a map file's bytes, for these modules in order. `with_text` asks for the text of each function, which is
/// not read yet.
///
/// Answers `Ok(None)` exactly where the bytes have no value as a map: they are not UTF-8 or no JSON text of at most 127
/// levels, a required field is missing, a value is of the wrong kind or out of its range, a register or a label of a function
/// stands twice, a common information entry cannot be written, or the modules are not as many as these, with as many functions
/// as each of these defines. Unknown fields are passed over, and of two members of one name the later counts.
///
/// A map that is answered has the modules and functions that are asked for, fewer than 2^32 each, addresses of 4 or 8 bytes,
/// version 4 or 5 of DWARF, names and paths without a zero byte, and no common information entry that cannot be written. The begin and the
/// end of a function are the same in its record and in its address map, and its frame is the only unwind record that it has.
///
/// # Errors
///
/// `AllocError` for want of memory alone.
pub fn map_of(
    alloc: Global,
    bytes: &[u8],
    modules: &[ModuleTranslation<'_>],
    _with_text: bool,
) -> Result<Option<MapFile>, AllocError>
    ensures value { IfOk result (λ o. option_map map_file_view o ≡ map_of_bytes (map (λ m. m.defined_funcs) modules.now) bytes.now) }
    ensures fits { IfOk result (λ o. IfSome o (λ f. IsMapFor (map (λ m. m.defined_funcs) modules.now) (map_file_view f))) }
    ensures records { IfOk result (λ o. IfSome o (λ f. ModulesAreConsistent f.modules.items)) }
{
    let map = map_of_any(alloc, bytes)?;
    Ok(map_for(map, modules))
}
