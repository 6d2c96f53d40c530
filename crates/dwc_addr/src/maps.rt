//! The rules of an address map.
ghost use Rattle.std.specs.Prelude.{◌≡◌, ◌<◌, ◌≤◌, ◌^◌, ◌-◌, ◌&&◌, nat_le, None, IsSome};
ghost use Rattle.std.specs.Option.{unwrap_or};
ghost use Rattle.dwc_native.specs.Functions.{map_fault, entry_fault, is_source_within};
ghost use Rattle.dwc_compiled.specs.AddressMaps.{address_map_view};
ghost use Rattle.dwc_addr.specs.Transforms.{wasm_code_offset};

use crate::WasmAddress;
use dwc_base::{FilePos, MapFault};
use dwc_compiled::{CompiledFunctionMetadata, InstructionMaps};

/// The first rule that the address map of a compiled function breaks, none where it is good. In this order: the body begins
/// at 0; start and end are there; the code section's contents, at `code_section_offset` of the wasm file, do not begin behind
/// the start, nor the start behind the end; and of each entry in order the code offset is not below the one before and not
/// above the body's length, and its source, if there is one, lies from start to end.
pub fn map_fault(code_section_offset: u64, metadata: &CompiledFunctionMetadata) -> Option<MapFault>
    ensures { result ≡ map_fault code_section_offset (address_map_view (None, metadata.now)) }
{
    let addresses = &metadata.address_map;
    if addresses.body_offset != 0 {
        return Some(MapFault::BodyOffset);
    }
    let Some(start) = addresses.start_srcloc.file_offset() else {
        return Some(MapFault::NoStart);
    };
    let Some(end) = addresses.end_srcloc.file_offset() else {
        return Some(MapFault::NoStart);
    };
    if u64::from(start) < code_section_offset {
        return Some(MapFault::BeforeCodeSection);
    }
    if end < start {
        return Some(MapFault::Reversed);
    }
    entries_fault(start, end, addresses.body_len, &addresses.instructions)
}

// The first rule that the entries of a function from `start` to `end` break.
fn entries_fault(start: u32, end: u32, body_len: u32, entries: &InstructionMaps) -> Option<MapFault>
    requires { start ≤ end }
    ensures { result ≡ entry_fault start end body_len 0 entries.now }
{
    let mut code = 0;
    for (code_offset, source) in entries.iter() {
        if code_offset < code {
            return Some(MapFault::CodeFalls);
        }
        if code_offset > body_len {
            return Some(MapFault::CodePastBody);
        }
        if !is_source_within(start, end, source) {
            return Some(MapFault::SourceOutside);
        }
        code = code_offset;
    }
    None
}

// Whether a source, if there is one, lies from start to end.
fn is_source_within(start: u32, end: u32, source: Option<u32>) -> bool
    requires { start ≤ end }
    ensures { result ≡ is_source_within start end source }
{
    match source {
        Some(source) => lies_within(start, end, source),
        None => true,
    }
}

// Whether an offset lies from start to end, by one comparison.
fn lies_within(start: u32, end: u32, offset: u32) -> bool
    requires { start ≤ end }
    ensures { result ≡ (nat_le start offset && nat_le offset end) }
{
    offset.wrapping_sub(start) <= end - start
}

/// The wasm offset of a source: its file offset less the low 32 bits of the code section's, modulo 2^32, so that a file
/// offset that has passed 2^32 is the right one again.
pub fn get_wasm_code_offset(loc: FilePos, code_section_offset: u64) -> WasmAddress
    requires { IsSome loc }
    ensures { result ≡ wasm_code_offset (unwrap_or loc 0) code_section_offset }
{
    let source = loc.file_offset().unwrap();
    let section = (code_section_offset % (1 << 32)) as u32;
    u64::from(source.wrapping_sub(section))
}
