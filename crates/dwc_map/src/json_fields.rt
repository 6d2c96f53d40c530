//! The kinds of the map file's values. Each function answers None for a value of another kind.
ghost use Rattle.std.specs.Prelude.{◌≡◌, ◌==◌, option_map, Some, IfSome};
ghost use Rattle.std.specs.List.{list_any};
ghost use Rattle.serde_json.specs.View.{view, items_view, members_view};
ghost use Rattle.serde_json.specs.Find.{get_member, as_array};
ghost use Rattle.dwc_map.specs.MapFile.{pointer_bytes_of, version_of, output_of, architecture_of};
ghost use Rattle.dwc_map.specs.MapViews.{IsPlace};
ghost use Rattle.dwc_map.specs.MapValues.{u32_of, u16_of, u8_of, i8_of, i32_of, i64_of, source_of, nullable, text_of, members_of, pair_of, four_of};

use dwc_base::{FilePos, OutputFor, SymbolId};
use dwc_isa::Architecture;
use serde_json::{Map, Value};

/// A whole number below 2^32.
pub(crate) fn whole_number(value: &Value) -> Option<u32>
    ensures { result ≡ u32_of (view value.now) }
{
    let number = value.as_u64()?;
    u32::try_from(number).ok()
}

/// A whole number below 2^16.
pub(crate) fn short_number(value: &Value) -> Option<u16>
    ensures { result ≡ u16_of (view value.now) }
{
    let number = value.as_u64()?;
    u16::try_from(number).ok()
}

/// A whole number below 2^8.
pub(crate) fn byte_number(value: &Value) -> Option<u8>
    ensures { result ≡ u8_of (view value.now) }
{
    let number = value.as_u64()?;
    u8::try_from(number).ok()
}

/// A whole number of 8 bits with a sign.
pub(crate) fn signed_byte(value: &Value) -> Option<i8>
    ensures { result ≡ i8_of (view value.now) }
{
    let number = value.as_i64()?;
    i8::try_from(number).ok()
}

/// A whole number of 32 bits with a sign.
pub(crate) fn signed_offset(value: &Value) -> Option<i32>
    ensures { result ≡ i32_of (view value.now) }
{
    let number = value.as_i64()?;
    i32::try_from(number).ok()
}

/// A whole number of 64 bits with a sign.
pub(crate) fn signed_number(value: &Value) -> Option<i64>
    ensures { result ≡ i64_of (view value.now) }
{
    value.as_i64()
}

/// The number of a function's symbol; null for a function without one.
pub(crate) fn symbol(value: &Value) -> Option<Option<SymbolId>>
    ensures { option_map (λ o. option_map (λ s. s.0) o) result ≡ nullable u32_of (view value.now) }
{
    if value.is_null() {
        return Some(None);
    }
    let number = whole_number(value)?;
    Some(Some(SymbolId(number)))
}

/// The offset of a source in the wasm file, below 2^32 - 1; null for no source.
pub(crate) fn source_offset(value: &Value) -> Option<Option<u32>>
    ensures value { result ≡ source_of (view value.now) }
    ensures low { IfSome result (λ offset. IsPlace offset) }
{
    if value.is_null() {
        return Some(None);
    }
    let offset = whole_number(value)?;
    if offset == u32::MAX {
        return None;
    }
    Some(Some(offset))
}

/// The place at an offset of the wasm file, or none.
pub(crate) fn place_at(offset: Option<u32>) -> FilePos
    requires { IsPlace offset }
    ensures { result ≡ offset }
{
    match offset {
        Some(offset) => FilePos::new(offset),
        None => FilePos::default(),
    }
}

/// The place of a source in the wasm file; null for no source.
pub(crate) fn source(value: &Value) -> Option<FilePos>
    ensures { result ≡ source_of (view value.now) }
{
    let offset = source_offset(value)?;
    Some(place_at(offset))
}

fn has_zero(bytes: &[u8]) -> bool
    ensures { result ≡ list_any (λ c. c == 0) bytes.now }
{
    bytes.iter().any(|byte| *byte == 0)
}

/// A text without a zero character.
pub(crate) fn plain_text(value: &Value) -> Option<&str>
    ensures { option_map (λ t. t.now) result ≡ text_of (view value.now) }
{
    let text = value.as_str()?;
    if has_zero(text.as_bytes()) {
        return None;
    }
    Some(text)
}

/// A target's architecture by its name.
pub(crate) fn architecture(value: &Value) -> Option<Architecture>
    ensures { result ≡ architecture_of (view value.now) }
{
    match plain_text(value)? {
        "x86_64" => Some(Architecture::X86_64),
        "aarch64" => Some(Architecture::Aarch64),
        "s390x" => Some(Architecture::S390x),
        "riscv64" => Some(Architecture::Riscv64),
        "pulley" => Some(Architecture::Pulley),
        _ => None,
    }
}

/// The bytes of a pointer: 4 or 8.
pub(crate) fn pointer_bytes(value: &Value) -> Option<u8>
    ensures { result ≡ pointer_bytes_of (view value.now) }
{
    match value.as_u64()? {
        4 => Some(4),
        8 => Some(8),
        _ => None,
    }
}

/// The version of DWARF that is written: 4 or 5.
pub(crate) fn version(value: &Value) -> Option<u16>
    ensures { result ≡ version_of (view value.now) }
{
    match value.as_u64()? {
        4 => Some(4),
        5 => Some(5),
        _ => None,
    }
}

/// Whom the output is for: whether for a debugger.
pub(crate) fn output_for(value: &Value) -> Option<OutputFor>
    ensures { result ≡ output_of (view value.now) }
{
    match value.as_bool()? {
        true => Some(OutputFor::Debugger),
        false => Some(OutputFor::Default),
    }
}

/// The members of an object.
pub(crate) fn members(value: &Value) -> Option<&Map<String, Value>>
    ensures { option_map (λ m. members_view m.now.entries) result ≡ members_of (view value.now) }
{
    if let Value::Object(members) = value {
        Some(members)
    } else {
        None
    }
}

/// The items of a list.
pub(crate) fn items(value: &Value) -> Option<&[Value]>
    ensures { option_map (λ vs. items_view vs.now) result ≡ as_array (view value.now) }
{
    if let Value::Array(items) = value {
        Some(items)
    } else {
        None
    }
}

/// The items of a list of two.
pub(crate) fn pair(value: &Value) -> Option<(&Value, &Value)>
    ensures { option_map (λ p. (view p.0.now, view p.1.now)) result ≡ pair_of Some Some (view value.now) }
{
    let items = items(value)?;
    if items.len() != 2 {
        return None;
    }
    Some((&items[0], &items[1]))
}

/// The items of a list of four.
pub(crate) fn four(value: &Value) -> Option<(&Value, &Value, &Value, &Value)>
    ensures { option_map (λ f. (view f.0.now, view f.1.now, view f.2.now, view f.3.now)) result ≡ four_of (view value.now) }
{
    let items = items(value)?;
    if items.len() != 4 {
        return None;
    }
    Some((&items[0], &items[1], &items[2], &items[3]))
}

/// The member of a name.
pub(crate) fn member<'v>(members: &'v Map<String, Value>, name: &str) -> Option<&'v Value>
    ensures { option_map (λ v. view v.now) result ≡ get_member name.now (members_view members.now.entries) }
{
    members.get(name)
}
