//! Entries and functions as plain records, and what one of them says.
ghost use Rattle.std.specs.Prelude.{◌≡◌, ◌==◌, map, option_map, is_some, suc};
ghost use Rattle.dwc_native.specs.Functions.{owner_with, owner, function_at};
ghost use Rattle.dwc_dwarf.specs.Entries.{attribute};
ghost use Rattle.dwc_rules.specs.Kept.{names_entry, refers_to, is_part_tag, is_part_of};
ghost use Rattle.dwc_plain.specs.PlainEntries.{function_view, value_view, entry_view, is_required};

use dwc_base::constants::*;

/// A defined function of a module: its start in the wasm, and whether it has a symbol.
#[derive(Clone, Copy)]
pub struct PlainFunction {
    pub start: u64,
    pub has_symbol: bool,
}

/// The value of an attribute, as far as it decides what is kept.
#[derive(Clone, Copy)]
pub enum PlainValue {
    /// An address that is a number.
    Address(u64),
    /// A reference to a place of the entry's own unit.
    UnitReference(u64),
    /// A reference to a place of `.debug_info`.
    InfoReference(u64),
    /// Any other value.
    Other,
}

/// An entry of `.debug_info`: the offsets of its unit and of itself, its depth below the root, its tag, and its attributes
/// by name, in order. (DWARF 4 and 5, sections 2.3 and 7.5.2.)
#[derive(Clone, Copy)]
pub struct PlainEntry<'d> {
    pub unit: u64,
    pub offset: u64,
    pub depth: u64,
    pub tag: u16,
    pub attributes: &'d [(u16, PlainValue)],
}

// Of a function and the owner among those behind it, the owner of an address.
fn nearer(
    function: PlainFunction,
    address: u64,
    later: Option<PlainFunction>,
) -> Option<PlainFunction>
    ensures { option_map function_view result ≡ owner_with (function_view function) address (option_map function_view later) }
{
    match later {
        None => {
            if function.start <= address {
                Some(function)
            } else {
                None
            }
        }
        Some(other) => {
            if function.start <= address && other.start < function.start {
                Some(function)
            } else {
                Some(other)
            }
        }
    }
}

// The function with the greatest start at or below an address; of several with that start, the last.
fn owner(functions: &[PlainFunction], address: u64) -> Option<PlainFunction>
    ensures { option_map function_view result ≡ owner (map function_view functions.now) address }
{
    let mut found = None;
    let mut k = functions.len();
    while k > 0 {
        k -= 1;
        found = nearer(functions[k], address, found);
    }
    found
}

// Whether an address is in a function with a symbol; 0 and 0xFFFFFFFF mark code that was not linked.
fn is_in_function(functions: &[PlainFunction], address: u64) -> bool
    ensures { result ≡ is_some (function_at (map function_view functions.now) address) }
{
    if address == 0 || address == 0xFFFF_FFFF {
        return false;
    }
    match owner(functions, address) {
        Some(function) => function.has_symbol,
        None => false,
    }
}

// The first value of a name.
fn value_of(entry: &PlainEntry, name: u16) -> Option<PlainValue>
    ensures { option_map value_view result ≡ attribute name (entry_view entry.now).entry }
{
    for attribute in entry.attributes {
        if attribute.0 == name {
            return Some(attribute.1);
        }
    }
    None
}

/// Whether an entry is required: a subprogram without ranges that begins in a function with a symbol.
pub fn is_required(functions: &[PlainFunction], entry: &PlainEntry) -> bool
    ensures { result ≡ is_required (map function_view functions.now) (entry_view entry.now).entry }
{
    if entry.tag != DW_TAG_subprogram || value_of(entry, DW_AT_ranges).is_some() {
        return false;
    }
    match value_of(entry, DW_AT_low_pc) {
        Some(PlainValue::Address(address)) => is_in_function(functions, address),
        _ => false,
    }
}

// Whether a value of one entry names another.
fn names_entry(entry: &PlainEntry, other: &PlainEntry, value: PlainValue) -> bool
    ensures { result ≡ names_entry (entry_view entry.now) (entry_view other.now) (value_view value) }
{
    match value {
        PlainValue::UnitReference(place) => {
            other.unit == entry.unit && entry.unit.checked_add(place) == Some(other.offset)
        }
        PlainValue::InfoReference(place) => other.offset == place,
        _ => false,
    }
}

/// Whether an attribute of one entry, other than `sibling`, refers to another entry.
pub fn refers_to(entry: &PlainEntry, other: &PlainEntry) -> bool
    ensures { result ≡ refers_to (entry_view entry.now) (entry_view other.now) }
{
    for attribute in entry.attributes {
        if attribute.0 != DW_AT_sibling && names_entry(entry, other, attribute.1) {
            return true;
        }
    }
    false
}

// Whether children of a tag are kept with their parent, whatever that is.
fn is_part_tag(tag: u16) -> bool
    ensures { result ≡ is_part_tag tag }
{
    match tag {
        DW_TAG_formal_parameter
        | DW_TAG_label
        | DW_TAG_lexical_block
        | DW_TAG_member
        | DW_TAG_unspecified_parameters
        | DW_TAG_variant
        | DW_TAG_inheritance
        | DW_TAG_inlined_subroutine
        | DW_TAG_subrange_type
        | DW_TAG_with_stmt
        | DW_TAG_catch_block
        | DW_TAG_enumerator
        | DW_TAG_template_type_parameter
        | DW_TAG_template_value_parameter
        | DW_TAG_try_block
        | DW_TAG_variant_part
        | DW_TAG_call_site
        | DW_TAG_call_site_parameter => true,
        _ => false,
    }
}

/// Whether a child is kept with its parent: by its tag, or a variable or constant below anything but a root or a namespace.
pub fn is_part_of(parent: &PlainEntry, child: &PlainEntry) -> bool
    ensures { result ≡ is_part_of (entry_view parent.now) (entry_view child.now) }
{
    is_part_tag(child.tag)
        || ((child.tag == DW_TAG_variable || child.tag == DW_TAG_constant)
            && !(parent.depth == 0 || parent.tag == DW_TAG_namespace))
}
