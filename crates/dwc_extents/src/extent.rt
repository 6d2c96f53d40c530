//! What entries have of the native code. (DWARF 4 and 5, section 2.17.)
ghost use Rattle.std.specs.Prelude.{◌≡◌, ◌<◌, ◌∷◌, [], ℕ, IfOk, IfSome, IsTrue, length, option_map, option_to_list};
ghost use Rattle.dwc_native.specs.Addends.{HaveAddends};
ghost use Rattle.dwc_dwarf.specs.Lists.{list_source, ranges_of_value};
ghost use Rattle.dwc_rules.specs.RangeAttributes.{Extent, carried_address, extent, intervals, position, said_extent};
ghost use Rattle.dwc_dwarf.specs.RawLists.{is_range_list};
ghost use Rattle.dwc_rules.specs.Scopes.{scope_of_extent};
ghost use Rattle.dwc_dwarf.specs.Trees as Trees;
ghost use Rattle.dwc_read.specs.EntriesSeen.{entry_view};
ghost use Rattle.dwc_read.specs.ValuesSeen.{value_view};
ghost use Rattle.dwc_tabs.specs.RangeEnds.{interval_view};
ghost use Rattle.dwc_section.specs.Writers.{FitsField};
ghost use Rattle.dwc_extents.specs.CodeNames.{have_code_name};
ghost use Rattle.dwc_extents.specs.NativeExtents.{FitsExtent, IsExtent, ranges_of_offsets, said_by};
ghost use Rattle.dwc_extents.specs.ReadExtents.{IsScopeOf};

use crate::input_extent::{InputExtent, input_extent};
use crate::ranges::{add_native, native_ranges, translated_offsets};
use dwc_addr::{AddressTransform, translations_are_said};
use dwc_base::Address;
use dwc_base::constants::DW_TAG_compile_unit;
use dwc_read::{AttributeValue, Entry, Unit};
use dwc_source::CloneSource;
use std::alloc::{AllocError, Global};

/// What an entry has of the native code.
#[derive(Drop)]
pub enum NativeExtent {
    /// Intervals of the input were translated to these ranges, of which there may be none.
    Intervals(Vec<(Address, u64)>),
    /// Intervals of the input were translated to one range: where it begins, and how many bytes it has.
    Range(Address, u64),
    /// One address alone.
    Position(Address),
    Nowhere,
}

/// What an address of the input is in the native code: its translation, or 0 where it is in no function with a symbol.
pub fn carried_address(transform: &AddressTransform<'_>, address: Address) -> Address
    requires functions { HaveAddends transform.now }
    ensures address { Trees.address result ≡ carried_address transform.now address }
    ensures fits { (size : ℕ) → FitsField size result }
{
    translations_are_said();
    match address {
        Address::Constant(address) => match transform.translate(address) {
            Some(native) => native,
            None => Address::Constant(0),
        },
        Address::Symbol { .. } => Address::Constant(0),
    }
}

// What the range list is that a value of the entry at an offset names.
fn listed_extent(
    alloc: Global,
    unit: &Unit<'_>,
    transform: &AddressTransform<'_>,
    offset: u64,
    list: AttributeValue<'_>,
) -> Result<NativeExtent, AllocError>
    requires list { IsTrue (is_range_list (value_view list)) }
    requires functions { HaveAddends transform.now }
    ensures says { (tag : ℕ) → IfOk result (IsExtent transform.now tag (intervals (ranges_of_value (list_source unit.now.sections unit.now.header) offset (value_view list.entry)).items)) }
    ensures fits { IfOk result FitsExtent }
{
    let native = native_ranges(alloc, unit, transform, offset, list)?;
    if native.listed {
        return Ok(NativeExtent::Intervals(native.ranges));
    }
    Ok(NativeExtent::Nowhere)
}

// What an interval is, if there is one.
fn interval_extent(
    alloc: Global,
    transform: &AddressTransform<'_>,
    interval: Option<(Address, Address)>,
) -> Result<NativeExtent, AllocError>
    requires functions { HaveAddends transform.now }
    ensures says { (tag : ℕ) → IfOk result (IsExtent transform.now tag (intervals (option_to_list (option_map interval_view interval)))) }
    ensures fits { IfOk result FitsExtent }
{
    let Some((begin, end)) = interval else {
        return Ok(NativeExtent::Nowhere);
    };
    let mut ranges = Vec::new(alloc);
    add_native(transform, begin, end, &mut ranges)?;
    Ok(NativeExtent::Intervals(ranges))
}

// What an address alone is, of an entry of a tag.
fn position_of(transform: &AddressTransform<'_>, tag: u16, address: Address) -> NativeExtent
    requires functions { HaveAddends transform.now }
    ensures says { IsExtent transform.now tag (position address) result }
    ensures fits { FitsExtent result }
{
    if tag == DW_TAG_compile_unit {
        return NativeExtent::Position(Address::Constant(0));
    }
    NativeExtent::Position(carried_address(transform, address))
}

// What an entry has of the native code: the intervals of its range list; without one, the interval from its `low_pc` to its `high_pc`; and
// with a `low_pc` alone a position, which is 0 for a compile unit. What cannot be read counts as not there. `speaks` tells whether the entry
// says something of its code.
fn native_extent(
    alloc: Global,
    unit: &Unit<'_>,
    transform: &AddressTransform<'_>,
    entry: &Entry<'_>,
    speaks: bool,
) -> Result<NativeExtent, AllocError>
    requires functions { HaveAddends transform.now }
    requires speaks { speaks ≡ have_code_name (entry_view entry.now).attributes }
    ensures says { IfOk result (λ x. said_by (entry_view entry.now).tag x ≡ said_extent transform.now (entry_view entry.now).tag (extent (list_source unit.now.sections unit.now.header) (entry_view entry.now))) }
    ensures fits { IfOk result FitsExtent }
{
    if !speaks {
        return Ok(NativeExtent::Nowhere);
    }
    match input_extent(unit, entry) {
        InputExtent::Listed(list) => listed_extent(alloc, unit, transform, entry.offset, list),
        InputExtent::Bounded(interval) => interval_extent(alloc, transform, interval),
        InputExtent::Position(address) => Ok(position_of(transform, entry.tag, address)),
        InputExtent::Nowhere => Ok(NativeExtent::Nowhere),
    }
}

// The one range that one interval of wasm offsets is translated to; None for another number of either.
fn only_range(transform: &AddressTransform<'_>, scope: &[(u64, u64)]) -> Option<(Address, u64)>
    ensures { IfSome result (λ range. ranges_of_offsets transform.now scope.now ≡ range ∷ []) }
{
    match scope {
        [(begin, end)] => {
            let mut ranges = transform.translate_ranges(*begin, *end);
            let first = ranges.next()?;
            match ranges.next() {
                None => Some(first),
                Some(_) => None,
            }
        }
        _ => None,
    }
}

// What an extent is whose intervals of wasm offsets are these, of which there is one at least.
fn extent_of_scope(
    alloc: Global,
    transform: &AddressTransform<'_>,
    scope: &[(u64, u64)],
) -> Result<NativeExtent, AllocError>
    requires functions { HaveAddends transform.now }
    requires some { 0 < length scope.now }
    ensures says { (tag : ℕ) (e : Extent) → scope.now ≡ scope_of_extent e → IfOk result (IsExtent transform.now tag e) }
    ensures fits { IfOk result FitsExtent }
{
    translations_are_said();
    if let Some((begin, length)) = only_range(transform, scope) {
        return Ok(NativeExtent::Range(begin, length));
    }
    let ranges = translated_offsets(alloc, transform, scope)?;
    Ok(NativeExtent::Intervals(ranges))
}

/// What an entry has of the native code. `speaks` tells whether the entry says something of its code; `scope` is its extent as intervals of
/// wasm offsets, where these are known already.
pub fn extent_by_scope(
    alloc: Global,
    source: &CloneSource<'_, '_>,
    entry: &Entry<'_>,
    speaks: bool,
    scope: Option<&[(u64, u64)]>,
) -> Result<NativeExtent, AllocError>
    requires functions { HaveAddends source.now.transform.now }
    requires speaks { speaks ≡ have_code_name (entry_view entry.now).attributes }
    requires scope { IsScopeOf (list_source source.now.unit.now.sections source.now.unit.now.header) (entry_view entry.now) (option_map (λ is. is.now) scope) }
    ensures says { IfOk result (λ x. said_by (entry_view entry.now).tag x ≡ said_extent source.now.transform.now (entry_view entry.now).tag (extent (list_source source.now.unit.now.sections source.now.unit.now.header) (entry_view entry.now))) }
    ensures fits { IfOk result FitsExtent }
{
    match scope {
        Some(known) => {
            // The extent may be a position, or intervals that are none of wasm offsets.
            if known.is_empty() {
                return native_extent(alloc, source.unit, source.transform, entry, speaks);
            }
            extent_of_scope(alloc, source.transform, known)
        }
        None => native_extent(alloc, source.unit, source.transform, entry, speaks),
    }
}
