//! The attributes that say where the code of an entry is. (DWARF 4 and 5, section 2.17.)
ghost use Rattle.std.specs.Prelude.{◌≡◌, ◌==◌, ℕ, ◌<◌, ◌∷◌, [], List, OnOk, IsOkUnless, All, option_map, IfSome, IsSome, map};
ghost use Rattle.dwc_base.specs.declared.constants.TheConstants.{DW_TAG_compile_unit};
ghost use Rattle.dwc_native.specs.Addends.{HaveAddends};
ghost use Rattle.dwc_dwarf.specs.Lists.{list_source};
ghost use Rattle.dwc_rules.specs.RangeAttributes.{bounds, begun_function, list_base, said_intervals, with_base};
ghost use Rattle.dwc_read.specs.EntriesSeen.{entry_view};
ghost use Rattle.dwc_addr.specs.Transforms.{function_view};
ghost use Rattle.dwc_unit.specs.GivenUnits.{Addition, GivenUnit, IsAdded};
ghost use Rattle.dwc_unit.specs.RangeLists.{FitsRange, interval_of};
ghost use Rattle.dwc_section.specs.Writers.{FitsField};
ghost use Rattle.dwc_clone.specs.ClonedEntries.{IsGiven, IsLast};
ghost use Rattle.dwc_clone.specs.PlainEntries.{code_said};
ghost use Rattle.dwc_extents.specs.CodeNames.{have_code_name};
ghost use Rattle.dwc_extents.specs.NativeExtents.{FitsExtent, said_by};
ghost use Rattle.dwc_extents.specs.ReadExtents.{IsScopeOf};

use dwc_addr::FunctionMap;
use dwc_base::constants::{
    DW_AT_high_pc, DW_AT_low_pc, DW_AT_ranges, DW_FORM_udata, DW_TAG_compile_unit,
};
use dwc_base::{Address, OutputFor};
use dwc_extents::{NativeExtent, extent_by_scope};
use dwc_read::Entry;
use dwc_section::WriteError;
use dwc_source::CloneSource;
use dwc_unit::{AttributeValue, RangeList, Unit, UnitEntryId};
use std::alloc::Global;

// Gives an entry the bounds of one interval: where it begins, and how long it is.
fn set_bounds(
    unit: &mut Unit,
    id: UnitEntryId,
    begin: Address,
    length: u64,
) -> Result<(), WriteError>
    requires known { IsAdded id.index unit.old }
    requires fits { (size : ℕ) → FitsField size begin }
    ensures places { OnOk result (unit.new.places ≡ unit.old.places) }
    ensures given { (number : ℕ) (texts : List (List ℕ)) (base : GivenUnit) (e : Addition) → IsLast texts id base e unit.old → OnOk result (IsGiven number texts texts (bounds begin length) base e unit.new) }
{
    let length = AttributeValue::Constant {
        form: DW_FORM_udata,
        bits: length,
    };
    unit.set(id, DW_AT_low_pc, AttributeValue::Address(begin))?;
    unit.set(id, DW_AT_high_pc, length)
}

// Gives a compile unit of an output for a debugger what its list counts from.
fn set_base(
    output_for: OutputFor,
    unit: &mut Unit,
    id: UnitEntryId,
    tag: u16,
) -> Result<(), WriteError>
    requires known { IsAdded id.index unit.old }
    ensures places { OnOk result (unit.new.places ≡ unit.old.places) }
    ensures given { (number : ℕ) (texts : List (List ℕ)) (base : GivenUnit) (e : Addition) → IsLast texts id base e unit.old → OnOk result (IsGiven number texts texts (list_base output_for (tag == DW_TAG_compile_unit)) base e unit.new) }
{
    if tag != DW_TAG_compile_unit {
        return Ok(());
    }
    match output_for {
        OutputFor::Default => Ok(()),
        OutputFor::Debugger => {
            let zero = AttributeValue::Address(Address::Constant(0));
            unit.set(id, DW_AT_low_pc, zero)
        }
    }
}

// Gives an entry of a tag what says its ranges: bounds where there is one alone, but for a compile unit a list always, for a debugger with
// a base.
fn set_ranges(
    output_for: OutputFor,
    unit: &mut Unit,
    id: UnitEntryId,
    tag: u16,
    ranges: Vec<(Address, u64)>,
) -> Result<(), WriteError>
    requires known { IsAdded id.index unit.old }
    requires fits { (size : ℕ) → All (FitsRange size) ranges.items }
    ensures places { OnOk result (unit.new.places ≡ unit.old.places) }
    ensures given { (number : ℕ) (texts : List (List ℕ)) (base : GivenUnit) (e : Addition) → IsLast texts id base e unit.old → OnOk result (IsGiven number texts texts (with_base output_for (tag == DW_TAG_compile_unit) (said_intervals tag (map interval_of ranges.items))) base e unit.new) }
{
    if ranges.len() == 1 && tag != DW_TAG_compile_unit {
        let (begin, length) = ranges[0];
        return set_bounds(unit, id, begin, length);
    }
    set_base(output_for, unit, id, tag)?;
    let list = AttributeValue::RangeListRef(RangeList::new(ranges));
    unit.set(id, DW_AT_ranges, list)
}

// Gives an entry of a tag what says its one range.
fn set_range(
    alloc: Global,
    output_for: OutputFor,
    unit: &mut Unit,
    id: UnitEntryId,
    tag: u16,
    begin: Address,
    length: u64,
) -> Result<(), WriteError>
    requires known { IsAdded id.index unit.old }
    requires fits { (size : ℕ) → All (FitsRange size) ((begin, length) ∷ []) }
    ensures places { OnOk result (unit.new.places ≡ unit.old.places) }
    ensures given { (number : ℕ) (texts : List (List ℕ)) (base : GivenUnit) (e : Addition) → IsLast texts id base e unit.old → OnOk result (IsGiven number texts texts (with_base output_for (tag == DW_TAG_compile_unit) (said_intervals tag (interval_of (begin, length) ∷ []))) base e unit.new) }
{
    if tag != DW_TAG_compile_unit {
        return set_bounds(unit, id, begin, length);
    }
    let ranges = Vec::from_slice(alloc, &[(begin, length)])?;
    set_ranges(output_for, unit, id, tag, ranges)
}

// Gives an entry of a tag what says its extent.
fn set_extent(
    alloc: Global,
    output_for: OutputFor,
    unit: &mut Unit,
    id: UnitEntryId,
    tag: u16,
    extent: NativeExtent,
) -> Result<(), WriteError>
    requires known { IsAdded id.index unit.old }
    requires fits { FitsExtent extent }
    ensures places { OnOk result (unit.new.places ≡ unit.old.places) }
    ensures given { (number : ℕ) (texts : List (List ℕ)) (base : GivenUnit) (e : Addition) → IsLast texts id base e unit.old → OnOk result (IsGiven number texts texts (with_base output_for (tag == DW_TAG_compile_unit) (said_by tag extent)) base e unit.new) }
{
    match extent {
        NativeExtent::Intervals(ranges) => set_ranges(output_for, unit, id, tag, ranges),
        NativeExtent::Range(begin, length) => {
            set_range(alloc, output_for, unit, id, tag, begin, length)
        }
        NativeExtent::Position(address) => {
            unit.set(id, DW_AT_low_pc, AttributeValue::Address(address))
        }
        NativeExtent::Nowhere => Ok(()),
    }
}

/// Gives an entry of the output what says where its code is: a subprogram that begins in a function has that function whole, and another
/// entry what its extent is in the native code; for a debugger the list of a compile unit has a base. `speaks` tells whether the entry says
/// something of its code; `scope` is its extent as intervals of wasm offsets, where these are known already.
pub(crate) fn set_code(
    alloc: Global,
    source: &CloneSource<'_, '_>,
    entry: &Entry<'_>,
    function: Option<&FunctionMap<'_>>,
    speaks: bool,
    scope: Option<&[(u64, u64)]>,
    unit: &mut Unit,
    id: UnitEntryId,
) -> Result<(), WriteError>
    requires functions { HaveAddends source.now.transform.now }
    requires speaks { speaks ≡ have_code_name (entry_view entry.now).attributes }
    requires known { IsAdded id.index unit.old }
    requires symbol { IfSome function (λ f. IsSome f.now.symbol) }
    requires scope { IsScopeOf (list_source source.now.unit.now.sections source.now.unit.now.header) (entry_view entry.now) (option_map (λ is. is.now) scope) }
    requires begun { option_map (λ f. function_view f.now) function ≡ begun_function (list_source source.now.unit.now.sections source.now.unit.now.header) source.now.transform.now (entry_view entry.now) }
    ensures places { OnOk result (unit.new.places ≡ unit.old.places) }
    ensures given { (number : ℕ) (texts : List (List ℕ)) (base : GivenUnit) (e : Addition) → IsLast texts id base e unit.old → OnOk result (IsGiven number texts texts (code_said source.now (entry_view entry.now)) base e unit.new) }
{
    let Some(function) = function else {
        let extent = extent_by_scope(alloc, source, entry, speaks, scope)?;
        return set_extent(alloc, source.module.output_for, unit, id, entry.tag, extent);
    };
    let begin = Address::Symbol {
        symbol: function.symbol.unwrap(),
        addend: 0,
    };
    set_bounds(unit, id, begin, function.len as u64)
}
