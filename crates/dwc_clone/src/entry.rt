//! Clones the kept entries of a unit, one after another.
ghost use Rattle.std.specs.Option.{option_to_list};
ghost use Rattle.std.specs.Prelude.{◌≡◌, ◌≢◌, ℕ, List, [], ◌∷◌, ◌++◌, false, true, length, reverse, take, Option, is_some, option_map, IfSome, IsSome, IfOk, OnOk, filter_map};
ghost use Rattle.dwc_dwarf.specs.Entries as Entries;
ghost use Rattle.dwc_rules.specs.Drafts.{Goal, Role};
ghost use Rattle.dwc_rules.specs.Wrappers.{is_wrapped};
ghost use Rattle.dwc_rules.specs.DraftForests.{settled};
ghost use Rattle.dwc_rules.specs.Clones.{UnitSource, endianity};
ghost use Rattle.dwc_native.specs.Addends.{HaveAddends};
ghost use Rattle.dwc_dwarf.specs.Lists.{list_source};
ghost use Rattle.dwc_rules.specs.RangeAttributes.{address_said as said_address, begun_function};
ghost use Rattle.dwc_addr.specs.Transforms.{function_view};
ghost use Rattle.dwc_rules.specs.RangeRefusals.{begins_by_low_pc};
ghost use Rattle.dwc_base.specs.declared.constants.TheConstants.{DW_AT_low_pc as low_pc};
ghost use Rattle.dwc_rules.specs.ContextVariable.{context_over};
ghost use Rattle.dwc_rules.specs.Kept.{Placed};
ghost use Rattle.dwc_dwarf.specs.ReadValues.{IsReadEntry};
ghost use Rattle.dwc_read.specs.EntriesSeen.{entry_view};
ghost use Rattle.dwc_unit.specs.GivenUnits.{Addition, GivenUnit, FitsValue, IsAdded, IsReserved};
ghost use Rattle.dwc_unit.specs.TextTables.{IsText};
ghost use Rattle.dwc_extents.specs.BoundRefusals.{IsSound};
ghost use Rattle.dwc_extents.specs.CodeNames.{have_code_name};
ghost use Rattle.dwc_source.specs.CompiledModules.{HasFrames};
ghost use Rattle.dwc_clone.specs.ClonedUnits.{placed_in};
ghost use Rattle.dwc_extents.specs.CodeSources.{GivesInForce, source_with};
ghost use Rattle.dwc_clone.specs.BegunNumbers.{NotesFunctions};
ghost use Rattle.dwc_clone.specs.BuiltUnits.{AreClonedSoFar, GivesEntry};
ghost use Rattle.dwc_clone.specs.OpenWrappers.{CanCloseAll, IsOther, KeepsNumbers};
ghost use Rattle.dwc_clone.specs.PlainEntries.{GivesItself};
ghost use Rattle.dwc_clone.specs.declared.entry.PlacedEntry.{PlacedEntry};
ghost use Rattle.dwc_extents.specs.Lineages.{AreInForce, AreWalked, HasOwnScope};
ghost use Rattle.dwc_source.specs.Sources.{AreEmitted, IsSource, placed_entry};
ghost use Rattle.dwc_types.specs.TypeSteps.{AreNames};
ghost use Rattle.dwc_source.specs.KnownTexts.{KnowsTexts};
ghost use Rattle.dwc_clone.specs.ContextPlaces.{AddsVariable};
ghost use Rattle.dwc_source.specs.MadeValues.{ArePlaced, Grows};
ghost use Rattle.dwc_clone.specs.Tellings.{tell_of, telling_of};
ghost use Rattle.dwc_clone.specs.ClonedEntries.{AddsBelow, AreKnown, CanAdd, GivesSet, IsGiven, IsLast, last_parent, with_made};

use crate::append_vmctx_info;
use crate::attribute::output_attribute;
use crate::begun_numbers::note_function;
use crate::code::set_code;
use crate::object_pointer::{Telling, entry_told, told_value};
use crate::walk::Walk;
use crate::wrapped::wrap_entry;
use crate::wrapper::close_wrappers;
use dwc_addr::FunctionMap;
use dwc_base::constants::{
    DW_AT_endianity, DW_AT_low_pc, DW_END_little, DW_FORM_data1, DW_TAG_base_type,
    DW_TAG_subprogram,
};
use dwc_extents::{Lineage, frame_in_force, in_force_by, of_expression, speaks_of_code};
use dwc_isa::TargetIsa;
use dwc_kept::{address_said, function_begun};
use dwc_read::Entry;
use dwc_section::WriteError;
use dwc_source::{CloneError, CloneSource, KnownTexts, is_wrapped, of_memory};
use dwc_unit::{AttributeValue, StringTable, Unit, UnitEntryId};
use std::alloc::Global;
use std::collections::BTreeSet;
use std::vec::Vec;

/// The depth of an entry below the root.
pub(crate) fn depth_of(entry: &Entry<'_>) -> usize
    ensures { result ≡ (entry_view entry.now).depth }
{
    entry.depth as usize
}

/// An entry that was added, and its parent; the root is its own.
#[derive(Clone, Copy)]
pub(crate) struct PlacedEntry {
    pub id: UnitEntryId,
    pub parent: UnitEntryId,
}

/// Adds the next entry in file order, of a depth and under a number that was reserved: below the last entry of the depth above it; without
/// one it is the root. `parents` are the last entry and those that it stands below, by their depths.
#[inline(always)]
pub(crate) fn add_entry(
    unit: &mut Unit,
    parents: &mut Vec<UnitEntryId>,
    depth: usize,
    id: UnitEntryId,
    tag: u16,
) -> Result<PlacedEntry, WriteError>
    requires known { AreKnown parents.old.items unit.old }
    requires reserved { CanAdd id parents.old.items unit.old }
    ensures known { OnOk result (AreKnown parents.new.items unit.new) }
    ensures added { IfOk result (λ placed. IsAdded placed.id.index unit.new) }
    ensures parents { IfOk result (λ placed. parents.new.items ≡ take depth parents.old.items ++ placed.id ∷ []) }
    ensures unit { IfOk result (λ placed. AddsBelow (last_parent depth parents.old.items) id tag unit.old unit.new placed) }
{
    parents.truncate(depth);
    let placed = match parents.last().copied() {
        None => PlacedEntry {
            id: unit.root(),
            parent: unit.root(),
        },
        Some(parent) => {
            unit.add_reserved(id, parent, tag)?;
            PlacedEntry { id, parent }
        }
    };
    parents.push(placed.id)?;
    Ok(placed)
}

// The same, with room for so many attributes.
fn add_entry_with_room(
    unit: &mut Unit,
    parents: &mut Vec<UnitEntryId>,
    depth: usize,
    id: UnitEntryId,
    tag: u16,
    room: usize,
) -> Result<PlacedEntry, WriteError>
    requires known { AreKnown parents.old.items unit.old }
    requires reserved { CanAdd id parents.old.items unit.old }
    ensures known { OnOk result (AreKnown parents.new.items unit.new) }
    ensures added { IfOk result (λ placed. IsAdded placed.id.index unit.new) }
    ensures parents { IfOk result (λ placed. parents.new.items ≡ take depth parents.old.items ++ placed.id ∷ []) }
    ensures unit { IfOk result (λ placed. AddsBelow (last_parent depth parents.old.items) id tag unit.old unit.new placed) }
{
    let placed = add_entry(unit, parents, depth, id, tag)?;
    unit.make_room_in(placed.id, room)?;
    Ok(placed)
}

// On a target with the highest byte first a base type says that it has the byte order of wasm. (DWARF 4, section 5.1.)
fn set_endianity(
    unit: &mut Unit,
    id: UnitEntryId,
    big_endian: bool,
    tag: u16,
) -> Result<(), WriteError>
    requires known { IsAdded id.index unit.old }
    ensures given { (number : ℕ) (texts : List (List ℕ)) (places : Goal → Option (ℕ × ℕ)) (base : GivenUnit) (e : Addition) (p : Placed) → IsLast texts id base e unit.old → p.entry.tag ≡ tag → OnOk result (IsGiven number texts texts (filter_map (settled places) (endianity big_endian p)) base e unit.new) }
    ensures places { OnOk result (unit.new.places ≡ unit.old.places) }
{
    if !big_endian || tag != DW_TAG_base_type {
        return Ok(());
    }
    let little = AttributeValue::Constant {
        form: DW_FORM_data1,
        bits: u64::from(DW_END_little),
    };
    unit.set(id, DW_AT_endianity, little)
}

// Gives an entry what is made of a value, if something is.
fn set_made(
    unit: &mut Unit,
    id: UnitEntryId,
    name: u16,
    value: Option<AttributeValue>,
) -> Result<(), WriteError>
    requires known { IsAdded id.index unit.old }
    requires fits { IfSome value (FitsValue unit.old.address_size name) }
    ensures { OnOk result (unit.new ≡ with_made id.index name value unit.old) }
{
    match value {
        None => Ok(()),
        Some(value) => unit.set(id, name, value),
    }
}

// Gives an entry what the attributes of another become, in their order.
fn set_attributes(
    alloc: Global,
    isa: &dyn TargetIsa,
    source: &CloneSource<'_, '_>,
    lineage: &Lineage,
    begins: bool,
    is_sound: bool,
    telling: Telling,
    entry: &Entry<'_>,
    unit: &mut Unit,
    id: UnitEntryId,
    strings: &mut StringTable,
    known: &mut KnownTexts,
) -> Result<(), CloneError>
    requires functions { HaveAddends source.now.transform.now }
    requires begins { begins ≡ begins_by_low_pc (list_source source.now.unit.now.sections source.now.unit.now.header) source.now.transform.now (entry_view entry.now) }
    requires sound { is_sound ≡ true → IsSound (list_source source.now.unit.now.sections source.now.unit.now.header) (entry_view entry.now) }
    requires read { IsReadEntry (entry_view entry.now) }
    requires known { IsAdded id.index unit.old }
    requires texts { KnowsTexts source.now.unit.now.sections strings.old known.old }
    ensures places { OnOk result (unit.new.places ≡ unit.old.places) }
    ensures texts { KnowsTexts source.now.unit.now.sections strings.new known.new }
    ensures given { (number : ℕ) (s : UnitSource) (goals : Goal → Option (ℕ × ℕ)) (base : GivenUnit) (e : Addition) → IsSource source.now number s → ArePlaced source.now.places.now goals → IsLast strings.old id base e unit.old → GivesInForce source.now s (placed_entry source.now (entry_view entry.now)) lineage.now → GivesSet goals (tell_of telling s.entries (placed_entry source.now (entry_view entry.now))) (dwarf_registers isa.now) source.now number s (placed_entry source.now (entry_view entry.now)) strings.old strings.new base e unit.new result }
{
    let attributes = entry.attrs();
    let mut number = 0;
    for attribute in attributes {
        let value = output_attribute(
            alloc, isa, source, lineage, begins, is_sound, entry, number, attribute, strings, known,
        )?;
        let value = told_value(
            alloc,
            source,
            telling,
            entry.offset,
            attribute,
            value,
            strings,
        )?;
        of_memory(set_made(unit, id, attribute.0, value))?;
        number += 1;
    }
    Ok(())
}

// Whether an entry has a `low_pc` that is an address that can be read.
fn has_begin(source: &CloneSource<'_, '_>, entry: &Entry<'_>) -> bool
    ensures { result ≡ is_some (said_address (list_source source.now.unit.now.sections source.now.unit.now.header) low_pc (entry_view entry.now)) }
{
    address_said(source.unit, entry, DW_AT_low_pc).is_some()
}

// Adds the variable of the context below a subprogram with a scope in force.
#[inline(always)]
fn add_context(
    alloc: Global,
    isa: &dyn TargetIsa,
    source: &CloneSource<'_, '_>,
    lineage: &Lineage,
    entry: &Entry<'_>,
    unit: &mut Unit,
    id: UnitEntryId,
    strings: &mut StringTable,
) -> Result<(), CloneError>
    requires functions { HaveAddends source.now.transform.now }
    requires parent { IsAdded id.index unit.old }
    ensures grows { Grows strings.old strings.new }
    ensures numbers { (but : ℕ) → OnOk result (KeepsNumbers but unit.old unit.new) }
    ensures variable { (s : UnitSource) → GivesInForce source.now s (placed_entry source.now (entry_view entry.now)) lineage.now → AddsVariable source.now.module.place (context_over (source_with (dwarf_registers isa.now) source.now s) (placed_entry source.now (entry_view entry.now))) id.index source.now.vmctx_ptr strings.new unit.old unit.new result }
{
    if entry.tag != DW_TAG_subprogram {
        return Ok(());
    }
    let frame = frame_in_force(source, lineage);
    let in_force = in_force_by(lineage, frame.as_ref());
    let Some(scope) = in_force.scope else {
        return Ok(());
    };
    match append_vmctx_info(
        alloc,
        unit,
        id,
        source.vmctx_ptr,
        source.transform,
        in_force.frame,
        scope,
        strings,
        isa,
    ) {
        Ok(()) => Ok(()),
        Err(error) => Err(of_expression(error, source.module.place)),
    }
}

// Room is made for so many attributes at most: most entries have fewer, and an entry may have many that go.
const MOST_ROOM: usize = 16;

// Adds what a kept entry becomes that is not wrapped: an entry under a number that was reserved, and the variable of the context. What
// is in force at the entry is on top of the lineage.
fn clone_itself(
    alloc: Global,
    isa: &dyn TargetIsa,
    source: &CloneSource<'_, '_>,
    function: Option<&FunctionMap<'_>>,
    speaks: bool,
    begins: bool,
    is_sound: bool,
    telling: Telling,
    entry: &Entry<'_>,
    id: UnitEntryId,
    walk: &mut Walk,
    unit: &mut Unit,
    strings: &mut StringTable,
    known: &mut KnownTexts,
) -> Result<(), CloneError>
    requires functions { HaveAddends source.now.transform.now }
    requires speaks { speaks ≡ have_code_name (entry_view entry.now).attributes }
    requires symbol { IfSome function (λ f. IsSome f.now.symbol) }
    requires begun { option_map (λ f. function_view f.now) function ≡ begun_function (list_source source.now.unit.now.sections source.now.unit.now.header) source.now.transform.now (entry_view entry.now) }
    requires begins { begins ≡ begins_by_low_pc (list_source source.now.unit.now.sections source.now.unit.now.header) source.now.transform.now (entry_view entry.now) }
    requires sound { is_sound ≡ true → IsSound (list_source source.now.unit.now.sections source.now.unit.now.header) (entry_view entry.now) }
    requires own { HasOwnScope (list_source source.now.unit.now.sections source.now.unit.now.header) source.now.transform.now (entry_view entry.now) walk.old.lineage }
    requires read { IsReadEntry (entry_view entry.now) }
    requires parents { AreKnown walk.old.parents.items unit.old }
    requires reserved { CanAdd id walk.old.parents.items unit.old }
    requires texts { KnowsTexts source.now.unit.now.sections strings.old known.old }
    ensures texts { KnowsTexts source.now.unit.now.sections strings.new known.new }
    ensures parents { OnOk result (AreKnown walk.new.parents.items unit.new) }
    ensures numbers { OnOk result (KeepsNumbers id.index unit.old unit.new) }
    ensures lineage { walk.new.lineage ≡ walk.old.lineage }
    ensures contexts { walk.new.contexts ≡ walk.old.contexts }
    ensures wrappers { walk.new.opened ≡ walk.old.opened }
    ensures names { walk.new.names ≡ walk.old.names }
    ensures itself { (number : ℕ) (s : UnitSource) (goals : Goal → Option (ℕ × ℕ)) (bare base : GivenUnit) (placed : PlacedEntry) (e : Addition) → IsSource source.now number s → HasFrames source.now.module source.now.transform.now → ArePlaced source.now.places.now goals → AreInForce (list_source source.now.unit.now.sections source.now.unit.now.header) source.now.transform.now s.entries (placed_entry source.now (entry_view entry.now)) walk.old.lineage → telling ≡ telling_of s.texts s.entries (placed_entry source.now (entry_view entry.now)) → is_wrapped source.now.module.output_for (placed_entry source.now (entry_view entry.now)) ≡ false → AddsBelow (last_parent (entry_view entry.now).depth walk.old.parents.items) id (entry_view entry.now).tag unit.old bare placed → IsLast strings.old placed.id base e bare → GivesItself goals (dwarf_registers isa.now) source.now number s (placed_entry source.now (entry_view entry.now)) strings.old strings.new walk.old.parents.items walk.new.parents.items placed base e unit.new result }
{
    let depth = depth_of(entry);
    let room = entry.attrs().len().min(MOST_ROOM);
    let placed = of_memory(add_entry_with_room(
        unit,
        &mut walk.parents,
        depth,
        id,
        entry.tag,
        room,
    ))?;
    let id = placed.id;
    let scope = walk.lineage.own_scope(entry);
    of_memory(set_code(alloc, source, entry, function, speaks, scope, unit, id))?;
    set_attributes(
        alloc,
        isa,
        source,
        &walk.lineage,
        begins,
        is_sound,
        telling,
        entry,
        unit,
        id,
        strings,
        known,
    )?;
    of_memory(set_endianity(unit, id, source.big_endian, entry.tag))?;
    add_context(alloc, isa, source, &walk.lineage, entry, unit, id, strings)
}

/// Adds what a kept entry becomes, the next one in file order, under a number that was reserved for it. Wrappers that it does not lie in
/// are closed before. `walk` is what is known of the entries before it, and then of it too. The number of the function that it begins in
/// is added to `translated`.
pub(crate) fn clone_entry(
    alloc: Global,
    isa: &dyn TargetIsa,
    source: &CloneSource<'_, '_>,
    entry: &Entry<'_>,
    id: UnitEntryId,
    walk: &mut Walk,
    unit: &mut Unit,
    strings: &mut StringTable,
    known: &mut KnownTexts,
    translated: &mut BTreeSet<usize>,
) -> Result<(), CloneError>
    requires functions { HaveAddends source.now.transform.now }
    requires read { IsReadEntry (entry_view entry.now) }
    requires resolve { IsText source.now.module.names.resolve_memory.now }
    requires parents { AreKnown walk.old.parents.items unit.old }
    requires reserved { CanAdd id walk.old.parents.items unit.old }
    requires other { IsOther id.index (reverse walk.old.opened.items) }
    requires wrappers { CanCloseAll (length unit.old.places) unit.old (reverse walk.old.opened.items) }
    requires plain { AreNames walk.old.names }
    requires texts { KnowsTexts source.now.unit.now.sections strings.old known.old }
    ensures texts { KnowsTexts source.now.unit.now.sections strings.new known.new }
    ensures plain { AreNames walk.new.names }
    ensures noted { OnOk result (NotesFunctions (option_to_list (begun_function (list_source source.now.unit.now.sections source.now.unit.now.header) source.now.transform.now (entry_view entry.now))) translated.old translated.new) }
    ensures parents { OnOk result (AreKnown walk.new.parents.items unit.new) }
    ensures others { (k : ℕ) → IsReserved k unit.old → IsOther k (reverse walk.old.opened.items) → k ≢ id.index → OnOk result (IsReserved k unit.new × IsOther k (reverse walk.new.opened.items)) }
    ensures wrappers { OnOk result (CanCloseAll (length unit.new.places) unit.new (reverse walk.new.opened.items)) }
    ensures cloned { (number : ℕ) (s : UnitSource) (roles : ℕ → Role → Option ℕ) (es others : List Entries.Entry) (old : List (List ℕ)) (begun : GivenUnit) → IsSource source.now number s → HasFrames source.now.module source.now.transform.now → AreEmitted source.now s number (es ++ entry_view entry.now ∷ others) → AreWalked s.entries (placed_in source.now.unit.now.header.offset (es ++ entry_view entry.now ∷ others)) → id.index ≡ length es → AreClonedSoFar (dwarf_registers isa.now) source.now number s roles es (entry_view entry.now ∷ others) old strings.old begun unit.old walk.old.parents.items (reverse walk.old.opened.items) walk.old.lineage walk.old.contexts walk.old.names → GivesEntry (dwarf_registers isa.now) source.now number s roles es (entry_view entry.now) others old strings.new begun unit.new walk.new.parents.items (reverse walk.new.opened.items) walk.new.lineage walk.new.contexts walk.new.names result }
{
    of_memory(close_wrappers(unit, &mut walk.opened, depth_of(entry)))?;
    let telling = entry_told(alloc, source, entry, &mut walk.contexts)?;
    let function = function_begun(source.unit, entry, source.transform);
    note_function(translated, function)?;
    let begins = function.is_some() && has_begin(source, entry);
    let speaks = speaks_of_code(entry);
    let is_sound = walk.lineage.enter(alloc, source, entry, function, speaks)?;
    if is_wrapped(source.module.output_for, entry) {
        return wrap_entry(
            alloc, isa, source, begins, is_sound, entry, id, walk, unit, strings, known,
        );
    }
    clone_itself(
        alloc, isa, source, function, speaks, begins, is_sound, telling, entry, id, walk, unit,
        strings, known,
    )
}
