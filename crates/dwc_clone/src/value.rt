//! What values become, under names that do not decide alone. (DWARF 4 and 5, section 7.5.)
ghost use Rattle.std.specs.Prelude.{◌≡◌, ℕ, ◌<◌, List, length, true, false, Some, IfOk, IfSome, IsOkUnless, IsTrue, option_map};
ghost use Rattle.dwc_base.specs.declared.section_name.SectionName.TheVariants.{Info};
ghost use Rattle.dwc_base.specs.declared.faults.What.TheVariants.{Text};
ghost use Rattle.dwc_base.specs.Sections.{reported};
ghost use Rattle.dwc_dwarf.specs.Trees as Trees;
ghost use Rattle.dwc_native.specs.Addends.{HaveAddends};
ghost use Rattle.dwc_dwarf.specs.RawLists.{is_range_list};
ghost use Rattle.dwc_dwarf.specs.Values.{Value, is_expression_name, is_range_name};
ghost use Rattle.dwc_rules.specs.Kept.{Placed};
ghost use Rattle.dwc_dwarf.specs.ReadValues.{IsReadValue, is_constant_form, constant_bound};
ghost use Rattle.dwc_dwarf.specs.Texts.{text_named};
ghost use Rattle.dwc_dwarf.specs.Indexed.{texts_of_unit};
ghost use Rattle.dwc_rules.specs.Refusals.{of_place};
ghost use Rattle.dwc_rules.specs.EntryRules.{of_list};
ghost use Rattle.dwc_dwarf.specs.Lists.{list_source};
ghost use Rattle.dwc_rules.specs.RangeRules.{code_becomes, told_as};
ghost use Rattle.dwc_rules.specs.Clones.{UnitSource, constant_form, constant_becomes, text_drafted, value_becomes};
ghost use Rattle.dwc_rules.specs.Drafts.{done};
ghost use Rattle.dwc_read.specs.EntriesSeen.{entry_view};
ghost use Rattle.dwc_read.specs.ValuesSeen.{value_view};
ghost use Rattle.dwc_unit.specs.GivenUnits.{FitsValue};
ghost use Rattle.dwc_source.specs.declared.places.EmittedEntry.{EmittedEntry};
ghost use Rattle.dwc_source.specs.Sources.{AreFiles, IsSource};
ghost use Rattle.dwc_extents.specs.CodeSources.{GivesInForce, clone_rules};
ghost use Rattle.dwc_source.specs.KnownTexts.{KnowsTexts};
ghost use Rattle.dwc_source.specs.MadeValues.{GivesMade, Grows, Says, SaysMore, any_reference, is_address, own_reference, target_place};

use crate::reference::target_place;
use dwc_base::constants::{DW_FORM_implicit_const, DW_FORM_sdata, DW_FORM_udata};
use dwc_extents::{Lineage, carried_address, native_ranges, output_expression, output_locations};
use dwc_isa::TargetIsa;
use dwc_read::{AttributeValue as InputValue, Entry};
use dwc_source::{
    CloneError, CloneSource, KnownTexts, UnitFiles, is_file_name, text_of, text_place_of,
};
use dwc_unit::{AttributeValue, DebugInfoRef, RangeList, StringTable, UnitEntryId, UnitId};
use std::alloc::Global;

// A constant's form in the output, where abbreviations hold no values.
fn constant_form(form: u16) -> u16
    ensures { result ≡ constant_form form }
{
    if form == DW_FORM_implicit_const {
        DW_FORM_sdata
    } else {
        form
    }
}

// What a constant becomes: a file's number is another in the output, and one of a missing file goes.
fn constant(files: UnitFiles, name: u16, form: u16, bits: u64) -> Option<AttributeValue>
    requires form { is_constant_form form ≡ true }
    requires bits { bits < constant_bound form }
    ensures made { (s : UnitSource) (places : List EmittedEntry) (number : ℕ) (texts : List (List ℕ)) → AreFiles files s.output_version s.version s.table → Says places number name texts (option_map done (constant_becomes s name form bits)) result }
    ensures fits { (size : ℕ) → IfSome result (FitsValue size name) }
{
    if is_file_name(name) {
        return Some(AttributeValue::Constant {
            form: DW_FORM_udata,
            bits: files.number(bits)?,
        });
    }
    Some(AttributeValue::Constant {
        form: constant_form(form),
        bits,
    })
}

// What a text of the entry at an offset becomes. One that was added already is found by its place, and not read again.
fn text(
    source: &CloneSource<'_, '_>,
    offset: u64,
    name: u16,
    value: InputValue<'_>,
    strings: &mut StringTable,
    known: &mut KnownTexts,
) -> Result<Option<AttributeValue>, CloneError>
    requires read { IsReadValue name (value_view value) }
    requires known { KnowsTexts source.now.unit.now.sections strings.old known.old }
    ensures made { (places : List EmittedEntry) (number : ℕ) → GivesMade (SaysMore places number name strings.old strings.new) (text_drafted of_place (reported Text Info offset (text_named (texts_of_unit source.now.unit.now.sections source.now.unit.now.header) (value_view value.entry)))) result }
    ensures fits { IfOk result (λ v. (size : ℕ) → IfSome v (FitsValue size name)) }
    ensures known { KnowsTexts source.now.unit.now.sections strings.new known.new }
    ensures grows { Grows strings.old strings.new }
{
    let place = text_place_of(source.unit, offset, value)?;
    if let Some(Some(id)) = known.find(place) {
        return Ok(Some(AttributeValue::StringRef(id)));
    }
    let Some(text) = text_of(source.unit, offset, value)? else {
        return Ok(None);
    };
    let Ok(id) = strings.add(text) else {
        return Err(CloneError::OutOfMemory);
    };
    known.note(place, Some(id))?;
    Ok(Some(AttributeValue::StringRef(id)))
}

// What a reference within the unit becomes.
fn unit_reference(source: &CloneSource<'_, '_>, value: InputValue<'_>) -> Option<AttributeValue>
    ensures { result ≡ option_map own_reference (target_place source.now (value_view value.entry)) }
{
    let place = target_place(source, value)?;
    Some(AttributeValue::UnitRef(UnitEntryId { index: place.entry }))
}

// What a reference to any entry becomes.
fn info_reference(source: &CloneSource<'_, '_>, value: InputValue<'_>) -> Option<AttributeValue>
    ensures { result ≡ option_map any_reference (target_place source.now (value_view value.entry)) }
{
    let place = target_place(source, value)?;
    let unit = UnitId { index: place.unit };
    let entry = UnitEntryId { index: place.entry };
    Some(AttributeValue::DebugInfoRef(DebugInfoRef::Entry(unit, entry)))
}

// A block with its bytes.
fn block(alloc: Global, bytes: &[u8]) -> Result<AttributeValue, CloneError>
    ensures made { (places : List EmittedEntry) (number name : ℕ) (texts : List (List ℕ)) → is_expression_name name ≡ false → IfOk result (λ v. Says places number name texts (Some (done (Trees.block bytes.now))) (Some v)) }
    ensures fits { (size name : ℕ) → is_expression_name name ≡ false → IfOk result (FitsValue size name) }
    ensures memory { IsOkUnless result CloneError.OutOfMemory }
{
    Ok(AttributeValue::Block(bytes.to_vec(alloc)?))
}

// What an address of the entry at an offset becomes.
fn address(
    source: &CloneSource<'_, '_>,
    offset: u64,
    value: InputValue<'_>,
) -> Result<Option<AttributeValue>, CloneError>
    requires functions { HaveAddends source.now.transform.now }
    ensures made { (number name : ℕ) (texts : List (List ℕ)) → is_address (value_view value.entry) ≡ true → GivesMade (Says source.now.places.now number name texts) (told_as of_list (code_becomes (list_source source.now.unit.now.sections source.now.unit.now.header) source.now.transform.now offset (value_view value.entry))) result }
    ensures fits { (size name : ℕ) → IfOk result (λ v. IfSome v (FitsValue size name)) }
{
    match source.unit.address_of(&value) {
        Ok(Some(address)) => {
            let native = carried_address(source.transform, address);
            Ok(Some(AttributeValue::Address(native)))
        }
        Ok(None) => Ok(None),
        Err(fault) => Err(CloneError::from(fault.at(offset))),
    }
}

// What a range list of the entry at an offset becomes: the list of what its intervals are translated to, which may have none.
fn range_list(
    alloc: Global,
    source: &CloneSource<'_, '_>,
    offset: u64,
    value: InputValue<'_>,
) -> Result<AttributeValue, CloneError>
    requires functions { HaveAddends source.now.transform.now }
    requires list { IsTrue (is_range_list (value_view value)) }
    ensures made { (number name : ℕ) (texts : List (List ℕ)) → is_range_name name ≡ true → GivesMade (λ draft v. Says source.now.places.now number name texts draft (Some v)) (told_as of_list (code_becomes (list_source source.now.unit.now.sections source.now.unit.now.header) source.now.transform.now offset (value_view value.entry))) result }
    ensures fits { (size name : ℕ) → is_range_name name ≡ true → IfOk result (FitsValue size name) }
{
    let native = native_ranges(alloc, source.unit, source.transform, offset, value)?;
    match native.fault {
        None => Ok(AttributeValue::RangeListRef(RangeList::new(native.ranges))),
        Some(fault) => Err(CloneError::from(fault)),
    }
}

// What any value of an entry becomes.
#[inline(never)]
fn any_value(
    alloc: Global,
    isa: &dyn TargetIsa,
    source: &CloneSource<'_, '_>,
    lineage: &Lineage,
    entry: &Entry<'_>,
    number: usize,
    name: u16,
    value: InputValue<'_>,
    strings: &mut StringTable,
    known: &mut KnownTexts,
) -> Result<Option<AttributeValue>, CloneError>
    requires functions { HaveAddends source.now.transform.now }
    requires read { IsReadValue name (value_view value) }
    requires known { KnowsTexts source.now.unit.now.sections strings.old known.old }
    ensures made { (unit : ℕ) (s : UnitSource) (e : Placed) (before : List (ℕ × Value)) → IsSource source.now unit s → e.unit ≡ source.now.unit.now.header.offset → e.entry ≡ entry_view entry.now → length before ≡ number → GivesInForce source.now s e lineage.now → GivesMade (SaysMore source.now.places.now unit name strings.old strings.new) (value_becomes (clone_rules (dwarf_registers isa.now) source.now s) s e before name (value_view value.entry)) result }
    ensures fits { IfOk result (λ v. (size : ℕ) → IfSome v (FitsValue size name)) }
    ensures known { KnowsTexts source.now.unit.now.sections strings.new known.new }
    ensures grows { Grows strings.old strings.new }
{
    match value {
        InputValue::Constant { form, bits } => Ok(constant(source.files, name, form, bits)),
        InputValue::Flag(flag) => Ok(Some(AttributeValue::Flag(flag))),
        InputValue::Block(bytes) => Ok(Some(block(alloc, bytes)?)),
        InputValue::Text(_) | InputValue::TextRef { .. } => {
            text(source, entry.offset, name, value, strings, known)
        }
        InputValue::UnitRef(_) => Ok(unit_reference(source, value)),
        InputValue::InfoRef(_) => Ok(info_reference(source, value)),
        InputValue::LineRef(_) | InputValue::Dropped => Ok(None),
        InputValue::Addr(_) | InputValue::AddrIndex(_) => address(source, entry.offset, value),
        InputValue::RangeRef(_) | InputValue::RangeIndex(_) => {
            Ok(Some(range_list(alloc, source, entry.offset, value)?))
        }
        InputValue::Exprloc(bytes) => {
            output_expression(alloc, isa, source, lineage, entry, number, name, bytes)
        }
        InputValue::LocRef(_) | InputValue::LocIndex(_) => {
            output_locations(alloc, isa, source, lineage, entry, value)
        }
    }
}

/// What a value of an entry becomes, under a name that does not decide alone; None where it goes. Texts are added to
/// `strings`, and noted in `known`, by which they are found when they are named again.
///
/// # Errors
/// `Read` with the entry's offset where a text, or an address by an index, cannot be read, at a list, or at an expression; `LongRange`
/// where a start plus a length in a list is no address; `BadLabelRange`, `InvalidAttributeValue`, `UnmappedRegister` and `LongJump` for
/// an expression that is built over its scope. `OutOfMemory` for want of memory.
#[inline(always)]
pub(crate) fn output_value(
    alloc: Global,
    isa: &dyn TargetIsa,
    source: &CloneSource<'_, '_>,
    lineage: &Lineage,
    entry: &Entry<'_>,
    number: usize,
    name: u16,
    value: InputValue<'_>,
    strings: &mut StringTable,
    known: &mut KnownTexts,
) -> Result<Option<AttributeValue>, CloneError>
    requires functions { HaveAddends source.now.transform.now }
    requires read { IsReadValue name (value_view value) }
    requires known { KnowsTexts source.now.unit.now.sections strings.old known.old }
    ensures made { (unit : ℕ) (s : UnitSource) (e : Placed) (before : List (ℕ × Value)) → IsSource source.now unit s → e.unit ≡ source.now.unit.now.header.offset → e.entry ≡ entry_view entry.now → length before ≡ number → GivesInForce source.now s e lineage.now → GivesMade (SaysMore source.now.places.now unit name strings.old strings.new) (value_becomes (clone_rules (dwarf_registers isa.now) source.now s) s e before name (value_view value.entry)) result }
    ensures fits { IfOk result (λ v. (size : ℕ) → IfSome v (FitsValue size name)) }
    ensures known { KnowsTexts source.now.unit.now.sections strings.new known.new }
    ensures grows { Grows strings.old strings.new }
{
    match value {
        InputValue::Constant { form, bits } => Ok(constant(source.files, name, form, bits)),
        InputValue::Flag(flag) => Ok(Some(AttributeValue::Flag(flag))),
        InputValue::UnitRef(_) => Ok(unit_reference(source, value)),
        // The common ones above stay in registers, as the result of the call has a place of its own.
        _ => {
            let made = any_value(
                alloc, isa, source, lineage, entry, number, name, value, strings, known,
            )?;
            Ok(made)
        }
    }
}
