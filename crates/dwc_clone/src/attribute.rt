//! What attributes become. (DWARF 4 and 5, section 2.2.)
ghost use Rattle.std.specs.Prelude.{◌≡◌, ◌<◌, ℕ, List, true, length, take, IfOk, IfSome};
ghost use Rattle.dwc_base.specs.declared.constants.TheConstants.{DW_AT_stmt_list};
ghost use Rattle.dwc_rules.specs.Kept.{Placed};
ghost use Rattle.dwc_dwarf.specs.Values.{Value};
ghost use Rattle.dwc_dwarf.specs.ReadValues.{IsReadValue};
ghost use Rattle.dwc_native.specs.Addends.{HaveAddends};
ghost use Rattle.dwc_dwarf.specs.Lists.{list_source};
ghost use Rattle.dwc_rules.specs.RangeRefusals.{begins_by_low_pc};
ghost use Rattle.dwc_rules.specs.Clones.{UnitSource, attribute_becomes, kept_unless, table_becomes, value_becomes};
ghost use Rattle.dwc_read.specs.ValuesSeen.{value_view, attribute_view};
ghost use Rattle.dwc_read.specs.EntriesSeen.{entry_view};
ghost use Rattle.dwc_unit.specs.GivenUnits.{FitsValue};
ghost use Rattle.dwc_extents.specs.BoundRefusals.{IsSound};
ghost use Rattle.dwc_source.specs.declared.places.EmittedEntry.{EmittedEntry};
ghost use Rattle.dwc_source.specs.Sources.{AreFiles, IsSource};
ghost use Rattle.dwc_extents.specs.CodeSources.{GivesInForce, clone_rules};
ghost use Rattle.dwc_source.specs.KnownTexts.{KnowsTexts};
ghost use Rattle.dwc_source.specs.MadeValues.{GivesMade, Grows, Says, SaysMore};

use crate::value::output_value;
use dwc_base::constants::DW_AT_stmt_list;
use dwc_extents::{Lineage, check_bound};
use dwc_isa::TargetIsa;
use dwc_read::{AttributeValue as InputValue, Entry};
use dwc_source::{CloneError, CloneSource, KnownTexts, is_bound_name, is_dropped_name, is_gone};
use dwc_unit::{AttributeValue, StringTable};
use std::alloc::Global;

// The line table of the unit, which its root names.
fn line_table(source: &CloneSource<'_, '_>, entry: &Entry<'_>) -> Option<AttributeValue>
    ensures made { (s : UnitSource) (e : Placed) (places : List EmittedEntry) (number : ℕ) (texts : List (List ℕ)) → AreFiles source.now.files s.output_version s.version s.table → e.entry ≡ entry_view entry.now → Says places number DW_AT_stmt_list texts (table_becomes s e) result }
    ensures fits { (size : ℕ) → IfSome result (FitsValue size DW_AT_stmt_list) }
{
    if entry.depth == 0 && source.files.count.is_some() {
        Some(AttributeValue::LineProgramRef)
    } else {
        None
    }
}

// Reads a value of an entry under a name that goes once it was read; nothing becomes of it.
#[inline(never)]
fn gone_value(
    alloc: Global,
    isa: &dyn TargetIsa,
    source: &CloneSource<'_, '_>,
    lineage: &Lineage,
    entry: &Entry<'_>,
    number: usize,
    name: u16,
    value: InputValue<'_>,
    strings: &mut StringTable,
    known: &mut KnownTexts,
) -> Result<Option<AttributeValue>, CloneError>
    requires functions { HaveAddends source.now.transform.now }
    requires read { IsReadValue name (value_view value) }
    requires known { KnowsTexts source.now.unit.now.sections strings.old known.old }
    ensures made { (unit : ℕ) (s : UnitSource) (e : Placed) (before : List (ℕ × Value)) → IsSource source.now unit s → e.unit ≡ source.now.unit.now.header.offset → e.entry ≡ entry_view entry.now → length before ≡ number → GivesInForce source.now s e lineage.now → GivesMade (SaysMore source.now.places.now unit name strings.old strings.new) (kept_unless true (value_becomes (clone_rules (dwarf_registers isa.now) source.now s) s e before name (value_view value.entry))) result }
    ensures fits { IfOk result (λ v. (size : ℕ) → IfSome v (FitsValue size name)) }
    ensures known { KnowsTexts source.now.unit.now.sections strings.new known.new }
    ensures grows { Grows strings.old strings.new }
{
    output_value(
        alloc, isa, source, lineage, entry, number, name, value, strings, known,
    )?;
    Ok(None)
}

/// What an attribute of an entry becomes; None where it goes. `begins` tells whether the entry is a subprogram that begins in a function
/// by its `low_pc`, `is_sound` that nothing is refused of its extent; `number` attributes come before this one. Texts are added to
/// `strings`, and noted in `known`, by which they are found when they are named again.
///
/// # Errors
/// `Read` with the entry's offset where a text, or an address by an index, cannot be read, at a list, or at an expression; `LongRange`
/// where a start plus a length is no address; `BadLabelRange`, `InvalidAttributeValue`, `UnmappedRegister` and `LongJump` for an
/// expression that is built over its scope. `OutOfMemory` for want of memory.
#[inline(always)]
pub(crate) fn output_attribute(
    alloc: Global,
    isa: &dyn TargetIsa,
    source: &CloneSource<'_, '_>,
    lineage: &Lineage,
    begins: bool,
    is_sound: bool,
    entry: &Entry<'_>,
    number: usize,
    attribute: &(u16, InputValue<'_>),
    strings: &mut StringTable,
    known: &mut KnownTexts,
) -> Result<Option<AttributeValue>, CloneError>
    requires functions { HaveAddends source.now.transform.now }
    requires begins { begins ≡ begins_by_low_pc (list_source source.now.unit.now.sections source.now.unit.now.header) source.now.transform.now (entry_view entry.now) }
    requires sound { is_sound ≡ true → IsSound (list_source source.now.unit.now.sections source.now.unit.now.header) (entry_view entry.now) }
    requires within { number < length (entry_view entry.now).attributes }
    requires read { IsReadValue attribute.now.0 (value_view attribute.now.1) }
    requires known { KnowsTexts source.now.unit.now.sections strings.old known.old }
    ensures made { (unit : ℕ) (s : UnitSource) (e : Placed) (before : List (ℕ × Value)) → IsSource source.now unit s → e.unit ≡ source.now.unit.now.header.offset → e.entry ≡ entry_view entry.now → before ≡ take number (entry_view entry.now).attributes → GivesInForce source.now s e lineage.now → GivesMade (SaysMore source.now.places.now unit attribute.now.0 strings.old strings.new) (attribute_becomes (clone_rules (dwarf_registers isa.now) source.now s) s e before (attribute_view attribute.now)) result }
    ensures fits { IfOk result (λ v. (size : ℕ) → IfSome v (FitsValue size attribute.now.0)) }
    ensures known { KnowsTexts source.now.unit.now.sections strings.new known.new }
    ensures grows { Grows strings.old strings.new }
{
    let (name, value) = *attribute;
    if is_dropped_name(name) {
        return Ok(None);
    }
    if name == DW_AT_stmt_list {
        return Ok(line_table(source, entry));
    }
    if is_bound_name(name) {
        check_bound(
            alloc, source, lineage, begins, is_sound, entry, number, name, value, known,
        )?;
        return Ok(None);
    }
    if is_gone(source.module.output_for, entry, name) {
        return gone_value(
            alloc, isa, source, lineage, entry, number, name, value, strings, known,
        );
    }
    output_value(
        alloc, isa, source, lineage, entry, number, name, value, strings, known,
    )
}
