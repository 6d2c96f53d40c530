//! Clones pointers and references: a wrapper stands in the place of each.
ghost use Rattle.std.specs.Prelude.{◌≡◌, ◌≢◌, ℕ, length, reverse, true, IfErr, OnOk};
ghost use Rattle.dwc_native.specs.Addends.{HaveAddends};
ghost use Rattle.dwc_rules.specs.Clones.{UnitSource};
ghost use Rattle.dwc_dwarf.specs.Lists.{list_source};
ghost use Rattle.dwc_rules.specs.RangeRefusals.{begins_by_low_pc};
ghost use Rattle.dwc_dwarf.specs.ReadValues.{IsReadEntry};
ghost use Rattle.dwc_rules.specs.Wrappers.{is_wrapped};
ghost use Rattle.dwc_read.specs.EntriesSeen.{entry_view};
ghost use Rattle.dwc_unit.specs.GivenUnits.{IsReserved};
ghost use Rattle.dwc_unit.specs.TextTables.{IsText};
ghost use Rattle.dwc_extents.specs.BoundRefusals.{IsSound};
ghost use Rattle.dwc_clone.specs.ClonedEntries.{AreKnown, CanAdd};
ghost use Rattle.dwc_source.specs.Sources.{placed_entry, IsEmitted, IsSource};
ghost use Rattle.dwc_extents.specs.CodeSources.{GivesInForce};
ghost use Rattle.dwc_source.specs.CompiledModules.{HasFrames};
ghost use Rattle.dwc_types.specs.KnownNames.{KnowsNames};
ghost use Rattle.dwc_source.specs.KnownTexts.{KnowsTexts};
ghost use Rattle.dwc_extents.specs.Lineages.{AreInForce};
ghost use Rattle.dwc_source.specs.MadeValues.{Grows};
ghost use Rattle.dwc_clone.specs.OpenWrappers.{CanCloseAll, IsOther};
ghost use Rattle.dwc_types.specs.TypeSteps.{AreNames};
ghost use Rattle.dwc_clone.specs.WrappedEntries.{AddsWrapper, GivesChecked, GivesWrapped, GivesWrapperName};
ghost use Rattle.dwc_source.specs.declared.error.CloneError.TheVariants.{OutOfMemory};

use crate::attribute::output_attribute;
use crate::entry::{add_entry, depth_of};
use crate::walk::Walk;
use crate::wrapper::{OpenWrapper, WrapperTexts, open_wrapper, wrapper_texts};
use dwc_base::constants::DW_TAG_structure_type;
use dwc_extents::Lineage;
use dwc_isa::TargetIsa;
use dwc_read::Entry;
use dwc_source::{CloneError, CloneSource, KnownTexts, of_memory};
use dwc_types::{TypeNames, name_of_wrapper, type_id, type_of};
use dwc_unit::{StringId, StringTable, Unit, UnitEntryId};
use std::alloc::Global;
use std::vec::Vec;

// Reads the attributes of an entry in order, of which nothing becomes.
fn check_attributes(
    alloc: Global,
    isa: &dyn TargetIsa,
    source: &CloneSource<'_, '_>,
    lineage: &Lineage,
    begins: bool,
    is_sound: bool,
    entry: &Entry<'_>,
    strings: &mut StringTable,
    known: &mut KnownTexts,
) -> Result<(), CloneError>
    requires functions { HaveAddends source.now.transform.now }
    requires begins { begins ≡ begins_by_low_pc (list_source source.now.unit.now.sections source.now.unit.now.header) source.now.transform.now (entry_view entry.now) }
    requires sound { is_sound ≡ true → IsSound (list_source source.now.unit.now.sections source.now.unit.now.header) (entry_view entry.now) }
    requires read { IsReadEntry (entry_view entry.now) }
    requires texts { KnowsTexts source.now.unit.now.sections strings.old known.old }
    ensures texts { KnowsTexts source.now.unit.now.sections strings.new known.new }
    ensures grows { Grows strings.old strings.new }
    ensures checked { (number : ℕ) (s : UnitSource) → IsSource source.now number s → GivesInForce source.now s (placed_entry source.now (entry_view entry.now)) lineage.now → GivesChecked (dwarf_registers isa.now) source.now s (placed_entry source.now (entry_view entry.now)) strings.old strings.new result }
{
    let attributes = entry.attrs();
    let mut number = 0;
    for attribute in attributes {
        output_attribute(
            alloc, isa, source, lineage, begins, is_sound, entry, number, attribute, strings, known,
        )?;
        number += 1;
    }
    Ok(())
}

// Reads the name of the wrapper of an entry, behind the entry's attributes, of which nothing becomes, and answers its number in the table of
// texts.
fn read_wrapper_name(
    alloc: Global,
    isa: &dyn TargetIsa,
    source: &CloneSource<'_, '_>,
    begins: bool,
    is_sound: bool,
    entry: &Entry<'_>,
    lineage: &Lineage,
    names: &mut TypeNames,
    strings: &mut StringTable,
    known: &mut KnownTexts,
) -> Result<StringId, CloneError>
    requires functions { HaveAddends source.now.transform.now }
    requires begins { begins ≡ begins_by_low_pc (list_source source.now.unit.now.sections source.now.unit.now.header) source.now.transform.now (entry_view entry.now) }
    requires sound { is_sound ≡ true → IsSound (list_source source.now.unit.now.sections source.now.unit.now.header) (entry_view entry.now) }
    requires read { IsReadEntry (entry_view entry.now) }
    requires texts { KnowsTexts source.now.unit.now.sections strings.old known.old }
    requires plain { AreNames names.old }
    ensures texts { KnowsTexts source.now.unit.now.sections strings.new known.new }
    ensures plain { AreNames names.new }
    ensures names { (number : ℕ) (s : UnitSource) → IsSource source.now number s → IsEmitted source.now s (placed_entry source.now (entry_view entry.now)) → KnowsNames source.now s strings.old names.old → OnOk result (KnowsNames source.now s strings.new names.new) }
    ensures named { (number : ℕ) (s : UnitSource) → IsSource source.now number s → HasFrames source.now.module source.now.transform.now → IsEmitted source.now s (placed_entry source.now (entry_view entry.now)) → KnowsNames source.now s strings.old names.old → AreInForce (list_source source.now.unit.now.sections source.now.unit.now.header) source.now.transform.now s.entries (placed_entry source.now (entry_view entry.now)) lineage.now → is_wrapped source.now.module.output_for (placed_entry source.now (entry_view entry.now)) ≡ true → GivesWrapperName (dwarf_registers isa.now) source.now s (placed_entry source.now (entry_view entry.now)) strings.old strings.new result }
{
    check_attributes(
        alloc, isa, source, lineage, begins, is_sound, entry, strings, known,
    )?;
    name_of_wrapper(alloc, source, entry, names, strings)
}

// Adds the structure that an entry becomes, under a number that was reserved, and opens its wrapper.
fn add_wrapper(
    source: &CloneSource<'_, '_>,
    entry: &Entry<'_>,
    id: UnitEntryId,
    texts: &WrapperTexts,
    parents: &mut Vec<UnitEntryId>,
    wrappers: &mut Vec<OpenWrapper>,
    unit: &mut Unit,
) -> Result<(), CloneError>
    requires parents { AreKnown parents.old.items unit.old }
    requires reserved { CanAdd id parents.old.items unit.old }
    requires other { IsOther id.index (reverse wrappers.old.items) }
    requires open { CanCloseAll (length unit.old.places) unit.old (reverse wrappers.old.items) }
    ensures parents { OnOk result (AreKnown parents.new.items unit.new) }
    ensures others { (k : ℕ) → IsReserved k unit.old → IsOther k (reverse wrappers.old.items) → k ≢ id.index → OnOk result (IsReserved k unit.new × IsOther k (reverse wrappers.new.items)) }
    ensures open { OnOk result (CanCloseAll (length unit.new.places) unit.new (reverse wrappers.new.items)) }
    ensures added { OnOk result (AddsWrapper source.now (placed_entry source.now (entry_view entry.now)) texts.now parents.old.items parents.new.items id wrappers.old.items wrappers.new.items unit.old unit.new) }
    ensures memory { IfErr result (λ e. e ≡ OutOfMemory) }
{
    let depth = depth_of(entry);
    let placed = of_memory(add_entry(unit, parents, depth, id, DW_TAG_structure_type))?;
    let target = type_id(type_of(source, entry));
    let wrapper = of_memory(open_wrapper(
        unit,
        depth,
        placed.parent,
        placed.id,
        target,
        source.wasm_ptr,
        texts,
    ))?;
    wrappers.push(wrapper)?;
    Ok(())
}

/// Adds the wrapper of a kept entry that is wrapped, under a number that was reserved; its types are added when it is closed. The
/// entry's attributes are read before the name of its type. What is in force at the entry is on top of the lineage.
pub(crate) fn wrap_entry(
    alloc: Global,
    isa: &dyn TargetIsa,
    source: &CloneSource<'_, '_>,
    begins: bool,
    is_sound: bool,
    entry: &Entry<'_>,
    id: UnitEntryId,
    walk: &mut Walk,
    unit: &mut Unit,
    strings: &mut StringTable,
    known: &mut KnownTexts,
) -> Result<(), CloneError>
    requires functions { HaveAddends source.now.transform.now }
    requires begins { begins ≡ begins_by_low_pc (list_source source.now.unit.now.sections source.now.unit.now.header) source.now.transform.now (entry_view entry.now) }
    requires sound { is_sound ≡ true → IsSound (list_source source.now.unit.now.sections source.now.unit.now.header) (entry_view entry.now) }
    requires read { IsReadEntry (entry_view entry.now) }
    requires resolve { IsText source.now.module.names.resolve_memory.now }
    requires parents { AreKnown walk.old.parents.items unit.old }
    requires reserved { CanAdd id walk.old.parents.items unit.old }
    requires other { IsOther id.index (reverse walk.old.opened.items) }
    requires open { CanCloseAll (length unit.old.places) unit.old (reverse walk.old.opened.items) }
    requires texts { KnowsTexts source.now.unit.now.sections strings.old known.old }
    requires plain { AreNames walk.old.names }
    ensures texts { KnowsTexts source.now.unit.now.sections strings.new known.new }
    ensures parents { OnOk result (AreKnown walk.new.parents.items unit.new) }
    ensures others { (k : ℕ) → IsReserved k unit.old → IsOther k (reverse walk.old.opened.items) → k ≢ id.index → OnOk result (IsReserved k unit.new × IsOther k (reverse walk.new.opened.items)) }
    ensures open { OnOk result (CanCloseAll (length unit.new.places) unit.new (reverse walk.new.opened.items)) }
    ensures plain { AreNames walk.new.names }
    ensures lineage { walk.new.lineage ≡ walk.old.lineage }
    ensures contexts { walk.new.contexts ≡ walk.old.contexts }
    ensures names { (number : ℕ) (s : UnitSource) → IsSource source.now number s → IsEmitted source.now s (placed_entry source.now (entry_view entry.now)) → KnowsNames source.now s strings.old walk.old.names → OnOk result (KnowsNames source.now s strings.new walk.new.names) }
    ensures wrapped { (number : ℕ) (s : UnitSource) → IsSource source.now number s → HasFrames source.now.module source.now.transform.now → IsEmitted source.now s (placed_entry source.now (entry_view entry.now)) → KnowsNames source.now s strings.old walk.old.names → AreInForce (list_source source.now.unit.now.sections source.now.unit.now.header) source.now.transform.now s.entries (placed_entry source.now (entry_view entry.now)) walk.old.lineage → is_wrapped source.now.module.output_for (placed_entry source.now (entry_view entry.now)) ≡ true → GivesWrapped (dwarf_registers isa.now) source.now s (placed_entry source.now (entry_view entry.now)) strings.old strings.new walk.old.parents.items walk.new.parents.items id walk.old.opened.items walk.new.opened.items unit.old unit.new result }
{
    let name = read_wrapper_name(
        alloc,
        isa,
        source,
        begins,
        is_sound,
        entry,
        &walk.lineage,
        &mut walk.names,
        strings,
        known,
    )?;
    let texts = of_memory(wrapper_texts(strings, source.module.names.resolve_memory, name))?;
    add_wrapper(
        source,
        entry,
        id,
        &texts,
        &mut walk.parents,
        &mut walk.opened,
        unit,
    )
}
