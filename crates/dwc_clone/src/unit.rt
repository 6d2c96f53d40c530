//! Clones the kept entries of a unit.
ghost use Rattle.std.specs.Prelude.{◌≡◌, ◌-◌, ℕ, None, All, OnOk};
ghost use Rattle.std.specs.List.{filter_map};
ghost use Rattle.dwc_dwarf.specs.Entries.{entries as entries_of};
ghost use Rattle.dwc_dwarf.specs.Lists.{list_source};
ghost use Rattle.dwc_rules.specs.RangeAttributes.{begun_function};
ghost use Rattle.dwc_native.specs.Addends.{HaveAddends};
ghost use Rattle.dwc_rules.specs.Clones.{UnitSource};
ghost use Rattle.dwc_dwarf.specs.ReadValues.{IsReadEntry};
ghost use Rattle.dwc_unit.specs.GivenUnits.{new_unit};
ghost use Rattle.dwc_unit.specs.TextTables.{IsText};
ghost use Rattle.dwc_clone.specs.BegunNumbers.{NotesFunctions};
ghost use Rattle.dwc_source.specs.Sources.{AreEmitted, IsSource};
ghost use Rattle.dwc_source.specs.KnownTexts.{KnowsTexts};
ghost use Rattle.dwc_clone.specs.ClonedUnits.{picked, placed_in, AreClonable, GivesCloned};
ghost use Rattle.dwc_source.specs.CompiledModules.{HasFrames};
ghost use Rattle.dwc_extents.specs.Lineages.{AreWalked};
ghost use Rattle.dwc_clone.specs.OpenWrappers.{reserved_more};

use crate::entry::clone_entry;
use crate::walk::begin_walk;
use crate::wrapper::close_wrappers;
use dwc_isa::TargetIsa;
use dwc_section::WriteError;
use dwc_source::{CloneError, CloneSource, KnownTexts, of_memory};
use dwc_unit::{StringTable, Unit, UnitEntryId};
use std::alloc::Global;
use std::collections::BTreeSet;

// Room is made for a quarter more entries than are kept: wrappers and the variables of contexts are seldom more.
const ROOM_PART: usize = 4;

// Reserves the numbers of so many kept entries, of which the first is the root.
fn reserve_kept(unit: &mut Unit, count: usize) -> Result<(), WriteError>
    ensures { OnOk result (unit.new ≡ reserved_more (count - 1) unit.old) }
{
    unit.make_room(count.saturating_add(count / ROOM_PART))?;
    for _ in 1..count {
        unit.reserve()?;
    }
    Ok(())
}

/// The unit of the output that is made of the kept entries of a unit: `begun`, which has a root alone, with one entry for each of those
/// at `kept`, the offsets in `.debug_info` of the unit's kept entries in file order. The unit's entries are read once, up to the last
/// kept one. Texts are added to `strings`, and noted in `known`, by which they are found when they are named again. The numbers of the
/// functions that kept subprograms begin in are added to `translated`.
///
/// # Errors
/// What is refused first of the kept entries, in file order, attribute by attribute: `Read` with the entry's offset where a text, or an
/// address by an index, cannot be read, at a list, or at an expression; `LongRange` where a start plus a length is no address;
/// `BadLabelRange`, `InvalidAttributeValue`, `UnmappedRegister` and `LongJump` for an expression that is built over its scope.
/// `OutOfMemory` for want of memory.
pub fn clone_unit(
    alloc: Global,
    isa: &dyn TargetIsa,
    source: &CloneSource<'_, '_>,
    kept: &[u32],
    begun: Unit,
    strings: &mut StringTable,
    known: &mut KnownTexts,
    translated: &mut BTreeSet<usize>,
) -> Result<Unit, CloneError>
    requires functions { HaveAddends source.now.transform.now }
    requires begun { begun ≡ new_unit begun.version begun.address_size begun.lines }
    requires read { All IsReadEntry (entries_of source.now.unit.now.sections source.now.unit.now.header).items }
    requires names { IsText source.now.module.names.resolve_memory.now }
    requires texts { KnowsTexts source.now.unit.now.sections strings.old known.old }
    ensures texts { KnowsTexts source.now.unit.now.sections strings.new known.new }
    ensures noted { OnOk result (NotesFunctions (filter_map (begun_function (list_source source.now.unit.now.sections source.now.unit.now.header) source.now.transform.now) (picked kept.now (entries_of source.now.unit.now.sections source.now.unit.now.header).items)) translated.old translated.new) }
    ensures cloned { (number : ℕ) (s : UnitSource) → IsSource source.now number s → HasFrames source.now.module source.now.transform.now → (entries_of source.now.unit.now.sections source.now.unit.now.header).fault ≡ None → AreClonable (picked kept.now (entries_of source.now.unit.now.sections source.now.unit.now.header).items) → AreEmitted source.now s number (picked kept.now (entries_of source.now.unit.now.sections source.now.unit.now.header).items) → AreWalked s.entries (placed_in source.now.unit.now.header.offset (picked kept.now (entries_of source.now.unit.now.sections source.now.unit.now.header).items)) → GivesCloned (dwarf_registers isa.now) source.now number s (picked kept.now (entries_of source.now.unit.now.sections source.now.unit.now.header).items) strings.old strings.new begun result }
{
    let mut unit = begun;
    of_memory(reserve_kept(&mut unit, kept.len()))?;
    let mut walk = begin_walk(alloc);
    let mut entries = source.unit.entries(alloc)?;
    let mut next = 0;
    while next < kept.len() && entries.advance()? {
        let entry = entries.current();
        if entry.offset == u64::from(kept[next]) {
            let id = UnitEntryId { index: next };
            clone_entry(
                alloc, isa, source, entry, id, &mut walk, &mut unit, strings, known, translated,
            )?;
            next += 1;
        }
    }
    of_memory(close_wrappers(&mut unit, &mut walk.opened, 0))?;
    unit.give_back();
    Ok(unit)
}
