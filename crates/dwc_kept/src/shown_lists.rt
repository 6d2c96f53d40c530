//! What range lists of a unit that were read show, so that each is read once, however many subprograms name it.
ghost use Rattle.std.specs.Prelude.{List, OnOk, IfSome};
ghost use Rattle.dwc_base.specs.declared.section_name.SectionName.{SectionName};
ghost use Rattle.dwc_dwarf.specs.RawLists.{ListSource};
ghost use Rattle.dwc_native.specs.Functions.{Function};
ghost use Rattle.dwc_kept.specs.RangeCode.{list_place};
ghost use Rattle.dwc_kept.specs.ShownLists.{IsShown, KnowsLists, KnowsSection};

use dwc_base::SectionName;
use std::alloc::{AllocError, Global};
use std::collections::BTreeMap;

/// Whether the lists of a section show code, by their offsets: those without a known base at their begin, those with one that is in no
/// function, and those with one that is in a function.
#[derive(Drop)]
pub(crate) struct ShownAt {
    pub(crate) without: BTreeMap<u64, bool>,
    pub(crate) outside: BTreeMap<u64, bool>,
    pub(crate) inside: BTreeMap<u64, bool>,
}

/// Whether the lists of a unit that were read show code.
#[derive(Drop)]
pub(crate) struct ShownLists {
    pub(crate) ranges: ShownAt,
    pub(crate) rnglists: ShownAt,
}

// No lists of a section yet.
fn none_at(alloc: Global) -> ShownAt
    ensures { (s : ListSource) (fs : List Function) (section : SectionName) → KnowsSection s fs section result }
{
    ShownAt {
        without: BTreeMap::new(alloc),
        outside: BTreeMap::new(alloc),
        inside: BTreeMap::new(alloc),
    }
}

/// No lists yet.
pub(crate) fn no_lists(alloc: Global) -> ShownLists
    ensures { (s : ListSource) (fs : List Function) → KnowsLists s fs result }
{
    ShownLists {
        ranges: none_at(alloc),
        rnglists: none_at(alloc),
    }
}

// Whether the list of a section at an offset shows code, by whether its base is in a function, if that was noted.
fn shown_at(noted: &ShownAt, base: Option<bool>, offset: u64) -> Option<bool>
    ensures { (s : ListSource) (fs : List Function) (section : SectionName) → KnowsSection s fs section noted.now → IfSome result (IsShown s fs (list_place section offset) base) }
{
    match base {
        None => noted.without.get(&offset).copied(),
        Some(in_function) => {
            if in_function {
                noted.inside.get(&offset).copied()
            } else {
                noted.outside.get(&offset).copied()
            }
        }
    }
}

/// Whether the list of a section at an offset shows code, by whether its base is in a function, if that was noted.
pub(crate) fn shown(
    noted: &ShownLists,
    section: SectionName,
    base: Option<bool>,
    offset: u64,
) -> Option<bool>
    ensures { (s : ListSource) (fs : List Function) → KnowsLists s fs noted.now → IfSome result (IsShown s fs (list_place section offset) base) }
{
    match section {
        SectionName::Ranges => shown_at(&noted.ranges, base, offset),
        SectionName::Rnglists => shown_at(&noted.rnglists, base, offset),
        _ => None,
    }
}

// Notes whether the list of a section at an offset shows code, by whether its base is in a function.
fn note_at(
    noted: &mut ShownAt,
    base: Option<bool>,
    offset: u64,
    shows_code: bool,
) -> Result<(), AllocError>
    ensures { (s : ListSource) (fs : List Function) (section : SectionName) → IsShown s fs (list_place section offset) base shows_code → KnowsSection s fs section noted.old → OnOk result (KnowsSection s fs section noted.new) }
{
    match base {
        None => {
            noted.without.insert(offset, shows_code)?;
        }
        Some(in_function) => {
            if in_function {
                noted.inside.insert(offset, shows_code)?;
            } else {
                noted.outside.insert(offset, shows_code)?;
            }
        }
    }
    Ok(())
}

/// Notes whether the list of a section at an offset shows code, by whether its base is in a function.
pub(crate) fn note_shown(
    noted: &mut ShownLists,
    section: SectionName,
    base: Option<bool>,
    offset: u64,
    shows_code: bool,
) -> Result<(), AllocError>
    ensures { (s : ListSource) (fs : List Function) → IsShown s fs (list_place section offset) base shows_code → KnowsLists s fs noted.old → OnOk result (KnowsLists s fs noted.new) }
{
    match section {
        SectionName::Ranges => note_at(&mut noted.ranges, base, offset, shows_code),
        SectionName::Rnglists => note_at(&mut noted.rnglists, base, offset, shows_code),
        _ => Ok(()),
    }
}
