//! The types of a unit that were read, which names are made of: each is read once. (DWARF 4 and 5, sections 5.1 to 5.5.)
ghost use Rattle.std.specs.Prelude.{◌≡◌, ◌<◌, ◌==◌, ℕ, false, is_some, length, set, slice_get, true, None, Ok, Some, option_map, IfErr, IfOk, IfSome, OnOk};
ghost use Rattle.std.specs.Ordering.{nat_cmp};
ghost use Rattle.std.specs.Str.{is_utf8};
ghost use Rattle.std.specs.BTreeMap.{get};
ghost use Rattle.dwc_base.specs.Cursors.{slice_bytes};
ghost use Rattle.dwc_dwarf.specs.Indexed.{texts_of_unit};
ghost use Rattle.dwc_rules.specs.Kept.{Placed};
ghost use Rattle.dwc_rules.specs.Clones.{UnitSource};
ghost use Rattle.dwc_dwarf.specs.ReadValues.{IsReadEntry};
ghost use Rattle.dwc_rules.specs.TypeNames.{derived_name, name_of};
ghost use Rattle.dwc_read.specs.EntriesSeen.{entry_view};
ghost use Rattle.dwc_unit.specs.TextTables.{IsText};
ghost use Rattle.dwc_source.specs.declared.source.CloneSource.{CloneSource};
ghost use Rattle.dwc_source.specs.Sources.{IsEmitted, IsSource};
ghost use Rattle.dwc_types.specs.DerivedTypes.{AddsUnmet, at_walk, end_of, is_at};
ghost use Rattle.dwc_types.specs.KnownNames.{IfAway, IfEnds, IsAway, KnowsTypes};
ghost use Rattle.dwc_types.specs.TypeReads.{EndsSo, IsRead};
ghost use Rattle.dwc_types.specs.TypeChains.{GivesRead};
ghost use Rattle.dwc_types.specs.TypeSteps.{GivesAlike, HaveTexts, ReadsStep, step_name};
ghost use Rattle.dwc_types.specs.declared.known_type.DerivedType.{DerivedType};

use crate::type_entry::{TypeEntry, type_of};
use dwc_base::constants::{
    DW_AT_name, DW_TAG_array_type, DW_TAG_const_type, DW_TAG_pointer_type, DW_TAG_reference_type,
};
use dwc_base::{SectionName, What};
use dwc_read::Entry;
use dwc_source::{CloneError, CloneSource, text_of};
use std::alloc::{AllocError, Global};
use std::collections::BTreeMap;

/// The name of what has none.
pub(crate) const UNKNOWN: &[u8] = b"??";

/// The types that were read: those that are derived from others, and the names of those that end a chain.
#[derive(Drop)]
pub(crate) struct KnownTypes {
    pub(crate) derived: Vec<DerivedType>,
    // the place among them of each, by its offset
    places: BTreeMap<u64, usize>,
    // the names of the others, by their offsets
    ends: BTreeMap<u64, Vec<u8>>,
    // how many chains were followed
    pub(crate) walks: u64,
}

/// A type without a name that is derived from another: its tag, that type, and where this may stand; and the number of the chain that it was
/// met on last, from 1 on.
#[derive(Clone, Copy)]
pub(crate) struct DerivedType {
    pub(crate) offset: u64,
    pub(crate) tag: u16,
    pub(crate) next: Option<TypeEntry>,
    pub(crate) near: usize,
    walk: u64,
}

/// No types yet.
pub(crate) fn no_types(alloc: Global) -> KnownTypes
    ensures texts { HaveTexts result }
    ensures types { (source : CloneSource) (s : UnitSource) → KnowsTypes source s result }
{
    KnownTypes {
        derived: Vec::new(alloc),
        places: BTreeMap::new(alloc),
        ends: BTreeMap::new(alloc),
        walks: 0,
    }
}

// A type of a chain, as it is read: one that has a name; one that has none and is derived from no other; or one that has none, by its tag,
// with the type that it is derived from.
#[derive(Clone, Copy)]
enum TypeStep<'d> {
    Named(&'d [u8]),
    Last,
    Derived(u16, Option<TypeEntry>),
}

// Whether a type of a tag is named by the type that it is derived from.
fn is_derived(tag: u16) -> bool
    ensures { result ≡ is_some (derived_name tag) }
{
    match tag {
        DW_TAG_const_type | DW_TAG_pointer_type | DW_TAG_reference_type | DW_TAG_array_type => true,
        _ => false,
    }
}

// Whether a text is UTF-8.
fn is_utf8(text: &[u8]) -> bool
    ensures { result ≡ is_utf8 text.now }
{
    match str::from_utf8(text) {
        Ok(_) => true,
        Err(_) => false,
    }
}

// The name of an entry, if it has one that is a text, which must be UTF-8.
fn name_of<'d>(
    source: &CloneSource<'_, 'd>,
    entry: &Entry<'d>,
) -> Result<Option<&'d [u8]>, CloneError>
    ensures name { (e : Placed) → e.entry ≡ entry_view entry.now → GivesRead (option_map slice_bytes) (name_of (texts_of_unit source.now.unit.now.sections source.now.unit.now.header) e) result }
    ensures text { IsReadEntry (entry_view entry.now) → IfOk result (λ name. IfSome name (λ text. IsText text.now)) }
{
    let Some(value) = entry.attr(DW_AT_name) else {
        return Ok(None);
    };
    let Some(text) = text_of(source.unit, entry.offset, value)? else {
        return Ok(None);
    };
    if is_utf8(text) {
        return Ok(Some(text));
    }
    Err(CloneError::Read {
        what: What::BaseName,
        section: SectionName::Info,
        offset: entry.offset,
    })
}

// The entry of a type. The call of `section` tells that what is read are bytes.
fn type_entry<'d>(
    alloc: Global,
    source: &CloneSource<'_, 'd>,
    offset: u64,
) -> Result<Entry<'d>, CloneError>
    ensures alike { (number : ℕ) (s : UnitSource) (f : Placed) → IsSource source.now number s → IsEmitted source.now s f → f.entry.offset ≡ offset → GivesAlike f.entry result }
    ensures read { IfOk result (λ entry. IsReadEntry (entry_view entry)) }
{
    source.unit.section(SectionName::Info);
    Ok(source.unit.entry_at(alloc, offset)?)
}

// Reads the type at an offset.
fn read_step<'d>(
    alloc: Global,
    source: &CloneSource<'_, 'd>,
    offset: u64,
) -> Result<TypeStep<'d>, CloneError>
    ensures step { ReadsStep source.now offset result }
    ensures text { IfOk result (λ step. IsText (step_name step)) }
{
    let entry = type_entry(alloc, source, offset)?;
    if let Some(name) = name_of(source, &entry)? {
        return Ok(TypeStep::Named(name));
    }
    if !is_derived(entry.tag) {
        return Ok(TypeStep::Last);
    }
    Ok(TypeStep::Derived(entry.tag, type_of(source, &entry)))
}

// Whether the derived type at a place is the one at an offset.
fn is_at(types: &[DerivedType], place: usize, offset: u64) -> bool
    ensures { result ≡ is_at types.now place offset }
{
    match types.get(place) {
        Some(found) => found.offset == offset,
        None => false,
    }
}

/// The place of the derived type at an offset, if it was read; `near` is where it may stand.
pub(crate) fn place_of(types: &KnownTypes, offset: u64, near: usize) -> Option<usize>
    ensures at { IfSome result (λ place. is_at types.now.derived.items place offset ≡ true) }
    ensures none { (i : ℕ) → get nat_cmp types.now.places offset ≡ Some i → is_at types.now.derived.items i offset ≡ true → is_some result ≡ true }
{
    if is_at(&types.derived, near, offset) {
        return Some(near);
    }
    match types.places.get(&offset) {
        Some(place) => {
            if is_at(&types.derived, *place, offset) {
                Some(*place)
            } else {
                None
            }
        }
        None => None,
    }
}

// Where the type that a derived type goes to may stand: where it stands, or behind all.
fn near_place(types: &KnownTypes, next: Option<TypeEntry>) -> usize {
    match next {
        Some(named) => match types.places.get(&named.offset) {
            Some(place) => *place,
            None => types.derived.len() + 1,
        },
        None => 0,
    }
}

// Keeps a derived type that was read at an offset, and answers its place.
fn keep_derived(
    types: &mut KnownTypes,
    offset: u64,
    tag: u16,
    next: Option<TypeEntry>,
) -> Result<usize, AllocError>
    requires texts { HaveTexts types.old }
    ensures texts { HaveTexts types.new }
    ensures walks { types.new.walks ≡ types.old.walks }
    ensures adds { OnOk result (AddsUnmet types.old.derived.items types.new.derived.items) }
    ensures at { IfOk result (λ place. is_at types.new.derived.items place offset ≡ true) }
    ensures types { (source : CloneSource) (s : UnitSource) → IsRead source s offset tag next → IsAway types.old.derived.items offset → KnowsTypes source s types.old → OnOk result (KnowsTypes source s types.new) }
{
    let place = types.derived.len();
    let near = near_place(types, next);
    types.derived.push(DerivedType {
        offset,
        tag,
        next,
        near,
        walk: 0,
    })?;
    types.places.insert(offset, place)?;
    Ok(place)
}

// Keeps the name of a type at an offset that ends a chain.
fn keep_end(
    alloc: Global,
    types: &mut KnownTypes,
    offset: u64,
    name: &[u8],
) -> Result<(), AllocError>
    requires texts { HaveTexts types.old }
    requires text { IsText name.now }
    ensures texts { HaveTexts types.new }
    ensures walks { types.new.walks ≡ types.old.walks }
    ensures same { types.new.derived.items ≡ types.old.derived.items }
    ensures name { OnOk result (end_of types.new offset ≡ name.now) }
    ensures types { (source : CloneSource) (s : UnitSource) → EndsSo source s offset name.now → KnowsTypes source s types.old → OnOk result (KnowsTypes source s types.new) }
{
    let name = name.to_vec(alloc)?;
    types.ends.insert(offset, name)?;
    Ok(())
}

/// The name of a type at an offset that ends a chain.
pub(crate) fn end_name<'n>(types: &'n KnownTypes, offset: u64) -> &'n [u8]
    ensures { result.now ≡ end_of types.now offset }
{
    match types.ends.get(&offset) {
        Some(name) => name.as_slice(),
        None => UNKNOWN,
    }
}

// Reads the type at an offset, of which no derived type was kept, and answers its place if it is one; otherwise its name is kept.
fn read_type(
    alloc: Global,
    source: &CloneSource<'_, '_>,
    offset: u64,
    types: &mut KnownTypes,
) -> Result<Option<usize>, CloneError>
    requires texts { HaveTexts types.old }
    ensures texts { HaveTexts types.new }
    ensures walks { types.new.walks ≡ types.old.walks }
    ensures adds { OnOk result (AddsUnmet types.old.derived.items types.new.derived.items) }
    ensures at { IfOk result (λ found. IfSome found (λ place. is_at types.new.derived.items place offset ≡ true)) }
    ensures types { (s : UnitSource) → IsAway types.old.derived.items offset → KnowsTypes source.now s types.old → OnOk result (KnowsTypes source.now s types.new) }
    ensures ending { (s : UnitSource) → KnowsTypes source.now s types.old → IfEnds result (EndsSo source.now s offset (end_of types.new offset)) }
    ensures refused { IfErr result (λ e. ReadsStep source.now offset (Err e)) }
{
    if let Some(_) = types.ends.get(&offset) {
        return Ok(None);
    }
    match read_step(alloc, source, offset)? {
        TypeStep::Named(name) => {
            keep_end(alloc, types, offset, name)?;
            Ok(None)
        }
        TypeStep::Last => {
            keep_end(alloc, types, offset, UNKNOWN)?;
            Ok(None)
        }
        TypeStep::Derived(tag, next) => Ok(Some(keep_derived(types, offset, tag, next)?)),
    }
}

/// The place of the type at an offset, if it is derived from another; otherwise its name is kept. `near` is where it may stand.
pub(crate) fn find_type(
    alloc: Global,
    source: &CloneSource<'_, '_>,
    offset: u64,
    near: usize,
    types: &mut KnownTypes,
) -> Result<Option<usize>, CloneError>
    requires texts { HaveTexts types.old }
    ensures texts { HaveTexts types.new }
    ensures walks { types.new.walks ≡ types.old.walks }
    ensures adds { OnOk result (AddsUnmet types.old.derived.items types.new.derived.items) }
    ensures at { IfOk result (λ found. IfSome found (λ place. is_at types.new.derived.items place offset ≡ true)) }
    ensures types { (s : UnitSource) → KnowsTypes source.now s types.old → OnOk result (KnowsTypes source.now s types.new) }
    ensures away { (s : UnitSource) → KnowsTypes source.now s types.old → IfAway result (IsAway types.old.derived.items offset) }
    ensures ending { (s : UnitSource) → KnowsTypes source.now s types.old → IfEnds result (EndsSo source.now s offset (end_of types.new offset)) }
    ensures refused { IfErr result (λ e. ReadsStep source.now offset (Err e)) }
{
    match place_of(types, offset, near) {
        Some(place) => Ok(Some(place)),
        None => read_type(alloc, source, offset, types),
    }
}

/// Meets the derived type at a place on the chain of a number; None where it was met on it before.
pub(crate) fn meet(types: &mut KnownTypes, place: usize, walk: u64) -> Option<DerivedType>
    requires inside { place < length types.old.derived.items }
    requires texts { HaveTexts types.old }
    ensures texts { HaveTexts types.new }
    ensures rest { types.new ≡ record { derived = types.new.derived; places = types.old.places; ends = types.old.ends; walks = types.old.walks } }
    ensures met { IfSome result (λ met. slice_get types.old.derived.items place ≡ Some met) }
    ensures first { IfSome result (λ met. (met.walk == walk) ≡ false) }
    ensures changed { IfSome result (λ met. types.new.derived.items ≡ set types.old.derived.items place (at_walk walk met)) }
    ensures same { result ≡ None → types.new ≡ types.old }
    ensures again { result ≡ None → (met : DerivedType) → slice_get types.old.derived.items place ≡ Some met → (met.walk == walk) ≡ true }
{
    let met = types.derived[place];
    if met.walk == walk {
        return None;
    }
    types.derived[place] = DerivedType {
        offset: met.offset,
        tag: met.tag,
        next: met.next,
        near: met.near,
        walk,
    };
    Some(met)
}
