//! The names of the types that pointers and references go to, and of their wrappers by these. (DWARF 4 and 5, sections 5.1 to 5.5.)
ghost use Rattle.std.specs.Prelude.{◌≡◌, ◌++◌, ◌<◌, ◌==◌, ◌≢◌, ℕ, [], Bool, List, None, Ok, Some, IfErr, IfOk, IfSome, OnOk};
ghost use Rattle.dwc_rules.specs.Kept.{Placed};
ghost use Rattle.dwc_rules.specs.Clones.{UnitSource};
ghost use Rattle.dwc_rules.specs.TypeNames.{type_name};
ghost use Rattle.dwc_rules.specs.Wrappers.{wrapper_name};
ghost use Rattle.dwc_read.specs.EntriesSeen.{entry_view};
ghost use Rattle.dwc_unit.specs.TextTables.{IsText};
ghost use Rattle.dwc_source.specs.declared.source.CloneSource.{CloneSource};
ghost use Rattle.dwc_source.specs.Sources.{placed_entry, IsEmitted, IsSource};
ghost use Rattle.dwc_types.specs.KnownNames.{AreOwnNames, AreWrapperNames, GivesNumber, IsFresh, IsOwnName, IsWrapperName, KnowsNames, KnowsTypes, NamesWrapper, NamesWrappers};
ghost use Rattle.dwc_source.specs.KnownTexts.{IsNumbered};
ghost use Rattle.dwc_source.specs.MadeValues.{Grows};
ghost use Rattle.dwc_types.specs.TypeChains.{GivesRead, behind, behind_name, in_front, named_chain};
ghost use Rattle.dwc_types.specs.TypeSteps.{AreNames, HaveTexts, IsOfType};
ghost use Rattle.dwc_source.specs.declared.error.CloneError.TheVariants.{OutOfMemory};

use crate::known_type::{KnownTypes, UNKNOWN, end_name, find_type, meet, no_types};
use crate::type_entry::{TypeEntry, type_of};
use crate::type_key::{TypeKeys, key_of, no_keys, note_key, noted_by_key};
use crate::type_ring::{least_turn, note_ring, ring_at, spelt_tags};
use dwc_base::constants::{
    DW_TAG_array_type, DW_TAG_const_type, DW_TAG_pointer_type, DW_TAG_reference_type,
};
use dwc_read::Entry;
use dwc_source::{CloneError, CloneSource, add_text, of_memory};
use dwc_unit::{StringId, StringTable};
use std::alloc::{AllocError, Global};
use std::collections::BTreeMap;

/// The names of the wrappers of pointers and of references, by the offsets of the types that these go to, so that a name is made and added
/// once for all that go to a type; and those of pointers and references that stand in a ring of types, which no other entry of that type has.
/// In a ring a name is noted at once for all places where it is the same text, so that N types in a ring make as many names as there are
/// texts, and not N. The types that were read for names are kept too, so that each is read once, however many chains go through it.
#[derive(Drop)]
pub struct TypeNames {
    pointers: BTreeMap<u64, NotedName>,
    references: BTreeMap<u64, NotedName>,
    // those of entries that stand in a ring, by their own offsets
    rings: BTreeMap<u64, StringId>,
    types: KnownTypes,
    keys: TypeKeys,
}

/// The number in the table of texts of the name of the wrappers of all that go to a type but the one at an offset.
#[derive(Clone, Copy)]
pub(crate) struct NotedName {
    pub(crate) name: StringId,
    pub(crate) but: u64,
}

// A name by a chain that was followed for an entry: that of its last type, `??` where it has none and where an entry is met again, or that of
// its first. It holds for all entries of the first type but the one at an offset; without an offset for the entry that is named alone.
#[derive(Drop)]
struct ChainName {
    name: Vec<u8>,
    but: Option<u64>,
}

impl TypeNames {
    /// No names yet.
    pub fn new(alloc: Global) -> TypeNames
        ensures texts { AreNames result }
        ensures names { (source : CloneSource) (s : UnitSource) (texts : List (List ℕ)) → KnowsNames source s texts result }
    {
        TypeNames {
            pointers: BTreeMap::new(alloc),
            references: BTreeMap::new(alloc),
            rings: BTreeMap::new(alloc),
            types: no_types(alloc),
            keys: no_keys(alloc),
        }
    }
}

// A name by a chain, for all but an entry.
fn name_for(alloc: Global, name: &[u8], but: Option<u64>) -> Result<ChainName, AllocError>
    ensures name { IfOk result (λ last. last.name.items ≡ name.now) }
    ensures but { IfOk result (λ last. last.but ≡ but) }
{
    let name = name.to_vec(alloc)?;
    Ok(ChainName { name, but })
}

// Follows the types from one on, each derived from the next, for the entry at an offset, and answers the name of the last. `walk` is the
// number of their chain, and `tags` get those of the types that are derived from the next one.
fn follow_chain(
    alloc: Global,
    source: &CloneSource<'_, '_>,
    own: u64,
    first: TypeEntry,
    walk: u64,
    types: &mut KnownTypes,
    tags: &mut Vec<u16>,
) -> Result<ChainName, CloneError>
    requires texts { HaveTexts types.old }
    requires walk { types.old.walks ≡ walk }
    requires counted { 0 < walk }
    requires empty { tags.old.items ≡ [] }
    ensures texts { HaveTexts types.new }
    ensures text { IfOk result (λ last. IsText last.name.items) }
    ensures types { (s : UnitSource) → KnowsTypes source.now s types.old → OnOk result (KnowsTypes source.now s types.new) }
    ensures named { (s : UnitSource) (e : Placed) → IsOfType source.now s e first → e.entry.offset ≡ own → KnowsTypes source.now s types.old → IsFresh walk types.old.derived.items → GivesRead (λ last. named_chain tags.new.items last.name.items) (type_name s.texts s.entries e) result }
    ensures others { (s : UnitSource) (e : Placed) → IsOfType source.now s e first → KnowsTypes source.now s types.old → IsFresh walk types.old.derived.items → IfOk result (λ last. IfSome last.but (λ but. e.entry.offset ≢ but → type_name s.texts s.entries e ≡ Ok (named_chain tags.new.items last.name.items))) }
{
    let mut next = Some(first);
    let mut near = types.derived.len();
    let mut last = own;
    while let Some(named) = next {
        if named.offset == own {
            return Ok(name_for(alloc, UNKNOWN, None)?);
        }
        let Some(place) = find_type(alloc, source, named.offset, near, types)? else {
            let name = end_name(types, named.offset);
            return Ok(name_for(alloc, name, Some(named.offset))?);
        };
        let Some(met) = meet(types, place, walk) else {
            return Ok(name_for(alloc, UNKNOWN, Some(last))?);
        };
        tags.push(met.tag)?;
        next = met.next;
        near = met.near;
        last = named.offset;
    }
    Ok(name_for(alloc, UNKNOWN, Some(last))?)
}

// Puts what stands in front of a name for types of some tags, the outermost first.
fn put_in_front(out: &mut Vec<u8>, tags: &[u16]) -> Result<(), AllocError>
    ensures { OnOk result (out.new.items ≡ out.old.items ++ in_front tags.now) }
{
    for i in 0..tags.len() {
        if tags[i] == DW_TAG_const_type {
            out.extend_from_slice(b"const ")?;
        }
    }
    Ok(())
}

// What stands behind the name of a type for one of a tag that is derived from it.
fn behind_name(tag: u16) -> &'static [u8]
    ensures { result.now ≡ behind_name tag }
{
    match tag {
        DW_TAG_pointer_type => b"*",
        DW_TAG_reference_type => b"&",
        DW_TAG_array_type => b"[]",
        _ => b"",
    }
}

// Puts what stands behind a name for types of some tags, the outermost first.
fn put_behind(out: &mut Vec<u8>, tags: &[u16]) -> Result<(), AllocError>
    ensures { OnOk result (out.new.items ≡ out.old.items ++ behind tags.now) }
{
    let mut left = tags.len();
    while left > 0 {
        left -= 1;
        out.extend_from_slice(behind_name(tags[left]))?;
    }
    Ok(())
}

// The name of a chain of types of some tags, the outermost first, by the name of the last.
fn chain_name(alloc: Global, tags: &[u16], last: &[u8]) -> Result<Vec<u8>, AllocError>
    ensures { IfOk result (λ name. name.items ≡ named_chain tags.now last.now) }
{
    let mut name = Vec::new(alloc);
    put_in_front(&mut name, tags)?;
    name.extend_from_slice(last)?;
    put_behind(&mut name, tags)?;
    Ok(name)
}

// The name of the type of an entry, by the first type of its chain, and which others have it too.
fn read_name(
    alloc: Global,
    source: &CloneSource<'_, '_>,
    own: u64,
    first: TypeEntry,
    types: &mut KnownTypes,
) -> Result<ChainName, CloneError>
    requires texts { HaveTexts types.old }
    ensures texts { HaveTexts types.new }
    ensures text { IfOk result (λ made. IsText made.name.items) }
    ensures types { (s : UnitSource) → KnowsTypes source.now s types.old → OnOk result (KnowsTypes source.now s types.new) }
    ensures name { (s : UnitSource) (e : Placed) → IsOfType source.now s e first → e.entry.offset ≡ own → KnowsTypes source.now s types.old → GivesRead (λ made. made.name.items) (type_name s.texts s.entries e) result }
    ensures others { (s : UnitSource) (e : Placed) → IsOfType source.now s e first → KnowsTypes source.now s types.old → IfOk result (λ made. IfSome made.but (λ but. e.entry.offset ≢ but → type_name s.texts s.entries e ≡ Ok made.name.items)) }
{
    let Some(walk) = types.walks.checked_add(1) else {
        return Err(CloneError::OutOfMemory);
    };
    types.walks = walk;
    let mut tags = Vec::new(alloc);
    let last = follow_chain(alloc, source, own, first, walk, types, &mut tags)?;
    let name = chain_name(alloc, &tags, &last.name)?;
    Ok(ChainName {
        name,
        but: last.but,
    })
}

// Adds the name of the wrapper of an entry of a tag, by the name of its type.
fn add_name(
    alloc: Global,
    tag: u16,
    name: &[u8],
    strings: &mut StringTable,
) -> Result<StringId, CloneError>
    requires { IsText name.now }
    ensures grows { Grows strings.old strings.new }
    ensures number { IfOk result (IsNumbered strings.new (wrapper_name tag name.now)) }
    ensures memory { IfErr result (λ e. e ≡ OutOfMemory) }
{
    let whole = wrapper_name(alloc, tag, name)?;
    Ok(of_memory(add_text(strings, &whole))?)
}

// Notes the number of the name of the wrappers of pointers, or of references, by a tag, that go to the type at an offset, for all but one.
fn note(
    names: &mut TypeNames,
    tag: u16,
    offset: u64,
    but: u64,
    name: StringId,
) -> Result<(), AllocError>
    ensures types { names.new.types ≡ names.old.types }
    ensures keys { names.new.keys ≡ names.old.keys }
    ensures names { (source : CloneSource) (s : UnitSource) (texts : List (List ℕ)) → NamesWrappers source s texts (tag == DW_TAG_pointer_type) offset but name → KnowsNames source s texts names.old → OnOk result (KnowsNames source s texts names.new) }
{
    if tag == DW_TAG_pointer_type {
        names.pointers.insert(offset, NotedName { name, but })?;
    } else {
        names.references.insert(offset, NotedName { name, but })?;
    }
    Ok(())
}

// The number that is noted of the type at an offset, for the entry at another.
fn noted_in(names: &BTreeMap<u64, NotedName>, own: u64, offset: u64) -> Option<StringId>
    ensures { (source : CloneSource) (s : UnitSource) (texts : List (List ℕ)) (pointer : Bool) → AreWrapperNames source s texts pointer names.now → IfSome result (NamesWrapper source s texts pointer offset own) }
{
    match names.get(&offset) {
        Some(noted) => {
            if noted.but == own {
                None
            } else {
                Some(noted.name)
            }
        }
        None => None,
    }
}

// The number that is noted of the entry at an offset, which stands in a ring.
fn noted_in_ring(names: &BTreeMap<u64, StringId>, own: u64) -> Option<StringId>
    ensures { (source : CloneSource) (s : UnitSource) (texts : List (List ℕ)) → AreOwnNames source s texts names.now → IfSome result (IsOwnName source s texts own) }
{
    match names.get(&own) {
        Some(name) => Some(*name),
        None => None,
    }
}

// The number of the name of the wrapper of the entry at an offset, a pointer or a reference by its tag, that is noted of the type at another.
fn noted_of_type(names: &TypeNames, tag: u16, own: u64, offset: u64) -> Option<StringId>
    ensures { (source : CloneSource) (s : UnitSource) (texts : List (List ℕ)) → KnowsNames source s texts names.now → IfSome result (NamesWrapper source s texts (tag == DW_TAG_pointer_type) offset own) }
{
    if tag == DW_TAG_pointer_type {
        return noted_in(&names.pointers, own, offset);
    }
    noted_in(&names.references, own, offset)
}

// The same, or what is noted of the entry itself.
fn noted(names: &TypeNames, tag: u16, own: u64, offset: u64) -> Option<StringId>
    ensures { (source : CloneSource) (s : UnitSource) (texts : List (List ℕ)) → KnowsNames source s texts names.now → IfSome result (NamesWrapper source s texts (tag == DW_TAG_pointer_type) offset own) }
{
    match noted_of_type(names, tag, own, offset) {
        Some(name) => Some(name),
        None => noted_in_ring(&names.rings, own),
    }
}

// Notes the number of the name of the wrapper of the entry at an offset, by its tag, for all types of its ring that have the same name.
fn note_own_ring(
    alloc: Global,
    tag: u16,
    own: u64,
    name: StringId,
    names: &mut TypeNames,
) -> Result<(), AllocError>
    ensures types { names.new.types ≡ names.old.types }
    ensures keys { names.new.keys ≡ names.old.keys }
    ensures names { (source : CloneSource) (number : ℕ) (s : UnitSource) (texts : List (List ℕ)) (e : Placed) → IsSource source number s → IsEmitted source s e → e.entry.offset ≡ own → e.entry.tag ≡ tag → IsWrapperName s texts e name → KnowsNames source s texts names.old → OnOk result (KnowsNames source s texts names.new) }
{
    if tag == DW_TAG_const_type {
        return Ok(());
    }
    let ring = ring_at(alloc, &names.types, own)?;
    let tags = spelt_tags(alloc, &ring)?;
    let turn = least_turn(&tags);
    note_ring(&mut names.rings, &ring, turn, name)
}

// Notes the number of the name of the wrapper of the entry at an offset, by its tag, for all that go to the type at another, but for one; or
// for all of its ring that have it, where the name is that of the entry alone.
fn note_made(
    alloc: Global,
    tag: u16,
    own: u64,
    offset: u64,
    but: Option<u64>,
    name: StringId,
    names: &mut TypeNames,
) -> Result<(), AllocError>
    ensures types { names.new.types ≡ names.old.types }
    ensures keys { names.new.keys ≡ names.old.keys }
    ensures names { (source : CloneSource) (s : UnitSource) (texts : List (List ℕ)) (e : Placed) (first : TypeEntry) → IsOfType source s e first → first.offset ≡ offset → e.entry.offset ≡ own → e.entry.tag ≡ tag → IsWrapperName s texts e name → IfSome but (λ but. NamesWrappers source s texts (tag == DW_TAG_pointer_type) offset but name) → KnowsNames source s texts names.old → OnOk result (KnowsNames source s texts names.new) }
{
    match but {
        Some(but) => note(names, tag, offset, but, name),
        None => note_own_ring(alloc, tag, own, name, names),
    }
}

// Makes and adds the name of the wrapper of an entry, by the first type of its chain, and notes its number.
fn make_name(
    alloc: Global,
    source: &CloneSource<'_, '_>,
    entry: &Entry<'_>,
    first: TypeEntry,
    names: &mut TypeNames,
    strings: &mut StringTable,
) -> Result<StringId, CloneError>
    requires texts { AreNames names.old }
    ensures texts { AreNames names.new }
    ensures keys { names.new.keys ≡ names.old.keys }
    ensures grows { Grows strings.old strings.new }
    ensures names { (s : UnitSource) → IsOfType source.now s (placed_entry source.now (entry_view entry.now)) first → KnowsNames source.now s strings.old names.old → OnOk result (KnowsNames source.now s strings.new names.new) }
    ensures name { (s : UnitSource) → IsOfType source.now s (placed_entry source.now (entry_view entry.now)) first → KnowsNames source.now s strings.old names.old → GivesNumber s strings.new (placed_entry source.now (entry_view entry.now)) result }
{
    let made = read_name(alloc, source, entry.offset, first, &mut names.types)?;
    let name = add_name(alloc, entry.tag, &made.name, strings)?;
    note_made(
        alloc,
        entry.tag,
        entry.offset,
        first.offset,
        made.but,
        name,
        names,
    )?;
    Ok(name)
}

// Finds the name of the wrapper of an entry by the key of the first type of its chain, or makes it and notes it of that key.
fn find_name(
    alloc: Global,
    source: &CloneSource<'_, '_>,
    entry: &Entry<'_>,
    first: TypeEntry,
    names: &mut TypeNames,
    strings: &mut StringTable,
) -> Result<StringId, CloneError>
    requires texts { AreNames names.old }
    ensures texts { AreNames names.new }
    ensures grows { Grows strings.old strings.new }
    ensures names { (s : UnitSource) → IsOfType source.now s (placed_entry source.now (entry_view entry.now)) first → KnowsNames source.now s strings.old names.old → OnOk result (KnowsNames source.now s strings.new names.new) }
    ensures name { (s : UnitSource) → IsOfType source.now s (placed_entry source.now (entry_view entry.now)) first → KnowsNames source.now s strings.old names.old → GivesNumber s strings.new (placed_entry source.now (entry_view entry.now)) result }
{
    let Some(key) = key_of(alloc, source, first, &mut names.types, &mut names.keys)? else {
        return make_name(alloc, source, entry, first, names, strings);
    };
    if key.but == entry.offset {
        return make_name(alloc, source, entry, first, names, strings);
    }
    if let Some(name) = noted_by_key(&names.keys, entry.tag, &key) {
        note(names, entry.tag, first.offset, key.but, name)?;
        return Ok(name);
    }
    let name = make_name(alloc, source, entry, first, names, strings)?;
    note_key(&mut names.keys, entry.tag, &key, name)?;
    Ok(name)
}

/// The number in the table of texts of the name of the wrapper of an entry, by the name of its type: the type's own, or else by the type that
/// it is derived from; `??` where there is none, and where an entry is met again.
///
/// # Errors
/// At the entry that is named: `Read` `Text` for a name that cannot be read, `Read` `BaseName` for one that is no UTF-8. `OutOfMemory` for
/// want of memory.
pub fn name_of_wrapper(
    alloc: Global,
    source: &CloneSource<'_, '_>,
    entry: &Entry<'_>,
    names: &mut TypeNames,
    strings: &mut StringTable,
) -> Result<StringId, CloneError>
    requires texts { AreNames names.old }
    ensures texts { AreNames names.new }
    ensures grows { Grows strings.old strings.new }
    ensures names { (number : ℕ) (s : UnitSource) → IsSource source.now number s → IsEmitted source.now s (placed_entry source.now (entry_view entry.now)) → KnowsNames source.now s strings.old names.old → OnOk result (KnowsNames source.now s strings.new names.new) }
    ensures name { (number : ℕ) (s : UnitSource) → IsSource source.now number s → IsEmitted source.now s (placed_entry source.now (entry_view entry.now)) → KnowsNames source.now s strings.old names.old → GivesNumber s strings.new (placed_entry source.now (entry_view entry.now)) result }
{
    let Some(first) = type_of(source, entry) else {
        return add_name(alloc, entry.tag, UNKNOWN, strings);
    };
    match noted(names, entry.tag, entry.offset, first.offset) {
        Some(name) => Ok(name),
        None => find_name(alloc, source, entry, first, names, strings),
    }
}

// So many bytes of a wrapper's name stand beside the name in it.
const WRAPPER_LENGTH: usize = 23;

// The name of a wrapper of an entry of a tag, by the name of what that goes to.
fn wrapper_name(alloc: Global, tag: u16, name: &[u8]) -> Result<Vec<u8>, AllocError>
    ensures { IfOk result (λ whole. whole.items ≡ wrapper_name tag name.now) }
{
    let mut whole = Vec::with_capacity(alloc, name.len().saturating_add(WRAPPER_LENGTH))?;
    if tag == DW_TAG_pointer_type {
        whole.extend_from_slice(b"WebAssemblyPtrWrapper<")?;
    } else {
        whole.extend_from_slice(b"WebAssemblyRefWrapper<")?;
    }
    whole.extend_from_slice(name)?;
    whole.extend_from_slice(b">")?;
    Ok(whole)
}
