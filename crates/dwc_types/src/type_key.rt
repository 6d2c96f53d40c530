//! The names of types in short, by which types whose names are the same text are found without making it.
ghost use Rattle.std.specs.Prelude.{◌≡◌, ◌<◌, ◌+◌, ◌++◌, ℕ, [], List, Some, None, IfErr, IfOk, IfSome, OnOk, true};
ghost use Rattle.std.specs.Ordering.{nat_cmp};
ghost use Rattle.std.specs.BTreeMap.{get};
ghost use Rattle.dwc_base.specs.SortedEntries.{pair_cmp};
ghost use Rattle.dwc_rules.specs.Clones.{UnitSource};
ghost use Rattle.dwc_rules.specs.Wrappers.{wrapper_name};
ghost use Rattle.dwc_source.specs.declared.error.CloneError.TheVariants.{OutOfMemory};
ghost use Rattle.dwc_source.specs.declared.source.CloneSource.{CloneSource};
ghost use Rattle.dwc_source.specs.KnownTexts.{IsNumbered};
ghost use Rattle.dwc_types.specs.declared.known_type.DerivedType.{DerivedType};
ghost use Rattle.dwc_types.specs.DerivedTypes.{AddsUnmet, end_of, is_at};
ghost use Rattle.dwc_types.specs.KeyedTypes.{EndsWay, HasCore, HasCores, HasText, IfDerived, IfEnding, IsKeyBehind, IsKeyOf, KnowsBehind, KnowsKeys, KnowsWith, key_text, over_name};
ghost use Rattle.dwc_types.specs.KnownNames.{KnowsTypes};
ghost use Rattle.dwc_types.specs.TypeChains.{behind_name};
ghost use Rattle.dwc_types.specs.TypeReads.{EndsSo, IsRead};
ghost use Rattle.dwc_types.specs.TypeSteps.{HaveTexts};

use crate::known_type::{DerivedType, KnownTypes, find_type, meet, no_types};
use crate::ring_key::key_ring;
use crate::type_entry::TypeEntry;
use dwc_base::constants::{DW_TAG_const_type, DW_TAG_pointer_type};
use dwc_source::{CloneError, CloneSource};
use dwc_unit::StringId;
use std::alloc::{AllocError, Global};
use std::collections::BTreeMap;

/// The name of a type in short: so many constants in front of a core, which a number stands for. It is the name for all entries that go to the
/// type but the one at an offset: the end of its chain, or the type of its ring that is in front of where the chain enters the ring.
#[derive(Clone, Copy)]
pub(crate) struct TypeKey {
    pub(crate) core: u64,
    pub(crate) consts: u64,
    pub(crate) but: u64,
}

/// The keys of types, and the names of wrappers by keys. Two types of one key have names that are the same text, so that this is made and added
/// once for all of them.
#[derive(Drop)]
pub(crate) struct TypeKeys {
    // by the offsets of the types
    pub(crate) types: BTreeMap<u64, TypeKey>,
    // the cores that are made of others, by these and by the tags of what is put behind them
    cores: BTreeMap<(u64, u16), u64>,
    // how many cores there are; the first is that of what has no name
    count: u64,
    // the names of wrappers of pointers and of references, by a core and the number of constants
    pointers: BTreeMap<(u64, u64), StringId>,
    references: BTreeMap<(u64, u64), StringId>,
}

// What a way along derived types leads to: a type whose key is known; one that ends a chain, by its offset; no further type; one that it passed
// before, by its offset; or one that cannot be read.
#[derive(Clone, Copy)]
enum WayEnd {
    Keyed(TypeKey),
    Named(u64),
    Open,
    Ring(u64),
    Lost,
}

/// No keys yet.
pub(crate) fn no_keys(alloc: Global) -> TypeKeys
    ensures { (source : CloneSource) (s : UnitSource) (texts : List (List ℕ)) → KnowsKeys source s texts result }
{
    TypeKeys {
        types: BTreeMap::new(alloc),
        cores: BTreeMap::new(alloc),
        count: 1,
        pointers: BTreeMap::new(alloc),
        references: BTreeMap::new(alloc),
    }
}

// The key of the type at an offset, if it is known.
fn known_key(keys: &TypeKeys, offset: u64) -> Option<TypeKey>
    ensures { result ≡ get nat_cmp keys.now.types offset }
{
    match keys.types.get(&offset) {
        Some(key) => Some(*key),
        None => None,
    }
}

// A chain more is followed; answers its number.
fn next_walk(types: &mut KnownTypes) -> Result<u64, CloneError>
    requires texts { HaveTexts types.old }
    ensures texts { HaveTexts types.new }
    ensures walk { IfOk result (λ walk. types.new.walks ≡ walk) }
    ensures counted { IfOk result (λ walk. 0 < walk) }
    ensures memory { IfErr result (λ e. e ≡ OutOfMemory) }
    ensures types { (source : CloneSource) (s : UnitSource) → KnowsTypes source s types.old → OnOk result (KnowsTypes source s types.new) }
{
    let Some(walk) = types.walks.checked_add(1) else {
        return Err(CloneError::OutOfMemory);
    };
    types.walks = walk;
    Ok(walk)
}

// The place of the type at an offset, if it is derived from another; None where it ends a chain. Where it cannot be read no type is known any
// more, so that it is read again by what tells the fault.
fn try_type(
    alloc: Global,
    source: &CloneSource<'_, '_>,
    offset: u64,
    near: usize,
    types: &mut KnownTypes,
) -> Result<Option<Option<usize>>, CloneError>
    requires texts { HaveTexts types.old }
    ensures texts { HaveTexts types.new }
    ensures memory { IfErr result (λ e. e ≡ OutOfMemory) }
    ensures walks { IfDerived result (λ place. types.new.walks ≡ types.old.walks) }
    ensures adds { IfDerived result (λ place. AddsUnmet types.old.derived.items types.new.derived.items) }
    ensures at { IfDerived result (λ place. is_at types.new.derived.items place offset ≡ true) }
    ensures types { (s : UnitSource) → KnowsTypes source.now s types.old → OnOk result (KnowsTypes source.now s types.new) }
    ensures ending { (s : UnitSource) → KnowsTypes source.now s types.old → IfEnding result (EndsSo source.now s offset (end_of types.new offset)) }
{
    match find_type(alloc, source, offset, near, types) {
        Ok(found) => Ok(Some(found)),
        Err(CloneError::OutOfMemory) => Err(CloneError::OutOfMemory),
        Err(_) => {
            *types = no_types(alloc);
            Ok(None)
        }
    }
}

// Follows the types from one on, each derived from the next, up to one whose key is known or to the end of the chain. `walk` is the number of
// their chain, and `way` gets those that were passed.
fn follow_way(
    alloc: Global,
    source: &CloneSource<'_, '_>,
    first: TypeEntry,
    walk: u64,
    types: &mut KnownTypes,
    keys: &TypeKeys,
    way: &mut Vec<DerivedType>,
) -> Result<WayEnd, CloneError>
    requires texts { HaveTexts types.old }
    requires walk { types.old.walks ≡ walk }
    requires counted { 0 < walk }
    requires empty { way.old.items ≡ [] }
    ensures texts { HaveTexts types.new }
    ensures memory { IfErr result (λ e. e ≡ OutOfMemory) }
    ensures types { (s : UnitSource) → KnowsTypes source.now s types.old → OnOk result (KnowsTypes source.now s types.new) }
    ensures way { (s : UnitSource) → KnowsTypes source.now s types.old → IfOk result (EndsWay source.now s keys.now first way.new.items) }
{
    let mut next = Some(first);
    let mut near = types.derived.len();
    while let Some(named) = next {
        if let Some(key) = known_key(keys, named.offset) {
            return Ok(WayEnd::Keyed(key));
        }
        let Some(found) = try_type(alloc, source, named.offset, near, types)? else {
            return Ok(WayEnd::Lost);
        };
        let Some(place) = found else {
            return Ok(WayEnd::Named(named.offset));
        };
        let Some(met) = meet(types, place, walk) else {
            return Ok(WayEnd::Ring(named.offset));
        };
        way.push(met)?;
        next = met.next;
        near = met.near;
    }
    Ok(WayEnd::Open)
}

/// So many cores that were none yet; answers the first.
pub(crate) fn fresh_cores(keys: &mut TypeKeys, many: u64) -> Result<u64, CloneError>
    ensures memory { IfErr result (λ e. e ≡ OutOfMemory) }
    ensures cores { (source : CloneSource) (s : UnitSource) (texts : List (List ℕ)) (known : KnowsKeys source s texts keys.old) (name : ℕ → List ℕ) → IfOk result (λ first. HasCores source s texts known.text keys.old.count keys.new first many name) }
{
    let first = keys.count;
    let Some(count) = first.checked_add(many) else {
        return Err(CloneError::OutOfMemory);
    };
    keys.count = count;
    Ok(first)
}

// A core that was none yet.
fn fresh_core(keys: &mut TypeKeys) -> Result<u64, CloneError>
    ensures memory { IfErr result (λ e. e ≡ OutOfMemory) }
    ensures core { (source : CloneSource) (s : UnitSource) (texts : List (List ℕ)) (known : KnowsKeys source s texts keys.old) (name : List ℕ) → IfOk result (λ core. HasCore source s texts known.text keys.old.count keys.new core name) }
{
    fresh_cores(keys, 1)
}

// The key of a type at an offset that ends a chain.
fn key_of_end(keys: &mut TypeKeys, offset: u64) -> Result<TypeKey, CloneError>
    ensures memory { IfErr result (λ e. e ≡ OutOfMemory) }
    ensures key { (source : CloneSource) (s : UnitSource) (texts : List (List ℕ)) (name : List ℕ) (next : TypeEntry) → next.offset ≡ offset → EndsSo source s offset name → KnowsKeys source s texts keys.old → IfOk result (IsKeyOf source s texts keys.new (Some next)) }
{
    let core = fresh_core(keys)?;
    let key = TypeKey {
        core,
        consts: 0,
        but: offset,
    };
    keys.types.insert(offset, key)?;
    Ok(key)
}

// The key of what a way leads to, if it has one.
fn end_key(keys: &mut TypeKeys, end: WayEnd) -> Result<Option<TypeKey>, CloneError>
    ensures memory { IfErr result (λ e. e ≡ OutOfMemory) }
    ensures key { (source : CloneSource) (s : UnitSource) (texts : List (List ℕ)) (first : TypeEntry) (way : List DerivedType) → EndsWay source s keys.old first way end → KnowsKeys source s texts keys.old → IfOk result (KnowsBehind source s texts keys.new first way) }
{
    match end {
        WayEnd::Keyed(key) => Ok(Some(key)),
        WayEnd::Named(offset) => Ok(Some(key_of_end(keys, offset)?)),
        WayEnd::Open => Ok(Some(TypeKey {
            core: 0,
            consts: 0,
            but: 0,
        })),
        WayEnd::Ring(_) | WayEnd::Lost => Ok(None),
    }
}

// The core of a name with what a tag puts behind it, by the core of the name.
fn core_behind(keys: &mut TypeKeys, core: u64, tag: u16) -> Result<u64, CloneError>
    ensures memory { IfErr result (λ e. e ≡ OutOfMemory) }
    ensures core { (source : CloneSource) (s : UnitSource) (texts : List (List ℕ)) (known : KnowsKeys source s texts keys.old) → core < keys.old.count → IfOk result (λ found. HasCore source s texts known.text keys.old.count keys.new found (known.text core ++ behind_name tag)) }
{
    if let Some(found) = keys.cores.get(&(core, tag)) {
        return Ok(*found);
    }
    let fresh = fresh_core(keys)?;
    keys.cores.insert((core, tag), fresh)?;
    Ok(fresh)
}

// The key of a constant of what has a key.
fn const_over(key: TypeKey) -> Result<TypeKey, CloneError>
    ensures memory { IfErr result (λ e. e ≡ OutOfMemory) }
    ensures but { IfOk result (λ over. over.but ≡ key.but) }
    ensures core { IfOk result (λ over. over.core ≡ key.core) }
    ensures consts { IfOk result (λ over. over.consts ≡ key.consts + 1) }
{
    let Some(consts) = key.consts.checked_add(1) else {
        return Err(CloneError::OutOfMemory);
    };
    Ok(TypeKey {
        core: key.core,
        consts,
        but: key.but,
    })
}

// The key of a type of a tag, by the key of the type that it is derived from.
fn key_over(keys: &mut TypeKeys, tag: u16, key: TypeKey) -> Result<TypeKey, CloneError>
    ensures memory { IfErr result (λ e. e ≡ OutOfMemory) }
    ensures but { IfOk result (λ over. over.but ≡ key.but) }
    ensures text { (source : CloneSource) (s : UnitSource) (texts : List (List ℕ)) (known : KnowsKeys source s texts keys.old) → key.core < keys.old.count → IfOk result (λ over. HasText source s texts keys.new over (over_name tag (key_text known.text key))) }
{
    if tag == DW_TAG_const_type {
        return const_over(key);
    }
    let core = core_behind(keys, key.core, tag)?;
    Ok(TypeKey {
        core,
        consts: key.consts,
        but: key.but,
    })
}

// Keeps the key of a derived type, by the key of the type that it is derived from; None where it is the one that this is no key for.
fn keep_over(
    keys: &mut TypeKeys,
    met: &DerivedType,
    key: TypeKey,
) -> Result<Option<TypeKey>, CloneError>
    ensures memory { IfErr result (λ e. e ≡ OutOfMemory) }
    ensures key { (source : CloneSource) (s : UnitSource) (texts : List (List ℕ)) (next : TypeEntry) → next.offset ≡ met.now.offset → IsRead source s met.now.offset met.now.tag met.now.next → IsKeyOf source s texts keys.old met.now.next key → IfOk result (KnowsWith source s texts keys.new next) }
{
    if met.offset == key.but {
        return Ok(None);
    }
    let over = key_over(keys, met.tag, key)?;
    keys.types.insert(met.offset, over)?;
    Ok(Some(over))
}

// Keeps the keys of the types of a way, each derived from the next, by the key of what the last is derived from; answers that of the first, or
// that one.
fn keep_way(
    keys: &mut TypeKeys,
    way: &mut Vec<DerivedType>,
    end: TypeKey,
) -> Result<Option<TypeKey>, CloneError>
    ensures memory { IfErr result (λ e. e ≡ OutOfMemory) }
    ensures key { (source : CloneSource) (s : UnitSource) (texts : List (List ℕ)) (first : TypeEntry) → IsKeyBehind source s texts keys.old first way.old.items end → IfOk result (KnowsWith source s texts keys.new first) }
{
    let mut key = end;
    while let Some(met) = way.pop() {
        let Some(over) = keep_over(keys, &met, key)? else {
            return Ok(None);
        };
        key = over;
    }
    Ok(Some(key))
}

// The key of a type, if a way from it leads to something that has one; the keys of the types of the way are kept.
fn key_by_way(
    keys: &mut TypeKeys,
    way: &mut Vec<DerivedType>,
    end: WayEnd,
) -> Result<Option<TypeKey>, CloneError>
    ensures memory { IfErr result (λ e. e ≡ OutOfMemory) }
    ensures key { (source : CloneSource) (s : UnitSource) (texts : List (List ℕ)) (first : TypeEntry) → EndsWay source s keys.old first way.old.items end → KnowsKeys source s texts keys.old → IfOk result (KnowsWith source s texts keys.new first) }
{
    match end_key(keys, end)? {
        Some(key) => keep_way(keys, way, key),
        None => Ok(None),
    }
}

// Follows the types from one on, as a chain more.
fn next_way(
    alloc: Global,
    source: &CloneSource<'_, '_>,
    first: TypeEntry,
    types: &mut KnownTypes,
    keys: &TypeKeys,
    way: &mut Vec<DerivedType>,
) -> Result<WayEnd, CloneError>
    requires texts { HaveTexts types.old }
    requires empty { way.old.items ≡ [] }
    ensures texts { HaveTexts types.new }
    ensures memory { IfErr result (λ e. e ≡ OutOfMemory) }
    ensures types { (s : UnitSource) → KnowsTypes source.now s types.old → OnOk result (KnowsTypes source.now s types.new) }
    ensures way { (s : UnitSource) → KnowsTypes source.now s types.old → IfOk result (EndsWay source.now s keys.now first way.new.items) }
{
    let walk = next_walk(types)?;
    follow_way(alloc, source, first, walk, types, keys, way)
}

/// The key of a type, if all of its chain can be read. Where the chain comes to a ring, the keys of all types of the ring are kept, and the
/// chain is followed again, which then leads to one of these.
pub(crate) fn key_of(
    alloc: Global,
    source: &CloneSource<'_, '_>,
    first: TypeEntry,
    types: &mut KnownTypes,
    keys: &mut TypeKeys,
) -> Result<Option<TypeKey>, CloneError>
    requires texts { HaveTexts types.old }
    ensures texts { HaveTexts types.new }
    ensures memory { IfErr result (λ e. e ≡ OutOfMemory) }
    ensures types { (s : UnitSource) → KnowsTypes source.now s types.old → OnOk result (KnowsTypes source.now s types.new) }
    ensures key { (s : UnitSource) (texts : List (List ℕ)) → KnowsTypes source.now s types.old → KnowsKeys source.now s texts keys.old → IfOk result (KnowsWith source.now s texts keys.new first) }
{
    let mut way = Vec::new(alloc);
    let end = next_way(alloc, source, first, types, keys, &mut way)?;
    let WayEnd::Ring(offset) = end else {
        return key_by_way(keys, &mut way, end);
    };
    key_ring(alloc, types, keys, offset)?;
    let mut way = Vec::new(alloc);
    let end = next_way(alloc, source, first, types, keys, &mut way)?;
    key_by_way(keys, &mut way, end)
}

// The number that is noted of a key.
fn noted_in(names: &BTreeMap<(u64, u64), StringId>, key: &TypeKey) -> Option<StringId>
    ensures { result ≡ get pair_cmp names.now (key.now.core, key.now.consts) }
{
    match names.get(&(key.core, key.consts)) {
        Some(name) => Some(*name),
        None => None,
    }
}

/// The number of the name of the wrappers of pointers, or of references, by a tag, that is noted of a key.
pub(crate) fn noted_by_key(keys: &TypeKeys, tag: u16, key: &TypeKey) -> Option<StringId>
    ensures { (source : CloneSource) (s : UnitSource) (texts : List (List ℕ)) (known : KnowsKeys source s texts keys.now) → IfSome result (λ id. IsNumbered texts (wrapper_name tag (key_text known.text key.now)) id) }
{
    if tag == DW_TAG_pointer_type {
        return noted_in(&keys.pointers, key);
    }
    noted_in(&keys.references, key)
}

/// Notes the number of the name of the wrappers of pointers, or of references, by a tag, that go to types of a key.
pub(crate) fn note_key(
    keys: &mut TypeKeys,
    tag: u16,
    key: &TypeKey,
    name: StringId,
) -> Result<(), AllocError>
    ensures { (source : CloneSource) (s : UnitSource) (texts : List (List ℕ)) (known : KnowsKeys source s texts keys.old) → key.now.core < keys.old.count → IsNumbered texts (wrapper_name tag (key_text known.text key.now)) name → OnOk result (KnowsKeys source s texts keys.new) }
{
    if tag == DW_TAG_pointer_type {
        keys.pointers.insert((key.core, key.consts), name)?;
    } else {
        keys.references.insert((key.core, key.consts), name)?;
    }
    Ok(())
}
