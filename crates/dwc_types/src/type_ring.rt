//! Types that are derived from one another in a ring, and which of them have names that are the same text.
ghost use Rattle.std.specs.Prelude.{◌≡◌, ◌==◌, ◌<◌, ◌+◌, ◌^◌, List, ℕ, IfOk, IfSome, OnOk, false, true};
ghost use Rattle.dwc_base.specs.declared.constants.TheConstants.{DW_TAG_const_type};
ghost use Rattle.dwc_rules.specs.Clones.{UnitSource};
ghost use Rattle.dwc_source.specs.declared.source.CloneSource.{CloneSource};
ghost use Rattle.dwc_types.specs.KnownNames.{AreOwnNames, IsOwnName, NamesRing};
ghost use Rattle.dwc_types.specs.TypeRings.{IsKeptAt, IsRoundOrNone, IsTurn, last_type_at, passed_with, spelt_of};

use crate::known_type::{DerivedType, KnownTypes, place_of};
use dwc_base::constants::DW_TAG_const_type;
use dwc_unit::StringId;
use std::alloc::{AllocError, Global};
use std::collections::BTreeMap;

// The least prime number.
const LEAST_PRIME: usize = 2;

// The derived type at an offset, if it is kept; `near` is where it may stand.
fn type_at(types: &KnownTypes, offset: u64, near: usize) -> Option<DerivedType>
    ensures { IfSome result (λ met. IsKeptAt types.now offset met) }
{
    match place_of(types, offset, near) {
        Some(place) => Some(types.derived[place]),
        None => None,
    }
}

/// The derived types from the one at an offset on, each derived from the next and the last from the first; none where these are not all kept,
/// or come to no end.
pub(crate) fn ring_at(
    alloc: Global,
    types: &KnownTypes,
    own: u64,
) -> Result<Vec<DerivedType>, AllocError>
    ensures { IfOk result (λ ring. IsRoundOrNone types.now own ring.items) }
{
    let mut ring = Vec::new(alloc);
    let mut next = own;
    let mut near = 0;
    for _ in 0..types.derived.len() {
        let Some(met) = type_at(types, next, near) else {
            return Ok(Vec::new(alloc));
        };
        let Some(named) = met.next else {
            return Ok(Vec::new(alloc));
        };
        ring.push(met)?;
        if named.offset == own {
            return Ok(ring);
        }
        next = named.offset;
        near = met.near;
    }
    Ok(Vec::new(alloc))
}

/// The tags of some types in order, but for constants, which all stand in front of a name alike.
pub(crate) fn spelt_tags(alloc: Global, types: &[DerivedType]) -> Result<Vec<u16>, AllocError>
    ensures { IfOk result (λ tags. tags.items ≡ spelt_of types.now) }
{
    let mut tags = Vec::new(alloc);
    for i in 0..types.len() {
        if types[i].tag != DW_TAG_const_type {
            tags.push(types[i].tag)?;
        }
    }
    Ok(tags)
}

// Whether some tags are the same again where so many go from the front to the end.
fn is_turn(tags: &[u16], turn: usize) -> bool
    ensures { result ≡ true → IsTurn turn tags.now }
{
    if turn > tags.len() {
        return false;
    }
    let (front, left) = tags.split_at(turn);
    let (first, last) = tags.split_at(tags.len() - turn);
    left == first && front == last
}

// A turn of some tags by that many of them, divided by a prime where it is one then too.
fn less_turn(tags: &[u16], turn: usize, prime: usize) -> usize
    requires prime { 0 < prime }
    requires turn { IsTurn turn tags.now }
    ensures { IsTurn result tags.now }
{
    let less = turn / prime;
    if is_turn(tags, less) {
        return less;
    }
    turn
}

/// The least number of tags that go from the front to the end so that they are the same again. It divides the number of all, so the primes are
/// taken from that one by one, and each is tried.
pub(crate) fn least_turn(tags: &[u16]) -> usize
    ensures { IsTurn result tags.now }
{
    let mut turn = tags.len();
    let mut rest = tags.len();
    let mut prime = LEAST_PRIME;
    while prime <= rest {
        if rest % prime != 0 {
            prime += 1;
            continue;
        }
        rest /= prime;
        turn = less_turn(tags, turn, prime);
    }
    turn
}

// Notes the number of a name for a type of a ring, unless it is a constant, where a turn is passed since the last one; answers how many tags of
// the turn are passed behind it.
fn note_next(
    names: &mut BTreeMap<u64, StringId>,
    met: &DerivedType,
    turn: usize,
    passed: usize,
    name: StringId,
) -> Result<usize, AllocError>
    requires { passed + 1 < 2 ^ 64 }
    ensures passed { IfOk result (λ n. n ≡ passed_with met.now.tag turn passed) }
    ensures names { (source : CloneSource) (s : UnitSource) (texts : List (List ℕ)) → ((met.now.tag == DW_TAG_const_type) ≡ false → (passed == turn) ≡ true → IsOwnName source s texts met.now.offset name) → AreOwnNames source s texts names.old → OnOk result (AreOwnNames source s texts names.new) }
{
    if met.tag == DW_TAG_const_type {
        return Ok(passed);
    }
    if passed != turn {
        return Ok(passed + 1);
    }
    names.insert(met.offset, name)?;
    Ok(1)
}

/// Notes the number of the name of the wrapper of a ring's first type for all types of the ring that have the same name, which are those that
/// stand whole turns behind it.
pub(crate) fn note_ring(
    names: &mut BTreeMap<u64, StringId>,
    ring: &[DerivedType],
    turn: usize,
    name: StringId,
) -> Result<(), AllocError>
    requires { IsTurn turn (spelt_of ring.now) }
    ensures { (source : CloneSource) (s : UnitSource) (texts : List (List ℕ)) → NamesRing source s texts ring.now name → AreOwnNames source s texts names.old → OnOk result (AreOwnNames source s texts names.new) }
{
    let mut passed = 0;
    for i in 0..ring.len() {
        passed = note_next(names, &ring[i], turn, passed, name)?;
    }
    Ok(())
}

/// How many tags of a turn are passed behind a type, by those that are passed in front of it.
pub(crate) fn passed_behind(tag: u16, turn: usize, passed: usize) -> usize
    requires { passed + 1 < 2 ^ 64 }
    ensures { result ≡ passed_with tag turn passed }
{
    if tag == DW_TAG_const_type {
        return passed;
    }
    if passed == turn {
        return 1;
    }
    passed + 1
}

/// The offset of the last of some types, or else another.
pub(crate) fn last_offset(types: &[DerivedType], other: u64) -> u64
    ensures { result ≡ last_type_at other types.now }
{
    let mut last = other;
    for i in 0..types.len() {
        last = types[i].offset;
    }
    last
}
