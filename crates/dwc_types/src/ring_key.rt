//! The keys of types that stand in a ring, for all that go to them from outside of it.
ghost use Rattle.std.specs.Prelude.{◌≡◌, ◌<◌, ◌+◌, ◌++◌, ◌==◌, if◌then◌else◌, ℕ, List, Some, IfErr, IfOk, OnOk, length};
ghost use Rattle.dwc_rules.specs.Clones.{UnitSource};
ghost use Rattle.dwc_source.specs.declared.error.CloneError.TheVariants.{OutOfMemory};
ghost use Rattle.dwc_source.specs.declared.source.CloneSource.{CloneSource};
ghost use Rattle.dwc_types.specs.KeyedTypes.{HasCores, KnowsKeys, NamesAround, NamesNext, consts_front, turned_name};
ghost use Rattle.dwc_types.specs.KnownNames.{KnowsTypes};
ghost use Rattle.dwc_types.specs.TypeRings.{IsTurn, consts_of, spelt_of};

use crate::known_type::{DerivedType, KnownTypes};
use crate::type_key::{TypeKey, TypeKeys, fresh_cores};
use crate::type_ring::{last_offset, least_turn, passed_behind, ring_at, spelt_tags};
use dwc_source::CloneError;
use std::alloc::{AllocError, Global};

// How many of some types are constants, by the tags of the others.
fn consts_in(types: &[DerivedType], tags: &[u16]) -> u64
    requires { tags.now ≡ spelt_of types.now }
    ensures { result ≡ consts_of types.now }
{
    (types.len() - tags.len()) as u64
}

// The core of the type behind so many tags of a ring's turn, where the cores of a turn stand behind one another.
fn core_behind(first: u64, turn: usize, passed: usize) -> Result<u64, CloneError>
    ensures memory { IfErr result (λ e. e ≡ OutOfMemory) }
    ensures core { IfOk result (λ core. core ≡ first + (if passed == turn then 0 else passed)) }
{
    if passed == turn {
        return Ok(first);
    }
    match first.checked_add(passed as u64) {
        Some(core) => Ok(core),
        None => Err(CloneError::OutOfMemory),
    }
}

// Keeps the key of the type at an offset, whose core is one of some that are new.
fn keep_key(keys: &mut TypeKeys, offset: u64, key: TypeKey) -> Result<(), AllocError>
    ensures { (source : CloneSource) (s : UnitSource) (texts : List (List ℕ)) (before : ℕ → List ℕ) (count first many j : ℕ) (name : ℕ → List ℕ) → HasCores source s texts before count keys.old first many name → j < many → key.core ≡ first + j → ((id : ℕ) → NamesNext source s (Some (offset, id)) key.but (consts_front key.consts ++ name j)) → OnOk result (HasCores source s texts before count keys.new first many name) }
{
    keys.types.insert(offset, key)?;
    Ok(())
}

// Keeps the keys of the types of a ring, by how many tags of its turn are passed in front of each: so many have a core from a first one on.
fn keep_ring(
    keys: &mut TypeKeys,
    ring: &[DerivedType],
    turn: usize,
    first: u64,
    consts: u64,
) -> Result<(), CloneError>
    requires { IsTurn turn (spelt_of ring.now) }
    ensures memory { IfErr result (λ e. e ≡ OutOfMemory) }
    ensures keys { (source : CloneSource) (s : UnitSource) (texts : List (List ℕ)) (before : ℕ → List ℕ) (count : ℕ) → HasCores source s texts before count keys.old first (length ring.now) (turned_name (spelt_of ring.now)) → NamesAround source s consts ring.now → OnOk result (KnowsKeys source s texts keys.new) }
{
    let mut passed = 0;
    let mut but = last_offset(ring, 0);
    for i in 0..ring.len() {
        let core = core_behind(first, turn, passed)?;
        keep_key(keys, ring[i].offset, TypeKey { core, consts, but })?;
        passed = passed_behind(ring[i].tag, turn, passed);
        but = ring[i].offset;
    }
    Ok(())
}

/// Keeps the keys of the types of the ring that begins with the type at an offset. Two of them that are whole turns apart have one core.
pub(crate) fn key_ring(
    alloc: Global,
    types: &KnownTypes,
    keys: &mut TypeKeys,
    offset: u64,
) -> Result<(), CloneError>
    ensures memory { IfErr result (λ e. e ≡ OutOfMemory) }
    ensures keys { (source : CloneSource) (s : UnitSource) (texts : List (List ℕ)) → KnowsTypes source s types.now → KnowsKeys source s texts keys.old → OnOk result (KnowsKeys source s texts keys.new) }
{
    let ring = ring_at(alloc, types, offset)?;
    let tags = spelt_tags(alloc, &ring)?;
    let turn = least_turn(&tags);
    let consts = consts_in(&ring, &tags);
    let first = fresh_cores(keys, ring.len() as u64)?;
    keep_ring(keys, &ring, turn, first, consts)
}
