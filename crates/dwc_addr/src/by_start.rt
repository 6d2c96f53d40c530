//! The functions of a module in the order in which they begin.
ghost use Rattle.std.specs.Prelude.{◌≡◌, ◌+◌, ◌*◌, ◌/◌, ◌%◌, ◌^◌, ◌<◌, ◌≤◌, ℕ, true, false, List, length, map, slice_index_or, IfOk};
ghost use Rattle.std.specs.List.Sorted.{IsNonDecreasingBy};
ghost use Rattle.dwc_native.specs.Functions.{Function};
ghost use Rattle.dwc_addr.specs.PositionPlaces.{AreBelow, IsCountUpTo};
ghost use Rattle.dwc_addr.specs.Transforms.{function_view};
ghost use Rattle.dwc_addr.specs.Starts.{start_key, IsStartTable, IsOwnerPlaceIf};

use crate::function_map::FunctionMap;
use crate::hints::{StartHints, start_hint};
use std::alloc::{AllocError, Global};

// A function's key: its start in the upper half, its place in the lower. So keys have the order of the starts, and those of
// equal starts that of the functions.
fn key_of(start: u64, place: usize) -> u64
    requires start { start < 2 ^ 32 }
    requires place { place < 2 ^ 32 }
    ensures { result ≡ start_key start place }
{
    (start << 32) + place as u64
}

pub(crate) fn start_of(key: u64) -> u64
    ensures { result ≡ key / 2 ^ 32 }
{
    key >> 32
}

fn place_of(key: u64) -> u32
    ensures { result ≡ key % 2 ^ 32 }
{
    (key % (1 << 32)) as u32
}

/// The keys of some functions, in rising order.
pub(crate) fn start_table(alloc: Global, functions: &[FunctionMap]) -> Result<Vec<u64>, AllocError>
    requires { length functions.now ≤ 2 ^ 32 }
    ensures { IfOk result (λ keys. IsStartTable (map function_view functions.now) keys.items) }
{
    let mut keys = Vec::with_capacity(alloc, functions.len())?;
    for i in 0..functions.len() {
        keys.push(key_of(functions[i].wasm_start, i))?;
    }
    keys.sort_unstable();
    Ok(keys)
}

/// The place of the function with the greatest start at or below an address, of several with that start the last.
pub(crate) fn owner_place(keys: &[u64], hints: &StartHints, addr: u64) -> Option<u32>
    ensures { (fs : List Function) → IsStartTable fs keys.now → IsOwnerPlaceIf fs addr result }
{
    let count = begun_count(keys, start_hint(hints, addr), addr);
    if count == 0 {
        return None;
    }
    Some(place_of(keys[count - 1]))
}

// How many functions begin at or below an address. What a hint says is tested, and where it is not so, they are found by halves.
fn begun_count(keys: &[u64], hint: usize, addr: u64) -> usize
    ensures count { IsNonDecreasingBy (λ key. key / 2 ^ 32) keys.now → IsCountUpTo (λ key. key / 2 ^ 32) keys.now addr result }
    ensures inside { result ≤ length keys.now }
{
    let mut count = hint;
    if is_begun(keys, count, addr) {
        count += 1;
    }
    if are_begun(keys, count, addr) && !is_begun(keys, count, addr) {
        return count;
    }
    keys.partition_point(|key| start_of(*key) <= addr)
}

// Whether there is a key at a place, and its function begins at or below an address.
fn is_begun(keys: &[u64], place: usize, addr: u64) -> bool
    ensures inside { result ≡ true → place < length keys.now }
    ensures below { result ≡ true → AreBelow (λ key. key / 2 ^ 32) keys.now (addr + 1) (place + 1) }
    ensures above { result ≡ false → (d : ℕ) → place < length keys.now → addr + 1 ≤ slice_index_or keys.now place d / 2 ^ 32 }
{
    place < keys.len() && start_of(keys[place]) <= addr
}

// Whether there are so many keys, and the last of them is of such a function.
fn are_begun(keys: &[u64], count: usize, addr: u64) -> bool
    ensures inside { result ≡ true → count ≤ length keys.now }
    ensures below { result ≡ true → AreBelow (λ key. key / 2 ^ 32) keys.now (addr + 1) count }
{
    match count.checked_sub(1) {
        None => true,
        Some(last) => is_begun(keys, last, addr),
    }
}
