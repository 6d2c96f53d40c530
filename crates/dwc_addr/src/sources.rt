//! The entries of a function's address map that have a source, as they stand in the map.
ghost use Rattle.std.specs.Prelude.{◌≡◌, ◌<◌, ◌≤◌, ◌-◌, ◌^◌, map, length, take, drop, slice_index_or, slice_get};
ghost use Rattle.std.specs.List.Sorted.{IsNonDecreasingBy};
ghost use Rattle.dwc_addr.specs.declared.address_map.AddressMap.{AddressMap};
ghost use Rattle.dwc_addr.specs.PositionPlaces.{IsCountBelow, IsCountUpTo};
ghost use Rattle.dwc_addr.specs.Sources.{counted_from};

use crate::address_map::{AddressMap, GeneratedAddress, WasmAddress};
use crate::near::WINDOW;
use dwc_compiled::InstructionSource;
use std::marker::Model;

/// The entries of an address map that have a source, in order, as the map has them. A source is counted from the contents of the code section,
/// where the map counts it from the start of the file. A contract sees the list of them.
#[derive(Drop)]
pub struct Sources<'a> {
    entries: &'a [InstructionSource],
    // Where the contents of the code section begin in the file.
    code_offset: u64,
}

impl<'a> Model for Sources<'a> {
    ghost use Rattle.std.specs.Prelude.{List, map};
    ghost use Rattle.dwc_addr.specs.declared.address_map.AddressMap.{AddressMap};
    ghost use Rattle.dwc_addr.specs.Sources.{counted_from};

    ghost Value = { List AddressMap };

    ghost view = { λ s. map (counted_from s.code_offset) s.entries.now };
}

impl<'a> Sources<'a> {
    // Entries, counted from an offset of the file.
    pub(crate) fn new(entries: &'a [InstructionSource], code_offset: u64) -> Sources<'a>
        ensures { result ≡ map (counted_from code_offset) entries.now }
    {
        Sources {
            entries,
            code_offset,
        }
    }

    /// How many there are.
    pub fn len(&self) -> usize
        ensures count { result ≡ length self.now }
        ensures few { length self.now < 2 ^ 63 }
    {
        self.entries.len()
    }

    /// The one at a place.
    #[inline(always)]
    pub fn at(&self, place: usize) -> AddressMap
        requires { place < length self.now }
        ensures { (d : AddressMap) → result ≡ slice_index_or self.now place d }
    {
        let entries = self.entries;
        counted(entries[place], self.code_offset)
    }

    /// The one at a place, if there is one.
    #[inline(always)]
    pub fn get(&self, place: usize) -> Option<AddressMap>
        ensures { result ≡ slice_get self.now place }
    {
        let entry = self.entries.get(place)?;
        Some(counted(*entry, self.code_offset))
    }

    /// Those from a place on, up to another.
    #[inline(always)]
    pub fn part(&self, from: usize, to: usize) -> Sources<'a>
        requires low { from ≤ to }
        requires high { to ≤ length self.now }
        ensures { result ≡ take (to - from) (drop from self.now) }
    {
        Sources {
            entries: &self.entries[from..to],
            code_offset: self.code_offset,
        }
    }

    // How many lie below a wasm offset, by halves.
    pub(crate) fn below(&self, addr: WasmAddress) -> usize
        requires { IsNonDecreasingBy (λ e. e.wasm) self.now }
        ensures { IsCountBelow (λ e. e.wasm) self.now addr result }
    {
        let code_offset = self.code_offset;
        self.entries.partition_point(|entry| u64::from(wasm_offset(entry.source, code_offset))
            < addr)
    }

    // How many do not lie above it.
    pub(crate) fn up_to(&self, addr: WasmAddress) -> usize
        requires { IsNonDecreasingBy (λ e. e.wasm) self.now }
        ensures { IsCountUpTo (λ e. e.wasm) self.now addr result }
    {
        let code_offset = self.code_offset;
        self.entries.partition_point(|entry| u64::from(wasm_offset(entry.source, code_offset))
            <= addr)
    }

    // How many begin below a native offset.
    pub(crate) fn begun_below(&self, native: GeneratedAddress) -> usize
        requires { IsNonDecreasingBy (λ e. e.generated) self.now }
        ensures { IsCountBelow (λ e. e.generated) self.now native result }
    {
        self.entries
            .partition_point(|entry| (entry.code_offset as usize) < native)
    }

    // How many do not begin above it.
    pub(crate) fn begun_up_to(&self, native: GeneratedAddress) -> usize
        requires { IsNonDecreasingBy (λ e. e.generated) self.now }
        ensures { IsCountUpTo (λ e. e.generated) self.now native result }
    {
        self.entries
            .partition_point(|entry| entry.code_offset as usize <= native)
    }

    // How many lie below a wasm offset, if the last that does stands in the window that a hint begins.
    pub(crate) fn below_near(&self, hint: usize, addr: WasmAddress) -> usize {
        if self.entries.len() < WINDOW {
            return self.entries.len();
        }
        let place = addr.saturating_add(self.code_offset);
        let narrow = u32::try_from(place).unwrap_or(u32::MAX);
        let first = hint.min(self.entries.len() - WINDOW);
        let mut count = first;
        for i in first..first + WINDOW {
            if self.entries[i].source < narrow {
                count = count.wrapping_add(1);
            }
        }
        count
    }
}

// A place of the file, counted from the contents of the code section.
#[inline(always)]
fn wasm_offset(source: u32, code_offset: u64) -> u32
    ensures { result ≡ source - code_offset }
{
    u64::from(source).saturating_sub(code_offset) as u32
}

// An entry of a map, its source counted from an offset.
#[inline(always)]
fn counted(entry: InstructionSource, code_offset: u64) -> AddressMap
    ensures { result ≡ counted_from code_offset entry }
{
    AddressMap {
        generated: entry.code_offset,
        wasm: wasm_offset(entry.source, code_offset),
    }
}
