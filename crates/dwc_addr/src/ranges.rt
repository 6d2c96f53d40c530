//! The native ranges of intervals of wasm offsets.
ghost use Rattle.std.specs.Prelude.{ℕ, ◌≡◌, ◌<◌, ◌^◌, ◌+◌, ◌≤◌, true, [], option_map, Some, None, IfSome};
ghost use Rattle.std.specs.Iterator.{YieldsFirst};
ghost use Rattle.dwc_native.specs.Runs.{native_ranges, closed_ranges, native_in_function};
ghost use Rattle.dwc_addr.specs.RunViews.{run_view, IsRunOf};
ghost use Rattle.dwc_addr.specs.Transforms.{function_view};
ghost use Rattle.dwc_addr.specs.Translations.{range_in as range_of, ranges_from, ranges_to_come, GivesRange, with_lengths};

use crate::AddressTransform;
use crate::address_map::{GeneratedAddress, WasmAddress};
use crate::bounds::{BLOCK, OUTER, is_apart};
use crate::function_map::FunctionMap;
use crate::positions::{end_in, start_in};
use crate::run::Run;
use crate::runs::{run_at, run_count};
use crate::shown::shown_range;
use dwc_base::{Address, OutputFor};
use std::marker::Model;

/// The native ranges of an interval that are still to come: where each begins and ends in its function, which they are in order of
/// native code. They take no memory.
#[derive(Drop)]
pub struct RawRanges<'t> {
    function: Option<&'t FunctionMap<'t>>,
    start: WasmAddress,
    end: WasmAddress,
    // The number of the next run, and for a debugger of the next stretch.
    number: usize,
}

impl<'t> Model for RawRanges<'t> {
    ghost use Rattle.std.specs.Prelude.{ℕ, List, option_map};
    ghost use Rattle.dwc_addr.specs.Translations.{ranges_left};

    ghost Value = { List (ℕ × ℕ) };

    ghost view = { λ r. ranges_left (option_map (λ f. f.now) r.function) r.start r.end r.number };
}

impl<'t> RawRanges<'t> {
    /// The next range, which has a byte and ends below 2^32; None behind the last.
    pub fn next_range(&mut self) -> Option<(GeneratedAddress, GeneratedAddress)>
        ensures order { IfSome result (λ range. range.0 < range.1) }
        ensures low { IfSome result (λ range. range.1 < 2 ^ 32) }
        ensures next { YieldsFirst (λ r. r) self.old result self.new }
    {
        if self.is_behind() {
            return None;
        }
        self.find_range()
    }

    // Whether no run or stretch is left: then there is no further range.
    fn is_behind(&self) -> bool
        ensures { result ≡ true → self.now ≡ [] }
    {
        match self.function {
            Some(function) => self.number >= last_number(function),
            None => true,
        }
    }

    // The next range, of what is left. It stands apart, so that what callers take in of `next_range` is the test alone.
    #[inline(never)]
    fn find_range(&mut self) -> Option<(GeneratedAddress, GeneratedAddress)>
        ensures order { IfSome result (λ range. range.0 < range.1) }
        ensures low { IfSome result (λ range. range.1 < 2 ^ 32) }
        ensures next { YieldsFirst (λ r. r) self.old result self.new }
    {
        let function = self.function?;
        let (next, range) = next_range(function, self.start, self.end, self.number)?;
        self.number = next;
        Some(range)
    }
}

impl<'t> Iterator for RawRanges<'t> {
    ghost use Rattle.std.specs.Iterator.{YieldsFirst, item_count};

    type Item = (GeneratedAddress, GeneratedAddress);

    ghost next_gives = { YieldsFirst (λ r. r) };

    ghost remaining = { item_count (λ r. r) };

    fn next(&mut self) -> Option<(GeneratedAddress, GeneratedAddress)> {
        self.next_range()
    }
}

/// The same ranges, each as an address and a length.
#[derive(Drop)]
pub struct TranslatedRanges<'t> {
    symbol: usize,
    ranges: RawRanges<'t>,
}

impl<'t> Model for TranslatedRanges<'t> {
    ghost use Rattle.std.specs.Prelude.{ℕ, List, map};
    ghost use Rattle.dwc_base.specs.declared.records.Address.{Address};
    ghost use Rattle.dwc_addr.specs.Translations.{with_length};

    ghost Value = { List (Address × ℕ) };

    ghost view = { λ r. map (with_length r.symbol) r.ranges };
}

impl<'t> Iterator for TranslatedRanges<'t> {
    ghost use Rattle.std.specs.Iterator.{YieldsFirst, item_count};

    type Item = (Address, u64);

    ghost next_gives = { YieldsFirst (λ r. r) };

    ghost remaining = { item_count (λ r. r) };

    fn next(&mut self) -> Option<(Address, u64)> {
        let (start, end) = self.ranges.next_range()?;
        let begin = Address::Symbol {
            symbol: self.symbol,
            addend: start as i64,
        };
        Some((begin, (end - start) as u64))
    }
}

impl AddressTransform<'_> {
    /// The native ranges of an interval, from `start` up to `end`, in the function that it begins in: its symbol, and for each run that
    /// has code of the interval where the native code begins and ends, in order, without the ranges that have no byte. For a debugger they are
    /// the maximal ranges of the bytes whose shown source lies in the interval. An interval that is empty or reversed has none. None where
    /// the interval begins in no function that has a symbol.
    pub fn translate_ranges_raw(&self, start: u64, end: u64) -> Option<(usize, RawRanges<'_>)>
        ensures { result ≡ native_in_function self.now start end }
    {
        let function = self.func_at(start)?;
        let symbol = function.symbol?;
        let number = first_number(function, start, end);
        Some((
            symbol,
            RawRanges {
                function: Some(function),
                start,
                end,
                number,
            },
        ))
    }

    /// The same ranges, each as an address and a length; without any where the interval begins in no function that has a symbol.
    pub fn translate_ranges(&self, start: u64, end: u64) -> TranslatedRanges<'_>
        ensures { result ≡ with_lengths (native_in_function self.now start end) }
    {
        match self.translate_ranges_raw(start, end) {
            Some((symbol, ranges)) => TranslatedRanges { symbol, ranges },
            None => TranslatedRanges {
                symbol: 0,
                ranges: RawRanges {
                    function: None,
                    start,
                    end,
                    number: 0,
                },
            },
        }
    }
}

// The number of the first run, and for a debugger of the first stretch, in which an interval can have a range.
fn first_number(function: &FunctionMap<'_>, start: WasmAddress, end: WasmAddress) -> usize
    ensures { ranges_to_come function.now start end result ≡ native_ranges (function_view function.now) start end }
{
    match function.output_for {
        OutputFor::Default => first_run(function, start, end),
        OutputFor::Debugger => 0,
    }
}

// The number of the first run in which an interval can have a range: that behind the last where the interval is empty or reversed.
fn first_run(function: &FunctionMap<'_>, start: WasmAddress, end: WasmAddress) -> usize
    ensures { ranges_from function.now start end result ≡ closed_ranges (function_view function.now) start end }
{
    if start < end { 0 } else { run_count(function) }
}

// The number behind the last run, and for a debugger behind the last stretch.
fn last_number(function: &FunctionMap<'_>) -> usize
    ensures { (start end number : ℕ) → result ≤ number → ranges_to_come function.now start end number ≡ [] }
{
    match function.output_for {
        OutputFor::Default => run_count(function),
        OutputFor::Debugger => function.stretches.len(),
    }
}

// The first native range of an interval from a run on, and for a debugger from a stretch on, and from which number on the others are.
fn next_range(
    function: &FunctionMap<'_>,
    start: WasmAddress,
    end: WasmAddress,
    number: usize,
) -> Option<(usize, (GeneratedAddress, GeneratedAddress))>
    ensures range { GivesRange (ranges_to_come function.now start end) number result }
    ensures order { IfSome result (λ found. found.1.0 < found.1.1) }
    ensures low { IfSome result (λ found. found.1.1 < 2 ^ 32) }
{
    match function.output_for {
        OutputFor::Default => range_behind(function, start, end, number),
        OutputFor::Debugger => shown_range(function, start, end, number),
    }
}

// The first native range of an interval in the runs of a function from one on, and the number of the run behind its own.
fn range_behind(
    function: &FunctionMap<'_>,
    start: WasmAddress,
    end: WasmAddress,
    number: usize,
) -> Option<(usize, (GeneratedAddress, GeneratedAddress))>
    ensures range { GivesRange (ranges_from function.now start end) number result }
    ensures order { IfSome result (λ found. found.1.0 < found.1.1) }
    ensures low { IfSome result (λ found. found.1.1 < 2 ^ 32) }
{
    let mut place = number;
    while place < run_count(function) {
        let passed = runs_apart(function, place, start, end);
        if passed == 0 {
            let run = run_at(function, place);
            if let Some(range) = range_in(function, &run, start, end) {
                return Some((place + 1, range));
            }
            place += 1;
        } else {
            place += passed;
        }
    }
    None
}

// So many runs from one on, by their bounds, an interval does not meet: those of a block of blocks or of a block that begins there, that one
// alone, or none.
fn runs_apart(
    function: &FunctionMap<'_>,
    place: usize,
    start: WasmAddress,
    end: WasmAddress,
) -> usize
    ensures few { result ≤ 4096 }
    ensures ranges { ranges_from function.now start end (place + result) ≡ ranges_from function.now start end place }
{
    if place >= function.run_bounds.len() {
        return 0;
    }
    if place % OUTER == 0 && is_apart(&function.outer_bounds, place / OUTER, start, end) {
        return OUTER;
    }
    if place % BLOCK == 0 && is_apart(&function.block_bounds, place / BLOCK, start, end) {
        return BLOCK;
    }
    if is_apart(&function.run_bounds, place, start, end) {
        return 1;
    }
    0
}

// The native range of an interval in a run, if it has one: where the run has code of the interval, and a byte of it.
fn range_in(
    function: &FunctionMap<'_>,
    run: &Run,
    start: WasmAddress,
    end: WasmAddress,
) -> Option<(GeneratedAddress, GeneratedAddress)>
    requires { IsRunOf function.now run.now }
    ensures range { result ≡ range_of start end (run_view function.now run.now) }
    ensures order { IfSome result (λ range. range.0 < range.1) }
    ensures low { IfSome result (λ range. range.1 < 2 ^ 32) }
{
    if run.wasm_start >= end || run.wasm_end < start {
        return None;
    }
    let begin = start_in(function, run, start);
    let end = end_in(function, run, end);
    if begin >= end {
        return None;
    }
    Some((begin, end))
}
