//! The stretches of a function's native code along which one source is shown, and the search among them for the code of an interval.
ghost use Rattle.std.specs.Prelude.{ℕ, ◌≡◌, ◌+◌, ◌*◌, ◌/◌, ◌<◌, ◌≤◌, ◌^◌, true, false, not, List, map, length, slice_index_or, option_map, IfOk, IfSome};
ghost use Rattle.std.specs.List.{list_any};
ghost use Rattle.std.specs.Option.{unwrap_or};
ghost use Rattle.std.specs.List.Sorted.{IsNonDecreasingBy};
ghost use Rattle.dwc_base.specs.Listing.{first_of};
ghost use Rattle.dwc_base.specs.declared.records.OutputFor.TheVariants.{Debugger};
ghost use Rattle.dwc_native.specs.ShownSources.{is_source_in};
ghost use Rattle.dwc_addr.specs.declared.stretch.Stretch.{Stretch};
ghost use Rattle.dwc_addr.specs.declared.stretch.SourceTable.{SourceTable};
ghost use Rattle.dwc_addr.specs.PositionPlaces.{IsCountBelow};
ghost use Rattle.dwc_addr.specs.Runs.{recorded_view};
ghost use Rattle.dwc_addr.specs.Stretches.{AreStretches, AreAlike, AreTables, HaveKeys, IsCapped, is_between};
ghost use Rattle.dwc_addr.specs.Translations.{stretch_start as start_of, shown_from, GivesRange};

use crate::address_map::{GeneratedAddress, WasmAddress};
use crate::function_map::FunctionMap;
use crate::sources::Sources;
use crate::stretch::{SourceTable, Stretch};
use dwc_base::OutputFor;
use std::alloc::{AllocError, Global};

// A block of the first table has so many stretches, and one of each further table so many blocks of the table before.
const BLOCK: usize = 32;

// A source takes so many bits.
const SOURCE_BITS: u32 = 32;

// The stretches of a function for some output, and tables of their sources; none but for a debugger.
#[inline(never)]
pub(crate) fn shown_parts(
    alloc: Global,
    output_for: OutputFor,
    start: WasmAddress,
    len: GeneratedAddress,
    sources: &Sources<'_>,
) -> Result<(Vec<Stretch>, Vec<SourceTable>), AllocError>
    requires start_low { start < 2 ^ 32 }
    requires short { len < 2 ^ 32 }
    requires order { IsNonDecreasingBy (λ e. e.generated) sources.now }
    ensures shown { IfOk result (λ parts. output_for ≡ Debugger → AreStretches start len (map recorded_view sources.now) parts.0.items) }
    ensures few { IfOk result (λ parts. length parts.0.items < 2 ^ 32) }
    ensures listed { IfOk result (λ parts. AreTables parts.0.items parts.1.items) }
{
    match output_for {
        OutputFor::Default => Ok((Vec::new(alloc), Vec::new(alloc))),
        OutputFor::Debugger => {
            let stretches = stretches(alloc, start, len, sources)?;
            let tables = source_tables(alloc, &stretches)?;
            Ok((stretches, tables))
        }
    }
}

// The stretches of a function that begins at a wasm offset and has so many bytes. A source that is shown already begins none.
fn stretches(
    alloc: Global,
    start: WasmAddress,
    len: GeneratedAddress,
    sources: &Sources<'_>,
) -> Result<Vec<Stretch>, AllocError>
    requires start_low { start < 2 ^ 32 }
    requires order { IsNonDecreasingBy (λ e. e.generated) sources.now }
    ensures { IfOk result (λ stretches. AreStretches start len (map recorded_view sources.now) stretches.items) }
{
    if len == 0 {
        return Ok(Vec::new(alloc));
    }
    let count = sources.begun_below(len);
    let mut stretches = Vec::with_capacity(alloc, count.saturating_add(1))?;
    let mut last = Stretch {
        start: 0,
        source: first_source(start, sources),
    };
    for place in 0..count {
        let source = sources.at(place);
        if source.wasm != last.source {
            if last.start < source.generated {
                stretches.push(last)?;
            }
            last = Stretch {
                start: source.generated,
                source: source.wasm,
            };
        }
    }
    stretches.push(last)?;
    Ok(stretches)
}

// The first source of a function, and without one where it begins.
fn first_source(start: WasmAddress, sources: &Sources<'_>) -> u32
    requires { start < 2 ^ 32 }
    ensures { result ≡ unwrap_or (option_map (λ e. e.wasm) (first_of (map recorded_view sources.now))) start }
{
    match sources.get(0) {
        Some(source) => source.wasm,
        None => start as u32,
    }
}

// Tables of the sources of stretches, up to that of which a block has them all.
fn source_tables(alloc: Global, stretches: &[Stretch]) -> Result<Vec<SourceTable>, AllocError>
    requires { length stretches.now < 2 ^ 32 }
    ensures { IfOk result (λ tables. AreTables stretches.now tables.items) }
{
    let mut tables = Vec::new(alloc);
    let mut block = BLOCK;
    while block <= stretches.len() {
        tables.push(source_table(alloc, block, stretches)?)?;
        block *= BLOCK;
    }
    Ok(tables)
}

// The table of the sources of stretches for blocks of so many.
fn source_table(
    alloc: Global,
    block: usize,
    stretches: &[Stretch],
) -> Result<SourceTable, AllocError>
    requires some { 0 < block }
    requires few { length stretches.now < 2 ^ 32 }
    ensures { IfOk result (λ table. HaveKeys stretches.now table.block table.keys.items) }
{
    let mut keys = Vec::with_capacity(alloc, stretches.len())?;
    for i in 0..stretches.len() {
        keys.push(key_of(i / block, stretches[i].source))?;
    }
    keys.sort_unstable();
    Ok(SourceTable { block, keys })
}

// The key of a source in a block.
fn key_of(block: usize, source: u32) -> u64
    requires { block < 2 ^ 32 }
    ensures key { result ≡ block * 2 ^ 32 + source }
    ensures low { source < 2 ^ 32 }
{
    ((block as u64) << SOURCE_BITS) + u64::from(source)
}

// Whether a source lies in an interval, whose end is none of it.
#[inline(always)]
fn is_inside(source: u32, start: WasmAddress, end: WasmAddress) -> bool
    ensures { result ≡ is_source_in start end source }
{
    start <= u64::from(source) && u64::from(source) < end
}

// The number of the first stretch from one on whose source is inside an interval, or is outside if those inside are passed; behind the last
// stretch where there is none.
fn stretch_behind(
    function: &FunctionMap<'_>,
    from: usize,
    start: WasmAddress,
    end: WasmAddress,
    passes_inside: bool,
) -> usize
    ensures order { from ≤ result }
    ensures bound { from ≤ length function.now.stretches.items → result ≤ length function.now.stretches.items }
    ensures passed { AreAlike function.now.stretches.items start end passes_inside from result }
    ensures other { (d : Stretch) → result < length function.now.stretches.items → is_source_in start end (slice_index_or function.now.stretches.items result d).source ≡ not passes_inside }
{
    let mut number = from;
    while number < function.stretches.len() {
        let passed = alike_from(function, number, start, end, passes_inside);
        if passed == 0 {
            return number;
        }
        number += passed;
    }
    number
}

// So many stretches from one on have a source inside an interval, or have none: those of the largest block that begins there and is known to
// be so, that one alone, or none.
fn alike_from(
    function: &FunctionMap<'_>,
    number: usize,
    start: WasmAddress,
    end: WasmAddress,
    inside: bool,
) -> usize
    requires { number < length function.now.stretches.items }
    ensures room { number + result ≤ length function.now.stretches.items }
    ensures alike { AreAlike function.now.stretches.items start end inside number (number + result) }
    ensures other { (d : Stretch) → result ≡ 0 → is_source_in start end (slice_index_or function.now.stretches.items number d).source ≡ not inside }
{
    if is_inside(function.stretches[number].source, start, end) != inside {
        return 0;
    }
    if number % BLOCK != 0 {
        return 1;
    }
    let mut alike = 1;
    for level in 0..function.tables.len() {
        if !is_block_alike(function, level, number, start, end, inside) {
            return alike;
        }
        alike = function.tables[level].block;
    }
    alike
}

// Whether a block of a table begins at a stretch, and the sources of all its stretches are inside an interval, or none is.
fn is_block_alike(
    function: &FunctionMap<'_>,
    level: usize,
    number: usize,
    start: WasmAddress,
    end: WasmAddress,
    inside: bool,
) -> bool
    requires level { level < length function.now.tables.items }
    requires number { number < length function.now.stretches.items }
    ensures room { (d : SourceTable) → result ≡ true → number + (slice_index_or function.now.tables.items level d).block ≤ length function.now.stretches.items }
    ensures alike { (d : SourceTable) → result ≡ true → AreAlike function.now.stretches.items start end inside number (number + (slice_index_or function.now.tables.items level d).block) }
{
    let table = &function.tables[level];
    if number % table.block != 0 || function.stretches.len() - number < table.block {
        return false;
    }
    are_alike(&table.keys, number / table.block, start, end, inside)
}

// Whether the sources of all stretches of a block are inside an interval, or none is, by the keys of a table.
fn are_alike(keys: &[u64], block: usize, start: WasmAddress, end: WasmAddress, inside: bool) -> bool
    requires order { IsNonDecreasingBy (λ k. k) keys.now }
    requires few { block + 1 < 2 ^ 32 }
    ensures { result ≡ true → (ss : List Stretch) (size k : ℕ) (d : Stretch) → HaveKeys ss size keys.now → k < length ss → k / size ≡ block → is_source_in start end (slice_index_or ss k d).source ≡ inside }
{
    let first = key_of(block, 0);
    let low = first + capped(start);
    let high = first + capped(end);
    if inside {
        return has_none(keys, first, low) && has_none(keys, high, first + (1 << SOURCE_BITS));
    }
    has_none(keys, low, high)
}

// A wasm offset, or 2^32 where it is greater: no source lies there.
fn capped(addr: WasmAddress) -> u64
    ensures capped { IsCapped addr result }
    ensures low { result ≤ 2 ^ 32 }
{
    if addr < 1 << SOURCE_BITS {
        addr
    } else {
        1 << SOURCE_BITS
    }
}

// Whether no key is at or above one and below another.
fn has_none(keys: &[u64], low: u64, high: u64) -> bool
    requires { IsNonDecreasingBy (λ k. k) keys.now }
    ensures { result ≡ true → list_any (is_between low high) keys.now ≡ false }
{
    match keys.get(keys_below(keys, low)) {
        Some(key) => *key >= high,
        None => true,
    }
}

// How many keys lie below one.
fn keys_below(keys: &[u64], low: u64) -> usize
    requires { IsNonDecreasingBy (λ k. k) keys.now }
    ensures { IsCountBelow (λ k. k) keys.now low result }
{
    keys.partition_point(|key| *key < low)
}

// Where the stretch with a number begins; behind the last one, where the function ends.
fn stretch_start(function: &FunctionMap<'_>, number: usize) -> GeneratedAddress
    ensures start { result ≡ start_of function.now number }
    ensures low { result < 2 ^ 32 }
{
    match function.stretches.get(number) {
        Some(stretch) => stretch.start as usize,
        None => function.len,
    }
}

// The first native range of an interval in the stretches of a function from one on, and the number of the stretch that it ends at. It stands
// apart, so that the search in runs is as it is without it.
#[inline(never)]
pub(crate) fn shown_range(
    function: &FunctionMap<'_>,
    start: WasmAddress,
    end: WasmAddress,
    number: usize,
) -> Option<(usize, (GeneratedAddress, GeneratedAddress))>
    requires { function.now.output_for ≡ Debugger }
    ensures range { GivesRange (shown_from function.now start end) number result }
    ensures order { IfSome result (λ found. found.1.0 < found.1.1) }
    ensures low { IfSome result (λ found. found.1.1 < 2 ^ 32) }
{
    let first = stretch_behind(function, number, start, end, false);
    if first >= function.stretches.len() {
        return None;
    }
    let behind = stretch_behind(function, first + 1, start, end, true);
    let range = (
        stretch_start(function, first),
        stretch_start(function, behind),
    );
    Some((behind, range))
}
