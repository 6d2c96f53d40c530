//! The symbols of functions by their numbers, and functions that have one symbol.
ghost use Rattle.std.specs.Prelude.{◌≡◌, ℕ, ◌<◌, ◌^◌, List, ◌++◌, map, length, Option, Some, None, true, IfOk, OnOk};
ghost use Rattle.dwc_native.specs.SharedSymbols.{shared_symbol};
ghost use Rattle.dwc_addr.specs.Numbers.{function_count, numbers_from, all_symbols, symbols_in, symbol_view, AreDistinct};
ghost use Rattle.dwc_addr.specs.SymbolIndexes.{IsIndex, Notes};
ghost use Rattle.dwc_addr.specs.Compilations.{lists};

use crate::CompilationError;
use dwc_base::SymbolId;
use dwc_compiled::CompiledFunctionMetadata;
use std::alloc::{AllocError, Global};
use std::collections::BTreeMap;

// The symbols of the functions of all modules, by the functions' numbers.
pub(crate) fn all_symbols(
    alloc: Global,
    modules: &[Vec<(Option<SymbolId>, CompiledFunctionMetadata)>],
) -> Result<Vec<Option<SymbolId>>, AllocError>
    ensures { IfOk result (λ symbols. symbols.items ≡ all_symbols (lists modules.now)) }
{
    let mut symbols = Vec::new(alloc);
    for functions in modules {
        push_symbols(functions, &mut symbols)?;
    }
    Ok(symbols)
}

// Puts the symbols of some functions behind others.
fn push_symbols(
    functions: &[(Option<SymbolId>, CompiledFunctionMetadata)],
    symbols: &mut Vec<Option<SymbolId>>,
) -> Result<(), AllocError>
    ensures { OnOk result (symbols.new.items ≡ symbols.old.items ++ symbols_in functions.now) }
{
    symbols.reserve(functions.len())?;
    for (symbol, _) in functions {
        symbols.push(*symbol)?;
    }
    Ok(())
}

// The number of the first function of each module.
pub(crate) fn first_numbers(
    alloc: Global,
    modules: &[Vec<(Option<SymbolId>, CompiledFunctionMetadata)>],
) -> Result<Vec<usize>, AllocError>
    requires { function_count (lists modules.now) < 2 ^ 32 }
    ensures { IfOk result (λ numbers. numbers.items ≡ numbers_from 0 (lists modules.now)) }
{
    let mut numbers = Vec::with_capacity(alloc, modules.len())?;
    let mut number = 0;
    for functions in modules {
        numbers.push(number)?;
        number += functions.len();
    }
    Ok(numbers)
}

// Whether symbols rise from function to function, as a compiler counts them, and none is the greatest number. Then no two are one.
fn do_rise(symbols: &[Option<SymbolId>]) -> bool
    ensures { result ≡ true → shared_symbol (map symbol_view symbols.now) ≡ None }
{
    // no symbol so far is this one or a greater
    let mut least = 0;
    for i in 0..symbols.len() {
        let Some(symbol) = symbols[i] else {
            continue;
        };
        if symbol.0 < least {
            return false;
        }
        let Some(next) = symbol.0.checked_add(1) else {
            return false;
        };
        least = next;
    }
    true
}

// Finds the first function whose symbol one before it has.
pub(crate) fn check_distinct(
    alloc: Global,
    symbols: &[Option<SymbolId>],
) -> Result<(), CompilationError>
    ensures { AreDistinct symbols.now result }
{
    if do_rise(symbols) {
        return Ok(());
    }
    let mut numbers = BTreeMap::new(alloc);
    for i in 0..symbols.len() {
        if let Some(first) = note(&mut numbers, symbols[i], i)? {
            return Err(CompilationError::SharedSymbol { first, second: i });
        }
    }
    Ok(())
}

// Takes note of a function's number and symbol, or answers the number of the first function with that symbol.
fn note(
    numbers: &mut BTreeMap<u32, usize>,
    symbol: Option<SymbolId>,
    number: usize,
) -> Result<Option<usize>, AllocError>
    ensures { (before : List (Option ℕ)) → IsIndex before numbers.old → length before ≡ number → Notes before (symbol_view symbol) numbers.new result }
{
    match symbol {
        Some(symbol) => note_symbol(numbers, symbol.0, number),
        None => Ok(None),
    }
}

fn note_symbol(
    numbers: &mut BTreeMap<u32, usize>,
    symbol: u32,
    number: usize,
) -> Result<Option<usize>, AllocError>
    ensures { (before : List (Option ℕ)) → IsIndex before numbers.old → length before ≡ number → Notes before (Some symbol) numbers.new result }
{
    let found = numbers.get(&symbol).copied();
    if found.is_none() {
        numbers.insert(symbol, number)?;
    }
    Ok(found)
}
