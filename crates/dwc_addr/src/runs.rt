//! The runs of a function, by their numbers.
ghost use Rattle.std.specs.Prelude.{◌≡◌, ◌+◌, ◌<◌, ◌≤◌, ◌^◌, ◌∷◌, suc, length, drop, option_map};
ghost use Rattle.std.specs.List.{find};
ghost use Rattle.dwc_native.specs.Runs.{runs, has_offset};
ghost use Rattle.dwc_addr.specs.RunViews.{run_view, begin_of, end_of, IsRunOf};
ghost use Rattle.dwc_addr.specs.Transforms.{function_view};

use crate::address_map::{GeneratedAddress, WasmAddress};
use crate::function_map::FunctionMap;
use crate::run::Run;

// How many runs a function has.
pub(crate) fn run_count(function: &FunctionMap<'_>) -> usize
    ensures { result ≡ length function.now.later_runs.items + 1 }
{
    function.later_runs.len() + 1
}

// The run of a function by its number. The first begins with the function. One that is not the last ends at its last source and
// where the next one begins, and the last one with the function.
pub(crate) fn run_at(function: &FunctionMap<'_>, number: usize) -> Run
    requires { number ≤ length function.now.later_runs.items }
    ensures run { drop number (runs (function_view function.now)) ≡ run_view function.now result ∷ drop (suc number) (runs (function_view function.now)) }
    ensures places { IsRunOf function.now result }
{
    let (first, wasm_start, start) = run_begin(function, number);
    let (behind, wasm_end, end) = run_end(function, number);
    Run {
        first,
        behind,
        wasm_start,
        wasm_end,
        start,
        end,
    }
}

// Where a run begins: the place of its first address, and where it begins in the wasm code and in the native code.
fn run_begin(function: &FunctionMap<'_>, number: usize) -> (usize, WasmAddress, GeneratedAddress)
    requires { number ≤ length function.now.later_runs.items }
    ensures begin { result ≡ begin_of function.now number }
    ensures low { result.2 < 2 ^ 32 }
{
    if number == 0 {
        return (0, function.wasm_start, 0);
    }
    let first = function.later_runs[number - 1];
    let source = function.addresses.at(first);
    (first, u64::from(source.wasm), source.generated as usize)
}

// Where it ends: the place behind its last address, and where it ends in the wasm code and in the native code.
fn run_end(function: &FunctionMap<'_>, number: usize) -> (usize, WasmAddress, GeneratedAddress)
    requires { number ≤ length function.now.later_runs.items }
    ensures end { result ≡ end_of function.now number }
    ensures low { result.2 < 2 ^ 32 }
{
    if number == function.later_runs.len() {
        return (function.addresses.len(), function.wasm_end, function.len);
    }
    let behind = function.later_runs[number];
    let last = function.addresses.at(behind - 1);
    let native = function.addresses.at(behind).generated as usize;
    (behind, u64::from(last.wasm), native)
}
