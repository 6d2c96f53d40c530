//! Wasm offsets, and intervals of them, as native code.
ghost use Rattle.std.specs.Prelude.{◌≡◌, ◌+◌, ◌<◌, ◌≤◌, ◌^◌, length, option_map, is_some, IfSome};
ghost use Rattle.std.specs.List.{find};
ghost use Rattle.dwc_native.specs.Functions.{function_at};
ghost use Rattle.dwc_native.specs.Runs.{runs, has_offset, translated, native_offset as offset_in};
ghost use Rattle.dwc_addr.specs.RunViews.{run_view, IsRunOf};
ghost use Rattle.dwc_addr.specs.Transforms.{function_view};

use crate::AddressTransform;
use crate::address_map::{GeneratedAddress, WasmAddress};
use crate::function_map::FunctionMap;
use crate::positions::start_in;
use crate::run::Run;
use crate::runs::{run_at, run_count};
use dwc_base::Address;

impl AddressTransform<'_> {
    /// Whether an address is in a function that has a symbol, and is neither 0 nor 0xFFFFFFFF, the marks of code that was not linked.
    pub fn can_translate_address(&self, addr: u64) -> bool
        ensures { result ≡ is_some (function_at self.now addr) }
    {
        self.func_at(addr).is_some()
    }

    /// An address as native code: the function that it is in, by its symbol, with an offset from where that begins. From the function's
    /// end on it is the function's length; else the place where the first run that has the address, its ends included, begins to have
    /// it. None where [`AddressTransform::can_translate_address`] says no.
    pub fn translate(&self, addr: u64) -> Option<Address>
        ensures { result ≡ translated self.now addr }
    {
        let function = self.func_at(addr)?;
        let symbol = function.symbol?;
        let addend = native_offset(function, addr) as i64;
        Some(Address::Symbol { symbol, addend })
    }
}

// The native offset of a wasm offset of a function.
fn native_offset(function: &FunctionMap<'_>, addr: WasmAddress) -> GeneratedAddress
    ensures offset { result ≡ offset_in (function_view function.now) addr }
    ensures low { result < 2 ^ 32 }
{
    if function.wasm_end <= addr {
        return function.len;
    }
    match run_with(function, addr) {
        Some(run) => start_in(function, &run, addr),
        None => function.len,
    }
}

// The first run of a function that has a wasm offset, its ends included.
fn run_with(function: &FunctionMap<'_>, addr: WasmAddress) -> Option<Run>
    ensures run { option_map (run_view function.now) result ≡ find (has_offset addr) (runs (function_view function.now)) }
    ensures places { IfSome result (IsRunOf function.now) }
{
    for number in 0..run_count(function) {
        let run = run_at(function, number);
        if run.wasm_start <= addr && addr <= run.wasm_end {
            return Some(run);
        }
    }
    None
}
