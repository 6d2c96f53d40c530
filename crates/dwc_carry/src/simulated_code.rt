//! The functions without debugging information of a compilation, and their code.
ghost use Rattle.std.specs.Prelude.{◌≡◌, ◌++◌, ◌<◌, ◌^◌, pos, map, None, All, IfOk, IfSome, OnOk};
ghost use Rattle.dwc_native.specs.Addends.{HaveAddends};
ghost use Rattle.dwc_carried.specs.SimulatedFunctions.{is_simulated};
ghost use Rattle.dwc_addr.specs.Compilations.{IsCounted};
ghost use Rattle.dwc_addr.specs.Transforms.{function_view};
ghost use Rattle.dwc_image.specs.SimulatedSequences.{simulated_view};
ghost use Rattle.dwc_clone.specs.BegunNumbers.{is_noted};
ghost use Rattle.dwc_extents.specs.NativeExtents.{AreRanges};
ghost use Rattle.dwc_carry.specs.Inputs.{bad_map, functions_from};
ghost use Rattle.dwc_carry.specs.SimulatedCode.{CanWrite, HasLowEnd, intervals_of, left_in, left_of};

use dwc_addr::{AddressTransform, Compilation, FunctionMap};
use dwc_base::{Address, StaticModuleIndex, SymbolId};
use dwc_compiled::CompiledFunctionMetadata;
use dwc_unit::RangeList;
use std::alloc::{AllocError, Global};
use std::collections::BTreeSet;

// Whether a function has a symbol and its number is not among `translated`.
fn is_simulated(function: &FunctionMap<'_>, translated: &BTreeSet<usize>) -> bool
    ensures { result ≡ is_simulated (is_noted translated.now) (function_view function.now) }
{
    match function.symbol {
        Some(number) => !translated.contains(&number),
        None => false,
    }
}

// Adds the simulated functions of a module, each beside the offset in its file that the contents of the code section begin at.
fn push_simulated<'t, 'a>(
    code_offset: u64,
    functions: &'t [FunctionMap<'a>],
    translated: &BTreeSet<usize>,
    simulated: &mut Vec<(u64, &'t FunctionMap<'a>)>,
) -> Result<(), AllocError>
    ensures { OnOk result (map simulated_view simulated.new.items ≡ map simulated_view simulated.old.items ++ left_of (is_noted translated.now) code_offset (map function_view functions.now)) }
{
    for function in functions {
        if is_simulated(function, translated) {
            simulated.push((code_offset, function))?;
        }
    }
    Ok(())
}

// That a function ends in its file at an offset of 32 bits.
fn end_is_low(metadata: &CompiledFunctionMetadata)
    ensures { IfSome metadata.now.address_map.end_srcloc (λ end. end < 2 ^ 32) }
{
    let _ = metadata.address_map.end_srcloc.file_offset();
}

// That the functions of a module do.
fn ends_are_low(functions: &[(Option<SymbolId>, CompiledFunctionMetadata)])
    ensures { All HasLowEnd functions.now }
{
    for function in functions {
        end_is_low(&function.1);
    }
}

// That those of all modules do.
fn all_ends_are_low(compilation: &Compilation<'_>)
    ensures { All (All HasLowEnd) compilation.now.functions }
{
    for i in 0..compilation.translations().len() {
        ends_are_low(compilation.functions_of(StaticModuleIndex(i as u32)));
    }
}

/// The simulated functions of all modules, in order, each beside the offset in its file that the contents of the code section begin at:
/// those with a symbol whose numbers are not among `translated`. `transforms` are those of the modules, none of whose address maps is bad.
pub(crate) fn simulated_functions<'t, 'a>(
    alloc: Global,
    compilation: &Compilation<'_>,
    transforms: &'t [AddressTransform<'a>],
    translated: &BTreeSet<usize>,
) -> Result<Vec<(u64, &'t FunctionMap<'a>)>, AllocError>
    requires transforms { transforms.now ≡ functions_from compilation.now.tunables.output_for 0 compilation.now.translations compilation.now.functions }
    requires maps { bad_map compilation.now ≡ None }
    requires addends { All HaveAddends transforms.now }
    ensures counted { IsCounted compilation.now.translations compilation.now.functions compilation.now.memory_offsets }
    ensures low { All (All HasLowEnd) compilation.now.functions }
    ensures simulated { IfOk result (λ v. map simulated_view v.items ≡ left_in (is_noted translated.now) compilation.now.translations transforms.now) }
    ensures fit { IfOk result (λ v. All CanWrite (map simulated_view v.items)) }
{
    all_ends_are_low(compilation);
    let translations = compilation.translations();
    let mut simulated = Vec::new(alloc);
    for i in 0..translations.len() {
        let code_offset = translations[i].code_section_offset;
        push_simulated(code_offset, transforms[i].map(), translated, &mut simulated)?;
    }
    Ok(simulated)
}

// The interval of a function whole.
fn whole_range(function: &FunctionMap<'_>) -> (Address, u64)
    ensures { result ≡ (Address.Symbol (function_view function.now).number (pos 0), (function_view function.now).length) }
{
    let begin = Address::Symbol {
        symbol: function.symbol.unwrap_or(0),
        addend: 0,
    };
    (begin, function.len as u64)
}

/// The range list of the code of some functions, each whole; those without code have no interval.
pub(crate) fn whole_ranges(
    alloc: Global,
    functions: &[(u64, &FunctionMap<'_>)],
) -> Result<RangeList, AllocError>
    requires { All CanWrite (map simulated_view functions.now) }
    ensures { IfOk result (λ list. AreRanges list.ranges.items (intervals_of (map simulated_view functions.now))) }
{
    let mut ranges = Vec::new(alloc);
    for function in functions {
        if function.1.len > 0 {
            ranges.push(whole_range(function.1))?;
        }
    }
    Ok(RangeList::new(ranges))
}
