//! The names of functions without debugging information, and of their locals: those that the file tells, and else their numbers.
ghost use Rattle.std.specs.Prelude.{◌≡◌, ◌<◌, [], ◌∷◌, map, option_map, IfOk, IfSome};
ghost use Rattle.std.specs.List.{All};
ghost use Rattle.std.specs.List.Sorted.{IsStrictlySortedBy};
ghost use Rattle.std.specs.Ordering.{nat_cmp};
ghost use Rattle.dwc_rules.specs.Carried.{Module};
ghost use Rattle.dwc_carried.specs.DefinedFunctions.{DefinedFunction};
ghost use Rattle.dwc_base.specs.TranslationNames.{function_name_view, local_name_view};
ghost use Rattle.dwc_base.specs.Reading.{coded};
ghost use Rattle.dwc_carried.specs.SimulatedUnit.{function_index, function_name, local_name};
ghost use Rattle.dwc_base.specs.SortedEntries.{pair_cmp};
ghost use Rattle.dwc_base.specs.TranslationNames.{HasSortedNames, told_file};
ghost use Rattle.dwc_carried.specs.UnitPaths.{without_zero};
ghost use Rattle.dwc_carry.specs.SimulatedNames.{is_before, name_among, numbered_function, numbered_local};

use crate::unit_path::{joined, without_zero};
use dwc_base::ModuleTranslation;
use std::alloc::{AllocError, Global};

/// The name of a function, by its number among all of its module: the one that the file tells, if that has no zero byte, and else one
/// made of the number. It is found by halves.
///
/// # Errors
/// `AllocError` for want of memory.
pub(crate) fn function_name(
    alloc: Global,
    translation: &ModuleTranslation<'_>,
    index: u64,
) -> Result<Vec<u8>, AllocError>
    requires sorted { HasSortedNames translation.now }
    ensures name { (m : Module) → m.file ≡ told_file translation.now → IfOk result (λ name. name.items ≡ function_name m index) }
    ensures text { IfOk result (λ name. All (λ b. 0 < b) name.items) }
{
    match text_of(told_function_name(&translation.func_names, index)) {
        Some(name) => Ok(joined(alloc, name, b"")?),
        None => Ok(numbered_function(alloc, index)?),
    }
}

/// The name of a local, by the number of its function among all of its module and its own number: the one that the file tells, if that has
/// no zero byte, and else one made of its number. It is found by halves.
///
/// # Errors
/// `AllocError` for want of memory.
pub(crate) fn local_name(
    alloc: Global,
    translation: &ModuleTranslation<'_>,
    function: u64,
    local: u32,
) -> Result<Vec<u8>, AllocError>
    requires sorted { HasSortedNames translation.now }
    ensures name { (m : Module) (d : DefinedFunction) → m.file ≡ told_file translation.now → function_index m d ≡ function → IfOk result (λ name. name.items ≡ local_name m d local) }
    ensures text { IfOk result (λ name. All (λ b. 0 < b) name.items) }
{
    match text_of(told_local_name(&translation.local_names, function, local)) {
        Some(name) => Ok(joined(alloc, name, b"")?),
        None => Ok(numbered_local(alloc, local)?),
    }
}

// The bytes of a name, if it is told and holds no zero byte.
#[tactic(auto, using(crate::proofs::PlainNames::plain_bytes))]
fn text_of(name: Option<&str>) -> Option<&[u8]>
    ensures bytes { option_map (λ bytes. bytes.now) result ≡ without_zero (option_map (λ told. told.now) name.entry) }
    ensures text { IfSome result (λ bytes. All (λ b. 0 < b) bytes.now) }
{
    match name {
        Some(told) => without_zero(told),
        None => None,
    }
}

// The name of a function made of its number.
fn numbered_function(alloc: Global, index: u64) -> Result<Vec<u8>, AllocError>
    ensures bytes { IfOk result (λ name. name.items ≡ numbered_function index) }
    ensures text { IfOk result (λ name. All (λ b. 0 < b) name.items) }
{
    let name = format!(in alloc; "wasm-function[{index}]")?;
    Ok(name.into_bytes())
}

// The name of a local made of its number.
fn numbered_local(alloc: Global, local: u32) -> Result<Vec<u8>, AllocError>
    ensures bytes { IfOk result (λ name. name.items ≡ numbered_local local) }
    ensures text { IfOk result (λ name. All (λ b. 0 < b) name.items) }
{
    let name = format!(in alloc; "var{local}")?;
    Ok(name.into_bytes())
}

// The name that is told of a function, among names by numbers that rise.
fn told_function_name<'d>(names: &[(u32, &'d str)], index: u64) -> Option<&'d str>
    requires { IsStrictlySortedBy nat_cmp (map (λ e. e.0) (map function_name_view names.now)) }
    ensures { option_map (λ name. name.now) result ≡ coded (map function_name_view names.now) index }
{
    let place = names.partition_point(|name| u64::from(name.0) < index);
    match names.get(place) {
        Some(name) => function_name_if(*name, index),
        None => None,
    }
}

// The name of a function, if that has a number.
fn function_name_if(name: (u32, &str), index: u64) -> Option<&str>
    ensures { option_map (λ text. text.now) result ≡ coded (function_name_view name.entry ∷ []) index }
{
    if u64::from(name.0) == index {
        Some(name.1)
    } else {
        None
    }
}

// The name that is told of a local of a function, among names by numbers that rise.
fn told_local_name<'d>(names: &[(u32, u32, &'d str)], function: u64, local: u32) -> Option<&'d str>
    requires { IsStrictlySortedBy pair_cmp (map (λ e. e.0) (map local_name_view names.now)) }
    ensures { option_map (λ name. name.now) result ≡ name_among (map local_name_view names.now) function local }
{
    let place = names.partition_point(|name| is_before((name.0, name.1), function, local));
    match names.get(place) {
        Some(name) => local_name_if(*name, function, local),
        None => None,
    }
}

// Whether a local, by the number of its function and its own, stands before another.
fn is_before(pair: (u32, u32), function: u64, local: u32) -> bool
    ensures { result ≡ is_before function local pair }
{
    let owner = u64::from(pair.0);
    owner < function || (owner == function && pair.1 < local)
}

// The name of a local, if that is one of a function and has a number.
fn local_name_if(name: (u32, u32, &str), function: u64, local: u32) -> Option<&str>
    ensures { option_map (λ text. text.now) result ≡ name_among (local_name_view name.entry ∷ []) function local }
{
    if u64::from(name.0) == function && name.1 == local {
        Some(name.2)
    } else {
        None
    }
}
