//! The types of the locals of a function, each found by halves.
ghost use Rattle.std.specs.Prelude.{◌≡◌, IfOk};
ghost use Rattle.std.specs.List.Sorted.{IsNonDecreasingBy};
ghost use Rattle.dwc_rules.specs.Carried.{Module};
ghost use Rattle.dwc_carried.specs.DefinedFunctions.{DefinedFunction, types_at};
ghost use Rattle.dwc_carried.specs.SimulatedUnit.{place_of_type};
ghost use Rattle.dwc_base.specs.ToldFiles.{is_parameter, type_in_groups, type_of_local};
ghost use Rattle.dwc_base.specs.TranslationNames.{param_types, told_file};
ghost use Rattle.dwc_carry.specs.LocalGroups.{groups_from, types_of};

use dwc_base::{ModuleTranslation, ParamTypes, ValType};
use std::alloc::{AllocError, Global};
use std::marker::Model;

/// A group of locals of one type.
#[derive(Clone, Copy)]
pub(crate) struct LocalGroup {
    /// The number of the first local behind the group, counted behind the parameters.
    pub end: u64,
    pub value_type: ValType,
}

/// The types of the locals of a function: those of its parameters, and the groups behind them.
#[derive(Drop)]
pub(crate) struct FunctionLocals<'a> {
    params: ParamTypes<'a>,
    groups: Vec<LocalGroup>,
}

impl<'a> Model for FunctionLocals<'a> {
    ghost use Rattle.std.specs.List.Sorted.{IsNonDecreasingBy};
    ghost use Rattle.dwc_base.specs.TranslationNames.{param_types};
    ghost use Rattle.dwc_base.specs.WasmFunctions.{LocalTypes};
    ghost use Rattle.dwc_carry.specs.LocalGroups.{types_of};

    ghost Value = { LocalTypes };

    ghost view = { λ l. types_of (param_types l.params) l.groups.items };

    ghost invariant = { λ l. IsNonDecreasingBy (λ g. g.end) l.groups.items };
}

impl<'a> FunctionLocals<'a> {
    /// Those of the function at a place among the defined ones; none where nothing is told of it.
    ///
    /// # Errors
    /// `AllocError` for want of memory, and for 2^64 locals or more.
    pub(crate) fn new(
        alloc: Global,
        translation: &'a ModuleTranslation<'a>,
        place: usize,
    ) -> Result<FunctionLocals<'a>, AllocError>
        ensures { (m : Module) (d : DefinedFunction) → m.file ≡ told_file translation.now → d.place ≡ place → IfOk result (λ l. l ≡ types_at m d) }
    {
        match translation.funcs.get(place) {
            Some(told) => Ok(FunctionLocals::of_groups(alloc, told.params, &told.locals)?),
            None => Ok(FunctionLocals {
                params: ParamTypes::new(&[]),
                groups: Vec::new(alloc),
            }),
        }
    }

    // Those of parameters, and of groups with their sizes.
    fn of_groups(
        alloc: Global,
        params: ParamTypes<'a>,
        groups: &[(u32, ValType)],
    ) -> Result<FunctionLocals<'a>, AllocError>
        ensures { IfOk result (λ l. l ≡ record { params = param_types params.entry; locals = groups.now }) }
    {
        let groups = ended_groups(alloc, groups)?;
        Ok(FunctionLocals { params, groups })
    }

    /// Whether a local is a parameter.
    pub(crate) fn is_parameter(&self, local: u64) -> bool
        ensures { result ≡ is_parameter self.now local }
    {
        local < self.params.len() as u64
    }

    /// The type of a local; None where there is no local of its number.
    pub(crate) fn type_of(&self, local: u64) -> Option<ValType>
        ensures { result ≡ type_of_local self.now local }
    {
        type_among(&self.params, &self.groups, local)
    }
}

// Groups with their ends for their sizes. A function has fewer than 2^32 groups of fewer than 2^32 locals, so that an end has 64 bits.
// (WebAssembly 1.0, sections 5.1.3 and 5.5.13.)
fn ended_groups(alloc: Global, groups: &[(u32, ValType)]) -> Result<Vec<LocalGroup>, AllocError>
    ensures groups { IfOk result (λ ended. groups_from 0 ended.items ≡ groups.now) }
    ensures rising { IfOk result (λ ended. IsNonDecreasingBy (λ g. g.end) ended.items) }
{
    let mut ended = Vec::new(alloc);
    ended.reserve(groups.len())?;
    let mut end = 0u64;
    for group in groups {
        let Some(behind) = end.checked_add(u64::from(group.0)) else {
            return Err(AllocError);
        };
        ended.push(LocalGroup {
            end: behind,
            value_type: group.1,
        })?;
        end = behind;
    }
    Ok(ended)
}

// The type of a local among parameters and the groups behind them.
fn type_among(params: &ParamTypes<'_>, groups: &[LocalGroup], local: u64) -> Option<ValType>
    requires { IsNonDecreasingBy (λ g. g.end) groups.now }
    ensures { result ≡ type_of_local (types_of (param_types params.now) groups.now) local }
{
    let count = params.len() as u64;
    if local < count {
        params.get(local as usize)
    } else {
        type_in_groups(groups, local - count)
    }
}

// The type of a local among groups, counted from the first.
fn type_in_groups(groups: &[LocalGroup], local: u64) -> Option<ValType>
    requires { IsNonDecreasingBy (λ g. g.end) groups.now }
    ensures { result ≡ type_in_groups (groups_from 0 groups.now) local }
{
    let place = groups.partition_point(|group| group.end <= local);
    match groups.get(place) {
        Some(group) => Some(group.value_type),
        None => None,
    }
}

/// The place of the entry of a type in its unit, for the types that have one.
pub(crate) fn place_of_type(value_type: ValType) -> Option<usize>
    ensures { result ≡ place_of_type value_type }
{
    match value_type {
        ValType::I32 => Some(1),
        ValType::I64 => Some(2),
        ValType::F32 => Some(3),
        ValType::F64 => Some(4),
        ValType::Other => None,
    }
}
