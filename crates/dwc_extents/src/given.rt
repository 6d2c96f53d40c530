//! What entries give to themselves and those below them: a scope, and a frame base. (DWARF 4 and 5, sections 2.6 and 3.3.5.)
ghost use Rattle.std.specs.Prelude.{◌≡◌, ◌||◌, true, IfOk, is_some, option_map};
ghost use Rattle.dwc_base.specs.declared.constants.TheConstants.{DW_AT_high_pc as high_pc, DW_AT_ranges as ranges};
ghost use Rattle.dwc_dwarf.specs.Entries.{attribute};
ghost use Rattle.dwc_dwarf.specs.Lists.{list_source};
ghost use Rattle.dwc_rules.specs.LocationAttributes.{base_of_expression};
ghost use Rattle.dwc_rules.specs.RangeAttributes.{begun_function};
ghost use Rattle.dwc_rules.specs.Scopes.{base_given, scope_given, source_end, source_range};
ghost use Rattle.dwc_addr.specs.Transforms.{function_view};
ghost use Rattle.dwc_read.specs.EntriesSeen.{entry_view};
ghost use Rattle.dwc_extents.specs.BoundRefusals.{IsSound};

use crate::wasm_intervals::{Scope, intervals_of};
use dwc_addr::FunctionMap;
use dwc_base::OutputFor;
use dwc_base::constants::{DW_AT_frame_base, DW_AT_high_pc, DW_AT_ranges, DW_TAG_subprogram};
use dwc_expr::{CompiledExpression, ExprError, compile_expression};
use dwc_read::{AttributeValue, Entry};
use dwc_source::CloneSource;
use std::alloc::{AllocError, Global};

/// Where the source range of a function ends in the wasm file, counted from the contents of the code section: where the function does, for
/// a debugger, to whom an end is left out, behind its last source.
pub fn source_end(function: &FunctionMap<'_>) -> u64
    ensures { result ≡ source_end (function_view function.now) }
{
    match function.output_for {
        OutputFor::Default => function.wasm_end,
        OutputFor::Debugger => function.wasm_end + 1,
    }
}

// The source range of a function in the wasm file.
fn source_range(alloc: Global, function: &FunctionMap<'_>) -> Result<Scope, AllocError>
    ensures { IfOk result (λ scope. scope.items ≡ source_range (function_view function.now)) }
{
    let mut scope = Scope::new(alloc);
    scope.push((function.wasm_start, source_end(function)))?;
    Ok(scope)
}

// The scope that a subprogram gives, by the function that it begins in.
fn scope_of_function(
    alloc: Global,
    function: Option<&FunctionMap<'_>>,
) -> Result<Option<Scope>, AllocError>
    ensures { IfOk result (λ scope. option_map (λ is. is.items) scope ≡ option_map source_range (option_map (λ f. function_view f.now) function.entry)) }
{
    match function {
        Some(function) => Ok(Some(source_range(alloc, function)?)),
        None => Ok(None),
    }
}

// Whether an entry says where its code ends, or has ranges.
fn has_extent(entry: &Entry<'_>) -> bool
    ensures { result ≡ (is_some (attribute high_pc (entry_view entry.now)) || is_some (attribute ranges (entry_view entry.now))) }
{
    entry.attr(DW_AT_high_pc).is_some() || entry.attr(DW_AT_ranges).is_some()
}

/// The scope that an entry gives, as intervals of wasm offsets. A subprogram gives the source range of the function that it begins in, if
/// there is one; an entry of another tag with a `high_pc` or `ranges` the intervals of its extent, which may be none. What cannot be read
/// counts as not there. The second answer tells whether it is known that nothing is refused of the entry's extent.
///
/// # Errors
/// `AllocError` for want of memory.
pub(crate) fn scope_given(
    alloc: Global,
    source: &CloneSource<'_, '_>,
    entry: &Entry<'_>,
    function: Option<&FunctionMap<'_>>,
) -> Result<(Option<Scope>, bool), AllocError>
    requires begun { option_map (λ f. function_view f.now) function ≡ begun_function (list_source source.now.unit.now.sections source.now.unit.now.header) source.now.transform.now (entry_view entry.now) }
    ensures given { IfOk result (λ r. option_map (λ is. is.items) r.0 ≡ scope_given (list_source source.now.unit.now.sections source.now.unit.now.header) source.now.transform.now (entry_view entry.now)) }
    ensures sound { IfOk result (λ r. r.1 ≡ true → IsSound (list_source source.now.unit.now.sections source.now.unit.now.header) (entry_view entry.now)) }
{
    if entry.tag == DW_TAG_subprogram {
        return Ok((scope_of_function(alloc, function)?, false));
    }
    if !has_extent(entry) {
        return Ok((None, false));
    }
    let read = intervals_of(alloc, source.unit, entry)?;
    Ok((Some(read.intervals), read.is_sound))
}

/// The frame base that an entry gives: its first `frame_base`, where that is an expression that is supported, compiled without a frame
/// base. One that cannot be read gives none.
///
/// # Errors
/// `AllocError` for want of memory.
#[tactic(auto, unfolding(dwc_rules::specs::LocationAttributes::base_of_expression))]
pub(crate) fn base_given(
    alloc: Global,
    source: &CloneSource<'_, '_>,
    entry: &Entry<'_>,
) -> Result<Option<CompiledExpression>, AllocError>
    ensures { IfOk result (λ base. base ≡ base_given base_of_expression (entry_view entry.now)) }
{
    let Some(AttributeValue::Exprloc(bytes)) = entry.attr(DW_AT_frame_base) else {
        return Ok(None);
    };
    match compile_expression(alloc, bytes, source.unit.encoding(), None) {
        Ok(base) => Ok(base),
        Err(ExprError::Read { .. }) => Ok(None),
        Err(_) => Err(AllocError),
    }
}
