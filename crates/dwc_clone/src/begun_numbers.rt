//! The numbers of the functions that kept subprograms begin in.
ghost use Rattle.std.specs.Prelude.{true, IfSome, IsSome, OnOk, option_map};
ghost use Rattle.std.specs.Option.{option_to_list};
ghost use Rattle.std.specs.Ordering.{nat_cmp};
ghost use Rattle.std.specs.BTreeSet.{Updates};
ghost use Rattle.dwc_addr.specs.Transforms.{function_view};
ghost use Rattle.dwc_clone.specs.BegunNumbers.{NotesFunctions};

use dwc_addr::FunctionMap;
use std::alloc::AllocError;
use std::collections::BTreeSet;

// Notes a number.
fn note_number(translated: &mut BTreeSet<usize>, number: usize) -> Result<(), AllocError>
    ensures { OnOk result (Updates nat_cmp translated.old translated.new number true) }
{
    translated.insert(number)?;
    Ok(())
}

/// Notes the number of the function that a kept subprogram begins in, where it begins in one.
pub(crate) fn note_function(
    translated: &mut BTreeSet<usize>,
    function: Option<&FunctionMap<'_>>,
) -> Result<(), AllocError>
    requires symbol { IfSome function (λ f. IsSome f.now.symbol) }
    ensures { OnOk result (NotesFunctions (option_to_list (option_map (λ f. function_view f.now) function.entry)) translated.old translated.new) }
{
    let Some(function) = function else {
        return Ok(());
    };
    match function.symbol {
        Some(number) => note_number(translated, number),
        None => Ok(()),
    }
}
