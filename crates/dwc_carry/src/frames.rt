//! The frame table of a compilation. (DWARF 4 and 5, section 6.4.)
ghost use Rattle.std.specs.Prelude.{◌≡◌, ◌+◌, ◌++◌, ◌<◌, ◌^◌, length, option_map, IfOk, IfSome, IsOkUnless, OnOk, true};
ghost use Rattle.dwc_native.specs.CallFrames.{is_sound_if};
ghost use Rattle.dwc_addr.specs.Compilations.{IsCounted};
ghost use Rattle.dwc_isa.specs.CallFrames.{description_view};
ghost use Rattle.dwc_compiled.specs.FunctionFrames.{description_of_metadata};
ghost use Rattle.dwc_frames.specs.Frames.{common_given};
ghost use Rattle.dwc_section.specs.declared.error.WriteError.TheVariants as write;
ghost use Rattle.dwc_carry.specs.CompiledFrames.{AddsFrames, DescribesAll, all_frames, compiled_frames, described_alone};
ghost use Rattle.dwc_carry.specs.declared.error.DebugError.TheVariants.{OutOfMemory};

use crate::DebugError;
use dwc_addr::Compilation;
use dwc_base::{StaticModuleIndex, SymbolId};
use dwc_compiled::CompiledFunctionMetadata;
use dwc_frames::FrameTable;
use dwc_isa::{CfaUnwindInfo, TargetIsa, UnwindInfo};
use dwc_section::WriteError;
use std::alloc::Global;

// The frame description of a function, if one is told: that of its record, where this is one of System V, and else the one beside it.
fn description_of(metadata: &CompiledFunctionMetadata) -> Option<&CfaUnwindInfo>
    ensures { option_map (λ info. description_view info.now) result ≡ description_of_metadata metadata.now }
{
    match &metadata.unwind_info {
        Some(UnwindInfo::SystemV(info)) => Some(info),
        _ => metadata.cfa_unwind_info.as_ref(),
    }
}

// Adds the frame description of a function of a number, where it has a symbol and one is told.
fn add_function(
    number: usize,
    function: &(Option<SymbolId>, CompiledFunctionMetadata),
    table: &mut FrameTable,
) -> Result<(), WriteError>
    ensures added { AddsFrames (described_alone number function.now) table.old table.new result }
    ensures memory { IsOkUnless result write.OutOfMemory }
{
    let (symbol, metadata) = function;
    if symbol.is_none() {
        return Ok(());
    }
    match description_of(metadata) {
        None => Ok(()),
        Some(info) => table.add_fde(number, info),
    }
}

// Adds those of functions, of which the first has a number, in their order.
fn add_functions(
    first: usize,
    functions: &[(Option<SymbolId>, CompiledFunctionMetadata)],
    table: &mut FrameTable,
) -> Result<(), WriteError>
    requires { first + length functions.now < 2 ^ 32 }
    ensures added { AddsFrames (compiled_frames first functions.now) table.old table.new result }
    ensures memory { IsOkUnless result write.OutOfMemory }
{
    for i in 0..functions.len() {
        add_function(first + i, &functions[i], table)?;
    }
    Ok(())
}

// Adds those of the functions of all modules, in order.
fn add_modules(compilation: &Compilation<'_>, table: &mut FrameTable) -> Result<(), WriteError>
    ensures counted { IsCounted compilation.now.translations compilation.now.functions compilation.now.memory_offsets }
    ensures added { AddsFrames (all_frames 0 compilation.now.functions) table.old table.new result }
    ensures memory { IsOkUnless result write.OutOfMemory }
{
    let translations = compilation.translations();
    for i in 0..translations.len() {
        let module = StaticModuleIndex(i as u32);
        let first = compilation.first_number(module);
        add_functions(first, compilation.functions_of(module), table)?;
    }
    Ok(())
}

/// The frame table of a compilation for a target: what the frames of all functions share, and the descriptions of the functions that have a
/// symbol and one, in their order; None exactly where the target tells of nothing that they share.
///
/// # Errors
/// `OutOfMemory` for want of memory.
pub(crate) fn frame_table(
    alloc: Global,
    isa: &dyn TargetIsa,
    compilation: &Compilation<'_>,
) -> Result<Option<FrameTable>, DebugError>
    ensures common { IfOk result (λ t. common_given t ≡ common_entry isa.now) }
    ensures sound { IfOk result (λ t. is_sound_if (common_given t) ≡ true) }
    ensures frames { IfOk result (λ t. IfSome t (λ table. DescribesAll compilation.now table)) }
    ensures memory { IsOkUnless result OutOfMemory }
{
    match isa.create_systemv_cie(alloc)? {
        None => Ok(None),
        Some(cie) => {
            let mut table = FrameTable::new(alloc, cie);
            add_modules(compilation, &mut table)?;
            Ok(Some(table))
        }
    }
}
