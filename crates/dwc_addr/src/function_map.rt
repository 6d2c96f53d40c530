//! A defined function as an address transform keeps it.
ghost use Rattle.std.specs.Prelude.{◌≡◌, ◌<◌, ◌≤◌, ◌^◌, length, map};
ghost use Rattle.std.specs.List.Sorted.{IsNonDecreasingBy};
ghost use Rattle.dwc_compiled.specs.Gaps.{merged};
ghost use Rattle.dwc_addr.specs.Runs.{recorded_view, run_starts};
ghost use Rattle.dwc_addr.specs.RunBounds.{wasm_begin, wasm_end as wasm_end_of, AreRunBounds, AreBlockBounds};
ghost use Rattle.dwc_addr.specs.Stretches.{AreStretches, AreTables};
ghost use Rattle.dwc_base.specs.declared.records.OutputFor.TheVariants.{Debugger};

use crate::address_map::{GeneratedAddress, WasmAddress};
use crate::bounds::Bounds;
use crate::sources::Sources;
use crate::stretch::{SourceTable, Stretch};
use dwc_base::OutputFor;
use dwc_compiled::Gap;

/// A defined function, with the entries of its address map as they stand there.
#[derive(Drop)]
pub struct FunctionMap<'a> {
    /// Whom intervals of its code are translated for.
    pub output_for: OutputFor,
    /// Its number among the functions of all modules, where it has a symbol.
    pub symbol: Option<usize>,
    /// Where its code begins in its body: at 0.
    pub offset: GeneratedAddress,
    /// How many bytes of code it has.
    pub len: GeneratedAddress,
    /// Where it begins in the wasm file.
    pub wasm_start: WasmAddress,
    /// Where it ends there.
    pub wasm_end: WasmAddress,
    /// The entries of its address map that have a source, in order.
    pub addresses: Sources<'a>,
    /// The entries of its address map that have none, in order.
    pub gaps: &'a [Gap],
    /// The places of the entries whose source lies below that of the entry before. Between two of them the sources do not
    /// fall.
    pub later_runs: Vec<usize>,
    /// Where its runs begin and end in the wasm file, where it has several.
    pub run_bounds: Vec<Bounds>,
    /// The least begin and the greatest end of the runs of each block of them, without the last block if it is not full.
    pub block_bounds: Vec<Bounds>,
    /// The bounds of the full blocks of these.
    pub outer_bounds: Vec<Bounds>,
    // A block of its wasm offsets has 2 ^ `block_bits` of them.
    pub(crate) block_bits: u32,
    // About how many sources lie below each block, where it has one run and more than a few sources.
    pub(crate) source_hints: Vec<u32>,
    // About how many gaps stand in front of each block of sources, where it has more than a few.
    pub(crate) gap_hints: Vec<u32>,
    // For a debugger the stretches of its native code along which one source is shown, in order, and tables of their sources by blocks
    // of ever more stretches.
    pub(crate) stretches: Vec<Stretch>,
    pub(crate) tables: Vec<SourceTable>,
    ghost few_bits: { block_bits ≤ 32 },
    ghost counted: { length addresses < 2 ^ 63 },
    ghost begins: { offset ≡ 0 },
    ghost short: { len < 2 ^ 32 },
    ghost starts_low: { wasm_start < 2 ^ 32 },
    ghost ends_low: { wasm_end < 2 ^ 32 },
    // The code offsets of all entries do not fall, nor do the places of those without a source.
    ghost rises: { IsNonDecreasingBy (λ e. e.0) (merged gaps.now 0 (map recorded_view addresses)) },
    ghost apart: { IsNonDecreasingBy (λ g. g.before) gaps.now },
    ghost bounded: { AreRunBounds (wasm_begin wasm_start addresses later_runs.items) (wasm_end_of wasm_end addresses later_runs.items) (length later_runs.items) run_bounds.items },
    ghost blocks_bounded: { AreBlockBounds run_bounds.items block_bounds.items },
    ghost outer_bounded: { AreBlockBounds block_bounds.items outer_bounds.items },
    ghost split: { later_runs.items ≡ run_starts 0 0 (map recorded_view addresses) },
    ghost shown: { output_for ≡ Debugger → AreStretches wasm_start len (map recorded_view addresses) stretches.items },
    ghost few: { length stretches.items < 2 ^ 32 },
    ghost listed: { AreTables stretches.items tables.items },
}
