//! Native code along which one source is shown.
ghost use Rattle.std.specs.Prelude.{◌<◌};
ghost use Rattle.std.specs.List.Sorted.{IsNonDecreasingBy};

// Where a stretch of native code begins, which ends where the next one begins, and the source that is shown along it.
#[derive(Clone, Copy)]
pub(crate) struct Stretch {
    // A `GeneratedAddress`.
    pub(crate) start: u32,
    // A `WasmAddress`.
    pub(crate) source: u32,
}

// The sources of a function's stretches, by blocks of so many stretches: a source's key has the number of its block in the upper half.
// The keys rise.
#[derive(Drop)]
pub(crate) struct SourceTable {
    // How many stretches a block has.
    pub(crate) block: usize,
    // The keys in rising order.
    pub(crate) keys: Vec<u64>,
    ghost some: { 0 < block },
    ghost rises: { IsNonDecreasingBy (λ k. k) keys.items },
}
