//! What a code generator tells of a module.
ghost use Rattle.std.specs.Prelude.{◌≡◌, ◌≤◌, ◌<◌, ◌+◌, ◌&&◌, length, is_some, nat_le, nat_lt, Some, IfSome};
ghost use Rattle.std.specs.FinMap as finite;
ghost use Rattle.dwc_native.specs.Functions.{Function};
ghost use Rattle.dwc_rules.specs.LocationRules.{frame_told};
ghost use Rattle.dwc_isa.specs.Registers.{Registers};
ghost use Rattle.dwc_expr.specs.Frames.{frame_view};
ghost use Rattle.dwc_source.specs.CompiledModules.{told_by};

use dwc_addr::LinkageNames;
use dwc_base::{OutputFor, SymbolId};
use dwc_compiled::CompiledFunctionMetadata;
use dwc_expr::FunctionFrameInfo;
use dwc_isa::ModuleMemoryOffset;

/// What a code generator tells of a module beside its address maps.
#[derive(Clone, Copy)]
pub struct CompiledModule<'c> {
    /// Whom the output is for.
    pub output_for: OutputFor,
    /// The module's place among all.
    pub place: u32,
    /// Its functions in order, each with its symbol, if it has one.
    pub functions: &'c [(Option<SymbolId>, CompiledFunctionMetadata)],
    /// The number of the first of them among those of all modules.
    pub first_number: usize,
    /// Where its linear memory is found.
    pub memory: ModuleMemoryOffset,
    /// The names of functions of the run time that its debug information refers to.
    pub names: LinkageNames<'c>,
}

impl<'c> CompiledModule<'c> {
    /// What the function of a number, which has a symbol, tells to expressions; None where the module has no function of that number.
    pub fn frame(&self, number: usize) -> Option<FunctionFrameInfo<'c>>
        ensures present { is_some result ≡ (nat_le self.now.first_number number && nat_lt number (self.now.first_number + length self.now.functions.now)) }
        ensures frame { (registers : Registers) (f : Function) → f.number ≡ number → f.symbol ≡ Some number → self.now.first_number ≤ number → number < self.now.first_number + length self.now.functions.now → frame_view result ≡ Some (frame_told (told_by registers self.now) f) }
        ensures labels { (registers : Registers) → IfSome result (λ frame. finite.keys frame.value_ranges.now ≡ (told_by registers self.now).labels number) }
    {
        let place = number.checked_sub(self.first_number)?;
        let (_, metadata) = self.functions.get(place)?;
        Some(FunctionFrameInfo {
            value_ranges: &metadata.value_labels_ranges,
            memory_offset: self.memory,
            symbol: Some(number),
        })
    }
}
