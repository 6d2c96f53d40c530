//! The synthetic unit, which a module has of its own: the type of its context, in which its linear memory is found, and that of an address
//! in it.
ghost use Rattle.std.specs.Prelude.{◌≡◌, ◌<◌, ◌⊎◌, length, OnErr};
ghost use Rattle.dwc_rules.specs.SyntheticUnit as Synthetic;
ghost use Rattle.dwc_isa.specs.ToldModules.{memory_view};
ghost use Rattle.dwc_source.specs.MadeValues.{Grows};
ghost use Rattle.dwc_carry.specs.SyntheticUnits.{GivesSyntheticUnit, memory_at};

use crate::DebugError;
use crate::synthetic_entries::{set_place, synthetic_texts, synthetic_unit};
use dwc_addr::Compilation;
use dwc_base::{Encoding, Limit, StaticModuleIndex};
use dwc_isa::ModuleMemoryOffset;
use dwc_unit::{DebugInfoRef, StringTable, UnitEntryId, UnitId, UnitTable};
use std::alloc::Global;

/// The unit of the output that a module has of its own.
#[derive(Clone, Copy)]
pub struct ModuleSyntheticUnit {
    vmctx_ptr: DebugInfoRef,
    wasm_ptr: DebugInfoRef,
}

// Whether the size of a context up to its memory has more than 32 bits.
fn is_too_far(memory: ModuleMemoryOffset) -> bool
    ensures { result ≡ Synthetic.is_too_far (memory_view memory) }
{
    match memory {
        ModuleMemoryOffset::Defined(offset) => u64::from(offset) + 8 >= 1 << 32,
        ModuleMemoryOffset::None | ModuleMemoryOffset::Imported { .. } => false,
    }
}

impl ModuleSyntheticUnit {
    /// Adds the unit of a module to those of the output, behind the others: of version 4, with the context of the module, its memory as a
    /// member where it is the module's own, the function that makes a context the one in use, a pointer to the context, and the
    /// type of an address in the memory. It has no line table. Its texts are added to `out_strings`.
    ///
    /// # Errors
    /// `TooLarge` `Vmctx` exactly where the memory is the module's own, at an offset above 2^32 - 9 in the context. `OutOfMemory` for want
    /// of memory. The units are then as before, and the texts may have more behind them.
    pub fn new(
        alloc: Global,
        module: StaticModuleIndex,
        compilation: &Compilation<'_>,
        encoding: Encoding,
        out_units: &mut UnitTable,
        out_strings: &mut StringTable,
    ) -> Result<ModuleSyntheticUnit, DebugError>
        requires inside { «module».0 < length compilation.now.translations }
        requires version { (encoding.version ≡ 4) ⊎ (encoding.version ≡ 5) }
        requires size { (encoding.address_size ≡ 4) ⊎ (encoding.address_size ≡ 8) }
        ensures added { GivesSyntheticUnit encoding compilation.now.set_memory (memory_at compilation.now «module».0) out_units.old.units.items out_units.new.units.items out_strings.old out_strings.new result }
        ensures units { OnErr result (out_units.new.units.items ≡ out_units.old.units.items) }
        ensures texts { Grows out_strings.old out_strings.new }
    {
        let memory = *compilation.memory_offset(module);
        if is_too_far(memory) {
            return Err(DebugError::TooLarge { what: Limit::Vmctx });
        }
        let texts = synthetic_texts(alloc, out_strings, compilation.names().set_memory)?;
        let unit = synthetic_unit(alloc, encoding, &texts, memory)?;
        let id = out_units.add(unit)?;
        let pointer = set_place(memory) + 2;
        Ok(ModuleSyntheticUnit {
            vmctx_ptr: entry_of(id, pointer),
            wasm_ptr: entry_of(id, pointer + 1),
        })
    }

    /// The type of a pointer to the module's context.
    pub fn vmctx_ptr_die_ref(&self) -> DebugInfoRef
        ensures { result ≡ self.now.vmctx_ptr }
    {
        self.vmctx_ptr
    }

    /// The type of an address in the module's linear memory.
    pub fn wasm_ptr_die_ref(&self) -> DebugInfoRef
        ensures { result ≡ self.now.wasm_ptr }
    {
        self.wasm_ptr
    }
}

// The entry at a place of a unit whose entries are numbered by their places.
fn entry_of(unit: UnitId, place: usize) -> DebugInfoRef
    ensures { result ≡ DebugInfoRef.Entry unit (record { index = place }) }
{
    DebugInfoRef::Entry(unit, UnitEntryId { index: place })
}
