//! What debug information wants to know of a target.
ghost use Rattle.std.specs.Prelude.{◌≡◌, ◌⊎◌, ℕ, IfOk, option_map, true};
ghost use Rattle.std.specs.declared.option.Option.{Option};
ghost use Rattle.std.specs.FinMap as map;
ghost use Rattle.dwc_base.specs.declared.records.Endian.{Endian};
ghost use Rattle.dwc_isa.specs.declared.architecture.Architecture.{Architecture};
ghost use Rattle.dwc_native.specs.CallFrames.{CommonEntry, is_sound_if};
ghost use Rattle.dwc_isa.specs.CallFrames.{cie_view};
ghost use Rattle.dwc_isa.specs.Registers.{Registers};

use crate::{Architecture, Cie, Reg};
use dwc_base::Endian;
use std::alloc::{AllocError, Global};

/// A target of a code generator. Each call answers the same each time.
pub trait TargetIsa {
    // The order of the bytes of a number.
    ghost byte_order: { Self → Endian };
    // The bytes of an address.
    ghost pointer_size: { Self → ℕ };
    // DWARF's numbers of registers.
    ghost dwarf_registers: { Self → Registers };

    ghost target_architecture: { Self → Architecture };
    // What the frames of all functions share.
    ghost common_entry: { Self → Option CommonEntry };

    /// The order of the bytes of a number.
    fn endianness(&self) -> Endian
        ensures { result ≡ byte_order self.now };

    /// How many bytes an address has: 4 or 8.
    fn pointer_bytes(&self) -> u8
        ensures bytes { result ≡ pointer_size self.now }
        ensures size { (result ≡ 4) ⊎ (result ≡ 8) };

    /// DWARF's number of a register; None for one that DWARF does not know.
    fn map_regalloc_reg_to_dwarf(&self, register: Reg) -> Option<u16>
        ensures { result ≡ map.get (dwarf_registers self.now) register.0 };

    /// The architecture.
    fn architecture(&self) -> Architecture
        ensures { result ≡ target_architecture self.now };

    /// What the frames of all functions share; None for a target without frames of this kind.
    ///
    /// # Errors
    /// `AllocError` for want of memory.
    fn create_systemv_cie(&self, alloc: Global) -> Result<Option<Cie>, AllocError>
        ensures entry { IfOk result (λ cie. option_map cie_view cie ≡ common_entry self.now) }
        ensures sound { IfOk result (λ cie. is_sound_if (option_map cie_view cie) ≡ true) };
}
