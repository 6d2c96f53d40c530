//! A target that is given by tables.
ghost use Rattle.std.specs.Prelude.{◌≡◌, ◌⊎◌, ℕ, IfOk, option_map, true};
ghost use Rattle.std.specs.Ordering.{nat_cmp};
ghost use Rattle.std.specs.BTreeMap.{get};
ghost use Rattle.dwc_native.specs.CallFrames.{is_sound_if};
ghost use Rattle.dwc_isa.specs.CallFrames.{cie_view};
ghost use Rattle.dwc_isa.specs.Registers.{registers_of, number_in};

use crate::cie::copy_of;
use crate::{Architecture, Cie, Reg, TargetIsa};
use dwc_base::Endian;
use std::alloc::{AllocError, Global};
use std::collections::BTreeMap;
use std::marker::Model;

/// A target that is given by tables. A contract sees what they tell.
#[derive(Drop)]
pub struct TableIsa {
    architecture: Architecture,
    order: Endian,
    pointer_bytes: u8,
    // DWARF's numbers of registers.
    registers: BTreeMap<u32, u16>,
    cie: Option<Cie>,
}

impl Model for TableIsa {
    ghost use Rattle.std.specs.Prelude.{option_map, ◌≡◌, ◌⊎◌, true};
    ghost use Rattle.std.specs.FinMap as finite;
    ghost use Rattle.dwc_native.specs.CallFrames.{is_sound_if};
    ghost use Rattle.dwc_isa.specs.CallFrames.{cie_view};
    ghost use Rattle.dwc_isa.specs.Targets.{Target, target_code};

    ghost Value = { Target };

    ghost coded = { target_code };

    ghost view = { λ t. record { architecture = t.architecture; order = t.order; pointer_bytes = t.pointer_bytes; registers = finite.from_entries t.registers.entries; common_entry = option_map cie_view t.cie } };

    ghost invariant = { λ t. ((t.pointer_bytes ≡ 4) ⊎ (t.pointer_bytes ≡ 8)) × (is_sound_if (option_map cie_view t.cie) ≡ true) };
}

impl TableIsa {
    /// The target of an architecture, of numbers in a byte order and addresses of 4 or 8 bytes, with DWARF's numbers of its
    /// registers, and what its frames share, if it has frames of this kind. Of two entries of one register the first counts.
    ///
    /// # Errors
    /// `AllocError` for want of memory.
    pub fn new(
        alloc: Global,
        architecture: Architecture,
        order: Endian,
        pointer_bytes: u8,
        registers: Vec<(Reg, u16)>,
        cie: Option<Cie>,
    ) -> Result<TableIsa, AllocError>
        requires size { (pointer_bytes ≡ 4) ⊎ (pointer_bytes ≡ 8) }
        requires sound { is_sound_if (option_map cie_view cie) ≡ true }
        ensures { IfOk result (λ t. t ≡ record { architecture = architecture; order = order; pointer_bytes = pointer_bytes; registers = registers_of registers.items; common_entry = option_map cie_view cie }) }
    {
        let registers = numbers_of(alloc, &registers)?;
        Ok(TableIsa {
            architecture,
            order,
            pointer_bytes,
            registers,
            cie,
        })
    }
}

// DWARF's numbers of registers; of two entries of one register the first counts.
fn numbers_of(alloc: Global, table: &[(Reg, u16)]) -> Result<BTreeMap<u32, u16>, AllocError>
    ensures { IfOk result (λ m. (register : ℕ) → get nat_cmp m register ≡ number_in table.now register) }
{
    let mut numbers = BTreeMap::new(alloc);
    let mut k = table.len();
    while k > 0 {
        k -= 1;
        let (Reg(register), number) = table[k];
        numbers.insert(register, number)?;
    }
    Ok(numbers)
}

impl TargetIsa for TableIsa {
    ghost byte_order = { λ t. t.order };

    ghost pointer_size = { λ t. t.pointer_bytes };

    ghost dwarf_registers = { λ t. t.registers };

    ghost target_architecture = { λ t. t.architecture };

    ghost common_entry = { λ t. t.common_entry };

    fn endianness(&self) -> Endian {
        self.order
    }

    fn pointer_bytes(&self) -> u8 {
        self.pointer_bytes
    }

    fn map_regalloc_reg_to_dwarf(&self, register: Reg) -> Option<u16> {
        self.registers.get(&register.0).copied()
    }

    fn architecture(&self) -> Architecture {
        self.architecture
    }

    fn create_systemv_cie(&self, alloc: Global) -> Result<Option<Cie>, AllocError> {
        match &self.cie {
            Some(cie) => Ok(Some(copy_of(alloc, cie)?)),
            None => Ok(None),
        }
    }
}
