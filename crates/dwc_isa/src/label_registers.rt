//! The registers in which the value of a label lies, each once.
ghost use Rattle.std.specs.Prelude.{◌++◌, ◌∷◌, [], map, IfOk, IfSome, OnOk, option_to_list};
ghost use Rattle.dwc_isa.specs.LabelRegisters.{HaveSame, IsSetOf, register_numbers, register_of, registers_of};
ghost use Rattle.dwc_isa.specs.ValueLabels.{place_view, range_view};

use crate::{LabelValueLoc, Reg, ValueLocRange};
use std::alloc::{AllocError, Global};
use std::collections::BTreeSet;

// So many ranges are many.
const MANY: usize = 32;

/// The registers of ranges, where these are many.
pub(crate) fn registers_of_many(
    ranges: &Vec<ValueLocRange>,
) -> Result<Option<Box<Vec<Reg>>>, AllocError>
    ensures { IfOk result (λ o. IfSome o (λ rs. HaveSame (register_numbers rs.value.items) (registers_of (map range_view ranges.now.items)))) }
{
    if ranges.len() < MANY {
        return Ok(None);
    }
    let alloc = *ranges.allocator();
    let registers = distinct_registers(alloc, ranges)?;
    Ok(Some(Box::new(alloc, registers)?))
}

// The registers of ranges, each once.
fn distinct_registers(alloc: Global, ranges: &[ValueLocRange]) -> Result<Vec<Reg>, AllocError>
    ensures { IfOk result (λ rs. HaveSame (register_numbers rs.items) (registers_of (map range_view ranges.now))) }
{
    let mut registers = Vec::new(alloc);
    let mut seen = BTreeSet::new(alloc);
    for range in ranges {
        add_register_of(&mut registers, &mut seen, range.loc)?;
    }
    Ok(registers)
}

// Adds the register of a place, if it is one. The set has the registers that are there.
fn add_register_of(
    registers: &mut Vec<Reg>,
    seen: &mut BTreeSet<u32>,
    place: LabelValueLoc,
) -> Result<(), AllocError>
    requires { IsSetOf registers.old.items seen.old }
    ensures set { OnOk result (IsSetOf registers.new.items seen.new) }
    ensures registers { OnOk result (HaveSame (register_numbers registers.new.items) (register_numbers registers.old.items ++ option_to_list (register_of (place_view place)))) }
{
    match place {
        LabelValueLoc::Reg(register) => add_register(registers, seen, register),
        LabelValueLoc::CFAOffset(_) => Ok(()),
    }
}

// Adds a register, unless it is there.
fn add_register(
    registers: &mut Vec<Reg>,
    seen: &mut BTreeSet<u32>,
    register: Reg,
) -> Result<(), AllocError>
    requires { IsSetOf registers.old.items seen.old }
    ensures set { OnOk result (IsSetOf registers.new.items seen.new) }
    ensures registers { OnOk result (HaveSame (register_numbers registers.new.items) (register_numbers registers.old.items ++ register.0 ∷ [])) }
{
    if seen.insert(register.0)? {
        registers.push(register)?;
    }
    Ok(())
}
