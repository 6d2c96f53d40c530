//! DWARF's numbers of registers, as a map file tells them.
ghost use Rattle.std.specs.Prelude.{◌≡◌, map, option_map, IfOk};
ghost use Rattle.std.specs.FinMap as finite;
ghost use Rattle.serde_json.specs.View.{view, items_view};
ghost use Rattle.dwc_isa.specs.Registers.{numbers, registers_of};
ghost use Rattle.dwc_map.specs.MapFile.{register_numbers_of};
ghost use Rattle.dwc_map.specs.MapValues.{u32_of, u16_of, pair_of, all_items, have_distinct_keys, value_or};

use crate::json_fields::{items, pair, short_number, whole_number};
use dwc_isa::Reg;
use serde_json::Value;
use std::alloc::{AllocError, Global};
use std::collections::BTreeSet;

/// The registers of a table, each once, in its order; none where nothing is told.
pub(crate) fn read_registers(
    alloc: Global,
    value: Option<&Value>,
) -> Result<Option<Vec<(Reg, u16)>>, AllocError>
    ensures { IfOk result (λ o. option_map (λ v. registers_of v.items) o
        ≡ value_or finite.empty register_numbers_of (option_map (λ v. view v.now) value.entry)) }
{
    match value {
        Some(table) => read_table(alloc, table),
        None => Ok(Some(Vec::new(alloc))),
    }
}

#[tactic(auto, using(crate::proofs::MapKinds::table_of_items), unfolding(crate::specs::MapFile::register_numbers_of))]
fn read_table(alloc: Global, value: &Value) -> Result<Option<Vec<(Reg, u16)>>, AllocError>
    ensures { IfOk result (λ o. option_map (λ v. registers_of v.items) o ≡ register_numbers_of (view value.now)) }
{
    let Some(values) = items(value) else {
        return Ok(None);
    };
    let Some(registers) = read_pairs(alloc, values)? else {
        return Ok(None);
    };
    if !are_distinct(alloc, &registers)? {
        return Ok(None);
    }
    Ok(Some(registers))
}

// A pair of a register and DWARF's number of it.
#[tactic(auto, using(crate::proofs::MapKinds::pair_of_parts))]
fn read_pair(value: &Value) -> Option<(Reg, u16)>
    ensures { option_map numbers result ≡ pair_of u32_of u16_of (view value.now) }
{
    let (register, number) = pair(value)?;
    let register = whole_number(register)?;
    let number = short_number(number)?;
    Some((Reg(register), number))
}

fn read_pairs(alloc: Global, values: &[Value]) -> Result<Option<Vec<(Reg, u16)>>, AllocError>
    ensures { IfOk result (λ o. option_map (λ v. map numbers v.items) o ≡ all_items (pair_of u32_of u16_of) (items_view values.now)) }
{
    let mut pairs = Vec::with_capacity(alloc, values.len())?;
    for value in values {
        let Some(register) = read_pair(value) else {
            return Ok(None);
        };
        pairs.push(register)?;
    }
    Ok(Some(pairs))
}

// Whether no register stands twice.
fn are_distinct(alloc: Global, registers: &[(Reg, u16)]) -> Result<bool, AllocError>
    ensures { IfOk result (λ distinct. distinct ≡ have_distinct_keys (map numbers registers.now)) }
{
    let mut seen = BTreeSet::new(alloc);
    let mut k = registers.len();
    while k > 0 {
        k -= 1;
        let (Reg(register), _) = registers[k];
        if !seen.insert(register)? {
            return Ok(false);
        }
    }
    Ok(true)
}
