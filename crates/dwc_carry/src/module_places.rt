//! Where the entries of a module stand in the output.
ghost use Rattle.std.specs.Prelude.{◌≡◌, suc, IfOk};
ghost use Rattle.dwc_carry.specs.ModulePlaces.{carried_offsets, emitted, numbered_lists, IsKept};

use dwc_kept::{KeptModule, ReadUnit};
use dwc_source::Places;
use std::alloc::{AllocError, Global};

/// The offsets of the kept entries of a unit of a module, in file order, if the unit is carried: its root is a compile unit, and an entry
/// of it is kept. None otherwise.
pub(crate) fn carried_entries<'m>(read_module: &'m KeptModule<'_>, read: &ReadUnit<'_>) -> &'m [u32]
    ensures { result.now ≡ carried_offsets read_module.now.kept read.now }
{
    if !read.is_compile_unit {
        return &[];
    }
    read_module
        .kept
        .between(read.unit.offset(), read.unit.end())
}

// The number behind another.
fn next_number(number: usize) -> Result<usize, AllocError>
    ensures { IfOk result (λ next. next ≡ suc number) }
{
    number.checked_add(1).ok_or(AllocError)
}

/// Where the kept entries of the carried units of a module stand in the output, of which the first such unit has a number there.
pub(crate) fn module_places(
    alloc: Global,
    read_module: &KeptModule<'_>,
    first: usize,
) -> Result<Places, AllocError>
    requires { IsKept read_module.now }
    ensures { IfOk result (λ places. places ≡ numbered_lists first (emitted read_module.now.kept read_module.now.units.items)) }
{
    let mut places = Places::new(alloc);
    let mut number = first;
    for i in 0..read_module.units.len() {
        let kept = carried_entries(read_module, &read_module.units[i]);
        if kept.len() > 0 {
            places.add_unit(number, kept)?;
            number = next_number(number)?;
        }
    }
    Ok(places)
}
