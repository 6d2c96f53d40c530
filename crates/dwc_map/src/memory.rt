//! The linear memory of a module, as a map file tells it.
ghost use Rattle.std.specs.Prelude.{◌≡◌, option_map};
ghost use Rattle.serde_json.specs.View.{view};
ghost use Rattle.dwc_native.specs.Compiled.{no_memory};
ghost use Rattle.dwc_isa.specs.ToldModules.{memory_view};
ghost use Rattle.dwc_map.specs.MapFile.{imported_of, memory_of};
ghost use Rattle.dwc_map.specs.MapValues.{value_or};

use crate::json_fields::{member, members, pair, whole_number};
use dwc_isa::ModuleMemoryOffset;
use serde_json::Value;

/// Where a module's memory is found; it has none where nothing is told.
pub(crate) fn read_memory(value: Option<&Value>) -> Option<ModuleMemoryOffset>
    ensures { option_map memory_view result ≡ value_or no_memory memory_of (option_map (λ v. view v.now) value.entry) }
{
    match value {
        Some(memory) => memory_offset(memory),
        None => Some(ModuleMemoryOffset::None),
    }
}

#[tactic(auto, unfolding(crate::specs::MapFile::memory_of))]
fn memory_offset(value: &Value) -> Option<ModuleMemoryOffset>
    ensures { option_map memory_view result ≡ memory_of (view value.now) }
{
    if value.is_null() {
        return Some(ModuleMemoryOffset::None);
    }
    let fields = members(value)?;
    match member(fields, "defined") {
        Some(offset) => match member(fields, "imported") {
            Some(_) => None,
            None => Some(ModuleMemoryOffset::Defined(whole_number(offset)?)),
        },
        None => imported(member(fields, "imported")?),
    }
}

// The offset of a pointer to a memory's definition, and of the memory in that.
#[tactic(auto, using(crate::proofs::MapKinds::pair_of_parts))]
fn imported(value: &Value) -> Option<ModuleMemoryOffset>
    ensures { option_map memory_view result ≡ imported_of (view value.now) }
{
    let (definition, base) = pair(value)?;
    let offset_to_vm_memory_definition = whole_number(definition)?;
    let offset_to_memory_base = whole_number(base)?;
    Some(ModuleMemoryOffset::Imported {
        offset_to_vm_memory_definition,
        offset_to_memory_base,
    })
}
