//! The modules of a map file: each with its functions, its memory and the path of its file.
ghost use Rattle.std.specs.Prelude.{◌≡◌, map, option_map, IfOk, IfSome, Some, None};
ghost use Rattle.serde_json.specs.View.{view, items_view, members_view};
ghost use Rattle.dwc_map.specs.MapFile.{map_module_of, module_in, path_of};
ghost use Rattle.dwc_map.specs.MapValues.{all_items, value_or};
ghost use Rattle.dwc_map.specs.MapViews.{function_view, module_view, path_view, AreConsistent, ModulesAreConsistent};

use crate::function::read_functions;
use crate::json_fields::{items, member, members, plain_text};
use crate::map_file::MapModule;
use crate::memory::read_memory;
use dwc_base::SymbolId;
use dwc_compiled::CompiledFunctionMetadata;
use serde_json::{Map, Value};
use std::alloc::{AllocError, Global};

// The path of a module's file, from its value; without a value there is none.
fn read_path(alloc: Global, value: Option<&Value>) -> Result<Option<Option<String>>, AllocError>
    ensures { IfOk result (λ o. option_map path_view o ≡ value_or None path_of (option_map (λ v. view v.now) value.entry)) }
{
    let Some(value) = value else {
        return Ok(Some(None));
    };
    let Some(path) = plain_text(value) else {
        return Ok(None);
    };
    Ok(Some(Some(String::from_str(alloc, path)?)))
}

/// A module with these functions, by the other fields of its object; None where one is of the wrong kind.
pub(crate) fn module_from(
    alloc: Global,
    fields: &Map<String, Value>,
    functions: Vec<(Option<SymbolId>, CompiledFunctionMetadata)>,
) -> Result<Option<MapModule>, AllocError>
    ensures value { IfOk result (λ o. option_map module_view o ≡ module_in (map function_view functions.items) (members_view fields.now.entries)) }
    ensures records { AreConsistent functions.items → IfOk result (λ o. IfSome o (λ m. AreConsistent m.functions.items)) }
{
    let Some(memory) = read_memory(member(fields, "memory")) else {
        return Ok(None);
    };
    let Some(path) = read_path(alloc, member(fields, "path"))? else {
        return Ok(None);
    };
    Ok(Some(MapModule {
        functions,
        memory,
        path,
    }))
}

#[tactic(auto, using(crate::proofs::MapKinds::list_of_items), unfolding(crate::specs::MapFile::map_module_of))]
fn read_module(alloc: Global, value: &Value) -> Result<Option<MapModule>, AllocError>
    ensures value { IfOk result (λ o. option_map module_view o ≡ map_module_of (view value.now)) }
    ensures records { IfOk result (λ o. IfSome o (λ m. AreConsistent m.functions.items)) }
{
    let Some(fields) = members(value) else {
        return Ok(None);
    };
    let Some(values) = member(fields, "functions").and_then(items) else {
        return Ok(None);
    };
    let Some(functions) = read_functions(alloc, values)? else {
        return Ok(None);
    };
    module_from(alloc, fields, functions)
}

/// Modules in order, by their values; None where one is of the wrong kind.
pub(crate) fn read_modules(
    alloc: Global,
    values: &[Value],
) -> Result<Option<Vec<MapModule>>, AllocError>
    ensures value { IfOk result (λ o. option_map (λ v. map module_view v.items) o
        ≡ all_items map_module_of (items_view values.now)) }
    ensures records { IfOk result (λ o. IfSome o (λ v. ModulesAreConsistent v.items)) }
{
    let mut modules = Vec::with_capacity(alloc, values.len())?;
    for value in values {
        let Some(module) = read_module(alloc, value)? else {
            return Ok(None);
        };
        modules.push(module)?;
    }
    Ok(Some(modules))
}
