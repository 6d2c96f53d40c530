//! The sections that a run prints.
ghost use Rattle.std.specs.Prelude.{map, IfOk, IfErr, IfSome};
ghost use Rattle.dwc_base.specs.Outputs.{section_view};
ghost use Rattle.dwc_map.specs.MapFile.{IsMap};
ghost use Rattle.dwc_map.specs.MapViews.{map_file_view};
ghost use Rattle.dwc_cli.specs.Inputs.{Input};
ghost use Rattle.dwc_cli.specs.Failures.{failure_status};
ghost use Rattle.dwc_cli.specs.Printed.{printed};
ghost use Rattle.dwc_cli.specs.Answers.{status_of, IsInputOf, TranslatesFiles, CarriesText, TextCauses, IsTextStatus, GivesText};

use crate::carrying::carry;
use crate::failure::Failure;
use crate::input_files::InputFiles;
use dwc_base::{DwarfSection, ModuleTranslation};
use dwc_map::map_for;
use dwc_wasm::split_wasm;
use std::alloc::Global;

// The sections that are printed of an input: those of DWARF of its modules, rewritten for the code that its map tells of.
pub(crate) fn sections_of(
    alloc: Global,
    files: InputFiles,
) -> Result<Vec<DwarfSection>, Failure<'static>>
    requires kinds { IfSome files.map_file (λ f. IsMap (map_file_view f)) }
    ensures carried { (input : Input) → IsInputOf files input → IfOk result (λ sections. CarriesText input (printed (map section_view sections.items))) }
    ensures causes { (input : Input) → IsInputOf files input → TextCauses input (status_of result) }
    ensures status { IfErr result (λ failure. IsTextStatus (failure_status failure)) }
    ensures complete { (input : Input) → IsInputOf files input → GivesText input (status_of result) }
{
    let InputFiles { map_file, modules } = files;
    let translations = translations_of(alloc, &modules)?;
    let Some(map_file) = map_for(map_file, &translations) else {
        return Err(Failure::MalformedMap);
    };
    let carried = carry(alloc, map_file, translations)?;
    drop(modules);
    let sections = carried.write(alloc)?;
    Ok(sections)
}

// The translations of some modules in order.
fn translations_of<'d>(
    alloc: Global,
    modules: &'d [Vec<u8>],
) -> Result<Vec<ModuleTranslation<'d>>, Failure<'static>>
    ensures { TranslatesFiles (map (λ m. m.items) modules.now) result }
{
    let mut translations = Vec::with_capacity(alloc, modules.len())?;
    for module in modules {
        let translation = split_wasm(alloc, module)?;
        translations.push(translation)?;
    }
    Ok(translations)
}
