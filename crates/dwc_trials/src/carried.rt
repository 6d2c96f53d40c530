//! Calls that no run makes: the entry that a reference goes to, what is kept of units, and the numbers of texts.
ghost use Rattle.std.specs.Prelude.{◌≡◌, [], ◌∷◌, map, All};
ghost use Rattle.dwc_base.specs.TranslationNames.{HasSortedNames};

use crate::compiled::{functions_of, transform_of};
use crate::module_file::SMALL;
use dwc_base::constants::DW_TAG_subprogram;
use dwc_base::{ModuleTranslation, OutputFor};
use dwc_carry::{build_dependencies, resolve_die_ref};
use dwc_kept::Kept;
use dwc_read::{AttributeValue, Sections, Units};
use dwc_wasm::split_wasm;
use dwc_write::StringTable;
use std::alloc::Global;
use std::test::Fail;

// The offsets of the entries of the small module.
const ROOT: u64 = 11;

const SUBPROGRAM: u64 = 16;

#[test]
fn references_go_to_entries(rt: HostRuntime) -> Result<(), Fail> {
    let alloc = rt.alloc();
    let module = split_wasm(alloc, SMALL)?;
    let mut units = Units::new(Sections::of_module(&module));
    let unit = units.next_unit(alloc)?.ok_or("no unit")?;
    let to_subprogram = AttributeValue::UnitRef(SUBPROGRAM);
    let entry = resolve_die_ref(alloc, &unit, &to_subprogram)?.ok_or("no entry")?;
    assert_eq!(rt; entry.tag, DW_TAG_subprogram);
    assert_eq!(rt; entry.depth, 1);
    let behind_root = AttributeValue::UnitRef(ROOT + 1);
    assert!(rt; resolve_die_ref(alloc, &unit, &behind_root)?.is_none());
    Ok(())
}

#[test]
fn texts_have_one_number_each(rt: HostRuntime) -> Result<(), Fail> {
    let mut texts = StringTable::new(rt.alloc());
    let first = texts.add(b"x")?;
    let second = texts.add(b"y")?;
    let third = texts.add(b"x")?;
    assert!(rt; first != second);
    assert!(rt; third == first);
    Ok(())
}

// What is kept of a module that defines one function.
fn kept_of(alloc: Global, modules: &[ModuleTranslation<'_>]) -> Result<Kept, Fail>
    requires modules { map (λ m. m.defined_funcs) modules.now ≡ 1 ∷ [] }
    requires sorted { All HasSortedNames modules.now }
{
    let functions = functions_of(alloc, (22, 33), &[])?;
    let transform = transform_of(alloc, OutputFor::Default, modules, &functions)?;
    let units = Units::new(Sections::of_module(&modules[0]));
    Ok(build_dependencies(alloc, units, &transform)?)
}

#[test]
fn a_subprogram_and_its_root_are_kept(rt: HostRuntime) -> Result<(), Fail> {
    let alloc = rt.alloc();
    let module = split_wasm(alloc, SMALL)?;
    if module.defined_funcs != 1 {
        return Err("not one function".into());
    }
    let kept = kept_of(alloc, std::slice::from_ref(&module))?;
    assert!(rt; kept.contains(ROOT));
    assert!(rt; kept.contains(SUBPROGRAM));
    assert_eq!(rt; kept.offsets().len(), 2);
    Ok(())
}
