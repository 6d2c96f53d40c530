//! Entries that are read alone.
use crate::module_file::SMALL;
use dwc_base::constants::{DW_TAG_compile_unit, DW_TAG_subprogram};
use dwc_read::{Sections, Units};
use dwc_wasm::split_wasm;
use std::test::Fail;

#[test]
fn entries_are_read_alone(rt: HostRuntime) -> Result<(), Fail> {
    let alloc = rt.alloc();
    let module = split_wasm(alloc, SMALL)?;
    let mut units = Units::new(Sections::of_module(&module));
    let unit = units.next_unit(alloc)?.ok_or("no unit")?;
    assert_eq!(rt; unit.root(alloc)?.tag, DW_TAG_compile_unit);
    assert_eq!(rt; unit.entry_at(alloc, 16)?.tag, DW_TAG_subprogram);
    Ok(())
}
