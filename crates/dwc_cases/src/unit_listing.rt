//! The units of a module, as a text.
use anyhow::Result;
use dwc_read::{ReadFault, Sections, Unit, Units};
use dwc_wasm::split_wasm;
use std::alloc::Global;
use std::fmt::Write;

/// The units of a WebAssembly module with their entries; where one is refused, its fault ends the text.
///
/// A unit is a line `unit OFFSET END VERSION ADDRESS_SIZE TYPE`. An entry is a line with its offset, its depth and its tag, and
/// behind it a line for each attribute, with its name and its value.
pub(crate) fn list_units(alloc: Global, file: &[u8]) -> Result<String> {
    let module_sections = split_wasm(alloc, file)?;
    let mut units = Units::new(Sections::of_module(&module_sections));
    let mut text = String::new(alloc);
    for _ in 0..=file.len() {
        match units.next_unit(alloc) {
            Ok(Some(unit)) => {
                if let Some(fault) = list_unit(alloc, &mut text, &unit, file.len())? {
                    writeln!(text, "{fault}")?;
                    break;
                }
            }
            Ok(None) => break,
            Err(fault) => {
                writeln!(text, "{fault}")?;
                break;
            }
        }
    }
    Ok(text)
}

// Appends a unit; answers the fault of an entry that is refused.
fn list_unit(
    alloc: Global,
    text: &mut String,
    unit: &Unit<'_>,
    most: usize,
) -> Result<Option<ReadFault>> {
    let encoding = unit.encoding();
    writeln!(
        text,
        "unit {} {} {} {} {}",
        unit.offset(),
        unit.end(),
        encoding.version,
        encoding.address_size,
        unit.unit_type()
    )?;
    let mut entries = match unit.entries(alloc) {
        Ok(entries) => entries,
        Err(fault) => return Ok(Some(fault)),
    };
    for _ in 0..=most {
        match entries.next_entry() {
            Ok(Some(entry)) => {
                writeln!(text, "{:#x} {} {:#x}", entry.offset, entry.depth, entry.tag)?;
                for attribute in entry.attrs() {
                    writeln!(text, "  {:#x} {:?}", attribute.0, attribute.1)?;
                }
            }
            Ok(None) => break,
            Err(fault) => return Ok(Some(fault)),
        }
    }
    Ok(None)
}
