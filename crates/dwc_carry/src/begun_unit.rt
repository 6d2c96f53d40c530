//! The unit of the output that is begun: its line program, and a root alone.
ghost use Rattle.std.specs.Prelude.{◌≡◌, ◌⊎◌, Some, IfSome};
ghost use Rattle.dwc_image.specs.CarriedLines.{AreKept};
ghost use Rattle.dwc_carry.specs.LastLines.{IsLast};
ghost use Rattle.dwc_carry.specs.UnitPrograms.{GivesBegun, IsBegun};

use crate::DebugError;
use crate::last_lines::LastLines;
use dwc_addr::AddressTransform;
use dwc_base::{Encoding, SectionName};
use dwc_image::{carried_lines, carried_open_lines};
use dwc_kept::ReadUnit;
use dwc_source::UnitFiles;
use dwc_tabs::{LineTable, OpenTable};
use dwc_unit::{LineProgram, Unit, UnitTable};
use std::alloc::Global;

/// A new unit of the output, and the files that its entries name.
#[derive(Drop)]
pub(crate) struct BegunUnit {
    pub unit: Unit,
    pub files: UnitFiles,
}

/// A new unit of the output, whose line program carries the line table that the root of a unit names; it has no program where that
/// names none. `last` is the line table that was carried last, in a unit of `units`: where it is the same, that unit's program is shared.
pub(crate) fn begun_unit(
    alloc: Global,
    read: &ReadUnit<'_>,
    last: Option<LastLines>,
    units: &UnitTable,
    transform: &AddressTransform<'_>,
    encoding: Encoding,
) -> Result<BegunUnit, DebugError>
    requires version { (encoding.version ≡ 4) ⊎ (encoding.version ≡ 5) }
    requires size { (encoding.address_size ≡ 4) ⊎ (encoding.address_size ≡ 8) }
    requires functions { AreKept transform.now }
    requires known { IsLast transform.now encoding read.now.unit.sections units.now.units.items last }
    ensures { GivesBegun transform.now read.now.unit.sections read.now.unit.header encoding read.now.line_table result }
{
    let Some(offset) = read.line_table else {
        let none = LineProgram::none(alloc);
        let files = UnitFiles {
            version: read.unit.encoding().version,
            count: None,
            output_version: encoding.version,
        };
        let unit = Unit::new(alloc, encoding, none)?;
        return Ok(BegunUnit { unit, files });
    };
    if let Some(known) = last
        && known.offset == offset
        && known.address_size == read.unit.address_size()
        && known.base == read.unit.index_base(SectionName::StrOffsets)
    {
        let unit = Unit::sharing(alloc, units.get(known.unit))?;
        let files = known.files;
        return Ok(BegunUnit { unit, files });
    }
    if let Some(begun) = begun_at_once(alloc, read, offset, transform, encoding) {
        return Ok(begun);
    }
    begun_behind(alloc, read, offset, transform, encoding)
}

// The same with the line table at an offset, which is carried as it is read. None where something is not sound, or for want of memory.
fn begun_at_once(
    alloc: Global,
    read: &ReadUnit<'_>,
    offset: u64,
    transform: &AddressTransform<'_>,
    encoding: Encoding,
) -> Option<BegunUnit>
    requires version { (encoding.version ≡ 4) ⊎ (encoding.version ≡ 5) }
    requires size { (encoding.address_size ≡ 4) ⊎ (encoding.address_size ≡ 8) }
    requires functions { AreKept transform.now }
    ensures { IfSome result (IsBegun transform.now read.now.unit.sections read.now.unit.header encoding (Some offset)) }
{
    let Ok(mut table) = OpenTable::begin(alloc, &read.unit, offset) else {
        return None;
    };
    let files = UnitFiles {
        version: table.version(),
        count: Some(table.file_count()),
        output_version: encoding.version,
    };
    let lines = carried_open_lines(alloc, &mut table, transform, encoding)?;
    let Ok(unit) = Unit::new(alloc, encoding, lines) else {
        return None;
    };
    Some(BegunUnit { unit, files })
}

// The same with a line table that is read first.
fn begun_behind(
    alloc: Global,
    read: &ReadUnit<'_>,
    offset: u64,
    transform: &AddressTransform<'_>,
    encoding: Encoding,
) -> Result<BegunUnit, DebugError>
    requires version { (encoding.version ≡ 4) ⊎ (encoding.version ≡ 5) }
    requires size { (encoding.address_size ≡ 4) ⊎ (encoding.address_size ≡ 8) }
    requires functions { AreKept transform.now }
    ensures { GivesBegun transform.now read.now.unit.sections read.now.unit.header encoding (Some offset) result }
{
    let table = LineTable::read(alloc, &read.unit, offset)?;
    let files = UnitFiles {
        version: table.version(),
        count: Some(table.file_count()),
        output_version: encoding.version,
    };
    let lines = carried_lines(alloc, &table, transform, encoding)?;
    let unit = Unit::new(alloc, encoding, lines)?;
    Ok(BegunUnit { unit, files })
}
