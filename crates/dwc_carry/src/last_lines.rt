//! The line table that was carried last, which several units may name.
ghost use Rattle.std.specs.Prelude.{◌≡◌};
ghost use Rattle.dwc_dwarf.specs.Indexed.{text_base};
ghost use Rattle.dwc_carry.specs.LastLines.{last_after};

use dwc_base::SectionName;
use dwc_kept::ReadUnit;
use dwc_source::UnitFiles;
use dwc_unit::UnitId;

/// A line table that was carried: its offset in `.debug_line`, the address size of the unit that it was read for, where that unit's
/// texts by an index begin, its files, and the unit of the output whose line program carries it.
#[derive(Clone, Copy)]
pub(crate) struct LastLines {
    pub offset: u64,
    pub address_size: u8,
    pub base: u64,
    pub files: UnitFiles,
    pub unit: UnitId,
}

/// The line table that was carried last, once a unit of the output carries one that was read. `last` is the one before.
pub(crate) fn last_after(
    read: &ReadUnit<'_>,
    files: UnitFiles,
    unit: UnitId,
    last: Option<LastLines>,
) -> Option<LastLines>
    ensures { result ≡ last_after read.now.line_table read.now.unit.header.address_size (text_base read.now.unit.sections read.now.unit.header) files unit last }
{
    let Some(offset) = read.line_table else {
        return last;
    };
    Some(LastLines {
        offset,
        address_size: read.unit.address_size(),
        base: read.unit.index_base(SectionName::StrOffsets),
        files,
        unit,
    })
}
