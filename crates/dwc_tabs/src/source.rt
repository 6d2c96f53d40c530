//! What a line table is read from beside its own section.
ghost use Rattle.std.specs.Prelude.{◌≡◌};
ghost use Rattle.dwc_dwarf.specs.Indexed.{text_base};
ghost use Rattle.dwc_dwarf.specs.LineHeaders.{line_source};
ghost use Rattle.dwc_tabs.specs.Headers.{source_view};

use dwc_base::{Endian, Relocations, SectionName};
use dwc_read::Unit;

/// The sections that hold the texts that paths of version 5 name, and the function relocations in `.debug_line`.
#[derive(Drop)]
pub struct Source<'d> {
    pub order: Endian,
    /// The bytes of `.debug_str`.
    pub strings: &'d [u8],
    /// The bytes of `.debug_line_str`.
    pub line_strings: &'d [u8],
    /// The bytes of `.debug_str_offsets`.
    pub offsets: &'d [u8],
    /// Where the offsets of the unit's texts by an index begin there.
    pub base: u64,
    pub relocations: Relocations<'d>,
}

/// The source of a line table that a unit names: its texts by an index are the unit's.
pub fn source_of<'d>(unit: &Unit<'d>) -> Source<'d>
    ensures { source_view result ≡ line_source unit.now.sections (text_base unit.now.sections unit.now.header) }
{
    Source {
        order: unit.order(),
        strings: unit.section(SectionName::Str),
        line_strings: unit.section(SectionName::LineStr),
        offsets: unit.section(SectionName::StrOffsets),
        base: unit.index_base(SectionName::StrOffsets),
        relocations: unit.relocations(SectionName::Line),
    }
}
