//! A unit's header.
ghost use Rattle.std.specs.Prelude.{◌≡◌, ◌<◌, ◌^◌, length, IsTrue};
ghost use Rattle.dwc_base.specs.FieldSizes.{is_field_size};

use dwc_base::Cursor;

/// A unit's header: where the unit begins and ends, how it spells its numbers, its type (1 below version 5), the offset of its
/// abbreviation table, the id of a skeleton or of a split unit, and what is unread behind the header.
#[derive(Drop)]
pub struct Header<'d> {
    pub offset: usize,
    pub end: usize,
    pub version: u16,
    pub address_size: u8,
    pub unit_type: u8,
    pub abbreviations: u32,
    pub dwo_id: Option<u64>,
    pub content: Cursor<'d>,
    ghost known_size: { IsTrue (is_field_size address_size) },
    ghost short: { length content.left < 2 ^ 32 },
}

impl<'d> Header<'d> {
    ghost use Rattle.dwc_read.specs.Headers.{header_view};

    // The same header once more.
    pub fn again(&self) -> Header<'d>
        ensures { header_view result ≡ header_view self.now }
    {
        Header {
            offset: self.offset,
            end: self.end,
            version: self.version,
            address_size: self.address_size,
            unit_type: self.unit_type,
            abbreviations: self.abbreviations,
            dwo_id: self.dwo_id,
            content: self.content.fork(),
        }
    }
}
