//! A list of ranges or of locations that is being read.
ghost use Rattle.std.specs.Prelude.{◌≡◌, ◌+◌, ◌*◌, ◌<◌, ◌^◌, length, SomeIff};
ghost use Rattle.std.specs.Option.{unwrap_or};
ghost use Rattle.dwc_base.specs.Cursors.{GivesLast};
ghost use Rattle.dwc_dwarf.specs.Indexed.{index_base};
ghost use Rattle.dwc_dwarf.specs.RawLists.{place_indexed};
ghost use Rattle.dwc_tabs.specs.OpenLists.{unread_at as found_at, distance_at as distance_found, list_at};

use dwc_base::{Cursor, Endian, Flaw, Relocations, SectionName};
use dwc_read::Unit;

// A list that is being read.
#[derive(Drop)]
pub(crate) struct OpenList<'d> {
    // Whether it is a list of pairs, as up to version 4.
    pub in_pairs: bool,
    pub relocations: Relocations<'d>,
    pub address_size: u8,
    // Where the list begins in its section.
    pub offset: u64,
    pub cursor: Cursor<'d>,
}

impl<'d> OpenList<'d> {
    ghost use Rattle.std.specs.Prelude.{IsTrue};
    ghost use Rattle.dwc_base.specs.FieldSizes.{is_field_size};
    ghost use Rattle.dwc_tabs.specs.OpenLists.{opened_at};

    // The list of a unit at an offset of a section.
    pub fn at(unit: &Unit<'d>, section: SectionName, in_pairs: bool, offset: u64) -> OpenList<'d>
        ensures list { result ≡ opened_at unit.now.sections unit.now.header section in_pairs offset }
        ensures known { IsTrue (is_field_size result.address_size) }
    {
        OpenList {
            in_pairs,
            relocations: unit.relocations(section),
            address_size: unit.address_size(),
            offset,
            cursor: unread_at(unit.section(section), unit.order(), offset),
        }
    }

    // The same list once more.
    #[inline(always)]
    pub fn again(&self) -> OpenList<'d>
        ensures { result ≡ self.now }
    {
        OpenList {
            in_pairs: self.in_pairs,
            relocations: self.relocations.again(),
            address_size: self.address_size,
            offset: self.offset,
            cursor: self.cursor.fork(),
        }
    }
}

// What is unread of some bytes from an offset on.
fn unread_at<'d>(bytes: &'d [u8], order: Endian, offset: u64) -> Cursor<'d>
    requires { length bytes.now < 2 ^ 32 }
    ensures { result ≡ found_at order bytes.now offset }
{
    if bytes.len() as u64 <= offset {
        return Cursor::new(&[], order);
    }
    Cursor::at(bytes, offset as u32, order)
}

// The place of the item at an index behind a base, of 4 bytes each; None where it does not fit 64 bits.
fn item_place(base: u64, index: u64) -> Option<u64>
    ensures { SomeIff result (base + 4 * index < 2 ^ 64) (base + 4 * index) }
{
    let distance = index.checked_mul(4)?;
    base.checked_add(distance)
}

// The number at an index behind a base.
#[tactic(auto, unfolding(crate::specs::OpenLists::distance_at))]
fn distance_at(bytes: &[u8], order: Endian, base: u64, index: u64) -> Result<u32, Flaw>
    requires { length bytes.now < 2 ^ 32 }
    ensures { GivesLast (λ n. n) (distance_found order bytes.now base index) result }
{
    let Some(place) = item_place(base, index) else {
        return Err(Flaw::EndsEarly);
    };
    if bytes.len() as u64 <= place {
        return Err(Flaw::EndsEarly);
    }
    let mut cursor = Cursor::at(bytes, place as u32, order);
    Ok(cursor.u32()?)
}

// The offset of the list at an index among the unit's lists of a section. (DWARF 5, sections 7.28 and 7.29.)
pub(crate) fn offset_indexed(unit: &Unit<'_>, section: SectionName, index: u64) -> Result<u64, Flaw>
    ensures { GivesLast (list_at section) (place_indexed unit.now.sections section (unwrap_or (index_base unit.now.sections unit.now.header section) 0) index) result }
{
    let bytes = unit.section(section);
    let base = unit.index_base(section);
    if bytes.len() as u64 <= base {
        return Err(Flaw::EndsEarly);
    }
    let distance = distance_at(bytes, unit.order(), base, index)?;
    Ok(base + u64::from(distance))
}
