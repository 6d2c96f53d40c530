//! Reads unit headers. (DWARF 4 and 5, section 7.5.1; initial lengths, sections 7.2.2 and 7.4.)
ghost use Rattle.std.specs.Prelude.{◌≡◌, ◌<◌, ◌≤◌, ◌^◌, length};
ghost use Rattle.dwc_base.specs.Cursors.{Gives, GivesLast};
ghost use Rattle.dwc_base.specs.Listing.{GivesNext};
ghost use Rattle.dwc_base.specs.Units.{unit_header_at, unit_headers_from, header_to_4, header_of_5, dwo_id_at};
ghost use Rattle.dwc_read.specs.Headers.{header_view, seen_flaw};

use crate::header::Header;
use dwc_base::constants::{
    DW_UT_compile, DW_UT_skeleton, DW_UT_split_compile, DW_UT_split_type, DW_UT_type,
};
use dwc_base::fields::sized_part;
use dwc_base::{Cursor, Flaw, Kind};

// The fields of the versions 2 to 4, behind the version.
#[tactic(auto, unfolding(dwc_base::specs::Units::header_to_4))]
fn fields_to_4<'d>(
    offset: usize,
    end: usize,
    version: u16,
    mut cursor: Cursor<'d>,
) -> Result<Header<'d>, Flaw>
    requires { length cursor.left < 2 ^ 32 }
    ensures { GivesLast header_view (header_to_4 offset end version cursor.entry) result }
{
    let abbreviations = cursor.u32()?;
    let address_size = cursor.u8()?;
    if address_size != 4 && address_size != 8 {
        return Err(Flaw::Refused(Kind::AddressSize));
    }
    Ok(Header {
        offset,
        end,
        version,
        address_size,
        unit_type: DW_UT_compile,
        abbreviations,
        dwo_id: None,
        content: cursor,
    })
}

// The id of a skeleton or of a split compile unit.
#[tactic(auto, unfolding(dwc_base::specs::Units::dwo_id_at))]
fn dwo_id(unit_type: u8, cursor: &mut Cursor<'_>) -> Result<Option<u64>, Flaw>
    ensures id { Gives (λ x. x) (dwo_id_at unit_type cursor.old) cursor.new result }
    ensures no_longer { length cursor.new.left ≤ length cursor.old.left }
{
    if unit_type == DW_UT_skeleton || unit_type == DW_UT_split_compile {
        let id = cursor.u64()?;
        Ok(Some(id))
    } else {
        Ok(None)
    }
}

// The fields of version 5, behind the version.
#[tactic(auto, unfolding(dwc_base::specs::Units::header_of_5))]
fn fields_of_5<'d>(offset: usize, end: usize, mut cursor: Cursor<'d>) -> Result<Header<'d>, Flaw>
    requires { length cursor.left < 2 ^ 32 }
    ensures { GivesLast header_view (header_of_5 offset end cursor.entry) result }
{
    let unit_type = cursor.u8()?;
    if unit_type == DW_UT_type || unit_type == DW_UT_split_type {
        return Err(Flaw::Refused(Kind::TypeUnit));
    }
    if unit_type == 0 || unit_type > DW_UT_split_type {
        return Err(Flaw::Malformed);
    }
    let address_size = cursor.u8()?;
    if address_size != 4 && address_size != 8 {
        return Err(Flaw::Refused(Kind::AddressSize));
    }
    let abbreviations = cursor.u32()?;
    let dwo_id = dwo_id(unit_type, &mut cursor)?;
    Ok(Header {
        offset,
        end,
        version: 5,
        address_size,
        unit_type,
        abbreviations,
        dwo_id,
        content: cursor,
    })
}

// The header of the unit at the front.
#[tactic(auto, unfolding(dwc_base::specs::Units::unit_header_at))]
fn unit_header<'d>(cursor: &mut Cursor<'d>) -> Result<Header<'d>, Flaw>
    ensures { Gives header_view (unit_header_at cursor.old) cursor.new result }
{
    let offset = cursor.place();
    let mut unit = sized_part(cursor)?;
    let end = cursor.place();
    let version = unit.u16()?;
    if version < 2 || version > 5 {
        return Err(Flaw::Refused(Kind::Version));
    }
    if version == 5 {
        Ok(fields_of_5(offset, end, unit)?)
    } else {
        Ok(fields_to_4(offset, end, version, unit)?)
    }
}

// What is wrong with a header, and where the header begins.
#[derive(Clone, Copy)]
pub struct HeaderFlaw {
    pub flaw: Flaw,
    pub offset: usize,
}

// The header of the next unit, if there is one. At the end and at a fault the next call answers the same.
pub fn next_header<'d>(cursor: &mut Cursor<'d>) -> Result<Option<Header<'d>>, HeaderFlaw>
    ensures { GivesNext header_view (unit_headers_from cursor.old) (unit_headers_from cursor.new) (seen_flaw result) }
{
    if cursor.left() == 0 {
        return Ok(None);
    }
    let offset = cursor.place();
    let mut ahead = cursor.fork();
    match unit_header(&mut ahead) {
        Ok(header) => {
            *cursor = ahead;
            Ok(Some(header))
        }
        Err(flaw) => Err(HeaderFlaw { flaw, offset }),
    }
}
