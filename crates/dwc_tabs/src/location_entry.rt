//! One entry of a location list. (DWARF 4, section 2.6.2; DWARF 5, sections 2.6.2 and 7.7.3.)
ghost use Rattle.std.specs.Prelude.{◌≡◌, IsTrue, Some, option_map};
ghost use Rattle.dwc_base.specs.Cursors.{Gives};
ghost use Rattle.dwc_base.specs.FieldSizes.{is_field_size};
ghost use Rattle.dwc_base.specs.Reading.{coded};
ghost use Rattle.dwc_dwarf.specs.RawLists.{entry_of_kind_at, kind_and_entry_at, length_size, location_behind as location_found_behind, location_kinds, placed_expression_at, selects_base as is_selection};
ghost use Rattle.dwc_dwarf.specs.Values.{sized_number_at};
ghost use Rattle.dwc_tabs.specs.OpenLists.{list_entry_at};
ghost use Rattle.dwc_tabs.specs.RangeLists.{entry_view};
ghost use Rattle.dwc_tabs.specs.LocationLists.{location_kind_view, range_view, placed_view, location_view, section_of_locations as section_of, location_entry_at};

use crate::entry_kind::EntryKind;
use crate::range_entry::{RangeEntry, entry_of_kind, pair};
use dwc_base::constants::{
    DW_LLE_base_address, DW_LLE_base_addressx, DW_LLE_default_location, DW_LLE_end_of_list,
    DW_LLE_offset_pair, DW_LLE_start_end, DW_LLE_start_length, DW_LLE_startx_endx,
    DW_LLE_startx_length,
};
use dwc_base::{Cursor, Flaw, Relocations, SectionName};

// The kind of an entry from version 5 on.
#[derive(Clone, Copy)]
pub(crate) enum LocationKind {
    DefaultLocation,
    // A kind that range lists have too.
    Listed(EntryKind),
}

// What an entry says of addresses.
#[derive(Clone, Copy)]
pub(crate) enum LocationRange {
    // All addresses that the other entries leave out.
    DefaultLocation,
    // What an entry of a range list says.
    Listed(RangeEntry),
}

// An expression, with the section and the offset of its first byte.
#[derive(Clone, Copy)]
pub(crate) struct PlacedExpression<'d> {
    pub section: SectionName,
    pub place: u64,
    pub bytes: &'d [u8],
}

// An entry of a location list.
#[derive(Clone, Copy)]
pub(crate) struct LocationEntry<'d> {
    pub says: LocationRange,
    // None for the selection of a base.
    pub holds: Option<PlacedExpression<'d>>,
}

// The section of lists of pairs, or of those from version 5 on.
pub(crate) fn section_of_locations(in_pairs: bool) -> SectionName
    ensures { result ≡ section_of in_pairs }
{
    if in_pairs {
        SectionName::Loc
    } else {
        SectionName::Loclists
    }
}

// The kind of an entry by its code.
fn location_kind(code: u8) -> Option<LocationKind>
    ensures { option_map location_kind_view result ≡ coded location_kinds code }
{
    match code {
        DW_LLE_end_of_list => Some(LocationKind::Listed(EntryKind::EndOfList)),
        DW_LLE_base_addressx => Some(LocationKind::Listed(EntryKind::BaseAddressx)),
        DW_LLE_startx_endx => Some(LocationKind::Listed(EntryKind::StartxEndx)),
        DW_LLE_startx_length => Some(LocationKind::Listed(EntryKind::StartxLength)),
        DW_LLE_offset_pair => Some(LocationKind::Listed(EntryKind::OffsetPair)),
        DW_LLE_default_location => Some(LocationKind::DefaultLocation),
        DW_LLE_base_address => Some(LocationKind::Listed(EntryKind::BaseAddress)),
        DW_LLE_start_end => Some(LocationKind::Listed(EntryKind::StartEnd)),
        DW_LLE_start_length => Some(LocationKind::Listed(EntryKind::StartLength)),
        _ => None,
    }
}

// What an entry says that stands in range lists too.
#[inline(always)]
fn listed(entry: Option<RangeEntry>) -> Option<LocationRange>
    ensures { option_map range_view result ≡ option_map entry_view entry }
{
    match entry {
        Some(entry) => Some(LocationRange::Listed(entry)),
        None => None,
    }
}

// What an entry of a kind says of addresses; None at the end of the list.
#[tactic(auto, unfolding(dwc_dwarf::specs::RawLists::entry_of_kind_at))]
fn range_of_kind(
    relocations: &Relocations<'_>,
    size: u8,
    kind: LocationKind,
    cursor: &mut Cursor<'_>,
) -> Result<Option<LocationRange>, Flaw>
    requires { IsTrue (is_field_size size) }
    ensures { Gives (option_map range_view) (entry_of_kind_at relocations.now size (location_kind_view kind) cursor.old) cursor.new result }
{
    match kind {
        LocationKind::DefaultLocation => Ok(Some(LocationRange::DefaultLocation)),
        LocationKind::Listed(kind) => {
            let entry = entry_of_kind(relocations, size, kind, cursor)?;
            Ok(listed(entry))
        }
    }
}

// What an entry from version 5 on says of addresses; None at the end of the list.
#[tactic(auto, unfolding(dwc_dwarf::specs::RawLists::kind_and_entry_at))]
fn kind_and_range(
    relocations: &Relocations<'_>,
    size: u8,
    cursor: &mut Cursor<'_>,
) -> Result<Option<LocationRange>, Flaw>
    requires { IsTrue (is_field_size size) }
    ensures { Gives (option_map range_view) (kind_and_entry_at location_kinds relocations.now size cursor.old) cursor.new result }
{
    let code = cursor.u8()?;
    match location_kind(code) {
        Some(kind) => Ok(range_of_kind(relocations, size, kind, cursor)?),
        None => Err(Flaw::Malformed),
    }
}

// What an entry says of addresses; None at the end of the list.
#[inline(always)]
#[tactic(auto, unfolding(crate::specs::OpenLists::list_entry_at))]
fn location_range(
    in_pairs: bool,
    relocations: &Relocations<'_>,
    size: u8,
    cursor: &mut Cursor<'_>,
) -> Result<Option<LocationRange>, Flaw>
    requires { IsTrue (is_field_size size) }
    ensures { Gives (option_map range_view) (list_entry_at location_kinds in_pairs relocations.now size cursor.old) cursor.new result }
{
    if in_pairs {
        let entry = pair(relocations, size, cursor)?;
        return Ok(listed(entry));
    }
    let mut ahead = cursor.fork();
    let says = kind_and_range(&relocations.again(), size, &mut ahead)?;
    *cursor = ahead;
    Ok(says)
}

// How many bytes an expression has, which two bytes say up to version 4.
#[inline(always)]
#[tactic(auto, unfolding(dwc_dwarf::specs::Values::sized_number_at))]
fn expression_length(in_pairs: bool, cursor: &mut Cursor<'_>) -> Result<u64, Flaw>
    ensures { Gives (λ n. n) (sized_number_at (length_size (section_of in_pairs)) cursor.old) cursor.new result }
{
    if in_pairs {
        let length = cursor.u16()?;
        return Ok(u64::from(length));
    }
    Ok(cursor.uleb()?)
}

// An expression behind its length.
#[inline(always)]
#[tactic(auto, unfolding(dwc_dwarf::specs::RawLists::placed_expression_at))]
fn placed_expression<'d>(
    in_pairs: bool,
    cursor: &mut Cursor<'d>,
) -> Result<PlacedExpression<'d>, Flaw>
    ensures { Gives placed_view (placed_expression_at (section_of in_pairs) cursor.old) cursor.new result }
{
    let length = expression_length(in_pairs, cursor)?;
    let place = cursor.place() as u64;
    let bytes = cursor.take(length as usize)?;
    Ok(PlacedExpression {
        section: section_of_locations(in_pairs),
        place,
        bytes,
    })
}

// Whether an entry selects a base.
#[inline(always)]
fn selects_base(says: LocationRange) -> bool
    ensures { result ≡ is_selection (range_view says) }
{
    match says {
        LocationRange::DefaultLocation => false,
        LocationRange::Listed(entry) => match entry {
            RangeEntry::BaseAddressx(_) => true,
            RangeEntry::BaseAddress(_) => true,
            RangeEntry::Base(_) => true,
            RangeEntry::StartxEndx(_, _) => false,
            RangeEntry::StartxLength(_, _) => false,
            RangeEntry::OffsetPair(_, _) => false,
            RangeEntry::StartEnd(_, _) => false,
            RangeEntry::StartLength(_, _) => false,
            RangeEntry::Pair(_, _) => false,
        },
    }
}

// An entry behind what it says of addresses.
#[inline(always)]
#[tactic(auto, unfolding(dwc_dwarf::specs::RawLists::location_behind))]
fn location_behind<'d>(
    in_pairs: bool,
    says: LocationRange,
    cursor: &mut Cursor<'d>,
) -> Result<LocationEntry<'d>, Flaw>
    ensures { Gives (λ e. Some (location_view e)) (location_found_behind (section_of in_pairs) (range_view says) cursor.old) cursor.new result }
{
    if selects_base(says) {
        return Ok(LocationEntry { says, holds: None });
    }
    let expression = placed_expression(in_pairs, cursor)?;
    Ok(LocationEntry {
        says,
        holds: Some(expression),
    })
}

// An entry of a list, which is of pairs up to version 4; None at its end.
#[inline(always)]
#[tactic(auto, unfolding(crate::specs::LocationLists::location_entry_at))]
pub(crate) fn location_entry<'d>(
    in_pairs: bool,
    relocations: &Relocations<'_>,
    size: u8,
    cursor: &mut Cursor<'d>,
) -> Result<Option<LocationEntry<'d>>, Flaw>
    requires { IsTrue (is_field_size size) }
    ensures { Gives (option_map location_view) (location_entry_at in_pairs relocations.now size cursor.old) cursor.new result }
{
    match location_range(in_pairs, relocations, size, cursor)? {
        Some(says) => Ok(Some(location_behind(in_pairs, says, cursor)?)),
        None => Ok(None),
    }
}
