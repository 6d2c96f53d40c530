//! The kinds of entries of range lists and location lists from version 5 on. (DWARF 5, section 7.25.)
ghost use Rattle.std.specs.Prelude.{◌≡◌, option_map};
ghost use Rattle.dwc_base.specs.Reading.{coded};
ghost use Rattle.dwc_dwarf.specs.RawLists.{range_kinds};
ghost use Rattle.dwc_tabs.specs.OpenLists.{kind_view};

use dwc_base::constants::{
    DW_RLE_base_address, DW_RLE_base_addressx, DW_RLE_end_of_list, DW_RLE_offset_pair,
    DW_RLE_start_end, DW_RLE_start_length, DW_RLE_startx_endx, DW_RLE_startx_length,
};

// A kind that both range lists and location lists have.
#[derive(Clone, Copy)]
pub(crate) enum EntryKind {
    EndOfList,
    BaseAddressx,
    StartxEndx,
    StartxLength,
    OffsetPair,
    BaseAddress,
    StartEnd,
    StartLength,
}

// The kind of an entry of a range list by its code.
pub(crate) fn range_kind(code: u8) -> Option<EntryKind>
    ensures { option_map kind_view result ≡ coded range_kinds code }
{
    match code {
        DW_RLE_end_of_list => Some(EntryKind::EndOfList),
        DW_RLE_base_addressx => Some(EntryKind::BaseAddressx),
        DW_RLE_startx_endx => Some(EntryKind::StartxEndx),
        DW_RLE_startx_length => Some(EntryKind::StartxLength),
        DW_RLE_offset_pair => Some(EntryKind::OffsetPair),
        DW_RLE_base_address => Some(EntryKind::BaseAddress),
        DW_RLE_start_end => Some(EntryKind::StartEnd),
        DW_RLE_start_length => Some(EntryKind::StartLength),
        _ => None,
    }
}
