//! One entry of a range list. (DWARF 4, section 2.17.3; DWARF 5, section 7.25.)
ghost use Rattle.std.specs.Prelude.{◌≡◌, ◌-◌, ◌*◌, ◌^◌, IsTrue, option_map};
ghost use Rattle.dwc_base.specs.Cursors.{Gives};
ghost use Rattle.dwc_base.specs.FieldSizes.{is_field_size};
ghost use Rattle.dwc_base.specs.Sections.{address_at};
ghost use Rattle.dwc_dwarf.specs.RawLists.{is_number as is_the_number, entry_of_pair, pair_at as raw_pair_at, entry_of_kind_at, kind_and_entry_at, range_kinds};
ghost use Rattle.dwc_tabs.specs.OpenLists.{kind_view, list_entry_at};
ghost use Rattle.dwc_tabs.specs.RangeLists.{entry_view};

use crate::entry_kind::{EntryKind, range_kind};
use dwc_base::fields::address;
use dwc_base::{Address, Cursor, Flaw, Relocations};

/// An entry of a range list with its operands as they stand, an address by an index as its index.
#[derive(Clone, Copy)]
pub enum RangeEntry {
    /// `DW_RLE_base_addressx`: the index of an address.
    BaseAddressx(u64),
    /// `DW_RLE_startx_endx`: the indexes of two addresses.
    StartxEndx(u64, u64),
    /// `DW_RLE_startx_length`: the index of an address, and a length in bytes.
    StartxLength(u64, u64),
    /// `DW_RLE_offset_pair`: two offsets from the base.
    OffsetPair(u64, u64),
    /// `DW_RLE_base_address`.
    BaseAddress(Address),
    /// `DW_RLE_start_end`.
    StartEnd(Address, Address),
    /// `DW_RLE_start_length`: an address, and a length in bytes.
    StartLength(Address, u64),
    /// A pair of addresses of a list up to version 4.
    Pair(Address, Address),
    /// The selection of a base in a list up to version 4.
    Base(Address),
}

// Whether an address is a number.
fn is_number(number: u64, address: Address) -> bool
    ensures { result ≡ is_the_number number address }
{
    match address {
        Address::Constant(value) => value == number,
        Address::Symbol { .. } => false,
    }
}

// The greatest address of so many bytes.
fn greatest_address(size: u8) -> u64
    requires { IsTrue (is_field_size size) }
    ensures { result ≡ 2 ^ (8 * size) - 1 }
{
    match size {
        1 => 0xFF,
        2 => 0xFFFF,
        4 => 0xFFFF_FFFF,
        _ => 0xFFFF_FFFF_FFFF_FFFF,
    }
}

// Two addresses of a list up to version 4: two zeros end it, and the greatest address selects the other as a base.
fn entry_of_addresses(size: u8, begin: Address, end: Address) -> Option<RangeEntry>
    requires { IsTrue (is_field_size size) }
    ensures { option_map entry_view result ≡ entry_of_pair size begin end }
{
    if is_number(0, begin) && is_number(0, end) {
        return None;
    }
    if is_number(greatest_address(size), begin) {
        return Some(RangeEntry::Base(end));
    }
    Some(RangeEntry::Pair(begin, end))
}

// The bytes of an address of WebAssembly.
const ADDRESS_SIZE: u8 = 4;

// An address at the front. One of 4 bytes is read in place and another by a call with a cursor of its own, so that a loop over entries
// keeps its cursor in registers.
#[inline(always)]
#[tactic(auto, unfolding(dwc_base::specs::Sections::address_at))]
fn next_address(
    relocations: &Relocations<'_>,
    size: u8,
    cursor: &mut Cursor<'_>,
) -> Result<Address, Flaw>
    requires { IsTrue (is_field_size size) }
    ensures { Gives (λ x. x) (address_at relocations.now size cursor.old) cursor.new result }
{
    if size == ADDRESS_SIZE {
        let place = cursor.place();
        let spelled = cursor.u32()?;
        return Ok(relocations.value(place, size, u64::from(spelled)));
    }
    let mut ahead = cursor.fork();
    let address = address(&relocations.again(), size, &mut ahead)?;
    *cursor = ahead;
    Ok(address)
}

// An entry of a list up to version 4; None at its end.
#[inline(always)]
#[tactic(auto, unfolding(dwc_dwarf::specs::RawLists::pair_at))]
pub(crate) fn pair(
    relocations: &Relocations<'_>,
    size: u8,
    cursor: &mut Cursor<'_>,
) -> Result<Option<RangeEntry>, Flaw>
    requires { IsTrue (is_field_size size) }
    ensures { Gives (option_map entry_view) (raw_pair_at relocations.now size cursor.old) cursor.new result }
{
    let begin = next_address(relocations, size, cursor)?;
    let end = next_address(relocations, size, cursor)?;
    Ok(entry_of_addresses(size, begin, end))
}

// The operands of an entry from version 5 on, by its kind; None at the end of the list.
#[inline(always)]
#[tactic(auto, unfolding(dwc_dwarf::specs::RawLists::entry_of_kind_at))]
pub(crate) fn entry_of_kind(
    relocations: &Relocations<'_>,
    size: u8,
    kind: EntryKind,
    cursor: &mut Cursor<'_>,
) -> Result<Option<RangeEntry>, Flaw>
    requires { IsTrue (is_field_size size) }
    ensures { Gives (option_map entry_view) (entry_of_kind_at relocations.now size (kind_view kind) cursor.old) cursor.new result }
{
    match kind {
        EntryKind::EndOfList => Ok(None),
        EntryKind::BaseAddressx => Ok(Some(RangeEntry::BaseAddressx(cursor.uleb()?))),
        EntryKind::StartxEndx => {
            let start = cursor.uleb()?;
            Ok(Some(RangeEntry::StartxEndx(start, cursor.uleb()?)))
        }
        EntryKind::StartxLength => {
            let start = cursor.uleb()?;
            Ok(Some(RangeEntry::StartxLength(start, cursor.uleb()?)))
        }
        EntryKind::OffsetPair => {
            let begin = cursor.uleb()?;
            Ok(Some(RangeEntry::OffsetPair(begin, cursor.uleb()?)))
        }
        EntryKind::BaseAddress => {
            let base = address(relocations, size, cursor)?;
            Ok(Some(RangeEntry::BaseAddress(base)))
        }
        EntryKind::StartEnd => {
            let start = address(relocations, size, cursor)?;
            let end = address(relocations, size, cursor)?;
            Ok(Some(RangeEntry::StartEnd(start, end)))
        }
        EntryKind::StartLength => {
            let start = address(relocations, size, cursor)?;
            Ok(Some(RangeEntry::StartLength(start, cursor.uleb()?)))
        }
    }
}

// An entry from version 5 on; None at the end of the list.
#[tactic(auto, unfolding(dwc_dwarf::specs::RawLists::kind_and_entry_at))]
fn kind_and_entry(
    relocations: &Relocations<'_>,
    size: u8,
    cursor: &mut Cursor<'_>,
) -> Result<Option<RangeEntry>, Flaw>
    requires { IsTrue (is_field_size size) }
    ensures { Gives (option_map entry_view) (kind_and_entry_at range_kinds relocations.now size cursor.old) cursor.new result }
{
    let code = cursor.u8()?;
    match range_kind(code) {
        Some(kind) => Ok(entry_of_kind(relocations, size, kind, cursor)?),
        None => Err(Flaw::Malformed),
    }
}

/// An entry of a list, which is of pairs up to version 4; None at its end.
#[inline(always)]
#[tactic(auto, unfolding(crate::specs::OpenLists::list_entry_at))]
pub fn range_entry(
    in_pairs: bool,
    relocations: &Relocations<'_>,
    size: u8,
    cursor: &mut Cursor<'_>,
) -> Result<Option<RangeEntry>, Flaw>
    requires { IsTrue (is_field_size size) }
    ensures { Gives (option_map entry_view) (list_entry_at range_kinds in_pairs relocations.now size cursor.old) cursor.new result }
{
    if in_pairs {
        return Ok(pair(relocations, size, cursor)?);
    }
    let mut ahead = cursor.fork();
    let entry = kind_and_entry(&relocations.again(), size, &mut ahead)?;
    *cursor = ahead;
    Ok(entry)
}
