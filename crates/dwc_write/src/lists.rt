//! Range lists and location lists, as they are written. (DWARF 4, sections 2.17.3 and 2.6.2; DWARF 5, sections 7.25, 7.28 and 7.29.)
ghost use Rattle.std.specs.Prelude.{◌≡◌, ◌≤◌, ◌<◌, ◌^◌, ◌⊎◌, ◌+◌, ◌++◌, ◌∷◌, ◌+ℤ◌, [], Some, pos, false, length, map, option_map, FitsSigned};
ghost use Rattle.std.specs.Int.{w64};
ghost use Rattle.std.specs.List.{All, list_all};
ghost use Rattle.dwc_base.specs.NumberBytes.{uleb_bytes};
ghost use Rattle.dwc_unit.specs.FileOrders.{looked_up};
ghost use Rattle.dwc_unit.specs.GivenUnits.{lists_of_entries};
ghost use Rattle.dwc_unit.specs.Lists.{FitsListed, contribution_bytes, contribution_relocations, count_bytes, count_length, counted_bytes, counted_relocations, ended, extent_bytes, headed_bytes, held_bytes, held_length as length_held, list_bytes, list_relocations, listed_bytes, listed_length as length_listed, listed_relocations, lists_by, lists_header, lists_of_attributes, locations_in, pair_bytes, pair_relocations, ranges_in};
ghost use Rattle.dwc_unit.specs.RangeLists.{address_behind as address_behind_by};
ghost use Rattle.dwc_section.specs.Writers.{FitsField, Writes, address_relocations};
ghost use Rattle.dwc_base.specs.declared.records.Address.{Address};
ghost use Rattle.dwc_section.specs.SpelledAddresses.{address_bytes};
ghost use Rattle.dwc_write.specs.Noted.{are_free, has_no_locations, has_no_ranges, is_free};

use dwc_base::Address;
use dwc_base::constants::{DW_LLE_start_length, DW_RLE_end_of_list, DW_RLE_start_length};
use dwc_section::leb_sizes::uleb_length;
use dwc_section::{WriteError, WriterRelocate};
use dwc_unit::Expression;
use dwc_unit::additions::Additions;
use dwc_unit::attributes::{Held, KeptAttribute};
use dwc_unit::file_order::FilePlace;
use dwc_unit::lists::ListKind;

/// An entry of a list, of either kind.
pub trait Listed {
    ghost use Rattle.std.specs.Prelude.{◌≡◌, option_map};
    ghost use Rattle.dwc_unit.specs.Lists.{ListEntry};

    ghost listed: { Self → ListEntry };

    /// Where it begins.
    fn begin(&self) -> Address
        ensures { result ≡ (listed self.now).begin };

    /// How many bytes it has.
    fn extent(&self) -> u64
        ensures { result ≡ (listed self.now).extent };

    /// The expression that holds there, in a location list.
    fn expression(&self) -> Option<&[u8]>
        ensures { option_map (λ bytes. bytes.now) result ≡ (listed self.now).holds };
}

impl Listed for (Address, u64) {
    ghost use Rattle.dwc_unit.specs.Lists.{range_entry};

    ghost listed = { range_entry };

    fn begin(&self) -> Address {
        self.0
    }

    fn extent(&self) -> u64 {
        self.1
    }

    fn expression(&self) -> Option<&[u8]> {
        None
    }
}

impl Listed for (Address, u64, Expression) {
    ghost use Rattle.dwc_unit.specs.Lists.{location_entry};

    ghost listed = { location_entry };

    fn begin(&self) -> Address {
        self.0
    }

    fn extent(&self) -> u64 {
        self.1
    }

    fn expression(&self) -> Option<&[u8]> {
        Some(self.2.as_slice())
    }
}

/// The lists of a kind of entries in file order, one behind another; from version 5 on behind a header, and nothing where there are none.
pub fn write_lists(
    version: u16,
    lists: &mut WriterRelocate,
    kind: ListKind,
    size: u8,
    additions: &Additions,
    order: &[FilePlace],
) -> Result<(), WriteError>
    requires size { (size ≡ 4) ⊎ (size ≡ 8) }
    requires fits { All (FitsListed version size) (lists_of_entries (lists_by kind) (map (looked_up additions.now) order.now)) }
    requires known { All (λ f. f.index < length additions.now) order.now }
    ensures { Writes lists.old lists.new result
        (contribution_bytes version lists.old.order size (lists_of_entries (lists_by kind) (map (looked_up additions.now) order.now)))
        (contribution_relocations version lists.old.order size (length lists.old.body) (lists_of_entries (lists_by kind) (map (looked_up additions.now) order.now))) }
{
    if version < 5 {
        return put_lists(version, lists, kind, size, additions, order);
    }
    if are_all_free(kind, additions, order) {
        return Ok(());
    }
    write_contribution(version, lists, kind, size, additions, order)
}

// Whether entries have no lists of a kind.
fn are_all_free(kind: ListKind, additions: &Additions, order: &[FilePlace]) -> bool
    requires known { All (λ f. f.index < length additions.now) order.now }
    ensures { result ≡ list_all (λ e. are_free kind e.attributes) (map (looked_up additions.now) order.now) }
{
    for i in 0..order.len() {
        if !have_none(kind, additions.attributes(order[i].index as usize)) {
            return false;
        }
    }
    true
}

// Whether attributes have none.
fn have_none(kind: ListKind, attributes: &[KeptAttribute]) -> bool
    ensures { result ≡ are_free kind attributes.now }
{
    attributes.iter().all(|attribute| is_none(kind, attribute))
}

// Whether a value is none.
fn is_none(kind: ListKind, attribute: &KeptAttribute) -> bool
    ensures { result ≡ is_free kind attribute.now.value }
{
    match kind {
        ListKind::Ranges => is_no_range_list(attribute),
        ListKind::Locations => is_no_location_list(attribute),
    }
}

// Whether a value is no range list.
fn is_no_range_list(attribute: &KeptAttribute) -> bool
    ensures { result ≡ has_no_ranges attribute.now.value }
{
    match attribute.value() {
        Held::RangeListRef(_) => false,
        _ => true,
    }
}

// Whether a value is no location list.
fn is_no_location_list(attribute: &KeptAttribute) -> bool
    ensures { result ≡ has_no_locations attribute.now.value }
{
    match attribute.value() {
        Held::LocationListRef(_) => false,
        _ => true,
    }
}

// Lists behind their header, of which there are some.
fn write_contribution(
    version: u16,
    lists: &mut WriterRelocate,
    kind: ListKind,
    size: u8,
    additions: &Additions,
    order: &[FilePlace],
) -> Result<(), WriteError>
    requires size { (size ≡ 4) ⊎ (size ≡ 8) }
    requires fits { All (FitsListed version size) (lists_of_entries (lists_by kind) (map (looked_up additions.now) order.now)) }
    requires known { All (λ f. f.index < length additions.now) order.now }
    requires there { list_all (λ e. are_free kind e.attributes) (map (looked_up additions.now) order.now) ≡ false }
    ensures { Writes lists.old lists.new result
        (headed_bytes version lists.old.order size (lists_of_entries (lists_by kind) (map (looked_up additions.now) order.now)))
        (list_relocations version lists.old.order size (length lists.old.body + 12) (lists_of_entries (lists_by kind) (map (looked_up additions.now) order.now))) }
{
    let place = lists.place();
    write_header(version, lists, size)?;
    put_lists(version, lists, kind, size, additions, order)?;
    lists.finish_length(place);
    Ok(())
}

// Room for a length, and the header behind it.
fn write_header(version: u16, lists: &mut WriterRelocate, size: u8) -> Result<(), WriteError>
    ensures { Writes lists.old lists.new result ((0 ∷ 0 ∷ 0 ∷ 0 ∷ []) ++ lists_header version lists.old.order size) [] }
{
    lists.put_bytes(&[0, 0, 0, 0])?;
    lists.put_number(2, u64::from(version))?;
    lists.put_bytes(&[size, 0])?;
    lists.put_number(4, 0)
}

// Lists one behind another.
fn put_lists(
    version: u16,
    lists: &mut WriterRelocate,
    kind: ListKind,
    size: u8,
    additions: &Additions,
    order: &[FilePlace],
) -> Result<(), WriteError>
    requires size { (size ≡ 4) ⊎ (size ≡ 8) }
    requires fits { All (FitsListed version size) (lists_of_entries (lists_by kind) (map (looked_up additions.now) order.now)) }
    requires known { All (λ f. f.index < length additions.now) order.now }
    ensures { Writes lists.old lists.new result
        (list_bytes version lists.old.order size (lists_of_entries (lists_by kind) (map (looked_up additions.now) order.now)))
        (list_relocations version lists.old.order size (length lists.old.body) (lists_of_entries (lists_by kind) (map (looked_up additions.now) order.now))) }
{
    for i in 0..order.len() {
        write_lists_of(
            version,
            lists,
            kind,
            size,
            additions.attributes(order[i].index as usize),
        )?;
    }
    Ok(())
}

// The lists of attributes.
fn write_lists_of(
    version: u16,
    lists: &mut WriterRelocate,
    kind: ListKind,
    size: u8,
    attributes: &[KeptAttribute],
) -> Result<(), WriteError>
    requires size { (size ≡ 4) ⊎ (size ≡ 8) }
    requires fits { All (FitsListed version size) (lists_of_attributes (lists_by kind) attributes.now) }
    ensures { Writes lists.old lists.new result (list_bytes version lists.old.order size (lists_of_attributes (lists_by kind) attributes.now)) (list_relocations version lists.old.order size (length lists.old.body) (lists_of_attributes (lists_by kind) attributes.now)) }
{
    for i in 0..attributes.len() {
        write_list_of(version, lists, kind, size, &attributes[i])?;
    }
    Ok(())
}

// The list of a value, if it has one of this kind.
fn write_list_of(
    version: u16,
    lists: &mut WriterRelocate,
    kind: ListKind,
    size: u8,
    attribute: &KeptAttribute,
) -> Result<(), WriteError>
    requires size { (size ≡ 4) ⊎ (size ≡ 8) }
    requires fits { All (FitsListed version size) (lists_by kind attribute.now.value) }
    ensures { Writes lists.old lists.new result (list_bytes version lists.old.order size (lists_by kind attribute.now.value)) (list_relocations version lists.old.order size (length lists.old.body) (lists_by kind attribute.now.value)) }
{
    match kind {
        ListKind::Ranges => write_ranges_of(version, lists, size, attribute),
        ListKind::Locations => write_locations_of(version, lists, size, attribute),
    }
}

// The range list of a value, if it has one.
fn write_ranges_of(
    version: u16,
    lists: &mut WriterRelocate,
    size: u8,
    attribute: &KeptAttribute,
) -> Result<(), WriteError>
    requires size { (size ≡ 4) ⊎ (size ≡ 8) }
    requires fits { All (FitsListed version size) (ranges_in attribute.now.value) }
    ensures { Writes lists.old lists.new result (list_bytes version lists.old.order size (ranges_in attribute.now.value)) (list_relocations version lists.old.order size (length lists.old.body) (ranges_in attribute.now.value)) }
{
    match attribute.value() {
        Held::RangeListRef(list) => write_list(version, lists, size, list.as_slice()),
        _ => Ok(()),
    }
}

// The location list of a value, if it has one.
fn write_locations_of(
    version: u16,
    lists: &mut WriterRelocate,
    size: u8,
    attribute: &KeptAttribute,
) -> Result<(), WriteError>
    requires size { (size ≡ 4) ⊎ (size ≡ 8) }
    requires fits { All (FitsListed version size) (locations_in attribute.now.value) }
    ensures { Writes lists.old lists.new result (list_bytes version lists.old.order size (locations_in attribute.now.value)) (list_relocations version lists.old.order size (length lists.old.body) (locations_in attribute.now.value)) }
{
    match attribute.value() {
        Held::LocationListRef(locations) => write_list(version, lists, size, locations),
        _ => Ok(()),
    }
}

// A list, behind what is there: its entries, and its end.
fn write_list<T: Listed>(
    version: u16,
    lists: &mut WriterRelocate,
    size: u8,
    entries: &[T],
) -> Result<(), WriteError>
    requires size { (size ≡ 4) ⊎ (size ≡ 8) }
    requires fits { All (FitsListed version size) (ended (map T.listed entries.now)) }
    ensures { Writes lists.old lists.new result (list_bytes version lists.old.order size (ended (map T.listed entries.now))) (list_relocations version lists.old.order size (length lists.old.body) (ended (map T.listed entries.now))) }
{
    write_entries(version, lists, size, entries)?;
    write_entry(version, lists, size, Address::Constant(0), 0, None)
}

// Entries of a list, one behind another.
fn write_entries<T: Listed>(
    version: u16,
    lists: &mut WriterRelocate,
    size: u8,
    entries: &[T],
) -> Result<(), WriteError>
    requires size { (size ≡ 4) ⊎ (size ≡ 8) }
    requires fits { All (FitsListed version size) (map T.listed entries.now) }
    ensures { Writes lists.old lists.new result (list_bytes version lists.old.order size (map T.listed entries.now)) (list_relocations version lists.old.order size (length lists.old.body) (map T.listed entries.now)) }
{
    for i in 0..entries.len() {
        let entry = &entries[i];
        write_entry(
            version,
            lists,
            size,
            entry.begin(),
            entry.extent(),
            entry.expression(),
        )?;
    }
    Ok(())
}

// An entry, or the end of a list.
#[inline(always)]
fn write_entry(
    version: u16,
    lists: &mut WriterRelocate,
    size: u8,
    begin: Address,
    extent: u64,
    expression: Option<&[u8]>,
) -> Result<(), WriteError>
    requires size { (size ≡ 4) ⊎ (size ≡ 8) }
    requires fits { FitsListed version size (record { begin = begin; extent = extent; holds = option_map (λ bytes. bytes.now) expression }) }
    ensures { Writes lists.old lists.new result
        (listed_bytes version lists.old.order size (record { begin = begin; extent = extent; holds = option_map (λ bytes. bytes.now) expression.entry }))
        (listed_relocations version lists.old.order size (length lists.old.body) (record { begin = begin; extent = extent; holds = option_map (λ bytes. bytes.now) expression.entry })) }
{
    if version < 5 {
        write_pair(version, lists, size, begin, extent, expression)
    } else {
        write_counted(version, lists, size, begin, extent, expression)
    }
}

// A pair: where an entry begins and where it ends, and its expression.
#[inline(always)]
fn write_pair(
    version: u16,
    lists: &mut WriterRelocate,
    size: u8,
    begin: Address,
    extent: u64,
    expression: Option<&[u8]>,
) -> Result<(), WriteError>
    requires size { (size ≡ 4) ⊎ (size ≡ 8) }
    requires fits { FitsListed version size (record { begin = begin; extent = extent; holds = option_map (λ bytes. bytes.now) expression }) }
    ensures { Writes lists.old lists.new result
        (pair_bytes version lists.old.order size (record { begin = begin; extent = extent; holds = option_map (λ bytes. bytes.now) expression.entry }))
        (pair_relocations lists.old.order size (length lists.old.body) (record { begin = begin; extent = extent; holds = option_map (λ bytes. bytes.now) expression.entry })) }
{
    lists.put_address(begin, size)?;
    lists.put_address(address_behind(begin, extent, size), size)?;
    match expression {
        Some(bytes) => write_expression(version, lists, bytes),
        None => Ok(()),
    }
}

// An entry with its length, which ends a list where it has none.
fn write_counted(
    version: u16,
    lists: &mut WriterRelocate,
    size: u8,
    begin: Address,
    extent: u64,
    expression: Option<&[u8]>,
) -> Result<(), WriteError>
    requires size { (size ≡ 4) ⊎ (size ≡ 8) }
    requires fits { FitsField size begin }
    ensures { Writes lists.old lists.new result
        (counted_bytes version lists.old.order size (record { begin = begin; extent = extent; holds = option_map (λ bytes. bytes.now) expression.entry }))
        (counted_relocations size (length lists.old.body) (record { begin = begin; extent = extent; holds = option_map (λ bytes. bytes.now) expression.entry })) }
{
    if extent == 0 {
        lists.put_byte(DW_RLE_end_of_list)
    } else {
        write_extent(version, lists, size, begin, extent, expression)
    }
}

// The kind of an entry, where it begins and its length, and its expression.
fn write_extent(
    version: u16,
    lists: &mut WriterRelocate,
    size: u8,
    begin: Address,
    extent: u64,
    expression: Option<&[u8]>,
) -> Result<(), WriteError>
    requires size { (size ≡ 4) ⊎ (size ≡ 8) }
    requires fits { FitsField size begin }
    ensures { Writes lists.old lists.new result
        (extent_bytes version lists.old.order size (record { begin = begin; extent = extent; holds = option_map (λ bytes. bytes.now) expression.entry }))
        (address_relocations (length lists.old.body + 1) size begin) }
{
    match expression {
        Some(bytes) => {
            write_front(lists, DW_LLE_start_length, size, begin, extent)?;
            write_expression(version, lists, bytes)
        }
        None => write_front(lists, DW_RLE_start_length, size, begin, extent),
    }
}

// A kind, where an entry begins, and its length.
fn write_front(
    lists: &mut WriterRelocate,
    kind: u8,
    size: u8,
    begin: Address,
    extent: u64,
) -> Result<(), WriteError>
    requires size { (size ≡ 4) ⊎ (size ≡ 8) }
    requires fits { FitsField size begin }
    ensures { Writes lists.old lists.new result (kind ∷ (address_bytes lists.old.order size begin ++ uleb_bytes extent)) (address_relocations (length lists.old.body + 1) size begin) }
{
    lists.put_byte(kind)?;
    lists.put_address(begin, size)?;
    write_uleb(lists, extent)
}

// An expression behind its length.
fn write_expression(
    version: u16,
    lists: &mut WriterRelocate,
    bytes: &[u8],
) -> Result<(), WriteError>
    ensures { Writes lists.old lists.new result (held_bytes version lists.old.order (Some bytes.now)) [] }
{
    write_count(version, lists, bytes.len() as u64)?;
    lists.put_bytes(bytes)
}

// The length of an expression.
fn write_count(version: u16, lists: &mut WriterRelocate, count: u64) -> Result<(), WriteError>
    ensures { Writes lists.old lists.new result (count_bytes version lists.old.order count) [] }
{
    if version < 5 {
        lists.put_number(2, count)
    } else {
        write_uleb(lists, count)
    }
}

// An unsigned LEB128 number.
fn write_uleb(lists: &mut WriterRelocate, value: u64) -> Result<(), WriteError>
    ensures { Writes lists.old lists.new result (uleb_bytes value) [] }
{
    let mut rest = value;
    while rest >= 128 {
        lists.put_byte((128 + rest % 128) as u8)?;
        rest /= 128;
    }
    lists.put_byte(rest as u8)
}

/// How many bytes an entry takes, wherever it begins.
pub fn listed_length(version: u16, size: u8, extent: u64, expression: Option<&[u8]>) -> usize
    ensures listed { (begin : Address) → result ≡ length_listed version size (record { begin = begin; extent = extent; holds = option_map (λ bytes. bytes.now) expression.entry }) }
    ensures short { result < 2 ^ 63 + 1024 }
{
    let held = held_length(version, expression);
    if version < 5 {
        return 2 * usize::from(size) + held;
    }
    if extent == 0 {
        return 1;
    }
    1 + usize::from(size) + usize::from(uleb_length(extent)) + held
}

/// How many bytes an expression takes with its length.
pub fn held_length(version: u16, expression: Option<&[u8]>) -> usize
    ensures held { result ≡ length_held version (option_map (λ bytes. bytes.now) expression.entry) }
    ensures short { result < 2 ^ 63 + 16 }
{
    match expression {
        Some(bytes) => usize::from(length_of_count(version, bytes.len() as u64)) + bytes.len(),
        None => 0,
    }
}

// How many bytes the length of an expression takes.
fn length_of_count(version: u16, count: u64) -> u8
    ensures count { result ≡ count_length version count }
    ensures few { result ≤ 10 }
{
    if version < 5 { 2 } else { uleb_length(count) }
}

// The address that lies so many bytes behind another; both fit fields of a size.
fn address_behind(begin: Address, extent: u64, size: u8) -> Address
    requires size { (size ≡ 4) ⊎ (size ≡ 8) }
    requires begin { FitsField size begin }
    requires end { FitsField size (address_behind_by begin extent) }
    ensures { result ≡ address_behind_by begin extent }
{
    match begin {
        Address::Constant(number) => Address::Constant(number + extent),
        Address::Symbol { symbol, addend } => Address::Symbol {
            symbol,
            addend: behind_addend(addend, extent),
        },
    }
}

// An addend and a distance.
fn behind_addend(addend: i64, extent: u64) -> i64
    requires { FitsSigned w64 (addend +ℤ pos extent) }
    ensures { result ≡ addend +ℤ pos extent }
{
    addend.checked_add_unsigned(extent).unwrap_or(0)
}
