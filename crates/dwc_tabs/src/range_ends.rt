//! The two ends of an interval of a range list. (DWARF 4, section 2.17.3; DWARF 5, section 2.17.3.)
ghost use Rattle.std.specs.Prelude.{◌≡◌, pos, ◌+ℤ◌, option_map};
ghost use Rattle.std.specs.Int.{w64, int_wrap};
ghost use Rattle.dwc_dwarf.specs.Lists.{from_base as counted_from_base, end_from_base as end_counted, plus_length as start_plus_length, is_below as is_address_below, interval_between as interval_of_ends, interval_of_length as interval_by_length};
ghost use Rattle.dwc_tabs.specs.RangeEnds.{interval_view, GivesOrRefusal};

use crate::list_fault::ListFault;
use dwc_base::Address;

// A sum modulo 2^64.
fn wrapped_sum(addend: i64, distance: u64) -> i64
    ensures { result ≡ int_wrap w64 (addend +ℤ pos distance) }
{
    addend.wrapping_add_unsigned(distance)
}

/// The address at a distance from a base, modulo 2^64.
pub fn from_base(base: Address, distance: u64) -> Address
    ensures { result ≡ counted_from_base base distance }
{
    match base {
        Address::Constant(start) => Address::Constant(start.wrapping_add(distance)),
        Address::Symbol { symbol, addend } => Address::Symbol {
            symbol,
            addend: wrapped_sum(addend, distance),
        },
    }
}

/// An end of a pair of addresses: a number counts from the base, and a function's address does not.
pub fn end_from_base(base: Address, end: Address) -> Address
    ensures { result ≡ end_counted base end }
{
    match end {
        Address::Constant(distance) => from_base(base, distance),
        Address::Symbol { .. } => end,
    }
}

/// A start plus a length; None where that is no address.
pub fn plus_length(start: Address, length: u64) -> Option<Address>
    ensures { result ≡ start_plus_length start length }
{
    match start {
        Address::Constant(number) => match number.checked_add(length) {
            Some(end) => Some(Address::Constant(end)),
            None => None,
        },
        Address::Symbol { symbol, addend } => match addend.checked_add_unsigned(length) {
            Some(addend) => Some(Address::Symbol { symbol, addend }),
            None => None,
        },
    }
}

/// Whether an address is below another: two numbers, or two addresses of one function.
pub fn is_below(begin: Address, end: Address) -> bool
    ensures { result ≡ is_address_below begin end }
{
    match begin {
        Address::Constant(a) => match end {
            Address::Constant(b) => a < b,
            Address::Symbol { .. } => false,
        },
        Address::Symbol {
            symbol: f,
            addend: a,
        } => match end {
            Address::Constant(_) => false,
            Address::Symbol {
                symbol: g,
                addend: b,
            } => f == g && a < b,
        },
    }
}

/// The interval of two ends; None where its begin is not below its end.
pub fn interval_between(begin: Address, end: Address) -> Option<(Address, Address)>
    ensures { option_map interval_view result ≡ interval_of_ends begin end }
{
    if is_below(begin, end) {
        return Some((begin, end));
    }
    None
}

/// The interval of a start and a length.
pub fn interval_of_length(
    start: Address,
    length: u64,
) -> Result<Option<(Address, Address)>, ListFault>
    ensures { GivesOrRefusal (option_map interval_view) (interval_by_length start length) result }
{
    match plus_length(start, length) {
        Some(end) => Ok(interval_between(start, end)),
        None => Err(ListFault::TooLarge),
    }
}
