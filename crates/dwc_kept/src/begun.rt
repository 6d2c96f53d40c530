//! The functions that subprograms begin in. (DWARF 4 and 5, section 2.17.)
ghost use Rattle.std.specs.Prelude.{◌≡◌, ℕ, option_map, option_and_then, IfSome, IsSome};
ghost use Rattle.dwc_dwarf.specs.Lists.{list_source};
ghost use Rattle.dwc_rules.specs.RangeAttributes.{address_said, begin_of, begun_function, listed_intervals};
ghost use Rattle.dwc_base.specs.Listing.{first_of};
ghost use Rattle.dwc_addr.specs.Transforms.{function_view};
ghost use Rattle.dwc_read.specs.EntriesSeen.{entry_view};

use dwc_addr::{AddressTransform, FunctionMap};
use dwc_base::Address;
use dwc_base::constants::{DW_AT_low_pc, DW_AT_ranges, DW_TAG_subprogram};
use dwc_read::{Entry, Unit};
use dwc_tabs::{Ranges, is_range_list};

/// The address that the first attribute of a name says, in place or by an index. None where there is no such attribute, or it is no address
/// or one that cannot be read.
pub fn address_said(unit: &Unit<'_>, entry: &Entry<'_>, name: u16) -> Option<Address>
    ensures { result ≡ address_said (list_source unit.now.sections unit.now.header) name (entry_view entry.now) }
{
    let Some(value) = entry.attr(name) else {
        return None;
    };
    match unit.address_of(&value) {
        Ok(address) => address,
        Err(_) => None,
    }
}

// Where the next interval of a list begins, if there is one.
fn first_begin(list: &mut Ranges<'_, '_>) -> Option<Address>
    ensures { result ≡ option_map (λ i. i.begin) (first_of list.old.items) }
{
    match list.next_range() {
        Ok(Some((begin, _))) => Some(begin),
        Ok(None) | Err(_) => None,
    }
}

// The begin of the first interval of the range list of an entry, if it has one that can be read so far.
fn first_listed(unit: &Unit<'_>, entry: &Entry<'_>) -> Option<Address>
    ensures { result ≡ option_map (λ i. i.begin) (option_and_then first_of (listed_intervals (list_source unit.now.sections unit.now.header) (entry_view entry.now))) }
{
    let Some(ranges) = entry.attr(DW_AT_ranges) else {
        return None;
    };
    if !is_range_list(&ranges) {
        return None;
    }
    match Ranges::new(unit, ranges) {
        Ok(list) => {
            let mut list = list;
            first_begin(&mut list)
        }
        Err(_) => None,
    }
}

// The address that an entry begins at: its first `low_pc`; without one, the begin of the first interval of its range list.
fn begin_of(unit: &Unit<'_>, entry: &Entry<'_>) -> Option<Address>
    ensures { result ≡ begin_of (list_source unit.now.sections unit.now.header) (entry_view entry.now) }
{
    match address_said(unit, entry, DW_AT_low_pc) {
        Some(address) => Some(address),
        None => first_listed(unit, entry),
    }
}

/// The function with a symbol that a subprogram begins in, by its first `low_pc`, in place or by an index; without such an address, by the
/// first interval of its range list. None for other entries. What cannot be read is in no function.
#[tactic(auto, unfolding(dwc_rules::specs::RangeAttributes::begun_function))]
pub fn function_begun<'t>(
    unit: &Unit<'_>,
    entry: &Entry<'_>,
    transform: &'t AddressTransform<'t>,
) -> Option<&'t FunctionMap<'t>>
    ensures symbol { IfSome result (λ f. IsSome f.now.symbol) }
    ensures found { option_map (λ f. function_view f.now) result ≡ begun_function (list_source unit.now.sections unit.now.header) transform.now (entry_view entry.now) }
{
    if entry.tag != DW_TAG_subprogram {
        return None;
    }
    match begin_of(unit, entry) {
        Some(Address::Constant(address)) => transform.func_at(address),
        _ => None,
    }
}
