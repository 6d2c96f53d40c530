//! An interval of a location list, with its expression. (DWARF 4, section 2.6.2; DWARF 5, section 2.6.2.)
ghost use Rattle.std.specs.Prelude.{◌≡◌, option_map};
ghost use Rattle.dwc_dwarf.specs.Lists.{with_expression as expression_added};
ghost use Rattle.dwc_tabs.specs.RangeEnds.{interval_view};
ghost use Rattle.dwc_tabs.specs.LocationLists.{placed_view};
ghost use Rattle.dwc_tabs.specs.Locations.{listed_view};

use crate::location_entry::PlacedExpression;
use dwc_base::{Address, SectionName};

/// An interval of a location list, with its expression.
#[derive(Clone, Copy)]
pub struct ListedLocation<'d> {
    /// The interval's begin, which is below its end.
    pub begin: Address,
    /// Its end.
    pub end: Address,
    /// The expression.
    pub bytes: &'d [u8],
    /// The section that the expression stands in.
    pub section: SectionName,
    /// The offset of its first byte there.
    pub place: u64,
}

// What an entry gives, with its expression; None where either is missing.
#[inline(always)]
pub(crate) fn with_expression<'d>(
    interval: Option<(Address, Address)>,
    holds: Option<PlacedExpression<'d>>,
) -> Option<ListedLocation<'d>>
    ensures { option_map listed_view result ≡ expression_added (option_map interval_view interval, option_map placed_view holds.entry) }
{
    let (begin, end) = interval?;
    let expression = holds?;
    Some(ListedLocation {
        begin,
        end,
        bytes: expression.bytes,
        section: expression.section,
        place: expression.place,
    })
}
