//! Entries that say something of their code, as most do not. (DWARF 4 and 5, sections 2.17 and 3.3.5.)
ghost use Rattle.std.specs.Prelude.{◌≡◌, map};
ghost use Rattle.dwc_read.specs.EntriesSeen.{entry_view};
ghost use Rattle.dwc_read.specs.ValuesSeen.{attribute_view};
ghost use Rattle.dwc_extents.specs.CodeNames.{is_code_name, have_code_name};

use dwc_base::constants::{DW_AT_frame_base, DW_AT_high_pc, DW_AT_low_pc, DW_AT_ranges};
use dwc_read::{AttributeValue, Entry};

// Whether an attribute of a name bounds its entry's code, or is its frame base.
fn is_code_name(name: u16) -> bool
    ensures { result ≡ is_code_name name }
{
    match name {
        DW_AT_low_pc | DW_AT_high_pc | DW_AT_ranges | DW_AT_frame_base => true,
        _ => false,
    }
}

// Whether one of some attributes does.
fn have_code_name(attributes: &[(u16, AttributeValue<'_>)]) -> bool
    ensures { result ≡ have_code_name (map attribute_view attributes.now) }
{
    for attribute in attributes {
        if is_code_name(attribute.0) {
            return true;
        }
    }
    false
}

/// Whether an entry has bounds of its code or a frame base.
pub fn speaks_of_code(entry: &Entry<'_>) -> bool
    ensures { result ≡ have_code_name (entry_view entry.now).attributes }
{
    have_code_name(entry.attrs())
}
