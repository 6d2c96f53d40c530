//! The types of entries. (DWARF 4 and 5, chapter 5.)
ghost use Rattle.std.specs.Prelude.{◌≡◌, option_map};
ghost use Rattle.dwc_read.specs.EntriesSeen.{entry_view};
ghost use Rattle.dwc_types.specs.TypeChains.{type_found, type_view};

use dwc_base::constants::DW_AT_type;
use dwc_kept::named_offset;
use dwc_read::{AttributeValue, Entry};
use dwc_source::CloneSource;
use dwc_unit::UnitEntryId;

/// The type of an entry, an entry of the same unit: its offset in `.debug_info`, and the entry of the output that it becomes.
#[derive(Clone, Copy)]
pub struct TypeEntry {
    pub offset: u64,
    pub id: UnitEntryId,
}

/// The type of an entry; None where it is no entry of the unit.
pub fn type_of(source: &CloneSource<'_, '_>, entry: &Entry<'_>) -> Option<TypeEntry>
    ensures { option_map type_view result ≡ type_found source.now (entry_view entry.now) }
{
    let AttributeValue::UnitRef(place) = entry.attr(DW_AT_type)? else {
        return None;
    };
    let value = AttributeValue::UnitRef(place);
    let offset = named_offset(source.unit.offset(), source.unit.end(), value)?;
    let place = source.places.find(offset)?;
    Some(TypeEntry {
        offset: u64::from(offset),
        id: UnitEntryId { index: place.entry },
    })
}

/// The entry of the output that a type becomes.
pub fn type_id(named: Option<TypeEntry>) -> Option<UnitEntryId>
    ensures { result ≡ option_map (λ t. t.id) named }
{
    match named {
        Some(named) => Some(named.id),
        None => None,
    }
}
