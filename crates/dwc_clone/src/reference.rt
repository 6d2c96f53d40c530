//! The entries of the output that references go to.
ghost use Rattle.std.specs.Prelude.{◌≡◌, option_map};
ghost use Rattle.dwc_read.specs.ValuesSeen.{value_view};
ghost use Rattle.dwc_source.specs.OutputPlaces.{place_pair};
ghost use Rattle.dwc_source.specs.MadeValues.{target_place};

use dwc_kept::named_offset;
use dwc_read::AttributeValue;
use dwc_source::{CloneSource, OutputPlace};

/// Where the entry stands in the output that a reference goes to; None where no entry begins there, or it is not in the output.
pub(crate) fn target_place(
    source: &CloneSource<'_, '_>,
    value: AttributeValue<'_>,
) -> Option<OutputPlace>
    ensures { option_map place_pair result ≡ target_place source.now (value_view value.entry) }
{
    let offset = named_offset(source.unit.offset(), source.unit.end(), value)?;
    source.places.find(offset)
}
