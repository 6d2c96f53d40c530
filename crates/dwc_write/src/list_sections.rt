//! The sections of lists, by the version of their units. (DWARF 4, sections 2.17.3 and 2.6.2; DWARF 5, the same sections.)
ghost use Rattle.std.specs.Prelude.{◌≡◌};
ghost use Rattle.dwc_output.specs.FieldKinds.{section_of_locations, section_of_ranges};

use dwc_base::SectionName;

/// The section of range lists.
pub fn section_of_ranges(version: u16) -> SectionName
    ensures { result ≡ section_of_ranges version }
{
    if version < 5 {
        SectionName::Ranges
    } else {
        SectionName::Rnglists
    }
}

/// The section of location lists.
pub fn section_of_locations(version: u16) -> SectionName
    ensures { result ≡ section_of_locations version }
{
    if version < 5 {
        SectionName::Loc
    } else {
        SectionName::Loclists
    }
}
