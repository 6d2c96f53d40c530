//! The names of the sections that hold DWARF.
ghost use Rattle.std.specs.Prelude.{◌≡◌};
ghost use Rattle.dwc_base.specs.Sections.{section_text};

/// A section that holds DWARF.
#[derive(Clone, Copy, Debug, PartialEq, Eq)]
pub enum SectionName {
    Abbrev,
    Addr,
    Info,
    Line,
    LineStr,
    Loc,
    Loclists,
    Ranges,
    Rnglists,
    Str,
    StrOffsets,
    CuIndex,
    Frame,
}

impl SectionName {
    /// The section's name in a file, without the suffix `.dwo`.
    pub fn text(self) -> &'static str
        ensures { result.now ≡ section_text self }
    {
        match self {
            SectionName::Abbrev => ".debug_abbrev",
            SectionName::Addr => ".debug_addr",
            SectionName::Info => ".debug_info",
            SectionName::Line => ".debug_line",
            SectionName::LineStr => ".debug_line_str",
            SectionName::Loc => ".debug_loc",
            SectionName::Loclists => ".debug_loclists",
            SectionName::Ranges => ".debug_ranges",
            SectionName::Rnglists => ".debug_rnglists",
            SectionName::Str => ".debug_str",
            SectionName::StrOffsets => ".debug_str_offsets",
            SectionName::CuIndex => ".debug_cu_index",
            SectionName::Frame => ".debug_frame",
        }
    }
}
