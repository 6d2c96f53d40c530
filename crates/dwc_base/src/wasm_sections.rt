//! The sections of DWARF in a WebAssembly file, by name.
ghost use Rattle.std.specs.Prelude.{◌≡◌, ◌<◌, ◌^◌, [], length};
ghost use Rattle.dwc_base.specs.declared.section_name.SectionName.{SectionName};
ghost use Rattle.std.specs.List.{find};
ghost use Rattle.std.specs.Str.{bytes_eq};
ghost use Rattle.dwc_base.specs.Sections.{section_text};
ghost use Rattle.dwc_base.specs.Translations.{section_bytes, with_section, titled_bytes, split_bytes, section_titled};

use crate::SectionName;
use crate::section_bytes::SectionBytes;

// What the titles of sections of split units end in.
const SPLIT_SUFFIX: &[u8] = b".dwo";

// The sections of an input: all but the frames.
const INPUT_SECTIONS: [SectionName; 12] = [
    SectionName::Abbrev,
    SectionName::Addr,
    SectionName::Info,
    SectionName::Line,
    SectionName::LineStr,
    SectionName::Loc,
    SectionName::Loclists,
    SectionName::Ranges,
    SectionName::Rnglists,
    SectionName::Str,
    SectionName::StrOffsets,
    SectionName::CuIndex,
];

/// The bytes of each section of DWARF, lent; empty where there is none. No section is longer than 2^32 - 1 bytes.
#[derive(Clone, Copy, Drop)]
pub struct WasmSections<'d> {
    abbrev: SectionBytes<'d>,
    addr: SectionBytes<'d>,
    info: SectionBytes<'d>,
    line: SectionBytes<'d>,
    line_str: SectionBytes<'d>,
    loc: SectionBytes<'d>,
    loclists: SectionBytes<'d>,
    ranges: SectionBytes<'d>,
    rnglists: SectionBytes<'d>,
    str: SectionBytes<'d>,
    str_offsets: SectionBytes<'d>,
    cu_index: SectionBytes<'d>,
}

impl<'d> WasmSections<'d> {
    /// No section at all.
    pub fn none() -> WasmSections<'d>
        ensures { (name : SectionName) → section_bytes result name ≡ [] }
    {
        let none = SectionBytes { bytes: &[] };
        WasmSections {
            abbrev: none,
            addr: none,
            info: none,
            line: none,
            line_str: none,
            loc: none,
            loclists: none,
            ranges: none,
            rnglists: none,
            str: none,
            str_offsets: none,
            cu_index: none,
        }
    }

    /// The bytes of a section; empty where there is none, and for `SectionName::Frame`, which is no input.
    pub fn get(&self, name: SectionName) -> &'d [u8]
        ensures bytes { result.now ≡ section_bytes self.now name }
        ensures short { length result.now < 2 ^ 32 }
    {
        match name {
            SectionName::Abbrev => self.abbrev.bytes,
            SectionName::Addr => self.addr.bytes,
            SectionName::Info => self.info.bytes,
            SectionName::Line => self.line.bytes,
            SectionName::LineStr => self.line_str.bytes,
            SectionName::Loc => self.loc.bytes,
            SectionName::Loclists => self.loclists.bytes,
            SectionName::Ranges => self.ranges.bytes,
            SectionName::Rnglists => self.rnglists.bytes,
            SectionName::Str => self.str.bytes,
            SectionName::StrOffsets => self.str_offsets.bytes,
            SectionName::CuIndex => self.cu_index.bytes,
            SectionName::Frame => &[],
        }
    }

    /// Takes note of a custom section: of two with one title the later counts.
    pub fn note(&mut self, title: &[u8], contents: &'d [u8])
        requires { length contents.now < 2 ^ 32 }
        ensures { (name : SectionName) → section_bytes self.new name ≡ titled_bytes name title.now contents.now (section_bytes self.old name) }
    {
        if let Some(name) = section_titled(title) {
            self.set(name, SectionBytes { bytes: contents });
        }
    }

    /// Takes note of a custom section as one of split units, whose titles have the suffix `.dwo`: likewise. (DWARF 5, section 7.3.2.2.)
    pub fn note_split(&mut self, title: &[u8], contents: &'d [u8])
        requires { length contents.now < 2 ^ 32 }
        ensures { (name : SectionName) → section_bytes self.new name ≡ split_bytes name title.now contents.now (section_bytes self.old name) }
    {
        if let Some(front) = title.strip_suffix(SPLIT_SUFFIX) {
            self.note(front, contents);
        }
    }

    // Puts other bytes into a section.
    fn set(&mut self, name: SectionName, bytes: SectionBytes<'d>)
        ensures { self.new ≡ with_section self.old name bytes.entry }
    {
        match name {
            SectionName::Abbrev => self.abbrev = bytes,
            SectionName::Addr => self.addr = bytes,
            SectionName::Info => self.info = bytes,
            SectionName::Line => self.line = bytes,
            SectionName::LineStr => self.line_str = bytes,
            SectionName::Loc => self.loc = bytes,
            SectionName::Loclists => self.loclists = bytes,
            SectionName::Ranges => self.ranges = bytes,
            SectionName::Rnglists => self.rnglists = bytes,
            SectionName::Str => self.str = bytes,
            SectionName::StrOffsets => self.str_offsets = bytes,
            SectionName::CuIndex => self.cu_index = bytes,
            SectionName::Frame => {}
        }
    }
}

// The section of an input that has a title, if there is one.
fn section_titled(title: &[u8]) -> Option<SectionName>
    ensures { result ≡ section_titled title.now }
{
    find_titled(&INPUT_SECTIONS, title)
}

// The first of some sections that has a title.
fn find_titled(names: &[SectionName], title: &[u8]) -> Option<SectionName>
    ensures { result ≡ find (λ name. bytes_eq (section_text name) title.now) names.now }
{
    for name in names {
        if name.text().as_bytes() == title {
            return Some(*name);
        }
    }
    None
}
