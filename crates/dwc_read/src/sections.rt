//! The sections that hold DWARF, of input and of output alike.
ghost use Rattle.std.specs.Prelude.{◌≡◌, ◌<◌, ◌^◌, length, map, option_map, All};
ghost use Rattle.dwc_base.specs.Translations.{translation_sections};
ghost use Rattle.dwc_base.specs.Outputs.{section_view, section_named, output_bytes, output_relocations as relocations_in, output_sections};
ghost use Rattle.dwc_read.specs.Named.{bytes_named, relocations_named};

use dwc_base::{DwarfSection, Endian, ModuleTranslation, Relocations, SectionName, WasmSections};
use std::marker::Model;

/// The sections that hold DWARF, by their names, with the relocations in them and the order of the bytes of a number.
/// A section that is not there is empty. No section is longer than 2^32 - 1 bytes.
#[derive(Drop)]
pub struct Sections<'d> {
    order: Endian,
    held: Held<'d>,
}

// Where the bytes of the sections are.
#[derive(Clone, Copy)]
enum Held<'d> {
    Module(WasmSections<'d>),
    Output(&'d [DwarfSection]),
}

impl<'d> Model for Sections<'d> {
    ghost use Rattle.std.specs.Prelude.{◌<◌, ◌^◌, length};
    ghost use Rattle.dwc_base.specs.Sections.{Sections as SectionsValue};
    ghost use Rattle.dwc_base.specs.declared.section_name.SectionName.{SectionName};
    ghost use Rattle.dwc_read.specs.SectionsSeen.{sections_held, sections_code};

    ghost Value = { SectionsValue };

    ghost coded = { sections_code };

    ghost view = { λ s. sections_held s.order s.held };

    ghost invariant = { λ s. (name : SectionName) → length ((sections_held s.order s.held).bytes name) < 2 ^ 32 };
}

impl<'d> Sections<'d> {
    /// The sections of a module. They have no relocations, and their numbers are little-endian.
    pub fn of_module(module: &ModuleTranslation<'d>) -> Sections<'d>
        ensures { result ≡ translation_sections «module».now }
    {
        Sections {
            order: Endian::Little,
            held: Held::Module(module.sections),
        }
    }

    /// The sections of an output. Of two of one name the first counts, and so does the first of two function relocations of
    /// one place and size.
    pub fn of_output(sections: &'d [DwarfSection], order: Endian) -> Sections<'d>
        requires { All (λ s. length s.body.items < 2 ^ 32) sections.now }
        ensures { result ≡ output_sections order (map section_view sections.now) }
    {
        Sections {
            order,
            held: Held::Output(sections),
        }
    }

    /// The same sections once more.
    pub fn again(&self) -> Sections<'d>
        ensures { result ≡ self.now }
    {
        Sections {
            order: self.order,
            held: self.held,
        }
    }

    /// The order of the bytes of a number.
    pub fn order(&self) -> Endian
        ensures { result ≡ self.now.order }
    {
        self.order
    }

    /// The bytes of a section.
    pub fn bytes(&self, name: SectionName) -> &'d [u8]
        ensures bytes { result.now ≡ self.now.bytes name }
        ensures length { length result.now < 2 ^ 32 }
        ensures below { All (λ b. b < 256) (self.now.bytes name) }
    {
        match self.held {
            Held::Module(sections) => all_below_256(sections.get(name)),
            Held::Output(sections) => all_below_256(output_body(sections, name)),
        }
    }

    /// The function relocations in a section. Input has none.
    pub fn relocations(&self, name: SectionName) -> Relocations<'d>
        ensures { result ≡ self.now.relocations name }
    {
        match self.held {
            Held::Module(_) => Relocations::none(),
            Held::Output(sections) => output_relocations(sections, name),
        }
    }
}

// The same bytes. That each is below 256 is known of what a call is given.
fn all_below_256(bytes: &[u8]) -> &[u8]
    ensures same { result.now ≡ bytes.now }
    ensures below { All (λ b. b < 256) bytes.now }
{
    bytes
}

// The bytes of a section of an output: none of the frames, which are not read.
fn output_body<'d>(sections: &'d [DwarfSection], name: SectionName) -> &'d [u8]
    ensures { result.now ≡ output_bytes (map section_view sections.now) name }
{
    match name {
        SectionName::Frame => &[],
        _ => body_of(sections, name.text()),
    }
}

// The same of its function relocations.
fn output_relocations<'d>(sections: &'d [DwarfSection], name: SectionName) -> Relocations<'d>
    ensures { result ≡ relocations_in (map section_view sections.now) name }
{
    match name {
        SectionName::Frame => Relocations::none(),
        _ => relocations_of(sections, name.text()),
    }
}

// The first section of a name.
fn section_of<'d>(sections: &'d [DwarfSection], name: &str) -> Option<&'d DwarfSection>
    ensures { option_map (λ s. section_view s.now) result ≡ section_named name.now (map section_view sections.now) }
{
    for section in sections {
        if section.name == name {
            return Some(section);
        }
    }
    None
}

// The bytes of the first section of a name.
fn body_of<'d>(sections: &'d [DwarfSection], name: &str) -> &'d [u8]
    ensures { result.now ≡ bytes_named name.now (map section_view sections.now) }
{
    match section_of(sections, name) {
        Some(section) => section.body.as_slice(),
        None => &[],
    }
}

// The function relocations of the first section of a name.
fn relocations_of<'d>(sections: &'d [DwarfSection], name: &str) -> Relocations<'d>
    ensures { result ≡ relocations_named name.now (map section_view sections.now) }
{
    match section_of(sections, name) {
        Some(section) => Relocations::new(section.relocs.as_slice()),
        None => Relocations::none(),
    }
}
