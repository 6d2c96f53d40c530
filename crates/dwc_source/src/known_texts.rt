//! The texts of a module that were read already.
ghost use Rattle.std.specs.Prelude.{◌≡◌, ℕ, List, IfSome, option_and_then};
ghost use Rattle.dwc_base.specs.Sections.{Sections};
ghost use Rattle.dwc_read.specs.TextPlaces.{text_at_place};
ghost use Rattle.dwc_source.specs.KnownTexts.{IsKnown, KnowsTexts, noted};

use crate::noted_offsets::NotedOffsets;
use dwc_base::SectionName;
use dwc_read::TextPlace;
use dwc_unit::StringId;
use std::alloc::{AllocError, Global};

/// The texts of a module that were read already, by the offset where each stands in `.debug_str` or `.debug_line_str`, with its number in
/// the table of texts, if it was added there. So a text is read once, however many entries name it.
#[derive(Drop)]
pub struct KnownTexts {
    strings: NotedOffsets,
    line_strings: NotedOffsets,
}

impl KnownTexts {
    /// No texts yet.
    pub fn new(alloc: Global) -> KnownTexts
        ensures { (s : Sections) (texts : List (List ℕ)) → KnowsTexts s texts result }
    {
        KnownTexts {
            strings: NotedOffsets::new(alloc),
            line_strings: NotedOffsets::new(alloc),
        }
    }

    /// What is known of the text at a place that was read: its number, if it was added to the table. None for a text in place.
    pub fn find(&self, place: Option<TextPlace>) -> Option<Option<StringId>>
        ensures { result ≡ option_and_then (noted self.now) place }
    {
        let place = place?;
        match place.section {
            SectionName::Str => self.strings.find(place.offset),
            SectionName::LineStr => self.line_strings.find(place.offset),
            _ => None,
        }
    }

    /// Notes that the text at a place was read, and its number, if it was added to the table. A text in place is not noted.
    ///
    /// # Errors
    /// `AllocError` for want of memory.
    pub fn note(&mut self, place: Option<TextPlace>, id: Option<StringId>) -> Result<(), AllocError>
        ensures { (s : Sections) (texts : List (List ℕ)) → KnowsTexts s texts self.old → IfSome place (λ p. IsKnown texts (text_at_place s p) id) → KnowsTexts s texts self.new }
    {
        let Some(place) = place else {
            return Ok(());
        };
        match place.section {
            SectionName::Str => self.strings.note(place.offset, id),
            SectionName::LineStr => self.line_strings.note(place.offset, id),
            _ => Ok(()),
        }
    }
}
