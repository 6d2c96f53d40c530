//! The texts of entries.
ghost use Rattle.std.specs.Prelude.{IfOk, ◌≡◌, ◌≢◌, ℕ, List, Err, option_map};
ghost use Rattle.dwc_unit.specs.TextTables.{IsText};
ghost use Rattle.dwc_source.specs.KnownTexts.{IsNumbered, IsReadOrFault, KnowsTexts};
ghost use Rattle.dwc_source.specs.MadeValues.{Grows};
ghost use Rattle.dwc_base.specs.declared.section_name.SectionName.TheVariants.{Info};
ghost use Rattle.dwc_base.specs.declared.faults.What.TheVariants.{Text};
ghost use Rattle.dwc_base.specs.Cursors.{slice_bytes};
ghost use Rattle.dwc_base.specs.Sections.{reported};
ghost use Rattle.dwc_dwarf.specs.Texts.{text_named};
ghost use Rattle.dwc_dwarf.specs.Indexed.{texts_of_unit};
ghost use Rattle.dwc_read.specs.Faults.{GivesOrFault};
ghost use Rattle.dwc_read.specs.TextPlaces.{text_place_named};
ghost use Rattle.dwc_read.specs.ValuesSeen.{value_view};

use crate::KnownTexts;
use dwc_read::{AttributeValue, ReadFault, TextPlace, Unit};
use dwc_section::WriteError;
use dwc_unit::{StringId, StringTable};

/// The text that a value of the entry at an offset names; None for a value that is no text.
///
/// Answers `Read` with that offset where the text cannot be read.
pub fn text_of<'d>(
    unit: &Unit<'d>,
    offset: u64,
    value: AttributeValue<'d>,
) -> Result<Option<&'d [u8]>, ReadFault>
    ensures text { GivesOrFault (option_map slice_bytes) (reported Text Info offset (text_named (texts_of_unit unit.now.sections unit.now.header) (value_view value.entry))) result }
    ensures memory { result ≢ Err ReadFault.OutOfMemory }
{
    match unit.name_of(&value) {
        Ok(text) => Ok(text),
        Err(fault) => Err(fault.at(offset)),
    }
}

/// Where the text that a value of the entry at an offset names stands elsewhere; None for a text in place, and for a value that is no
/// text.
///
/// Answers `Read` with that offset where the place cannot be read, and so the text cannot be.
pub fn text_place_of<'d>(
    unit: &Unit<'d>,
    offset: u64,
    value: AttributeValue<'d>,
) -> Result<Option<TextPlace>, ReadFault>
    ensures place { GivesOrFault (λ p. p) (reported Text Info offset (text_place_named (texts_of_unit unit.now.sections unit.now.header) (value_view value.entry))) result }
{
    match unit.text_place(&value) {
        Ok(place) => Ok(place),
        Err(fault) => Err(fault.at(offset)),
    }
}

// Reads the text that a value of the entry at an offset names, unless it is known by its place.
fn check_named<'d>(
    unit: &Unit<'d>,
    offset: u64,
    value: AttributeValue<'d>,
    known: &mut KnownTexts,
) -> Result<(), ReadFault>
    ensures text { (texts : List (List ℕ)) → KnowsTexts unit.now.sections texts known.old → IsReadOrFault (reported Text Info offset (text_named (texts_of_unit unit.now.sections unit.now.header) (value_view value.entry))) result }
    ensures known { (texts : List (List ℕ)) → KnowsTexts unit.now.sections texts known.old → KnowsTexts unit.now.sections texts known.new }
{
    let place = text_place_of(unit, offset, value)?;
    if known.find(place).is_some() {
        return Ok(());
    }
    text_of(unit, offset, value)?;
    known.note(place, None)?;
    Ok(())
}

/// Reads the text that a value of the entry at an offset names, unless it is known by its place. Most values are no texts.
///
/// Answers `Read` with that offset where the text cannot be read.
#[tactic(auto, unfolding(dwc_dwarf::specs::Texts::text_named))]
pub fn check_text<'d>(
    unit: &Unit<'d>,
    offset: u64,
    value: AttributeValue<'d>,
    known: &mut KnownTexts,
) -> Result<(), ReadFault>
    ensures text { (texts : List (List ℕ)) → KnowsTexts unit.now.sections texts known.old → IsReadOrFault (reported Text Info offset (text_named (texts_of_unit unit.now.sections unit.now.header) (value_view value.entry))) result }
    ensures known { (texts : List (List ℕ)) → KnowsTexts unit.now.sections texts known.old → KnowsTexts unit.now.sections texts known.new }
{
    match value {
        AttributeValue::Text(_) | AttributeValue::TextRef { .. } => {
            check_named(unit, offset, value, known)
        }
        _ => Ok(()),
    }
}

/// Adds a text, which has no zero byte, to the table of texts of the output, and answers its number there.
///
/// # Errors
/// `OutOfMemory` for want of memory.
pub fn add_text(strings: &mut StringTable, text: &[u8]) -> Result<StringId, WriteError>
    requires { IsText text.now }
    ensures grows { Grows strings.old strings.new }
    ensures number { IfOk result (IsNumbered strings.new text.now) }
{
    strings.add(text)
}
