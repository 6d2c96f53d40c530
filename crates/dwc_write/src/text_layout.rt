//! Where texts stand in `.debug_str`, found before a byte is written: each text that entries name stands once, in the order of first
//! use. (DWARF 4, section 7.5.4.)
ghost use Rattle.std.specs.Prelude.{◌≡◌, ◌++◌, ◌∷◌, [], ◌<◌, ◌≤◌, OnOk, IfOk, IfErr, IsOkUnless, length, map};
ghost use Rattle.std.specs.List.{All};
ghost use Rattle.dwc_base.specs.declared.section_name.SectionName.TheVariants.{Str};
ghost use Rattle.dwc_section.specs.declared.error.WriteError.TheVariants.{OutOfMemory};
ghost use Rattle.dwc_write.specs.LayoutViews.{texts_noted};
ghost use Rattle.dwc_write.specs.TextViews.{IsTextLayout, IsTextRefusal, UsesTexts, BehindText};
ghost use Rattle.dwc_unit.specs.UsedTexts.{texts_bytes, with_numbers};
ghost use Rattle.dwc_section.specs.Writers.{Writes, most_bytes};

use crate::layout::UnitLayout;
use dwc_base::{Endian, Limit, SectionName};
use dwc_section::writer::MOST_BYTES;
use dwc_section::{WriteError, WriterRelocate};
use dwc_texts::Text;
use std::alloc::Global;

// Texts as they will stand.
#[derive(Drop)]
pub struct TextLayout {
    // the offsets of the texts of a table by their numbers, none for a text that nothing names
    pub offsets: Vec<Option<usize>>,
    // the numbers of texts in the order of first use
    pub used: Vec<usize>,
    // how many bytes they take, each with the zero that ends it
    pub length: usize,
}

/// The texts of a table that units name, as it is noted of them, before they are written. `TooLarge` is answered only where
/// `.debug_str` would have more than 2^31 - 1 bytes, and `OutOfMemory` for want of memory.
pub fn lay_out_texts(
    alloc: Global,
    layouts: &[UnitLayout],
    texts: &[Text],
) -> Result<TextLayout, WriteError>
    requires { All (λ n. n < length texts.now) (texts_noted layouts.now) }
    ensures used { IfOk result (λ l. l.used.items ≡ with_numbers [] (texts_noted layouts.now)) }
    ensures laid { IfOk result (λ l. IsTextLayout texts.now l) }
    ensures large { IfErr result (λ e. IsTextRefusal e (length (texts_bytes texts.now (with_numbers [] (texts_noted layouts.now))))) }
{
    let mut layout = TextLayout {
        offsets: vec![in alloc; None; texts.len()]?,
        used: Vec::new(alloc),
        length: 0,
    };
    for i in 0..layouts.len() {
        use_texts(&mut layout, texts, &layouts[i].notes.texts)?;
    }
    Ok(layout)
}

// Texts by their numbers, in this order.
fn use_texts(layout: &mut TextLayout, texts: &[Text], named: &[u32]) -> Result<(), WriteError>
    requires texts { IsTextLayout texts.now layout.old }
    requires known { All (λ n. n < length texts.now) named.now }
    ensures { UsesTexts texts.now layout.old layout.new result named.now }
{
    for i in 0..named.len() {
        use_text(layout, texts, named[i] as usize)?;
    }
    Ok(())
}

// A text by its number: where it is new, it stands behind the others.
fn use_text(layout: &mut TextLayout, texts: &[Text], index: usize) -> Result<(), WriteError>
    requires texts { IsTextLayout texts.now layout.old }
    requires known { index < length texts.now }
    ensures { UsesTexts texts.now layout.old layout.new result (index ∷ []) }
{
    if layout.offsets[index].is_some() {
        return Ok(());
    }
    let behind = behind_text(SectionName::Str, layout.length, texts[index].as_bytes())?;
    layout.used.push(index)?;
    layout.offsets[index] = Some(layout.length);
    layout.length = behind;
    Ok(())
}

// The place behind a text and its zero, in a section of texts.
pub(crate) fn behind_text(
    section: SectionName,
    place: usize,
    text: &[u8],
) -> Result<usize, WriteError>
    requires { place ≤ most_bytes }
    ensures { BehindText result section place text.now }
{
    if text.len() >= MOST_BYTES - place {
        return Err(WriteError::TooLarge {
            what: Limit::Section(section),
        });
    }
    Ok(place + text.len() + 1)
}

/// The section `.debug_str` of texts that are laid out. `OutOfMemory` is answered for want of memory.
pub fn write_texts(
    alloc: Global,
    order: Endian,
    texts: &[Text],
    layout: &TextLayout,
) -> Result<WriterRelocate, WriteError>
    requires { IsTextLayout texts.now layout.now }
    ensures ok { IfOk result (λ w. w ≡ record { order = order; name = Str; body = texts_bytes texts.now layout.now.used.items; relocations = [] }) }
    ensures memory { IsOkUnless result OutOfMemory }
{
    let mut section = WriterRelocate::with_room(alloc, order, SectionName::Str, layout.length, 0)?;
    put_texts(&mut section, texts, &layout.used)?;
    Ok(section)
}

// Texts by their numbers, one behind another.
fn put_texts(section: &mut WriterRelocate, texts: &[Text], used: &[usize]) -> Result<(), WriteError>
    requires { All (λ n. n < length texts.now) used.now }
    ensures { Writes section.old section.new result (texts_bytes texts.now used.now) [] }
{
    for i in 0..used.len() {
        put_text(section, texts[used[i]].as_bytes())?;
    }
    Ok(())
}

// A text and the zero that ends it.
pub(crate) fn put_text(section: &mut WriterRelocate, text: &[u8]) -> Result<(), WriteError>
    ensures { Writes section.old section.new result (text.now ++ 0 ∷ []) [] }
{
    section.put_bytes(text)?;
    section.put_bytes(&[0])
}
