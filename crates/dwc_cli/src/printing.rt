//! The printed text of sections.
ghost use Rattle.std.specs.Prelude.{◌≡◌, ◌+◌, ◌≤◌, ◌∷◌, ◌++◌, [], map, length, take, drop, codes, Some, IfOk, OnOk, OnErr};
ghost use Rattle.std.specs.List.{flat_map};
ghost use Rattle.std.specs.Fmt.{decimal, signed_decimal};
ghost use Rattle.hex.specs.Hex.{encode_lower};
ghost use Rattle.dwc_base.specs.Outputs.{relocation_view, section_view};
ghost use Rattle.dwc_cli.specs.Calls.{passing_of, EndsAtFailure};
ghost use Rattle.dwc_cli.specs.Devices.{HasCause, Accepts};
ghost use Rattle.dwc_cli.specs.RunStatus.{Appended};
ghost use Rattle.dwc_cli.specs.Edge.{AppendsFront, Prints};
ghost use Rattle.dwc_cli.specs.Printed.{printed, space, line_feed, printed_section, printed_relocation, IsTextOfOne};

use crate::asked::Asked;
use crate::backward::{
    LINE, NAME, ROOM, begin_line, end_line, end_section_line, name_before, number_before,
    text_from, word_before,
};
use crate::page::{PAGE, Page};
use crate::sink::{Sink, write_all};
use crate::source::Failed;
use dwc_base::{DwarfSection, DwarfSectionReloc, DwarfSectionRelocTarget};
use std::alloc::{AllocError, Global};

// How many bytes are turned into digits at a time.
const PIECE: usize = 4096;

// Writes what a page holds.
#[inline(never)]
fn flush<K: Sink>(sink: &mut K, page: &mut Page) -> Result<(), Failed>
    ensures text { Prints (K.written sink.old) page.old (K.written sink.new) page.new [] result }
    ensures empty { OnOk result (page.new ≡ []) }
    ensures cause { HasCause (K.faults sink.old) (K.faults sink.new) result }
    ensures ends { EndsAtFailure (K.asked sink.old) (K.asked sink.new) result }
{
    write_all(sink, page.text())?;
    page.clear();
    Ok(())
}

// Makes room for so many bytes.
#[inline]
fn make_room<K: Sink>(sink: &mut K, page: &mut Page, size: usize) -> Result<(), Failed>
    requires { size ≤ 65536 }
    ensures text { Prints (K.written sink.old) page.old (K.written sink.new) page.new [] result }
    ensures room { OnOk result (length page.new + size ≤ 65536) }
    ensures cause { HasCause (K.faults sink.old) (K.faults sink.new) result }
    ensures ends { EndsAtFailure (K.asked sink.old) (K.asked sink.new) result }
{
    if page.room() < size {
        return flush(sink, page);
    }
    Ok(())
}

#[inline]
fn print_bytes<K: Sink>(sink: &mut K, page: &mut Page, bytes: &[u8]) -> Result<(), Failed>
    ensures text { Prints (K.written sink.old) page.old (K.written sink.new) page.new bytes.now result }
    ensures cause { HasCause (K.faults sink.old) (K.faults sink.new) result }
    ensures ends { EndsAtFailure (K.asked sink.old) (K.asked sink.new) result }
{
    if bytes.len() > PAGE {
        return print_long(sink, page, bytes);
    }
    make_room(sink, page, bytes.len())?;
    page.push(bytes);
    Ok(())
}

// Prints what no page has room for.
#[inline(never)]
fn print_long<K: Sink>(sink: &mut K, page: &mut Page, bytes: &[u8]) -> Result<(), Failed>
    ensures text { Prints (K.written sink.old) page.old (K.written sink.new) page.new bytes.now result }
    ensures cause { HasCause (K.faults sink.old) (K.faults sink.new) result }
    ensures ends { EndsAtFailure (K.asked sink.old) (K.asked sink.new) result }
{
    flush(sink, page)?;
    write_all(sink, bytes)
}

// Prints a line with a name between two parts.
fn print_named<K: Sink>(
    sink: &mut K,
    page: &mut Page,
    head: &[u8],
    name: &str,
    tail: &[u8],
) -> Result<(), Failed>
    ensures text { Prints (K.written sink.old) page.old (K.written sink.new) page.new (head.now ++ (name.now ++ tail.now)) result }
    ensures cause { HasCause (K.faults sink.old) (K.faults sink.new) result }
    ensures ends { EndsAtFailure (K.asked sink.old) (K.asked sink.new) result }
{
    print_bytes(sink, page, head)?;
    print_bytes(sink, page, name.as_bytes())?;
    print_bytes(sink, page, tail)
}

// Prints some bytes in lower-case hexadecimal.
fn print_hex<K: Sink>(sink: &mut K, page: &mut Page, bytes: &[u8]) -> Result<(), Failed>
    ensures text { Prints (K.written sink.old) page.old (K.written sink.new) page.new (encode_lower bytes.now) result }
    ensures cause { HasCause (K.faults sink.old) (K.faults sink.new) result }
    ensures ends { EndsAtFailure (K.asked sink.old) (K.asked sink.new) result }
{
    let mut rest = bytes;
    while !rest.is_empty() {
        let (piece, later) = rest.split_at(rest.len().min(PIECE));
        make_room(sink, page, 2 * piece.len())?;
        page.push_hex(piece);
        rest = later;
    }
    Ok(())
}

// Prints the line that starts at a place of `line`.
#[inline(always)]
fn print_line<K: Sink>(
    sink: &mut K,
    page: &mut Page,
    line: &[u8; ROOM],
    start: usize,
) -> Result<(), Failed>
    requires { start ≤ 64 }
    ensures text { Prints (K.written sink.old) page.old (K.written sink.new) page.new (drop start (take 64 line.now)) result }
    ensures cause { HasCause (K.faults sink.old) (K.faults sink.new) result }
    ensures ends { EndsAtFailure (K.asked sink.old) (K.asked sink.new) result }
{
    make_room(sink, page, LINE)?;
    page.push_line(line, start);
    Ok(())
}

// Prints the line of a relocation that refers to a function. It is made in `line`.
#[inline]
fn print_to_function<K: Sink>(
    sink: &mut K,
    page: &mut Page,
    reloc: &DwarfSectionReloc,
    number: usize,
    line: &mut [u8; ROOM],
) -> Result<(), Failed>
    ensures text { Prints (K.written sink.old) page.old (K.written sink.new) page.new (codes "reloc " ++ decimal reloc.now.offset ++ space ++ decimal reloc.now.size ++ space ++ (codes "func " ++ decimal number) ++ space ++ signed_decimal reloc.now.addend ++ line_feed) result }
    ensures cause { HasCause (K.faults sink.old) (K.faults sink.new) result }
    ensures ends { EndsAtFailure (K.asked sink.old) (K.asked sink.new) result }
{
    let tail = end_line(reloc.addend, line);
    let target = number_before(number as u64, line, tail);
    let kind = word_before(b"func ", line, target);
    let start = begin_line(reloc, line, kind);
    print_line(sink, page, line, start)
}

// Prints the line of a relocation that refers to a section. It is made in `line`.
#[inline]
fn print_to_section<K: Sink>(
    sink: &mut K,
    page: &mut Page,
    reloc: &DwarfSectionReloc,
    name: &str,
    line: &mut [u8; ROOM],
) -> Result<(), Failed>
    ensures text { Prints (K.written sink.old) page.old (K.written sink.new) page.new (codes "reloc " ++ decimal reloc.now.offset ++ space ++ decimal reloc.now.size ++ space ++ (codes "section " ++ name.now) ++ space ++ signed_decimal reloc.now.addend ++ line_feed) result }
    ensures cause { HasCause (K.faults sink.old) (K.faults sink.new) result }
    ensures ends { EndsAtFailure (K.asked sink.old) (K.asked sink.new) result }
{
    if name.len() > NAME {
        return print_in_pieces(sink, page, reloc, name);
    }
    let tail = end_line(reloc.addend, line);
    let target = name_before(name.as_bytes(), line, tail);
    let kind = word_before(b"section ", line, target);
    let start = begin_line(reloc, line, kind);
    print_line(sink, page, line, start)
}

// Prints the line of a relocation that refers to a section, whose name a line may have no room for.
#[inline(never)]
fn print_in_pieces<K: Sink>(
    sink: &mut K,
    page: &mut Page,
    reloc: &DwarfSectionReloc,
    name: &str,
) -> Result<(), Failed>
    ensures text { Prints (K.written sink.old) page.old (K.written sink.new) page.new (codes "reloc " ++ decimal reloc.now.offset ++ space ++ decimal reloc.now.size ++ space ++ (codes "section " ++ name.now) ++ space ++ signed_decimal reloc.now.addend ++ line_feed) result }
    ensures cause { HasCause (K.faults sink.old) (K.faults sink.new) result }
    ensures ends { EndsAtFailure (K.asked sink.old) (K.asked sink.new) result }
{
    let mut line = [0; ROOM];
    let tail = end_line(reloc.addend, &mut line);
    let mut head = [0; ROOM];
    let kind = word_before(b"section ", &mut head, LINE);
    let start = begin_line(reloc, &mut head, kind);
    let front = text_from(&head, start);
    let back = text_from(&line, tail);
    print_named(sink, page, front, name, back)
}

// Prints the line of a relocation. It is made in `line`.
#[inline]
fn print_relocation<K: Sink>(
    sink: &mut K,
    page: &mut Page,
    reloc: &DwarfSectionReloc,
    line: &mut [u8; ROOM],
) -> Result<(), Failed>
    ensures text { Prints (K.written sink.old) page.old (K.written sink.new) page.new (printed_relocation (relocation_view reloc.now)) result }
    ensures cause { HasCause (K.faults sink.old) (K.faults sink.new) result }
    ensures ends { EndsAtFailure (K.asked sink.old) (K.asked sink.new) result }
{
    match reloc.target {
        DwarfSectionRelocTarget::Func(number) => print_to_function(sink, page, reloc, number, line),
        DwarfSectionRelocTarget::Section(name) => print_to_section(sink, page, reloc, name, line),
    }
}

fn print_relocations<K: Sink>(
    sink: &mut K,
    page: &mut Page,
    relocs: &[DwarfSectionReloc],
) -> Result<(), Failed>
    ensures text { Prints (K.written sink.old) page.old (K.written sink.new) page.new (flat_map printed_relocation (map relocation_view relocs.now)) result }
    ensures cause { HasCause (K.faults sink.old) (K.faults sink.new) result }
    ensures ends { EndsAtFailure (K.asked sink.old) (K.asked sink.new) result }
{
    let mut line = [0; ROOM];
    for reloc in relocs {
        print_relocation(sink, page, reloc, &mut line)?;
    }
    Ok(())
}

// Prints the line of a section and its body.
fn print_body<K: Sink>(sink: &mut K, page: &mut Page, name: &str, body: &[u8]) -> Result<(), Failed>
    ensures text { Prints (K.written sink.old) page.old (K.written sink.new) page.new (codes "section " ++ (name.now ++ (space ++ (decimal (length body.now) ++ (line_feed ++ (encode_lower body.now ++ line_feed)))))) result }
    ensures cause { HasCause (K.faults sink.old) (K.faults sink.new) result }
    ensures ends { EndsAtFailure (K.asked sink.old) (K.asked sink.new) result }
{
    let mut line = [0; ROOM];
    let end = end_section_line(body.len(), &mut line);
    print_named(sink, page, b"section ", name, text_from(&line, end))?;
    print_hex(sink, page, body)?;
    print_bytes(sink, page, b"\n")
}

fn print_section<K: Sink>(
    sink: &mut K,
    page: &mut Page,
    section: &DwarfSection,
) -> Result<(), Failed>
    ensures text { Prints (K.written sink.old) page.old (K.written sink.new) page.new (printed_section (section_view section.now)) result }
    ensures cause { HasCause (K.faults sink.old) (K.faults sink.new) result }
    ensures ends { EndsAtFailure (K.asked sink.old) (K.asked sink.new) result }
{
    print_body(sink, page, section.name, &section.body)?;
    print_relocations(sink, page, &section.relocs)
}

fn print_each<K: Sink>(
    sink: &mut K,
    page: &mut Page,
    sections: &[DwarfSection],
) -> Result<(), Failed>
    ensures text { Prints (K.written sink.old) page.old (K.written sink.new) page.new (flat_map printed_section (map section_view sections.now)) result }
    ensures cause { HasCause (K.faults sink.old) (K.faults sink.new) result }
    ensures ends { EndsAtFailure (K.asked sink.old) (K.asked sink.new) result }
{
    for section in sections {
        print_section(sink, page, section)?;
    }
    Ok(())
}

/// Prints some sections, one behind another: a line `section NAME LENGTH`, the body in lower-case hexadecimal on a line, and a line
/// `reloc OFFSET SIZE func N ADDEND` or `reloc OFFSET SIZE section NAME ADDEND` for each relocation. No memory is wanted. Where the sink
/// fails, a front of the text was taken.
pub(crate) fn print_sections<K: Sink>(sink: &mut K, sections: &[DwarfSection]) -> Result<(), Failed>
    ensures whole { OnOk result (Appended (K.written sink.old) (K.written sink.new) (printed (map section_view sections.now))) }
    ensures front { OnErr result (AppendsFront (K.written sink.old) (K.written sink.new) (printed (map section_view sections.now))) }
    ensures cause { HasCause (K.faults sink.old) (K.faults sink.new) result }
    ensures ends { EndsAtFailure (K.asked sink.old) (K.asked sink.new) result }
{
    let mut page = Page::new();
    print_each(sink, &mut page, sections)?;
    flush(sink, &mut page)
}

/// The printed text of some sections, one behind another: a line `section NAME LENGTH`, the body in lower-case hexadecimal
/// on a line, and a line `reloc OFFSET SIZE func N ADDEND` or `reloc OFFSET SIZE section NAME ADDEND` for each relocation.
///
/// # Errors
///
/// `AllocError` for want of memory alone.
#[tactic(auto, using(crate::proofs::PrintedLaws::is_text_of_one))]
pub fn printed(alloc: Global, sections: &[DwarfSection]) -> Result<Vec<u8>, AllocError>
    ensures text { IfOk result (λ text. text.items ≡ printed (map section_view sections.now)) }

    // Where names are words, no other sections have this text.
    ensures one_list { IfOk result (λ text. IsTextOfOne text.items (map section_view sections.now)) }
{
    joined_text(alloc, sections)
}

// The text of sections, one behind another.
fn joined_text(alloc: Global, sections: &[DwarfSection]) -> Result<Vec<u8>, AllocError>
    ensures { IfOk result (λ text. text.items ≡ printed (map section_view sections.now)) }
{
    let mut kept = KeptText {
        text: Vec::new(alloc),
        faults: 0,
        asked: Asked::new(),
    };
    match print_sections(&mut kept, sections) {
        Ok(()) => Ok(kept.text),
        Err(Failed) => Err(AllocError),
    }
}

// A sink that keeps all that it takes, and fails for want of memory.
#[derive(Drop)]
struct KeptText {
    text: Vec<u8>,
    faults: u64,
    asked: Asked,
}

impl Sink for KeptText {
    ghost written = { λ s. Some s.text.items };

    ghost faults = { λ s. s.faults };

    ghost asked = { λ s. s.asked.calls };

    fn write(&mut self, bytes: &[u8]) -> Result<usize, Failed>
        ensures bytes { Accepts (Some self.old.text.items) (Some self.new.text.items) bytes.now result }
        ensures cause { HasCause self.old.faults self.new.faults result }
        ensures asked { self.new.asked.calls ≡ passing_of result bytes.now ∷ self.old.asked.calls }
    {
        if self.text.extend_from_slice(bytes).is_err() {
            self.faults = self.faults.saturating_add(1);
            self.asked.note_failing(bytes.len());
            return Err(Failed);
        }
        self.asked.note_passing(bytes.len(), bytes);
        Ok(bytes.len())
    }
}
