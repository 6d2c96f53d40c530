//! Lines of the printed text, which are made from their ends to their fronts, as the digits of a number are.
ghost use Rattle.std.specs.Prelude.{◌≡◌, ◌+◌, ◌≤◌, ◌++◌, length, take, drop, codes};
ghost use Rattle.std.specs.Fmt.{decimal, signed_decimal};
ghost use Rattle.dwc_cli.specs.Printed.{space, line_feed};

use dwc_base::DwarfSectionReloc;
use itoa::write_digits;

/// No line of a relocation is longer, unless it has a name of more than `NAME` bytes.
pub(crate) const LINE: usize = 64;

/// How long the name of a section is at most that a line has room for.
pub(crate) const NAME: usize = 18;

/// A line ends at `LINE`. Behind it as much stands again, so that from wherever it starts, `LINE` bytes can be taken.
pub(crate) const ROOM: usize = 2 * LINE;

// Names of this many bytes to twice as many, as most are, are moved as two pieces of this size, which may overlap.
const PIECE: usize = 8;

// Puts a word in front of the place `end`, byte by byte: of a word that is known this is one store or two. Answers where it starts.
#[inline(always)]
pub(crate) fn word_before(word: &[u8], line: &mut [u8; ROOM], end: usize) -> usize
    requires { (length word.now ≤ end) × (end ≤ 64) }
    ensures start { result + length word.now ≡ end }
    ensures text { drop result line.new ≡ word.now ++ drop end line.old }
{
    let start = end - word.len();
    let mut left = word.len();
    while left > 0 {
        left -= 1;
        line[start + left] = word[left];
    }
    start
}

// Puts the name of a section in front of the place `end`. Answers where it starts.
#[inline]
pub(crate) fn name_before(name: &[u8], line: &mut [u8; ROOM], end: usize) -> usize
    requires { (length name.now ≤ end) × (end ≤ 64) }
    ensures start { result + length name.now ≡ end }
    ensures text { drop result line.new ≡ name.now ++ drop end line.old }
{
    let start = end - name.len();
    if name.len() < PIECE || name.len() > 2 * PIECE {
        line[start..end].copy_from_slice(name);
        return start;
    }
    line[end - PIECE..end].copy_from_slice(&name[name.len() - PIECE..]);
    line[start..start + PIECE].copy_from_slice(&name[..PIECE]);
    start
}

// Puts a number in front of the place `end`. Answers where it starts.
#[inline]
pub(crate) fn number_before(number: u64, line: &mut [u8; ROOM], end: usize) -> usize
    requires { (20 ≤ end) × (end ≤ 64) }
    ensures start { (end ≤ result + 20) × (result ≤ end) }
    ensures text { drop result line.new ≡ decimal number ++ drop end line.old }
{
    write_digits(number, line, end)
}

// Puts a number of 32 bits in front of the place `end`. Answers where it starts.
#[inline]
fn short_before(number: u32, line: &mut [u8; ROOM], end: usize) -> usize
    requires { (10 ≤ end) × (end ≤ 64) }
    ensures start { (end ≤ result + 10) × (result ≤ end) }
    ensures text { drop result line.new ≡ decimal number ++ drop end line.old }
{
    write_digits(u64::from(number), line, end)
}

// Puts the size of a field in front of the place `end`: mostly it is one digit. Answers where it starts.
#[inline]
fn size_before(size: u8, line: &mut [u8; ROOM], end: usize) -> usize
    requires { (3 ≤ end) × (end ≤ 64) }
    ensures start { (end ≤ result + 3) × (result ≤ end) }
    ensures text { drop result line.new ≡ decimal size ++ drop end line.old }
{
    if size < 10 {
        line[end - 1] = b'0' + size;
        return end - 1;
    }
    write_digits(u64::from(size), line, end)
}

// Puts a number with its sign in front of the place `end`. Answers where it starts.
#[inline]
fn signed_before(number: i32, line: &mut [u8; ROOM], end: usize) -> usize
    requires { (11 ≤ end) × (end ≤ 64) }
    ensures start { (end ≤ result + 11) × (result ≤ end) }
    ensures text { drop result line.new ≡ signed_decimal number ++ drop end line.old }
{
    let start = short_before(number.unsigned_abs(), line, end);
    if number >= 0 {
        return start;
    }
    line[start - 1] = b'-';
    start - 1
}

/// Ends the line of a section with the length of its body. Answers where that starts.
pub(crate) fn end_section_line(body_length: usize, line: &mut [u8; ROOM]) -> usize
    ensures start { result ≤ 64 }
    ensures text { drop result line.new ≡ space ++ (decimal body_length ++ (line_feed ++ drop 64 line.old)) }
{
    line[LINE - 1] = b'\n';
    let end = number_before(body_length as u64, line, LINE - 1);
    word_before(b" ", line, end)
}

/// Ends the line of a relocation with its addend. Answers where that starts.
#[inline]
pub(crate) fn end_line(addend: i32, line: &mut [u8; ROOM]) -> usize
    ensures start { (51 ≤ result) × (result ≤ 64) }
    ensures text { drop result line.new ≡ space ++ (signed_decimal addend ++ (line_feed ++ drop 64 line.old)) }
{
    line[LINE - 1] = b'\n';
    let end = signed_before(addend, line, LINE - 1);
    word_before(b" ", line, end)
}

/// Begins the line of a relocation, up to the place `end`, where its target starts. Answers where the line starts.
#[inline(always)]
pub(crate) fn begin_line(reloc: &DwarfSectionReloc, line: &mut [u8; ROOM], end: usize) -> usize
    requires { (21 ≤ end) × (end ≤ 64) }
    ensures start { result ≤ 64 }
    ensures text { drop result line.new ≡ codes "reloc " ++ decimal reloc.now.offset ++ space ++ decimal reloc.now.size ++ space ++ drop end line.old }
{
    let end = word_before(b" ", line, end);
    let end = size_before(reloc.size, line, end);
    let end = word_before(b" ", line, end);
    let end = short_before(reloc.offset, line, end);
    word_before(b"reloc ", line, end)
}

/// What stands in a line from a place on, up to its end.
#[inline]
pub(crate) fn text_from(line: &[u8; ROOM], start: usize) -> &[u8]
    requires { start ≤ 64 }
    ensures { result.now ≡ drop start (take 64 line.now) }
{
    &line[start..LINE]
}
