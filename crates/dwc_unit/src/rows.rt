//! The instructions of line programs, behind what a buffer holds. (DWARF 4, section 6.2.5.)
ghost use Rattle.std.specs.Prelude.{◌≡◌, ◌++◌, ◌∷◌, [], ◌==◌, ◌+◌, ◌-◌, ◌-ℤ◌, ◌<◌, ◌≤◌, ◌^◌, OnOk, not, pos, length, vec_capacity, vec_len};
ghost use Rattle.dwc_base.specs.declared.records.Endian.TheVariants.{Little};
ghost use Rattle.dwc_base.specs.NumberBytes.{uleb_bytes, sleb_bytes};
ghost use Rattle.dwc_unit.specs.GivenLines.{row_at};
ghost use Rattle.dwc_unit.specs.SpelledLines.{bytes_when, differs as differ, extended_bytes, program_bytes, row_instructions, rows_instructions};

use dwc_base::LineRow;
use dwc_base::constants::{
    DW_LNE_end_sequence, DW_LNE_set_discriminator, DW_LNS_advance_line, DW_LNS_advance_pc,
    DW_LNS_copy, DW_LNS_negate_stmt, DW_LNS_set_basic_block, DW_LNS_set_column,
    DW_LNS_set_epilogue_begin, DW_LNS_set_file, DW_LNS_set_isa, DW_LNS_set_prologue_end,
};
use dwc_section::digits::{put_digits, put_signed_digits};
use dwc_section::leb_sizes::uleb_length;
use std::alloc::AllocError;

// The most bytes of a row: a discriminator has 13, each of 4 flags one, each of 5 numbers 11, and the row itself one.
pub const WIDEST_ROW: usize = 73;

// The most bytes of the end of a sequence: a step of 10 digits behind its opcode, and the end itself.
pub const WIDEST_END: usize = 14;

// The registers before the first row of a sequence.
pub const FIRST_ROW: LineRow = LineRow {
    offset: 0,
    file: 1,
    line: 1,
    column: 0,
    is_stmt: true,
    basic_block: false,
    prologue_end: false,
    epilogue_begin: false,
    isa: 0,
    discriminator: 0,
};

// The end of a sequence, behind its last row.
pub fn put_end(out: &mut Vec<u8>, last: &LineRow, end_offset: u64) -> Result<(), AllocError>
    requires { last.now.offset ≤ end_offset }
    ensures { OnOk result (out.new.items ≡ out.old.items ++ program_bytes Little 8 (rows_instructions last.now [] end_offset)) }
{
    out.reserve(WIDEST_END)?;
    put_advance(out, last.offset, end_offset);
    out.extend_from_slice(&[0, 1, DW_LNE_end_sequence])?;
    Ok(())
}

// A row at an offset behind another, where there is room: what differs from the registers, and the row itself.
#[inline(always)]
pub fn put_row(out: &mut Vec<u8>, before: &LineRow, row: &LineRow, offset: u64)
    requires room { vec_len out.old + 73 ≤ vec_capacity out.old }
    requires before { before.now.line < 2 ^ 32 }
    requires line { row.now.line < 2 ^ 32 }
    requires offset { before.now.offset ≤ offset }
    ensures { out.new.items ≡ out.old.items ++ program_bytes Little 8 (row_instructions before.now (row_at offset row.now)) }
{
    put_discriminator(out, row.discriminator);
    put_flag(out, DW_LNS_set_basic_block, row.basic_block);
    put_flag(out, DW_LNS_set_prologue_end, row.prologue_end);
    put_flag(out, DW_LNS_set_epilogue_begin, row.epilogue_begin);
    put_flag(
        out,
        DW_LNS_negate_stmt,
        differs(before.is_stmt, row.is_stmt),
    );
    put_number(out, DW_LNS_set_file, before.file, row.file);
    put_number(out, DW_LNS_set_column, before.column, row.column);
    put_number(out, DW_LNS_set_isa, before.isa, row.isa);
    put_line(out, before.line, row.line);
    put_advance(out, before.offset, offset);
    out.push_reserved(DW_LNS_copy);
}

// An opcode, where it is wanted.
fn put_flag(out: &mut Vec<u8>, opcode: u8, wanted: bool)
    requires { vec_len out.old + 1 ≤ vec_capacity out.old }
    ensures bytes { out.new.items ≡ out.old.items ++ bytes_when wanted (opcode ∷ []) }
    ensures most { vec_len out.new ≤ vec_len out.old + 1 }
    ensures room { vec_capacity out.new ≡ vec_capacity out.old }
{
    if wanted {
        out.push_reserved(opcode);
    }
}

// An opcode and a number, where the register has another.
#[inline(always)]
fn put_number(out: &mut Vec<u8>, opcode: u8, before: u64, value: u64)
    requires { vec_len out.old + 11 ≤ vec_capacity out.old }
    ensures bytes { out.new.items ≡ out.old.items ++ bytes_when (not (before == value)) (opcode ∷ uleb_bytes value) }
    ensures most { vec_len out.new ≤ vec_len out.old + 11 }
    ensures room { vec_capacity out.new ≡ vec_capacity out.old }
{
    if before != value {
        out.push_reserved(opcode);
        put_digits(out, value);
    }
}

// The step to an offset, where it is another.
#[inline(always)]
fn put_advance(out: &mut Vec<u8>, before: u64, offset: u64)
    requires room { vec_len out.old + 11 ≤ vec_capacity out.old }
    requires behind { before ≤ offset }
    ensures bytes { out.new.items ≡ out.old.items ++ bytes_when (not (before == offset)) (2 ∷ uleb_bytes (offset - before)) }
    ensures most { vec_len out.new ≤ vec_len out.old + 11 }
    ensures room { vec_capacity out.new ≡ vec_capacity out.old }
{
    if before != offset {
        out.push_reserved(DW_LNS_advance_pc);
        put_digits(out, offset - before);
    }
}

// The step to a line, where it is another.
#[inline(always)]
fn put_line(out: &mut Vec<u8>, before: u64, line: u64)
    requires room { vec_len out.old + 11 ≤ vec_capacity out.old }
    requires before { before < 2 ^ 32 }
    requires line { line < 2 ^ 32 }
    ensures bytes { out.new.items ≡ out.old.items ++ bytes_when (not (before == line)) (3 ∷ sleb_bytes (pos line -ℤ pos before)) }
    ensures most { vec_len out.new ≤ vec_len out.old + 11 }
    ensures room { vec_capacity out.new ≡ vec_capacity out.old }
{
    if before != line {
        out.push_reserved(DW_LNS_advance_line);
        put_signed_digits(out, line_step(before, line));
    }
}

// The discriminator, where there is one.
fn put_discriminator(out: &mut Vec<u8>, discriminator: u64)
    requires { vec_len out.old + 13 ≤ vec_capacity out.old }
    ensures bytes { out.new.items ≡ out.old.items ++ bytes_when (not (discriminator == 0)) (extended_bytes 4 (uleb_bytes discriminator)) }
    ensures most { vec_len out.new ≤ vec_len out.old + 13 }
    ensures room { vec_capacity out.new ≡ vec_capacity out.old }
{
    if discriminator != 0 {
        let length = 1 + uleb_length(discriminator);
        out.push_reserved(0);
        out.push_reserved(length);
        out.push_reserved(DW_LNE_set_discriminator);
        put_digits(out, discriminator);
    }
}

// How far a line is from the one before.
fn line_step(before: u64, line: u64) -> i64
    requires before { before < 2 ^ 32 }
    requires line { line < 2 ^ 32 }
    ensures { result ≡ pos line -ℤ pos before }
{
    line as i64 - before as i64
}

// Whether a flag changes.
fn differs(before: bool, now: bool) -> bool
    ensures { result ≡ differ before now }
{
    before != now
}
