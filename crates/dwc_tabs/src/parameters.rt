//! What the instructions of a line program depend on.
ghost use Rattle.std.specs.Prelude.{◌≡◌, ◌-◌, ◌<◌, IsTrue, length};
ghost use Rattle.dwc_base.specs.FieldSizes.{is_field_size};

/// The fields of a header that the instructions depend on.
#[derive(Clone, Copy)]
pub struct Parameters<'d> {
    pub version: u16,
    pub address_size: u8,
    pub minimum_instruction_length: u8,
    pub default_is_stmt: bool,
    pub line_base: i8,
    pub line_range: u8,
    pub opcode_base: u8,
    /// How many numbers stand behind each standard opcode, from 1 on.
    pub standard_opcode_lengths: &'d [u8],
    ghost sized: { IsTrue (is_field_size address_size) },
    ghost divides: { 0 < line_range },
    ghost counted: { length standard_opcode_lengths.now ≡ opcode_base - 1 },
}
