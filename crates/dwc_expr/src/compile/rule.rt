//! What becomes of operations, by their codes.
ghost use Rattle.std.specs.Prelude.{◌≡◌, ◌||◌, ◌&&◌, nat_le, option_map};
ghost use Rattle.dwc_base.specs.declared.constants.TheConstants.{DW_OP_lit0, DW_OP_lit31};
ghost use Rattle.dwc_dwarf.specs.Values.{is_one_of};
ghost use Rattle.dwc_native.specs.Parts.{codes_that_stay, rule_of as rule_by_code};
ghost use Rattle.dwc_expr.specs.Rules.{rule_view};

use dwc_base::constants::{
    DW_OP_WASM_location, DW_OP_abs, DW_OP_bit_piece, DW_OP_bra, DW_OP_const1u, DW_OP_deref,
    DW_OP_deref_size, DW_OP_eq, DW_OP_fbreg, DW_OP_lit0, DW_OP_lit31, DW_OP_ne, DW_OP_nop,
    DW_OP_piece, DW_OP_rot, DW_OP_shl, DW_OP_shr, DW_OP_shra, DW_OP_skip, DW_OP_stack_value,
    DW_OP_xderef, DW_OP_xderef_size, DW_OP_xor,
};

// What becomes of an operation by its code: it loads a local, adds to the frame base, jumps, reads linear memory, shifts to the
// right, or stays as it is.
#[derive(Clone, Copy)]
pub(crate) enum Rule {
    LoadsLocal,
    AddsToFrameBase,
    Jumps { conditionally: bool },
    ReadsMemory,
    ShiftsRight,
    Stays,
}

// Whether an operation of a code stays as it is. From `DW_OP_const1u` to `DW_OP_ne` that are all but the reads of memory, the
// shifts to the right and the jumps.
fn stays(opcode: u8) -> bool
    ensures { result ≡ (is_one_of codes_that_stay opcode || (nat_le DW_OP_lit0 opcode && nat_le opcode DW_OP_lit31)) }
{
    matches!(
        opcode,
        DW_OP_const1u..=DW_OP_rot
            | DW_OP_abs..=DW_OP_shl
            | DW_OP_xor
            | DW_OP_eq..=DW_OP_ne
            | DW_OP_lit0..=DW_OP_lit31
            | DW_OP_piece
            | DW_OP_nop
            | DW_OP_bit_piece
            | DW_OP_stack_value
    )
}

// The rule of a code; None where it is not supported.
pub(crate) fn rule_of(opcode: u8) -> Option<Rule>
    ensures { option_map rule_view result ≡ rule_by_code opcode }
{
    if stays(opcode) {
        return Some(Rule::Stays);
    }
    match opcode {
        DW_OP_WASM_location => Some(Rule::LoadsLocal),
        DW_OP_fbreg => Some(Rule::AddsToFrameBase),
        DW_OP_bra => Some(Rule::Jumps {
            conditionally: true,
        }),
        DW_OP_skip => Some(Rule::Jumps {
            conditionally: false,
        }),
        DW_OP_deref => Some(Rule::ReadsMemory),
        DW_OP_deref_size => Some(Rule::ReadsMemory),
        DW_OP_xderef => Some(Rule::ReadsMemory),
        DW_OP_xderef_size => Some(Rule::ReadsMemory),
        DW_OP_shr => Some(Rule::ShiftsRight),
        DW_OP_shra => Some(Rule::ShiftsRight),
        _ => None,
    }
}
