//! The forms by their codes. (DWARF 5, table 7.6.)
ghost use Rattle.std.specs.Prelude.{◌≡◌, option_map};
ghost use Rattle.dwc_dwarf.specs.Values.{form_of};
ghost use Rattle.dwc_dwarf.specs.LineHeaders.{is_text_form as is_of_text};
ghost use Rattle.dwc_read.specs.Forms.{form_view};

use crate::number::Size;
use dwc_base::constants::{
    DW_FORM_addr, DW_FORM_addrx, DW_FORM_addrx1, DW_FORM_addrx2, DW_FORM_addrx3, DW_FORM_addrx4,
    DW_FORM_block, DW_FORM_block1, DW_FORM_block2, DW_FORM_block4, DW_FORM_data1, DW_FORM_data2,
    DW_FORM_data4, DW_FORM_data8, DW_FORM_data16, DW_FORM_exprloc, DW_FORM_flag,
    DW_FORM_flag_present, DW_FORM_implicit_const, DW_FORM_line_strp, DW_FORM_loclistx,
    DW_FORM_ref_addr, DW_FORM_ref_sig8, DW_FORM_ref_sup4, DW_FORM_ref_sup8, DW_FORM_ref_udata,
    DW_FORM_ref1, DW_FORM_ref2, DW_FORM_ref4, DW_FORM_ref8, DW_FORM_rnglistx, DW_FORM_sdata,
    DW_FORM_sec_offset, DW_FORM_string, DW_FORM_strp, DW_FORM_strp_sup, DW_FORM_strx,
    DW_FORM_strx1, DW_FORM_strx2, DW_FORM_strx3, DW_FORM_strx4, DW_FORM_udata,
};

// What a form spells.
#[derive(Clone, Copy)]
pub enum Form {
    Addr,
    IndexedAddr(Size),
    Blocks(Size),
    Exprloc,
    DataOf(Size),
    Sdata,
    Implicit,
    FlagByte,
    FlagPresent,
    Text,
    TextElsewhere(Size),
    Reference(Size),
    RefAddr,
    SecOffset,
    IndexedLocation,
    IndexedRange,
    PassedOver(usize),
    Supplementary,
}

// The form of a code, but for `indirect`.
pub fn form_named(code: u16) -> Option<Form>
    ensures { option_map form_view result ≡ form_of code }
{
    Some(match code {
        DW_FORM_addr => Form::Addr,
        DW_FORM_block2 => Form::Blocks(Size::Two),
        DW_FORM_block4 => Form::Blocks(Size::Four),
        DW_FORM_data2 => Form::DataOf(Size::Two),
        DW_FORM_data4 => Form::DataOf(Size::Four),
        DW_FORM_data8 => Form::DataOf(Size::Eight),
        DW_FORM_string => Form::Text,
        DW_FORM_block => Form::Blocks(Size::Variable),
        DW_FORM_block1 => Form::Blocks(Size::One),
        DW_FORM_data1 => Form::DataOf(Size::One),
        DW_FORM_flag => Form::FlagByte,
        DW_FORM_sdata => Form::Sdata,
        DW_FORM_strp => Form::TextElsewhere(Size::Four),
        DW_FORM_udata => Form::DataOf(Size::Variable),
        DW_FORM_ref_addr => Form::RefAddr,
        DW_FORM_ref1 => Form::Reference(Size::One),
        DW_FORM_ref2 => Form::Reference(Size::Two),
        DW_FORM_ref4 => Form::Reference(Size::Four),
        DW_FORM_ref8 => Form::Reference(Size::Eight),
        DW_FORM_ref_udata => Form::Reference(Size::Variable),
        DW_FORM_sec_offset => Form::SecOffset,
        DW_FORM_exprloc => Form::Exprloc,
        DW_FORM_flag_present => Form::FlagPresent,
        DW_FORM_strx => Form::TextElsewhere(Size::Variable),
        DW_FORM_addrx => Form::IndexedAddr(Size::Variable),
        DW_FORM_ref_sup4 => Form::Supplementary,
        DW_FORM_strp_sup => Form::Supplementary,
        DW_FORM_data16 => Form::PassedOver(16),
        DW_FORM_line_strp => Form::TextElsewhere(Size::Four),
        DW_FORM_ref_sig8 => Form::PassedOver(8),
        DW_FORM_implicit_const => Form::Implicit,
        DW_FORM_loclistx => Form::IndexedLocation,
        DW_FORM_rnglistx => Form::IndexedRange,
        DW_FORM_ref_sup8 => Form::Supplementary,
        DW_FORM_strx1 => Form::TextElsewhere(Size::One),
        DW_FORM_strx2 => Form::TextElsewhere(Size::Two),
        DW_FORM_strx3 => Form::TextElsewhere(Size::Three),
        DW_FORM_strx4 => Form::TextElsewhere(Size::Four),
        DW_FORM_addrx1 => Form::IndexedAddr(Size::One),
        DW_FORM_addrx2 => Form::IndexedAddr(Size::Two),
        DW_FORM_addrx3 => Form::IndexedAddr(Size::Three),
        DW_FORM_addrx4 => Form::IndexedAddr(Size::Four),
        _ => return None,
    })
}

/// Whether a code names a form of a text: in place, elsewhere, or in a supplementary file.
#[tactic(auto, using(crate::proofs::FormLaws::form_of_large))]
pub fn is_text_form(code: u64) -> bool
    ensures { result ≡ is_of_text (form_of code) }
{
    if code > 65535 {
        return false;
    }
    matches!(
        form_named(code as u16),
        Some(Form::Text | Form::TextElsewhere(_) | Form::Supplementary)
    )
}
