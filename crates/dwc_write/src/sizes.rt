//! How long values are, and the places behind them. (DWARF 4, sections 7.5.4 and 7.6.)
ghost use Rattle.std.specs.Prelude.{◌≡◌, ◌≤◌, IfOk, length};
ghost use Rattle.dwc_base.specs.declared.records.Endian.{Endian};
ghost use Rattle.dwc_unit.specs.GivenUnits.{constant_of};
ghost use Rattle.dwc_write.specs.LayoutViews.{Advances};
ghost use Rattle.dwc_section.specs.Spelled.{block_bytes};
ghost use Rattle.dwc_unit.specs.SpelledUnits.{written_bytes};
ghost use Rattle.dwc_section.specs.Writers.{most_bytes};

use dwc_base::constants::{
    DW_FORM_data1, DW_FORM_data2, DW_FORM_data4, DW_FORM_data8, DW_FORM_sdata,
};
use dwc_base::{Limit, SectionName};
use dwc_section::WriteError;
use dwc_section::leb_sizes::{sleb_length, uleb_length};
use dwc_section::writer::MOST_BYTES;
use std::alloc::AllocError;

// How many bytes a block has with its length.
pub fn block_size(bytes: &[u8]) -> usize
    ensures { result ≡ length (block_bytes bytes.now) }
{
    usize::from(uleb_length(bytes.len() as u64)) + bytes.len()
}

// How many bytes a constant has in its form.
pub fn constant_size(form: u16, bits: u64) -> u8
    ensures { (order : Endian) → result ≡ length (written_bytes order 8 (constant_of form bits)) }
{
    match form {
        DW_FORM_data1 => 1,
        DW_FORM_data2 => 2,
        DW_FORM_data4 => 4,
        DW_FORM_data8 => 8,
        DW_FORM_sdata => sleb_length(bits.cast_signed()),
        _ => uleb_length(bits),
    }
}

// A place that is so many bytes behind another, in `.debug_info`.
pub fn advanced(place: usize, more: usize) -> Result<usize, WriteError>
    requires { place ≤ most_bytes }
    ensures { Advances result place more }
{
    if more > MOST_BYTES - place {
        return Err(WriteError::TooLarge {
            what: Limit::Section(SectionName::Info),
        });
    }
    Ok(place + more)
}

// A number in four bytes. There is no memory for so much of anything that its number does not fit.
pub fn in_four_bytes(number: usize) -> Result<u32, AllocError>
    ensures { IfOk result (λ n. n ≡ number) }
{
    u32::try_from(number).map_err(|_| AllocError)
}
