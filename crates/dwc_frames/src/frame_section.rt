//! The section of call frames: a common information entry, and frame description entries behind it. (DWARF 4 and 5, section 6.4.1.)
ghost use Rattle.std.specs.Prelude.{◌≡◌, ◌++◌, ◌∷◌, [], ◌+◌, ◌^◌, ◌<◌, ◌≤◌, ◌⊎◌, IfOk, IfErr, OnOk, length, map, nat_abs, replicate};
ghost use Rattle.std.specs.List.{flat_map};
ghost use Rattle.dwc_base.specs.declared.constants.TheConstants.{DW_CFA_nop};
ghost use Rattle.dwc_base.specs.declared.section_name.SectionName.TheVariants.{Frame};
ghost use Rattle.dwc_output.specs.FrameSections.{address_sized, advancing_numbers, common_bytes, common_numbers, description_bytes, description_relocations, filling as nops, fixed, frame_section, one_byte, sleb, uleb};
ghost use Rattle.dwc_base.specs.NumberBytes.{number_bytes};
ghost use Rattle.dwc_base.specs.Outputs.{section_view};
ghost use Rattle.dwc_isa.specs.CallFrames.{cie_view};
ghost use Rattle.dwc_frames.specs.Frames.{Puts, PutsIn, advancing_view, description_at, entry_bytes, function_view, numbers_bytes};
ghost use Rattle.dwc_section.specs.Spelled.{at_places};
ghost use Rattle.dwc_section.specs.RisingRelocations.{DoRelocationsRise};
ghost use Rattle.dwc_section.specs.Writers.{IsPast, IsSizeRefusal, IsSound, Refuses, Writes, appended, most_bytes};

use crate::frame_instructions::{
    put_advancing, put_byte, put_fixed, put_instructions, put_signed, put_unsigned,
};
use dwc_base::constants::DW_CFA_nop;
use dwc_base::{Address, DwarfSection, Endian, Limit, SectionName};
use dwc_isa::{CfaUnwindInfo, Cie};
use dwc_section::append::{bytes_4, put_sized};
use dwc_section::writer::MOST_BYTES;
use dwc_section::{WriteError, Writer, WriterRelocate};
use std::alloc::{AllocError, Global};

/// The section with a common information entry and the frame descriptions of functions by their numbers.
pub fn write_section(
    alloc: Global,
    order: Endian,
    size: u8,
    cie: &Cie,
    functions: &[(usize, CfaUnwindInfo)],
) -> Result<DwarfSection, WriteError>
    requires size { (size ≡ 4) ⊎ (size ≡ 8) }
    requires code { 0 < cie.now.code_factor }
    requires data { 0 < nat_abs cie.now.data_factor }
    ensures section { IfOk result (λ s. section_view s ≡ frame_section order size (cie_view cie.now) (map function_view functions.now)) }
    ensures sound { IfOk result (λ s. IsSound order (section_view s)) }
    ensures rise { IfOk result (λ s. DoRelocationsRise (section_view s)) }
    ensures large { IfErr result (λ e. IsSizeRefusal (IsPast Frame (length (frame_section order size (cie_view cie.now) (map function_view functions.now)).body)) e) }
{
    let mut frames = WriterRelocate::new(alloc, order, SectionName::Frame)?;
    let mut entry = Vec::new(alloc);
    write_common(&mut frames, &mut entry, size, cie)?;
    write_functions(&mut frames, &mut entry, size, cie, functions)?;
    Ok(frames.take())
}

// The common information entry.
fn write_common(
    frames: &mut WriterRelocate,
    entry: &mut Vec<u8>,
    size: u8,
    cie: &Cie,
) -> Result<(), WriteError>
    requires size { (size ≡ 4) ⊎ (size ≡ 8) }
    requires data { 0 < nat_abs cie.now.data_factor }
    ensures { Writes frames.old frames.new result (common_bytes frames.old.order size (cie_view cie.now)) [] }
{
    entry.clear();
    put_common(entry, frames.endian(), cie)?;
    let count = entry.len();
    put_filling(entry, size, count)?;
    frames.put_sized_part(entry)
}

// The frame description entries of functions.
fn write_functions(
    frames: &mut WriterRelocate,
    entry: &mut Vec<u8>,
    size: u8,
    cie: &Cie,
    functions: &[(usize, CfaUnwindInfo)],
) -> Result<(), WriteError>
    requires size { (size ≡ 4) ⊎ (size ≡ 8) }
    requires code { 0 < cie.now.code_factor }
    requires data { 0 < nat_abs cie.now.data_factor }
    requires name { frames.old.name ≡ Frame }
    ensures { Writes frames.old frames.new result (flat_map (description_bytes frames.old.order size (cie_view cie.now)) (map function_view functions.now)) (at_places (description_bytes frames.old.order size (cie_view cie.now)) (description_at size) (length frames.old.body) (map function_view functions.now)) }
{
    for i in 0..functions.len() {
        write_function(frames, entry, size, cie, &functions[i])?;
    }
    Ok(())
}

// The frame description entry of a function.
fn write_function(
    frames: &mut WriterRelocate,
    entry: &mut Vec<u8>,
    size: u8,
    cie: &Cie,
    function: &(usize, CfaUnwindInfo),
) -> Result<(), WriteError>
    requires size { (size ≡ 4) ⊎ (size ≡ 8) }
    requires code { 0 < cie.now.code_factor }
    requires data { 0 < nat_abs cie.now.data_factor }
    requires name { frames.old.name ≡ Frame }
    ensures { Writes frames.old frames.new result (description_bytes frames.old.order size (cie_view cie.now) (function_view function.now)) (description_at size (length frames.old.body) (function_view function.now)) }
{
    entry.clear();
    put_description(entry, frames.endian(), size, cie, &function.1)?;
    let count = 4 + usize::from(size) + entry.len();
    put_filling(entry, size, count)?;
    write_entry(frames, size, function.0, entry)
}

// An entry of a function: its length, the offset of the common one, the function's address, and the rest.
fn write_entry(
    frames: &mut WriterRelocate,
    size: u8,
    symbol: usize,
    rest: &[u8],
) -> Result<(), WriteError>
    requires size { (size ≡ 4) ⊎ (size ≡ 8) }
    requires name { frames.old.name ≡ Frame }
    ensures { Writes frames.old frames.new result (entry_bytes frames.old.order size rest.now) (description_relocations size (length frames.old.body) symbol) }
{
    let length = 4 + usize::from(size) + rest.len();
    write_length(frames, length)?;
    frames.put_offset(0, SectionName::Frame)?;
    frames.put_address(Address::Symbol { symbol, addend: 0 }, size)?;
    frames.put_bytes(rest)
}

// The length of so many bytes that are to come; it is refused where they would be too many.
fn write_length(frames: &mut WriterRelocate, length: usize) -> Result<(), WriteError>
    requires { frames.old.name ≡ Frame }
    ensures ok { OnOk result (frames.new ≡ appended (number_bytes frames.old.order 4 length) [] frames.old) }
    ensures err { IfErr result (λ e. Refuses e frames.old (4 + length)) }
{
    if length > MOST_BYTES {
        return Err(WriteError::TooLarge {
            what: Limit::Section(SectionName::Frame),
        });
    }
    let bytes = bytes_4(frames.endian(), length as u32);
    frames.put_bytes(&bytes)
}

// A common information entry behind its length, without what fills it.
fn put_common(out: &mut Vec<u8>, order: Endian, cie: &Cie) -> Result<(), AllocError>
    requires { 0 < nat_abs cie.now.data_factor }
    ensures { PutsIn order out.old.items out.new.items result (common_numbers (cie_view cie.now)) }
{
    put_mark(out, order)?;
    put_factors(out, cie)?;
    put_instructions(out, cie, &cie.ops)
}

// What tells a common information entry, version 1, and no augmentation.
fn put_mark(out: &mut Vec<u8>, order: Endian) -> Result<(), AllocError>
    ensures { PutsIn order out.old.items out.new.items result (fixed 4 0xFFFFFFFF ∷ one_byte 1 ∷ one_byte 0 ∷ []) }
{
    put_fixed(out, order, 4, 0xFFFF_FFFF)?;
    put_byte(out, 1)?;
    put_byte(out, 0)
}

// The factors, and the return register.
fn put_factors(out: &mut Vec<u8>, cie: &Cie) -> Result<(), AllocError>
    ensures { Puts out.old.items out.new.items result (uleb cie.now.code_factor ∷ sleb cie.now.data_factor ∷ one_byte cie.now.return_register ∷ []) }
{
    put_unsigned(out, u64::from(cie.code_factor))?;
    put_signed(out, i64::from(cie.data_factor))?;
    put_byte(out, cie.return_register)
}

// A frame description entry behind the address of its function, without what fills it.
fn put_description(
    out: &mut Vec<u8>,
    order: Endian,
    size: u8,
    cie: &Cie,
    info: &CfaUnwindInfo,
) -> Result<(), AllocError>
    requires size { (size ≡ 4) ⊎ (size ≡ 8) }
    requires code { 0 < cie.now.code_factor }
    requires data { 0 < nat_abs cie.now.data_factor }
    ensures { OnOk result (out.new.items ≡ out.old.items ++ numbers_bytes order size (address_sized info.now.len ∷ advancing_numbers (cie_view cie.now) 0 (map advancing_view info.now.ops.items))) }
{
    put_sized(out, order, size, u64::from(info.len))?;
    put_advancing(out, order, cie, &info.ops)
}

// The nops that fill an entry of so many bytes behind its length.
fn put_filling(out: &mut Vec<u8>, size: u8, count: usize) -> Result<(), AllocError>
    requires size { (size ≡ 4) ⊎ (size ≡ 8) }
    requires count { 4 + count < 2 ^ 64 }
    ensures { OnOk result (out.new.items ≡ out.old.items ++ replicate (nops size count) DW_CFA_nop) }
{
    let left = filling(size, count);
    for _ in 0..left {
        out.push(DW_CFA_nop)?;
    }
    Ok(())
}

// How many they are.
fn filling(size: u8, count: usize) -> usize
    requires size { (size ≡ 4) ⊎ (size ≡ 8) }
    requires count { 4 + count < 2 ^ 64 }
    ensures { result ≡ nops size count }
{
    let size = usize::from(size);
    (size - (4 + count) % size) % size
}
