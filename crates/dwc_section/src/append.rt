//! The bytes of numbers and texts, behind what a buffer holds.
ghost use Rattle.std.specs.Prelude.{◌≡◌, ◌++◌, ◌∷◌, [], ◌<◌, ◌^◌, OnOk, OnErr, pos, negsuc, length, ◌+◌, ◌≤◌};
ghost use Rattle.dwc_base.specs.declared.records.Endian.TheVariants.{Big, Little};
ghost use Rattle.dwc_base.specs.NumberBytes.{number_bytes, uleb_bytes, sleb_bytes};
ghost use Rattle.dwc_section.specs.Spelled.{text_bytes};
ghost use Rattle.dwc_section.specs.Writers.{IsSize, replaced};

use dwc_base::Endian;
use std::alloc::AllocError;

/// A number of two bytes.
#[tactic(auto, using(crate::proofs::ReadBytes::number_bytes_are))]
pub fn bytes_2(order: Endian, value: u16) -> [u8; 2]
    ensures { result ≡ number_bytes order 2 value }
{
    match order {
        Endian::Little => value.to_le_bytes(),
        Endian::Big => value.to_be_bytes(),
    }
}

/// A number of four bytes.
#[tactic(auto, using(crate::proofs::ReadBytes::number_bytes_are))]
pub fn bytes_4(order: Endian, value: u32) -> [u8; 4]
    ensures { result ≡ number_bytes order 4 value }
{
    match order {
        Endian::Little => value.to_le_bytes(),
        Endian::Big => value.to_be_bytes(),
    }
}

/// A number of eight bytes.
#[tactic(auto, using(crate::proofs::ReadBytes::number_bytes_are))]
pub fn bytes_8(order: Endian, value: u64) -> [u8; 8]
    ensures { result ≡ number_bytes order 8 value }
{
    match order {
        Endian::Little => value.to_le_bytes(),
        Endian::Big => value.to_be_bytes(),
    }
}

/// Puts an unsigned LEB128 number behind what a buffer holds, as short as it can be. (DWARF 4, section 7.6.)
///
/// # Errors
/// `AllocError` for want of memory; some of the number's bytes may have been put then.
pub fn put_uleb(out: &mut Vec<u8>, value: u64) -> Result<(), AllocError>
    ensures { OnOk result (out.new.items ≡ out.old.items ++ uleb_bytes value) }
{
    let mut rest = value;
    while rest >= 128 {
        out.push((128 + rest % 128) as u8)?;
        rest /= 128;
    }
    out.push(rest as u8)?;
    Ok(())
}

/// Puts a signed LEB128 number behind what a buffer holds, as short as it can be. Some of its bytes may have been put where memory is
/// wanting. (DWARF 4, section 7.6.)
pub fn put_sleb(out: &mut Vec<u8>, value: i64) -> Result<(), AllocError>
    ensures { OnOk result (out.new.items ≡ out.old.items ++ sleb_bytes value) }
{
    if value < 0 {
        put_sleb_below_0(out, (-(value + 1)) as u64)
    } else {
        put_sleb_from_0(out, value as u64)
    }
}

fn put_sleb_from_0(out: &mut Vec<u8>, value: u64) -> Result<(), AllocError>
    ensures { OnOk result (out.new.items ≡ out.old.items ++ sleb_bytes (pos value)) }
{
    let mut rest = value;
    while rest >= 64 {
        out.push((128 + rest % 128) as u8)?;
        rest /= 128;
    }
    out.push(rest as u8)?;
    Ok(())
}

// The number that is so much below -1.
fn put_sleb_below_0(out: &mut Vec<u8>, value: u64) -> Result<(), AllocError>
    ensures { OnOk result (out.new.items ≡ out.old.items ++ sleb_bytes (negsuc value)) }
{
    let mut rest = value;
    while rest >= 64 {
        out.push((255 - rest % 128) as u8)?;
        rest /= 128;
    }
    out.push((127 - rest) as u8)?;
    Ok(())
}

/// A text, ended by a zero.
pub fn put_text(out: &mut Vec<u8>, text: &[u8]) -> Result<(), AllocError>
    ensures { OnOk result (out.new.items ≡ out.old.items ++ text_bytes text.now) }
{
    out.extend_from_slice(text)?;
    out.push(0)?;
    Ok(())
}

/// A number of so many bytes, the low ones of the value.
#[inline(always)]
pub fn put_sized(out: &mut Vec<u8>, order: Endian, size: u8, value: u64) -> Result<(), AllocError>
    requires { IsSize size }
    ensures ok { OnOk result (out.new.items ≡ out.old.items ++ number_bytes order size value) }
    ensures err { OnErr result (out.new.items ≡ out.old.items) }
{
    match order {
        Endian::Little => put_low_first(out, size, value),
        Endian::Big => put_high_first(out, size, value),
    }
}

// The same with the lowest byte first.
#[inline(always)]
#[tactic(auto, using(crate::proofs::SizedBytes::sized_bytes_are, crate::proofs::ReadBytes::number_bytes_are))]
fn put_low_first(out: &mut Vec<u8>, size: u8, value: u64) -> Result<(), AllocError>
    requires { IsSize size }
    ensures ok { OnOk result (out.new.items ≡ out.old.items ++ number_bytes Little size value) }
    ensures err { OnErr result (out.new.items ≡ out.old.items) }
{
    match size {
        1 => out.extend_from_slice(&[(value % 256) as u8]),
        2 => out.extend_from_slice(&((value % 0x1_0000) as u16).to_le_bytes()),
        4 => out.extend_from_slice(&((value % 0x1_0000_0000) as u32).to_le_bytes()),
        _ => out.extend_from_slice(&value.to_le_bytes()),
    }
}

// The same with the highest byte first.
#[inline(never)]
#[tactic(auto, using(crate::proofs::SizedBytes::sized_bytes_are, crate::proofs::ReadBytes::number_bytes_are))]
fn put_high_first(out: &mut Vec<u8>, size: u8, value: u64) -> Result<(), AllocError>
    requires { IsSize size }
    ensures ok { OnOk result (out.new.items ≡ out.old.items ++ number_bytes Big size value) }
    ensures err { OnErr result (out.new.items ≡ out.old.items) }
{
    match size {
        1 => out.extend_from_slice(&[(value % 256) as u8]),
        2 => out.extend_from_slice(&((value % 0x1_0000) as u16).to_be_bytes()),
        4 => out.extend_from_slice(&((value % 0x1_0000_0000) as u32).to_be_bytes()),
        _ => out.extend_from_slice(&value.to_be_bytes()),
    }
}

/// A number of so many bytes in the place of as many from an offset on.
#[tactic(auto, using(crate::proofs::SizedBytes::sized_bytes_are))]
pub fn replace_sized(body: &mut [u8], offset: usize, order: Endian, size: u8, value: u64)
    requires size { IsSize size }
    requires inside { offset + size ≤ length body.old }
    ensures { body.new ≡ replaced offset (number_bytes order size value) body.old }
{
    match size {
        1 => replace(body, offset, &[(value % 256) as u8]),
        2 => replace(body, offset, &bytes_2(order, (value % 0x1_0000) as u16)),
        4 => replace(
            body,
            offset,
            &bytes_4(order, (value % 0x1_0000_0000) as u32),
        ),
        _ => replace(body, offset, &bytes_8(order, value)),
    }
}

/// Bytes in the place of as many from an offset on.
pub fn replace(body: &mut [u8], offset: usize, bytes: &[u8])
    requires { offset + length bytes.now ≤ length body.old }
    ensures { body.new ≡ replaced offset bytes.now body.old }
{
    body[offset..offset + bytes.len()].copy_from_slice(bytes);
}
