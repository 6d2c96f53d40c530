//! The digits of numbers, behind what a buffer holds that has room for them. (DWARF 4, section 7.6.)
ghost use Rattle.std.specs.Prelude.{◌≡◌, ◌++◌, ◌+◌, ◌≤◌, pos, negsuc, vec_capacity, vec_len};
ghost use Rattle.dwc_base.specs.NumberBytes.{uleb_bytes, sleb_bytes};

/// An unsigned LEB128 number, as short as it can be.
#[inline(always)]
pub fn put_digits(out: &mut Vec<u8>, value: u64)
    requires { vec_len out.old + 10 ≤ vec_capacity out.old }
    ensures bytes { out.new.items ≡ out.old.items ++ uleb_bytes value }
    ensures most { vec_len out.new ≤ vec_len out.old + 10 }
    ensures room { vec_capacity out.new ≡ vec_capacity out.old }
{
    let mut rest = value;
    while rest >= 128 {
        out.push_reserved((128 + rest % 128) as u8);
        rest /= 128;
    }
    out.push_reserved(rest as u8);
}

/// A signed LEB128 number, as short as it can be.
#[inline(always)]
pub fn put_signed_digits(out: &mut Vec<u8>, value: i64)
    requires { vec_len out.old + 10 ≤ vec_capacity out.old }
    ensures bytes { out.new.items ≡ out.old.items ++ sleb_bytes value }
    ensures most { vec_len out.new ≤ vec_len out.old + 10 }
    ensures room { vec_capacity out.new ≡ vec_capacity out.old }
{
    if value < 0 {
        put_digits_below_0(out, (-(value + 1)) as u64);
    } else {
        put_digits_from_0(out, value as u64);
    }
}

#[inline(always)]
fn put_digits_from_0(out: &mut Vec<u8>, value: u64)
    requires { vec_len out.old + 10 ≤ vec_capacity out.old }
    ensures bytes { out.new.items ≡ out.old.items ++ sleb_bytes (pos value) }
    ensures most { vec_len out.new ≤ vec_len out.old + 10 }
    ensures room { vec_capacity out.new ≡ vec_capacity out.old }
{
    let mut rest = value;
    while rest >= 64 {
        out.push_reserved((128 + rest % 128) as u8);
        rest /= 128;
    }
    out.push_reserved(rest as u8);
}

// The number that is so much below -1.
#[inline(always)]
fn put_digits_below_0(out: &mut Vec<u8>, value: u64)
    requires { vec_len out.old + 10 ≤ vec_capacity out.old }
    ensures bytes { out.new.items ≡ out.old.items ++ sleb_bytes (negsuc value) }
    ensures most { vec_len out.new ≤ vec_len out.old + 10 }
    ensures room { vec_capacity out.new ≡ vec_capacity out.old }
{
    let mut rest = value;
    while rest >= 64 {
        out.push_reserved((255 - rest % 128) as u8);
        rest /= 128;
    }
    out.push_reserved((127 - rest) as u8);
}
