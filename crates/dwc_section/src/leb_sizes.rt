//! How many bytes LEB128 numbers have. (DWARF 4, section 7.6.)
ghost use Rattle.std.specs.Prelude.{◌≡◌, ◌≤◌, length, negsuc, pos};
ghost use Rattle.dwc_base.specs.NumberBytes.{sleb_bytes, uleb_bytes};

/// How many bytes an unsigned LEB128 number has.
pub fn uleb_length(value: u64) -> u8
    ensures length { result ≡ length (uleb_bytes value) }
    ensures most { result ≤ 10 }
{
    let mut rest = value;
    let mut count: u8 = 1;
    while rest >= 128 {
        rest /= 128;
        count += 1;
    }
    count
}

/// How many bytes a signed LEB128 number has.
pub fn sleb_length(value: i64) -> u8
    ensures { result ≡ length (sleb_bytes value) }
{
    if value < 0 {
        sleb_length_below_0((-(value + 1)) as u64)
    } else {
        sleb_length_from_0(value as u64)
    }
}

// The number that is so much below -1.
#[tactic(auto, using(crate::proofs::LebSizes::below_length))]
fn sleb_length_below_0(value: u64) -> u8
    ensures { result ≡ length (sleb_bytes (negsuc value)) }
{
    sleb_length_from_0(value)
}

fn sleb_length_from_0(value: u64) -> u8
    ensures { result ≡ length (sleb_bytes (pos value)) }
{
    let mut rest = value;
    let mut count: u8 = 1;
    while rest >= 64 {
        rest /= 128;
        count += 1;
    }
    count
}
