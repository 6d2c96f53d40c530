//! LEB128 numbers. (DWARF 4 and 5, section 7.6.)
ghost use Rattle.std.specs.Prelude.{◌≡◌, ℕ, ◌+◌, ◌-◌, ◌^◌, ◌≤◌, ◌<◌, length, MatchOption, SomeIff, Some, None, slice_index, ⊤, ℤ, FitsSigned};
ghost use Rattle.dwc_base.specs.Reading.{uleb_value, sleb_value};
ghost use Rattle.dwc_base.specs.Lebs.{low_seven_bits_value, signed_low_value};
ghost use Rattle.std.specs.Int.{w64};

// The LEB128 number at the front, where it fits 64 bits, and how many bytes it takes.
pub fn uleb_front(bytes: &[u8]) -> Option<(Option<u64>, usize)>
    ensures value { MatchOption result (uleb_value bytes.now ≡ None) (λ x. (n : ℕ) × (uleb_value bytes.now ≡ Some (n, x.1)) × SomeIff x.0 (n < 2 ^ 64) n) }
    ensures count { MatchOption result ⊤ (λ x. x.1 ≤ length bytes.now) }
{
    // most numbers take one byte
    if let [first, ..] = bytes
        && *first < 128
    {
        return Some((Some(u64::from(*first)), 1));
    }
    let count = leb_len(bytes)?;
    Some((leb_value(&bytes[..count]), count))
}

// The signed LEB128 number at the front, where it fits 64 bits, and how many bytes it takes.
pub fn sleb_front(bytes: &[u8]) -> Option<(Option<i64>, usize)>
    ensures value { MatchOption result (sleb_value bytes.now ≡ None) (λ x. (n : ℤ) × (sleb_value bytes.now ≡ Some (n, x.1)) × SomeIff x.0 (FitsSigned w64 n) n) }
    ensures count { MatchOption result ⊤ (λ x. x.1 ≤ length bytes.now) }
{
    if let [first, ..] = bytes
        && *first < 64
    {
        return Some((Some(i64::from(*first)), 1));
    }
    let count = leb_len(bytes)?;
    Some((signed_leb_value(&bytes[..count]), count))
}

// How many bytes a LEB128 number takes: up to the first one below 128.
fn leb_len(bytes: &[u8]) -> Option<usize>
    ensures { MatchOption result
        ((k : ℕ) → k < length bytes.now → 128 ≤ slice_index bytes.now k)
        (λ n. (k : ℕ) × (n ≡ k + 1) × (k < length bytes.now) × (slice_index bytes.now k < 128) × ((j : ℕ) → j < k → 128 ≤ slice_index bytes.now j)) }
{
    for (i, b) in bytes.iter().enumerate() {
        if *b < 128 {
            return Some(i + 1);
        }
    }
    None
}

// The number that the low seven bits of some bytes spell, if it fits 64 bits.
fn leb_value(bytes: &[u8]) -> Option<u64>
    ensures { SomeIff result (low_seven_bits_value bytes.now < 2 ^ 64) (low_seven_bits_value bytes.now) }
{
    let mut value: u64 = 0;
    let mut k = bytes.len();
    while k > 0 {
        if value >= 1 << 57 {
            return None;
        }
        k -= 1;
        value = value * 128 + u64::from(bytes[k] % 128);
    }
    Some(value)
}

// The number that the low seven bits of some bytes spell, with the sign of the last, if it fits 64 bits.
fn signed_leb_value(bytes: &[u8]) -> Option<i64>
    requires some { 0 < length bytes.now }
    requires last { slice_index bytes.now (length bytes.now - 1) < 128 }
    ensures { SomeIff result (FitsSigned w64 (signed_low_value bytes.now)) (signed_low_value bytes.now) }
{
    let mut k = bytes.len() - 1;
    let last = i64::from(bytes[k]);
    let mut value = if last < 64 { last } else { last - 128 };
    while k > 0 {
        if value < -(1 << 56) || value >= 1 << 56 {
            return None;
        }
        k -= 1;
        value = value * 128 + i64::from(bytes[k] % 128);
    }
    Some(value)
}
