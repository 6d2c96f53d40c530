//! Counts of a source or sink: its calls, by their numbers, and the bytes that it gave.
ghost use Rattle.std.specs.Prelude.{◌≡◌, ◌+◌, ◌-◌, ◌^◌, min, max};
ghost use Rattle.dwc_cli.specs.Memory.{one_more, next_fails};

// Counts a call, and tells whether its number is among those that fail.
pub(crate) fn count_call(calls: &mut u64, failing: &[u64]) -> bool
    ensures fails { result ≡ next_fails calls.old failing.now }
    ensures calls { calls.new ≡ one_more calls.old }
{
    *calls = calls.saturating_add(1);
    let number = *calls;
    failing.iter().any(|failing| *failing == number)
}

// Counts bytes that were given of the opened file, and keeps the most that were given of one.
pub(crate) fn count_taken(taken: &mut u64, longest: &mut u64, count: usize)
    ensures taken { taken.new ≡ min (taken.old + count) (2 ^ 64 - 1) }
    ensures longest { longest.new ≡ max longest.old taken.new }
{
    *taken = taken.saturating_add(count as u64);
    *longest = (*longest).max(*taken);
}
