//! How much room the lists of functions are made with.
ghost use Rattle.std.specs.Prelude.{◌≤◌};

// A list is short that is not longer than so many times the least room.
const SHORT: usize = 16;

/// For how many values a list of so many gets room, and for `least` at least: where it is short, for a power of two. So the lists of all
/// functions are of few sizes, and when they end, nearly all that they held is one piece again: an allocator sets freed blocks of each size
/// aside, and each of these parts what stands around it.
#[inline(never)]
pub fn capacity(count: usize, least: usize) -> usize
    requires { least ≤ 64 }
    ensures { count ≤ result }
{
    if count > SHORT * least {
        return count;
    }
    count.next_power_of_two().max(least)
}
