//! The room that lists make before they grow.
ghost use Rattle.std.specs.Prelude.{◌≡◌};

// A list that has no room grows by this part of itself at least.
const GROWTH_PART: usize = 8;

/// Makes room for so many items more, if there is memory for them. Little is left over, and many such calls move the list seldom.
pub fn reserve_part<T>(list: &mut Vec<T>, count: usize)
    ensures { list.new.items ≡ list.old.items }
{
    if list.capacity().saturating_sub(list.len()) < count {
        let _kept_without = list.reserve_exact(count.saturating_add(list.len() / GROWTH_PART));
    }
}
