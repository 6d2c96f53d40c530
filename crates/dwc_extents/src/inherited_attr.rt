//! A stack of what entries give to the entries below them. (DWARF 4 and 5, section 2.3.)
ghost use Rattle.std.specs.Prelude.{◌≡◌, ◌≤◌, ◌<◌, ◌==◌, ◌<ℤ◌, All, false, [], ◌∷◌, ◌++◌, ◌&&◌, int_le, take, length, is_some, IsSome, OnOk, OnErr, option_copied};
ghost use Rattle.std.specs.Option.{option_copied_mut};
ghost use Rattle.std.specs.Borrow.{sem};
ghost use Rattle.dwc_rules.specs.Scopes.{DepthsRise, left_for, top_at, top_of};

use std::alloc::{AllocError, Global};
use std::marker::Model;

/// What entries gave to those below them, each with the depth of its entry, the nearest on top. In a walk over entries in file order
/// `update` with the depth of an entry leaves what its ancestors gave.
#[derive(Drop)]
pub struct InheritedAttr<T> {
    items: Vec<(i64, T)>,
}

impl<T> Model for InheritedAttr<T> {
    ghost use Rattle.std.specs.Prelude.{List};
    ghost use Rattle.std.specs.Coded.{coded_list, coded×, coded_ℤ};
    ghost use Rattle.dwc_rules.specs.Scopes.{Given};

    ghost Value = { List (Given T) };

    ghost coded = { coded_list (coded× coded_ℤ T.code) };

    ghost view = { λ s. s.items.items };
}

// Whether an item is of a depth.
fn is_at<T>(item: &(i64, T), depth: i64) -> bool
    ensures { result ≡ (int_le depth item.now.0 && int_le item.now.0 depth) }
{
    item.0 == depth
}

// Whether an item is of a depth or deeper.
fn is_from<T>(item: &(i64, T), depth: i64) -> bool
    ensures { result ≡ int_le depth item.now.0 }
{
    item.0 >= depth
}

// How many items, from the bottom, are left for a depth.
fn count_left<T>(depth: i64, items: &[(i64, T)]) -> usize
    ensures { take result items.now ≡ left_for depth items.now }
{
    let mut left = items.len();
    while left > 0 && is_from(&items[left - 1], depth) {
        left -= 1;
    }
    left
}

impl<T> InheritedAttr<T> {
    ghost use Rattle.dwc_extents.specs.StacksByDepth.{lends_top, lends_top_at};

    /// An empty stack.
    pub fn new(alloc: Global) -> InheritedAttr<T>
        ensures { result ≡ [] }
    {
        InheritedAttr {
            items: Vec::new(alloc),
        }
    }

    /// Whether nothing is given.
    pub fn is_empty(&self) -> bool
        ensures { result ≡ (length self.now == 0) }
    {
        self.items.is_empty()
    }

    /// What the nearest entry gave, of those that gave something.
    pub fn top(&self) -> Option<&T>
        ensures { option_copied result ≡ top_of self.now }
    {
        let (_, value) = self.items.last()?;
        Some(value)
    }

    // Whether the top has a depth.
    fn has_top_at(&self, depth: i64) -> bool
        ensures { result ≡ is_some (top_at depth self.now) }
    {
        match self.items.last() {
            Some(item) => is_at(item, depth),
            None => false,
        }
    }

    // Whether the top was given at a depth or deeper.
    fn has_top_from(&self, depth: i64) -> bool
        ensures { result ≡ false → left_for depth self.now ≡ self.now }
    {
        match self.items.last() {
            Some(item) => is_from(item, depth),
            None => false,
        }
    }

    /// What the nearest entry gave, where that entry is of a depth; None for another depth.
    pub fn top_with_depth(&self, depth: i64) -> Option<&T>
        ensures { option_copied result ≡ top_at depth self.now }
    {
        if self.has_top_at(depth) {
            return self.top();
        }
        None
    }

    // The value on top, to change.
    fn top_mut(&mut self) -> &mut T
        requires { 0 < length self.old }
        ensures* writes_back { sem 𝓛 (lends_top T.row self.entry result) }
        ensures value { top_of self.old ≡ Some result.now }
    {
        let last = self.items.len() - 1;
        let top = &mut self.items[last];
        &mut top.1
    }

    /// What the nearest entry gave, to change it, where that entry is of a depth; None for another depth. Nothing else changes.
    pub fn top_with_depth_mut(&mut self, depth: i64) -> Option<&mut T>
        ensures* writes_back { sem 𝓛 (lends_top_at T.row self.entry result) }
        ensures value { option_copied_mut result ≡ top_at depth self.old }
    {
        if self.has_top_at(depth) {
            Some(self.top_mut())
        } else {
            None
        }
    }
}

impl<T: Drop> InheritedAttr<T> {
    // Drops what was given at a depth or deeper.
    #[inline(never)]
    fn leave(&mut self, depth: i64)
        ensures { self.new ≡ left_for depth self.old }
    {
        let left = count_left(depth, &self.items);
        self.items.truncate(left);
    }

    /// Drops the top as long as it was given at a depth or deeper. Where the depths rise towards the top, what is left was given at
    /// lower depths alone.
    pub fn update(&mut self, depth: i64)
        ensures left { self.new ≡ left_for depth self.old }
        ensures below { DepthsRise self.old → All (λ g. g.0 <ℤ depth) self.new × DepthsRise self.new }
    {
        if !self.has_top_from(depth) {
            return;
        }
        self.leave(depth);
    }

    /// Puts what an entry of a depth gives on top.
    ///
    /// # Errors
    /// `AllocError` for want of memory; the stack is then as before.
    pub fn push(&mut self, depth: i64, value: T) -> Result<(), AllocError>
        ensures pushed { OnOk result (self.new ≡ self.old ++ (depth, value) ∷ []) }
        ensures failed { OnErr result (self.new ≡ self.old) }
    {
        self.items.push((depth, value))?;
        Ok(())
    }
}
