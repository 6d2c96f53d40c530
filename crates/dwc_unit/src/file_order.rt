//! The order in which the entries of a unit stand in the file: an entry is followed by what is below it. (DWARF 4, section 2.3.)
ghost use Rattle.std.specs.Prelude.{◌≡◌, ◌++◌, ◌∷◌, [], List, ◌<◌, ◌≤◌, OnOk, IfOk, length, map, replicate};
ghost use Rattle.std.specs.List.{All};
ghost use Rattle.dwc_unit.specs.GivenUnits.{Addition, IsRooted, first_depth, in_file_order};
ghost use Rattle.dwc_unit.specs.FileOrders.{AreLinked, looked_up, linked_place};

use crate::additions::Additions;
use std::alloc::{AllocError, Global};

/// An entry in file order: its place in the order of addition, and its depth below the root.
#[derive(Clone, Copy)]
pub struct FilePlace {
    /// The place in the order of addition.
    pub index: u32,
    /// How deep it is below the root, which is at 0.
    pub depth: u32,
}

/// For each entry, in the order of addition, its first child and its next sibling; 0, the root's place, where there is none.
#[derive(Drop)]
pub struct Links {
    pub first_children: Vec<usize>,
    pub next_siblings: Vec<usize>,
}

/// The entries in file order.
pub fn file_order(alloc: Global, additions: &Additions) -> Result<Vec<FilePlace>, AllocError>
    requires { IsRooted additions.now }
    ensures order { IfOk result (λ order. map (looked_up additions.now) order.items ≡ in_file_order additions.now) }
    ensures known { IfOk result (λ order. All (λ f. f.index < length additions.now) order.items) }
{
    let links = links_of(alloc, additions)?;
    let mut order = Vec::with_capacity(alloc, additions.len())?;
    let mut pending = Vec::new(alloc);
    order.push(FilePlace { index: 0, depth: 0 })?;
    push_link(&mut pending, links.first_children[0], 1)?;
    while let Some(place) = pending.pop() {
        order.push(place)?;
        let index = place.index as usize;
        let depth = place.depth as usize;
        push_link(&mut pending, links.next_siblings[index], depth)?;
        push_link(&mut pending, links.first_children[index], depth + 1)?;
    }
    Ok(order)
}

// An entry at a depth behind others, where there is one. There is no memory for so many entries that their places do not fit.
fn push_link(pending: &mut Vec<FilePlace>, index: usize, depth: usize) -> Result<(), AllocError>
    ensures { OnOk result (pending.new.items ≡ pending.old.items ++ linked_place index depth) }
{
    if index == 0 {
        return Ok(());
    }
    let Ok(index) = u32::try_from(index) else {
        return Err(AllocError);
    };
    let Ok(depth) = u32::try_from(depth) else {
        return Err(AllocError);
    };
    pending.push(FilePlace { index, depth })?;
    Ok(())
}

// The links of entries. Children are met from the last to the first, so that each is put in front of those behind it.
fn links_of(alloc: Global, additions: &Additions) -> Result<Links, AllocError>
    requires { IsRooted additions.now }
    ensures { IfOk result (λ links. AreLinked additions.now links.first_children.items links.next_siblings.items) }
{
    let mut first_children = vec![in alloc; 0; additions.len()]?;
    let mut next_siblings = vec![in alloc; 0; additions.len()]?;
    let mut place = additions.len();
    while place > 1 {
        place -= 1;
        let parent = additions.parent(place);
        next_siblings[place] = first_children[parent];
        first_children[parent] = place;
    }
    Ok(Links {
        first_children,
        next_siblings,
    })
}

/// The depth of the first of some entries, 0 where there is none.
pub fn depth_of_first(order: &[FilePlace]) -> usize
    ensures { (added : List Addition) → result ≡ first_depth (map (looked_up added) order.now) }
{
    match order {
        [] => 0,
        [first, ..] => first.depth as usize,
    }
}
