//! Numbers of entries by their offsets: blocks of `.debug_info` are numbered from its begin on, and of each block it is known which entry
//! is the first that does not stand in front of it. So an offset is looked for among the few entries of its block.
ghost use Rattle.std.specs.Prelude.{◌≡◌, ℕ, ◌<◌, ◌≤◌, ◌^◌, length, get_or, OnOk, IfOk};
ghost use Rattle.dwc_kept.specs.GraphEntries.{entry, number_at, AreRising, AreFirsts, HasFirsts};

use crate::graph_entry::GraphEntry;
use std::alloc::{AllocError, Global};

// How many bytes a block has, and so how many entries at most.
const BLOCK_SIZE: u32 = 32;

// Makes an entry, by its number, the first one of each block up to one that has none yet.
fn put_firsts(firsts: &mut Vec<u32>, block: usize, number: u32) -> Result<(), AllocError>
    ensures { OnOk result (HasFirsts block number firsts.old.items firsts.new.items) }
{
    while firsts.len() <= block {
        firsts.push(number)?;
    }
    Ok(())
}

/// Of each block the number of the first entry that does not stand in front of it, up to the block of the last entry.
///
/// # Errors
/// `AllocError` for want of memory.
pub(crate) fn firsts_of_blocks(
    alloc: Global,
    entries: &[GraphEntry],
) -> Result<Vec<u32>, AllocError>
    requires few { length entries.now ≤ 2 ^ 32 }
    requires rising { AreRising entries.now }
    ensures { IfOk result (λ firsts. AreFirsts entries.now firsts.items) }
{
    let mut firsts = Vec::new(alloc);
    for i in 0..entries.len() {
        let block = entries[i].offset / BLOCK_SIZE;
        put_firsts(&mut firsts, block as usize, i as u32)?;
    }
    Ok(firsts)
}

// The first entry that does not stand in front of a block, of so many entries.
fn first_of_block(firsts: &[u32], block: usize, count: usize) -> usize
    ensures { result ≡ get_or firsts.now block count }
{
    match firsts.get(block) {
        Some(first) => *first as usize,
        None => count,
    }
}

// The number of the entry at an offset, which is none but one between two numbers.
fn number_between(entries: &[GraphEntry], first: usize, end: usize, offset: u32) -> Option<u32>
    requires rising { AreRising entries.now }
    requires high { end ≤ length entries.now }
    requires between { (k : ℕ) → k < length entries.now → (entry entries.now k).offset ≡ offset → (first ≤ k) × (k < end) }
    ensures { result ≡ number_at entries.now offset }
{
    for place in first..end {
        if entries[place].offset == offset {
            return Some(place as u32);
        }
    }
    None
}

/// The number of the entry at an offset.
pub(crate) fn number_of(entries: &[GraphEntry], firsts: &[u32], offset: u32) -> Option<u32>
    requires rising { AreRising entries.now }
    requires firsts { AreFirsts entries.now firsts.now }
    ensures { result ≡ number_at entries.now offset }
{
    let block = (offset / BLOCK_SIZE) as usize;
    let first = first_of_block(firsts, block, entries.len());
    let end = first_of_block(firsts, block + 1, entries.len());
    number_between(entries, first, end, offset)
}
