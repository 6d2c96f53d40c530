//! The abbreviation tables that were read, found by their offsets.
ghost use Rattle.std.specs.Prelude.{◌≡◌, Some, slice_get, IfOk, IfSome};
ghost use Rattle.std.specs.Ordering.{nat_cmp};
ghost use Rattle.std.specs.List.{All};
ghost use Rattle.std.specs.List.Sorted.{IsSorted};
ghost use Rattle.dwc_base.specs.Sections.{Sections as SectionBytes};
ghost use Rattle.dwc_read.specs.UnitTables.{IsTable};
ghost use Rattle.dwc_read.specs.KnownTables.{IsKnown};

use crate::Sections;
use crate::abbreviation::numbered_declarations;
use crate::chain::Chain;
use crate::headers::next_header;
use crate::table::Table;
use crate::unit_table::UnitTable;
use dwc_base::{Cursor, Flaw, SectionName};
use std::alloc::{AllocError, Global};
use std::rc::Rc;

// Declarations that were read one behind another, and where each begins. A table at one of these places is what stands from there on.
// Where there is a flaw, it is that of each of them.
#[derive(Drop)]
pub struct KnownChain {
    pub begin: u32,
    pub starts: Vec<usize>,
    pub flaw: Option<Flaw>,
    pub chain: Rc<Chain>,
}

// The offsets of the tables that the units to come name, in rising order.
pub fn named_tables(alloc: Global, headers: &Cursor<'_>) -> Result<Vec<u32>, AllocError>
    ensures { IfOk result (λ offsets. IsSorted nat_cmp offsets.items) }
{
    let mut ahead = headers.fork();
    let mut offsets = Vec::new(alloc);
    while let Ok(Some(header)) = next_header(&mut ahead) {
        offsets.push(header.abbreviations)?;
    }
    offsets.sort_unstable();
    Ok(offsets)
}

// The declarations from an offset of `.debug_abbrev` on.
fn read_chain(alloc: Global, sections: &Sections<'_>, offset: u32) -> Result<KnownChain, AllocError>
    ensures { IfOk result (IsKnown sections.now) }
{
    let bytes = sections.bytes(SectionName::Abbrev);
    let cursor = Cursor::at(bytes, offset, sections.order());
    let read = numbered_declarations(alloc, cursor)?;
    Ok(KnownChain {
        begin: offset,
        starts: read.starts,
        flaw: read.flaw,
        chain: Rc::new(alloc, Chain::new(alloc, read.declarations)?)?,
    })
}

// The last chain that begins at an offset or before it.
fn chain_near(chains: &[KnownChain], offset: u32) -> Option<&KnownChain>
    ensures { (sections : SectionBytes) → All (IsKnown sections) chains.now → IfSome result (λ chain. IsKnown sections chain.now) }
{
    let count = chains.partition_point(|chain| chain.begin <= offset);
    chains.get(count.checked_sub(1)?)
}

// The number of the declaration that begins at a place.
fn number_at(starts: &[usize], place: usize) -> Option<usize>
    ensures { IfSome result (λ number. slice_get starts.now number ≡ Some place) }
{
    let number = starts.partition_point(|start| *start < place);
    match starts.get(number) {
        Some(start) if *start == place => Some(number),
        _ => None,
    }
}

// Whether the table at an offset is among those that were read.
fn is_known(chains: &[KnownChain], offset: u32) -> bool {
    match chain_near(chains, offset) {
        None => false,
        Some(near) => number_at(&near.starts, offset as usize).is_some(),
    }
}

// Reads the tables that units name, up to an offset of `.debug_abbrev`, and each only where no other has it at its end. So many of
// their offsets were passed.
pub fn read_up_to(
    alloc: Global,
    sections: &Sections<'_>,
    offset: u32,
    named: &[u32],
    passed: &mut usize,
    chains: &mut Vec<KnownChain>,
) -> Result<(), AllocError>
    requires { All (IsKnown sections.now) chains.old.items }
    ensures { All (IsKnown sections.now) chains.new.items }
{
    while *passed < named.len() {
        let next = named[*passed];
        if next > offset {
            return Ok(());
        }
        if !is_known(chains, next) {
            let chain = read_chain(alloc, sections, next)?;
            chains.push(chain)?;
        }
        *passed += 1;
    }
    Ok(())
}

// The table at an offset of `.debug_abbrev`, if it is among those that were read.
pub fn known_table(
    alloc: Global,
    chains: &[KnownChain],
    offset: u32,
) -> Result<Option<UnitTable>, AllocError>
    ensures { (sections : SectionBytes) → All (IsKnown sections) chains.now → IfOk result (λ o. IfSome o (IsTable sections offset)) }
{
    let Some(near) = chain_near(chains, offset) else {
        return Ok(None);
    };
    let Some(number) = number_at(&near.starts, offset as usize) else {
        return Ok(None);
    };
    Ok(Some(UnitTable {
        flaw: near.flaw,
        table: Rc::new(alloc, Table::new(near.chain.clone()?, number))?,
    }))
}
