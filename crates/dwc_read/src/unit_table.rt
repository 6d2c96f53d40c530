//! The abbreviation table of a unit, which several units may share.
ghost use Rattle.std.specs.Prelude.{◌≡◌, IfOk, IsOkUnless, map};
ghost use Rattle.dwc_read.specs.declared.fault.ReadFault.TheVariants.{OutOfMemory};
ghost use Rattle.dwc_read.specs.Tables.{declaration_view};
ghost use Rattle.dwc_read.specs.UnitTables.{IsTable, IsSame};
ghost use Rattle.dwc_base.specs.Sections.{Sections as SectionBytes};
ghost use Rattle.dwc_read.specs.KnownTables.{AreKnown, AreKnownIf};

use crate::abbreviation::declarations;
use crate::chain::Chain;
use crate::declaration::Declaration;
use crate::known_tables::{KnownChain, known_table, named_tables, read_up_to};
use crate::table::Table;
use crate::{ReadFault, Sections};
use dwc_base::{Cursor, Flaw, NotRead, SectionName};
use std::alloc::{AllocError, Global};
use std::rc::Rc;

// What stands at an offset of `.debug_abbrev`: a table, or none, for a flaw; then `table` is not used. It is read when a unit's header
// is, and the flaw is told when the table is first used.
#[derive(Drop)]
pub struct UnitTable {
    pub flaw: Option<Flaw>,
    pub table: Rc<Table>,
}

// The table that was asked for last, and its offset in `.debug_abbrev`.
#[derive(Drop)]
pub struct LastTable {
    offset: u32,
    table: UnitTable,
}

// The tables that were read, in chains of declarations that begin one behind another, and the one that was asked for last. The units
// name tables at some offsets, of which so many were passed.
#[derive(Drop)]
pub struct KnownTables {
    chains: Vec<KnownChain>,
    named: Vec<u32>,
    passed: usize,
    last: Option<LastTable>,
}

// Before any table is read.
fn no_tables(alloc: Global, headers: &Cursor<'_>) -> Result<KnownTables, AllocError>
    ensures { IfOk result (λ tables. (sections : SectionBytes) → AreKnown sections tables) }
{
    Ok(KnownTables {
        chains: Vec::new(alloc),
        named: named_tables(alloc, headers)?,
        passed: 0,
        last: None,
    })
}

// The same table once more.
pub fn shared(table: &UnitTable) -> Result<UnitTable, AllocError>
    ensures { IfOk result (IsSame table.now) }
{
    Ok(UnitTable {
        flaw: table.flaw,
        table: table.table.clone()?,
    })
}

// The table of some declarations, to be shared.
fn table_of(alloc: Global, declarations: Vec<Declaration>) -> Result<Rc<Table>, AllocError>
    ensures { IfOk result (λ t. t.value ≡ map declaration_view declarations.items) }
{
    let chain = Rc::new(alloc, Chain::new(alloc, declarations)?)?;
    Ok(Rc::new(alloc, Table::new(chain, 0))?)
}

// The table at an offset of `.debug_abbrev`, as it is read.
fn read_table(alloc: Global, sections: &Sections<'_>, offset: u32) -> Result<UnitTable, ReadFault>
    ensures table { IfOk result (λ t. IsTable sections.now offset t) }
    ensures memory { IsOkUnless result OutOfMemory }
{
    let bytes = sections.bytes(SectionName::Abbrev);
    let mut cursor = Cursor::at(bytes, offset, sections.order());
    match declarations(alloc, &mut cursor) {
        Ok(declarations) => Ok(UnitTable {
            flaw: None,
            table: table_of(alloc, declarations)?,
        }),
        Err(NotRead::Flawed(flaw)) => Ok(UnitTable {
            flaw: Some(flaw),
            table: table_of(alloc, Vec::new(alloc))?,
        }),
        Err(NotRead::OutOfMemory) => Err(ReadFault::OutOfMemory),
    }
}

// The table at an offset of `.debug_abbrev`: one that is known, or else one that is read.
fn found_table(
    alloc: Global,
    sections: &Sections<'_>,
    offset: u32,
    tables: &mut KnownTables,
) -> Result<UnitTable, ReadFault>
    requires { AreKnown sections.now tables.old }
    ensures table { IfOk result (λ t. IsTable sections.now offset t) }
    ensures memory { IsOkUnless result OutOfMemory }
    ensures known { AreKnown sections.now tables.new }
{
    let named = &tables.named;
    read_up_to(
        alloc,
        sections,
        offset,
        named,
        &mut tables.passed,
        &mut tables.chains,
    )?;
    match known_table(alloc, &tables.chains, offset)? {
        Some(table) => Ok(table),
        None => read_table(alloc, sections, offset),
    }
}

// The table at an offset of `.debug_abbrev`, which then is the one that was asked for last.
fn next_table(
    alloc: Global,
    sections: &Sections<'_>,
    offset: u32,
    tables: &mut KnownTables,
) -> Result<UnitTable, ReadFault>
    requires { AreKnown sections.now tables.old }
    ensures table { IfOk result (λ t. IsTable sections.now offset t) }
    ensures memory { IsOkUnless result OutOfMemory }
    ensures known { AreKnown sections.now tables.new }
{
    if let Some(last) = &tables.last
        && last.offset == offset
    {
        return Ok(shared(&last.table)?);
    }
    let table = found_table(alloc, sections, offset, tables)?;
    tables.last = Some(LastTable {
        offset,
        table: shared(&table)?,
    });
    Ok(table)
}

// The same, where no table may be known yet, with the headers of the units to come.
pub fn shared_table(
    alloc: Global,
    sections: &Sections<'_>,
    headers: &Cursor<'_>,
    offset: u32,
    tables: &mut Option<KnownTables>,
) -> Result<UnitTable, ReadFault>
    requires { AreKnownIf sections.now tables.old }
    ensures table { IfOk result (λ t. IsTable sections.now offset t) }
    ensures memory { IsOkUnless result OutOfMemory }
    ensures known { AreKnownIf sections.now tables.new }
{
    let mut known = match tables.take() {
        Some(known) => known,
        None => no_tables(alloc, headers)?,
    };
    let table = next_table(alloc, sections, offset, &mut known);
    *tables = Some(known);
    table
}
