//! A line table, as a text.
use anyhow::{Result, bail};
use dwc_base::{Address, LineRow};
use dwc_read::{Sections, Units};
use dwc_tabs::{LineStep, LineTable};
use dwc_wasm::split_wasm;
use std::alloc::Global;
use std::fmt::Write;

/// The line table at 0 of a WebAssembly module, as its first unit reads it; where it is refused, its fault.
///
/// There is a line `table VERSION`, a line `directory INDEX NAME` for each directory, a line `file INDEX DIRECTORY NAME` for
/// each file, and a line for each step: `start ADDRESS`, `end OFFSET` or a row as [`list_row`] has it.
pub(crate) fn list_lines(alloc: Global, file: &[u8]) -> Result<String> {
    let module_sections = split_wasm(alloc, file)?;
    let mut units = Units::new(Sections::of_module(&module_sections));
    let Some(unit) = units.next_unit(alloc)? else {
        bail!("no unit");
    };
    let mut text = String::new(alloc);
    match LineTable::read(alloc, &unit, 0) {
        Ok(table) => list_table(&mut text, &table)?,
        Err(fault) => writeln!(text, "{fault}")?,
    }
    Ok(text)
}

fn list_table(text: &mut String, table: &LineTable<'_>) -> Result<()> {
    writeln!(text, "table {}", table.version())?;
    for index in 0..=table.directory_count() {
        if let Some(name) = table.directory(index) {
            writeln!(text, "directory {index} {}", str::from_utf8(name)?)?;
        }
    }
    for index in 0..=table.file_count() {
        if let Some(file) = table.file(index) {
            let name = str::from_utf8(file.name)?;
            writeln!(text, "file {index} {} {name}", file.directory)?;
        }
    }
    list_steps(text, table)
}

fn list_steps(text: &mut String, table: &LineTable<'_>) -> Result<()> {
    let mut steps = table.rows();
    for _ in 0..u64::MAX {
        match steps.next() {
            Some(LineStep::Start(Address::Constant(address))) => writeln!(text, "start {address}")?,
            Some(LineStep::Start(Address::Symbol { symbol, addend })) => {
                writeln!(text, "start {symbol} {addend}")?;
            }
            Some(LineStep::Row(row)) => list_row(text, &row)?,
            Some(LineStep::End(Some(offset))) => writeln!(text, "end {offset}")?,
            Some(LineStep::End(None)) => writeln!(text, "end")?,
            None => break,
        }
    }
    Ok(())
}

// A row: its offset, file, line and column; its isa and its discriminator, where they are not 0; and the names of its flags.
fn list_row(text: &mut String, row: &LineRow) -> Result<()> {
    write!(
        text,
        "row {} {} {} {}",
        row.offset, row.file, row.line, row.column
    )?;
    if row.isa != 0 {
        write!(text, " isa {}", row.isa)?;
    }
    if row.discriminator != 0 {
        write!(text, " discriminator {}", row.discriminator)?;
    }
    for (flag, name) in [
        (row.is_stmt, "is_stmt"),
        (row.basic_block, "basic_block"),
        (row.prologue_end, "prologue_end"),
        (row.epilogue_begin, "epilogue_begin"),
    ] {
        if flag {
            write!(text, " {name}")?;
        }
    }
    writeln!(text)?;
    Ok(())
}
