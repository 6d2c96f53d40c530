//! How cases end.
use crate::case::{Action, Case};
use crate::line_listing::list_lines;
use crate::unit_listing::list_units;
use anyhow::Result;
use dwc_cli::{MemSink, MemSource, run};
use std::alloc::{AllocError, Global};
use std::io::Write;

// How much is kept of what a run prints, and of its line.
const TEXT_ROOM: usize = 1 << 22;

const LINE_ROOM: usize = 4096;

/// Prints a case's name and how it ends, with an empty line behind.
pub(crate) fn print_ending<W: Write>(alloc: Global, out: &mut W, case: Case) -> Result<()> {
    writeln!(out, "case {}", case.name)?;
    match case.action {
        Action::Run => print_run(alloc, out, case)?,
        Action::Units => out.write_all(list_units(alloc, first_file(&case))?.as_bytes())?,
        Action::Lines => out.write_all(list_lines(alloc, first_file(&case))?.as_bytes())?,
    }
    writeln!(out)?;
    Ok(())
}

// The bytes of a case's first file.
fn first_file(case: &Case) -> &[u8] {
    match case.files.first() {
        Some((_, bytes)) => bytes,
        None => &[],
    }
}

// Runs the program, and prints its status, its line and its text.
fn print_run<W: Write>(alloc: Global, out: &mut W, case: Case) -> Result<()> {
    let mut source = MemSource::new(case.files, Vec::new(alloc));
    let mut text = sink(alloc, TEXT_ROOM)?;
    let mut line = sink(alloc, LINE_ROOM)?;
    let status = run(alloc, &case.words, &mut source, &mut text, &mut line);
    writeln!(out, "status {status}")?;
    out.write_all(line.bytes())?;
    out.write_all(text.bytes())?;
    Ok(())
}

// A sink that takes so many bytes, each piece whole.
fn sink(alloc: Global, room: usize) -> Result<MemSink, AllocError> {
    MemSink::new(alloc, room, room, Vec::new(alloc))
}
