//! The rows of an image: for each recorded source of a function that finds another row of a segment than the one before, that
//! row, at the source's code. The sources are a few runs along which they do not fall, so in each run the next source that finds
//! another row is itself looked for, among the next few, by steps that double, and then by halves: the work is that of the runs
//! and the rows written, not of all sources. Each row goes into the line program as it is found; the first begins the sequence.
ghost use Rattle.std.specs.Prelude.{◌≡◌, ℕ, List, Option, Some, ◌++◌, ◌+◌, ◌<◌, ◌≤◌, false, length, map, drop, nat_lt, slice_index_or, None, OnOk, IfOk, IsOkUnless, IsSome};
ghost use Rattle.std.specs.List.Sorted.{IsNonDecreasingBy};
ghost use Rattle.dwc_base.specs.declared.records.LineRow.{LineRow};
ghost use Rattle.dwc_addr.specs.Runs.{recorded_view, run_starts};
ghost use Rattle.dwc_image.specs.ImageRows.{move_row, placed_at, is_repeated, with_found, image_rows};
ghost use Rattle.dwc_image.specs.ImageSequences.{FitsImage, FitsNext, IsBegun, begun_rows, HasGrown};
ghost use Rattle.dwc_image.specs.RunRows.{RisesBetween, IsCut, IsFirstBehind};

use dwc_addr::{AddressMap, Sources};
use dwc_base::{Address, LineRow};
use dwc_section::WriteError;
use dwc_unit::LineProgram;
use std::ops::Range;

// How many items next to a place are looked at one by one before those behind them are searched: most searches end there.
const NEAR: usize = 8;

// The end of the items next to a place.
fn near_end(from: usize, end: usize) -> usize
    requires { from ≤ end }
    ensures low { from ≤ result }
    ensures high { result ≤ end }
{
    if end - from > NEAR { from + NEAR } else { end }
}

// The first row between two places that begins above an offset; `end` where none does. Row by row.
fn above_by_steps(rows: &[LineRow], from: usize, end: usize, offset: u64) -> usize
    requires low { from ≤ end }
    requires high { end ≤ length rows.now }
    ensures { IsFirstBehind (λ r. r.offset) rows.now from end (offset + 1) result }
{
    for at in from..end {
        if rows[at].offset > offset {
            return at;
        }
    }
    end
}

// The same by halves.
fn above_by_halves(rows: &[LineRow], from: usize, end: usize, offset: u64) -> usize
    requires low { from ≤ end }
    requires high { end ≤ length rows.now }
    requires order { IsNonDecreasingBy (λ r. r.offset) rows.now }
    ensures { IsFirstBehind (λ r. r.offset) rows.now from end (offset + 1) result }
{
    from + rows[from..end].partition_point(|row| row.offset <= offset)
}

// How many rows do not begin above an offset, by a row that does not.
fn count_at(rows: &[LineRow], known: usize, offset: u64) -> usize
    requires order { IsNonDecreasingBy (λ r. r.offset) rows.now }
    requires known { known < length rows.now }
    requires below { (d : LineRow) → (slice_index_or rows.now known d).offset ≤ offset }
    ensures { IsCut rows.now offset result }
{
    let next = known + 1;
    if next < rows.len() && rows[next].offset > offset {
        return next;
    }
    count_behind(rows, known, offset)
}

// The same by a search.
fn count_behind(rows: &[LineRow], known: usize, offset: u64) -> usize
    requires order { IsNonDecreasingBy (λ r. r.offset) rows.now }
    requires known { known < length rows.now }
    requires below { (d : LineRow) → (slice_index_or rows.now known d).offset ≤ offset }
    ensures { IsCut rows.now offset result }
{
    let near = near_end(known + 1, rows.len());
    let found = above_by_steps(rows, known + 1, near, offset);
    if found < near {
        return found;
    }
    above_by_halves(rows, near, rows.len(), offset)
}

// Whether a source lies in front of a row of a segment that begins at `start`.
fn lies_before(source: AddressMap, start: u64, offset: u64) -> bool
    ensures { result ≡ nat_lt source.wasm (start + offset) }
{
    let wasm = u64::from(source.wasm);
    wasm < start || wasm - start < offset
}

// The first source from `from` on, and before `end`, that does not lie in front of a row; `end` where all do.
fn first_behind(sources: &Sources<'_>, from: usize, end: usize, start: u64, offset: u64) -> usize
    requires low { from ≤ end }
    requires high { end ≤ length sources.now }
    requires rises { RisesBetween (λ s. s.wasm) sources.now from end }
    ensures { IsFirstBehind (λ s. s.wasm) sources.now from end (start + offset) result }
{
    let near = near_end(from, end);
    let found = behind_by_steps(sources, from, near, start, offset);
    if found < near {
        return found;
    }
    behind_by_doubling(sources, near, end, start, offset)
}

// The same by steps that double, and then by halves: the work grows as the digits of how far it lies.
fn behind_by_doubling(
    sources: &Sources<'_>,
    from: usize,
    end: usize,
    start: u64,
    offset: u64,
) -> usize
    requires low { from ≤ end }
    requires high { end ≤ length sources.now }
    requires rises { RisesBetween (λ s. s.wasm) sources.now from end }
    ensures { IsFirstBehind (λ s. s.wasm) sources.now from end (start + offset) result }
{
    let mut at = from;
    let mut step = NEAR;
    while step < end - at {
        if !lies_before(sources.at(at + step), start, offset) {
            return behind_by_halves(sources, at, at + step, start, offset);
        }
        at += step + 1;
        step = step.saturating_mul(2);
    }
    behind_by_halves(sources, at, end, start, offset)
}

// The same source by source.
fn behind_by_steps(sources: &Sources<'_>, from: usize, end: usize, start: u64, offset: u64) -> usize
    requires low { from ≤ end }
    requires high { end ≤ length sources.now }
    ensures { IsFirstBehind (λ s. s.wasm) sources.now from end (start + offset) result }
{
    for at in from..end {
        if !lies_before(sources.at(at), start, offset) {
            return at;
        }
    }
    end
}

// The same by halves.
fn behind_by_halves(
    sources: &Sources<'_>,
    from: usize,
    end: usize,
    start: u64,
    offset: u64,
) -> usize
    requires low { from ≤ end }
    requires high { end ≤ length sources.now }
    requires rises { RisesBetween (λ s. s.wasm) sources.now from end }
    ensures { IsFirstBehind (λ s. s.wasm) sources.now from end (start + offset) result }
{
    let mut low = from;
    let mut high = end;
    while low < high {
        let middle = low + (high - low) / 2;
        if lies_before(sources.at(middle), start, offset) {
            low = middle + 1;
        } else {
            high = middle;
        }
    }
    low
}

// Adds a row that the source at an offset of a function's code found, unless it is the one found last, whose offset is
// `found`. The first row begins the sequence, and stands at its start.
fn add_row(
    program: &mut LineProgram,
    function: usize,
    row: &LineRow,
    native: u64,
    found: Option<u64>,
) -> Result<(), WriteError>
    requires sized { IsSome program.old.address_size }
    requires begun { IsBegun function found program.old.begun }
    requires next { is_repeated found row.now.offset ≡ false → FitsNext (length program.old.files) (begun_rows program.old.begun) (move_row (placed_at found native) row.now) }
    ensures rows { OnOk result ((rest : Option ℕ → List LineRow) → begun_rows program.new.begun ++ rest (Some row.now.offset) ≡ begun_rows program.old.begun ++ with_found (λ r. r.offset) move_row rest found native (Some row.now)) }
    ensures begun { OnOk result (HasGrown function (Some row.now.offset) program.old program.new) }
    ensures memory { IsOkUnless result WriteError.OutOfMemory }
{
    match found {
        None => {
            program.begin_sequence(Address::Symbol {
                symbol: function,
                addend: 0,
            })?;
            program.generate_row_at(row, 0)
        }
        Some(offset) if offset == row.offset => Ok(()),
        Some(_) => program.generate_row_at(row, native),
    }
}

// Adds the rows of the sources of a run; `found` is the offset of the row found last, and the answer that behind them.
fn add_run(
    program: &mut LineProgram,
    function: usize,
    rows: &[LineRow],
    start: u64,
    sources: &Sources<'_>,
    run: Range<usize>,
    found: Option<u64>,
) -> Result<Option<u64>, WriteError>
    requires order { IsNonDecreasingBy (λ r. r.offset) rows.now }
    requires some { 0 < length rows.now }
    requires low { run.start ≤ run.end }
    requires high { run.end ≤ length sources.now }
    requires rises { RisesBetween (λ s. s.wasm) sources.now run.start run.end }
    requires sized { IsSome program.old.address_size }
    requires begun { IsBegun function found program.old.begun }
    requires fits { FitsImage (length program.old.files) (begun_rows program.old.begun ++ image_rows rows.now start found (map recorded_view (drop run.start sources.now))) }
    ensures rows { IfOk result (λ last. begun_rows program.new.begun ++ image_rows rows.now start last (map recorded_view (drop run.end sources.now)) ≡ begun_rows program.old.begun ++ image_rows rows.now start found (map recorded_view (drop run.start sources.now))) }
    ensures begun { IfOk result (λ last. HasGrown function last program.old program.new) }
    ensures memory { IsOkUnless result WriteError.OutOfMemory }
{
    let mut found = found;
    let mut at = run.start;
    // Sources in front of this row find no row, or the one found last.
    let mut next = 0;
    while at < run.end {
        at = first_behind(sources, at, run.end, start, rows[next].offset);
        if at == run.end {
            return Ok(found);
        }
        let source = sources.at(at);
        let count = count_at(rows, next, u64::from(source.wasm) - start);
        let row = &rows[count - 1];
        add_row(program, function, row, source.generated as u64, found)?;
        found = Some(row.offset);
        if count == rows.len() {
            return Ok(found);
        }
        next = count;
        at += 1;
    }
    Ok(found)
}

/// Adds the rows of the image of a segment that begins at `start` for a function, by its number, to a sequence that begins with
/// the first; the answer is None where no source finds a row, and so no sequence is begun. Of the sources' runs the places of
/// all but the first are given.
///
/// # Errors
/// `OutOfMemory` for want of memory, and nothing else.
pub(crate) fn add_rows(
    program: &mut LineProgram,
    function: usize,
    rows: &[LineRow],
    start: u64,
    sources: &Sources<'_>,
    later_runs: &[usize],
) -> Result<Option<u64>, WriteError>
    requires order { IsNonDecreasingBy (λ r. r.offset) rows.now }
    requires runs { later_runs.now ≡ run_starts 0 0 (map recorded_view sources.now) }
    requires sized { IsSome program.old.address_size }
    requires ended { program.old.begun ≡ None }
    requires fits { FitsImage (length program.old.files) (image_rows rows.now start None (map recorded_view sources.now)) }
    ensures rows { OnOk result (begun_rows program.new.begun ≡ image_rows rows.now start None (map recorded_view sources.now)) }
    ensures begun { IfOk result (λ found. HasGrown function found program.old program.new) }
    ensures memory { IsOkUnless result WriteError.OutOfMemory }
{
    if rows.is_empty() {
        return Ok(None);
    }
    let mut found = None;
    let mut from = 0;
    for place in later_runs {
        found = add_run(program, function, rows, start, sources, from..*place, found)?;
        from = *place;
    }
    add_run(
        program,
        function,
        rows,
        start,
        sources,
        from..sources.len(),
        found,
    )
}
