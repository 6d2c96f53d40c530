//! The row of a line table for a native byte of a function, by scans.
ghost use Rattle.std.specs.Prelude.{◌≡◌, List, map, option_map};
ghost use Rattle.std.specs.Option.{option_or};
ghost use Rattle.dwc_dwarf.specs.LineRows.{LineTable, named_row, row_in_force};
ghost use Rattle.dwc_native.specs.Functions.{Function, recorded_sources};
ghost use Rattle.dwc_native.specs.Images.{row_of_source, row_of_last, row_of_first, row_for_byte};
ghost use Rattle.dwc_plain.specs.PlainRows.{contents_in, source_view, last_at, at_source, at_last, at_first};

use dwc_base::LineRow;

/// The row in force at an offset of a segment: the last one, in order, whose offset is at most that (DWARF 4, section
/// 6.2.2).
pub fn row_in_force(rows: &[LineRow], offset: u64) -> Option<LineRow>
    ensures contents { (t : LineTable) → option_map (contents_in t) result ≡ row_in_force (map (named_row t) rows.now) offset }
    ensures row { result ≡ last_at rows.now offset }
{
    let mut found = None;
    for row in rows {
        if row.offset <= offset {
            found = Some(*row);
        }
    }
    found
}

/// The row for a native byte of a function, of a segment's rows that begin at the wasm offset `start`. The sources are the
/// function's (native offset, wasm offset) in order. The row is that of the last source at or below the byte that has one,
/// and before any such source that of the first. A source has the row in force at its distance to the start, and none below
/// the start.
pub fn row_for_byte(
    rows: &[LineRow],
    start: u64,
    sources: &[(u64, u64)],
    byte: u64,
) -> Option<LineRow>
    ensures contents { (t : LineTable) (f : Function) → recorded_sources f ≡ map source_view sources.now → option_map (contents_in t) result ≡ row_for_byte (map (named_row t) rows.now) start f byte }
    ensures row { result ≡ option_or (at_last rows.now start (map source_view sources.now) byte) (at_first rows.now start (map source_view sources.now)) }
{
    match row_of_last(rows, start, sources, byte) {
        Some(row) => Some(row),
        None => row_of_first(rows, start, sources),
    }
}

// The row in force at a source; none below the start.
fn row_of_source(rows: &[LineRow], start: u64, source: (u64, u64)) -> Option<LineRow>
    ensures contents { (t : LineTable) → option_map (contents_in t) result ≡ row_of_source (map (named_row t) rows.now) start (source_view source) }
    ensures row { result ≡ at_source rows.now start (source_view source) }
{
    if start <= source.1 {
        row_in_force(rows, source.1 - start)
    } else {
        None
    }
}

// The row of the last source at or below a byte that has one.
fn row_of_last(rows: &[LineRow], start: u64, sources: &[(u64, u64)], byte: u64) -> Option<LineRow>
    ensures contents { (t : LineTable) → option_map (contents_in t) result ≡ row_of_last (map (named_row t) rows.now) start (map source_view sources.now) byte }
    ensures row { result ≡ at_last rows.now start (map source_view sources.now) byte }
{
    let mut found = None;
    for source in sources {
        if source.0 <= byte {
            found = row_of_source(rows, start, *source).or(found);
        }
    }
    found
}

// The row of the first source that has one.
fn row_of_first(rows: &[LineRow], start: u64, sources: &[(u64, u64)]) -> Option<LineRow>
    ensures contents { (t : LineTable) → option_map (contents_in t) result ≡ row_of_first (map (named_row t) rows.now) start (map source_view sources.now) }
    ensures row { result ≡ at_first rows.now start (map source_view sources.now) }
{
    for source in sources {
        let row = row_of_source(rows, start, *source);
        if row.is_some() {
            return row;
        }
    }
    None
}
