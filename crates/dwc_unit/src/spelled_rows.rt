//! The rows of a sequence, kept as the bytes of their instructions. (DWARF 4, section 6.2.5.)
ghost use Rattle.std.specs.Prelude.{◌≡◌, ◌++◌, ◌∷◌, [], ◌≤◌, ◌<◌, ◌^◌, OnOk, OnErr, IfOk};
ghost use Rattle.dwc_base.specs.declared.records.Endian.TheVariants.{Little};
ghost use Rattle.dwc_unit.specs.GivenLines.{last_offset, row_at};
ghost use Rattle.dwc_unit.specs.SpelledLines.{FitsRow, first_row, program_bytes, rows_instructions};

use crate::rows::{FIRST_ROW, WIDEST_END, WIDEST_ROW, put_end, put_row};
use dwc_base::LineRow;
use std::alloc::{AllocError, Global};
use std::marker::Model;

/// The rows of a sequence that is not ended.
#[derive(Drop)]
pub(crate) struct SpelledRows {
    code: Vec<u8>,
    last: LineRow,
}

impl Model for SpelledRows {
    ghost use Rattle.std.specs.Prelude.{List};
    ghost use Rattle.dwc_base.specs.declared.records.LineRow.{LineRow};
    ghost use Rattle.dwc_unit.specs.ToldRows.{AreSpelled, rows_told};

    ghost Value = { List LineRow };

    ghost view = { λ r. rows_told r.code.items };

    ghost invariant = { λ r. AreSpelled r.code.items r.last };
}

impl SpelledRows {
    // No rows.
    #[tactic(auto, using(crate::proofs::ToldLaws::none_spelled, crate::proofs::ToldLaws::none_told))]
    pub(crate) fn new(alloc: Global) -> SpelledRows
        ensures { result ≡ [] }
    {
        SpelledRows {
            code: Vec::new(alloc),
            last: FIRST_ROW,
        }
    }

    // Forgets the rows.
    #[tactic(auto, using(crate::proofs::ToldLaws::none_spelled, crate::proofs::ToldLaws::none_told))]
    pub(crate) fn clear(&mut self)
        ensures { self.new ≡ [] }
    {
        self.code.clear();
        self.last = FIRST_ROW;
    }

    // Appends a row at an offset.
    #[inline(always)]
    pub(crate) fn push(&mut self, row: &LineRow, offset: u64) -> Result<(), AllocError>
        requires fits { FitsRow (row_at offset row.now) }
        requires behind { last_offset 0 self.old ≤ offset }
        ensures ok { OnOk result (self.new ≡ self.old ++ row_at offset row.now ∷ []) }
        ensures err { OnErr result (self.new ≡ self.old) }
    {
        self.code.reserve(WIDEST_ROW)?;
        put_row(&mut self.code, &self.last, row, offset);
        self.last = LineRow { offset, ..*row };
        Ok(())
    }

    // The same rows with an end, in memory of their own.
    pub(crate) fn ended(&self, end_offset: u64) -> Result<EndedRows, AllocError>
        requires behind { last_offset 0 self.now ≤ end_offset }
        requires fits { end_offset < 2 ^ 32 }
        ensures { IfOk result (λ e. e ≡ record { rows = self.now; end_offset = end_offset }) }
    {
        let mut code = Vec::with_capacity(*self.code.allocator(), self.code.len() + WIDEST_END)?;
        code.extend_from_slice(&self.code)?;
        put_end(&mut code, &self.last, end_offset)?;
        Ok(EndedRows { code })
    }
}

/// The rows of a sequence, and its end.
#[derive(Drop)]
pub struct EndedRows {
    code: Vec<u8>,
}

impl Model for EndedRows {
    ghost use Rattle.dwc_unit.specs.ToldRows.{AreSpelledToEnd, RowsToEnd, rows_to_end};

    ghost Value = { RowsToEnd };

    ghost view = { λ e. rows_to_end e.code.items };

    ghost invariant = { λ e. AreSpelledToEnd e.code.items };
}

impl EndedRows {
    /// The bytes of their instructions.
    pub fn code(&self) -> &[u8]
        ensures { result.now ≡ program_bytes Little 8 (rows_instructions first_row self.now.rows self.now.end_offset) }
    {
        &self.code
    }
}
