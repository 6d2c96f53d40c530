//! What a line program does that shows.
use dwc_base::{Address, LineRow};

/// A step of a line table, in the order of its program.
#[derive(Clone, Copy)]
pub enum LineStep {
    /// A `DW_LNE_set_address`: the offsets of the rows behind it count from this address.
    Start(Address),
    /// A row, its file by number.
    Row(LineRow),
    /// A `DW_LNE_end_sequence`: the offset at which the sequence ends, and none above 2^32 - 1.
    End(Option<u64>),
}

/// What stops the rows of a segment.
#[derive(Clone, Copy)]
pub enum LineStop {
    /// The next one's start.
    Start(Address),
    /// The end of the sequence, as that of a step.
    End(Option<u64>),
}

/// What one instruction does that shows.
#[derive(Clone, Copy)]
pub enum Shown {
    Nothing,
    Step(LineStep),
    /// A row whose offset is above 2^32 - 1, or whose line is not from 0 to 2^32 - 1.
    OutOfRange,
}
