//! Why bytes are not DWARF that is read, and what can grow too large.
use crate::SectionName;
use std::alloc::{AllocError, AllocFailed};

/// What was read where a fault was met.
#[derive(Clone, Copy, Debug, PartialEq, Eq)]
pub enum What {
    UnitHeader,
    Abbreviation,
    Entry,
    Text,
    AddressValue,
    LineTable,
    RangeList,
    LocationList,
    Expression,
    BaseName,
}

/// What is refused by name.
#[derive(Clone, Copy, Debug)]
pub enum Kind {
    /// The 64-bit format of DWARF.
    Format64,
    /// A version other than 2 to 5.
    Version,
    TypeUnit,
    /// A form that names a supplementary file.
    Supplementary,
    SegmentSelector,
    /// Several operations in one instruction of a line program.
    Operations,
    /// A `.zdebug_` section.
    Compressed,
    /// An address size other than 4 and 8.
    AddressSize,
}

/// What can grow too large.
#[derive(Clone, Copy, Debug)]
pub enum Limit {
    /// A section of more than 2^31 - 1 bytes.
    Section(SectionName),
    /// An address behind a function's symbol by more than 2^31 - 1 bytes.
    Addend,
    /// A range of the input whose start plus its length is no address.
    Range,
    /// A jump of an expression of more than 16 bits with a sign.
    Jump,
    /// An expression of a location list of more than 65,535 bytes.
    Expression,
    /// The context of a module up to its linear memory, of 2^32 bytes or more.
    Vmctx,
}

/// Why bytes do not spell what is read: they end too early, a number of variable length does not fit 64 bits, the grammar
/// has no such thing, or it is of a kind that is refused by name.
#[derive(Clone, Copy)]
pub enum Flaw {
    EndsEarly,
    TooWide,
    Malformed,
    Refused(Kind),
}

/// Why something is not read: for want of memory, or for its bytes.
#[derive(Clone, Copy)]
pub enum NotRead {
    OutOfMemory,
    Flawed(Flaw),
}

impl From<Flaw> for NotRead {
    ghost use Rattle.std.specs.Prelude.{◌≡◌};
    ghost use Rattle.dwc_base.specs.declared.faults.NotRead.TheVariants.{Flawed};

    ghost from_gives = { λ flaw e. e ≡ Flawed flaw };

    fn from(flaw: Flaw) -> NotRead {
        NotRead::Flawed(flaw)
    }
}

impl<T: Drop> From<AllocFailed<T>> for NotRead {
    ghost use Rattle.std.specs.Prelude.{◌≡◌};
    ghost use Rattle.dwc_base.specs.declared.faults.NotRead.TheVariants.{OutOfMemory};

    ghost from_gives = { λ _ e. e ≡ OutOfMemory };

    fn from(_: AllocFailed<T>) -> NotRead {
        NotRead::OutOfMemory
    }
}

impl From<AllocError> for NotRead {
    ghost use Rattle.std.specs.Prelude.{◌≡◌};
    ghost use Rattle.dwc_base.specs.declared.faults.NotRead.TheVariants.{OutOfMemory};

    ghost from_gives = { λ _ e. e ≡ OutOfMemory };

    fn from(_: AllocError) -> NotRead {
        NotRead::OutOfMemory
    }
}
