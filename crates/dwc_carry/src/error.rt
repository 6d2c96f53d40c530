//! Why no DWARF is emitted.
ghost use Rattle.std.specs.Prelude.{◌≡◌};

use dwc_addr::AddrError;
use dwc_base::{Kind, Limit, MapFault, SectionName, What};
use dwc_isa::{Reg, ValueLabel};
use dwc_read::ReadFault;
use dwc_section::WriteError;
use dwc_source::CloneError;
use dwc_tabs::TabFault;
use std::alloc::{AllocError, AllocFailed};
use thiserror::Error;

/// Why no DWARF is emitted for an input.
#[derive(Debug, Drop, Error)]
pub enum DebugError {
    /// The bytes at `offset` of a section are no such thing of DWARF.
    #[error("Read {what:?} {name} {offset}", name = section.text())]
    Read {
        what: What,
        section: SectionName,
        offset: u64,
    },
    /// What stands at `offset` is of a kind that is refused.
    #[error("Unsupported {what:?} {offset}")]
    Unsupported {
        what: Kind,
        offset: u64,
    },
    /// In the line table at `offset` a row names a file that is not there, a file names a directory that is not there, or a
    /// file's name is empty.
    #[error("InvalidFileIndex {offset}")]
    InvalidFileIndex {
        offset: u64,
    },
    /// The address map of a function, by its place among the defined ones of its module, breaks a rule.
    #[error("BadAddressMap {module} {func} {why:?}")]
    BadAddressMap {
        module: u32,
        func: u32,
        why: MapFault,
    },
    /// A label that an expression needs has a range that begins above its end.
    #[error("BadLabelRange {}", label.0)]
    BadLabelRange {
        label: ValueLabel,
    },
    /// An expression reads linear memory, and the module, by its place among all, has none.
    #[error("InvalidAttributeValue {module}")]
    InvalidAttributeValue {
        module: u32,
    },
    /// A value that an expression needs lies in a register for which the target has no number of DWARF.
    #[error("UnmappedRegister {}", register.0)]
    UnmappedRegister {
        register: Reg,
    },
    /// The path of the unit for functions without debugging information names no file: its name is empty, `.` or `..`.
    #[error("Path")]
    Path,
    /// The code offsets of a frame description fall, or are no multiples of the code factor; the function by its number.
    #[error("InvalidFrameCodeOffset {symbol}")]
    InvalidFrameCodeOffset {
        symbol: usize,
    },
    /// A factored offset of a frame description is no multiple of the data factor; the function by its number.
    #[error("InvalidFrameDataOffset {symbol}")]
    InvalidFrameDataOffset {
        symbol: usize,
    },
    /// A section would be longer than it can be; a function with a symbol is longer than an addend can say; a range of the input ends
    /// where no address is; a jump of an expression goes further than it can; an expression of a location list is too long; or the linear
    /// memory of a module is too far behind in its context.
    #[error("TooLarge {limit}{name}", limit = limit_text(*what), name = section_text(*what))]
    TooLarge {
        what: Limit,
    },
    #[error("out of memory")]
    OutOfMemory,
}

// What is too large, in front of a section's name.
fn limit_text(what: Limit) -> &'static str {
    match what {
        Limit::Section(_) => "Section ",
        Limit::Addend => "Addend",
        Limit::Range => "Range",
        Limit::Jump => "Jump",
        Limit::Expression => "Expression",
        Limit::Vmctx => "Vmctx",
    }
}

// The name of the section that is too large, if one is.
fn section_text(what: Limit) -> &'static str {
    match what {
        Limit::Section(name) => name.text(),
        Limit::Addend | Limit::Range | Limit::Jump | Limit::Expression | Limit::Vmctx => "",
    }
}

// The refusal of bytes at an offset of the section of a name.
fn unreadable(what: What, name: SectionName, offset: u64) -> DebugError
    ensures { result ≡ DebugError.Read what name offset }
{
    DebugError::Read {
        what,
        section: name,
        offset,
    }
}

impl From<ReadFault> for DebugError {
    ghost use Rattle.std.specs.Prelude.{◌≡◌};
    ghost use Rattle.dwc_carry.specs.Refusals.{of_reading};

    ghost from_gives = { λ fault e. e ≡ of_reading fault };

    fn from(fault: ReadFault) -> DebugError {
        match fault {
            ReadFault::Read {
                what,
                section,
                offset,
            } => unreadable(what, section, offset),
            ReadFault::Unsupported { what, offset } => DebugError::Unsupported { what, offset },
            ReadFault::OutOfMemory => DebugError::OutOfMemory,
        }
    }
}

impl From<AddrError> for DebugError {
    ghost use Rattle.std.specs.Prelude.{◌≡◌};
    ghost use Rattle.dwc_carry.specs.Refusals.{of_maps};

    ghost from_gives = { λ error e. e ≡ of_maps error };

    fn from(error: AddrError) -> DebugError {
        match error {
            AddrError::BadAddressMap { module, func, why } => DebugError::BadAddressMap {
                module,
                func,
                why,
            },
            AddrError::OutOfMemory => DebugError::OutOfMemory,
        }
    }
}

impl From<TabFault> for DebugError {
    ghost use Rattle.std.specs.Prelude.{◌≡◌};
    ghost use Rattle.dwc_carry.specs.Refusals.{of_table};

    ghost from_gives = { λ fault e. e ≡ of_table fault };

    fn from(fault: TabFault) -> DebugError {
        match fault {
            TabFault::Read {
                what,
                section,
                offset,
            } => unreadable(what, section, offset),
            TabFault::Unsupported { what, offset } => DebugError::Unsupported { what, offset },
            TabFault::InvalidFileIndex { offset } => DebugError::InvalidFileIndex { offset },
            TabFault::OutOfMemory => DebugError::OutOfMemory,
        }
    }
}

impl From<CloneError> for DebugError {
    ghost use Rattle.std.specs.Prelude.{◌≡◌};
    ghost use Rattle.dwc_carry.specs.Refusals.{of_cloning};

    ghost from_gives = { λ error e. e ≡ of_cloning error };

    fn from(error: CloneError) -> DebugError {
        match error {
            CloneError::Read {
                what,
                section,
                offset,
            } => unreadable(what, section, offset),
            CloneError::Unsupported { what, offset } => DebugError::Unsupported { what, offset },
            CloneError::LongRange => DebugError::TooLarge { what: Limit::Range },
            CloneError::BadLabelRange { label } => DebugError::BadLabelRange { label },
            CloneError::InvalidAttributeValue { module } => {
                DebugError::InvalidAttributeValue { module }
            }
            CloneError::UnmappedRegister { register } => {
                DebugError::UnmappedRegister { register }
            }
            CloneError::LongJump => DebugError::TooLarge { what: Limit::Jump },
            CloneError::OutOfMemory => DebugError::OutOfMemory,
        }
    }
}

impl From<WriteError> for DebugError {
    ghost use Rattle.std.specs.Prelude.{◌≡◌};
    ghost use Rattle.dwc_carry.specs.Refusals.{of_writing};

    ghost from_gives = { λ error e. e ≡ of_writing error };

    fn from(error: WriteError) -> DebugError {
        match error {
            WriteError::TooLarge { what } => DebugError::TooLarge { what },
            WriteError::InvalidFrameCodeOffset { symbol } => {
                DebugError::InvalidFrameCodeOffset { symbol }
            }
            WriteError::InvalidFrameDataOffset { symbol } => {
                DebugError::InvalidFrameDataOffset { symbol }
            }
            WriteError::OutOfMemory => DebugError::OutOfMemory,
        }
    }
}

impl From<AllocError> for DebugError {
    ghost use Rattle.std.specs.Prelude.{◌≡◌};
    ghost use Rattle.dwc_carry.specs.declared.error.DebugError.TheVariants.{OutOfMemory};

    ghost from_gives = { λ _ e. e ≡ OutOfMemory };

    fn from(_: AllocError) -> DebugError {
        DebugError::OutOfMemory
    }
}

impl<T: Drop> From<AllocFailed<T>> for DebugError {
    ghost use Rattle.std.specs.Prelude.{◌≡◌};
    ghost use Rattle.dwc_carry.specs.declared.error.DebugError.TheVariants.{OutOfMemory};

    ghost from_gives = { λ _ e. e ≡ OutOfMemory };

    fn from(_: AllocFailed<T>) -> DebugError {
        DebugError::OutOfMemory
    }
}
