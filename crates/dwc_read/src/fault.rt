//! Why a reader answers nothing.
ghost use Rattle.std.specs.Prelude.{◌≡◌, Some};
ghost use Rattle.dwc_base.specs.Sections.{fault_of};
ghost use Rattle.dwc_read.specs.Faults.{fault_seen, fault_not_read};

use dwc_base::{Flaw, Kind, NotRead, SectionName, What};
use std::alloc::{AllocError, AllocFailed};
use thiserror::Error;

/// Why a reader answers nothing.
#[derive(Clone, Copy, Debug, Error)]
pub enum ReadFault {
    /// The bytes at `offset` of a section are no such thing of the grammar.
    #[error("Read {what:?} {name} {offset}", name = section.text())]
    Read {
        what: What,
        section: SectionName,
        offset: u64,
    },
    /// What stands at `offset` is of a kind that is refused.
    #[error("Unsupported {what:?} {offset}")]
    Unsupported {
        what: Kind,
        offset: u64,
    },
    #[error("out of memory")]
    OutOfMemory,
}

impl ReadFault {
    ghost use Rattle.std.specs.Prelude.{◌≡◌, option_map};
    ghost use Rattle.dwc_read.specs.Faults.{fault_seen, fault_at};

    /// The same, told at another offset: who reads an entry tells what it names at the entry's offset.
    pub fn at(self, place: u64) -> ReadFault
        ensures { fault_seen result ≡ option_map (fault_at place) (fault_seen self) }
    {
        match self {
            ReadFault::Read { what, section, .. } => ReadFault::Read {
                what,
                section,
                offset: place,
            },
            ReadFault::Unsupported { what, .. } => ReadFault::Unsupported {
                what,
                offset: place,
            },
            ReadFault::OutOfMemory => ReadFault::OutOfMemory,
        }
    }
}

impl<T: Drop> From<AllocFailed<T>> for ReadFault {
    ghost use Rattle.std.specs.Prelude.{◌≡◌};
    ghost use Rattle.dwc_read.specs.declared.fault.ReadFault.TheVariants.{OutOfMemory};

    ghost from_gives = { λ _ e. e ≡ OutOfMemory };

    fn from(_: AllocFailed<T>) -> ReadFault {
        ReadFault::OutOfMemory
    }
}

impl From<AllocError> for ReadFault {
    ghost use Rattle.std.specs.Prelude.{◌≡◌};
    ghost use Rattle.dwc_read.specs.declared.fault.ReadFault.TheVariants.{OutOfMemory};

    ghost from_gives = { λ _ e. e ≡ OutOfMemory };

    fn from(_: AllocError) -> ReadFault {
        ReadFault::OutOfMemory
    }
}

// The refusal of what is not read, at the place that it is reported at.
pub fn refusal(e: NotRead, what: What, section: SectionName, offset: u64) -> ReadFault
    ensures { fault_seen result ≡ fault_not_read what section offset e }
{
    match e {
        NotRead::OutOfMemory => ReadFault::OutOfMemory,
        NotRead::Flawed(flaw) => reported(flaw, what, section, offset),
    }
}

// The fault that a flaw makes at the place that it is reported at.
pub fn reported(flaw: Flaw, what: What, section: SectionName, offset: u64) -> ReadFault
    ensures { fault_seen result ≡ Some (fault_of what section offset flaw) }
{
    match flaw {
        Flaw::Refused(what) => ReadFault::Unsupported { what, offset },
        Flaw::EndsEarly | Flaw::TooWide | Flaw::Malformed => ReadFault::Read {
            what,
            section,
            offset,
        },
    }
}
