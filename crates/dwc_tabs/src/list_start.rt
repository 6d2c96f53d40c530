//! Where a list of ranges or of locations begins, and the faults of what cannot be read there.
ghost use Rattle.std.specs.Prelude.{◌≡◌, Some};
ghost use Rattle.dwc_dwarf.specs.Lists.{of_place};
ghost use Rattle.dwc_base.specs.Sections.{Fault, fault_of};
ghost use Rattle.dwc_read.specs.Faults.{fault_seen};
ghost use Rattle.dwc_tabs.specs.RangeEnds.{refusal_view};

use crate::list_fault::ListFault;
use dwc_base::{Flaw, SectionName, What};
use dwc_read::ReadFault;

// Where a list begins: what it is, its section, and the offset of its first byte there.
#[derive(Clone, Copy)]
pub(crate) struct ListStart {
    pub what: What,
    pub section: SectionName,
    pub offset: u64,
}

// The fault of what cannot be read of a list, at an offset of a section.
pub(crate) fn list_fault(flaw: Flaw, what: What, section: SectionName, offset: u64) -> ReadFault
    ensures { fault_seen result ≡ Some (fault_of what section offset flaw) }
{
    match flaw {
        Flaw::Refused(what) => ReadFault::Unsupported { what, offset },
        Flaw::EndsEarly | Flaw::TooWide | Flaw::Malformed => ReadFault::Read {
            what,
            section,
            offset,
        },
    }
}

// The fault of a list that cannot be read.
pub(crate) fn unreadable(start: ListStart) -> ListFault
    ensures { result ≡ ListFault.Read start.what start.section start.offset }
{
    ListFault::Read {
        what: start.what,
        section: start.section,
        offset: start.offset,
    }
}

// The fault of an entry that cannot be read, which is never want of memory, as reading one takes none.
pub(crate) fn told(fault: ReadFault) -> ListFault
    ensures { (f : Fault) → fault_seen fault ≡ Some f → refusal_view result ≡ of_place f }
{
    match fault {
        ReadFault::Read {
            what,
            section,
            offset,
        } => ListFault::Read {
            what,
            section,
            offset,
        },
        ReadFault::Unsupported { what, offset } => ListFault::Unsupported { what, offset },
        ReadFault::OutOfMemory => ListFault::TooLarge,
    }
}
