//! Why a line table is refused.
ghost use Rattle.std.specs.Prelude.{◌≡◌, Some};
ghost use Rattle.dwc_base.specs.Sections.{fault_of};
ghost use Rattle.dwc_base.specs.declared.faults.What.TheVariants.{LineTable as LineTableRead};
ghost use Rattle.dwc_base.specs.declared.section_name.SectionName.TheVariants.{Line};
ghost use Rattle.dwc_tabs.specs.Faults.{fault_view};

use dwc_base::{Flaw, Kind, SectionName, What};
use thiserror::Error;

/// Why a line table is refused.
#[derive(Clone, Copy, Debug, Error)]
pub enum TabFault {
    /// The bytes at `offset` of a section are no such thing of the grammar.
    #[error("Read {what:?} {name} {offset}", name = section.text())]
    Read {
        what: What,
        section: SectionName,
        offset: u64,
    },
    /// What stands at `offset` is of a kind that is refused.
    #[error("Unsupported {what:?} {offset}")]
    Unsupported {
        what: Kind,
        offset: u64,
    },
    /// In the table at `offset` a row names a file that is not there, a file names a directory that is not there, or the name
    /// of a file, or of a directory above 0, is empty.
    #[error("InvalidFileIndex {offset}")]
    InvalidFileIndex {
        offset: u64,
    },
    #[error("out of memory")]
    OutOfMemory,
}

// The fault that a flaw of the table at an offset makes.
pub fn flawed(flaw: Flaw, offset: u64) -> TabFault
    ensures { fault_view result ≡ Some (fault_of LineTableRead Line offset flaw) }
{
    match flaw {
        Flaw::Refused(what) => TabFault::Unsupported { what, offset },
        Flaw::EndsEarly | Flaw::TooWide | Flaw::Malformed => TabFault::Read {
            what: What::LineTable,
            section: SectionName::Line,
            offset,
        },
    }
}
