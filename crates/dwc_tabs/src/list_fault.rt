//! Why the intervals of a list are not told.

use dwc_base::{Kind, SectionName, What};
use thiserror::Error;

/// Why the intervals of a list are not told.
#[derive(Clone, Copy, Debug, Error)]
pub enum ListFault {
    /// The bytes at `offset` of a section are no such thing of the grammar.
    #[error("Read {what:?} {name} {offset}", name = section.text())]
    Read {
        what: What,
        section: SectionName,
        offset: u64,
    },
    /// What stands at `offset` is of a kind that is refused.
    #[error("Unsupported {what:?} {offset}")]
    Unsupported {
        what: Kind,
        offset: u64,
    },
    /// A start plus a length is no address.
    #[error("TooLarge Range")]
    TooLarge,
}
