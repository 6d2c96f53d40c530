//! Where texts stand that values name.

use dwc_base::SectionName;

/// Where the text of a value stands, if it stands elsewhere: the section, `.debug_str` or `.debug_line_str`, and the offset in it.
#[derive(Clone, Copy)]
pub struct TextPlace {
    pub section: SectionName,
    pub offset: u64,
}
