//! A declaration of an abbreviation table. (DWARF 4 and 5, section 7.5.3.)
ghost use Rattle.dwc_read.specs.Skips.{AreSkips};

use crate::attribute_spec::AttributeSpec;

/// A declaration: its code, and the tag and the attributes of the entries that name it.
#[derive(Drop)]
pub struct Declaration {
    pub code: u64,
    pub tag: u16,
    pub has_children: bool,
    pub attributes: Vec<AttributeSpec>,
    ghost skips: { AreSkips attributes.items },
}
