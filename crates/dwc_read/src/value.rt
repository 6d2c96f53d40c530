//! The values of attributes. (DWARF 4, section 7.5.4; DWARF 5, sections 7.5.4 to 7.5.6.)

use dwc_base::Address;

/// The value of an attribute, by its form and name. Texts, blocks and expressions are lent from the section.
#[derive(Clone, Copy, Debug)]
pub enum AttributeValue<'d> {
    /// An address.
    Addr(Address),
    /// An address by its index in `.debug_addr`.
    AddrIndex(u64),
    /// A constant with the form that spells it; a signed one is its 64 bits.
    Constant { form: u16, bits: u64 },
    /// A truth value.
    Flag(bool),
    /// A block of bytes.
    Block(&'d [u8]),
    /// An expression.
    Exprloc(&'d [u8]),
    /// A text in place, without the 0 at its end.
    Text(&'d [u8]),
    /// A text elsewhere, by the offset or the index that its form says.
    TextRef { form: u16, bits: u64 },
    /// A line table, by its offset in `.debug_line`.
    LineRef(u64),
    /// A range list, by its offset in `.debug_ranges` or `.debug_rnglists`.
    RangeRef(u64),
    /// A range list, by its index in the unit's contribution to `.debug_rnglists`.
    RangeIndex(u64),
    /// A location list, by its offset in `.debug_loc` or `.debug_loclists`.
    LocRef(u64),
    /// A location list, by its index in the unit's contribution to `.debug_loclists`.
    LocIndex(u64),
    /// An entry of the same unit, by its offset from the unit's first byte.
    UnitRef(u64),
    /// An entry of any unit, by its offset in `.debug_info`.
    InfoRef(u64),
    /// A value that was read and means nothing here.
    Dropped,
}
