//! The fields of an output section that hold the address of a function.
ghost use Rattle.std.specs.Prelude.{◌≡◌, [], Some, None, MatchOption};
ghost use Rattle.dwc_base.specs.Sections.{field_value, given_address};
ghost use Rattle.dwc_base.specs.Outputs.{field_relocations, field_relocation};

use crate::{Address, DwarfSectionReloc, DwarfSectionRelocTarget};
use std::marker::Model;

/// The function relocations of a section. Input has none.
#[derive(Drop)]
pub struct Relocations<'d> {
    list: &'d [DwarfSectionReloc],
}

impl<'d> Model for Relocations<'d> {
    ghost use Rattle.std.specs.Prelude.{List};
    ghost use Rattle.dwc_base.specs.Sections.{Relocation};
    ghost use Rattle.dwc_base.specs.Outputs.{field_relocations};

    ghost Value = { List Relocation };

    ghost view = { λ r. field_relocations r.list.now };
}

impl<'d> Relocations<'d> {
    /// The relocations of a section of an output.
    pub fn new(list: &'d [DwarfSectionReloc]) -> Relocations<'d>
        ensures { result ≡ field_relocations list.now }
    {
        Relocations { list }
    }

    /// Those of a section without any.
    pub fn none() -> Relocations<'d>
        ensures { result ≡ [] }
    {
        Relocations { list: &[] }
    }

    /// The same relocations once more.
    pub fn again(&self) -> Relocations<'d>
        ensures { result ≡ self.now }
    {
        Relocations { list: self.list }
    }

    /// The address that a field of `size` bytes at `offset` holds, whose bytes spell a number: a function's with the addend
    /// where a relocation of that size stands there, else the number. Of two such relocations the first counts.
    pub fn value(&self, offset: usize, size: u8, spelled: u64) -> Address
        ensures { result ≡ field_value self.now offset size spelled }
    {
        address_in(self.list, offset, size, spelled)
    }
}

// The first of them that stands at a field, or what the field spells.
fn address_in(list: &[DwarfSectionReloc], offset: usize, size: u8, spelled: u64) -> Address
    ensures { result ≡ field_value (field_relocations list.now) offset size spelled }
{
    for relocation in list {
        if let Some(address) = address_by(*relocation, offset, size) {
            return address;
        }
    }
    Address::Constant(spelled)
}

// The address that a relocation gives a field, if it stands there and names a function.
fn address_by(relocation: DwarfSectionReloc, offset: usize, size: u8) -> Option<Address>
    ensures { result ≡ given_address offset size (field_relocation relocation) }
{
    let DwarfSectionRelocTarget::Func(symbol) = relocation.target else {
        return None;
    };
    if relocation.offset as usize != offset || relocation.size != size {
        return None;
    }
    let addend = i64::from(relocation.addend);
    Some(Address::Symbol { symbol, addend })
}
