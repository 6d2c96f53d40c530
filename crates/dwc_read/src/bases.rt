//! Where the lists and the indexed values of a unit begin. (DWARF 5, sections 3.1.1 and 7.26 to 7.29.)
ghost use Rattle.std.specs.Prelude.{◌≡◌, option_and_then};
ghost use Rattle.std.specs.Option.{option_or, unwrap_or};
ghost use Rattle.dwc_base.specs.declared.section_name.SectionName.TheVariants.{Addr};
ghost use Rattle.dwc_base.specs.declared.records.Address.TheVariants.{Constant};
ghost use Rattle.dwc_dwarf.specs.Indexed.{usual_base, is_split, address_from};
ghost use Rattle.dwc_read.specs.Bases.{HasBases};
ghost use Rattle.dwc_read.specs.Headers.{header_view};
ghost use Rattle.dwc_read.specs.UnitTables.{IsTable};
ghost use Rattle.dwc_read.specs.RootValues.{said_number, said_address};

use crate::Sections;
use crate::header::Header;
use crate::indexed::address_indexed;
use crate::root_values::{Said, root_values};
use crate::unit_table::UnitTable;
use dwc_base::Address;
use dwc_base::constants::DW_UT_split_compile;

// Where the indexed values of a unit begin, each in its section, and which address its lists begin with. A unit may have no
// addresses by an index.
#[derive(Clone, Copy)]
pub struct Bases {
    pub texts: u64,
    pub addresses: Option<u64>,
    pub ranges: u64,
    pub locations: u64,
    pub lists: Address,
}

// The number that an attribute says.
fn number_of(said: Option<Said>) -> Option<u64>
    ensures { result ≡ option_and_then said_number said }
{
    match said? {
        Said::Number(number) => Some(number),
        _ => None,
    }
}

// Where a unit's addresses begin: where its root says so, or else behind a header; a split unit has none of its own.
fn base_of_addresses(header: &Header<'_>, said: Option<Said>) -> Option<u64>
    ensures { result ≡ option_or (option_and_then said_number said) (usual_base (is_split (header_view header.now)) Addr) }
{
    match number_of(said) {
        Some(base) => Some(base),
        None if header.unit_type == DW_UT_split_compile => None,
        None => Some(8),
    }
}

// The address that a unit's lists begin with: the one that its root has, or 0.
fn base_of_lists(
    sections: &Sections<'_>,
    header: &Header<'_>,
    addresses: Option<u64>,
    low_pc: Option<Said>,
) -> Address
    ensures { result ≡ unwrap_or (option_and_then (said_address (address_from sections.now (header_view header.now) addresses)) low_pc) (Constant 0) }
{
    match low_pc {
        Some(Said::Address(address)) => address,
        Some(Said::Index(index)) => match address_indexed(sections, header, addresses, index) {
            Ok(address) => address,
            Err(_) => Address::Constant(0),
        },
        _ => Address::Constant(0),
    }
}

// The bases of a unit, which its root says. A root that cannot be read says nothing.
pub fn bases_of_unit(sections: &Sections<'_>, header: &Header<'_>, table: &UnitTable) -> Bases
    requires { IsTable sections.now header.now.abbreviations table.now }
    ensures { HasBases sections.now (header_view header.now) result }
{
    let values = root_values(sections, header, table);
    let addresses = base_of_addresses(header, values.addr_base);
    Bases {
        texts: number_of(values.str_offsets_base).unwrap_or(8),
        addresses,
        ranges: number_of(values.rnglists_base).unwrap_or(12),
        locations: number_of(values.loclists_base).unwrap_or(12),
        lists: base_of_lists(sections, header, addresses, values.low_pc),
    }
}
