//! What the root of a unit says of where its lists and indexed values begin. (DWARF 5, section 3.1.1.)
ghost use Rattle.std.specs.Prelude.{◌≡◌, None, map};
ghost use Rattle.dwc_base.specs.declared.section_name.SectionName.TheVariants.{Info};
ghost use Rattle.dwc_dwarf.specs.Indexed.{root_offsets, as_section_offset as read_as_offset};
ghost use Rattle.dwc_dwarf.specs.Values.{value_at};
ghost use Rattle.dwc_read.specs.Headers.{header_view};
ghost use Rattle.dwc_read.specs.AttributeSpecs.{spec_view};
ghost use Rattle.dwc_read.specs.UnitTables.{IsTable};
ghost use Rattle.dwc_read.specs.ValuesSeen.{value_view};
ghost use Rattle.dwc_read.specs.RootValues.{HoldsForEach, kept_first, AreOfRoot, AreAmong, named_offsets, GivesSaid, said};

use crate::attribute::encoded_value;
use crate::attribute_spec::AttributeSpec;
use crate::header::Header;
use crate::table::Table;
use crate::unit_table::UnitTable;
use crate::{AttributeValue, Sections};
use dwc_base::constants::{
    DW_AT_addr_base, DW_AT_loclists_base, DW_AT_low_pc, DW_AT_rnglists_base, DW_AT_stmt_list,
    DW_AT_str_offsets_base,
};
use dwc_base::{Address, Cursor, Encoding, Flaw, Relocations, SectionName};

// What a value says: a number, where it is a section offset or a constant, or an address, in place or by its index.
#[derive(Clone, Copy)]
pub enum Said {
    Number(u64),
    Address(Address),
    Index(u64),
    Nothing,
}

// What the first attributes of some names say, where a root has them.
#[derive(Clone, Copy)]
pub struct RootValues {
    pub str_offsets_base: Option<Said>,
    pub addr_base: Option<Said>,
    pub rnglists_base: Option<Said>,
    pub loclists_base: Option<Said>,
    pub low_pc: Option<Said>,
}

// What a value says, a section offset being one into a line table.
fn said_by(value: AttributeValue<'_>) -> Said
    ensures { result ≡ said (value_view value.entry) }
{
    match value {
        AttributeValue::LineRef(offset) => Said::Number(offset),
        AttributeValue::Constant { bits, .. } => Said::Number(bits),
        AttributeValue::Addr(address) => Said::Address(address),
        AttributeValue::AddrIndex(index) => Said::Index(index),
        _ => Said::Nothing,
    }
}

// No values.
fn no_values() -> RootValues
    ensures { HoldsForEach (λ name seen. seen ≡ None) result }
{
    RootValues {
        str_offsets_base: None,
        addr_base: None,
        rnglists_base: None,
        loclists_base: None,
        low_pc: None,
    }
}

// What the first attribute of a name says, with one more behind what was seen.
fn kept(seen: Option<Said>, wanted: u16, name: u16, more: Said) -> Option<Said>
    ensures { result ≡ kept_first wanted seen name more }
{
    if seen.is_none() && name == wanted {
        Some(more)
    } else {
        seen
    }
}

// An attribute as a line table's, whose section offset keeps its number.
fn as_section_offset(spec: AttributeSpec) -> AttributeSpec
    ensures { spec_view result ≡ read_as_offset (spec_view spec) }
{
    AttributeSpec::new(DW_AT_stmt_list, spec.form, spec.implicit)
}

// What an attribute of a root says.
#[tactic(auto, unfolding(dwc_dwarf::specs::Values::value_at))]
fn root_value(
    sections: &Sections<'_>,
    header: &Header<'_>,
    relocations: &Relocations<'_>,
    spec: AttributeSpec,
    cursor: &mut Cursor<'_>,
) -> Result<Said, Flaw>
    requires { relocations.now ≡ sections.now.relocations Info }
    ensures { GivesSaid (value_at sections.now (header_view header.now) (read_as_offset (spec_view spec)) cursor.old) cursor.new result }
{
    let encoding = Encoding {
        version: header.version,
        address_size: header.address_size,
    };
    let value = encoded_value(relocations, encoding, as_section_offset(spec), cursor)?;
    Ok(said_by(value))
}

// What the attributes of a root's declaration say; nothing where one of them cannot be read.
fn first_values(
    sections: &Sections<'_>,
    header: &Header<'_>,
    specs: &[AttributeSpec],
    mut cursor: Cursor<'_>,
) -> RootValues
    ensures { AreAmong (named_offsets sections.now (header_view header.now) (map spec_view specs.now) cursor.entry) result }
{
    let relocations = sections.relocations(SectionName::Info);
    let mut values = no_values();
    for spec in specs {
        let Ok(more) = root_value(sections, header, &relocations, *spec, &mut cursor) else {
            return no_values();
        };
        let name = spec.name;
        values = RootValues {
            str_offsets_base: kept(values.str_offsets_base, DW_AT_str_offsets_base, name, more),
            addr_base: kept(values.addr_base, DW_AT_addr_base, name, more),
            rnglists_base: kept(values.rnglists_base, DW_AT_rnglists_base, name, more),
            loclists_base: kept(values.loclists_base, DW_AT_loclists_base, name, more),
            low_pc: kept(values.low_pc, DW_AT_low_pc, name, more),
        };
    }
    values
}

// What a root says by its abbreviation table; nothing where it cannot be read.
#[tactic(auto, unfolding(dwc_dwarf::specs::Indexed::root_offsets))]
fn declared_values(sections: &Sections<'_>, header: &Header<'_>, table: &Table) -> RootValues
    ensures { AreAmong (root_offsets sections.now (header_view header.now) table.now) result }
{
    let mut cursor = header.content.fork();
    let Ok(code) = cursor.uleb() else {
        return no_values();
    };
    let Some(declaration) = table.declaration(code) else {
        return no_values();
    };
    first_values(sections, header, declaration.attributes.as_slice(), cursor)
}

// What a unit's root says; nothing where its table or itself cannot be read.
#[tactic(auto, unfolding(crate::specs::RootValues::said_by_root))]
pub fn root_values(sections: &Sections<'_>, header: &Header<'_>, table: &UnitTable) -> RootValues
    requires { IsTable sections.now header.now.abbreviations table.now }
    ensures { AreOfRoot sections.now (header_view header.now) result }
{
    match table.flaw {
        None => declared_values(sections, header, &table.table),
        Some(_) => no_values(),
    }
}
