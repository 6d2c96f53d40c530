//! Where the values of an entry's attributes end. (DWARF 4 and 5, section 7.5.)
ghost use Rattle.std.specs.Prelude.{◌≡◌, map, slice_get};
ghost use Rattle.dwc_dwarf.specs.ExpressionPlaces.{attribute_ends, entry_ends};
ghost use Rattle.dwc_read.specs.AttributeSpecs.{spec_view};

use crate::Unit;
use crate::attribute::value;
use crate::attribute_spec::AttributeSpec;
use crate::table::Table;
use dwc_base::Cursor;

// Where the value of an attribute of a declaration ends, by its number; None where it cannot be read.
fn attribute_end<'d>(
    unit: &Unit<'d>,
    specs: &[AttributeSpec],
    number: usize,
    mut cursor: Cursor<'d>,
) -> Option<u64>
    ensures { result ≡ slice_get (attribute_ends unit.now.sections unit.now.header (map spec_view specs.now) cursor.entry) number }
{
    let mut before = number;
    for spec in specs {
        let Ok(_) = value(unit, *spec, &mut cursor) else {
            return None;
        };
        if before == 0 {
            return Some(cursor.place() as u64);
        }
        before -= 1;
    }
    None
}

// The same of the entry at the front, whose code names its declaration.
#[tactic(auto, unfolding(dwc_dwarf::specs::ExpressionPlaces::entry_ends))]
pub fn entry_end<'d>(
    unit: &Unit<'d>,
    table: &Table,
    number: usize,
    mut cursor: Cursor<'d>,
) -> Option<u64>
    ensures { result ≡ slice_get (entry_ends unit.now.sections unit.now.header table.now cursor.entry) number }
{
    let code = cursor.uleb().ok()?;
    let declaration = table.declaration(code)?;
    attribute_end(unit, declaration.attributes.as_slice(), number, cursor)
}
