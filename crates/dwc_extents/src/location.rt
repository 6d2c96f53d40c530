//! What attributes become whose values are expressions or location lists, and what is refused of them. (DWARF 4 and 5, section 2.6.)
ghost use Rattle.std.specs.Prelude.{◌≡◌, ℕ, List, length, true, None, IfOk, IfSome, IsTrue, option_map};
ghost use Rattle.dwc_base.specs.declared.section_name.SectionName.TheVariants.{Info};
ghost use Rattle.dwc_native.specs.Addends.{HaveAddends};
ghost use Rattle.dwc_rules.specs.Clones.{UnitSource};
ghost use Rattle.dwc_rules.specs.EntryRules.{bound_value_refused, code_value_becomes, of_location};
ghost use Rattle.dwc_dwarf.specs.ExpressionPlaces.{expression_place};
ghost use Rattle.dwc_rules.specs.Kept.{Placed};
ghost use Rattle.dwc_dwarf.specs.RawLists.{is_location_list};
ghost use Rattle.dwc_dwarf.specs.Values.{Value, expression, is_location_name};
ghost use Rattle.dwc_rules.specs.Wrappers.{is_wrapped};
ghost use Rattle.dwc_isa.specs.Registers.{Registers};
ghost use Rattle.dwc_read.specs.EntriesSeen.{entry_view};
ghost use Rattle.dwc_read.specs.ValuesSeen.{value_view};
ghost use Rattle.dwc_unit.specs.AddedInOrder.{value_meant};
ghost use Rattle.dwc_unit.specs.GivenUnits.{FitsValue};
ghost use Rattle.dwc_extents.specs.CodeSources.{GivesInForce, IsInForce, source_with};
ghost use Rattle.dwc_source.specs.Errors.{refusal_told};
ghost use Rattle.dwc_extents.specs.LocationValues.{error_at, location_value_view, told};
ghost use Rattle.dwc_source.specs.MadeValues.{GivesMade, HasTexts, Says};
ghost use Rattle.dwc_extents.specs.NativeExtents.{TellsRefusal};

use crate::in_force::{InForce, frame_in_force, in_force_by};
use crate::lineage::Lineage;
use crate::location_list::{check_location_list, value_of_list};
use crate::location_list_error::LocationListError;
use crate::location_value::{LocationValue, check_expression, value_of_expression};
use dwc_addr::translations_are_said;
use dwc_base::SectionName;
use dwc_expr::ExprError;
use dwc_isa::TargetIsa;
use dwc_read::{AttributeValue as InputValue, Entry};
use dwc_source::{CloneError, CloneSource, is_wrapped};
use dwc_unit::{AttributeValue, LocationList};
use std::alloc::Global;

/// The error of an expression that is built for the module at a place.
pub fn of_expression(error: ExprError, place: u32) -> CloneError
    ensures { refusal_told result ≡ option_map (of_location place) (told error) }
{
    match error {
        ExprError::Read {
            what,
            section,
            offset,
        } => CloneError::Read {
            what,
            section,
            offset,
        },
        ExprError::TooLarge => CloneError::LongJump,
        ExprError::BadLabelRange { label } => CloneError::BadLabelRange { label },
        ExprError::InvalidAttributeValue => CloneError::InvalidAttributeValue { module: place },
        ExprError::UnmappedRegister { register } => CloneError::UnmappedRegister { register },
        ExprError::OutOfMemory => CloneError::OutOfMemory,
    }
}

// The error of the expression that is the attribute of a number of the entry at an offset: where an operation cannot be read, it is told
// with the offset of the expression. The entry is read once more to find that.
fn at_expression(
    error: ExprError,
    source: &CloneSource<'_, '_>,
    offset: u64,
    number: usize,
    bytes: &[u8],
) -> CloneError
    ensures { refusal_told result ≡ option_map (of_location source.now.module.place) (told (error_at (Info, expression_place source.now.unit.now.sections source.now.unit.now.header offset number bytes.now) error)) }
{
    match error {
        ExprError::Read { what, .. } => CloneError::Read {
            what,
            section: SectionName::Info,
            offset: source.unit.expression_place(offset, number, bytes),
        },
        _ => of_expression(error, source.module.place),
    }
}

// The value of an attribute that becomes an expression or a location list.
fn output_location_value(location_value: LocationValue) -> AttributeValue
    ensures means { (texts : List (List ℕ)) (number : ℕ) → value_meant texts number result ≡ location_value_view location_value }
    ensures texts { (texts : List (List ℕ)) → HasTexts texts result }
{
    match location_value {
        LocationValue::Expression(expression) => AttributeValue::Exprloc(expression),
        LocationValue::List(locations) => {
            AttributeValue::LocationListRef(LocationList::new(locations))
        }
    }
}

/// What an expression becomes, the attribute of a name and of a number of an entry; None where it goes. Of an entry that is wrapped it is
/// read, and nothing becomes of it.
///
/// # Errors
/// `Read` with the offset of the expression exactly where an operation cannot be read. Those of building it over the scope in force:
/// `BadLabelRange`, `InvalidAttributeValue`, `UnmappedRegister` and `LongJump`. `OutOfMemory` for want of memory.
#[inline(never)]
pub fn output_expression(
    alloc: Global,
    isa: &dyn TargetIsa,
    source: &CloneSource<'_, '_>,
    lineage: &Lineage,
    entry: &Entry<'_>,
    number: usize,
    name: u16,
    bytes: &[u8],
) -> Result<Option<AttributeValue>, CloneError>
    requires functions { HaveAddends source.now.transform.now }
    ensures made { (s : UnitSource) (e : Placed) (before : List (ℕ × Value)) (unit : ℕ) (texts : List (List ℕ)) → e.entry ≡ entry_view entry.now → length before ≡ number → GivesInForce source.now s e lineage.now → GivesMade (Says source.now.places.now unit name texts) (code_value_becomes (source_with (dwarf_registers isa.now) source.now s) e before name (expression bytes.now)) result }
    ensures fits { (size : ℕ) → IfOk result (λ v. IfSome v (FitsValue size name)) }
{
    let frame = frame_in_force(source, lineage);
    let in_force = in_force_by(lineage, frame.as_ref());
    if is_wrapped(source.module.output_for, entry) {
        check_attribute_expression(alloc, source, &in_force, entry.offset, number, name, bytes)?;
        return Ok(None);
    }
    translations_are_said();
    let nowhere = (SectionName::Info, 0);
    let encoding = source.unit.encoding();
    match value_of_expression(
        alloc,
        source.transform,
        isa,
        &in_force,
        name,
        encoding,
        bytes,
        nowhere,
    ) {
        Ok(Some(location_value)) => Ok(Some(output_location_value(location_value))),
        Ok(None) => Ok(None),
        Err(error) => Err(at_expression(error, source, entry.offset, number, bytes)),
    }
}

/// What a location list becomes that a value of an entry names; None where it goes. Of an entry that is wrapped it is read with its
/// expressions, and nothing becomes of it.
///
/// # Errors
/// The first that is refused of the list: `Read` at the list, or at the entry where the list cannot be found; `LongRange` for a start
/// plus a length that is no address. Else the first that is refused of its expressions: `Read` with the offset of the expression, and
/// those of building it. `OutOfMemory` for want of memory.
#[inline(never)]
pub fn output_locations(
    alloc: Global,
    isa: &dyn TargetIsa,
    source: &CloneSource<'_, '_>,
    lineage: &Lineage,
    entry: &Entry<'_>,
    value: InputValue<'_>,
) -> Result<Option<AttributeValue>, CloneError>
    requires functions { HaveAddends source.now.transform.now }
    requires list { IsTrue (is_location_list (value_view value)) }
    ensures made { (s : UnitSource) (e : Placed) (before : List (ℕ × Value)) (unit name : ℕ) (texts : List (List ℕ)) → e.entry ≡ entry_view entry.now → is_location_name name ≡ true → GivesInForce source.now s e lineage.now → GivesMade (Says source.now.places.now unit name texts) (code_value_becomes (source_with (dwarf_registers isa.now) source.now s) e before name (value_view value.entry)) result }
    ensures fits { (size name : ℕ) → is_location_name name ≡ true → IfOk result (λ v. IfSome v (FitsValue size name)) }
{
    let frame = frame_in_force(source, lineage);
    let in_force = in_force_by(lineage, frame.as_ref());
    if is_wrapped(source.module.output_for, entry) {
        check_locations(alloc, source, &in_force, entry.offset, value)?;
        return Ok(None);
    }
    translations_are_said();
    match value_of_list(
        alloc,
        source.unit,
        source.transform,
        isa,
        &in_force,
        entry.offset,
        value,
    ) {
        Ok(Some(location_value)) => Ok(Some(output_location_value(location_value))),
        Ok(None) => Ok(None),
        Err(LocationListError::List(fault)) => Err(CloneError::from(fault)),
        Err(LocationListError::Expression(error)) => Err(of_expression(error, source.module.place)),
    }
}

// Reads a location list that a value of the entry at an offset names, and its expressions; nothing becomes of it.
fn check_locations(
    alloc: Global,
    source: &CloneSource<'_, '_>,
    in_force: &InForce<'_>,
    offset: u64,
    value: InputValue<'_>,
) -> Result<(), CloneError>
    requires list { IsTrue (is_location_list (value_view value)) }
    ensures { (registers : Registers) (s : UnitSource) (e : Placed) (before : List (ℕ × Value)) (name : ℕ) → e.entry.offset ≡ offset → is_wrapped source.now.module.output_for e ≡ true → IsInForce registers source.now s e in_force.now → GivesMade (λ draft done. draft ≡ None) (code_value_becomes (source_with registers source.now s) e before name (value_view value.entry)) result }
{
    match check_location_list(alloc, source.unit, in_force, offset, value) {
        Ok(()) => Ok(()),
        Err(LocationListError::List(fault)) => Err(CloneError::from(fault)),
        Err(LocationListError::Expression(error)) => Err(of_expression(error, source.module.place)),
    }
}

// Reads an expression, the attribute of a name and of a number of the entry at an offset, where so much is in force; nothing becomes of it.
fn check_attribute_expression(
    alloc: Global,
    source: &CloneSource<'_, '_>,
    in_force: &InForce<'_>,
    offset: u64,
    number: usize,
    name: u16,
    bytes: &[u8],
) -> Result<(), CloneError>
    ensures { (registers : Registers) (s : UnitSource) (e : Placed) (before : List (ℕ × Value)) → e.entry.offset ≡ offset → length before ≡ number → IsInForce registers source.now s e in_force.now → TellsRefusal (bound_value_refused (source_with registers source.now s) e before name (expression bytes.now)) result }
{
    let nowhere = (SectionName::Info, 0);
    let encoding = source.unit.encoding();
    match check_expression(alloc, in_force, name, encoding, bytes, nowhere) {
        Ok(()) => Ok(()),
        Err(error) => Err(at_expression(error, source, offset, number, bytes)),
    }
}

/// Reads an expression in the place of a bound, the attribute of a name and of a number of the entry at an offset; nothing becomes of it.
///
/// # Errors
/// `Read` with the offset of the expression exactly where an operation cannot be read. `OutOfMemory` for want of memory.
pub(crate) fn check_placed(
    alloc: Global,
    source: &CloneSource<'_, '_>,
    lineage: &Lineage,
    offset: u64,
    number: usize,
    name: u16,
    bytes: &[u8],
) -> Result<(), CloneError>
    ensures { (registers : Registers) (s : UnitSource) (e : Placed) (before : List (ℕ × Value)) → e.entry.offset ≡ offset → length before ≡ number → GivesInForce source.now s e lineage.now → TellsRefusal (bound_value_refused (source_with registers source.now s) e before name (expression bytes.now)) result }
{
    let frame = frame_in_force(source, lineage);
    let in_force = in_force_by(lineage, frame.as_ref());
    check_attribute_expression(alloc, source, &in_force, offset, number, name, bytes)
}
