//! Adds entries that stem from none of the input to a unit of the output.
ghost use Rattle.std.specs.Prelude.{◌≡◌, ℕ, length, All, IfOk, IsOkUnless, OnErr, OnOk};
ghost use Rattle.dwc_unit.specs.GivenUnits.{IsAdded};
ghost use Rattle.dwc_section.specs.declared.error.WriteError.TheVariants.{OutOfMemory};
ghost use Rattle.dwc_clone.specs.MadeAttributes.{FitsMade, HasFront, HasPart, given_value, with_made_entry, with_values};

use dwc_section::WriteError;
use dwc_unit::{AttributeValue, DebugInfoRef, StringId, Unit, UnitEntryId};

/// What an attribute of a made entry says.
#[derive(Clone, Copy)]
pub(crate) enum MadeValue {
    Text(StringId),
    Constant { form: u16, bits: u64 },
    Flag(bool),
    /// An entry of the unit.
    Entry(UnitEntryId),
    /// An entry of any unit.
    AnyEntry(DebugInfoRef),
}

// A value as one of the output.
fn attribute_value(value: MadeValue) -> AttributeValue
    ensures { result ≡ given_value value }
{
    match value {
        MadeValue::Text(id) => AttributeValue::StringRef(id),
        MadeValue::Constant { form, bits } => AttributeValue::Constant { form, bits },
        MadeValue::Flag(flag) => AttributeValue::Flag(flag),
        MadeValue::Entry(id) => AttributeValue::UnitRef(id),
        MadeValue::AnyEntry(reference) => AttributeValue::DebugInfoRef(reference),
    }
}

/// Gives an entry attributes, in order. For want of memory it may have a front of them.
pub(crate) fn set_values(
    unit: &mut Unit,
    id: UnitEntryId,
    attributes: &[(u16, MadeValue)],
) -> Result<(), WriteError>
    requires known { IsAdded id.index unit.old }
    requires fits { All FitsMade attributes.now }
    ensures set { OnOk result (unit.new ≡ with_values id.index attributes.now unit.old) }
    ensures part { OnErr result (HasFront id.index attributes.now unit.old unit.new) }
    ensures memory { IsOkUnless result OutOfMemory }
{
    for i in 0..attributes.len() {
        let (name, value) = attributes[i];
        unit.set(id, name, attribute_value(value))?;
    }
    Ok(())
}

/// Adds an entry with attributes below a parent. For want of memory it may be there with a front of them.
pub(crate) fn add_made(
    unit: &mut Unit,
    parent: UnitEntryId,
    tag: u16,
    attributes: &[(u16, MadeValue)],
) -> Result<UnitEntryId, WriteError>
    requires parent { IsAdded parent.index unit.old }
    requires fits { All FitsMade attributes.now }
    ensures added { OnOk result (unit.new ≡ with_made_entry parent.index tag attributes.now unit.old) }
    ensures part { OnErr result (HasPart parent.index tag attributes.now unit.old unit.new) }
    ensures id { IfOk result (λ id. id ≡ record { index = length unit.old.places }) }
    ensures here { IfOk result (λ id. IsAdded id.index unit.new) }
    ensures kept { (other : ℕ) → IsAdded other unit.old → OnOk result (IsAdded other unit.new) }
    ensures memory { IsOkUnless result OutOfMemory }
{
    let id = unit.add(parent, tag)?;
    set_values(unit, id, attributes)?;
    Ok(id)
}
