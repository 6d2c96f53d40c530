//! Adds entries that stem from none of the input to a unit of the output.
ghost use Rattle.std.specs.Prelude.{◌≡◌, ◌<◌, ◌≤◌, ℕ, length, map, All, IfOk, IsOkUnless, OnOk};
ghost use Rattle.dwc_unit.specs.GivenUnits.{IsAdded};
ghost use Rattle.dwc_unit.specs.TextTables.{IsText};
ghost use Rattle.dwc_section.specs.declared.error.WriteError.TheVariants.{OutOfMemory};
ghost use Rattle.dwc_source.specs.MadeValues.{Grows};
ghost use Rattle.dwc_carry.specs.MadeEntries.{AreBehind, FitsMade, addition_of, HaveFittingAttributes, IsDense, given_value, number_of, numbers_added, texts_added, with_additions, with_attributes};

use dwc_base::constants::DW_FORM_data1;
use dwc_section::WriteError;
use dwc_unit::{AttributeValue, StringId, StringTable, Unit, UnitEntryId};
use std::alloc::Global;

/// What an attribute of a made entry says.
#[derive(Clone, Copy)]
pub(crate) enum MadeValue {
    Text(StringId),
    Constant { form: u16, bits: u64 },
    Flag(bool),
    /// The entry at a place of the unit.
    Entry(usize),
}

/// An entry that stems from none of the input: the place of its parent in the unit, its tag, and its attributes in order.
#[derive(Clone, Copy)]
pub(crate) struct MadeEntry<'a> {
    pub parent: usize,
    pub tag: u16,
    pub attributes: &'a [(u16, MadeValue)],
}

/// Adds texts, which have no zero byte, to a table; their numbers.
pub(crate) fn add_texts(
    alloc: Global,
    strings: &mut StringTable,
    texts: &[&[u8]],
) -> Result<Vec<StringId>, WriteError>
    requires { All (λ t. IsText t.now) texts.now }
    ensures grows { Grows strings.old strings.new }
    ensures added { OnOk result (strings.new ≡ texts_added strings.old (map (λ t. t.now) texts.now)) }
    ensures numbers { IfOk result (λ ids. map number_of ids.items ≡ numbers_added strings.old (map (λ t. t.now) texts.now)) }
    ensures memory { IsOkUnless result OutOfMemory }
{
    let mut ids = Vec::with_capacity(alloc, texts.len())?;
    for i in 0..texts.len() {
        ids.push(strings.add(texts[i])?)?;
    }
    Ok(ids)
}

/// A constant of one byte.
pub(crate) fn data1(value: u8) -> MadeValue
    ensures { result ≡ MadeValue.Constant DW_FORM_data1 value }
{
    MadeValue::Constant {
        form: DW_FORM_data1,
        bits: u64::from(value),
    }
}

// A value as one of the output.
fn attribute_value(value: MadeValue) -> AttributeValue
    ensures { result ≡ given_value value }
{
    match value {
        MadeValue::Text(id) => AttributeValue::StringRef(id),
        MadeValue::Constant { form, bits } => AttributeValue::Constant { form, bits },
        MadeValue::Flag(flag) => AttributeValue::Flag(flag),
        MadeValue::Entry(index) => AttributeValue::UnitRef(UnitEntryId { index }),
    }
}

/// Gives an entry attributes, in order.
pub(crate) fn set_attributes(
    unit: &mut Unit,
    id: UnitEntryId,
    attributes: &[(u16, MadeValue)],
) -> Result<(), WriteError>
    requires known { IsAdded id.index unit.old }
    requires fits { All FitsMade attributes.now }
    ensures set { OnOk result (unit.new ≡ with_attributes id.index attributes.now unit.old) }
    ensures memory { IsOkUnless result OutOfMemory }
{
    for i in 0..attributes.len() {
        let (name, value) = attributes[i];
        unit.set(id, name, attribute_value(value))?;
    }
    Ok(())
}

/// Adds entries in file order to a unit whose entries are numbered by their places.
pub(crate) fn add_entries(unit: &mut Unit, entries: &[MadeEntry<'_>]) -> Result<(), WriteError>
    requires dense { IsDense unit.old }
    requires parents { AreBehind (length unit.old.additions) entries.now }
    requires fits { All HaveFittingAttributes entries.now }
    ensures added { OnOk result (unit.new ≡ with_additions (map addition_of entries.now) unit.old) }
    ensures memory { IsOkUnless result OutOfMemory }
{
    for i in 0..entries.len() {
        let entry = entries[i];
        let parent = UnitEntryId {
            index: entry.parent,
        };
        let id = unit.add(parent, entry.tag)?;
        set_attributes(unit, id, entry.attributes)?;
    }
    Ok(())
}
