//! The entries of the unit for functions without debugging information.
ghost use Rattle.std.specs.Prelude.{◌≡◌, ◌<◌, ℕ, length, All, IfOk, IsOkUnless, OnOk};
ghost use Rattle.dwc_base.specs.declared.constants.TheConstants.{DW_AT_location};
ghost use Rattle.dwc_unit.specs.AddedInOrder.{with_entry};
ghost use Rattle.dwc_unit.specs.GivenUnits.{FitsValue};
ghost use Rattle.dwc_unit.specs.declared.attributes.AttributeValue.TheVariants.{LocationListRef};
ghost use Rattle.dwc_section.specs.declared.error.WriteError.TheVariants.{OutOfMemory};
ghost use Rattle.dwc_carry.specs.MadeEntries.{IsDense, with_additions};
ghost use Rattle.dwc_carry.specs.SimulatedAdditions.{local_addition, subprogram_addition, type_additions};

use crate::made_entries::{MadeEntry, MadeValue, add_entries, data1, set_attributes};
use dwc_base::Address;
use dwc_base::constants::{
    DW_AT_byte_size, DW_AT_decl_file, DW_AT_decl_line, DW_AT_encoding, DW_AT_high_pc,
    DW_AT_location, DW_AT_low_pc, DW_AT_name, DW_AT_type, DW_ATE_float, DW_ATE_signed,
    DW_FORM_udata, DW_TAG_base_type, DW_TAG_subprogram,
};
use dwc_section::WriteError;
use dwc_unit::{AttributeValue, LocationList, StringId, Unit, UnitEntryId};

// The place of the root.
const ROOT: usize = 0;

// The number of the one file of the unit.
const FILE: u64 = 1;

/// The names of the types of numbers, by their numbers.
#[derive(Clone, Copy)]
pub(crate) struct TypeTexts {
    pub int32: StringId,
    pub int64: StringId,
    pub float32: StringId,
    pub float64: StringId,
}

// A constant of variable length.
fn udata(bits: u64) -> MadeValue
    ensures { result ≡ MadeValue.Constant DW_FORM_udata bits }
{
    MadeValue::Constant {
        form: DW_FORM_udata,
        bits,
    }
}

/// Adds the types of numbers behind a root that stands alone.
pub(crate) fn add_types(unit: &mut Unit, texts: &TypeTexts) -> Result<(), WriteError>
    requires dense { IsDense unit.old }
    requires one { length unit.old.additions ≡ 1 }
    ensures added { OnOk result (unit.new ≡ with_additions (type_additions texts.now) unit.old) }
    ensures memory { IsOkUnless result OutOfMemory }
{
    add_entries(
        unit,
        &[
            MadeEntry {
                parent: ROOT,
                tag: DW_TAG_base_type,
                attributes: &[
                    (DW_AT_name, MadeValue::Text(texts.int32)),
                    (DW_AT_byte_size, data1(4)),
                    (DW_AT_encoding, data1(DW_ATE_signed)),
                ],
            },
            MadeEntry {
                parent: ROOT,
                tag: DW_TAG_base_type,
                attributes: &[
                    (DW_AT_name, MadeValue::Text(texts.int64)),
                    (DW_AT_byte_size, data1(8)),
                    (DW_AT_encoding, data1(DW_ATE_signed)),
                ],
            },
            MadeEntry {
                parent: ROOT,
                tag: DW_TAG_base_type,
                attributes: &[
                    (DW_AT_name, MadeValue::Text(texts.float32)),
                    (DW_AT_byte_size, data1(4)),
                    (DW_AT_encoding, data1(DW_ATE_float)),
                ],
            },
            MadeEntry {
                parent: ROOT,
                tag: DW_TAG_base_type,
                attributes: &[
                    (DW_AT_name, MadeValue::Text(texts.float64)),
                    (DW_AT_byte_size, data1(8)),
                    (DW_AT_encoding, data1(DW_ATE_float)),
                ],
            },
        ],
    )
}

/// Adds a function below the root: its code is that of a symbol, so many bytes long, and its line is an offset in the file of WebAssembly.
pub(crate) fn add_subprogram(
    unit: &mut Unit,
    name: StringId,
    symbol: usize,
    code_length: u64,
    decl_line: u64,
) -> Result<UnitEntryId, WriteError>
    requires dense { IsDense unit.old }
    requires some { 0 < length unit.old.additions }
    ensures added { OnOk result (unit.new ≡ with_entry (subprogram_addition name symbol code_length decl_line) unit.old) }
    ensures number { IfOk result (λ id. id.index ≡ length unit.old.additions) }
    ensures dense { OnOk result (IsDense unit.new) }
    ensures memory { IsOkUnless result OutOfMemory }
{
    let id = unit.add(UnitEntryId { index: ROOT }, DW_TAG_subprogram)?;
    let begin = Address::Symbol { symbol, addend: 0 };
    unit.set(id, DW_AT_low_pc, AttributeValue::Address(begin))?;
    set_attributes(
        unit,
        id,
        &[
            (DW_AT_high_pc, udata(code_length)),
            (DW_AT_name, MadeValue::Text(name)),
            (DW_AT_decl_file, udata(FILE)),
            (DW_AT_decl_line, udata(decl_line)),
        ],
    )?;
    Ok(id)
}

/// Adds a parameter or a variable below the entry at a place, whose type is at another.
pub(crate) fn add_local(
    unit: &mut Unit,
    parent: usize,
    tag: u16,
    name: StringId,
    type_place: usize,
    locations: LocationList,
) -> Result<(), WriteError>
    requires dense { IsDense unit.old }
    requires parent { parent < length unit.old.additions }
    requires fits { (size : ℕ) → FitsValue size DW_AT_location (LocationListRef locations) }
    ensures added { OnOk result (unit.new ≡ with_entry (local_addition parent tag name type_place locations) unit.old) }
    ensures dense { OnOk result (IsDense unit.new) }
    ensures memory { IsOkUnless result OutOfMemory }
{
    let id = unit.add(UnitEntryId { index: parent }, tag)?;
    set_attributes(
        unit,
        id,
        &[
            (DW_AT_name, MadeValue::Text(name)),
            (DW_AT_type, MadeValue::Entry(type_place)),
        ],
    )?;
    let location = AttributeValue::LocationListRef(locations);
    unit.set(id, DW_AT_location, location)?;
    Ok(())
}
