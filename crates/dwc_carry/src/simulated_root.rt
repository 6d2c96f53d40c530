//! The unit for functions without debugging information with its root alone. (DWARF 4, section 3.1.1.)
ghost use Rattle.std.specs.Prelude.{◌≡◌, ◌⊎◌, ℕ, Some, IsOkUnless, OnOk};
ghost use Rattle.dwc_base.specs.declared.constants.TheConstants.{DW_AT_ranges};
ghost use Rattle.dwc_unit.specs.GivenUnits.{FitsValue, IsAdded, new_unit};
ghost use Rattle.dwc_section.specs.Writers.{OkUnlessMemory};
ghost use Rattle.dwc_unit.specs.declared.attributes.AttributeValue.TheVariants.{RangeListRef};
ghost use Rattle.dwc_section.specs.declared.error.WriteError.TheVariants.{OutOfMemory};
ghost use Rattle.dwc_carry.specs.SimulatedAdditions.{root_given, root_named, with_code};

use crate::made_entries::{MadeValue, set_attributes};
use dwc_base::constants::{
    DW_AT_comp_dir, DW_AT_language, DW_AT_low_pc, DW_AT_name, DW_AT_producer, DW_AT_ranges,
    DW_AT_stmt_list, DW_FORM_data2, DW_LANG_C11,
};
use dwc_base::{Address, Encoding, OutputFor};
use dwc_section::WriteError;
use dwc_unit::{AttributeValue, LineProgram, RangeList, StringId, Unit};
use std::alloc::Global;

/// The texts of the root, by their numbers.
#[derive(Clone, Copy)]
pub(crate) struct RootTexts {
    pub producer: StringId,
    pub name: StringId,
    pub directory: StringId,
}

// Gives a root that stands alone its attributes but for those that say where its code is.
fn set_names(unit: &mut Unit, texts: &RootTexts) -> Result<(), WriteError>
    requires alone { unit.old ≡ new_unit unit.old.version unit.old.address_size unit.old.lines }
    ensures set { OnOk result (unit.new ≡ root_named unit.old.version unit.old.address_size unit.old.lines texts.now) }
    ensures memory { IsOkUnless result OutOfMemory }
{
    let language = MadeValue::Constant {
        form: DW_FORM_data2,
        bits: u64::from(DW_LANG_C11),
    };
    let id = unit.root();
    set_attributes(
        unit,
        id,
        &[
            (DW_AT_producer, MadeValue::Text(texts.producer)),
            (DW_AT_language, language),
            (DW_AT_name, MadeValue::Text(texts.name)),
        ],
    )?;
    unit.set(id, DW_AT_stmt_list, AttributeValue::LineProgramRef)?;
    let directory = AttributeValue::StringRef(texts.directory);
    unit.set(id, DW_AT_comp_dir, directory)?;
    Ok(())
}

// Gives a root the list of its code, for a debugger behind what this counts from.
fn set_code(unit: &mut Unit, output_for: OutputFor, ranges: RangeList) -> Result<(), WriteError>
    requires known { IsAdded 0 unit.old }
    requires fits { (size : ℕ) → FitsValue size DW_AT_ranges (RangeListRef ranges) }
    ensures set { OnOk result (unit.new ≡ with_code output_for ranges unit.old) }
    ensures memory { IsOkUnless result OutOfMemory }
{
    let id = unit.root();
    let list = AttributeValue::RangeListRef(ranges);
    match output_for {
        OutputFor::Default => unit.set(id, DW_AT_ranges, list),
        OutputFor::Debugger => {
            let zero = AttributeValue::Address(Address::Constant(0));
            unit.set(id, DW_AT_low_pc, zero)?;
            unit.set(id, DW_AT_ranges, list)
        }
    }
}

// Gives a root that stands alone its attributes.
fn set_root(
    unit: &mut Unit,
    output_for: OutputFor,
    texts: &RootTexts,
    ranges: RangeList,
) -> Result<(), WriteError>
    requires alone { unit.old ≡ new_unit unit.old.version unit.old.address_size unit.old.lines }
    requires fits { (size : ℕ) → FitsValue size DW_AT_ranges (RangeListRef ranges) }
    ensures set { OnOk result (unit.new ≡ root_given output_for unit.old.version unit.old.address_size unit.old.lines texts.now ranges) }
    ensures memory { IsOkUnless result OutOfMemory }
{
    set_names(unit, texts)?;
    set_code(unit, output_for, ranges)?;
    Ok(())
}

/// A unit with a line program and a root alone, whose code lies in some ranges; for a debugger their list has a base.
pub(crate) fn root_unit(
    alloc: Global,
    output_for: OutputFor,
    encoding: Encoding,
    lines: LineProgram,
    texts: &RootTexts,
    ranges: RangeList,
) -> Result<Unit, WriteError>
    requires version { (encoding.version ≡ 4) ⊎ (encoding.version ≡ 5) }
    requires size { (encoding.address_size ≡ 4) ⊎ (encoding.address_size ≡ 8) }
    requires lines { lines.address_size ≡ Some encoding.address_size }
    requires fits { (size : ℕ) → FitsValue size DW_AT_ranges (RangeListRef ranges) }
    ensures { OkUnlessMemory result (λ u. u ≡ root_given output_for encoding.version encoding.address_size lines texts.now ranges) }
{
    let mut unit = Unit::new(alloc, encoding, lines)?;
    set_root(&mut unit, output_for, texts, ranges)?;
    Ok(unit)
}
