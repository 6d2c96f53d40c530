//! What pointers and references become: structures that hold an address of linear memory.
ghost use Rattle.std.specs.Prelude.{◌≡◌, ℕ, List, length, reverse, IfOk, OnOk};
ghost use Rattle.dwc_unit.specs.GivenUnits.{IsAdded, IsReserved, with_reserved};
ghost use Rattle.dwc_unit.specs.TextTables.{IsText};
ghost use Rattle.dwc_source.specs.KnownTexts.{IsNumbered};
ghost use Rattle.dwc_source.specs.MadeValues.{Grows};
ghost use Rattle.dwc_clone.specs.OpenWrappers.{AreNext, CanClose, CanCloseAll, HasWrapperTexts, IsOpened, IsOther, closed_from, members_added, method_added, still_open, types_added, with_type, wrapper_added};
ghost use Rattle.dwc_base.specs.declared.constants.TheConstants.{DW_FORM_data1};

use crate::made::{MadeValue, add_made, set_values};
use dwc_base::constants::{
    DW_AT_artificial, DW_AT_byte_size, DW_AT_data_member_location, DW_AT_linkage_name, DW_AT_name,
    DW_AT_type, DW_FORM_data1, DW_TAG_formal_parameter, DW_TAG_member, DW_TAG_pointer_type,
    DW_TAG_reference_type, DW_TAG_subprogram, DW_TAG_template_type_parameter,
};
use dwc_section::WriteError;
use dwc_source::add_text;
use dwc_unit::{DebugInfoRef, StringId, StringTable, Unit, UnitEntryId};
use std::vec::Vec;

/// The texts of a wrapper, by their numbers.
#[derive(Clone, Copy)]
pub(crate) struct WrapperTexts {
    name: StringId,
    target: StringId,
    address: StringId,
    resolve: StringId,
    pointer: StringId,
    dereference: StringId,
    arrow: StringId,
}

/// Adds the texts of a wrapper behind its name, which is there; `resolve` is the function that makes a native pointer of an address.
pub(crate) fn wrapper_texts(
    strings: &mut StringTable,
    resolve: &str,
    name: StringId,
) -> Result<WrapperTexts, WriteError>
    requires resolve { IsText resolve.now }
    ensures grows { Grows strings.old strings.new }
    ensures texts { (wrapper : List ℕ) → IsNumbered strings.old wrapper name → IfOk result (HasWrapperTexts strings.new resolve.now wrapper) }
{
    Ok(WrapperTexts {
        name,
        target: add_text(strings, b"T")?,
        address: add_text(strings, b"__ptr")?,
        resolve: add_text(strings, resolve.as_bytes())?,
        pointer: add_text(strings, b"ptr")?,
        dereference: add_text(strings, b"operator*")?,
        arrow: add_text(strings, b"operator->")?,
    })
}

// The types behind a wrapper, whose numbers are reserved: a pointer to the wrapper, and a reference and a pointer to what it goes to.
#[derive(Clone, Copy)]
struct WrapperTypes {
    to_wrapper: UnitEntryId,
    reference: UnitEntryId,
    pointer: UnitEntryId,
}

/// A wrapper whose types are still to be added: its depth, its parent, itself, its types, and the type that it goes to.
#[derive(Clone, Copy)]
pub(crate) struct OpenWrapper {
    depth: usize,
    parent: UnitEntryId,
    wrapper: UnitEntryId,
    types: WrapperTypes,
    target: Option<UnitEntryId>,
}

// Gives an entry a type, if there is one.
fn set_type(unit: &mut Unit, id: UnitEntryId, target: Option<UnitEntryId>) -> Result<(), WriteError>
    requires { IsAdded id.index unit.old }
    ensures { OnOk result (unit.new ≡ with_type id.index target unit.old) }
{
    match target {
        Some(target) => set_values(unit, id, &[(DW_AT_type, MadeValue::Entry(target))]),
        None => Ok(()),
    }
}

// A constant of one byte.
fn data1(bits: u8) -> MadeValue
    ensures { result ≡ MadeValue.Constant DW_FORM_data1 bits }
{
    MadeValue::Constant {
        form: DW_FORM_data1,
        bits: u64::from(bits),
    }
}

// Adds the type that a wrapper goes to, and the address that it holds, which is of a type.
fn add_members(
    unit: &mut Unit,
    opened: &OpenWrapper,
    texts: &WrapperTexts,
    address_type: DebugInfoRef,
) -> Result<(), WriteError>
    requires { IsAdded opened.now.wrapper.index unit.old }
    ensures { OnOk result (unit.new ≡ members_added opened.now texts.now address_type unit.old) }
{
    let target = add_made(
        unit,
        opened.wrapper,
        DW_TAG_template_type_parameter,
        &[(DW_AT_name, MadeValue::Text(texts.target))],
    )?;
    set_type(unit, target, opened.target)?;
    add_made(
        unit,
        opened.wrapper,
        DW_TAG_member,
        &[
            (DW_AT_name, MadeValue::Text(texts.address)),
            (DW_AT_type, MadeValue::AnyEntry(address_type)),
            (DW_AT_data_member_location, data1(0)),
        ],
    )?;
    Ok(())
}

// Adds a function of a wrapper, of a name and a type, which takes a pointer to the wrapper.
fn add_method(
    unit: &mut Unit,
    opened: &OpenWrapper,
    texts: &WrapperTexts,
    name: StringId,
    gives: UnitEntryId,
) -> Result<(), WriteError>
    requires { IsAdded opened.now.wrapper.index unit.old }
    ensures { OnOk result (unit.new ≡ method_added opened.now texts.now name gives unit.old) }
{
    let method = add_made(
        unit,
        opened.wrapper,
        DW_TAG_subprogram,
        &[
            (DW_AT_linkage_name, MadeValue::Text(texts.resolve)),
            (DW_AT_name, MadeValue::Text(name)),
            (DW_AT_type, MadeValue::Entry(gives)),
        ],
    )?;
    add_made(
        unit,
        method,
        DW_TAG_formal_parameter,
        &[
            (DW_AT_type, MadeValue::Entry(opened.types.to_wrapper)),
            (DW_AT_artificial, MadeValue::Flag(true)),
        ],
    )?;
    Ok(())
}

// Reserves the numbers of the types behind a wrapper.
fn reserve_types(unit: &mut Unit) -> Result<WrapperTypes, WriteError>
    ensures unit { OnOk result (unit.new ≡ with_reserved (with_reserved (with_reserved unit.old))) }
    ensures types { IfOk result (λ types. AreNext (length unit.old.places) types) }
{
    Ok(WrapperTypes {
        to_wrapper: unit.reserve()?,
        reference: unit.reserve()?,
        pointer: unit.reserve()?,
    })
}

/// Makes an entry, which is a structure that was added at a depth below a parent, a wrapper: with its name and size, the type that it
/// goes to if there is one, the address, and the functions that make native pointers of it. Its types are still to be added.
pub(crate) fn open_wrapper(
    unit: &mut Unit,
    depth: usize,
    parent: UnitEntryId,
    wrapper: UnitEntryId,
    target: Option<UnitEntryId>,
    address_type: DebugInfoRef,
    texts: &WrapperTexts,
) -> Result<OpenWrapper, WriteError>
    requires { IsAdded wrapper.index unit.old }
    ensures open { IfOk result (IsOpened depth parent wrapper target (length unit.old.places)) }
    ensures unit { IfOk result (λ w. unit.new ≡ wrapper_added w texts.now address_type unit.old) }
{
    let types = reserve_types(unit)?;
    let opened = OpenWrapper {
        depth,
        parent,
        wrapper,
        types,
        target,
    };
    set_values(
        unit,
        wrapper,
        &[
            (DW_AT_name, MadeValue::Text(texts.name)),
            (DW_AT_byte_size, data1(4)),
        ],
    )?;
    add_members(unit, &opened, texts, address_type)?;
    add_method(unit, &opened, texts, texts.pointer, types.pointer)?;
    add_method(unit, &opened, texts, texts.dereference, types.reference)?;
    add_method(unit, &opened, texts, texts.arrow, types.pointer)?;
    Ok(opened)
}

// Adds the types behind a wrapper.
#[inline(never)]
fn add_types(unit: &mut Unit, opened: &OpenWrapper) -> Result<(), WriteError>
    requires { CanClose unit.old opened.now }
    ensures { OnOk result (unit.new ≡ types_added opened.now unit.old) }
{
    let types = opened.types;
    unit.add_reserved(types.to_wrapper, opened.parent, DW_TAG_pointer_type)?;
    set_type(unit, types.to_wrapper, Some(opened.wrapper))?;
    unit.add_reserved(types.reference, opened.parent, DW_TAG_reference_type)?;
    set_type(unit, types.reference, opened.target)?;
    unit.add_reserved(types.pointer, opened.parent, DW_TAG_pointer_type)?;
    set_type(unit, types.pointer, opened.target)
}

/// Closes the wrappers in front of an entry of a depth that does not lie in them, the innermost first.
#[inline(always)]
pub(crate) fn close_wrappers(
    unit: &mut Unit,
    opened: &mut Vec<OpenWrapper>,
    depth: usize,
) -> Result<(), WriteError>
    requires { CanCloseAll (length unit.old.places) unit.old (reverse opened.old.items) }
    ensures unit { OnOk result (unit.new ≡ closed_from depth (reverse opened.old.items) unit.old) }
    ensures still { OnOk result (reverse opened.new.items ≡ still_open depth (reverse opened.old.items)) }
    ensures closable { OnOk result (CanCloseAll (length unit.new.places) unit.new (reverse opened.new.items)) }
    ensures added { (k : ℕ) → IsAdded k unit.old → OnOk result (IsAdded k unit.new) }
    ensures reserved { (k : ℕ) → IsReserved k unit.old → IsOther k (reverse opened.old.items) → OnOk result (IsReserved k unit.new) }
{
    while let Some(wrapper) = opened.last().copied() {
        if wrapper.depth < depth {
            break;
        }
        add_types(unit, &wrapper)?;
        opened.truncate(opened.len() - 1);
    }
    Ok(())
}
