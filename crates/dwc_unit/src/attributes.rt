//! Attributes of entries, as they are given. (DWARF 4, section 7.5.4.)
ghost use Rattle.std.specs.Prelude.{◌≡◌, ◌++◌, ◌∷◌, [], ℕ, OnOk, OnErr, IfOk, Some, None, slice_set};
ghost use Rattle.std.specs.Ordering.{nat_cmp};
ghost use Rattle.std.specs.BTreeMap.{get};
ghost use Rattle.dwc_unit.specs.SpelledUnits.{form_number};
ghost use Rattle.dwc_unit.specs.GivenUnits.{FitsMemory, constant_of, no_places, set_attribute, written_of};
ghost use Rattle.dwc_unit.specs.Lists.{no_lists};
ghost use Rattle.dwc_unit.specs.AttributePlaces.{place_from};
ghost use Rattle.dwc_unit.specs.KeptAttributes.{given, value_of_held};
ghost use Rattle.dwc_unit.specs.declared.attributes.AttributeValue.TheVariants.{Address as ValueAddress, DebugInfoRef as ValueReference, Exprloc as ValueExpression, LocationListRef as ValueLocations};

use crate::expressions::{Bytes, Expression};
use crate::few_bytes::FewBytes;
use crate::{LocationList, RangeList, StringId, UnitEntryId, UnitId};
use dwc_base::Address;
use dwc_base::constants::{
    DW_FORM_addr, DW_FORM_block, DW_FORM_data1, DW_FORM_data2, DW_FORM_data4, DW_FORM_data8,
    DW_FORM_exprloc, DW_FORM_flag, DW_FORM_ref_addr, DW_FORM_ref4, DW_FORM_sdata,
    DW_FORM_sec_offset, DW_FORM_strp, DW_FORM_udata,
};
use std::alloc::{AllocError, Global};
use std::collections::BTreeMap;
use std::marker::Model;
use std::slice;

/// The value of an attribute.
#[derive(Drop)]
pub enum AttributeValue {
    /// `DW_FORM_addr`.
    Address(Address),
    /// A constant in one of the forms data1 to data8, sdata (its bits) and udata.
    Constant { form: u16, bits: u64 },
    /// `DW_FORM_flag`.
    Flag(bool),
    /// Bytes of any length, by `DW_FORM_block`. Under the names of expressions a block is read as one.
    Block(Vec<u8>),
    /// An expression, by `DW_FORM_exprloc`.
    Exprloc(Expression),
    /// A text of the table of strings, by `DW_FORM_strp`.
    StringRef(StringId),
    /// The line program of the unit, by `DW_FORM_sec_offset`.
    LineProgramRef,
    /// A range list, by `DW_FORM_sec_offset`, under the names `DW_AT_ranges` and `DW_AT_start_scope`. Each stands once for each value.
    RangeListRef(RangeList),
    /// A location list, by `DW_FORM_sec_offset`, under the names of location lists. Each stands once for each value.
    LocationListRef(LocationList),
    /// An entry of the same unit, by `DW_FORM_ref4`. One that is only reserved is named by 0, where no entry begins.
    UnitRef(UnitEntryId),
    /// An entry of any unit, by `DW_FORM_ref_addr`.
    DebugInfoRef(DebugInfoRef),
}

impl AttributeValue {
    // That an expression is no longer than memory is.
    pub(crate) fn know_length(&self)
        ensures { FitsMemory self.now }
    {
        if let AttributeValue::Exprloc(expression) = self {
            expression.know_length();
        }
    }
}

/// What is named by its offset in `.debug_info`.
#[derive(Clone, Copy)]
pub enum DebugInfoRef {
    /// An entry of a unit.
    Entry(UnitId, UnitEntryId),
}

/// An attribute as it is given: its name and its value. Contracts see a kept one so.
#[derive(Drop)]
pub struct Attribute {
    /// The name, a `DW_AT` number.
    pub name: u16,
    /// The value.
    pub value: AttributeValue,
}

// An attribute as it is kept, in 16 bytes: what is longer stands in a box. Its name stands beside the tag in each. Those with a box
// come last, so that one comparison tells whether there is memory to free.
pub(crate) enum Kept {
    Constant {
        name: u16,
        form: u16,
        bits: u64,
    },
    Flag {
        name: u16,
        flag: bool,
    },
    Text {
        name: u16,
        id: StringId,
    },
    Lines {
        name: u16,
    },
    Entry {
        name: u16,
        id: UnitEntryId,
    },
    Symbol {
        name: u16,
        symbol: u32,
        addend: i64,
    },
    UnitEntry {
        name: u16,
        unit: u32,
        id: UnitEntryId,
    },
    Short {
        name: u16,
        bytes: FewBytes,
    },
    NoLocations {
        name: u16,
    },
    Expression {
        name: u16,
        bytes: Box<Vec<u8>>,
    },
    Ranges {
        name: u16,
        list: Box<RangeList>,
    },
    Location {
        name: u16,
        location: Box<(Address, u64, Expression)>,
    },
    Locations {
        name: u16,
        list: Box<LocationList>,
    },
    Block {
        name: u16,
        bytes: Box<Vec<u8>>,
    },
    Address {
        name: u16,
        address: Box<Address>,
    },
    Reference {
        name: u16,
        reference: Box<DebugInfoRef>,
    },
}

impl Drop for Kept {
    // Most attributes have no box.
    #[inline(always)]
    fn drop(self) {
        match self {
            Kept::Expression { name: _, bytes } => free(bytes),
            Kept::Ranges { name: _, list } => free(list),
            Kept::Location { name: _, location } => free(location),
            Kept::Locations { name: _, list } => free(list),
            Kept::Block { name: _, bytes } => free(bytes),
            Kept::Address { name: _, address } => free(address),
            Kept::Reference { name: _, reference } => free(reference),
            Kept::Constant {
                name: _,
                form: _,
                bits: _,
            }
            | Kept::Flag { name: _, flag: _ }
            | Kept::Text { name: _, id: _ }
            | Kept::Lines { name: _ }
            | Kept::Entry { name: _, id: _ }
            | Kept::Symbol {
                name: _,
                symbol: _,
                addend: _,
            }
            | Kept::UnitEntry {
                name: _,
                unit: _,
                id: _,
            }
            | Kept::Short { name: _, bytes: _ }
            | Kept::NoLocations { name: _ } => {}
        }
    }
}

// Drops a box with what it holds.
#[inline(never)]
fn free<T: Drop>(held: Box<T>) {
    drop(held);
}

/// A kept attribute.
#[derive(Drop)]
pub struct KeptAttribute {
    kept: Kept,
}

impl Model for KeptAttribute {
    ghost use Rattle.dwc_unit.specs.declared.attributes.Attribute as declared;
    ghost use Rattle.dwc_unit.specs.KeptAttributes.{given};

    ghost Value = { declared.Attribute };

    ghost view = { λ a. given a.kept };
}

/// The value of a kept attribute, borrowed from it: each variant is the one of `AttributeValue` that has its name.
#[derive(Clone, Copy)]
pub enum Held<'a> {
    Address(Address),
    Constant { form: u16, bits: u64 },
    Flag(bool),
    Block(&'a Vec<u8>),
    Exprloc(&'a [u8]),
    StringRef(StringId),
    LineProgramRef,
    RangeListRef(&'a RangeList),
    LocationListRef(&'a [(Address, u64, Expression)]),
    UnitRef(UnitEntryId),
    DebugInfoRef(DebugInfoRef),
}

impl KeptAttribute {
    // Keeps an attribute. Most values are of one of four kinds.
    #[inline(always)]
    pub(crate) fn keep(
        alloc: Global,
        name: u16,
        value: AttributeValue,
    ) -> Result<KeptAttribute, AllocError>
        ensures { IfOk result (λ a. a ≡ record { name = name; value = value }) }
    {
        let kept = match value {
            AttributeValue::Constant { form, bits } => Kept::Constant { name, form, bits },
            AttributeValue::Flag(flag) => Kept::Flag { name, flag },
            AttributeValue::StringRef(id) => Kept::Text { name, id },
            AttributeValue::UnitRef(id) => Kept::Entry { name, id },
            other => keep_any(alloc, name, other)?,
        };
        Ok(KeptAttribute { kept })
    }

    // An attribute that stands where there is none.
    pub(crate) fn none() -> KeptAttribute {
        KeptAttribute {
            kept: Kept::Lines { name: 0 },
        }
    }

    /// Its name.
    pub fn name(&self) -> u16
        ensures { result ≡ self.now.name }
    {
        match &self.kept {
            Kept::Constant { name, .. } => *name,
            Kept::Flag { name, .. } => *name,
            Kept::Text { name, .. } => *name,
            Kept::Lines { name } => *name,
            Kept::Entry { name, .. } => *name,
            Kept::Symbol { name, .. } => *name,
            Kept::UnitEntry { name, .. } => *name,
            Kept::Short { name, .. } => *name,
            Kept::NoLocations { name } => *name,
            Kept::Expression { name, .. } => *name,
            Kept::Ranges { name, .. } => *name,
            Kept::Location { name, .. } => *name,
            Kept::Locations { name, .. } => *name,
            Kept::Block { name, .. } => *name,
            Kept::Address { name, .. } => *name,
            Kept::Reference { name, .. } => *name,
        }
    }

    /// Its value.
    pub fn value(&self) -> Held<'_>
        ensures { self.now.value ≡ value_of_held result }
    {
        match &self.kept {
            Kept::Constant { form, bits, .. } => Held::Constant {
                form: *form,
                bits: *bits,
            },
            Kept::Flag { flag, .. } => Held::Flag(*flag),
            Kept::Text { id, .. } => Held::StringRef(*id),
            Kept::Lines { .. } => Held::LineProgramRef,
            Kept::Entry { id, .. } => Held::UnitRef(*id),
            Kept::Symbol { symbol, addend, .. } => Held::Address(Address::Symbol {
                symbol: *symbol as usize,
                addend: *addend,
            }),
            Kept::UnitEntry { unit, id, .. } => {
                let unit = UnitId {
                    index: *unit as usize,
                };
                Held::DebugInfoRef(DebugInfoRef::Entry(unit, *id))
            }
            Kept::Short { bytes, .. } => Held::Exprloc(bytes.as_slice()),
            Kept::NoLocations { .. } => Held::LocationListRef(&[]),
            Kept::Expression { bytes, .. } => Held::Exprloc(bytes.as_slice()),
            Kept::Ranges { list, .. } => Held::RangeListRef(list),
            Kept::Location { location, .. } => Held::LocationListRef(slice::from_ref(location)),
            Kept::Locations { list, .. } => Held::LocationListRef(list.as_slice()),
            Kept::Block { bytes, .. } => Held::Block(bytes),
            Kept::Address { address, .. } => Held::Address(**address),
            Kept::Reference { reference, .. } => Held::DebugInfoRef(**reference),
        }
    }
}

// A value of any kind.
fn keep_any(alloc: Global, name: u16, value: AttributeValue) -> Result<Kept, AllocError>
    ensures { IfOk result (λ k. given k ≡ record { name = name; value = value }) }
{
    match value {
        AttributeValue::Address(address) => keep_address(alloc, name, address),
        AttributeValue::Constant { form, bits } => Ok(Kept::Constant { name, form, bits }),
        AttributeValue::Flag(flag) => Ok(Kept::Flag { name, flag }),
        AttributeValue::Block(bytes) => Ok(Kept::Block {
            name,
            bytes: Box::new(alloc, bytes)?,
        }),
        AttributeValue::Exprloc(expression) => Ok(keep_expression(name, expression)),
        AttributeValue::StringRef(id) => Ok(Kept::Text { name, id }),
        AttributeValue::LineProgramRef => Ok(Kept::Lines { name }),
        AttributeValue::RangeListRef(list) => Ok(Kept::Ranges {
            name,
            list: Box::new(alloc, list)?,
        }),
        AttributeValue::LocationListRef(list) => keep_locations(alloc, name, list),
        AttributeValue::UnitRef(id) => Ok(Kept::Entry { name, id }),
        AttributeValue::DebugInfoRef(reference) => keep_reference(alloc, name, reference),
    }
}

// An expression, as it is held.
fn keep_expression(name: u16, expression: Expression) -> Kept
    ensures { given result ≡ record { name = name; value = ValueExpression expression } }
{
    match expression.into_bytes() {
        Bytes::Few(bytes) => Kept::Short { name, bytes },
        Bytes::Many(bytes) => Kept::Expression { name, bytes },
    }
}

// A location list: one without intervals takes no memory, and one of a single interval one piece.
fn keep_locations(alloc: Global, name: u16, list: LocationList) -> Result<Kept, AllocError>
    ensures { IfOk result (λ k. given k ≡ record { name = name; value = ValueLocations list }) }
{
    let mut locations = list.into_locations();
    if locations.len() > 1 {
        let list = LocationList::new(locations);
        return Ok(Kept::Locations {
            name,
            list: Box::new(alloc, list)?,
        });
    }
    match locations.pop() {
        None => Ok(Kept::NoLocations { name }),
        Some(location) => Ok(Kept::Location {
            name,
            location: Box::new(alloc, location)?,
        }),
    }
}

// An address, in a box where its symbol is no number of four bytes.
fn keep_address(alloc: Global, name: u16, address: Address) -> Result<Kept, AllocError>
    ensures { IfOk result (λ k. given k ≡ record { name = name; value = ValueAddress address }) }
{
    if let Address::Symbol { symbol, addend } = address {
        if let Ok(symbol) = u32::try_from(symbol) {
            return Ok(Kept::Symbol {
                name,
                symbol,
                addend,
            });
        }
    }
    Ok(Kept::Address {
        name,
        address: Box::new(alloc, address)?,
    })
}

// A reference, in a box where its unit is no number of four bytes.
fn keep_reference(alloc: Global, name: u16, reference: DebugInfoRef) -> Result<Kept, AllocError>
    ensures { IfOk result (λ k. given k ≡ record { name = name; value = ValueReference reference }) }
{
    let DebugInfoRef::Entry(unit, id) = reference;
    if let Ok(unit) = u32::try_from(unit.index) {
        return Ok(Kept::UnitEntry { name, unit, id });
    }
    Ok(Kept::Reference {
        name,
        reference: Box::new(alloc, reference)?,
    })
}

// How many attributes an entry has before they stand in a list of their own and their names are indexed. Most entries have fewer.
pub(crate) const MANY: usize = 16;

// The attributes of an entry in a list of their own, in their order. Where they are many, `places` has the first place of each name.
#[derive(Drop)]
pub(crate) struct Attributes {
    list: Vec<KeptAttribute>,
    places: Option<BTreeMap<u16, usize>>,
}

impl Model for Attributes {
    ghost use Rattle.std.specs.Prelude.{List};
    ghost use Rattle.dwc_unit.specs.AttributePlaces.{IsIndexed};
    ghost use Rattle.dwc_unit.specs.declared.attributes.Attribute as declared;

    ghost Value = { List declared.Attribute };

    ghost view = { λ a. a.list.items };

    ghost invariant = { λ a. IsIndexed a.list.items a.places };
}

impl Attributes {
    // The attributes in their order.
    pub(crate) fn as_slice(&self) -> &[KeptAttribute]
        ensures { result.now ≡ self.now }
    {
        self.list.as_slice()
    }

    // The attributes of a list.
    pub(crate) fn from_list(list: Vec<KeptAttribute>) -> Attributes
        ensures { result ≡ list.items }
    {
        Attributes { list, places: None }
    }

    // Puts a value in the place of the first of its name, or behind the others.
    pub(crate) fn set(&mut self, name: u16, value: AttributeValue) -> Result<(), AllocError>
        ensures ok { OnOk result (self.new ≡ set_attribute name value self.old) }
        ensures err { OnErr result (self.new ≡ self.old) }
    {
        self.index_many()?;
        let attribute = KeptAttribute::keep(*self.list.allocator(), name, value)?;
        match self.place_of(name) {
            Some(place) => self.replace(place, attribute),
            None => self.push(attribute)?,
        }
        Ok(())
    }

    // Makes the index where the attributes have become many.
    fn index_many(&mut self) -> Result<(), AllocError>
        ensures { self.new ≡ self.old }
    {
        if self.list.len() >= MANY && self.places.is_none() {
            let alloc = *self.list.allocator();
            self.places = Some(places_of(alloc, &self.list)?);
        }
        Ok(())
    }

    // The place of the first attribute of a name.
    fn place_of(&self, name: u16) -> Option<usize>
        ensures { result ≡ place_from 0 self.now name }
    {
        match &self.places {
            Some(places) => places.get(&name).copied(),
            None => place_in(&self.list, name),
        }
    }

    // Puts an attribute in the place of the first of its name.
    fn replace(&mut self, place: usize, attribute: KeptAttribute)
        requires { place_from 0 self.old attribute.name ≡ Some place }
        ensures { self.new ≡ slice_set self.old place attribute }
    {
        self.list[place] = attribute;
    }

    // Adds an attribute behind the others, whose names are others.
    fn push(&mut self, attribute: KeptAttribute) -> Result<(), AllocError>
        requires { place_from 0 self.old attribute.name ≡ None }
        ensures ok { OnOk result (self.new ≡ self.old ++ attribute ∷ []) }
        ensures err { OnErr result (self.new ≡ self.old) }
    {
        let place = self.list.len();
        self.list.reserve(1)?;
        if let Some(places) = &mut self.places {
            places.insert(attribute.name(), place)?;
        }
        self.list.push(attribute).unwrap();
        Ok(())
    }
}

// The first place of each name.
fn places_of(
    alloc: Global,
    attributes: &[KeptAttribute],
) -> Result<BTreeMap<u16, usize>, AllocError>
    ensures { IfOk result (λ m. (name : ℕ) → get nat_cmp m name ≡ place_from 0 attributes.now name) }
{
    let mut places = BTreeMap::new(alloc);
    let mut k = attributes.len();
    while k > 0 {
        k -= 1;
        places.insert(attributes[k].name(), k)?;
    }
    Ok(places)
}

// The place of the first attribute of a name, by a scan.
pub(crate) fn place_in(attributes: &[KeptAttribute], name: u16) -> Option<usize>
    ensures { result ≡ place_from 0 attributes.now name }
{
    attributes.iter().position(|a| a.name() == name)
}

/// An attribute of a declaration: its name and its form.
#[derive(Clone, Copy, Default, PartialEq, Eq, Hash)]
pub struct AttributeForm {
    /// The name, a `DW_AT` number.
    pub name: u16,
    /// The form, a `DW_FORM` number.
    pub form: u16,
}

/// The form of an attribute's value.
pub fn form_of(attribute: &KeptAttribute) -> u16
    ensures { result ≡ form_number (written_of no_places no_lists attribute.now.value) }
{
    match attribute.value() {
        Held::Address(_) => DW_FORM_addr,
        Held::Constant { form, bits } => constant_form(form, bits),
        Held::Flag(_) => DW_FORM_flag,
        Held::Block(_) => DW_FORM_block,
        Held::Exprloc(_) => DW_FORM_exprloc,
        Held::StringRef(_) => DW_FORM_strp,
        Held::LineProgramRef => DW_FORM_sec_offset,
        Held::RangeListRef(_) => DW_FORM_sec_offset,
        Held::LocationListRef(_) => DW_FORM_sec_offset,
        Held::UnitRef(_) => DW_FORM_ref4,
        Held::DebugInfoRef(_) => DW_FORM_ref_addr,
    }
}

// The form of a constant: its own where it is one of a constant, else udata.
fn constant_form(form: u16, _bits: u64) -> u16
    ensures { result ≡ form_number (constant_of form _bits) }
{
    match form {
        DW_FORM_data1 | DW_FORM_data2 | DW_FORM_data4 | DW_FORM_data8 | DW_FORM_sdata => form,
        _ => DW_FORM_udata,
    }
}
