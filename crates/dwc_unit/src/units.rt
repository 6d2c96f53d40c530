//! Units as they are given: a line program and a tree of entries. (DWARF 4, section 7.5.)
ghost use Rattle.std.specs.Prelude.{◌≡◌, ◌⊎◌, ◌<◌, ◌∷◌, ◌++◌, [], Some, true, is_some, OnOk, OnErr, IfOk, IsOkUnless, length, slice_index_or};
ghost use Rattle.dwc_unit.specs.GivenUnits.{IsOfSize, IsWrittenVersion, new_unit, place_of};
ghost use Rattle.dwc_section.specs.declared.error.WriteError.TheVariants.{OutOfMemory};
ghost use Rattle.dwc_section.specs.Writers.{OkUnlessMemory};

use crate::additions::Additions;
use crate::small_places::SmallPlace;
use crate::{AttributeValue, LineProgram, StringTable};
use dwc_base::Encoding;
use dwc_base::constants::DW_TAG_compile_unit;
use dwc_section::WriteError;
use std::alloc::Global;
use std::marker::Model;
use std::rc::Rc;

/// An entry of a unit, by the number that was given to it.
#[derive(Clone, Copy)]
pub struct UnitEntryId {
    /// Entries of a unit are numbered from 0, the root, in the order in which their numbers were given, so that an entry that is
    /// still to be added can be named.
    pub index: usize,
}

/// A unit: its line program, which other units may share, its entries in the order in which they were added, and for each
/// number that was given to an entry the entry's place there, none where the number is only reserved.
#[derive(Drop)]
pub struct Unit {
    /// Its version, 4 or 5.
    pub version: u16,
    /// The size of an address in bytes, 4 or 8.
    pub address_size: u8,
    /// Its line program, which other units may share.
    pub lines: Rc<LineProgram>,
    /// By the number that was given to an entry, its place; none where the number is only reserved.
    pub places: Vec<SmallPlace>,
    /// Its entries in the order in which they were added.
    pub additions: Additions,
}

impl Model for Unit {
    ghost use Rattle.dwc_unit.specs.GivenUnits.{GivenUnit, FitsGivenUnit};

    ghost Value = { GivenUnit };

    ghost view = { λ u. record { version = u.version; address_size = u.address_size; lines = u.lines.value; places = u.places.items; additions = u.additions } };

    ghost invariant = { λ u. FitsGivenUnit (record { version = u.version; address_size = u.address_size; lines = u.lines.value; places = u.places.items; additions = u.additions }) };
}

impl Unit {
    ghost use Rattle.std.specs.Prelude.{◌≡◌, ◌⊎◌, OnOk, OnErr, IfOk, IsOkUnless, length};
    ghost use Rattle.dwc_unit.specs.GivenUnits.{FitsValue, IsAdded, IsOfSize, IsReserved, IsWrittenVersion, new_unit, tag_of, with_child, with_known, with_next, with_reserved, with_value};

    /// A unit of version 4 or 5 with a line program of the same encoding, or with none. Its root is a compile unit.
    pub fn new(alloc: Global, encoding: Encoding, program: LineProgram) -> Result<Unit, WriteError>
        requires version { IsWrittenVersion encoding.version }
        requires size { (encoding.address_size ≡ 4) ⊎ (encoding.address_size ≡ 8) }
        requires lines { IsOfSize encoding.address_size program.address_size }
        ensures { OkUnlessMemory result (λ u. u ≡ new_unit encoding.version encoding.address_size program) }
    {
        let lines = Rc::new(alloc, program)?;
        with_root(alloc, encoding, lines)
    }

    /// A unit with the version, the address size and the line program of another, which both share from then on. Its root is a
    /// compile unit.
    pub fn sharing(alloc: Global, other: &Unit) -> Result<Unit, WriteError>
        ensures { OkUnlessMemory result (λ u. u ≡ new_unit other.now.version other.now.address_size other.now.lines) }
    {
        let lines = other.lines.clone()?;
        with_root(alloc, other.encoding(), lines)
    }

    /// Its version and the size of its addresses.
    pub fn encoding(&self) -> Encoding
        ensures version { result.version ≡ self.now.version }
        ensures address_size { result.address_size ≡ self.now.address_size }
        ensures known { IsWrittenVersion self.now.version }
        ensures sized { (self.now.address_size ≡ 4) ⊎ (self.now.address_size ≡ 8) }
        ensures lines { IsOfSize self.now.address_size self.now.lines.address_size }
    {
        Encoding {
            version: self.version,
            address_size: self.address_size,
        }
    }

    /// The root.
    pub fn root(&self) -> UnitEntryId
        ensures { result ≡ record { index = 0 } }
    {
        UnitEntryId { index: 0 }
    }

    /// Makes room for so many entries more, so that they can be added without copies of the others. Nothing else changes.
    pub fn make_room(&mut self, count: usize) -> Result<(), WriteError>
        ensures same { self.new ≡ self.old }
        ensures memory { IsOkUnless result OutOfMemory }
    {
        self.places.reserve(count)?;
        self.additions.make_room(count)?;
        Ok(())
    }

    /// Makes room for so many attributes of an entry that has none yet. Nothing else changes.
    pub fn make_room_in(&mut self, id: UnitEntryId, count: usize) -> Result<(), WriteError>
        requires known { IsAdded id.index self.old }
        ensures same { self.new ≡ self.old }
        ensures memory { IsOkUnless result OutOfMemory }
    {
        let place = known_place(&self.places, id);
        self.additions.make_room_in(place, count)?;
        Ok(())
    }

    /// Gives back the memory that nothing stands in, where no more is to be added. Nothing else changes.
    pub fn give_back(&mut self)
        ensures { self.new ≡ self.old }
    {
        self.places.shrink_to_fit();
        self.additions.give_back();
    }

    /// Adds an entry without attributes below a parent, which was added before. In the file it stands behind the entries that
    /// were added below that parent before it.
    pub fn add(&mut self, parent: UnitEntryId, tag: u16) -> Result<UnitEntryId, WriteError>
        requires { IsAdded parent.index self.old }
        ensures ok { OnOk result (self.new ≡ with_child parent.index tag (with_next self.old)) }
        ensures id { IfOk result (λ id. id ≡ record { index = length self.old.places }) }
        ensures err { OnErr result (self.new ≡ self.old) }
        ensures memory { IsOkUnless result OutOfMemory }
    {
        let parent_place = known_place(&self.places, parent);
        let index = self.places.len();
        let place = self.additions.len();
        let known = SmallPlace::new(place)?;
        self.places.reserve(1)?;
        self.additions.push(parent_place, tag)?;
        self.places.push(known).unwrap();
        Ok(UnitEntryId { index })
    }

    /// A number for an entry that `add_reserved` is to add, so that it can be referred to before.
    pub fn reserve(&mut self) -> Result<UnitEntryId, WriteError>
        ensures ok { OnOk result (self.new ≡ with_reserved self.old) }
        ensures id { IfOk result (λ id. id ≡ record { index = length self.old.places }) }
        ensures err { OnErr result (self.new ≡ self.old) }
        ensures memory { IsOkUnless result OutOfMemory }
    {
        let index = self.places.len();
        self.places.push(SmallPlace::none())?;
        Ok(UnitEntryId { index })
    }

    /// Adds an entry without attributes, whose number was reserved, below a parent, which was added before.
    pub fn add_reserved(
        &mut self,
        id: UnitEntryId,
        parent: UnitEntryId,
        tag: u16,
    ) -> Result<(), WriteError>
        requires reserved { IsReserved id.index self.old }
        requires parent { IsAdded parent.index self.old }
        ensures ok { OnOk result (self.new ≡ with_child parent.index tag (with_known id.index self.old)) }
        ensures err { OnErr result (self.new ≡ self.old) }
        ensures memory { IsOkUnless result OutOfMemory }
    {
        let parent_place = known_place(&self.places, parent);
        let place = self.additions.len();
        let known = SmallPlace::new(place)?;
        self.additions.push(parent_place, tag)?;
        self.places[id.index] = known;
        Ok(())
    }

    /// Gives an entry a value under a name: in the place of the value of that name, else behind the others.
    #[inline(always)]
    pub fn set(
        &mut self,
        id: UnitEntryId,
        name: u16,
        value: AttributeValue,
    ) -> Result<(), WriteError>
        requires known { IsAdded id.index self.old }
        requires fits { FitsValue self.old.address_size name value }
        ensures ok { OnOk result (self.new ≡ with_value id.index name value self.old) }
        ensures err { OnErr result (self.new ≡ self.old) }
        ensures memory { IsOkUnless result OutOfMemory }
    {
        value.know_length();
        let place = known_place(&self.places, id);
        self.additions.set(place, name, value)?;
        Ok(())
    }

    /// The tag of an entry.
    pub fn tag(&self, id: UnitEntryId) -> u16
        requires { IsAdded id.index self.now }
        ensures { result ≡ tag_of id.index self.now }
    {
        self.additions.tag(known_place(&self.places, id))
    }
}

// A unit with a root alone.
fn with_root(alloc: Global, encoding: Encoding, lines: Rc<LineProgram>) -> Result<Unit, WriteError>
    requires version { IsWrittenVersion encoding.version }
    requires size { (encoding.address_size ≡ 4) ⊎ (encoding.address_size ≡ 8) }
    requires lines { IsOfSize encoding.address_size lines.value.address_size }
    ensures { OkUnlessMemory result (λ u. u ≡ new_unit encoding.version encoding.address_size lines.value) }
{
    let mut additions = Additions::new(alloc);
    additions.push(0, DW_TAG_compile_unit)?;
    let mut places = Vec::new(alloc);
    places.push(SmallPlace::new(0)?)?;
    Ok(Unit {
        version: encoding.version,
        address_size: encoding.address_size,
        lines,
        places,
        additions,
    })
}

// The place of an entry that was added.
#[tactic(auto, using(crate::proofs::UnitLaws::place_here, crate::proofs::UnitLaws::place_get))]
fn known_place(places: &[SmallPlace], id: UnitEntryId) -> usize
    requires { is_some (place_of id.index places.now) ≡ true }
    ensures { place_of id.index places.now ≡ Some result }
{
    match places[id.index].get() {
        Some(place) => place,
        None => unreachable!(),
    }
}

/// A unit of a table, by its number.
#[derive(Clone, Copy)]
pub struct UnitId {
    /// Units are numbered from 0 in the order in which they were added, so that a unit that is still to be added can be named.
    pub index: usize,
}

/// Units in their order.
#[derive(Drop)]
pub struct UnitTable {
    /// The units in the order of their numbers.
    pub units: Vec<Unit>,
}

impl UnitTable {
    ghost use Rattle.std.specs.Borrow.{sem};
    ghost use Rattle.dwc_unit.specs.LentUnits.{lends_unit};

    /// An empty table.
    pub fn new(alloc: Global) -> UnitTable
        ensures { result.units.items ≡ [] }
    {
        UnitTable {
            units: Vec::new(alloc),
        }
    }

    /// Adds a unit behind the others.
    pub fn add(&mut self, unit: Unit) -> Result<UnitId, WriteError>
        ensures ok { OnOk result (self.new.units.items ≡ self.old.units.items ++ unit ∷ []) }
        ensures id { IfOk result (λ id. id ≡ record { index = length self.old.units.items }) }
        ensures err { OnErr result (self.new.units.items ≡ self.old.units.items) }
        ensures memory { IsOkUnless result OutOfMemory }
    {
        let index = self.units.len();
        self.units.push(unit)?;
        Ok(UnitId { index })
    }

    /// How many units there are, which is the number of the unit that is added next.
    pub fn len(&self) -> usize
        ensures { result ≡ length self.now.units.items }
    {
        self.units.len()
    }

    /// A unit of the table.
    pub fn get(&self, id: UnitId) -> &Unit
        requires { id.index < length self.now.units.items }
        ensures { result.now ≡ slice_index_or self.now.units.items id.index result.now }
    {
        &self.units[id.index]
    }

    /// A unit of the table, to be changed; the others stay.
    pub fn get_mut(&mut self, id: UnitId) -> &mut Unit
        requires { id.index < length self.old.units.items }
        ensures* writes_back { sem 𝓛 (lends_unit self.entry id.index result) }
        ensures value { result.now ≡ slice_index_or self.old.units.items id.index result.now }
    {
        &mut self.units[id.index]
    }
}

/// What is written: units in their order, and the texts that they name.
#[derive(Drop)]
pub struct Dwarf {
    pub units: UnitTable,
    pub strings: StringTable,
}
