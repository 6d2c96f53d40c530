//! Entries in the order in which they were added, with the attributes of all in one list.
ghost use Rattle.std.specs.Prelude.{◌≡◌, ◌^◌, ◌<◌, ◌≤◌, ◌+◌, ◌∷◌, ◌++◌, [], List, Some, None, true, Bool, OnOk, OnErr, IfOk, length, get_or};
ghost use Rattle.dwc_unit.specs.declared.attributes.Attribute as declared;
ghost use Rattle.dwc_unit.specs.GivenUnits.{set_attribute, set_in, set_in_addition};
ghost use Rattle.dwc_unit.specs.FileOrders.{no_addition};
ghost use Rattle.dwc_unit.specs.AttributePlaces.{place_from};
ghost use Rattle.dwc_unit.specs.UnitViews.{AreOthersKept, IsChanged, IsOpen, IsOwnWithin, IsPartChanged, addition_in, part_of};

use crate::AttributeValue;
use crate::attributes::{Attributes, KeptAttribute, MANY, place_in};
use crate::small_places::SmallPlace;
use dwc_section::growth::reserve_part;
use std::alloc::{AllocError, Global};
use std::marker::Model;
use std::mem;

// An entry: the place of its parent (its own for the root), its tag, and its attributes, which are so many of the list of all from
// a place on, or a list of their own at a place among these.
#[derive(Drop)]
pub(crate) struct Entry {
    parent: u32,
    begin: u32,
    own: SmallPlace,
    tag: u16,
    count: u16,
}

// How many attributes entries mostly have, or somewhat less.
const USUAL_ATTRIBUTES: usize = 3;

/// Entries, the attributes of those that have no list of their own, and the lists of the others.
#[derive(Drop)]
pub struct Additions {
    entries: Vec<Entry>,
    shared: Vec<KeptAttribute>,
    own: Vec<Attributes>,
}

impl Model for Additions {
    ghost use Rattle.std.specs.Prelude.{List, length, map};
    ghost use Rattle.dwc_unit.specs.GivenUnits.{Addition};
    ghost use Rattle.dwc_unit.specs.UnitViews.{AreHeld, addition_in};

    ghost Value = { List Addition };

    ghost view = { λ a. map (addition_in a.shared.items a.own.items) a.entries.items };

    ghost invariant = { λ a. AreHeld a.shared.items (length a.own.items) a.entries.items };
}

impl Additions {
    // No entries.
    pub(crate) fn new(alloc: Global) -> Additions
        ensures { result ≡ [] }
    {
        Additions {
            entries: Vec::new(alloc),
            shared: Vec::new(alloc),
            own: Vec::new(alloc),
        }
    }

    /// How many there are.
    pub fn len(&self) -> usize
        ensures { result ≡ length self.now }
    {
        self.entries.len()
    }

    /// The place of an entry's parent.
    pub fn parent(&self, place: usize) -> usize
        requires { place < length self.now }
        ensures { result ≡ (get_or self.now place no_addition).parent }
    {
        self.entries[place].parent as usize
    }

    /// An entry's tag.
    pub fn tag(&self, place: usize) -> u16
        requires { place < length self.now }
        ensures { result ≡ (get_or self.now place no_addition).tag }
    {
        self.entries[place].tag
    }

    /// An entry's attributes in their order.
    pub fn attributes(&self, place: usize) -> &[KeptAttribute]
        requires { place < length self.now }
        ensures { result.now ≡ (get_or self.now place no_addition).attributes }
    {
        attributes_of(&self.entries[place], &self.shared, &self.own)
    }

    // Makes room for so many entries more, with as many attributes as they mostly have.
    pub(crate) fn make_room(&mut self, count: usize) -> Result<(), AllocError>
        ensures { self.new ≡ self.old }
    {
        reserve_part(&mut self.shared, count.saturating_mul(USUAL_ATTRIBUTES));
        self.entries.reserve(count)
    }

    // Makes room for so many attributes of an entry, where it is the last one.
    pub(crate) fn make_room_in(&mut self, place: usize, count: usize) -> Result<(), AllocError>
        requires { place < length self.old }
        ensures { self.new ≡ self.old }
    {
        if self.is_last(place) {
            reserve_part(&mut self.shared, count);
        }
        Ok(())
    }

    // Gives back the memory that nothing stands in.
    pub(crate) fn give_back(&mut self)
        ensures { self.new ≡ self.old }
    {
        self.shared.shrink_to_fit();
        self.entries.shrink_to_fit();
    }

    // Whether an entry is the last one.
    fn is_last(&self, place: usize) -> bool
        requires { place < length self.now }
        ensures { result ≡ true → length self.now ≡ place + 1 }
    {
        self.entries.len() - place == 1
    }

    // Adds an entry without attributes behind the others. There is no memory for so many entries or attributes that their places do
    // not fit.
    pub(crate) fn push(&mut self, parent: usize, tag: u16) -> Result<(), AllocError>
        ensures ok { OnOk result (self.new ≡ self.old ++ record { parent = parent; tag = tag; attributes = [] } ∷ []) }
        ensures few { OnOk result (length self.old + 1 < 2 ^ 63) }
        ensures err { OnErr result (self.new ≡ self.old) }
    {
        let Ok(parent) = u32::try_from(parent) else {
            return Err(AllocError);
        };
        let Ok(begin) = u32::try_from(self.shared.len()) else {
            return Err(AllocError);
        };
        let entry = Entry {
            parent,
            begin,
            own: SmallPlace::none(),
            tag,
            count: 0,
        };
        self.entries.push(entry)?;
        Ok(())
    }

    // Gives an entry a value under a name: in the place of the value of that name, else behind the others.
    #[inline(always)]
    pub(crate) fn set(
        &mut self,
        place: usize,
        name: u16,
        value: AttributeValue,
    ) -> Result<(), AllocError>
        requires { place < length self.old }
        ensures ok { OnOk result (self.new ≡ set_in place name value self.old) }
        ensures err { OnErr result (self.new ≡ self.old) }
    {
        let is_last = self.is_last(place);
        set_value(
            &mut self.entries[place],
            &mut self.shared,
            &mut self.own,
            is_last,
            name,
            value,
        )
    }
}

// The attributes of an entry.
fn attributes_of<'a>(
    entry: &'a Entry,
    shared: &'a [KeptAttribute],
    own: &'a [Attributes],
) -> &'a [KeptAttribute]
    requires within { entry.now.begin + entry.now.count ≤ length shared.now }
    requires own { IsOwnWithin (length own.now) entry.now }
    ensures { result.now ≡ (addition_in shared.now own.now entry.now).attributes }
{
    match entry.own.get() {
        Some(place) => own[place].as_slice(),
        None => part_of_shared(shared, entry.begin as usize, usize::from(entry.count)),
    }
}

// So many attributes from a place on.
fn part_of_shared(shared: &[KeptAttribute], begin: usize, count: usize) -> &[KeptAttribute]
    requires { begin + count ≤ length shared.now }
    ensures { result.now ≡ part_of begin count shared.now }
{
    shared.split_at(begin).1.split_at(count).0
}

// Gives an entry a value. Where it is the last one, its part of the list of all can grow.
#[inline(always)]
fn set_value(
    entry: &mut Entry,
    shared: &mut Vec<KeptAttribute>,
    own: &mut Vec<Attributes>,
    is_last: bool,
    name: u16,
    value: AttributeValue,
) -> Result<(), AllocError>
    requires within { entry.old.begin + entry.old.count ≤ length shared.old.items }
    requires own { IsOwnWithin (length own.old.items) entry.old }
    ensures kept { IsChanged is_last entry.old shared.old.items own.old.items entry.new shared.new.items own.new.items }
    ensures ok { OnOk result (addition_in shared.new.items own.new.items entry.new ≡ set_in_addition name value (addition_in shared.old.items own.old.items entry.old)) }
    ensures err { OnErr result (addition_in shared.new.items own.new.items entry.new ≡ addition_in shared.old.items own.old.items entry.old) }
{
    match entry.own.get() {
        Some(place) => set_own(own, place, name, value),
        None => set_shared(entry, shared, own, is_last, name, value),
    }
}

// Sets a value in a list of an entry's own.
#[inline(never)]
fn set_own(
    own: &mut Vec<Attributes>,
    place: usize,
    name: u16,
    value: AttributeValue,
) -> Result<(), AllocError>
    requires { place < length own.old.items }
    ensures kept { AreOthersKept place own.old.items own.new.items }
    ensures ok { OnOk result (get_or own.new.items place [] ≡ set_attribute name value (get_or own.old.items place [])) }
    ensures err { OnErr result (get_or own.new.items place [] ≡ get_or own.old.items place []) }
{
    own[place].set(name, value)
}

// Gives an entry without a list of its own a value.
#[inline(always)]
fn set_shared(
    entry: &mut Entry,
    shared: &mut Vec<KeptAttribute>,
    own: &mut Vec<Attributes>,
    is_last: bool,
    name: u16,
    value: AttributeValue,
) -> Result<(), AllocError>
    requires none { entry.old.own ≡ None }
    requires within { entry.old.begin + entry.old.count ≤ length shared.old.items }
    ensures kept { IsChanged is_last entry.old shared.old.items own.old.items entry.new shared.new.items own.new.items }
    ensures ok { OnOk result (addition_in shared.new.items own.new.items entry.new ≡ set_in_addition name value (addition_in shared.old.items own.old.items entry.old)) }
    ensures err { OnErr result (addition_in shared.new.items own.new.items entry.new ≡ addition_in shared.old.items own.old.items entry.old) }
{
    match place_in_part(entry, shared, name) {
        Some(place) => {
            let attribute = KeptAttribute::keep(*shared.allocator(), name, value)?;
            shared[entry.begin as usize + place] = attribute;
            Ok(())
        }
        None if is_last && is_open(entry, shared) => add(entry, shared, name, value),
        None => {
            let own_place = make_own(entry, shared, own)?;
            set_own(own, own_place, name, value)
        }
    }
}

// The place in an entry's part of the first attribute of a name.
fn place_in_part(entry: &Entry, shared: &[KeptAttribute], name: u16) -> Option<usize>
    requires { entry.now.begin + entry.now.count ≤ length shared.now }
    ensures { result ≡ place_from 0 (part_of entry.now.begin entry.now.count shared.now) name }
{
    let part = part_of_shared(shared, entry.begin as usize, usize::from(entry.count));
    place_in(part, name)
}

// Whether an attribute can be added to the part of an entry: nothing stands behind it, and it is short enough to be searched.
fn is_open(entry: &Entry, shared: &[KeptAttribute]) -> bool
    requires { entry.now.begin + entry.now.count ≤ length shared.now }
    ensures { result ≡ true → IsOpen entry.now shared.now }
{
    let count = usize::from(entry.count);
    count < MANY && entry.begin as usize + count == shared.len()
}

// Adds a value of a new name behind the last part.
#[inline(always)]
fn add(
    entry: &mut Entry,
    shared: &mut Vec<KeptAttribute>,
    name: u16,
    value: AttributeValue,
) -> Result<(), AllocError>
    requires none { entry.old.own ≡ None }
    requires open { IsOpen entry.old shared.old.items }
    requires new { place_from 0 (part_of entry.old.begin entry.old.count shared.old.items) name ≡ None }
    ensures kept { (own : List (List declared.Attribute)) → IsChanged true entry.old shared.old.items own entry.new shared.new.items own }
    ensures ok { OnOk result ((own : List (List declared.Attribute)) → addition_in shared.new.items own entry.new ≡ set_in_addition name value (addition_in shared.old.items own entry.old)) }
    ensures err { OnErr result ((own : List (List declared.Attribute)) → addition_in shared.new.items own entry.new ≡ addition_in shared.old.items own entry.old) }
{
    let attribute = KeptAttribute::keep(*shared.allocator(), name, value)?;
    shared.push(attribute)?;
    entry.count += 1;
    Ok(())
}

// Moves the attributes of an entry into a list of its own, and answers its place.
#[inline(never)]
fn make_own(
    entry: &mut Entry,
    shared: &mut Vec<KeptAttribute>,
    own: &mut Vec<Attributes>,
) -> Result<usize, AllocError>
    requires none { entry.old.own ≡ None }
    requires within { entry.old.begin + entry.old.count ≤ length shared.old.items }
    ensures kept { (last : Bool) → IsChanged last entry.old shared.old.items own.old.items entry.new shared.new.items own.new.items }
    ensures same { addition_in shared.new.items own.new.items entry.new ≡ addition_in shared.old.items own.old.items entry.old }
    ensures own { IfOk result (λ place. (entry.new.own ≡ Some place) × (place < length own.new.items)) }
{
    let place = own.len();
    let kept = SmallPlace::new(place)?;
    own.reserve(1)?;
    let list = take_part(entry, shared)?;
    own.push(list).unwrap();
    entry.own = kept;
    Ok(place)
}

// Moves the attributes of an entry's part into a list.
fn take_part(entry: &Entry, shared: &mut Vec<KeptAttribute>) -> Result<Attributes, AllocError>
    requires { entry.now.begin + entry.now.count ≤ length shared.old.items }
    ensures kept { IsPartChanged entry.now shared.old.items shared.new.items }
    ensures moved { IfOk result (λ list. list ≡ part_of entry.now.begin entry.now.count shared.old.items) }
    ensures err { OnErr result (shared.new.items ≡ shared.old.items) }
{
    let alloc = *shared.allocator();
    let count = usize::from(entry.count);
    let mut list = places_for(alloc, count)?;
    let begin = entry.begin as usize;
    let end = begin + count;
    move_all(&mut shared[begin..end], &mut list);
    Ok(Attributes::from_list(list))
}

// Places for so many attributes.
fn places_for(alloc: Global, count: usize) -> Result<Vec<KeptAttribute>, AllocError>
    ensures { IfOk result (λ list. length list.items ≡ count) }
{
    let mut list = Vec::new(alloc);
    for _ in 0..count {
        list.push(KeptAttribute::none())?;
    }
    Ok(list)
}

// Moves attributes to as many other places.
fn move_all(from: &mut [KeptAttribute], to: &mut [KeptAttribute])
    requires { length from.old ≡ length to.old }
    ensures moved { to.new ≡ from.old }
    ensures many { length from.new ≡ length from.old }
{
    for i in 0..to.len() {
        to[i] = mem::replace(&mut from[i], KeptAttribute::none());
    }
}
