//! The shapes of the entries of a unit: what their declarations say beside a code, each once, in the order of their first use.
ghost use Rattle.std.specs.Prelude.{◌≡◌, ◌<◌, ◌≤◌, ◌++◌, ◌∷◌, [], ℕ, Some, OnOk, IfOk, if◌then◌else◌, length, map};
ghost use Rattle.std.specs.List.{flat_map};
ghost use Rattle.std.specs.BTreeMap.{get};
ghost use Rattle.std.specs.Global.{Vec as Words};
ghost use Rattle.std.specs.Str.{bytes_eq};
ghost use Rattle.dwc_unit.specs.GivenUnits.{forms_of, place_in};
ghost use Rattle.dwc_write.specs.ShapeViews.{AreFound, form_words, shape_view, shape_words, words_cmp};

use dwc_unit::attributes::{AttributeForm, KeptAttribute, form_of};
use smallvec::SmallVec;
use std::alloc::{AllocError, Global};
use std::collections::BTreeMap;

// Most declarations have no more attributes.
const USUAL_ATTRIBUTES: usize = 6;

// What the declaration of an entry says beside its code.
#[derive(Drop)]
pub struct Shape {
    pub(crate) tag: u16,
    pub(crate) has_children: bool,
    pub(crate) attributes: SmallVec<AttributeForm, USUAL_ATTRIBUTES>,
}

// How many places are kept near.
const NEAR: usize = 256;

// Shapes in the order of their first use, each once. One is found by its words in an ordered map, so no choice of shapes makes a look-up
// slower than a logarithm of their number. The places found last are kept near, by a number that is made of the words. Nothing is said of
// them, since who takes one looks whether the shape stands there.
#[derive(Drop)]
pub struct Shapes {
    shapes: Vec<Shape>,
    places: BTreeMap<Vec<u16>, usize>,
    near: Vec<usize>,
}

impl Shapes {
    // No shapes, with room for so many.
    pub fn with_capacity(alloc: Global, count: usize) -> Result<Shapes, AllocError>
        ensures none { IfOk result (λ s. s.shapes.items ≡ []) }
        ensures found { IfOk result AreFound }
    {
        Ok(Shapes {
            shapes: Vec::with_capacity(alloc, count)?,
            places: BTreeMap::new(alloc),
            near: vec![in alloc; 0; NEAR]?,
        })
    }

    // How many shapes there are.
    pub fn len(&self) -> usize
        ensures { result ≡ length self.now.shapes.items }
    {
        self.shapes.len()
    }

    // The shapes in their order.
    pub fn as_slice(&self) -> &[Shape]
        ensures { result.now ≡ self.now.shapes.items }
    {
        &self.shapes
    }

    // The place that is kept near a number.
    pub fn near(&self, number: usize) -> usize {
        match self.near.get(number % NEAR) {
            Some(place) => *place,
            None => 0,
        }
    }

    // Keeps a place near a number.
    pub fn keep_near(&mut self, number: usize, place: usize)
        ensures shapes { self.new.shapes ≡ self.old.shapes }
        ensures places { self.new.places ≡ self.old.places }
    {
        let at = number % NEAR;
        if at < self.near.len() {
            self.near[at] = place;
        }
    }

    // The place of a shape, by its words.
    pub fn place_of(&self, words: &Vec<u16>) -> Option<usize>
        ensures { result ≡ get words_cmp self.now.places words.now }
    {
        self.places.get(words).copied()
    }

    // Adds the shape of an entry, which is none of the others, with its words. Answers its place.
    pub fn add(
        &mut self,
        words: &Vec<u16>,
        tag: u16,
        has_children: bool,
        attributes: &[KeptAttribute],
    ) -> Result<usize, AllocError>
        requires words { words.now.items ≡ shape_words (record { tag = tag; has_children = has_children; attributes = forms_of attributes.now }) }
        requires found { AreFound self.old }
        requires new { length self.old.shapes.items ≤ place_in (record { tag = tag; has_children = has_children; attributes = forms_of attributes.now }) (map shape_view self.old.shapes.items) }
        ensures shapes { OnOk result (map shape_view self.new.shapes.items ≡ map shape_view self.old.shapes.items ++ (record { tag = tag; has_children = has_children; attributes = forms_of attributes.now }) ∷ []) }
        ensures place { IfOk result (λ place. place ≡ length self.old.shapes.items) }
        ensures inside { IfOk result (λ place. place < length self.new.shapes.items) }
        ensures found { OnOk result (AreFound self.new) }
    {
        let alloc = *self.shapes.allocator();
        let place = self.shapes.len();
        let shape = shape_of(alloc, tag, has_children, attributes)?;
        keep_place(alloc, &mut self.places, words, place)?;
        self.shapes.push(shape)?;
        Ok(place)
    }
}

// Keeps the place of a shape by its words.
fn keep_place(
    alloc: Global,
    places: &mut BTreeMap<Vec<u16>, usize>,
    words: &[u16],
    place: usize,
) -> Result<(), AllocError>
    ensures { OnOk result ((q : Words ℕ) → get words_cmp places.new q ≡ (if bytes_eq words.now q.items then Some place else get words_cmp places.old q)) }
{
    places.insert(words.to_vec(alloc)?, place)?;
    Ok(())
}

// The shape of an entry.
fn shape_of(
    alloc: Global,
    tag: u16,
    has_children: bool,
    attributes: &[KeptAttribute],
) -> Result<Shape, AllocError>
    ensures { IfOk result (λ s. shape_view s ≡ record { tag = tag; has_children = has_children; attributes = forms_of attributes.now }) }
{
    let mut forms = SmallVec::new(alloc);
    push_forms(&mut forms, attributes)?;
    Ok(Shape {
        tag,
        has_children,
        attributes: forms,
    })
}

// The names and forms of attributes, behind others.
fn push_forms(
    forms: &mut SmallVec<AttributeForm, USUAL_ATTRIBUTES>,
    attributes: &[KeptAttribute],
) -> Result<(), AllocError>
    ensures { OnOk result (forms.new.items ≡ forms.old.items ++ forms_of attributes.now) }
{
    forms.reserve(attributes.len())?;
    for attribute in attributes {
        forms.push(AttributeForm {
            name: attribute.name(),
            form: form_of(attribute),
        })?;
    }
    Ok(())
}

// Makes words those of the shape of an entry, within the room that they have. Answers a number that is made of them.
#[inline(never)]
pub fn set_words(
    words: &mut Vec<u16>,
    tag: u16,
    has_children: bool,
    attributes: &[KeptAttribute],
) -> Result<usize, AllocError>
    ensures { OnOk result (words.new.items ≡ shape_words (record { tag = tag; has_children = has_children; attributes = forms_of attributes.now })) }
{
    words.clear();
    words.push(tag)?;
    words.push(u16::from(has_children))?;
    push_words(words, attributes)
}

// The names and forms of attributes, behind others. Answers a number that is made of them.
fn push_words(words: &mut Vec<u16>, attributes: &[KeptAttribute]) -> Result<usize, AllocError>
    ensures { OnOk result (words.new.items ≡ words.old.items ++ flat_map form_words (forms_of attributes.now)) }
{
    let mut number: usize = 0;
    for attribute in attributes {
        let name = attribute.name();
        let form = form_of(attribute);
        words.push(name)?;
        words.push(form)?;
        number = mixed(number, name, form);
    }
    Ok(number)
}

// A number with a name and a form mixed into it.
fn mixed(number: usize, name: u16, form: u16) -> usize {
    number
        .wrapping_mul(961)
        .wrapping_add(usize::from(name).wrapping_mul(31))
        .wrapping_add(usize::from(form))
}
