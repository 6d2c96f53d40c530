//! Abbreviation tables: what the entries of a unit have, and their codes. (DWARF 4, section 7.5.3.)
ghost use Rattle.std.specs.Prelude.{◌≡◌, ◌<◌, ◌++◌, ◌==◌, ◌&&◌, OnOk, IfOk, length, map, true};
ghost use Rattle.std.specs.List.{All, flat_map};
ghost use Rattle.dwc_unit.specs.SpelledTables.{table_bytes};
ghost use Rattle.dwc_unit.specs.GivenUnits.{AreOwn, IsPlainShape, code_in, form_bytes, form_of as form_of_attribute, forms_of, numbered, place_in, same_forms, same_shape, shape_bytes, with_use};
ghost use Rattle.dwc_write.specs.ShapeViews.{AreFound, StandsAt, shape_view, shape_words};

use crate::shapes::{Shape, Shapes, set_words};
use dwc_section::put_uleb;
use dwc_unit::attributes::{AttributeForm, KeptAttribute, form_of};
use std::alloc::AllocError;

// The code of an entry by its shape, which is kept where it is new. One place is looked at first, since entries of a tag often have one
// shape; a buffer holds its words where it does not stand there.
pub fn code_of_entry(
    shapes: &mut Shapes,
    words: &mut Vec<u16>,
    guess: u64,
    tag: u16,
    has_children: bool,
    attributes: &[KeptAttribute],
) -> Result<u64, AllocError>
    requires own { AreOwn (map shape_view shapes.old.shapes.items) }
    requires found { AreFound shapes.old }
    ensures shapes { OnOk result (map shape_view shapes.new.shapes.items ≡ with_use (record { tag = tag; has_children = has_children; attributes = forms_of attributes.now }) (map shape_view shapes.old.shapes.items)) }
    ensures code { IfOk result (λ code. code ≡ code_in (map shape_view shapes.old.shapes.items) (record { tag = tag; has_children = has_children; attributes = forms_of attributes.now })) }
    ensures found { OnOk result (AreFound shapes.new) }
{
    if guess < shapes.len() as u64 {
        let known = &shapes.as_slice()[guess as usize];
        if is_shape_of(known, tag, has_children, attributes) {
            return Ok(guess + 1);
        }
    }
    code_of(shapes, words, tag, has_children, attributes)
}

// The code of an entry by its shape, which is kept where it is new.
#[inline(never)]
fn code_of(
    shapes: &mut Shapes,
    words: &mut Vec<u16>,
    tag: u16,
    has_children: bool,
    attributes: &[KeptAttribute],
) -> Result<u64, AllocError>
    requires own { AreOwn (map shape_view shapes.old.shapes.items) }
    requires found { AreFound shapes.old }
    ensures shapes { OnOk result (map shape_view shapes.new.shapes.items ≡ with_use (record { tag = tag; has_children = has_children; attributes = forms_of attributes.now }) (map shape_view shapes.old.shapes.items)) }
    ensures code { IfOk result (λ code. code ≡ code_in (map shape_view shapes.old.shapes.items) (record { tag = tag; has_children = has_children; attributes = forms_of attributes.now })) }
    ensures found { OnOk result (AreFound shapes.new) }
{
    let number = set_words(words, tag, has_children, attributes)?;
    let near = shapes.near(number);
    if is_at(shapes, near, tag, has_children, attributes) {
        return Ok(near as u64 + 1);
    }
    let place = place_of_words(shapes, words, tag, has_children, attributes)?;
    shapes.keep_near(number, place);
    Ok(place as u64 + 1)
}

// Whether the shape of an entry stands at a place.
fn is_at(
    shapes: &Shapes,
    place: usize,
    tag: u16,
    has_children: bool,
    attributes: &[KeptAttribute],
) -> bool
    requires { AreOwn (map shape_view shapes.now.shapes.items) }
    ensures { result ≡ true → StandsAt (record { tag = tag; has_children = has_children; attributes = forms_of attributes.now }) (map shape_view shapes.now.shapes.items) place }
{
    let known = shapes.as_slice();
    if place >= known.len() {
        return false;
    }
    is_shape_of(&known[place], tag, has_children, attributes)
}

// The place of the shape of an entry by its words, which is kept where it is new.
fn place_of_words(
    shapes: &mut Shapes,
    words: &Vec<u16>,
    tag: u16,
    has_children: bool,
    attributes: &[KeptAttribute],
) -> Result<usize, AllocError>
    requires words { words.now.items ≡ shape_words (record { tag = tag; has_children = has_children; attributes = forms_of attributes.now }) }
    requires found { AreFound shapes.old }
    ensures shapes { OnOk result (map shape_view shapes.new.shapes.items ≡ with_use (record { tag = tag; has_children = has_children; attributes = forms_of attributes.now }) (map shape_view shapes.old.shapes.items)) }
    ensures place { IfOk result (λ place. place ≡ place_in (record { tag = tag; has_children = has_children; attributes = forms_of attributes.now }) (map shape_view shapes.old.shapes.items)) }
    ensures inside { IfOk result (λ place. place < length shapes.new.shapes.items) }
    ensures found { OnOk result (AreFound shapes.new) }
{
    match shapes.place_of(words) {
        Some(place) => Ok(place),
        None => shapes.add(words, tag, has_children, attributes),
    }
}

// Whether a shape is that of an entry.
fn is_shape_of(shape: &Shape, tag: u16, has_children: bool, attributes: &[KeptAttribute]) -> bool
    ensures { result ≡ same_shape (shape_view shape.now) (record { tag = tag; has_children = has_children; attributes = forms_of attributes.now }) }
{
    shape.tag == tag
        && shape.has_children == has_children
        && are_forms_of(shape.attributes.as_slice(), attributes)
}

// Whether names and forms are those of attributes.
fn are_forms_of(forms: &[AttributeForm], attributes: &[KeptAttribute]) -> bool
    ensures { result ≡ same_forms forms.now (forms_of attributes.now) }
{
    if forms.len() != attributes.len() {
        return false;
    }
    for i in 0..forms.len() {
        if !is_form_of(forms[i], &attributes[i]) {
            return false;
        }
    }
    true
}

// Whether a name and a form are those of an attribute.
fn is_form_of(form: AttributeForm, attribute: &KeptAttribute) -> bool
    ensures { result ≡ ((form.name == attribute.now.name) && (form.form == (form_of_attribute attribute.now).form)) }
{
    form.name == attribute.name() && form.form == form_of(attribute)
}

// The abbreviation table of some shapes, whose codes rise from 1.
pub fn put_table(out: &mut Vec<u8>, shapes: &[Shape]) -> Result<(), AllocError>
    requires { All IsPlainShape (map shape_view shapes.now) }
    ensures { OnOk result (out.new.items ≡ out.old.items ++ table_bytes (numbered 1 (map shape_view shapes.now))) }
{
    for i in 0..shapes.len() {
        put_uleb(out, i as u64 + 1)?;
        put_shape(out, &shapes[i])?;
    }
    out.push(0)?;
    Ok(())
}

// A declaration behind its code.
fn put_shape(out: &mut Vec<u8>, shape: &Shape) -> Result<(), AllocError>
    ensures { OnOk result (out.new.items ≡ out.old.items ++ shape_bytes (shape_view shape.now)) }
{
    put_uleb(out, u64::from(shape.tag))?;
    out.push(u8::from(shape.has_children))?;
    put_forms(out, shape.attributes.as_slice())?;
    out.extend_from_slice(&[0, 0])?;
    Ok(())
}

// Names and forms, one behind another.
fn put_forms(out: &mut Vec<u8>, forms: &[AttributeForm]) -> Result<(), AllocError>
    ensures { OnOk result (out.new.items ≡ out.old.items ++ flat_map form_bytes forms.now) }
{
    for form in forms {
        put_uleb(out, u64::from(form.name))?;
        put_uleb(out, u64::from(form.form))?;
    }
    Ok(())
}
