//! Skips: attributes one behind another that lead nowhere and are always as long, which an entry passes in one step. (DWARF 5, section
//! 7.5.6.)
ghost use Rattle.std.specs.Prelude.{◌≡◌, List, Some, ◌∷◌, map};
ghost use Rattle.dwc_base.specs.Abbreviations as table;
ghost use Rattle.dwc_read.specs.AttributeSpecs.{spec_view};
ghost use Rattle.dwc_read.specs.Forms.{form_view};
ghost use Rattle.dwc_read.specs.Links.{fixed_size, passed_form, passed_size};
ghost use Rattle.dwc_read.specs.Skips.{IsSkip, AreSkips};
ghost use Rattle.dwc_read.specs.Sizes.{size_view};

use crate::attribute_spec::AttributeSpec;
use crate::form::{Form, form_named};
use crate::links::is_link_name;
use crate::number::Size;

// A skip has fewer attributes than this, and fewer bytes, before it grows by one more.
const LIMIT: u16 = 32768;

// A skip: how many attributes, and their bytes.
#[derive(Clone, Copy)]
struct Skip {
    attributes: u16,
    bytes: u16,
}

// How many bytes a number takes, where these are always as many.
fn fixed_size(size: Size) -> Option<usize>
    ensures { result ≡ fixed_size (size_view size) }
{
    match size {
        Size::One => Some(1),
        Size::Two => Some(2),
        Size::Three => Some(3),
        Size::Four => Some(4),
        Size::Eight => Some(8),
        Size::Variable => None,
    }
}

// How many bytes a value of a form takes that names no entry, where these are always as many.
fn passed_form(form: Form) -> Option<usize>
    ensures { result ≡ passed_form (form_view form) }
{
    match form {
        Form::IndexedAddr(size) => fixed_size(size),
        Form::DataOf(size) => fixed_size(size),
        Form::TextElsewhere(size) => fixed_size(size),
        Form::PassedOver(size) => Some(size),
        Form::Implicit => Some(0),
        Form::FlagByte => Some(1),
        Form::FlagPresent => Some(0),
        Form::SecOffset => Some(4),
        _ => None,
    }
}

// The same of a value that leads nowhere.
#[tactic(auto, using(crate::proofs::FormLaws::form_of_large))]
fn passed_size(name: u16, form: u64) -> Option<usize>
    ensures { result ≡ passed_size name form }
{
    if is_link_name(name) {
        return None;
    }
    if form > 65535 {
        return None;
    }
    match form_named(form as u16) {
        Some(form) => passed_form(form),
        None => None,
    }
}

// A skip with an attribute of some bytes in front; none where it would be too long.
fn longer_skip(skip: Skip, size: usize) -> Skip
    ensures { (spec : table.AttributeSpec) (specs : List table.AttributeSpec) → passed_size spec.name spec.form ≡ Some size → IsSkip skip specs → IsSkip result (spec ∷ specs) }
{
    if skip.attributes >= LIMIT || skip.bytes >= LIMIT || size >= usize::from(LIMIT) {
        return Skip {
            attributes: 0,
            bytes: 0,
        };
    }
    Skip {
        attributes: skip.attributes + 1,
        bytes: skip.bytes + size as u16,
    }
}

// The skip that an attribute begins in front of another skip.
fn skip_from(spec: AttributeSpec, behind: Skip) -> Skip
    ensures { (specs : List table.AttributeSpec) → IsSkip behind specs → IsSkip result (spec_view spec ∷ specs) }
{
    match passed_size(spec.name, spec.form) {
        Some(size) => longer_skip(behind, size),
        None => Skip {
            attributes: 0,
            bytes: 0,
        },
    }
}

// An attribute that notes a skip.
fn noting(spec: AttributeSpec, skip: Skip) -> AttributeSpec
    ensures { result ≡ record { name = spec.name; skip = skip.attributes; skip_bytes = skip.bytes; form = spec.form; implicit = spec.implicit } }
{
    AttributeSpec {
        skip: skip.attributes,
        skip_bytes: skip.bytes,
        ..spec
    }
}

// Notes the skips of the attributes of a declaration, from the last one to the first.
pub fn note_skips(specs: &mut [AttributeSpec])
    ensures same { map spec_view specs.new ≡ map spec_view specs.old }
    ensures skips { AreSkips specs.new }
{
    let mut skip = Skip {
        attributes: 0,
        bytes: 0,
    };
    let mut k = specs.len();
    while k > 0 {
        k -= 1;
        let spec = specs[k];
        skip = skip_from(spec, skip);
        specs[k] = noting(spec, skip);
    }
}
