//! The names that the line tables of units take from elsewhere in version 5: the compilation directory of each unit, its directories and its
//! files. (DWARF 5, section 6.2.4.)
ghost use Rattle.std.specs.Prelude.{◌≡◌, ◌==◌, IfErr, IfOk, map};
ghost use Rattle.std.specs.List.{flat_map, position};
ghost use Rattle.dwc_base.specs.declared.constants.TheConstants.{DW_AT_comp_dir};
ghost use Rattle.dwc_unit.specs.GivenUnits.{ordered, version_of};
ghost use Rattle.dwc_unit.specs.LineNames.{line_texts, names_of_unit, own_directory};
ghost use Rattle.dwc_unit.specs.UsedTexts.{text_numbered};
ghost use Rattle.dwc_write.specs.PathViews.{IsPathLayout, UsesPaths};
ghost use Rattle.dwc_write.specs.UnitNames.{IsNamesRefusal, own_among, text_said_by};

use crate::line_names::{LineNames, no_names, use_table};
use dwc_base::constants::DW_AT_comp_dir;
use dwc_section::WriteError;
use dwc_texts::Text;
use dwc_unit::Unit;
use dwc_unit::attributes::{Held, KeptAttribute};
use std::alloc::Global;

/// The names in the line tables of units of version 5; none of others. `TooLarge` is answered only where `.debug_line_str` would have more than
/// 2^31 - 1 bytes, and `OutOfMemory` for want of memory.
pub fn lay_out_names(
    alloc: Global,
    version: u16,
    units: &[Unit],
    texts: &[Text],
) -> Result<LineNames, WriteError>
    requires { version ≡ version_of (map ordered units.now) }
    ensures names { IfOk result (λ n. n.texts ≡ line_texts texts.now (map ordered units.now)) }
    ensures laid { IfOk result IsPathLayout }
    ensures large { IfErr result (λ e. IsNamesRefusal e texts.now (map ordered units.now)) }
{
    let mut names = no_names(alloc);
    if version < 5 {
        return Ok(names);
    }
    use_units(&mut names, units, texts)?;
    Ok(names)
}

// Those of units, in their order.
fn use_units(names: &mut LineNames, units: &[Unit], texts: &[Text]) -> Result<(), WriteError>
    requires { IsPathLayout names.old }
    ensures { UsesPaths names.old names.new result (flat_map (names_of_unit texts.now) (map ordered units.now)) }
{
    for i in 0..units.len() {
        use_unit(names, &units[i], texts)?;
    }
    Ok(())
}

// Those of the table of a unit, if it has one.
fn use_unit(names: &mut LineNames, unit: &Unit, texts: &[Text]) -> Result<(), WriteError>
    requires { IsPathLayout names.old }
    ensures { UsesPaths names.old names.new result (names_of_unit texts.now (ordered unit.now)) }
{
    match unit.lines.address_size {
        None => Ok(()),
        Some(_) => {
            let own = own_directory(unit, texts);
            use_table(names, own, &unit.lines.directories, &unit.lines.files)
        }
    }
}

/// The compilation directory that the root of a unit says, or the empty text. (DWARF 5, section 3.1.1.)
pub fn own_directory<'a>(unit: &Unit, texts: &'a [Text]) -> &'a [u8]
    ensures { result.now ≡ own_directory texts.now (ordered unit.now) }
{
    directory_among(unit.additions.attributes(0), texts)
}

// The same among attributes.
fn directory_among<'a>(attributes: &[KeptAttribute], texts: &'a [Text]) -> &'a [u8]
    ensures { result.now ≡ own_among texts.now attributes.now }
{
    match place_of_directory(attributes) {
        Some(place) => text_of(&attributes[place], texts),
        None => &[],
    }
}

// The place of the first compilation directory.
fn place_of_directory(attributes: &[KeptAttribute]) -> Option<usize>
    ensures { result ≡ position (λ a. a.name == DW_AT_comp_dir) attributes.now }
{
    attributes.iter().position(|a| a.name() == DW_AT_comp_dir)
}

// The text that a value names, or the empty one.
fn text_of<'a>(attribute: &KeptAttribute, texts: &'a [Text]) -> &'a [u8]
    ensures { result.now ≡ text_said_by texts.now attribute.now.value }
{
    match attribute.value() {
        Held::StringRef(id) => text_at(texts, id.index),
        _ => &[],
    }
}

// A text by its number, or the empty one.
fn text_at(texts: &[Text], index: usize) -> &[u8]
    ensures { result.now ≡ text_numbered texts.now index }
{
    match texts.get(index) {
        Some(text) => text.as_bytes(),
        None => &[],
    }
}
