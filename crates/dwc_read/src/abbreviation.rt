//! Abbreviation tables: which attributes the entries of a unit have. (DWARF 4 and 5, section 7.5.3.)
ghost use Rattle.std.specs.Prelude.{◌≡◌, ℕ, List, Some, drop, map, option_map, IfOk};
ghost use Rattle.dwc_base.specs.Cursors.{Gives, GivesOrMemory};
ghost use Rattle.dwc_base.specs.Reading.{items_at};
ghost use Rattle.dwc_base.specs.Abbreviations.{implicit_at, attribute_spec_at, declaration_behind as behind_code, declaration_at};
ghost use Rattle.dwc_read.specs.AttributeSpecs.{spec_view};
ghost use Rattle.dwc_read.specs.Skips.{AreSkips};
ghost use Rattle.dwc_read.specs.Tables.{declaration_view};
ghost use Rattle.dwc_read.specs.KnownTables.{AreNumbered};

use crate::attribute_spec::AttributeSpec;
use crate::declaration::Declaration;
use crate::skips::note_skips;
use dwc_base::constants::{DW_CHILDREN_yes, DW_FORM_implicit_const};
use dwc_base::{Cursor, Flaw, NotRead};
use std::alloc::{AllocError, Global};

// The value of an implicit constant, which stands in the declaration.
#[tactic(auto, unfolding(dwc_base::specs::Abbreviations::implicit_at))]
fn implicit(form: u64, cursor: &mut Cursor<'_>) -> Result<i64, Flaw>
    ensures { Gives (λ x. x) (implicit_at form cursor.old) cursor.new result }
{
    if form == u64::from(DW_FORM_implicit_const) {
        Ok(cursor.sleb()?)
    } else {
        Ok(0)
    }
}

// An attribute; a name and a form of 0 end the list.
#[tactic(auto, unfolding(dwc_base::specs::Abbreviations::attribute_spec_at))]
fn attribute_spec(cursor: &mut Cursor<'_>) -> Result<Option<AttributeSpec>, Flaw>
    ensures { Gives (option_map spec_view) (attribute_spec_at cursor.old) cursor.new result }
{
    let name = cursor.uleb()?;
    let form = cursor.uleb()?;
    if name > 65535 {
        return Err(Flaw::Malformed);
    }
    let implicit = implicit(form, cursor)?;
    if name == 0 && form == 0 {
        return Ok(None);
    }
    let name = name as u16;
    Ok(Some(AttributeSpec::new(name, form, implicit)))
}

// The attributes of a declaration.
fn attribute_specs(alloc: Global, cursor: &mut Cursor<'_>) -> Result<Vec<AttributeSpec>, NotRead>
    ensures { GivesOrMemory (λ v. map spec_view v.items) (items_at attribute_spec_at cursor.old) cursor.new result }
{
    let mut specs = Vec::new(alloc);
    while let Some(spec) = attribute_spec(cursor)? {
        specs.push(spec)?;
    }
    Ok(specs)
}

// The same, with the skips among them.
fn noted_specs(alloc: Global, cursor: &mut Cursor<'_>) -> Result<Vec<AttributeSpec>, NotRead>
    ensures read { GivesOrMemory (λ v. map spec_view v.items) (items_at attribute_spec_at cursor.old) cursor.new result }
    ensures skips { IfOk result (λ v. AreSkips v.items) }
{
    let mut specs = attribute_specs(alloc, cursor)?;
    note_skips(specs.as_mut_slice());
    Ok(specs)
}

// The rest of a declaration, behind its code.
#[tactic(auto, unfolding(dwc_base::specs::Abbreviations::declaration_behind))]
fn declaration_behind(
    alloc: Global,
    code: u64,
    cursor: &mut Cursor<'_>,
) -> Result<Declaration, NotRead>
    ensures { GivesOrMemory (λ d. Some (declaration_view d)) (behind_code code cursor.old) cursor.new result }
{
    let tag = cursor.uleb()?;
    if tag > 65535 {
        return Err(NotRead::Flawed(Flaw::Malformed));
    }
    let children = cursor.u8()?;
    if children > DW_CHILDREN_yes {
        return Err(NotRead::Flawed(Flaw::Malformed));
    }
    let attributes = noted_specs(alloc, cursor)?;
    Ok(Declaration {
        code,
        tag: tag as u16,
        has_children: children == DW_CHILDREN_yes,
        attributes,
    })
}

// A declaration; the code 0 ends the table.
#[tactic(auto, unfolding(dwc_base::specs::Abbreviations::declaration_at))]
fn next_declaration(alloc: Global, cursor: &mut Cursor<'_>) -> Result<Option<Declaration>, NotRead>
    ensures { GivesOrMemory (option_map declaration_view) (declaration_at cursor.old) cursor.new result }
{
    let code = cursor.uleb()?;
    if code == 0 {
        Ok(None)
    } else {
        Ok(Some(declaration_behind(alloc, code, cursor)?))
    }
}

// The declarations of a table, up to the code 0.
pub fn declarations(alloc: Global, cursor: &mut Cursor<'_>) -> Result<Vec<Declaration>, NotRead>
    ensures { GivesOrMemory (λ v. map declaration_view v.items) (items_at declaration_at cursor.old) cursor.new result }
{
    let mut table = Vec::new(alloc);
    while let Some(found) = next_declaration(alloc, cursor)? {
        table.push(found)?;
    }
    Ok(table)
}

// Declarations that were read one behind another: where each begins, and what is behind them; and the flaw for which reading ended
// before a code 0, if there is one.
#[derive(Drop)]
pub struct Numbered {
    pub starts: Vec<usize>,
    pub declarations: Vec<Declaration>,
    pub flaw: Option<Flaw>,
}

// The declarations from a place on, up to the code 0.
pub fn numbered_declarations(alloc: Global, mut cursor: Cursor<'_>) -> Result<Numbered, AllocError>
    ensures { IfOk result (λ n. (bytes : List ℕ) → cursor.entry.left ≡ drop cursor.entry.place bytes → AreNumbered cursor.entry.order bytes n) }
{
    let mut starts = Vec::new(alloc);
    let mut declarations = Vec::new(alloc);
    loop {
        starts.push(cursor.place())?;
        match next_declaration(alloc, &mut cursor) {
            Ok(Some(found)) => declarations.push(found)?,
            Ok(None) => {
                return Ok(Numbered {
                    starts,
                    declarations,
                    flaw: None,
                });
            }
            Err(NotRead::Flawed(flaw)) => {
                return Ok(Numbered {
                    starts,
                    declarations,
                    flaw: Some(flaw),
                });
            }
            Err(NotRead::OutOfMemory) => return Err(AllocError),
        }
    }
}
