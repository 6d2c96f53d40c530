//! Debugging information entries. (DWARF 4 and 5, sections 2.3 and 7.5.2.)
ghost use Rattle.std.specs.Prelude.{◌≡◌, pos, ◌≤ℤ◌, []};

use crate::attribute::{attributes, first_of_name};
use crate::links::links;
use crate::table::Table;
use crate::{AttributeValue, Unit};
use dwc_base::{Cursor, Flaw, NotRead};
use std::alloc::Global;

/// A debugging information entry.
#[derive(Drop)]
pub struct Entry<'d> {
    /// Its offset in `.debug_info`.
    pub offset: u64,
    /// Its depth below the root, which has depth 0.
    pub depth: i64,
    /// Its tag.
    pub tag: u16,
    attributes: Vec<(u16, AttributeValue<'d>)>,
    ghost below_root: { pos 0 ≤ℤ depth },
}

impl<'d> Entry<'d> {
    ghost use Rattle.std.specs.Prelude.{option_map, map};
    ghost use Rattle.dwc_base.specs.Cursors.{GivesOrMemory};
    ghost use Rattle.dwc_dwarf.specs.Entries.{attribute, entry_at};
    ghost use Rattle.dwc_read.specs.EntriesSeen.{entry_view, found_view};
    ghost use Rattle.dwc_read.specs.Links.{linked_entry_at};
    ghost use Rattle.dwc_read.specs.ValuesSeen.{value_view, attribute_view};

    // An entry without attributes.
    pub fn empty(alloc: Global) -> Entry<'d>
        ensures { entry_view result ≡ record { offset = 0; depth = 0; tag = 0; attributes = [] } }
    {
        Entry {
            offset: 0,
            depth: 0,
            tag: 0,
            attributes: Vec::new(alloc),
        }
    }

    /// The attributes in their order, each with its name.
    pub fn attrs(&self) -> &[(u16, AttributeValue<'d>)]
        ensures { map attribute_view result.now ≡ (entry_view self.now).attributes }
    {
        self.attributes.as_slice()
    }

    /// The value of an attribute: of two of that name, the first; None where there is none.
    pub fn attr(&self, name: u16) -> Option<AttributeValue<'d>>
        ensures { option_map value_view result ≡ attribute name (entry_view self.now) }
    {
        first_of_name(self.attributes.as_slice(), name)
    }

    // Reads the entry at the front in place of this one, and answers whether children follow; None at the end of a list of
    // siblings.
    #[inline(always)]
    #[tactic(auto, unfolding(dwc_dwarf::specs::Entries::entry_at, dwc_dwarf::specs::Entries::declared_entry_at))]
    pub fn read(
        &mut self,
        unit: &Unit<'d>,
        table: &Table,
        depth: u32,
        cursor: &mut Cursor<'d>,
    ) -> Result<Option<bool>, NotRead>
        ensures { GivesOrMemory (option_map (found_view self.new)) (entry_at unit.now.sections unit.now.header table.now depth cursor.old) cursor.new result }
    {
        let offset = cursor.place() as u64;
        let code = cursor.uleb()?;
        if code == 0 {
            return Ok(None);
        }
        let Some(declaration) = table.declaration(code) else {
            return Err(NotRead::Flawed(Flaw::Malformed));
        };
        self.offset = offset;
        self.depth = i64::from(depth);
        self.tag = declaration.tag;
        let specs = declaration.attributes.as_slice();
        attributes(unit, specs, cursor, &mut self.attributes)?;
        Ok(Some(declaration.has_children))
    }

    // The same with the links of the entry alone.
    #[inline(always)]
    #[tactic(auto, unfolding(crate::specs::Links::linked_entry_at, crate::specs::Links::declared_links_at))]
    pub fn read_links(
        &mut self,
        unit: &Unit<'d>,
        table: &Table,
        depth: u32,
        cursor: &mut Cursor<'d>,
    ) -> Result<Option<bool>, NotRead>
        ensures { GivesOrMemory (option_map (found_view self.new)) (linked_entry_at unit.now.sections unit.now.header table.now depth cursor.old) cursor.new result }
    {
        let offset = cursor.place() as u64;
        let code = cursor.uleb()?;
        if code == 0 {
            return Ok(None);
        }
        let Some(declaration) = table.declaration(code) else {
            return Err(NotRead::Flawed(Flaw::Malformed));
        };
        self.offset = offset;
        self.depth = i64::from(depth);
        self.tag = declaration.tag;
        let specs = declaration.attributes.as_slice();
        links(unit, specs, cursor, &mut self.attributes)?;
        Ok(Some(declaration.has_children))
    }
}
