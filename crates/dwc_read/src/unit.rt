//! A unit of `.debug_info`.
ghost use Rattle.std.specs.Prelude.{◌≡◌, ◌<◌, ◌^◌, length, take, All, IsTrue, IfOk};
ghost use Rattle.dwc_base.specs.FieldSizes.{is_field_size};

use crate::bases::bases_of_unit;
use crate::fault::reported;
use crate::header::Header;
use crate::indexed::{address_indexed, text_named, text_place};
use crate::lone::{lone_entry as read_alone, no_entry};
use crate::table::Table;
use crate::unit_table::{UnitTable, shared};
use crate::value_end::entry_end;
use crate::{AttributeValue, Entries, Entry, EntryLinks, ReadFault, Sections, TextPlace};
use dwc_base::fields::address;
use dwc_base::{Address, Cursor, Encoding, Endian, Flaw, Relocations, SectionName, What};
use std::alloc::{AllocError, Global};
use std::marker::Model;
use std::rc::Rc;

/// A unit of `.debug_info`: its header, its abbreviation table, where its lists and indexed values begin, and the sections that it
/// stands in.
#[derive(Drop)]
pub struct Unit<'d> {
    sections: Sections<'d>,
    header: Header<'d>,
    table: UnitTable,
    relocations: Relocations<'d>,
    // Its bases, one by one: a record more here is one more that each proof about a unit goes through.
    texts: u64,
    addresses: Option<u64>,
    ranges: u64,
    locations: u64,
    lists: Address,
}

impl<'d> Model for Unit<'d> {
    ghost use Rattle.std.specs.Prelude.{◌≡◌};
    ghost use Rattle.dwc_base.specs.declared.section_name.SectionName.TheVariants.{Info};
    ghost use Rattle.dwc_read.specs.Views.{UnitView, unit_code};
    ghost use Rattle.dwc_read.specs.Headers.{header_view};
    ghost use Rattle.dwc_read.specs.UnitTables.{IsTable};
    ghost use Rattle.dwc_read.specs.Bases.{HasBases};

    ghost Value = { UnitView };

    ghost coded = { unit_code };

    ghost view = { λ u. record { sections = u.sections; header = header_view u.header } };

    ghost invariant = { λ u. (u.relocations ≡ u.sections.relocations Info) × IsTable u.sections u.header.abbreviations u.table × HasBases u.sections (header_view u.header) (record { texts = u.texts; addresses = u.addresses; ranges = u.ranges; locations = u.locations; lists = u.lists }) };
}

impl<'d> Unit<'d> {
    ghost use Rattle.dwc_base.specs.Abbreviations.{abbreviation_table};
    ghost use Rattle.dwc_read.specs.Headers.{header_view};
    ghost use Rattle.dwc_read.specs.UnitTables.{IsTable};
    ghost use Rattle.dwc_read.specs.Views.{field_at};
    ghost use Rattle.dwc_dwarf.specs.Entries.{entries as entries_of};
    ghost use Rattle.dwc_read.specs.Faults.{GivesOrFault};
    ghost use Rattle.dwc_read.specs.EntriesSeen.{StartsAt, entry_view};
    ghost use Rattle.dwc_read.specs.Links.{linked};
    ghost use Rattle.dwc_read.specs.Lone.{lone_entry, unread_from, IsUnread};
    ghost use Rattle.dwc_dwarf.specs.ExpressionPlaces.{unit_from, value_ends, expression_place};
    ghost use Rattle.std.specs.Prelude.{◌≢◌, Some, Err, option_map, slice_get};
    ghost use Rattle.std.specs.Option.{unwrap_or};
    ghost use Rattle.dwc_base.specs.declared.section_name.SectionName.TheVariants.{Info};
    ghost use Rattle.dwc_base.specs.Cursors.{slice_bytes};
    ghost use Rattle.dwc_dwarf.specs.Indexed.{index_base as base_of_indexes, address_in_unit, text_in_unit};
    ghost use Rattle.dwc_base.specs.Sections.{fault_of};
    ghost use Rattle.dwc_dwarf.specs.Lists.{first_base_of};
    ghost use Rattle.dwc_read.specs.Faults.{fault_seen};
    ghost use Rattle.dwc_read.specs.Bases.{address_of_value};
    ghost use Rattle.dwc_read.specs.TextPlaces.{text_place_in_unit};
    ghost use Rattle.dwc_read.specs.ValuesSeen.{value_view};

    // The unit of a header, with what stands at the offset of its abbreviation table.
    pub fn new(sections: Sections<'d>, header: Header<'d>, table: UnitTable) -> Unit<'d>
        requires { IsTable sections header.abbreviations table }
        ensures { result ≡ record { sections = sections.entry; header = header_view header.entry } }
    {
        let relocations = sections.relocations(SectionName::Info);
        let bases = bases_of_unit(&sections, &header, &table);
        Unit {
            sections,
            header,
            table,
            relocations,
            texts: bases.texts,
            addresses: bases.addresses,
            ranges: bases.ranges,
            locations: bases.locations,
            lists: bases.lists,
        }
    }

    /// The same unit once more.
    ///
    /// # Errors
    /// `AllocError` for want of memory.
    pub fn again(&self) -> Result<Unit<'d>, AllocError>
        ensures { IfOk result (λ u. u ≡ self.now) }
    {
        Ok(Unit {
            sections: self.sections.again(),
            header: self.header.again(),
            table: shared(&self.table)?,
            relocations: self.relocations.again(),
            texts: self.texts,
            addresses: self.addresses,
            ranges: self.ranges,
            locations: self.locations,
            lists: self.lists,
        })
    }

    // The unit's abbreviation table.
    fn table(&self) -> Result<Rc<Table>, ReadFault>
        ensures { GivesOrFault (λ t. t.value) (abbreviation_table self.now.sections self.now.header.abbreviations) result }
    {
        match self.table.flaw {
            None => Ok(self.table.table.clone()?),
            Some(flaw) => {
                let offset = u64::from(self.header.abbreviations);
                Err(reported(flaw, What::Abbreviation, SectionName::Abbrev, offset))
            }
        }
    }

    /// The offset of the unit in `.debug_info`.
    pub fn offset(&self) -> u64
        ensures { result ≡ self.now.header.offset }
    {
        self.header.offset as u64
    }

    /// The offset of what stands behind the unit in `.debug_info`.
    pub fn end(&self) -> u64
        ensures { result ≡ self.now.header.end }
    {
        self.header.end as u64
    }

    /// The unit's version of DWARF, and the bytes of an address.
    pub fn encoding(&self) -> Encoding
        ensures version { result.version ≡ self.now.header.version }
        ensures address_size { result.address_size ≡ self.now.header.address_size }
    {
        Encoding {
            version: self.header.version,
            address_size: self.header.address_size,
        }
    }

    /// The unit's type, `DW_UT_compile` below version 5. (DWARF 5, section 7.5.1.)
    pub fn unit_type(&self) -> u8
        ensures { result ≡ self.now.header.unit_type }
    {
        self.header.unit_type
    }

    /// The id that ties a skeleton unit and its split unit together. (DWARF 5, section 7.5.1.2.)
    pub fn dwo_id(&self) -> Option<u64>
        ensures { result ≡ self.now.header.dwo_id }
    {
        self.header.dwo_id
    }

    /// The order of the bytes of a number.
    pub fn order(&self) -> Endian
        ensures { result ≡ self.now.sections.order }
    {
        self.sections.order()
    }

    /// The bytes that the unit reads under a section's name.
    pub fn section(&self, name: SectionName) -> &'d [u8]
        ensures bytes { result.now ≡ self.now.sections.bytes name }
        ensures length { length result.now < 2 ^ 32 }
        ensures below { All (λ b. b < 256) (self.now.sections.bytes name) }
    {
        self.sections.bytes(name)
    }

    /// The function relocations in a section. Input has none.
    pub fn relocations(&self, name: SectionName) -> Relocations<'d>
        ensures { result ≡ self.now.sections.relocations name }
    {
        self.sections.relocations(name)
    }

    /// The address that a field of 1, 2, 4 or 8 bytes of a section holds: a function's where a relocation of that size stands
    /// there, else the number that the bytes spell. None where the field passes the section's end.
    pub fn field(&self, name: SectionName, offset: u64, size: u8) -> Option<Address>
        requires { IsTrue (is_field_size size) }
        ensures { result ≡ field_at self.now.sections name offset size }
    {
        let bytes = self.sections.bytes(name);
        if offset >= bytes.len() as u64 {
            return None;
        }
        let relocations = self.sections.relocations(name);
        let mut cursor = Cursor::at(bytes, offset as u32, self.sections.order());
        address(&relocations, size, &mut cursor).ok()
    }

    /// Where the unit's indexed values begin in a section: texts in `.debug_str_offsets`, addresses in `.debug_addr`, and lists in
    /// `.debug_rnglists` and `.debug_loclists`. (DWARF 5, section 3.1.1.) 0 where the unit has none there: in the other sections, and for
    /// addresses in a split unit whose root does not say where they are. A root that cannot be read says nothing.
    #[tactic(auto, unfolding(crate::specs::Bases::HasBases))]
    pub fn index_base(&self, name: SectionName) -> u64
        ensures { result ≡ unwrap_or (base_of_indexes self.now.sections self.now.header name) 0 }
    {
        match name {
            SectionName::StrOffsets => self.texts,
            SectionName::Addr => self.addresses.unwrap_or(0),
            SectionName::Rnglists => self.ranges,
            SectionName::Loclists => self.locations,
            _ => 0,
        }
    }

    /// The address that the unit's lists begin with: the `DW_AT_low_pc` of its root. (DWARF 4 and 5, section 3.1.1.) 0 where the root
    /// has none, and where the root, or the address by an index that it has, cannot be read.
    #[tactic(auto, unfolding(crate::specs::Bases::HasBases))]
    pub fn first_base(&self) -> Address
        ensures { result ≡ first_base_of self.now.sections self.now.header }
    {
        self.lists
    }

    /// The address at an index among the unit's. (DWARF 5, section 7.27.)
    ///
    /// Answers `Read` with the unit's offset where the unit has no addresses by an index, and where the one at the index passes the end
    /// of `.debug_addr`.
    #[tactic(auto, unfolding(crate::specs::Bases::HasBases))]
    pub fn address(&self, index: u64) -> Result<Address, ReadFault>
        ensures address { GivesOrFault (λ a. a) (address_in_unit self.now.sections self.now.header index) result }
        ensures memory { result ≢ Err ReadFault.OutOfMemory }
    {
        match address_indexed(&self.sections, &self.header, self.addresses, index) {
            Ok(address) => Ok(address),
            Err(flaw) => Err(self.unreadable(flaw, What::AddressValue)),
        }
    }

    /// The address that a value is, in place or by its index among the unit's; None for a value that is no address.
    ///
    /// Answers `Read` with the unit's offset where the address at the index cannot be read, as [`Unit::address`] does.
    #[tactic(auto, unfolding(dwc_dwarf::specs::Indexed::address_named))]
    pub fn address_of(&self, value: &AttributeValue<'d>) -> Result<Option<Address>, ReadFault>
        ensures address { GivesOrFault (λ a. a) (address_of_value self.now.sections self.now.header (value_view value.now)) result }
        ensures memory { result ≢ Err ReadFault.OutOfMemory }
    {
        match value {
            AttributeValue::Addr(address) => Ok(Some(*address)),
            AttributeValue::AddrIndex(index) => Ok(Some(self.address(*index)?)),
            _ => Ok(None),
        }
    }

    /// The text that a value names: in place, at an offset of `.debug_str` or `.debug_line_str`, or in `.debug_str` by the index of
    /// its offset among the unit's. (DWARF 5, sections 7.5.5 and 7.26.) The text is without the 0 at its end. None for a value that
    /// is no text.
    ///
    /// Answers `Read` with the unit's offset where the text has no end in its section, and where its offset passes the end of
    /// `.debug_str_offsets`.
    #[tactic(auto, unfolding(crate::specs::Bases::HasBases))]
    pub fn name_of(&self, value: &AttributeValue<'d>) -> Result<Option<&'d [u8]>, ReadFault>
        ensures text { GivesOrFault (option_map slice_bytes) (text_in_unit self.now.sections self.now.header (value_view value.now)) result }
        ensures memory { result ≢ Err ReadFault.OutOfMemory }
    {
        match text_named(&self.sections, self.texts, *value) {
            Ok(text) => Ok(text),
            Err(flaw) => Err(self.unreadable(flaw, What::Text)),
        }
    }

    /// Where the text that a value names stands elsewhere: at an offset of `.debug_str` or `.debug_line_str`, for a text by an index the
    /// offset that `.debug_str_offsets` says. (DWARF 5, sections 7.5.5 and 7.26.) None for a text in place, and for a value that is no
    /// text. The text itself is not read.
    ///
    /// Answers `Read` with the unit's offset where the offset at an index passes the end of `.debug_str_offsets`, as [`Unit::name_of`]
    /// does.
    #[tactic(auto, unfolding(crate::specs::Bases::HasBases))]
    pub fn text_place(&self, value: &AttributeValue<'d>) -> Result<Option<TextPlace>, ReadFault>
        ensures place { GivesOrFault (λ p. p) (text_place_in_unit self.now.sections self.now.header (value_view value.now)) result }
        ensures memory { result ≢ Err ReadFault.OutOfMemory }
    {
        match text_place(&self.sections, self.texts, *value) {
            Ok(place) => Ok(place),
            Err(flaw) => Err(self.unreadable(flaw, What::Text)),
        }
    }

    // The fault of what cannot be read for this unit, at the unit's offset.
    fn unreadable(&self, flaw: Flaw, what: What) -> ReadFault
        ensures { fault_seen result ≡ Some (fault_of what Info self.now.header.offset flaw) }
    {
        reported(flaw, what, SectionName::Info, self.offset())
    }

    /// The first entry of the unit.
    ///
    /// Answers `Read` with the table's offset where the unit's abbreviation table cannot be read, and `Read` or `Unsupported`
    /// with the entry's offset where no entry stands behind the header.
    pub fn root(&self, alloc: Global) -> Result<Entry<'d>, ReadFault>
        ensures { GivesOrFault entry_view (lone_entry self.now self.now.header.content) result }
    {
        let table = self.table()?;
        read_alone(alloc, self, &table, self.content())
    }

    /// The entry at an offset of `.debug_info`, at depth 0, whether or not the entries that come one after another come
    /// upon that place.
    ///
    /// Answers `Read` with the table's offset where the unit's abbreviation table cannot be read, `Read` with the given offset where
    /// that is not in the unit's entries, which begin behind its header and end with it, and `Read` or `Unsupported` with the given
    /// offset where no entry stands there before the unit's end.
    pub fn entry_at(&self, alloc: Global, offset: u64) -> Result<Entry<'d>, ReadFault>
        ensures { GivesOrFault entry_view (lone_entry self.now (unread_from self.now offset)) result }
    {
        let table = self.table()?;
        let Some(cursor) = self.unread_from(offset) else {
            return Err(no_entry(offset));
        };
        read_alone(alloc, self, &table, cursor)
    }

    /// Where an expression begins that is an attribute's value, as an offset of `.debug_info`. The attribute is told by the offset of
    /// its entry and its number among the entry's attributes, from 0 on. 0 where there is no such attribute that can be read.
    ///
    /// The entry's values are read once more, up to this one.
    pub fn expression_place(&self, offset: u64, number: usize, expression: &[u8]) -> u64
        ensures { result ≡ expression_place self.now.sections self.now.header offset number expression.now }
    {
        let end = self.value_end(offset, number).unwrap_or(0);
        end.saturating_sub(expression.len() as u64)
    }

    // Where the value of an attribute of the entry at an offset ends, by its number; None where it cannot be read.
    fn value_end(&self, offset: u64, number: usize) -> Option<u64>
        ensures { result ≡ slice_get (value_ends self.now.sections self.now.header offset) number }
    {
        match self.table.flaw {
            None => entry_end(self, &self.table.table, number, self.unit_from(offset)?),
            Some(_) => None,
        }
    }

    // What is unread of the unit's entries from an offset of `.debug_info` on; None where nothing is.
    fn unread_from(&self, offset: u64) -> Option<Cursor<'d>>
        ensures { IsUnread (unread_from self.now offset) result }
    {
        if offset < self.content().place() as u64 {
            return None;
        }
        self.unit_from(offset)
    }

    // What is unread of the unit from an offset of `.debug_info` on; None where nothing is.
    fn unit_from(&self, offset: u64) -> Option<Cursor<'d>>
        ensures { IsUnread (unit_from self.now.sections self.now.header offset) result }
    {
        let bytes = front_of(self.sections.bytes(SectionName::Info), self.header.end);
        if offset >= bytes.len() as u64 {
            return None;
        }
        Some(Cursor::at(bytes, offset as u32, self.sections.order()))
    }

    /// The entries of the unit, in file order.
    ///
    /// Answers `Read` with the table's offset where the unit's abbreviation table cannot be read.
    pub fn entries(&self, alloc: Global) -> Result<Entries<'d>, ReadFault>
        ensures start { StartsAt (entries_of self.now.sections self.now.header) result }
        ensures table { GivesOrFault (λ es. es.table) (abbreviation_table self.now.sections self.now.header.abbreviations) result }
    {
        let table = self.table()?;
        Ok(Entries::of(alloc, self.again()?, table))
    }

    /// The entries of the unit, in file order, with their links alone.
    ///
    /// Answers `Read` with the table's offset where the unit's abbreviation table cannot be read.
    pub fn links(&self, alloc: Global) -> Result<EntryLinks<'d>, ReadFault>
        ensures { StartsAt (linked (entries_of self.now.sections self.now.header)) result }
    {
        let table = self.table()?;
        Ok(EntryLinks::of(alloc, self.again()?, table))
    }

    // The unit's version of DWARF.
    pub fn version(&self) -> u16
        ensures { result ≡ self.now.header.version }
    {
        self.header.version
    }

    // The bytes of an address.
    pub fn address_size(&self) -> u8
        ensures value { result ≡ self.now.header.address_size }
        ensures known { IsTrue (is_field_size result) }
    {
        self.header.address_size
    }

    // The function relocations in `.debug_info`.
    pub fn info_relocations(&self) -> &Relocations<'d>
        ensures { result.now ≡ self.now.sections.relocations SectionName.Info }
    {
        &self.relocations
    }

    // The sections that the unit stands in.
    pub fn sections(&self) -> &Sections<'d>
        ensures { result.now ≡ self.now.sections }
    {
        &self.sections
    }

    /// The offset of the unit's abbreviation table in `.debug_abbrev`.
    pub fn abbreviations(&self) -> u32
        ensures { result ≡ self.now.header.abbreviations }
    {
        self.header.abbreviations
    }

    // What stands behind the unit's header.
    pub fn content(&self) -> Cursor<'d>
        ensures content { result ≡ self.now.header.content }
        ensures short { length result.left < 2 ^ 32 }
    {
        self.header.content.fork()
    }
}

// The bytes before a place, or all.
fn front_of<'d>(bytes: &'d [u8], end: usize) -> &'d [u8]
    ensures { result.now ≡ take end bytes.now }
{
    if end > bytes.len() {
        return bytes;
    }
    let (front, _) = bytes.split_at(end);
    front
}
