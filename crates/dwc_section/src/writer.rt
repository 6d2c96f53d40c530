//! Sections as they are written: bytes, and the places in them that a linker fills in.
ghost use Rattle.std.specs.Prelude.{◌≡◌, ◌++◌, ◌∷◌, [], ◌<◌, ◌≤◌, ◌+◌, ◌^◌, ◌-◌, ◌↔◌, ◌⊎◌, OnOk, OnErr, IfOk, IsOkUnless, length, FitsSigned, map};
ghost use Rattle.dwc_base.specs.Sections.{section_text};
ghost use Rattle.std.specs.Int.{w32, w64, cast_unsigned};
ghost use Rattle.std.specs.List.{All};
ghost use Rattle.dwc_base.specs.Outputs.{section_view, relocation_view, function};
ghost use Rattle.dwc_base.specs.NumberBytes.{number_bytes};
ghost use Rattle.dwc_section.specs.Spelled.{sized_bytes};
ghost use Rattle.dwc_section.specs.Writers.{FitsField, IsClear, IsSize, IsSound, IsTooLarge, Writes, address_relocations, most_bytes, offset_relocation, overwritten};
ghost use Rattle.dwc_section.specs.SpelledAddresses.{address_bytes};
ghost use Rattle.dwc_section.specs.declared.error.WriteError.TheVariants.{TooLarge, OutOfMemory};
ghost use Rattle.dwc_base.specs.declared.faults.Limit.TheVariants.{Section};

use crate::WriteError;
use crate::append::{bytes_4, put_sized, replace, replace_sized};
use crate::growth::reserve_part;
use dwc_base::{
    Address, DwarfSection, DwarfSectionReloc, DwarfSectionRelocTarget, Endian, Limit, SectionName,
};
use std::alloc::{AllocError, Global};
use std::marker::Model;

/// The most bytes that a section holds.
pub const MOST_BYTES: usize = 0x7FFF_FFFF;

/// A section that is written. Each call answers `TooLarge` exactly where the body would pass 2^31 - 1 bytes, else
/// `OutOfMemory` for want of memory, and then changes nothing.
pub trait Writer {
    ghost use Rattle.std.specs.Prelude.{◌≡◌, ◌<◌, ◌≤◌, ◌+◌, ◌^◌, [], ◌∷◌, OnOk, IfErr, length};
    ghost use Rattle.dwc_section.specs.Writers.{Writing, appended, overwritten, address_relocations, offset_relocation, IsSize, FitsField, IsClear, IsTooLarge, Refuses, most_bytes};
    ghost use Rattle.dwc_section.specs.declared.error.WriteError.TheVariants.{OutOfMemory};
    ghost use Rattle.dwc_base.specs.NumberBytes.{number_bytes};
    ghost use Rattle.dwc_section.specs.SpelledAddresses.{address_bytes};

    ghost writing: { Self → Writing };

    /// The order of the bytes of a number.
    fn endian(&self) -> Endian
        ensures { result ≡ (writing self.now).order };

    /// How many bytes are there.
    fn len(&self) -> usize
        ensures { result ≡ length (writing self.now).body };

    /// Appends bytes.
    fn write(&mut self, bytes: &[u8]) -> Result<(), WriteError>
        ensures ok { OnOk result (writing self.new ≡ appended bytes.now [] (writing self.old)) }
        ensures large { most_bytes < length (writing self.old).body + length bytes.now → IsTooLarge result (writing self.old).name }
        ensures err { IfErr result (λ e. Refuses e (writing self.old) (length bytes.now) × (writing self.new ≡ writing self.old)) };

    /// Replaces bytes from an offset on; no relocation is at them.
    fn write_at(&mut self, offset: usize, bytes: &[u8]) -> Result<(), WriteError>
        requires inside { offset + length bytes.now ≤ length (writing self.old).body }
        requires clear { IsClear offset (length bytes.now) (writing self.old).relocations }
        ensures ok { OnOk result (writing self.new ≡ overwritten offset bytes.now [] (writing self.old)) }
        ensures err { IfErr result (λ e. (e ≡ OutOfMemory) × (writing self.new ≡ writing self.old)) };

    /// Appends an address, of a function with a relocation.
    fn write_address(&mut self, address: Address, size: u8) -> Result<(), WriteError>
        requires size { IsSize size }
        requires fits { FitsField size address }
        ensures ok { OnOk result (writing self.new ≡ appended (address_bytes (writing self.old).order size address) (address_relocations (length (writing self.old).body) size address) (writing self.old)) }
        ensures large { most_bytes < length (writing self.old).body + size → IsTooLarge result (writing self.old).name }
        ensures err { IfErr result (λ e. Refuses e (writing self.old) size × (writing self.new ≡ writing self.old)) };

    /// Appends an offset in a section, with a relocation.
    fn write_offset(&mut self, val: usize, section: SectionName, size: u8) -> Result<(), WriteError>
        requires size { IsSize size }
        requires fits { val < 256 ^ size }
        requires addend { val < 2 ^ 31 }
        ensures ok { OnOk result (writing self.new ≡ appended (number_bytes (writing self.old).order size val) (offset_relocation (length (writing self.old).body) size section val ∷ []) (writing self.old)) }
        ensures large { most_bytes < length (writing self.old).body + size → IsTooLarge result (writing self.old).name }
        ensures err { IfErr result (λ e. Refuses e (writing self.old) size × (writing self.new ≡ writing self.old)) };

    /// Replaces bytes by an offset in a section, with a relocation; no relocation is at them.
    fn write_offset_at(
        &mut self,
        offset: usize,
        val: usize,
        section: SectionName,
        size: u8,
    ) -> Result<(), WriteError>
        requires size { IsSize size }
        requires fits { val < 256 ^ size }
        requires addend { val < 2 ^ 31 }
        requires inside { offset + size ≤ length (writing self.old).body }
        requires clear { IsClear offset size (writing self.old).relocations }
        ensures ok { OnOk result (writing self.new ≡ overwritten offset (number_bytes (writing self.old).order size val) (offset_relocation offset size section val ∷ []) (writing self.old)) }
        ensures err { IfErr result (λ e. (e ≡ OutOfMemory) × (writing self.new ≡ writing self.old)) };
}

/// A section that is written, with its relocations.
#[derive(Drop)]
pub struct WriterRelocate {
    order: Endian,
    name: SectionName,
    body: Vec<u8>,
    relocs: Vec<DwarfSectionReloc>,
}

impl Model for WriterRelocate {
    ghost use Rattle.std.specs.Prelude.{◌≤◌, length, map};
    ghost use Rattle.std.specs.List.{All};
    ghost use Rattle.dwc_base.specs.Outputs.{relocation_view};
    ghost use Rattle.dwc_section.specs.Writers.{Writing, IsWhole, most_bytes};

    ghost Value = { Writing };

    ghost view = { λ w. record { order = w.order; name = w.name; body = w.body.items; relocations = map relocation_view w.relocs.items } };

    ghost invariant = { λ w. (length w.body.items ≤ most_bytes) × All (IsWhole w.order w.body.items) (map relocation_view w.relocs.items) };
}

impl WriterRelocate {
    /// An empty section.
    pub fn new(
        alloc: Global,
        order: Endian,
        name: SectionName,
    ) -> Result<WriterRelocate, WriteError>
        ensures ok { IfOk result (λ w. w ≡ record { order = order; name = name; body = []; relocations = [] }) }
        ensures memory { IsOkUnless result OutOfMemory }
    {
        Ok(WriterRelocate {
            order,
            name,
            body: Vec::new(alloc),
            relocs: Vec::new(alloc),
        })
    }

    /// Makes room for so many bytes and relocations more, if there is memory for them.
    pub fn make_room(&mut self, bytes: usize, relocations: usize)
        ensures { self.new ≡ self.old }
    {
        reserve_part(&mut self.body, bytes);
        reserve_part(&mut self.relocs, relocations);
    }

    /// An empty section with room for so many bytes and relocations.
    pub fn with_room(
        alloc: Global,
        order: Endian,
        name: SectionName,
        room: usize,
        relocations: usize,
    ) -> Result<WriterRelocate, WriteError>
        ensures ok { IfOk result (λ w. w ≡ record { order = order; name = name; body = []; relocations = [] }) }
        ensures memory { IsOkUnless result OutOfMemory }
    {
        Ok(WriterRelocate {
            order,
            name,
            body: Vec::with_capacity(alloc, room)?,
            relocs: Vec::with_capacity(alloc, relocations)?,
        })
    }

    /// Where the next byte will stand; the relocations are before it.
    pub fn place(&self) -> usize
        ensures place { result ≡ length self.now.body }
        ensures below { All (λ r. r.offset + r.size ≤ length self.now.body) self.now.relocations }
        ensures short { result ≤ most_bytes }
    {
        self.body.len()
    }

    /// Appends bytes.
    pub fn put_bytes(&mut self, bytes: &[u8]) -> Result<(), WriteError>
        ensures { Writes self.old self.new result bytes.now [] }
    {
        self.write(bytes)
    }

    /// Appends a byte.
    #[inline(always)]
    pub fn put_byte(&mut self, byte: u8) -> Result<(), WriteError>
        ensures { Writes self.old self.new result (byte ∷ []) [] }
    {
        check_room(self.body.len(), 1, self.name)?;
        self.body.push(byte)?;
        Ok(())
    }

    /// Appends a number of so many bytes, the low ones of the value.
    #[inline(always)]
    pub fn put_number(&mut self, size: u8, value: u64) -> Result<(), WriteError>
        requires { IsSize size }
        ensures { Writes self.old self.new result (number_bytes self.old.order size value) [] }
    {
        check_room(self.body.len(), usize::from(size), self.name)?;
        put_sized(&mut self.body, self.order, size, value)?;
        Ok(())
    }

    /// Appends an address.
    #[inline(always)]
    pub fn put_address(&mut self, address: Address, size: u8) -> Result<(), WriteError>
        requires size { (size ≡ 4) ⊎ (size ≡ 8) }
        requires fits { FitsField size address }
        ensures { Writes self.old self.new result (address_bytes self.old.order size address) (address_relocations (length self.old.body) size address) }
    {
        self.write_address(address, size)
    }

    /// Appends an offset in a section, of four bytes.
    #[inline(always)]
    pub fn put_offset(&mut self, val: usize, section: SectionName) -> Result<(), WriteError>
        requires { val ≤ most_bytes }
        ensures { Writes self.old self.new result (number_bytes self.old.order 4 val) (offset_relocation (length self.old.body) 4 section val ∷ []) }
    {
        self.write_offset(val, section, 4)
    }

    /// Appends bytes behind their length.
    pub fn put_sized_part(&mut self, bytes: &[u8]) -> Result<(), WriteError>
        ensures { Writes self.old self.new result (sized_bytes self.old.order bytes.now) [] }
    {
        if bytes.len() > MOST_BYTES {
            return Err(WriteError::TooLarge {
                what: Limit::Section(self.name),
            });
        }
        let length = bytes_4(self.order, bytes.len() as u32);
        self.put_bytes(&length)?;
        self.put_bytes(bytes)
    }

    /// Puts the length of what stands behind it into the four bytes at a place.
    pub fn finish_length(&mut self, place: usize)
        requires inside { place + 4 ≤ length self.old.body }
        requires clear { IsClear place 4 self.old.relocations }
        ensures { self.new ≡ overwritten place (number_bytes self.old.order 4 (length self.old.body - (place + 4))) [] self.old }
    {
        let length = self.body.len() - (place + 4);
        let bytes = bytes_4(self.order, length as u32);
        replace(&mut self.body, place, &bytes);
    }

    /// The section, as it was written.
    pub fn take(self) -> DwarfSection
        ensures section { section_view result ≡ record { name = section_text self.name; body = self.body; relocations = self.relocations } }
        ensures sound { IsSound self.order (section_view result) }
    {
        let WriterRelocate {
            order: _,
            name,
            body,
            relocs,
        } = self;
        section_of(name, body, relocs)
    }
}

// The section that is given away; its body holds bytes.
fn section_of(name: SectionName, body: Vec<u8>, relocs: Vec<DwarfSectionReloc>) -> DwarfSection
    ensures section { section_view result ≡ record { name = section_text name; body = body.items; relocations = map relocation_view relocs.items } }
    ensures bytes { All (λ b. b < 256) body.items }
{
    DwarfSection {
        name: name.text(),
        body,
        relocs,
    }
}

// A signed number as it stands in bytes.
fn addend_bits(addend: i64) -> u64
    ensures { result ≡ cast_unsigned w64 addend }
{
    addend.cast_unsigned()
}

impl Writer for WriterRelocate {
    ghost writing = { λ w. w };

    fn endian(&self) -> Endian {
        self.order
    }

    fn len(&self) -> usize {
        self.body.len()
    }

    fn write(&mut self, bytes: &[u8]) -> Result<(), WriteError> {
        check_room(self.body.len(), bytes.len(), self.name)?;
        self.body.extend_from_slice(bytes)?;
        Ok(())
    }

    fn write_at(&mut self, offset: usize, bytes: &[u8]) -> Result<(), WriteError> {
        replace(&mut self.body, offset, bytes);
        Ok(())
    }

    #[inline(always)]
    fn write_address(&mut self, address: Address, size: u8) -> Result<(), WriteError> {
        let offset = self.body.len();
        check_room(offset, usize::from(size), self.name)?;
        match address {
            Address::Constant(value) => put_sized(&mut self.body, self.order, size, value)?,
            Address::Symbol { symbol, addend } => {
                let reloc = function_reloc(symbol, offset, addend, size);
                put_field(
                    &mut self.body,
                    &mut self.relocs,
                    self.order,
                    reloc,
                    addend_bits(addend),
                )?;
            }
        }
        Ok(())
    }

    #[inline(always)]
    fn write_offset(
        &mut self,
        val: usize,
        section: SectionName,
        size: u8,
    ) -> Result<(), WriteError> {
        let offset = self.body.len();
        check_room(offset, usize::from(size), self.name)?;
        let reloc = section_reloc(section, offset, val, size);
        put_field(
            &mut self.body,
            &mut self.relocs,
            self.order,
            reloc,
            val as u64,
        )?;
        Ok(())
    }

    fn write_offset_at(
        &mut self,
        offset: usize,
        val: usize,
        section: SectionName,
        size: u8,
    ) -> Result<(), WriteError> {
        self.relocs.push(section_reloc(section, offset, val, size))?;
        replace_sized(&mut self.body, offset, self.order, size, val as u64);
        Ok(())
    }
}

// Refuses what would make a section too large.
fn check_room(len: usize, more: usize, name: SectionName) -> Result<(), WriteError>
    requires { len ≤ most_bytes }
    ensures large { IsTooLarge result name ↔ most_bytes < len + more }
    ensures only { IsOkUnless result (TooLarge (Section name)) }
    ensures ok { OnOk result (len + more ≤ most_bytes) }
{
    if more > MOST_BYTES - len {
        return Err(WriteError::TooLarge {
            what: Limit::Section(name),
        });
    }
    Ok(())
}

// The relocation of a function's address.
fn function_reloc(symbol: usize, offset: usize, addend: i64, size: u8) -> DwarfSectionReloc
    requires offset { offset < 2 ^ 32 }
    requires addend { FitsSigned w32 addend }
    ensures reloc { relocation_view result ≡ record { offset = offset; size = size; target = function symbol; addend = addend } }
    ensures target { symbol < 2 ^ 64 }
{
    DwarfSectionReloc {
        target: DwarfSectionRelocTarget::Func(symbol),
        offset: offset as u32,
        addend: addend as i32,
        size,
    }
}

// The relocation of an offset in a section.
fn section_reloc(section: SectionName, offset: usize, val: usize, size: u8) -> DwarfSectionReloc
    requires offset { offset < 2 ^ 32 }
    requires val { val < 2 ^ 31 }
    ensures { relocation_view result ≡ offset_relocation offset size section val }
{
    DwarfSectionReloc {
        target: DwarfSectionRelocTarget::Section(section.text()),
        offset: offset as u32,
        addend: val as i32,
        size,
    }
}

// A field behind what is there, and its relocation.
#[inline(always)]
fn put_field(
    body: &mut Vec<u8>,
    relocs: &mut Vec<DwarfSectionReloc>,
    order: Endian,
    reloc: DwarfSectionReloc,
    value: u64,
) -> Result<(), AllocError>
    requires { IsSize reloc.size }
    ensures body { OnOk result (body.new.items ≡ body.old.items ++ number_bytes order reloc.size value) }
    ensures relocs { OnOk result (relocs.new.items ≡ relocs.old.items ++ reloc ∷ []) }
    ensures err_body { OnErr result (body.new.items ≡ body.old.items) }
    ensures err_relocs { OnErr result (relocs.new.items ≡ relocs.old.items) }
{
    relocs.reserve(1)?;
    put_sized(body, order, reloc.size, value)?;
    relocs.push_reserved(reloc);
    Ok(())
}
