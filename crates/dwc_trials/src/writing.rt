//! Calls of a writer and of a unit that no run makes.
use dwc_base::constants::DW_TAG_subprogram;
use dwc_base::{DwarfSectionReloc, DwarfSectionRelocTarget, Encoding, Endian, SectionName};
use dwc_write::{LineProgram, Unit, Writer, WriterRelocate};
use std::test::Fail;

const ENCODING: Encoding = Encoding {
    version: 4,
    address_size: 8,
};

const TO_TEXT: DwarfSectionReloc = DwarfSectionReloc {
    target: DwarfSectionRelocTarget::Section(".debug_str"),
    offset: 2,
    addend: 5,
    size: 4,
};

#[test]
fn fields_are_written_over(rt: HostRuntime) -> Result<(), Fail> {
    let mut writer = WriterRelocate::new(rt.alloc(), Endian::Big, SectionName::Info)?;
    writer.write(b"\x01\x02\x03\x04\x05\x06")?;
    writer.write_at(0, b"\xAA\xBB")?;
    writer.write_offset_at(2, 5, SectionName::Str, 4)?;
    let section = writer.take();
    assert_eq!(rt; section.body.as_slice(), b"\xAA\xBB\0\0\0\x05".as_slice());
    assert_eq!(rt; section.relocs.as_slice(), [TO_TEXT].as_slice());
    Ok(())
}

#[test]
fn entries_have_reserved_numbers(rt: HostRuntime) -> Result<(), Fail> {
    let program = LineProgram::none(rt.alloc());
    let mut unit = Unit::new(rt.alloc(), ENCODING, program)?;
    let number = unit.reserve()?;
    unit.add_reserved(number, unit.root(), DW_TAG_subprogram)?;
    assert_eq!(rt; unit.tag(number), DW_TAG_subprogram);
    Ok(())
}
