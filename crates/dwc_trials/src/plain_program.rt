//! The slow program of kept entries.
use dwc_base::constants::{
    DW_AT_low_pc, DW_TAG_base_type, DW_TAG_compile_unit, DW_TAG_subprogram, DW_TAG_variable,
};
use dwc_plain::{PlainEntry, PlainFunction, PlainValue, kept_entries};
use std::test::Fail;

const DW_AT_TYPE: u16 = 0x49;

const FUNCTIONS: [PlainFunction; 1] = [PlainFunction {
    start: 2,
    has_symbol: true,
}];

const SUBPROGRAM: [(u16, PlainValue); 2] = [
    (DW_AT_low_pc, PlainValue::Address(2)),
    (DW_AT_TYPE, PlainValue::UnitReference(40)),
];

// The entries of a unit: its root, a variable, a subprogram with a type, and that type.
const ENTRIES: [PlainEntry<'static>; 4] = [
    PlainEntry {
        unit: 0,
        offset: 11,
        depth: 0,
        tag: DW_TAG_compile_unit,
        attributes: &[],
    },
    PlainEntry {
        unit: 0,
        offset: 20,
        depth: 1,
        tag: DW_TAG_variable,
        attributes: &[],
    },
    PlainEntry {
        unit: 0,
        offset: 30,
        depth: 1,
        tag: DW_TAG_subprogram,
        attributes: &SUBPROGRAM,
    },
    PlainEntry {
        unit: 0,
        offset: 40,
        depth: 1,
        tag: DW_TAG_base_type,
        attributes: &[],
    },
];

#[test]
fn a_subprogram_keeps_its_type(rt: HostRuntime) -> Result<(), Fail> {
    let kept = kept_entries(rt.alloc(), &FUNCTIONS, &ENTRIES)?;
    assert_eq!(rt; kept.len(), 3);
    for (entry, wanted) in kept.iter().zip([11, 30, 40]) {
        assert_eq!(rt; entry.offset, wanted);
    }
    Ok(())
}
