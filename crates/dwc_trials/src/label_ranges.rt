//! On which native code of a scope values lie at unchanged places, and what expressions become there. The function has 30 bytes, and
//! is that of one run in `translations`.
use crate::translations::{ONE_RUN, SmallModule};
use dwc_addr::{AddressTransform, ModuleMemoryOffset};
use dwc_base::{Address, Encoding, Endian};
use dwc_clif::{
    Architecture, LabelValueLoc, Reg, TableIsa, ValueLabel, ValueLabelsRanges, ValueLocRange,
};
use dwc_expr::{
    BuiltCompiledExpression, BuiltValueLabelRanges, CompiledExpression, ExprError,
    FunctionFrameInfo, ValueLabelRangesBuilder, compile_expression,
};
use std::alloc::{AllocError, Global};
use std::test::Fail;

const ENCODING: Encoding = Encoding {
    version: 4,
    address_size: 4,
};

const CONTEXT: u32 = 0xFFFF_FFFE;

// The whole function.
const WHOLE: &[(u64, u64)] = &[(10, 20)];

const NO_MEMORY: ModuleMemoryOffset = ModuleMemoryOffset::None;

const MEMORY: ModuleMemoryOffset = ModuleMemoryOffset::Defined(80);

const IMPORTED: ModuleMemoryOffset = ModuleMemoryOffset::Imported {
    offset_to_vm_memory_definition: 0,
    offset_to_memory_base: 0,
};

const IMPORTED_BEHIND: ModuleMemoryOffset = ModuleMemoryOffset::Imported {
    offset_to_vm_memory_definition: 8,
    offset_to_memory_base: 16,
};

// A place of a label, from a native offset up to another.
type Placed = (u32, LabelValueLoc, u32, u32);

// Places in registers of the code generator, and in the frame.
const IN_1: LabelValueLoc = LabelValueLoc::Reg(Reg(1));

const IN_2: LabelValueLoc = LabelValueLoc::Reg(Reg(2));

const IN_3: LabelValueLoc = LabelValueLoc::Reg(Reg(3));

const IN_7: LabelValueLoc = LabelValueLoc::Reg(Reg(7));

const IN_9: LabelValueLoc = LabelValueLoc::Reg(Reg(9));

const AT_16: LabelValueLoc = LabelValueLoc::CFAOffset(-16);

const AT_24: LabelValueLoc = LabelValueLoc::CFAOffset(-24);

// Labels whose ranges end and begin within one another.
const LABELS: &[Placed] = &[
    (0, IN_1, 0, 25),
    (1, IN_2, 5, 30),
    (2, IN_3, 0, 10),
    (2, IN_3, 20, 30),
    (4, IN_1, 0, 20),
    (4, IN_2, 5, 10),
    (4, IN_1, 10, 12),
    (4, IN_7, 12, 12),
    (4, IN_1, 20, 25),
    (5, IN_1, 9, 4),
    (6, IN_1, 40, 50),
];

// Scopes and labels, and the ranges that they have, with whether these are the whole scope.
type Ranges = (
    &'static [(u64, u64)],
    &'static [u32],
    &'static [(usize, usize)],
    bool,
);

const RANGES: [Ranges; 13] = [
    (&[(11, 17)], &[0, 1, 2], &[(5, 10), (20, 23)], false),
    (WHOLE, &[], &[(0, 30)], true),
    (WHOLE, &[0], &[(0, 25)], false),
    (WHOLE, &[0, 1], &[(5, 25)], false),
    (WHOLE, &[1, 0, 1], &[(5, 25)], false),
    (&[(12, 17)], &[0, 1], &[(5, 23)], true),
    (WHOLE, &[4], &[(0, 5), (5, 10), (10, 25)], false),
    (WHOLE, &[9], &[], false),
    (WHOLE, &[6], &[], false),
    (&[], &[], &[], false),
    (&[], &[0], &[], false),
    (&[(0, 5)], &[0], &[], true),
    (&[(17, 20), (10, 12), (12, 17)], &[], &[(0, 30)], true),
];

// The registers 1 and 2 are 12 and 14 to DWARF, and 3 is 40; it knows no others.
fn target(alloc: Global) -> Result<TableIsa, AllocError> {
    let mut registers = Vec::new(alloc);
    registers.push((Reg(1), 12))?;
    registers.push((Reg(2), 14))?;
    registers.push((Reg(3), 40))?;
    TableIsa::new(
        alloc,
        Architecture::X86_64,
        Endian::Little,
        8,
        registers,
        None,
    )
}

// The ranges of a label among places.
fn ranges_of(
    alloc: Global,
    places: &[Placed],
    label: u32,
) -> Result<Vec<ValueLocRange>, AllocError> {
    let mut ranges = Vec::new(alloc);
    for (other, loc, start, end) in places {
        if *other == label {
            ranges.push(ValueLocRange {
                loc: *loc,
                start: *start,
                end: *end,
            })?;
        }
    }
    Ok(ranges)
}

fn labels(alloc: Global, places: &[Placed]) -> Result<ValueLabelsRanges, AllocError> {
    let mut labels = ValueLabelsRanges::new(alloc);
    for (label, _, _, _) in places {
        labels.insert(ValueLabel(*label), ranges_of(alloc, places, *label)?)?;
    }
    Ok(labels)
}

fn frame(
    value_ranges: &ValueLabelsRanges,
    memory_offset: ModuleMemoryOffset,
) -> FunctionFrameInfo<'_> {
    FunctionFrameInfo {
        value_ranges,
        memory_offset,
        symbol: Some(0),
    }
}

// The ranges of a scope on which labels have places.
fn gathered(
    alloc: Global,
    scope: &[(u64, u64)],
    needed: &[u32],
    transform: &AddressTransform<'_>,
    frame: Option<&FunctionFrameInfo<'_>>,
) -> Result<BuiltValueLabelRanges, Fail> {
    let isa = target(alloc)?;
    let mut builder = ValueLabelRangesBuilder::new(alloc, scope, transform, frame, &isa)?;
    for label in needed {
        builder.process_label(ValueLabel(*label))?;
    }
    Ok(builder.into_ranges())
}

// Whether ranges have these bounds.
fn are_bounded(built: &BuiltValueLabelRanges, wanted: &[(usize, usize)]) -> bool {
    let bounds = built.ranges.iter().map(|r| (r.start, r.end));
    bounds.eq(wanted.iter().copied())
}

#[test]
fn ranges_of_labels(rt: HostRuntime) -> Result<(), Fail> {
    let alloc = rt.alloc();
    let module = SmallModule::new(alloc, ONE_RUN)?;
    let transform = module.transform(alloc)?;
    let labels = labels(alloc, LABELS)?;
    let frame = frame(&labels, NO_MEMORY);
    for (scope, needed, wanted, covers) in &RANGES {
        let built = gathered(alloc, scope, needed, &transform, Some(&frame))?;
        assert_eq!(rt; built.covers_entire_scope, *covers, "{scope:?} {needed:?}");
        assert!(rt; are_bounded(&built, wanted), "{scope:?} {needed:?}");
    }
    Ok(())
}

#[test]
fn a_reversed_range_is_refused(rt: HostRuntime) -> Result<(), Fail> {
    let alloc = rt.alloc();
    let module = SmallModule::new(alloc, ONE_RUN)?;
    let transform = module.transform(alloc)?;
    let isa = target(alloc)?;
    let labels = labels(alloc, LABELS)?;
    let frame = frame(&labels, NO_MEMORY);
    let mut builder = ValueLabelRangesBuilder::new(alloc, WHOLE, &transform, Some(&frame), &isa)?;
    let label = ValueLabel(5);
    let refused = builder.process_label(label).err();
    assert_eq!(rt; refused, Some(ExprError::BadLabelRange { label }));
    builder.process_label(ValueLabel(0))?;
    let built = builder.into_ranges();
    assert_eq!(rt; built.ranges.len(), 1);
    assert_eq!(rt; built.ranges[0].label_location.get(&0), Some(&IN_1));
    Ok(())
}

// ---- what is built

// What is built: where each expression begins, how many bytes of code it is for, and its own bytes.
type Built = &'static [(i64, u64, &'static [u8])];

// An address in linear memory made one of the native code, where the context is in register 14 and the base at 80 in it.
const DEREFERENCED: &[u8] = &[
    0x7C, 0x00, 0x23, 0x12, 0x7E, 0xD0, 0x00, 0x06, 0x16, 0x0C, 0xFF, 0xFF, 0xFF, 0xFF, 0x1A, 0x22,
];

// Local 3 in a register on the first 20 bytes, and on all; in one that DWARF does not know; and the context.
const FIRST_20: &[Placed] = &[(3, IN_1, 0, 20), (CONTEXT, IN_2, 0, 30)];

const ALL_30: &[Placed] = &[(3, IN_1, 0, 30), (CONTEXT, IN_2, 0, 30)];

const UNKNOWN: &[Placed] = &[(3, IN_9, 0, 30), (CONTEXT, IN_2, 0, 30)];

const ELSEWHERE: &[Placed] = &[(3, IN_1, 30, 40), (CONTEXT, IN_2, 0, 30)];

const IN_FRAME: &[Placed] = &[(3, AT_24, 0, 30), (CONTEXT, AT_16, 0, 30)];

const IN_REGISTER_40: &[Placed] = &[(3, IN_3, 0, 30)];

// Expressions, the memory of their module, where values lie, and what they become over the whole function.
type Case = (
    &'static [u8],
    ModuleMemoryOffset,
    &'static [Placed],
    Built,
    bool,
);

const BUILT: [Case; 15] = [
    (
        &[0x91, 0x12],
        MEMORY,
        FIRST_20,
        &[(0, 20, DEREFERENCED)],
        false,
    ),
    (
        &[0x91, 0x12],
        MEMORY,
        ALL_30,
        &[(0, 30, DEREFERENCED)],
        true,
    ),
    (&[0x91, 0x12], NO_MEMORY, ELSEWHERE, &[], false),
    (
        &[0xED, 0x00, 0x03, 0x9F],
        NO_MEMORY,
        ALL_30,
        &[(0, 30, &[0x5C])],
        true,
    ),
    (
        &[0xED, 0x00, 0x03, 0x9F],
        NO_MEMORY,
        IN_REGISTER_40,
        &[(0, 30, &[0x90, 0x28])],
        true,
    ),
    (
        &[0x31, 0x13, 0xED, 0x00, 0x03, 0x9F],
        NO_MEMORY,
        IN_REGISTER_40,
        &[(0, 30, &[0x31, 0x13, 0x92, 0x28, 0x00, 0x9F])],
        true,
    ),
    (
        &[0xED, 0x00, 0x03, 0x9F],
        NO_MEMORY,
        IN_FRAME,
        &[(0, 30, &[0x91, 0x68])],
        true,
    ),
    (
        &[0x31, 0x13, 0xED, 0x00, 0x03, 0x9F],
        NO_MEMORY,
        IN_FRAME,
        &[(0, 30, &[0x31, 0x13, 0x91, 0x68, 0x06, 0x9F])],
        true,
    ),
    (
        &[0x31, 0x12, 0x28, 0x02, 0x00, 0x06, 0x30, 0x9F],
        MEMORY,
        ALL_30,
        &[(
            0,
            30,
            &[
                0x31, 0x12, 0x28, 0x0E, 0x00, 0x7E, 0xD0, 0x00, 0x06, 0x16, 0x0C, 0xFF, 0xFF, 0xFF,
                0xFF, 0x1A, 0x22, 0x06, 0x30, 0x9F,
            ],
        )],
        true,
    ),
    (
        &[0x06, 0x9F],
        IMPORTED,
        IN_FRAME,
        &[(
            0,
            30,
            &[
                0x91, 0x70, 0x06, 0x06, 0x06, 0x16, 0x0C, 0xFF, 0xFF, 0xFF, 0xFF, 0x1A, 0x22, 0x06,
                0x9F,
            ],
        )],
        true,
    ),
    (
        &[0x06, 0x9F],
        MEMORY,
        IN_FRAME,
        &[(
            0,
            30,
            &[
                0x91, 0x70, 0x06, 0x11, 0xD0, 0x00, 0x22, 0x06, 0x16, 0x0C, 0xFF, 0xFF, 0xFF, 0xFF,
                0x1A, 0x22, 0x06, 0x9F,
            ],
        )],
        true,
    ),
    (
        &[0x06, 0x9F],
        IMPORTED_BEHIND,
        ALL_30,
        &[(
            0,
            30,
            &[
                0x7E, 0x08, 0x06, 0x11, 0x10, 0x22, 0x06, 0x16, 0x0C, 0xFF, 0xFF, 0xFF, 0xFF, 0x1A,
                0x22, 0x06, 0x9F,
            ],
        )],
        true,
    ),
    (
        &[0x06, 0x9F],
        IMPORTED_BEHIND,
        IN_FRAME,
        &[(
            0,
            30,
            &[
                0x91, 0x70, 0x06, 0x11, 0x08, 0x22, 0x06, 0x11, 0x10, 0x22, 0x06, 0x16, 0x0C, 0xFF,
                0xFF, 0xFF, 0xFF, 0x1A, 0x22, 0x06, 0x9F,
            ],
        )],
        true,
    ),
    (
        &[0x31, 0x9F],
        NO_MEMORY,
        &[],
        &[(0, 30, &[0x31, 0x9F])],
        false,
    ),
    (&[0x31], NO_MEMORY, &[], &[(0, 30, &[0x31])], false),
];

// Expressions, the memory of their module, where values lie, and why they are not built.
type Refused = (
    &'static [u8],
    ModuleMemoryOffset,
    &'static [Placed],
    ExprError,
);

const REFUSED: [Refused; 4] = [
    (
        &[0x91, 0x12],
        NO_MEMORY,
        FIRST_20,
        ExprError::InvalidAttributeValue,
    ),
    (
        &[0x91, 0x12],
        NO_MEMORY,
        UNKNOWN,
        ExprError::InvalidAttributeValue,
    ),
    (
        &[0x91, 0x12],
        MEMORY,
        UNKNOWN,
        ExprError::UnmappedRegister { register: Reg(9) },
    ),
    (
        &[0x91, 0x12],
        NO_MEMORY,
        &[(3, IN_9, 9, 4)],
        ExprError::BadLabelRange {
            label: ValueLabel(3),
        },
    ),
];

// What an expression on the frame base that is local 3 becomes over the whole function.
fn build(
    alloc: Global,
    bytes: &[u8],
    memory: ModuleMemoryOffset,
    places: &[Placed],
) -> Result<Result<BuiltCompiledExpression, ExprError>, Fail> {
    let module = SmallModule::new(alloc, ONE_RUN)?;
    let transform = module.transform(alloc)?;
    let isa = target(alloc)?;
    let labels = labels(alloc, places)?;
    let frame = frame(&labels, memory);
    let base = CompiledExpression::from_label(alloc, ValueLabel(3))?;
    let compiled = compile_expression(alloc, bytes, ENCODING, Some(&base))?;
    let compiled = compiled.ok_or("not supported")?;
    Ok(compiled.build_with_locals(alloc, WHOLE, &transform, Some(&frame), &isa))
}

fn is_built(built: &BuiltCompiledExpression, wanted: Built) -> bool {
    if built.expressions.len() != wanted.len() {
        return false;
    }
    for ((begin, length, expression), (addend, extent, bytes)) in built
        .expressions
        .iter()
        .zip(wanted)
    {
        let address = Address::Symbol {
            symbol: 0,
            addend: *addend,
        };
        if *begin != address || *length != *extent || expression.as_slice() != *bytes {
            return false;
        }
    }
    true
}

#[test]
fn built_expressions(rt: HostRuntime) -> Result<(), Fail> {
    for (bytes, memory, places, wanted, covers) in &BUILT {
        let built = build(rt.alloc(), bytes, *memory, places)??;
        assert!(rt; is_built(&built, wanted), "{bytes:?} {places:?}");
        assert_eq!(rt; built.covers_entire_scope, *covers, "{bytes:?} {places:?}");
    }
    Ok(())
}

#[test]
fn refused_expressions(rt: HostRuntime) -> Result<(), Fail> {
    for (bytes, memory, places, wanted) in &REFUSED {
        let refused = build(rt.alloc(), bytes, *memory, places)?.err();
        assert_eq!(rt; refused, Some(*wanted), "{bytes:?} {places:?}");
    }
    Ok(())
}

// A jump over so many reads of linear memory, each of which becomes 13 bytes.
fn jump_over(alloc: Global, reads: u16) -> Result<Vec<u8>, AllocError> {
    let mut bytes = Vec::new(alloc);
    bytes.push(0x2F)?;
    bytes.extend_from_slice(&reads.to_le_bytes())?;
    for _ in 0..reads {
        bytes.push(0x06)?;
    }
    Ok(bytes)
}

#[test]
fn jumps_that_go_too_far(rt: HostRuntime) -> Result<(), Fail> {
    let near = jump_over(rt.alloc(), 2520)?;
    assert!(rt; build(rt.alloc(), &near, MEMORY, ALL_30)?.is_ok());
    let far = jump_over(rt.alloc(), 2521)?;
    let refused = build(rt.alloc(), &far, MEMORY, ALL_30)?.err();
    assert_eq!(rt; refused, Some(ExprError::TooLarge));
    Ok(())
}
