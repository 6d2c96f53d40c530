//! What expressions compile to. (DWARF 4 and 5, section 2.5.)
use dwc_base::{Encoding, SectionName, What};
use dwc_clif::ValueLabel;
use dwc_expr::{CompiledExpression, CompiledExpressionPart, ExprError, compile_expression};
use std::alloc::Global;
use std::test::Fail;

const ENCODING: Encoding = Encoding {
    version: 4,
    address_size: 4,
};

// The frame base that is local 3, as a value.
const LOCAL_3: &[u8] = &[0xED, 0x00, 0x03, 0x9F];

// A part that is wanted.
#[derive(Clone, Copy)]
enum Wanted<'w> {
    Code(&'w [u8]),
    Value(u32),
    Place(u32),
    Deref,
    Skip(u64),
    Branch(u64),
    Pad(u64),
}

// Operations that stay as they are, each once with the operands that it has, least and greatest literal included.
const STAYING: [&[u8]; 42] = [
    &[0x08, 0xFF],
    &[0x09, 0xFF],
    &[0x0A, 1, 0x80],
    &[0x0B, 1, 0x80],
    &[0x0C, 1, 2, 3, 0x80],
    &[0x0D, 1, 2, 3, 0x80],
    &[0x0E, 1, 2, 3, 4, 5, 6, 7, 0x80],
    &[0x0F, 1, 2, 3, 4, 5, 6, 7, 0x80],
    &[0x10, 0xE5, 0x8E, 0x26],
    &[0x11, 0x80, 0x7F],
    &[0x12],
    &[0x13],
    &[0x14],
    &[0x15, 2],
    &[0x16],
    &[0x17],
    &[0x19],
    &[0x1A],
    &[0x1B],
    &[0x1C],
    &[0x1D],
    &[0x1E],
    &[0x1F],
    &[0x20],
    &[0x21],
    &[0x22],
    &[0x23, 0x80, 0x01],
    &[0x24],
    &[0x27],
    &[0x29],
    &[0x2A],
    &[0x2B],
    &[0x2C],
    &[0x2D],
    &[0x2E],
    &[0x30],
    &[0x4F],
    &[0x93, 0x04],
    &[0x96],
    &[0x9D, 0x20, 0x80, 0x01],
    &[0x9F],
    &[
        0x10, 0xFF, 0xFF, 0xFF, 0xFF, 0xFF, 0xFF, 0xFF, 0xFF, 0xFF, 0x01,
    ],
];

// Expressions without a frame base, with their parts, and whether their result is an address.
const COMPILED: [(&[u8], &[Wanted<'static>], bool); 15] = [
    (&[], &[], false),
    (&[0x31, 0x9F], &[Wanted::Code(&[0x31, 0x9F])], false),
    (&[0xED, 0x00, 0x14, 0x9F], &[Wanted::Place(20)], false),
    (
        &[0x31, 0xED, 0x00, 0x14, 0x9F],
        &[
            Wanted::Code(&[0x31]),
            Wanted::Value(20),
            Wanted::Code(&[0x9F]),
        ],
        false,
    ),
    (&[0xED, 0x00, 0x14], &[Wanted::Value(20)], true),
    (
        &[0xED, 0x00, 0x01, 0x40, 0x26, 0x9F],
        &[
            Wanted::Value(1),
            Wanted::Code(&[0x40, 0x23, 0x20, 0x16, 0x08, 0x20, 0x24, 0x16, 0x26, 0x9F]),
        ],
        false,
    ),
    (
        &[0x25],
        &[Wanted::Code(&[0x23, 0x20, 0x16, 0x08, 0x20, 0x24, 0x16, 0x25])],
        true,
    ),
    (
        &[
            0x31, 0x12, 0x49, 0x2A, 0x28, 0x05, 0x00, 0x23, 0x01, 0x2F, 0xF5, 0xFF, 0x9F,
        ],
        &[
            Wanted::Code(&[0x31]),
            Wanted::Pad(1),
            Wanted::Code(&[0x12, 0x49, 0x2A]),
            Wanted::Branch(12),
            Wanted::Code(&[0x23, 0x01]),
            Wanted::Skip(1),
            Wanted::Pad(12),
            Wanted::Code(&[0x9F]),
        ],
        false,
    ),
    (&[0x06], &[Wanted::Deref, Wanted::Code(&[0x06])], true),
    (
        &[0x31, 0x94, 0x01, 0x96],
        &[
            Wanted::Code(&[0x31]),
            Wanted::Deref,
            Wanted::Code(&[0x94, 0x01, 0x96]),
        ],
        true,
    ),
    (
        &[0x18, 0x95, 0x04],
        &[
            Wanted::Deref,
            Wanted::Code(&[0x18]),
            Wanted::Deref,
            Wanted::Code(&[0x95, 0x04]),
        ],
        true,
    ),
    (
        &[0x2F, 0x00, 0x00],
        &[Wanted::Skip(3), Wanted::Pad(3)],
        true,
    ),
    (
        &[0x2F, 0xFD, 0xFF],
        &[Wanted::Pad(0), Wanted::Skip(0)],
        true,
    ),
    (&[0x23, 0x05], &[Wanted::Code(&[0x23, 0x05])], true),
    (
        &[0xED, 0x00, 0xFD, 0xFF, 0xFF, 0xFF, 0x0F],
        &[Wanted::Value(0xFFFF_FFFD)],
        true,
    ),
];

// Expressions on the frame base that is local 3.
const ON_LOCAL_3: [(&[u8], &[Wanted<'static>], bool); 5] = [
    (
        &[0x91, 0x12],
        &[Wanted::Value(3), Wanted::Code(&[0x23, 0x12])],
        true,
    ),
    (
        &[0x91, 0x7F, 0x9F],
        &[
            Wanted::Value(3),
            Wanted::Code(&[
                0x23, 0xFF, 0xFF, 0xFF, 0xFF, 0xFF, 0xFF, 0xFF, 0xFF, 0xFF, 0x01, 0x9F,
            ]),
        ],
        false,
    ),
    (
        &[0x23, 0x05],
        &[Wanted::Value(3), Wanted::Code(&[0x23, 0x05])],
        true,
    ),
    (
        &[0x31, 0x23, 0x05],
        &[Wanted::Code(&[0x31, 0x23, 0x05])],
        true,
    ),
    (
        &[0x23, 0x01, 0x91, 0x02],
        &[
            Wanted::Value(3),
            Wanted::Code(&[0x23, 0x01]),
            Wanted::Value(3),
            Wanted::Code(&[0x23, 0x02]),
        ],
        true,
    ),
];

// Expressions that are not supported, without a frame base: a jump into an operation, before the begin and behind the end, an offset from
// the frame base, locations that are no local, a label that is the context's, and what cannot be read behind such a thing.
const UNSUPPORTED: [&[u8]; 13] = [
    &[0x28, 0x01, 0x00, 0x10, 0x23, 0x9F],
    &[0x2F, 0xFC, 0xFF],
    &[0x2F, 0x01, 0x00],
    &[0x91, 0x12],
    &[0x91],
    &[0xED, 0x01, 0x00],
    &[0xED, 0x02, 0x00, 0x9F],
    &[0xED, 0x03, 1, 2, 3, 4],
    &[0xED, 0x03, 1],
    &[0xED, 0x07],
    &[0xED, 0x00, 0xFE, 0xFF, 0xFF, 0xFF, 0x0F],
    &[0xED, 0x00, 0x80, 0x80, 0x80, 0x80, 0x10],
    &[0x03, 0x10],
];

// Expressions with an operation that cannot be read, and its place.
const UNREADABLE: [(&[u8], u64); 8] = [
    (&[0x10], 0),
    (&[0x31, 0x0A, 0x01], 1),
    (&[0xED], 0),
    (&[0xED, 0x00], 0),
    (&[0x31, 0xED, 0x00, 0x80], 1),
    (&[0x2F, 0x00], 0),
    (
        &[
            0x10, 0xFF, 0xFF, 0xFF, 0xFF, 0xFF, 0xFF, 0xFF, 0xFF, 0xFF, 0x02,
        ],
        0,
    ),
    (&[0x2F, 0x00, 0x00, 0x9D, 0x01], 3),
];

fn is_wanted(part: &CompiledExpressionPart, wanted: &Wanted<'_>) -> bool {
    match (part, wanted) {
        (CompiledExpressionPart::Code(code), Wanted::Code(bytes)) => code.as_slice() == *bytes,
        (CompiledExpressionPart::Local { label, trailing }, Wanted::Value(number)) => {
            label.0 == *number && !*trailing
        }
        (CompiledExpressionPart::Local { label, trailing }, Wanted::Place(number)) => {
            label.0 == *number && *trailing
        }
        (CompiledExpressionPart::Deref, Wanted::Deref) => true,
        (
            CompiledExpressionPart::Jump {
                conditionally,
                target,
            },
            Wanted::Skip(place),
        ) => !*conditionally && *target == *place,
        (
            CompiledExpressionPart::Jump {
                conditionally,
                target,
            },
            Wanted::Branch(place),
        ) => *conditionally && *target == *place,
        (CompiledExpressionPart::LandingPad(place), Wanted::Pad(wanted)) => *place == *wanted,
        _ => false,
    }
}

fn are_wanted(parts: &[CompiledExpressionPart], wanted: &[Wanted<'_>]) -> bool {
    if parts.len() != wanted.len() {
        return false;
    }
    for (part, wanted) in parts.iter().zip(wanted) {
        if !is_wanted(part, wanted) {
            return false;
        }
    }
    true
}

fn compile(
    alloc: Global,
    bytes: &[u8],
    frame_base: Option<&CompiledExpression>,
) -> Result<CompiledExpression, Fail> {
    let compiled = compile_expression(alloc, bytes, ENCODING, frame_base)?;
    Ok(compiled.ok_or("not supported")?)
}

#[test]
fn operations_that_stay(rt: HostRuntime) -> Result<(), Fail> {
    for bytes in &STAYING {
        let compiled = compile(rt.alloc(), bytes, None)?;
        assert!(rt;
            are_wanted(compiled.parts(), &[Wanted::Code(bytes)]),
            "{bytes:?}"
        );
        assert!(rt; compiled.is_simple(), "{bytes:?}");
        assert_eq!(rt;
            compiled.need_deref(),
            bytes.first() != Some(&0x9F),
            "{bytes:?}"
        );
        let built = compiled.build(rt.alloc())?.ok_or("not built")?;
        assert_eq!(rt; built.as_slice(), *bytes, "{bytes:?}");
    }
    Ok(())
}

#[test]
fn parts_without_a_frame_base(rt: HostRuntime) -> Result<(), Fail> {
    for (bytes, wanted, is_address) in &COMPILED {
        let compiled = compile(rt.alloc(), bytes, None)?;
        assert!(rt; are_wanted(compiled.parts(), wanted), "{bytes:?}");
        assert_eq!(rt; compiled.need_deref(), *is_address, "{bytes:?}");
    }
    Ok(())
}

#[test]
fn parts_on_a_frame_base(rt: HostRuntime) -> Result<(), Fail> {
    let base = compile(rt.alloc(), LOCAL_3, None)?;
    for (bytes, wanted, is_address) in &ON_LOCAL_3 {
        let compiled = compile(rt.alloc(), bytes, Some(&base))?;
        assert!(rt; are_wanted(compiled.parts(), wanted), "{bytes:?}");
        assert_eq!(rt; compiled.need_deref(), *is_address, "{bytes:?}");
    }
    Ok(())
}

#[test]
fn a_label_is_a_local_alone(rt: HostRuntime) -> Result<(), Fail> {
    let label = CompiledExpression::from_label(rt.alloc(), ValueLabel(20))?;
    assert!(rt; are_wanted(label.parts(), &[Wanted::Place(20)]));
    assert!(rt; !label.is_simple() && !label.need_deref());
    assert!(rt; label.build(rt.alloc())?.is_none());
    let context = CompiledExpression::vmctx(rt.alloc())?;
    assert!(rt; are_wanted(context.parts(), &[Wanted::Place(0xFFFF_FFFE)]));
    Ok(())
}

#[test]
fn what_is_not_supported(rt: HostRuntime) -> Result<(), Fail> {
    for bytes in &UNSUPPORTED {
        let compiled = compile_expression(rt.alloc(), bytes, ENCODING, None)?;
        assert!(rt; compiled.is_none(), "{bytes:?}");
    }
    Ok(())
}

#[test]
fn a_frame_base_with_a_jump_supports_nothing(rt: HostRuntime) -> Result<(), Fail> {
    let base = compile(rt.alloc(), &[0x2F, 0x00, 0x00], None)?;
    for bytes in [[0x31, 0x9F].as_slice(), [0x10].as_slice()] {
        let compiled = compile_expression(rt.alloc(), bytes, ENCODING, Some(&base))?;
        assert!(rt; compiled.is_none(), "{bytes:?}");
    }
    Ok(())
}

#[test]
fn what_cannot_be_read(rt: HostRuntime) -> Result<(), Fail> {
    for (bytes, place) in &UNREADABLE {
        let wanted = ExprError::Read {
            what: What::Expression,
            section: SectionName::Info,
            offset: *place,
        };
        let fault = compile_expression(rt.alloc(), bytes, ENCODING, None).err();
        assert_eq!(rt; fault, Some(wanted), "{bytes:?}");
    }
    Ok(())
}

// Whether a code is one of an operation that is known, whatever follows it.
fn is_known(code: u8) -> bool {
    match code {
        0x06 | 0x08..=0x17 | 0x18..=0x2F | 0x30..=0x4F => true,
        0x91 | 0x93..=0x96 | 0x9D | 0x9F | 0xED => true,
        _ => false,
    }
}

#[test]
fn codes_that_are_not_known(rt: HostRuntime) -> Result<(), Fail> {
    for code in 0..=0xFF_u8 {
        if is_known(code) {
            continue;
        }
        let compiled = compile_expression(rt.alloc(), &[code], ENCODING, None)?;
        assert!(rt; compiled.is_none(), "{code}");
    }
    Ok(())
}
