//! The entries of the unit that a module has of its own.
ghost use Rattle.std.specs.Prelude.{◌≡◌, ◌≤◌, ◌<◌, ◌+◌, ◌⊎◌, length, false, IfOk, IsOkUnless, OnOk, All};
ghost use Rattle.dwc_rules.specs.SyntheticUnit as Synthetic;
ghost use Rattle.dwc_isa.specs.ToldModules.{memory_view};
ghost use Rattle.dwc_source.specs.MadeValues.{Grows};
ghost use Rattle.dwc_unit.specs.GivenUnits.{new_unit};
ghost use Rattle.dwc_section.specs.Writers.{OkUnlessMemory};
ghost use Rattle.dwc_section.specs.declared.error.WriteError.TheVariants.{OutOfMemory};
ghost use Rattle.dwc_carry.specs.MadeEntries.{IsDense, numbers_added, texts_added, with_additions, with_attributes};
ghost use Rattle.dwc_carry.specs.SyntheticAdditions.{context_additions, first_additions, last_additions, synthetic_given, synthetic_numbers, synthetic_texts, root_attributes};

use crate::made_entries::{MadeEntry, MadeValue, add_entries, add_texts, data1, set_attributes};
use dwc_base::Encoding;
use dwc_base::constants::{
    DW_AT_artificial, DW_AT_byte_size, DW_AT_data_member_location, DW_AT_encoding, DW_AT_language,
    DW_AT_linkage_name, DW_AT_name, DW_AT_producer, DW_AT_type, DW_ATE_unsigned, DW_FORM_data2,
    DW_FORM_data4, DW_FORM_udata, DW_LANG_C11, DW_TAG_base_type, DW_TAG_formal_parameter,
    DW_TAG_member, DW_TAG_pointer_type, DW_TAG_structure_type, DW_TAG_subprogram,
};
use dwc_isa::ModuleMemoryOffset;
use dwc_section::WriteError;
use dwc_unit::{LineProgram, StringId, StringTable, Unit};
use std::alloc::Global;

// The places of the root, of the type of a byte, of that of a pointer to bytes, and of the context.
const ROOT: usize = 0;

const BYTE: usize = 1;

const BYTE_POINTER: usize = 2;

const CONTEXT: usize = 3;

// How many bytes a pointer to the bytes of a memory takes in a context.
const POINTER_BYTES: u64 = 8;

/// The texts of the unit, by their numbers.
#[derive(Clone, Copy)]
pub(crate) struct SyntheticTexts {
    unit: StringId,
    producer: StringId,
    byte: StringId,
    byte_pointer: StringId,
    context: StringId,
    memory: StringId,
    set_memory: StringId,
    set: StringId,
    context_pointer: StringId,
    wasm_pointer: StringId,
}

/// Adds the texts of the unit to a table; `set_memory` is the name of the function that makes a context the one in use.
pub(crate) fn synthetic_texts(
    alloc: Global,
    strings: &mut StringTable,
    set_memory: &str,
) -> Result<SyntheticTexts, WriteError>
    requires { All (λ b. 0 < b) set_memory.now }
    ensures grows { Grows strings.old strings.new }
    ensures added { OnOk result (strings.new ≡ texts_added strings.old (synthetic_texts set_memory.now)) }
    ensures numbers { IfOk result (λ texts. synthetic_numbers texts ≡ numbers_added strings.old (synthetic_texts set_memory.now)) }
    ensures memory { IsOkUnless result OutOfMemory }
{
    let ids = add_texts(
        alloc,
        strings,
        &[
            "WasmtimeModuleSyntheticUnit".as_bytes(),
            "wasmtime".as_bytes(),
            "u8".as_bytes(),
            "u8*".as_bytes(),
            "WasmtimeVMContext".as_bytes(),
            "memory".as_bytes(),
            set_memory.as_bytes(),
            "set".as_bytes(),
            "WasmtimeVMContext*".as_bytes(),
            "WebAssemblyPtr".as_bytes(),
        ],
    )?;
    Ok(SyntheticTexts {
        unit: ids[0],
        producer: ids[1],
        byte: ids[2],
        byte_pointer: ids[3],
        context: ids[4],
        memory: ids[5],
        set_memory: ids[6],
        set: ids[7],
        context_pointer: ids[8],
        wasm_pointer: ids[9],
    })
}

// Adds the types of a byte and of a pointer to bytes.
fn add_first(unit: &mut Unit, texts: &SyntheticTexts) -> Result<(), WriteError>
    requires dense { IsDense unit.old }
    requires one { length unit.old.additions ≡ 1 }
    ensures added { OnOk result (unit.new ≡ with_additions (first_additions texts.now) unit.old) }
    ensures memory { IsOkUnless result OutOfMemory }
{
    add_entries(
        unit,
        &[
            MadeEntry {
                parent: ROOT,
                tag: DW_TAG_base_type,
                attributes: &[
                    (DW_AT_name, MadeValue::Text(texts.byte)),
                    (DW_AT_encoding, data1(DW_ATE_unsigned)),
                    (DW_AT_byte_size, data1(1)),
                ],
            },
            MadeEntry {
                parent: ROOT,
                tag: DW_TAG_pointer_type,
                attributes: &[
                    (DW_AT_name, MadeValue::Text(texts.byte_pointer)),
                    (DW_AT_type, MadeValue::Entry(BYTE)),
                ],
            },
        ],
    )
}

// Adds the context, up to its memory where that is the module's.
fn add_context(
    unit: &mut Unit,
    texts: &SyntheticTexts,
    memory: ModuleMemoryOffset,
) -> Result<(), WriteError>
    requires dense { IsDense unit.old }
    requires three { length unit.old.additions ≡ 3 }
    requires near { Synthetic.is_too_far (memory_view memory) ≡ false }
    ensures added { OnOk result (unit.new ≡ with_additions (context_additions texts.now (memory_view memory)) unit.old) }
    ensures memory { IsOkUnless result OutOfMemory }
{
    let name = (DW_AT_name, MadeValue::Text(texts.context));
    let ModuleMemoryOffset::Defined(offset) = memory else {
        let context = MadeEntry {
            parent: ROOT,
            tag: DW_TAG_structure_type,
            attributes: &[name],
        };
        return add_entries(unit, &[context]);
    };
    let offset = u64::from(offset);
    let size = MadeValue::Constant {
        form: DW_FORM_data4,
        bits: offset + POINTER_BYTES,
    };
    let location = MadeValue::Constant {
        form: DW_FORM_udata,
        bits: offset,
    };
    add_entries(
        unit,
        &[
            MadeEntry {
                parent: ROOT,
                tag: DW_TAG_structure_type,
                attributes: &[name, (DW_AT_byte_size, size)],
            },
            MadeEntry {
                parent: CONTEXT,
                tag: DW_TAG_member,
                attributes: &[
                    (DW_AT_name, MadeValue::Text(texts.memory)),
                    (DW_AT_type, MadeValue::Entry(BYTE_POINTER)),
                    (DW_AT_data_member_location, location),
                ],
            },
        ],
    )
}

// Adds the function that makes a context the one in use, the pointer to the context, and the type of an address. `set` is the place of
// the first of these.
fn add_last(unit: &mut Unit, texts: &SyntheticTexts, set: usize) -> Result<(), WriteError>
    requires dense { IsDense unit.old }
    requires place { length unit.old.additions ≡ set }
    requires behind { 4 ≤ set }
    requires few { set < 6 }
    ensures added { OnOk result (unit.new ≡ with_additions (last_additions texts.now set) unit.old) }
    ensures memory { IsOkUnless result OutOfMemory }
{
    add_entries(
        unit,
        &[
            MadeEntry {
                parent: CONTEXT,
                tag: DW_TAG_subprogram,
                attributes: &[
                    (DW_AT_linkage_name, MadeValue::Text(texts.set_memory)),
                    (DW_AT_name, MadeValue::Text(texts.set)),
                ],
            },
            MadeEntry {
                parent: set,
                tag: DW_TAG_formal_parameter,
                attributes: &[
                    (DW_AT_type, MadeValue::Entry(set + 2)),
                    (DW_AT_artificial, MadeValue::Flag(true)),
                ],
            },
            MadeEntry {
                parent: ROOT,
                tag: DW_TAG_pointer_type,
                attributes: &[
                    (DW_AT_name, MadeValue::Text(texts.context_pointer)),
                    (DW_AT_type, MadeValue::Entry(CONTEXT)),
                ],
            },
            MadeEntry {
                parent: ROOT,
                tag: DW_TAG_base_type,
                attributes: &[
                    (DW_AT_name, MadeValue::Text(texts.wasm_pointer)),
                    (DW_AT_byte_size, data1(4)),
                    (DW_AT_encoding, data1(DW_ATE_unsigned)),
                ],
            },
        ],
    )
}

// Gives the root its attributes.
fn set_root(unit: &mut Unit, texts: &SyntheticTexts) -> Result<(), WriteError>
    requires { unit.old ≡ new_unit unit.old.version unit.old.address_size unit.old.lines }
    ensures set { OnOk result (unit.new ≡ with_attributes 0 (root_attributes texts.now) unit.old) }
    ensures memory { IsOkUnless result OutOfMemory }
{
    let language = MadeValue::Constant {
        form: DW_FORM_data2,
        bits: u64::from(DW_LANG_C11),
    };
    let root = unit.root();
    set_attributes(
        unit,
        root,
        &[
            (DW_AT_name, MadeValue::Text(texts.unit)),
            (DW_AT_producer, MadeValue::Text(texts.producer)),
            (DW_AT_language, language),
        ],
    )
}

/// The place of the function that makes a context the one in use: behind the context, and the member that its memory is.
pub(crate) fn set_place(memory: ModuleMemoryOffset) -> usize
    ensures { result ≡ 4 + length (Synthetic.memory_members (memory_view memory)) }
{
    match memory {
        ModuleMemoryOffset::Defined(_) => 5,
        ModuleMemoryOffset::None | ModuleMemoryOffset::Imported { .. } => 4,
    }
}

/// The unit of a module whose linear memory is found there; it has no line program.
pub(crate) fn synthetic_unit(
    alloc: Global,
    encoding: Encoding,
    texts: &SyntheticTexts,
    memory: ModuleMemoryOffset,
) -> Result<Unit, WriteError>
    requires version { (encoding.version ≡ 4) ⊎ (encoding.version ≡ 5) }
    requires size { (encoding.address_size ≡ 4) ⊎ (encoding.address_size ≡ 8) }
    requires near { Synthetic.is_too_far (memory_view memory) ≡ false }
    ensures { OkUnlessMemory result (λ u. u ≡ synthetic_given encoding texts.now (memory_view memory)) }
{
    let mut unit = Unit::new(alloc, encoding, LineProgram::none(alloc))?;
    set_root(&mut unit, texts)?;
    add_first(&mut unit, texts)?;
    add_context(&mut unit, texts, memory)?;
    add_last(&mut unit, texts, set_place(memory))?;
    Ok(unit)
}
