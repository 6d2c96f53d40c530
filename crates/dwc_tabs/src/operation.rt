//! One operation of an expression. (DWARF 4 and 5, sections 2.5 and 7.7.1.)
ghost use Rattle.std.specs.Prelude.{◌≡◌, option_map};
ghost use Rattle.dwc_base.specs.Cursors.{Gives};
ghost use Rattle.dwc_base.specs.Reading.{coded};
ghost use Rattle.dwc_dwarf.specs.Operations.{sign_extended, operands_of as operands_by_code, index_table, operand_at, wasm_location_at, operands_at, operation_at};
ghost use Rattle.dwc_tabs.specs.Operations.{operand_view, operands_view, operation_view};

use dwc_base::constants::{
    DW_OP_WASM_location, DW_OP_bit_piece, DW_OP_bra, DW_OP_const1s, DW_OP_const1u, DW_OP_const2s,
    DW_OP_const2u, DW_OP_const4s, DW_OP_const4u, DW_OP_const8s, DW_OP_const8u, DW_OP_consts,
    DW_OP_constu, DW_OP_deref_size, DW_OP_fbreg, DW_OP_pick, DW_OP_piece, DW_OP_plus_uconst,
    DW_OP_skip, DW_OP_xderef_size,
};
use dwc_base::{Cursor, Flaw};

/// An operation of an expression.
#[derive(Clone, Copy)]
pub struct Operation<'d> {
    /// Its code.
    pub opcode: u8,
    /// All its bytes, the code first.
    pub bytes: &'d [u8],
    /// Its first operand, a signed one modulo 2^64; 0 without one.
    pub first: u64,
    /// Its second operand; 0 without one.
    pub second: u64,
}

// How an operand is spelled: without a sign or with one, in so many bits or as LEB128.
#[derive(Clone, Copy)]
pub(crate) enum Operand {
    U8,
    U16,
    U32,
    U64,
    Uleb,
    I8,
    I16,
    I32,
    I64,
    Sleb,
}

// The operands of an operation that has some.
#[derive(Clone, Copy)]
pub(crate) enum Operands {
    One(Operand),
    Two(Operand, Operand),
    WasmLocation,
}

// The operands of an operation by its code; any other code stands alone.
fn operands_of(opcode: u8) -> Option<Operands>
    ensures { option_map operands_view result ≡ operands_by_code opcode }
{
    match opcode {
        DW_OP_const1u => Some(Operands::One(Operand::U8)),
        DW_OP_const1s => Some(Operands::One(Operand::I8)),
        DW_OP_const2u => Some(Operands::One(Operand::U16)),
        DW_OP_const2s => Some(Operands::One(Operand::I16)),
        DW_OP_const4u => Some(Operands::One(Operand::U32)),
        DW_OP_const4s => Some(Operands::One(Operand::I32)),
        DW_OP_const8u => Some(Operands::One(Operand::U64)),
        DW_OP_const8s => Some(Operands::One(Operand::I64)),
        DW_OP_constu => Some(Operands::One(Operand::Uleb)),
        DW_OP_consts => Some(Operands::One(Operand::Sleb)),
        DW_OP_pick => Some(Operands::One(Operand::U8)),
        DW_OP_plus_uconst => Some(Operands::One(Operand::Uleb)),
        DW_OP_bra => Some(Operands::One(Operand::I16)),
        DW_OP_skip => Some(Operands::One(Operand::I16)),
        DW_OP_fbreg => Some(Operands::One(Operand::Sleb)),
        DW_OP_piece => Some(Operands::One(Operand::Uleb)),
        DW_OP_deref_size => Some(Operands::One(Operand::U8)),
        DW_OP_xderef_size => Some(Operands::One(Operand::U8)),
        DW_OP_bit_piece => Some(Operands::Two(Operand::Uleb, Operand::Uleb)),
        DW_OP_WASM_location => Some(Operands::WasmLocation),
        _ => None,
    }
}

// A number of 8, 16 or 32 bits as a signed one, modulo 2^64.
fn signed_8(n: u8) -> u64
    ensures { result ≡ sign_extended 1 n }
{
    if n < 0x80 {
        u64::from(n)
    } else {
        u64::from(n) + 0xFFFF_FFFF_FFFF_FF00
    }
}

fn signed_16(n: u16) -> u64
    ensures { result ≡ sign_extended 2 n }
{
    if n < 0x8000 {
        u64::from(n)
    } else {
        u64::from(n) + 0xFFFF_FFFF_FFFF_0000
    }
}

fn signed_32(n: u32) -> u64
    ensures { result ≡ sign_extended 4 n }
{
    if n < 0x8000_0000 {
        u64::from(n)
    } else {
        u64::from(n) + 0xFFFF_FFFF_0000_0000
    }
}

// An operand, a signed one modulo 2^64.
#[tactic(auto, unfolding(dwc_dwarf::specs::Operations::operand_at, dwc_dwarf::specs::Values::sized_number_at))]
fn read_operand(kind: Operand, cursor: &mut Cursor<'_>) -> Result<u64, Flaw>
    ensures { Gives (λ n. n) (operand_at (operand_view kind) cursor.old) cursor.new result }
{
    match kind {
        Operand::U8 => Ok(u64::from(cursor.u8()?)),
        Operand::U16 => Ok(u64::from(cursor.u16()?)),
        Operand::U32 => Ok(u64::from(cursor.u32()?)),
        Operand::U64 => Ok(cursor.u64()?),
        Operand::Uleb => Ok(cursor.uleb()?),
        Operand::I8 => Ok(signed_8(cursor.u8()?)),
        Operand::I16 => Ok(signed_16(cursor.u16()?)),
        Operand::I32 => Ok(signed_32(cursor.u32()?)),
        Operand::I64 => Ok(cursor.u64()?),
        Operand::Sleb => Ok(cursor.sleb()?.cast_unsigned()),
    }
}

// What follows the kind of a location in WebAssembly: the index of a local, of a global or of a place on the operand stack, or
// that of a global in four bytes. Any other kind stands alone.
fn index_of(kind: u8) -> Option<Operand>
    ensures { option_map operand_view result ≡ coded index_table kind }
{
    match kind {
        0 => Some(Operand::Uleb),
        1 => Some(Operand::Uleb),
        2 => Some(Operand::Uleb),
        3 => Some(Operand::U32),
        _ => None,
    }
}

// A location in WebAssembly: its kind, and the index behind it, 0 without one.
#[tactic(auto, unfolding(dwc_dwarf::specs::Operations::wasm_location_at, dwc_dwarf::specs::Operations::index_at))]
fn wasm_location(cursor: &mut Cursor<'_>) -> Result<(u64, u64), Flaw>
    ensures { Gives (λ p. p) (wasm_location_at cursor.old) cursor.new result }
{
    let kind = cursor.u8()?;
    match index_of(kind) {
        Some(index) => Ok((u64::from(kind), read_operand(index, cursor)?)),
        None => Ok((u64::from(kind), 0)),
    }
}

// The operands in order, 0 for one that is not there.
#[tactic(auto, unfolding(dwc_dwarf::specs::Operations::operands_at))]
fn read_operands(kinds: Option<Operands>, cursor: &mut Cursor<'_>) -> Result<(u64, u64), Flaw>
    ensures { Gives (λ p. p) (operands_at (option_map operands_view kinds) cursor.old) cursor.new result }
{
    match kinds {
        Some(Operands::One(kind)) => Ok((read_operand(kind, cursor)?, 0)),
        Some(Operands::Two(kind, other)) => {
            let first = read_operand(kind, cursor)?;
            Ok((first, read_operand(other, cursor)?))
        }
        Some(Operands::WasmLocation) => Ok(wasm_location(cursor)?),
        None => Ok((0, 0)),
    }
}

// The operation at the front.
#[tactic(auto, unfolding(dwc_dwarf::specs::Operations::operation_at))]
pub(crate) fn read_operation<'d>(cursor: &mut Cursor<'d>) -> Result<Operation<'d>, Flaw>
    ensures { Gives (operation_view cursor.old.place) (operation_at cursor.old) cursor.new result }
{
    let unread = cursor.unread();
    let opcode = cursor.u8()?;
    let (first, second) = read_operands(operands_of(opcode), cursor)?;
    let (bytes, _) = unread.split_at(unread.len() - cursor.left());
    Ok(Operation {
        opcode,
        bytes,
        first,
        second,
    })
}
