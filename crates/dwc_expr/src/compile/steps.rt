//! Reads the operations of an expression, as far as they are supported.
ghost use Rattle.std.specs.Prelude.{◌≡◌, ◌==◌, not, ◌&&◌, ℕ, Some, drop};
ghost use Rattle.dwc_dwarf.specs.Operations.{operation_fault};
ghost use Rattle.dwc_native.specs.Parts.{is_unsupported_early};
ghost use Rattle.dwc_read.specs.Faults.{fault_seen};
ghost use Rattle.dwc_expr.specs.Steps.{Refuses, supported_operations, ReadsSteps};

use crate::ExprError;
use crate::compile::step::Step;
use dwc_base::Encoding;
use dwc_base::constants::{DW_OP_WASM_location, DW_OP_fbreg};
use dwc_read::ReadFault;
use dwc_tabs::Operations;
use std::alloc::Global;

// Whether the first bytes of an operation that is cut short make it unsupported before it ends.
fn is_unsupported_early(bytes: &[u8], has_base: bool) -> bool
    ensures { result ≡ is_unsupported_early has_base bytes.now }
{
    match bytes {
        [] => false,
        [opcode] => *opcode == DW_OP_fbreg && !has_base,
        [opcode, kind, ..] => {
            (*opcode == DW_OP_fbreg && !has_base) || (*opcode == DW_OP_WASM_location && *kind != 0)
        }
    }
}

// The bytes of an expression from a place on, none past its end.
fn bytes_from(bytes: &[u8], place: usize) -> &[u8]
    ensures { result.now ≡ drop place bytes.now }
{
    match bytes.get(place..) {
        Some(rest) => rest,
        None => &[],
    }
}

// Tells of an operation that cannot be read, unless its first bytes make it unsupported.
fn refuse(fault: ReadFault, bytes: &[u8], has_base: bool) -> Result<(), ExprError>
    ensures { (place : ℕ) → fault_seen fault ≡ Some (operation_fault place) → Refuses (is_unsupported_early has_base (drop place bytes.now)) place result }
{
    match fault {
        ReadFault::Read {
            what,
            section,
            offset,
        } => {
            if is_unsupported_early(bytes_from(bytes, offset as usize), has_base) {
                Ok(())
            } else {
                Err(ExprError::Read {
                    what,
                    section,
                    offset,
                })
            }
        }
        ReadFault::Unsupported { .. } => Err(ExprError::OutOfMemory),
        ReadFault::OutOfMemory => Err(ExprError::OutOfMemory),
    }
}

// The operations of an expression; None where one is not supported. What comes first in the order of bytes decides. It fails with
// `Read` exactly where an operation cannot be read, and else only for want of memory.
pub(crate) fn read_steps<'d>(
    alloc: Global,
    bytes: &'d [u8],
    encoding: Encoding,
    has_base: bool,
) -> Result<Option<Vec<Step<'d>>>, ExprError>
    ensures { ReadsSteps (supported_operations has_base bytes.now) result }
{
    let mut operations = Operations::new(bytes, encoding);
    let mut steps = Vec::new(alloc);
    loop {
        match operations.next_op() {
            Ok(Some((place, operation))) => {
                match Step::new(place, &operation, has_base, bytes.len()) {
                    Some(step) => steps.push(step)?,
                    None => return Ok(None),
                }
            }
            Ok(None) => return Ok(Some(steps)),
            Err(fault) => {
                refuse(fault, bytes, has_base)?;
                return Ok(None);
            }
        }
    }
}
