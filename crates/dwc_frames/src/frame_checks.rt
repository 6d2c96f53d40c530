//! Whether frame descriptions can be written, found before a byte is written. (DWARF 4 and 5, sections 6.4.1 and 6.4.2.)
ghost use Rattle.std.specs.Prelude.{◌≡◌, ◌<◌, ◌^◌, FitsSigned, Some, map, nat_abs};
ghost use Rattle.std.specs.Int.{w8};
ghost use Rattle.std.specs.List.{All, list_all};
ghost use Rattle.dwc_native.specs.CallFrames.{has_factored_offset};
ghost use Rattle.dwc_native.specs.FrameRefusals.{description_refusals, frame_refusals, has_code_offsets as are_code_offsets, has_data_offsets as are_data_offsets};
ghost use Rattle.dwc_isa.specs.CallFrames.{cie_view, description_view, instruction_view};
ghost use Rattle.dwc_frames.specs.Frames.{FitsCommon, FitsInstruction, advancing_view, checked, function_view};

use dwc_isa::{CfaUnwindInfo, Cie, FrameOp};
use dwc_section::WriteError;

/// Whether the descriptions of functions can be written; else the first that cannot.
pub fn check_frames(cie: &Cie, functions: &[(usize, CfaUnwindInfo)]) -> Result<(), WriteError>
    requires code { 0 < cie.now.code_factor }
    requires data { 0 < nat_abs cie.now.data_factor }
    ensures { result ≡ checked (frame_refusals (Some (cie_view cie.now)) (map function_view functions.now)) }
{
    for i in 0..functions.len() {
        check_function(cie, &functions[i])?;
    }
    Ok(())
}

// Whether the description of a function can be written.
fn check_function(cie: &Cie, function: &(usize, CfaUnwindInfo)) -> Result<(), WriteError>
    requires code { 0 < cie.now.code_factor }
    requires data { 0 < nat_abs cie.now.data_factor }
    ensures { result ≡ checked (description_refusals (cie_view cie.now) (function_view function.now)) }
{
    let (symbol, info) = function;
    if !has_code_offsets(cie.code_factor, &info.ops) {
        return Err(WriteError::InvalidFrameCodeOffset { symbol: *symbol });
    }
    if !has_data_offsets(cie, &info.ops) {
        return Err(WriteError::InvalidFrameDataOffset { symbol: *symbol });
    }
    Ok(())
}

// Whether the offsets of code do not fall, and are multiples of the code factor.
fn has_code_offsets(factor: u8, ops: &[(u32, FrameOp)]) -> bool
    requires { 0 < factor }
    ensures { result ≡ are_code_offsets factor 0 (map advancing_view ops.now) }
{
    let mut before = 0;
    for i in 0..ops.len() {
        let (offset, _) = ops[i];
        if offset < before || offset % u32::from(factor) != 0 {
            return false;
        }
        before = offset;
    }
    true
}

// Whether the factored offsets are multiples of the data factor.
fn has_data_offsets(cie: &Cie, ops: &[(u32, FrameOp)]) -> bool
    requires { 0 < nat_abs cie.now.data_factor }
    ensures { result ≡ list_all (λ i. has_factored_offset cie.now.data_factor i.1) (map advancing_view ops.now) }
{
    for i in 0..ops.len() {
        let (_, op) = ops[i];
        if !op.has_factored_offset(cie.data_factor) {
            return false;
        }
    }
    true
}

/// How large the numbers of functions' instructions are.
pub fn know_functions(functions: &[(usize, CfaUnwindInfo)])
    ensures { All (λ f. All (λ op. FitsInstruction (instruction_view op.1)) f.1.ops.items) functions.now }
{
    for i in 0..functions.len() {
        know_advancing(&functions[i].1.ops);
    }
}

// How large the numbers of a function's instructions are.
fn know_advancing(ops: &[(u32, FrameOp)])
    ensures { All (λ op. FitsInstruction (instruction_view op.1)) ops.now }
{
    for i in 0..ops.len() {
        know(ops[i].1);
    }
}

/// How large the numbers of a common information entry are.
pub fn know_common(cie: &Cie)
    ensures { FitsCommon (cie_view cie.now) }
{
    know_factors(cie.code_factor, cie.data_factor);
    know_instructions(&cie.ops);
}

// How large the factors are.
fn know_factors(code: u8, factor: i8)
    ensures code { code < 2 ^ 8 }
    ensures factor { FitsSigned w8 factor }
{}

// How large the numbers of instructions are.
fn know_instructions(ops: &[FrameOp])
    ensures { All (λ op. FitsInstruction (instruction_view op)) ops.now }
{
    for i in 0..ops.len() {
        know(ops[i]);
    }
}

// How large the numbers of an instruction are.
fn know(op: FrameOp)
    ensures { FitsInstruction (instruction_view op) }
{}
