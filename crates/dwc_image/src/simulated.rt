//! The line program of functions without debugging information.
ghost use Rattle.std.specs.Prelude.{◌≡◌, ◌<◌, ◌+◌, ◌^◌, [], ◌∷◌, map, None, false, IsSome, OnOk, IfOk, IsOkUnless, length, All};
ghost use Rattle.std.specs.List.{AllZip};
ghost use Rattle.dwc_output.specs.SimulatedLines.{IsSimulated};
ghost use Rattle.dwc_addr.specs.Runs.{recorded_view};
ghost use Rattle.dwc_addr.specs.Transforms.{function_view};
ghost use Rattle.dwc_unit.specs.SpelledLines.{FitsName};
ghost use Rattle.dwc_unit.specs.GivenSegments.{given_segments};
ghost use Rattle.dwc_image.specs.ImageSequences.{with_sequences};
ghost use Rattle.dwc_image.specs.SimulatedSequences.{simulated_line, line_of_recorded, lines_of_recorded, simulated_sequence, simulated_program, CanSimulate, simulated_view, with_rows, CanAppendEach};

use dwc_addr::{AddressMap, FunctionMap, Sources};
use dwc_base::{Address, Encoding, LineRow};
use dwc_section::WriteError;
use dwc_unit::LineProgram;
use std::alloc::Global;

// A row of the first file.
fn line_at(offset: u64, line: u64, prologue_end: bool) -> LineRow
    ensures { result ≡ simulated_line offset line prologue_end }
{
    LineRow {
        offset,
        file: 1,
        line,
        column: 0,
        is_stmt: true,
        basic_block: false,
        prologue_end,
        epilogue_begin: false,
        isa: 0,
        discriminator: 1,
    }
}

// The row of a recorded source.
fn line_of(source: AddressMap, code_offset: u64, prologue_end: bool) -> LineRow
    requires { code_offset + source.wasm < 2 ^ 64 }
    ensures { result ≡ line_of_recorded code_offset prologue_end (recorded_view source) }
{
    line_at(
        source.generated as u64,
        code_offset + u64::from(source.wasm),
        prologue_end,
    )
}

// Adds the rows of sources of which none ends the prologue.
fn add_later(
    program: &mut LineProgram,
    sources: &Sources<'_>,
    code_offset: u64,
) -> Result<(), WriteError>
    requires rows { CanAppendEach program.old (map (line_of_recorded code_offset false) (map recorded_view sources.now)) }
    requires lines { All (λ s. code_offset + s.wasm < 2 ^ 32) sources.now }
    ensures added { OnOk result (program.new ≡ with_rows (map (line_of_recorded code_offset false) (map recorded_view sources.now)) program.old) }
    ensures memory { IsOkUnless result WriteError.OutOfMemory }
{
    for place in 0..sources.len() {
        program.generate_row(line_of(sources.at(place), code_offset, false))?;
    }
    Ok(())
}

// Adds the rows of sources, of which the first ends the prologue.
fn add_sources(
    program: &mut LineProgram,
    sources: &Sources<'_>,
    code_offset: u64,
) -> Result<(), WriteError>
    requires rows { CanAppendEach program.old (lines_of_recorded code_offset (map recorded_view sources.now)) }
    requires lines { All (λ s. code_offset + s.wasm < 2 ^ 32) sources.now }
    ensures added { OnOk result (program.new ≡ with_rows (lines_of_recorded code_offset (map recorded_view sources.now)) program.old) }
    ensures memory { IsOkUnless result WriteError.OutOfMemory }
{
    let Some(first) = sources.get(0) else {
        return Ok(());
    };
    program.generate_row(line_of(first, code_offset, true))?;
    add_later(program, &sources.part(1, sources.len()), code_offset)
}

/// Adds the sequence of a function, in whose file the contents of the code section begin at an offset: a row at its begin, and
/// one for each recorded source, whose line is the source's offset in the file. Each is of the first file.
///
/// # Errors
/// `OutOfMemory` for want of memory, and nothing else.
pub fn add_simulated(
    program: &mut LineProgram,
    function: &FunctionMap<'_>,
    code_offset: u64,
) -> Result<(), WriteError>
    requires sized { IsSome program.old.address_size }
    requires ended { program.old.begun ≡ None }
    requires some { 0 < length program.old.files }
    requires function { CanSimulate code_offset (function_view function.now) }
    ensures added { OnOk result (program.new ≡ with_sequences (simulated_sequence code_offset (function_view function.now) ∷ []) program.old) }
    ensures memory { IsOkUnless result WriteError.OutOfMemory }
{
    program.begin_sequence(Address::Symbol {
        symbol: function.symbol.unwrap_or(0),
        addend: 0,
    })?;
    program.generate_row(line_at(0, 0, false))?;
    add_sources(program, &function.addresses, code_offset)?;
    program.end_sequence(function.len as u64)
}

// Adds the sequences of some functions.
fn add_all(
    program: &mut LineProgram,
    functions: &[(u64, &FunctionMap<'_>)],
) -> Result<(), WriteError>
    requires sized { IsSome program.old.address_size }
    requires ended { program.old.begun ≡ None }
    requires some { 0 < length program.old.files }
    requires functions { All (λ f. CanSimulate f.0 (function_view (f.1).now)) functions.now }
    ensures added { OnOk result (program.new ≡ with_sequences (map (λ f. simulated_sequence f.0 f.1) (map simulated_view functions.now)) program.old) }
    ensures memory { IsOkUnless result WriteError.OutOfMemory }
{
    for function in functions {
        add_simulated(program, function.1, function.0)?;
    }
    Ok(())
}

/// The line program of functions without debugging information, each beside the offset that the contents of the code section
/// begin at in its file: one file of a name, which lies in the compilation directory, and a sequence for each function in order.
///
/// # Errors
/// `OutOfMemory` for want of memory, and nothing else.
pub fn simulated_lines(
    alloc: Global,
    encoding: Encoding,
    name: &[u8],
    functions: &[(u64, &FunctionMap<'_>)],
) -> Result<LineProgram, WriteError>
    requires name { FitsName name.now }
    requires functions { All (λ f. CanSimulate f.0 f.1) (map simulated_view functions.now) }
    ensures lines { IfOk result (λ p. p ≡ simulated_program encoding.address_size name.now (map simulated_view functions.now)) }
    ensures segments { IfOk result (λ p. AllZip (λ f segment. IsSimulated name.now f.0 f.1 segment) (map simulated_view functions.now) (given_segments p)) }
    ensures memory { IsOkUnless result WriteError.OutOfMemory }
{
    let mut program = LineProgram::new(alloc, encoding)?;
    program.add_file(0, name)?;
    add_all(&mut program, functions)?;
    Ok(program)
}
