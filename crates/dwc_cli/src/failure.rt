//! Why a run does not end well, and the line that says so.
ghost use Rattle.std.specs.Prelude.{◌≡◌, ◌++◌, OnOk};
ghost use Rattle.dwc_cli.specs.Calls.{EndsAtFailure};
ghost use Rattle.dwc_cli.specs.Devices.{HasCause};
ghost use Rattle.dwc_cli.specs.RunStatus.{Appended};
ghost use Rattle.dwc_cli.specs.Failures.{status_code, failure_status, failure_message, line_of, IsOnOneLine};

use crate::refusal::Refusal;
use crate::sink::{Sink, write_all};
use crate::source::Failed;
use crate::status::Status;
use dwc_addr::CompilationError;
use dwc_carry::DebugError;
use dwc_wasm::WasmFault;
use std::alloc::{AllocError, AllocFailed};

const USAGE: &str = "usage: dwarfcarry [--package P] [--text] MAP MODULE... | --generate N";

// Why a run does not end with [`Status::Done`].
#[derive(Drop)]
pub(crate) enum Failure<'w> {
    Usage,
    ReadFault { path: &'w str },
    TooLong { path: &'w str },
    MalformedMap,
    WriteFault,
    OutOfMemory,
    /// A call refused its input, with a status and a text of its own.
    Refused { status: Status, refusal: Refusal },
}

impl From<AllocError> for Failure<'_> {
    ghost use Rattle.std.specs.Prelude.{◌≡◌};
    ghost use Rattle.dwc_cli.specs.declared.failure.Failure.TheVariants.{OutOfMemory};

    ghost from_gives = { λ _ e. e ≡ OutOfMemory };

    fn from(_: AllocError) -> Self {
        Failure::OutOfMemory
    }
}

impl<T: Drop> From<AllocFailed<T>> for Failure<'_> {
    ghost use Rattle.std.specs.Prelude.{◌≡◌};
    ghost use Rattle.dwc_cli.specs.declared.failure.Failure.TheVariants.{OutOfMemory};

    ghost from_gives = { λ _ e. e ≡ OutOfMemory };

    fn from(_: AllocFailed<T>) -> Self {
        Failure::OutOfMemory
    }
}

impl From<WasmFault> for Failure<'_> {
    ghost use Rattle.std.specs.Prelude.{◌≡◌};
    ghost use Rattle.dwc_cli.specs.Failures.{failure_status, wasm_status};

    ghost from_gives = { λ fault failure. failure_status failure ≡ wasm_status fault };

    fn from(fault: WasmFault) -> Self {
        match fault {
            WasmFault::Malformed { .. } => Failure::Refused {
                status: Status::MalformedWasm,
                refusal: Refusal::of(&fault),
            },
            WasmFault::OutOfMemory => Failure::OutOfMemory,
        }
    }
}

impl From<CompilationError> for Failure<'_> {
    ghost use Rattle.std.specs.Prelude.{◌≡◌};
    ghost use Rattle.dwc_cli.specs.Failures.{failure_status, compiling_status};

    ghost from_gives = { λ error failure. failure_status failure ≡ compiling_status error };

    fn from(error: CompilationError) -> Self {
        match error {
            CompilationError::SharedSymbol { .. } => Failure::Refused {
                status: Status::SharedSymbol,
                refusal: Refusal::of(&error),
            },
            CompilationError::OutOfMemory => Failure::OutOfMemory,
        }
    }
}

impl From<DebugError> for Failure<'_> {
    ghost use Rattle.std.specs.Prelude.{◌≡◌};
    ghost use Rattle.dwc_cli.specs.Failures.{failure_status, carrying_status};

    ghost from_gives = { λ error failure. failure_status failure ≡ carrying_status error };

    fn from(error: DebugError) -> Self {
        let status = match error {
            DebugError::Read { .. } => Status::Read,
            DebugError::Unsupported { .. } => Status::Unsupported,
            DebugError::InvalidFileIndex { .. } => Status::InvalidFileIndex,
            DebugError::BadAddressMap { .. } => Status::BadAddressMap,
            DebugError::BadLabelRange { .. } => Status::BadLabelRange,
            DebugError::InvalidAttributeValue { .. } => Status::InvalidAttributeValue,
            DebugError::UnmappedRegister { .. } => Status::UnmappedRegister,
            DebugError::Path => Status::Path,
            DebugError::InvalidFrameCodeOffset { .. } => Status::InvalidFrameCodeOffset,
            DebugError::InvalidFrameDataOffset { .. } => Status::InvalidFrameDataOffset,
            DebugError::TooLarge { .. } => Status::TooLarge,
            DebugError::OutOfMemory => return Failure::OutOfMemory,
        };
        Failure::Refused {
            status,
            refusal: Refusal::of(&error),
        }
    }
}

impl Failure<'_> {
    // The status of a run that ends so.
    pub(crate) fn status(&self) -> Status
        ensures { status_code result ≡ failure_status self.now }
    {
        match self {
            Failure::Usage => Status::Usage,
            Failure::ReadFault { .. } => Status::ReadFault,
            Failure::TooLong { .. } => Status::TooLong,
            Failure::MalformedMap => Status::MalformedMap,
            Failure::WriteFault => Status::WriteFault,
            Failure::OutOfMemory => Status::OutOfMemory,
            Failure::Refused { status, .. } => *status,
        }
    }

    // The message, in two parts.
    fn message(&self) -> (&'static str, &[u8])
        ensures text { result.0.now ++ result.1.now ≡ failure_message self.now }
        ensures line { IsOnOneLine self.now }
    {
        match self {
            Failure::Usage => (USAGE, &[]),
            Failure::ReadFault { path } => ("read fault ", path.as_bytes()),
            Failure::TooLong { path } => ("file too long ", path.as_bytes()),
            Failure::MalformedMap => ("malformed map", &[]),
            Failure::WriteFault => ("write fault", &[]),
            Failure::OutOfMemory => ("out of memory", &[]),
            Failure::Refused { refusal, .. } => ("", refusal.text()),
        }
    }
}

// Writes the line of a failure: `dwarfcarry: `, the message and a line feed.
pub(crate) fn complain<E: Sink>(err: &mut E, failure: &Failure<'_>) -> Result<(), Failed>
    ensures line { OnOk result (Appended (E.written err.old) (E.written err.new) (line_of (failure_message failure.now))) }
    ensures one_line { IsOnOneLine failure.now }
    ensures cause { HasCause (E.faults err.old) (E.faults err.new) result }
    ensures ends { EndsAtFailure (E.asked err.old) (E.asked err.new) result }
{
    let (message, detail) = failure.message();
    write_all(err, b"dwarfcarry: ")?;
    write_all(err, message.as_bytes())?;
    write_all(err, detail)?;
    write_all(err, b"\n")?;
    Ok(())
}
