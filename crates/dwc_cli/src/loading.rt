//! Reading a whole file.
ghost use Rattle.std.specs.Prelude.{◌≡◌, ◌<◌, ◌≤◌, ◌↔◌, ◌++◌, [], ◌∷◌, max, length, Some, Err, IfOk};
ghost use Rattle.dwc_cli.specs.Calls.{files_read, last_opened, ReadsPaths};
ghost use Rattle.dwc_cli.specs.RunStatus.{Rose, most_bytes};
ghost use Rattle.dwc_cli.specs.Edge.{IsFile, IsLongFile, load_status};

use crate::source::{Failed, Source};
use std::alloc::{AllocError, Global};

/// The most bytes that are read of one file: 2 ^ 28.
const MOST: usize = 1 << 28;

/// How many bytes one read asks for.
const BUFFER: usize = 65_536;

/// Why a file is not loaded.
#[derive(Clone, Copy)]
pub(crate) enum LoadError {
    /// The source failed.
    Read,
    /// More than 2 ^ 28 bytes were taken of the file.
    TooLong,
    OutOfMemory,
}

impl From<Failed> for LoadError {
    ghost use Rattle.std.specs.Prelude.{◌≡◌};
    ghost use Rattle.dwc_cli.specs.declared.loading.LoadError.TheVariants.{Read};

    ghost from_gives = { λ _ e. e ≡ Read };

    fn from(_: Failed) -> LoadError {
        LoadError::Read
    }
}

impl From<AllocError> for LoadError {
    ghost use Rattle.std.specs.Prelude.{◌≡◌};
    ghost use Rattle.dwc_cli.specs.declared.loading.LoadError.TheVariants.{OutOfMemory};

    ghost from_gives = { λ _ e. e ≡ OutOfMemory };

    fn from(_: AllocError) -> LoadError {
        LoadError::OutOfMemory
    }
}

/// The bytes of the file at a path. It is opened and read to its end, 65,536 bytes at a time; past 2 ^ 28 bytes it is
/// [`LoadError::TooLong`].
pub(crate) fn load<S: Source>(
    alloc: Global,
    source: &mut S,
    path: &str,
) -> Result<Vec<u8>, LoadError>
    ensures file { IfOk result (λ bytes. IsFile (S.files source.old) path.now bytes.items) }
    ensures short { IfOk result (λ bytes. length bytes.items ≤ most_bytes) }
    ensures too_long { (result ≡ Err LoadError.TooLong) ↔ (most_bytes < S.taken source.new) }
    ensures longest { S.longest source.new ≡ max (S.longest source.old) (S.taken source.new) }
    ensures long_file { result ≡ Err LoadError.TooLong → IsLongFile (S.files source.old) path.now }
    ensures read_fault { result ≡ Err LoadError.Read → Rose (S.faults source.old) (S.faults source.new) }
    ensures asked { ReadsPaths (load_status result) (path.now ∷ []) (S.faults source.old) (S.faults source.new) (S.asked source.old) (S.asked source.new) }
    ensures last { last_opened (S.asked source.new) ≡ Some path.now }
    ensures whole { IfOk result (λ bytes. files_read (S.asked source.new) ≡ files_read (S.asked source.old) ++ bytes.items ∷ []) }
    ensures cut { result ≡ Err LoadError.TooLong → files_read (S.asked source.new) ≡ files_read (S.asked source.old) }
    ensures files { S.files source.new ≡ S.files source.old }
    ensures later { S.faults source.old ≤ S.faults source.new }
{
    source.open_file(path)?;
    let mut bytes = Vec::new(alloc);
    let mut buffer = [0u8; BUFFER];
    for _ in 0..MOST + 1 {
        let count = source.read(&mut buffer)?;
        if count == 0 {
            bytes.shrink_to_fit();
            return Ok(bytes);
        }
        if bytes.len() + count > MOST {
            return Err(LoadError::TooLong);
        }
        bytes.extend_from_slice(&buffer[..count])?;
    }
    unreachable!()
}
