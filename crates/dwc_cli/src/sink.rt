//! Where a run writes to.
ghost use Rattle.std.specs.Prelude.{◌≡◌, ℕ, List, ◌∷◌, Option, OnOk, OnErr};
ghost use Rattle.dwc_cli.specs.Calls.{Call, passing_of, EndsAtFailure};
ghost use Rattle.dwc_cli.specs.Devices.{HasCause, Accepts};
ghost use Rattle.dwc_cli.specs.RunStatus.{Appended};
ghost use Rattle.dwc_cli.specs.Edge.{AppendsFront};

use crate::source::Failed;

/// What takes bytes.
pub trait Sink {
    /// All bytes taken, where they are told.
    ghost written: { Self → Option (List ℕ) };

    /// How often it has failed, up to 2 ^ 64 - 1.
    ghost faults: { Self → ℕ };

    /// The calls that were made of it, the latest first.
    ghost asked: { Self → List Call };

    /// Takes some bytes of the front of `bytes`, at least one where there is one, and answers how many. A failure takes
    /// none.
    fn write(&mut self, bytes: &[u8]) -> Result<usize, Failed>
        ensures bytes { Accepts (written self.old) (written self.new) bytes.now result }
        ensures cause { HasCause (faults self.old) (faults self.new) result }
        ensures asked { asked self.new ≡ passing_of result bytes.now ∷ asked self.old };
}

/// Writes all of some bytes. Where the sink fails, a front of them was taken.
pub(crate) fn write_all<K: Sink>(sink: &mut K, bytes: &[u8]) -> Result<(), Failed>
    ensures whole { OnOk result (Appended (K.written sink.old) (K.written sink.new) bytes.now) }
    ensures front { OnErr result (AppendsFront (K.written sink.old) (K.written sink.new) bytes.now) }
    ensures cause { HasCause (K.faults sink.old) (K.faults sink.new) result }
    ensures ends { EndsAtFailure (K.asked sink.old) (K.asked sink.new) result }
{
    let mut sent = 0;
    while sent < bytes.len() {
        sent += sink.write(&bytes[sent..])?;
    }
    Ok(())
}
