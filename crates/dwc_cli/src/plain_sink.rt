//! A sink that takes everything.
ghost use Rattle.std.specs.Prelude.{◌≡◌, length, None, Ok, ℕ, List, [], ◌∷◌, Option};
ghost use Rattle.dwc_cli.specs.Calls.{passing_of};
ghost use Rattle.dwc_cli.specs.Devices.{HasCause, Accepts};

use crate::asked::Asked;
use crate::sink::Sink;
use crate::source::Failed;

/// A sink that takes each piece whole, keeps nothing and never fails.
#[derive(Drop)]
pub struct PlainSink {
    asked: Asked,
}

impl PlainSink {
    /// A sink, which has taken nothing.
    pub fn new() -> PlainSink
        ensures { result.asked.calls ≡ [] }
    {
        PlainSink {
            asked: Asked::new(),
        }
    }
}

impl Sink for PlainSink {
    ghost written = { λ _. None };

    ghost faults = { λ _. 0 };

    ghost asked = { λ s. s.asked.calls };

    /// Takes the whole piece.
    fn write(&mut self, bytes: &[u8]) -> Result<usize, Failed>
        ensures bytes { Accepts None None bytes.now result }
        ensures cause { HasCause 0 0 result }
        ensures asked { self.new.asked.calls ≡ passing_of result bytes.now ∷ self.old.asked.calls }
        ensures whole { result ≡ Ok (length bytes.now) }
    {
        self.asked.note_passing(bytes.len(), bytes);
        Ok(bytes.len())
    }
}
