//! The real files and streams: the trusted edge. The system tells nothing of what a file holds, so as a source they tell none either. What
//! they claim is what was asked of them, with the bytes that a file gave and a stream took by the system's answers, and their counts.
ghost use Rattle.std.specs.Prelude.{◌≡◌, ◌↔◌, [], ◌∷◌, None, Some, Option, IsNone, IsErr, OnErr, IfOk};
ghost use Rattle.std.specs.Option.{option_and_then};
ghost use Rattle.std.specs.Io.{ReadsAtMost};
ghost use Rattle.std.specs.Io.KnownBytes.{ReadConsumes, WriteAppends};
ghost use Rattle.dwc_cli.specs.Calls.{opening_of, passed, passing_of};
ghost use Rattle.dwc_cli.specs.Devices.{HasCause, Counts, Takes, TakesMost, Opens, Accepts, FailsWhileShut};
ghost use Rattle.dwc_cli.specs.RunStatus.{Files};

use crate::asked::Asked;
use crate::calls::count_taken;
use crate::sink::Sink;
use crate::source::{Failed, Source};
use std::fs;
use std::io::{Read, Write};
use std::rt::Files;

/// The files of the system. Every failure of an opening or a read is a fault, and so is a read while no file is open. Nothing
/// else is one.
#[derive(Drop)]
pub struct HostSource<R: Files + Drop> {
    system: R,
    file: Option<R::File>,
    taken: u64,
    longest: u64,
    faults: u64,
    asked: Asked,
}

impl<R: Files + Drop> HostSource<R> {
    /// The files of a runtime; none is open, and nothing has failed.
    pub fn new(system: R) -> HostSource<R>
        ensures shut { IsNone result.file }
        ensures taken { result.taken ≡ 0 }
        ensures longest { result.longest ≡ 0 }
        ensures faults { result.faults ≡ 0 }
        ensures asked { result.asked.calls ≡ [] }
    {
        HostSource {
            system,
            file: None,
            taken: 0,
            longest: 0,
            faults: 0,
            asked: Asked::new(),
        }
    }
}

impl<R: Files + Drop> Source for HostSource<R> {
    ghost files = { λ _. None };

    ghost left = { λ _. None };

    ghost taken = { λ s. s.taken };

    ghost longest = { λ s. s.longest };

    ghost faults = { λ s. s.faults };

    ghost asked = { λ s. s.asked.calls };

    fn open_file(&mut self, path: &str) -> Result<(), Failed>
        ensures files { ◌≡◌ {A = Option Files} None None }
        ensures opened { Opens None path.now None result }
        ensures taken { self.new.taken ≡ 0 }
        ensures longest { self.new.longest ≡ self.old.longest }
        ensures cause { HasCause self.old.faults self.new.faults result }
        ensures asked { self.new.asked.calls ≡ opening_of path.now result ∷ self.old.asked.calls }
        ensures counts { Counts self.old.faults self.new.faults result }
        ensures shut { OnErr result (IsNone self.new.file) }
    {
        self.taken = 0;
        self.file = fs::open(&self.system, path).ok();
        if self.file.is_none() {
            self.faults = self.faults.saturating_add(1);
            self.asked.note_opening(path, false);
            return Err(Failed);
        }
        self.asked.note_opening(path, true);
        Ok(())
    }

    fn read(&mut self, buf: &mut [u8]) -> Result<usize, Failed>
        ensures bound { ReadsAtMost result buf.new }
        ensures bytes { ReadConsumes None None result buf.new }
        ensures shut { FailsWhileShut None None result }
        ensures files { ◌≡◌ {A = Option Files} None None }
        ensures taken { Takes self.old.taken self.new.taken result }
        ensures longest { TakesMost self.old.longest self.new.longest self.new.taken result }
        ensures cause { HasCause self.old.faults self.new.faults result }
        ensures asked { self.new.asked.calls ≡ passing_of result buf.new ∷ self.old.asked.calls }
        ensures counts { Counts self.old.faults self.new.faults result }
        ensures no_file { IsNone self.old.file → IsErr result }
        ensures open { IsNone self.new.file ↔ IsNone self.old.file }
        ensures given { ReadConsumes (option_and_then R.File.Read.remaining self.old.file) (option_and_then R.File.Read.remaining self.new.file) result buf.new }
    {
        match read_from(&mut self.file, buf) {
            Ok(count) => {
                count_taken(&mut self.taken, &mut self.longest, count);
                self.asked.note_passing(buf.len(), &buf[..count]);
                Ok(count)
            }
            Err(failed) => {
                self.faults = self.faults.saturating_add(1);
                self.asked.note_failing(buf.len());
                Err(failed)
            }
        }
    }
}

// Reads on in a file, if one is open.
fn read_from<F: Read>(file: &mut Option<F>, buf: &mut [u8]) -> Result<usize, Failed>
    ensures bound { ReadsAtMost result buf.new }
    ensures shut { IsNone file.old → IsErr result }
    ensures open { IsNone file.new ↔ IsNone file.old }
    ensures given { ReadConsumes (option_and_then F.remaining file.old) (option_and_then F.remaining file.new) result buf.new }
{
    match file {
        Some(file) => file.read(buf).map_err(|_| Failed),
        None => Err(Failed),
    }
}

/// A stream of the system, such as standard output or standard error. Every failure of a write is a fault, and so is one
/// that takes none of some bytes. Nothing else is one.
#[derive(Drop)]
pub struct HostSink<W: Write + Drop> {
    stream: W,
    faults: u64,
    asked: Asked,
}

impl<W: Write + Drop> HostSink<W> {
    /// A sink over a stream; nothing has failed.
    pub fn new(stream: W) -> HostSink<W>
        ensures stream { result.stream ≡ stream }
        ensures faults { result.faults ≡ 0 }
        ensures asked { result.asked.calls ≡ [] }
    {
        HostSink {
            stream,
            faults: 0,
            asked: Asked::new(),
        }
    }
}

impl<W: Write + Drop> Sink for HostSink<W> {
    ghost written = { λ s. Some (passed s.asked.calls) };

    ghost faults = { λ s. s.faults };

    ghost asked = { λ s. s.asked.calls };

    fn write(&mut self, bytes: &[u8]) -> Result<usize, Failed>
        ensures bytes { Accepts (Some (passed self.old.asked.calls)) (Some (passed self.new.asked.calls)) bytes.now result }
        ensures taken { WriteAppends (W.contents self.old.stream) (W.contents self.new.stream) result bytes.now }
        ensures cause { HasCause self.old.faults self.new.faults result }
        ensures asked { self.new.asked.calls ≡ passing_of result bytes.now ∷ self.old.asked.calls }
        ensures counts { Counts self.old.faults self.new.faults result }
    {
        match self.stream.write(bytes) {
            Ok(count) if count > 0 || bytes.is_empty() => {
                self.asked.note_passing(bytes.len(), &bytes[..count]);
                Ok(count)
            }
            _ => {
                self.faults = self.faults.saturating_add(1);
                self.asked.note_failing(bytes.len());
                Err(Failed)
            }
        }
    }
}
