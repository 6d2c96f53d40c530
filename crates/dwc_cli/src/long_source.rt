//! A source of files as long as one likes.
ghost use Rattle.std.specs.Prelude.{◌≡◌, ◌↔◌, ℕ, List, ◌∷◌, min, take, length, replicate, Option, None, IsOk, IsSome};
ghost use Rattle.std.specs.Io.{ReadsAtMost};
ghost use Rattle.std.specs.Io.KnownBytes.{ReadConsumes};
ghost use Rattle.dwc_cli.specs.Calls.{opening_of, passing_of};
ghost use Rattle.dwc_cli.specs.Devices.{HasCause, Takes, TakesMost, Opens, FailsWhileShut};
ghost use Rattle.dwc_cli.specs.RunStatus.{Files};
ghost use Rattle.dwc_cli.specs.Memory.{zeros_left};

use crate::asked::Asked;
use crate::calls::count_taken;
use crate::source::{Failed, Source};
use std::marker::Model;

/// A source of which every path is a file of so many zero bytes. It tells no files.
#[derive(Drop)]
pub struct LongSource {
    file_length: u64,
    zeros: Option<u64>,
    taken: u64,
    longest: u64,
    faults: u64,
    asked: Asked,
}

impl Model for LongSource {
    ghost use Rattle.dwc_cli.specs.Memory.{LongFiles};

    ghost Value = { LongFiles };

    ghost view = { λ s. record { file_length = s.file_length; zeros = s.zeros; taken = s.taken; longest = s.longest; faults = s.faults; asked = s.asked.calls } };
}

impl LongSource {
    ghost use Rattle.dwc_cli.specs.Memory.{long_files};

    /// A source whose files have `length` bytes each.
    pub fn new(length: u64) -> LongSource
        ensures { result ≡ long_files length }
    {
        LongSource {
            file_length: length,
            zeros: None,
            taken: 0,
            longest: 0,
            faults: 0,
            asked: Asked::new(),
        }
    }
}

impl Source for LongSource {
    ghost use Rattle.dwc_cli.specs.Memory.{after_long_open, after_long_read};

    ghost files = { λ _. None };

    ghost left = { λ s. zeros_left s.zeros };

    ghost taken = { λ s. s.taken };

    ghost longest = { λ s. s.longest };

    ghost faults = { λ s. s.faults };

    ghost asked = { λ s. s.asked };

    /// Opens a file of zero bytes, whatever the path. It does not fail.
    fn open_file(&mut self, path: &str) -> Result<(), Failed>
        ensures files { ◌≡◌ {A = Option Files} None None }
        ensures opened { Opens None path.now (zeros_left self.new.zeros) result }
        ensures taken { self.new.taken ≡ 0 }
        ensures longest { self.new.longest ≡ self.old.longest }
        ensures cause { HasCause self.old.faults self.new.faults result }
        ensures asked { self.new.asked ≡ opening_of path.now result ∷ self.old.asked }
        ensures value { self.new ≡ after_long_open self.old path.now }
        ensures opens { IsOk result }
    {
        self.zeros = Some(self.file_length);
        self.taken = 0;
        self.asked.note_opening(path, true);
        Ok(())
    }

    /// Reads on in the opened file. It fails where no file is open.
    fn read(&mut self, buf: &mut [u8]) -> Result<usize, Failed>
        ensures bound { ReadsAtMost result buf.new }
        ensures bytes { ReadConsumes (zeros_left self.old.zeros) (zeros_left self.new.zeros) result buf.new }
        ensures shut { FailsWhileShut None (zeros_left self.old.zeros) result }
        ensures files { ◌≡◌ {A = Option Files} None None }
        ensures taken { Takes self.old.taken self.new.taken result }
        ensures longest { TakesMost self.old.longest self.new.longest self.new.taken result }
        ensures cause { HasCause self.old.faults self.new.faults result }
        ensures asked { self.new.asked ≡ passing_of result buf.new ∷ self.old.asked }
        ensures value { self.new ≡ after_long_read self.old (length buf.old) }
        ensures reads { IsOk result ↔ IsSome self.old.zeros }
    {
        let Some(zeros) = self.zeros else {
            self.faults = self.faults.saturating_add(1);
            self.asked.note_failing(buf.len());
            return Err(Failed);
        };
        let count = fill_zeros(zeros, buf);
        self.zeros = Some(zeros - count as u64);
        count_taken(&mut self.taken, &mut self.longest, count);
        self.asked.note_passing(buf.len(), &buf[..count]);
        Ok(count)
    }
}

// Fills the front of a buffer with zeros, at most so many, and tells how many.
fn fill_zeros(most: u64, buf: &mut [u8]) -> usize
    ensures count { result ≡ min (length buf.old) most }
    ensures zeros { take result buf.new ≡ replicate result 0 }
{
    let count = (buf.len() as u64).min(most) as usize;
    buf[..count].fill(0);
    count
}
