//! A source in memory that fails only where it must.
ghost use Rattle.std.specs.Prelude.{◌≡◌, ◌↔◌, ◌∷◌, map, length, Some, IsOk, IsSome};
ghost use Rattle.std.specs.Io.{ReadsAtMost};
ghost use Rattle.std.specs.Io.KnownBytes.{ReadConsumes};
ghost use Rattle.dwc_cli.specs.Calls.{opening_of, passing_of};
ghost use Rattle.dwc_cli.specs.Devices.{HasCause, Takes, TakesMost, Opens, FailsWhileShut};
ghost use Rattle.dwc_cli.specs.Memory.{file_entry, files_of, left_of};

use crate::asked::Asked;
use crate::calls::count_taken;
use crate::memory_files::{give, open_at};
use crate::opened::Opened;
use crate::source::{Failed, Source};
use std::marker::Model;

/// A source whose files are in memory. A read gives as many bytes as there are left and fit the buffer.
#[derive(Drop)]
pub struct PlainSource {
    files: Vec<(String, Vec<u8>)>,
    opened: Option<Opened>,
    taken: u64,
    longest: u64,
    faults: u64,
    asked: Asked,
}

impl Model for PlainSource {
    ghost use Rattle.std.specs.Prelude.{map};
    ghost use Rattle.dwc_cli.specs.Memory.{PlainFiles, file_entry, left_of};

    ghost Value = { PlainFiles };

    ghost view = { λ s. record { files = map file_entry s.files.items; left = left_of s.files.items s.opened; taken = s.taken; longest = s.longest; faults = s.faults; asked = s.asked.calls } };
}

impl PlainSource {
    ghost use Rattle.dwc_cli.specs.Memory.{plain_files};

    /// A source of these files, each a path and its bytes; of two equal paths the first counts.
    pub fn new(files: Vec<(String, Vec<u8>)>) -> PlainSource
        ensures value { result ≡ plain_files (map file_entry files.items) }
        ensures files { ⟦<PlainSource as Source>⟧.files result ≡ Some (files_of (map file_entry files.items)) }
    {
        PlainSource {
            files,
            opened: None,
            taken: 0,
            longest: 0,
            faults: 0,
            asked: Asked::new(),
        }
    }
}

impl Source for PlainSource {
    ghost use Rattle.dwc_cli.specs.Memory.{plain_bytes, after_plain_open, after_plain_read};

    ghost files = { λ s. Some (files_of s.files) };

    ghost left = { λ s. s.left };

    ghost taken = { λ s. s.taken };

    ghost longest = { λ s. s.longest };

    ghost faults = { λ s. s.faults };

    ghost asked = { λ s. s.asked };

    /// Opens the first file with the path. It fails where no file has the path.
    #[tactic(auto, using(crate::proofs::MemoryFiles::found))]
    fn open_file(&mut self, path: &str) -> Result<(), Failed>
        ensures files { Some (files_of self.new.files) ≡ Some (files_of self.old.files) }
        ensures opened { Opens (Some (files_of self.old.files)) path.now self.new.left result }
        ensures taken { self.new.taken ≡ 0 }
        ensures longest { self.new.longest ≡ self.old.longest }
        ensures cause { HasCause self.old.faults self.new.faults result }
        ensures asked { self.new.asked ≡ opening_of path.now result ∷ self.old.asked }
        ensures value { self.new ≡ after_plain_open self.old path.now }
        ensures opens { IsOk result ↔ IsSome (plain_bytes self.old path.now) }
    {
        self.opened = open_at(&self.files, path);
        self.taken = 0;
        if self.opened.is_none() {
            self.faults = self.faults.saturating_add(1);
            self.asked.note_opening(path, false);
            return Err(Failed);
        }
        self.asked.note_opening(path, true);
        Ok(())
    }

    /// Reads on in the opened file. It fails where no file is open.
    fn read(&mut self, buf: &mut [u8]) -> Result<usize, Failed>
        ensures bound { ReadsAtMost result buf.new }
        ensures bytes { ReadConsumes self.old.left self.new.left result buf.new }
        ensures shut { FailsWhileShut (Some (files_of self.old.files)) self.old.left result }
        ensures files { Some (files_of self.new.files) ≡ Some (files_of self.old.files) }
        ensures taken { Takes self.old.taken self.new.taken result }
        ensures longest { TakesMost self.old.longest self.new.longest self.new.taken result }
        ensures cause { HasCause self.old.faults self.new.faults result }
        ensures asked { self.new.asked ≡ passing_of result buf.new ∷ self.old.asked }
        ensures value { self.new ≡ after_plain_read self.old (length buf.old) }
        ensures reads { IsOk result ↔ IsSome self.old.left }
    {
        let Some(count) = give(&self.files, &mut self.opened, buf) else {
            self.faults = self.faults.saturating_add(1);
            self.asked.note_failing(buf.len());
            return Err(Failed);
        };
        count_taken(&mut self.taken, &mut self.longest, count);
        self.asked.note_passing(buf.len(), &buf[..count]);
        Ok(count)
    }
}
