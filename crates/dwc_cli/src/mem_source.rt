//! A source in memory.
ghost use Rattle.std.specs.Prelude.{◌≡◌, ◌↔◌, ◌∷◌, map, length, Some, None, IsOk, IsSome, IsNone, if◌then◌else◌};
ghost use Rattle.std.specs.Io.{ReadsAtMost};
ghost use Rattle.std.specs.Io.KnownBytes.{ReadConsumes};
ghost use Rattle.std.specs.Ordering.{nat_cmp};
ghost use Rattle.std.specs.Cmp.Lexicographic.{slice_cmp};
ghost use Rattle.std.specs.FinMap as finite;
ghost use Rattle.dwc_cli.specs.Calls.{opening_of, passing_of};
ghost use Rattle.dwc_cli.specs.Devices.{HasCause, Takes, TakesMost, Opens, FailsWhileShut};
ghost use Rattle.dwc_cli.specs.Memory.{file_entry, files_of, left_of, GivesFront};

use crate::asked::Asked;
use crate::calls::{count_call, count_taken};
use crate::memory_files::{give, open_at};
use crate::opened::Opened;
use crate::source::{Failed, Source};
use std::marker::Model;

/// A source whose files are in memory, and that fails at calls of one's choice. A read gives as many bytes as there are
/// left and fit the buffer.
#[derive(Drop)]
pub struct MemSource {
    files: Vec<(String, Vec<u8>)>,
    failing: Vec<u64>,
    opened: Option<Opened>,
    taken: u64,
    longest: u64,
    calls: u64,
    faults: u64,
    asked: Asked,
}

impl Model for MemSource {
    ghost use Rattle.std.specs.Prelude.{map};
    ghost use Rattle.dwc_cli.specs.Memory.{MemorySource, file_entry, left_of};

    ghost Value = { MemorySource };

    ghost view = { λ s. record { files = map file_entry s.files.items; failing = s.failing.items; left = left_of s.files.items s.opened; taken = s.taken; longest = s.longest; calls = s.calls; faults = s.faults; asked = s.asked.calls } };
}

impl MemSource {
    ghost use Rattle.dwc_cli.specs.Memory.{memory_source};

    /// A source of these files, each a path and its bytes; of two equal paths the first counts. The calls with the numbers
    /// in `failing`, counted from 1, fail.
    pub fn new(files: Vec<(String, Vec<u8>)>, failing: Vec<u64>) -> MemSource
        ensures value { result ≡ memory_source (map file_entry files.items) failing.items }
        ensures files { ⟦<MemSource as Source>⟧.files result ≡ Some (files_of (map file_entry files.items)) }
    {
        MemSource {
            files,
            failing,
            opened: None,
            taken: 0,
            longest: 0,
            calls: 0,
            faults: 0,
            asked: Asked::new(),
        }
    }
}

impl Source for MemSource {
    ghost use Rattle.dwc_cli.specs.Memory.{opens, after_open, reads_from, after_read};

    ghost files = { λ s. Some (files_of s.files) };

    ghost left = { λ s. s.left };

    ghost taken = { λ s. s.taken };

    ghost longest = { λ s. s.longest };

    ghost faults = { λ s. s.faults };

    ghost asked = { λ s. s.asked };

    /// Opens the first file with the path. It fails where the call is one that is to fail, or no file has the path.
    #[tactic(auto, using(crate::proofs::MemoryFiles::found))]
    fn open_file(&mut self, path: &str) -> Result<(), Failed>
        ensures files { Some (files_of self.new.files) ≡ Some (files_of self.old.files) }
        ensures opened { Opens (Some (files_of self.old.files)) path.now self.new.left result }
        ensures taken { self.new.taken ≡ 0 }
        ensures longest { self.new.longest ≡ self.old.longest }
        ensures cause { HasCause self.old.faults self.new.faults result }
        ensures asked { self.new.asked ≡ opening_of path.now result ∷ self.old.asked }
        ensures value { self.new ≡ after_open self.old path.now }
        ensures opens { IsOk result ↔ IsSome (opens self.old path.now) }
    {
        let fails = count_call(&mut self.calls, &self.failing);
        self.opened = opening(fails, &self.files, path);
        self.taken = 0;
        if self.opened.is_none() {
            self.faults = self.faults.saturating_add(1);
            self.asked.note_opening(path, false);
            return Err(Failed);
        }
        self.asked.note_opening(path, true);
        Ok(())
    }

    /// Reads on in the opened file. It fails where the call is one that is to fail, or no file is open.
    fn read(&mut self, buf: &mut [u8]) -> Result<usize, Failed>
        ensures bound { ReadsAtMost result buf.new }
        ensures bytes { ReadConsumes self.old.left self.new.left result buf.new }
        ensures shut { FailsWhileShut (Some (files_of self.old.files)) self.old.left result }
        ensures files { Some (files_of self.new.files) ≡ Some (files_of self.old.files) }
        ensures taken { Takes self.old.taken self.new.taken result }
        ensures longest { TakesMost self.old.longest self.new.longest self.new.taken result }
        ensures cause { HasCause self.old.faults self.new.faults result }
        ensures asked { self.new.asked ≡ passing_of result buf.new ∷ self.old.asked }
        ensures value { self.new ≡ after_read self.old (length buf.old) }
        ensures reads { IsOk result ↔ IsSome (reads_from self.old) }
    {
        let fails = count_call(&mut self.calls, &self.failing);
        let Some(count) = giving(fails, &self.files, &mut self.opened, buf) else {
            self.faults = self.faults.saturating_add(1);
            self.asked.note_failing(buf.len());
            return Err(Failed);
        };
        count_taken(&mut self.taken, &mut self.longest, count);
        self.asked.note_passing(buf.len(), &buf[..count]);
        Ok(count)
    }
}

// The file that a call opens: none where it is to fail.
fn opening(fails: bool, files: &[(String, Vec<u8>)], path: &str) -> Option<Opened>
    ensures left { left_of files.now result ≡ (if fails then None else finite.find (slice_cmp nat_cmp) path.now (map file_entry files.now)) }
    ensures none { IsNone result ↔ IsNone (left_of files.now result) }
{
    if fails {
        return None;
    }
    open_at(files, path)
}

// What a read gives. None where the call is to fail or no file is open.
fn giving(
    fails: bool,
    files: &[(String, Vec<u8>)],
    opened: &mut Option<Opened>,
    buf: &mut [u8],
) -> Option<usize>
    ensures { GivesFront (if fails then None else left_of files.now opened.old) (left_of files.now opened.old) (left_of files.now opened.new) buf.new result }
{
    if fails {
        return None;
    }
    give(files, opened, buf)
}
