//! A sink in memory.
ghost use Rattle.std.specs.Prelude.{◌≡◌, ◌∷◌, Some, IfOk};
ghost use Rattle.std.specs.Result.{result_ok};
ghost use Rattle.dwc_cli.specs.Calls.{passing_of};
ghost use Rattle.dwc_cli.specs.Devices.{HasCause, Accepts};

use crate::asked::Asked;
use crate::calls::count_call;
use crate::sink::Sink;
use crate::source::Failed;
use std::alloc::{AllocError, Global};
use std::marker::Model;

/// A sink that keeps what it takes, has so much room and no more, and fails at calls of one's choice.
#[derive(Drop)]
pub struct MemSink {
    taken: Vec<u8>,
    room: usize,
    most: usize,
    failing: Vec<u64>,
    calls: u64,
    faults: u64,
    asked: Asked,
}

impl Model for MemSink {
    ghost use Rattle.std.specs.Prelude.{vec_len, vec_capacity, ◌≤◌};
    ghost use Rattle.dwc_cli.specs.Memory.{MemorySink};

    ghost Value = { MemorySink };

    ghost view = { λ s. record { written = s.taken.items; room = s.room; most = s.most; failing = s.failing.items; calls = s.calls; faults = s.faults; asked = s.asked.calls } };

    ghost invariant = { λ s. (vec_len s.taken ≤ s.room) × (s.room ≤ vec_capacity s.taken) };
}

impl MemSink {
    ghost use Rattle.dwc_cli.specs.Memory.{memory_sink};

    /// A sink with room for `room` bytes in all, of which a call takes at most `most`. The room is reserved here, and never
    /// grows. The calls with the numbers in `failing`, counted from 1, fail.
    pub fn new(
        alloc: Global,
        room: usize,
        most: usize,
        failing: Vec<u64>,
    ) -> Result<MemSink, AllocError>
        ensures { IfOk result (λ sink. sink ≡ memory_sink room most failing.items) }
    {
        let taken = Vec::with_capacity(alloc, room)?;
        Ok(MemSink {
            taken,
            room,
            most,
            failing,
            calls: 0,
            faults: 0,
            asked: Asked::new(),
        })
    }

    /// All bytes taken.
    pub fn bytes(&self) -> &[u8]
        ensures { result.now ≡ self.now.written }
    {
        &self.taken
    }
}

impl Sink for MemSink {
    ghost use Rattle.dwc_cli.specs.Memory.{takes, after_write};

    ghost written = { λ s. Some s.written };

    ghost faults = { λ s. s.faults };

    ghost asked = { λ s. s.asked };

    /// Takes as many bytes as fit. It fails where the call is one that is to fail, or none of some bytes fit.
    fn write(&mut self, bytes: &[u8]) -> Result<usize, Failed>
        ensures bytes { Accepts (Some self.old.written) (Some self.new.written) bytes.now result }
        ensures cause { HasCause self.old.faults self.new.faults result }
        ensures asked { self.new.asked ≡ passing_of result bytes.now ∷ self.old.asked }
        ensures value { self.new ≡ after_write self.old bytes.now }
        ensures takes { result_ok result ≡ takes self.old bytes.now }
    {
        let fails = count_call(&mut self.calls, &self.failing);
        let count = bytes.len().min(self.most).min(self.room - self.taken.len());
        if fails || (!bytes.is_empty() && count == 0) {
            self.faults = self.faults.saturating_add(1);
            self.asked.note_failing(bytes.len());
            return Err(Failed);
        }
        self.taken.extend_from_slice(&bytes[..count]).unwrap();
        self.asked.note_passing(bytes.len(), &bytes[..count]);
        Ok(count)
    }
}
