ghost use Rattle.std.specs.Prelude.{◌≡◌, ◌↔◌, ◌<◌, [], ◌++◌, length, Some, Contains, IfOk, IsErr, OnErr};
ghost use Rattle.std.specs.Io.{WritesAtMost};
ghost use Rattle.std.specs.Io.KnownBytes.{WriteAppends, Keeps};
ghost use Rattle.m3_outside.specs.Causes.{HasCause, CountsStalls};
ghost use Rattle.m3_outside.specs.Intake.{intake_after_write, intake_after_stall, intake_after_fault};
ghost use Rattle.m3_outside.specs.Passing.{passed_front};

use crate::failed::Failed;
use crate::schedule::Schedule;
use crate::sink::Sink;
use m3_model::Memory;
use std::alloc::Global;
use std::marker::Model;

/// A sink in memory. Contracts see it as an `Intake`.
///
/// The calls of `write` are numbered from 0, those that fail included, and exactly the listed ones
/// fail. From number 2^64 - 1 on, each call has that number. The sink takes a piece whole, or
/// nothing of it where it can't get the memory to grow, and then counts a stall.
#[derive(Drop)]
pub struct MemSink {
    bytes: Vec<u8>,
    schedule: Schedule,
    stalls: u64,
}

impl Model for MemSink {
    ghost use Rattle.m3_outside.specs.Intake.{Intake};

    ghost Value = { Intake };

    ghost view = { λ s. record {
      written = s.bytes.items;
      fail = s.schedule.fail.items;
      calls = s.schedule.calls;
      faults = s.schedule.faults;
      stalls = s.stalls;
    } };
}

impl MemSink {
    /// An empty sink, whose calls with these numbers fail, in any order.
    ///
    /// # Errors
    ///
    /// Want of memory.
    pub fn new(alloc: Global, fail: &[u64]) -> Result<MemSink, Memory>
        ensures { IfOk result (λ sink. sink ≡ record { written = []; fail = fail.now; calls = 0; faults = 0; stalls = 0 }) }
    {
        Ok(MemSink {
            bytes: Vec::new(alloc),
            schedule: Schedule::new(alloc, fail)?,
            stalls: 0,
        })
    }

    /// All bytes that were written, in order.
    pub fn bytes(&self) -> &[u8]
        ensures { result.now ≡ self.now.written }
    {
        self.bytes.as_slice()
    }
}

impl Sink for MemSink {
    ghost written = { λ s. Some s.written };

    ghost took = { λ s. s.written };

    ghost faulted = { λ s. s.faults };

    ghost stalled = { λ s. s.stalls };

    /// Takes the whole piece, or nothing where memory is wanted. Costs in proportion to the piece,
    /// taken over all calls, and to the list of the calls that fail.
    fn write(&mut self, bytes: &[u8]) -> Result<usize, Failed>
        // As of every sink.
        ensures bound { WritesAtMost result bytes.now }
        ensures bytes { WriteAppends (Some self.old.written) (Some self.new.written) result bytes.now }
        ensures took { self.new.written ≡ self.old.written ++ passed_front result bytes.now }
        ensures failed_writes_nothing { OnErr result (Keeps (Some self.old.written) (Some self.new.written)) }
        ensures cause { HasCause self.old.faults self.new.faults result }
        ensures stall { CountsStalls self.old.stalls self.new.stalls result bytes.now }

        // It fails exactly as listed.
        ensures listed { IsErr result ↔ Contains self.old.fail self.old.calls }

        // What it takes, and what is written then.
        ensures whole_or_nothing { IfOk result (λ count. 0 < count → count ≡ length bytes.now) }
        ensures whole { result ≡ Ok (length bytes.now) → self.new ≡ intake_after_write self.old bytes.now }
        ensures nothing { result ≡ Ok 0 → 0 < length bytes.now → self.new ≡ intake_after_stall self.old }
        ensures failed { OnErr result (self.new ≡ intake_after_fault self.old) }
    {
        if self.schedule.next_fails() {
            return Err(Failed);
        }
        match self.bytes.extend_from_slice(bytes) {
            Ok(()) => Ok(bytes.len()),
            Err(_) => {
                self.stalls = self.stalls.saturating_add(1);
                Ok(0)
            }
        }
    }

    fn faults(&self) -> u64 {
        self.schedule.faults
    }

    fn stalls(&self) -> u64 {
        self.stalls
    }
}
