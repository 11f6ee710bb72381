ghost use Rattle.std.specs.Prelude.{◌≡◌, ◌<◌, [], ◌++◌, None, length, IfOk, OnOk, OnErr};
ghost use Rattle.std.specs.Io.{WritesAtMost};
ghost use Rattle.m3_outside.specs.Causes.{HasCause, CountsStalls, count_after};
ghost use Rattle.m3_outside.specs.Passing.{passed_front};

use m3_outside::{Failed, Passed, Sink};
use std::io::{self, Write};
use std::marker::Model;

/// The standard output of a runtime. Contracts see it as the bytes that it took, and its counts of faults and stalls.
///
/// Each call of `write` asks the system once, and nothing is held back, so no flush is needed.
#[derive(Drop)]
pub struct StdSink<R> {
    rt: R,
    took: Passed,
    faults: u64,
    stalls: u64,
}

impl<R> Model for StdSink<R> {
    ghost use Rattle.host_edge.specs.Streams.{SinkState};

    ghost Value = { SinkState };

    ghost view = { λ s. record { took = s.took; faults = s.faults; stalls = s.stalls } };
}

impl<R: Print> StdSink<R> {
    /// The standard output of this runtime, which took nothing so far, with counts of 0.
    pub fn new(rt: R) -> StdSink<R>
        ensures { result ≡ record { took = []; faults = 0; stalls = 0 } }
    {
        StdSink {
            rt,
            took: Passed::new(),
            faults: 0,
            stalls: 0,
        }
    }
}

impl<R: Print> Sink for StdSink<R> {
    ghost written = { λ _. None };

    ghost took = { λ s. s.took };

    ghost faulted = { λ s. s.faults };

    ghost stalled = { λ s. s.stalls };

    fn write(&mut self, bytes: &[u8]) -> Result<usize, Failed>
        // As of every sink. It doesn't tell what was written.
        ensures bound { WritesAtMost result bytes.now }
        ensures took { self.new.took ≡ self.old.took ++ passed_front result bytes.now }
        ensures cause { HasCause self.old.faults self.new.faults result }
        ensures stall { CountsStalls self.old.stalls self.new.stalls result bytes.now }

        // A count rises exactly where it has to.
        ensures no_fault { OnOk result (self.new.faults ≡ self.old.faults) }
        ensures some { IfOk result (λ count. 0 < count → self.new.stalls ≡ self.old.stalls) }
        ensures empty { OnOk result (bytes.now ≡ [] → self.new.stalls ≡ self.old.stalls) }
        ensures stalled { result ≡ Ok 0 → 0 < length bytes.now → self.new.stalls ≡ count_after self.old.stalls }
        ensures failed { OnErr result (self.new ≡ record self.old { faults = count_after self.old.faults }) }
    {
        match io::writer(&self.rt).write(bytes) {
            Ok(count) => {
                if count == 0 && !bytes.is_empty() {
                    self.stalls = self.stalls.saturating_add(1);
                }
                self.took.add(&bytes[..count]);
                Ok(count)
            }
            Err(_) => {
                self.faults = self.faults.saturating_add(1);
                Err(Failed)
            }
        }
    }

    fn faults(&self) -> u64 {
        self.faults
    }

    fn stalls(&self) -> u64 {
        self.stalls
    }
}
