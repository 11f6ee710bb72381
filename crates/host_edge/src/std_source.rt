ghost use Rattle.std.specs.Prelude.{◌≡◌, ◌↔◌, ◌<◌, [], ◌++◌, length, true, false, None, OnOk, OnErr};
ghost use Rattle.std.specs.Io.{ReadsAtMost};
ghost use Rattle.m3_outside.specs.Causes.{HasCause, count_after};
ghost use Rattle.m3_outside.specs.Passing.{passed_front};

use m3_outside::{Failed, Passed, Source};
use std::io::Read;
use std::marker::Model;

/// The standard input of a runtime. Contracts see it as the bytes that it gave, whether the last read found none, and its count of faults.
///
/// Each call of `read` asks the system once, for as many bytes as the buffer has room for, and
/// holds none back: of a pipe it takes what is there. A call that is interrupted fails.
#[derive(Drop)]
pub struct StdSource<R> {
    rt: R,
    gave: Passed,
    ended: bool,
    faults: u64,
}

impl<R> Model for StdSource<R> {
    ghost use Rattle.host_edge.specs.Streams.{SourceState};

    ghost Value = { SourceState };

    ghost view = { λ s. record { gave = s.gave; ended = s.ended; faults = s.faults } };
}

impl<R: Input> StdSource<R> {
    /// The standard input of this runtime, which gave nothing so far, with a count of 0.
    pub fn new(rt: R) -> StdSource<R>
        ensures { result ≡ record { gave = []; ended = false; faults = 0 } }
    {
        StdSource {
            rt,
            gave: Passed::new(),
            ended: false,
            faults: 0,
        }
    }
}

impl<R: Input> Source for StdSource<R> {
    ghost left = { λ _. None };

    ghost gave = { λ s. s.gave };

    ghost ended = { λ s. s.ended };

    ghost faulted = { λ s. s.faults };

    fn read(&mut self, buf: &mut [u8]) -> Result<usize, Failed>
        // As of every source. It doesn't tell what is left.
        ensures bound { ReadsAtMost result buf.new }
        ensures gave { self.new.gave ≡ self.old.gave ++ passed_front result buf.new }
        ensures ended { self.new.ended ≡ true ↔ ((result ≡ Ok 0) × (0 < length buf.new)) }
        ensures cause { HasCause self.old.faults self.new.faults result }

        // The count rises exactly where it fails.
        ensures no_fault { OnOk result (self.new.faults ≡ self.old.faults) }
        ensures failed { OnErr result (self.new ≡ record self.old { ended = false; faults = count_after self.old.faults }) }
    {
        match self.rt.reader().read(buf) {
            Ok(count) => {
                self.gave.add(&buf[..count]);
                self.ended = count == 0 && !buf.is_empty();
                Ok(count)
            }
            Err(_) => {
                self.ended = false;
                self.faults = self.faults.saturating_add(1);
                Err(Failed)
            }
        }
    }

    fn faults(&self) -> u64 {
        self.faults
    }
}
