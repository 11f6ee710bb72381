ghost use Rattle.std.specs.Prelude.{◌≡◌, ◌↔◌, ◌<◌, ◌≤◌, ◌+◌, [], ◌++◌, take, drop, length, min, true, false, Some, Contains, IfOk, IsErr, OnErr};
ghost use Rattle.std.specs.Io.{ReadsAtMost};
ghost use Rattle.std.specs.Io.KnownBytes.{ReadConsumes, IsAtEnd, Keeps};
ghost use Rattle.m3_outside.specs.Causes.{HasCause};
ghost use Rattle.m3_outside.specs.Feed.{feed_after_read, feed_after_fault};
ghost use Rattle.m3_outside.specs.Passing.{passed_front};

use crate::failed::Failed;
use crate::schedule::Schedule;
use crate::source::Source;
use m3_model::Memory;
use std::alloc::Global;
use std::marker::Model;

/// Bytes in memory, as a source. Contracts see it as a `Feed`.
///
/// The calls of `read` are numbered from 0, those that fail included, and exactly the listed ones
/// fail. From number 2^64 - 1 on, each call has that number.
#[derive(Drop)]
pub struct MemSource {
    bytes: Vec<u8>,
    at: usize,
    // the last read gave nothing, though there was room
    ended: bool,
    schedule: Schedule,
}

impl Model for MemSource {
    ghost use Rattle.std.specs.Prelude.{◌≤◌, take, drop, length};
    ghost use Rattle.m3_outside.specs.Feed.{Feed};

    ghost Value = { Feed };

    ghost view = { λ s. record {
      gave = take s.at s.bytes.items;
      left = drop s.at s.bytes.items;
      ended = s.ended;
      fail = s.schedule.fail.items;
      calls = s.schedule.calls;
      faults = s.schedule.faults;
    } };

    ghost invariant = { λ s. s.at ≤ length s.bytes.items };
}

impl MemSource {
    /// A source of a copy of these bytes, whose calls with these numbers fail, in any order.
    ///
    /// # Errors
    ///
    /// Want of memory.
    pub fn new(alloc: Global, bytes: &[u8], fail: &[u64]) -> Result<MemSource, Memory>
        ensures { IfOk result (λ source. source ≡ record { gave = []; left = bytes.now; ended = false; fail = fail.now; calls = 0; faults = 0 }) }
    {
        Ok(MemSource {
            bytes: Vec::from_slice(alloc, bytes)?,
            at: 0,
            ended: false,
            schedule: Schedule::new(alloc, fail)?,
        })
    }
}

impl Source for MemSource {
    ghost left = { λ s. Some s.left };

    ghost gave = { λ s. s.gave };

    ghost ended = { λ s. s.ended };

    ghost faulted = { λ s. s.faults };

    /// Takes as much as there is room for. Costs in proportion to what it takes, and to the list of
    /// the calls that fail.
    fn read(&mut self, buf: &mut [u8]) -> Result<usize, Failed>
        // As of every source.
        ensures bound { ReadsAtMost result buf.new }
        ensures bytes { ReadConsumes (Some self.old.left) (Some self.new.left) result buf.new }
        ensures gave { self.new.gave ≡ self.old.gave ++ passed_front result buf.new }
        ensures end { result ≡ Ok 0 → 0 < length buf.new → IsAtEnd (Some self.new.left) }
        ensures ended { self.new.ended ≡ true ↔ ((result ≡ Ok 0) × (0 < length buf.new)) }
        ensures failed_takes_nothing { OnErr result (Keeps (Some self.old.left) (Some self.new.left)) }
        ensures cause { HasCause self.old.faults self.new.faults result }

        // It fails exactly as listed.
        ensures listed { IsErr result ↔ Contains self.old.fail self.old.calls }

        // What it gives, and what is left of it and of the buffer.
        ensures count { IfOk result (λ count. count ≡ min (length buf.old) (length self.old.left)) }
        ensures given { IfOk result (λ count. buf.new ≡ take count self.old.left ++ drop count buf.old) }
        ensures taken { IfOk result (λ count. self.new ≡ feed_after_read self.old count self.new.ended) }
        ensures failed { OnErr result (self.new ≡ feed_after_fault self.old) }
        ensures untouched { OnErr result (buf.new ≡ buf.old) }
    {
        if self.schedule.next_fails() {
            self.ended = false;
            return Err(Failed);
        }
        let count = copy_from(self.bytes.as_slice(), self.at, buf);
        self.at += count;
        self.ended = count == 0 && !buf.is_empty();
        Ok(count)
    }

    fn faults(&self) -> u64 {
        self.schedule.faults
    }
}

// Copies as much as there is room for from this offset on.
fn copy_from(bytes: &[u8], at: usize, buf: &mut [u8]) -> usize
    requires { at ≤ length bytes.now }
    ensures within { at + result ≤ length bytes.now }
    ensures count { result ≡ min (length buf.old) (length (drop at bytes.now)) }
    ensures given { buf.new ≡ take result (drop at bytes.now) ++ drop result buf.old }
    ensures passed { take (at + result) bytes.now ≡ take at bytes.now ++ take result buf.new }
    ensures bytes { drop at bytes.now ≡ take result buf.new ++ drop (at + result) bytes.now }
    ensures end { result ≡ 0 → 0 < length buf.new → drop (at + result) bytes.now ≡ [] }
{
    let count = (bytes.len() - at).min(buf.len());
    buf[..count].copy_from_slice(&bytes[at..at + count]);
    count
}
