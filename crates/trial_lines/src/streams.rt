//! A source and a sink in memory that note their calls, give and take pieces of sizes, and fail at calls.
ghost use Rattle.std.specs.Prelude.{None};

use crate::case_err::CaseErr;
use m3_outside::{Failed, Passed, Sink, Source};
use std::alloc::Global;
use std::cell::Cell;

// Notes a call: a read is the digit 1, and a write 2.
fn note(calls: &Cell<u64>, digit: u64) {
    calls.set(calls.get().wrapping_mul(10).wrapping_add(digit));
}

/// How many bytes each line has, with its newline: the sizes by which a source gives line by line.
///
/// # Errors
///
/// Want of memory.
pub fn line_sizes(alloc: Global, bytes: &[u8]) -> Result<Vec<u64>, CaseErr> {
    let mut sizes = Vec::new(alloc);
    let mut size: u64 = 0;
    for byte in bytes {
        size = size.saturating_add(1);
        if *byte == b'\n' {
            sizes.push(size)?;
            size = 0;
        }
    }
    sizes.push(size)?;
    Ok(sizes)
}

// How much the call of this number moves at most: the sizes come in turn, and the last one again and again. No size: all.
fn size_at(sizes: &[u64], number: u64) -> usize {
    let last = sizes.last().copied().unwrap_or(u64::MAX);
    let at = usize::try_from(number).unwrap_or(usize::MAX);
    let size = sizes.get(at).copied().unwrap_or(last);
    usize::try_from(size).unwrap_or(usize::MAX).max(1)
}

/// Gives the bytes from `at` on. The calls of `read` are numbered from 0; those with the numbers in `fail` fail, and the others give pieces
/// of these sizes, the last of which stands for all further calls. Without sizes a call gives as much as there is room for.
#[derive(Drop)]
pub struct TrialSource<'a> {
    pub bytes: &'a [u8],
    pub at: usize,
    pub sizes: &'a [u64],
    pub fail: &'a [u64],
    pub reads: u64,
    pub faults: u64,
    pub calls: &'a Cell<u64>,
    pub gave: Passed,
    pub ended: bool,
}

impl Source for TrialSource<'_> {
    ghost left = { λ _. None };

    ghost gave = { λ s. s.gave };

    ghost ended = { λ s. s.ended };

    ghost faulted = { λ s. s.faults };

    fn read(&mut self, buf: &mut [u8]) -> Result<usize, Failed> {
        note(self.calls, 1);
        let number = self.reads;
        self.reads = self.reads.saturating_add(1);
        self.ended = false;
        if self.fail.contains(&number) {
            self.faults = self.faults.saturating_add(1);
            return Err(Failed);
        }
        let left = self.bytes.get(self.at..).unwrap_or(&[]);
        let most = size_at(self.sizes, number);
        let count = most.min(left.len()).min(buf.len());
        buf[..count].copy_from_slice(&left[..count]);
        self.at = self.at.saturating_add(count);
        self.gave.add(&buf[..count]);
        self.ended = count == 0 && !buf.is_empty();
        Ok(count)
    }

    fn faults(&self) -> u64 {
        self.faults
    }
}

/// Takes at most so many bytes a call, and one in any case. The calls of `write` are numbered from 0; those with the numbers in `fail` fail,
/// and so does one for which the memory is missing.
#[derive(Drop)]
pub struct TrialSink<'a> {
    pub bytes: Vec<u8>,
    pub most: usize,
    pub fail: &'a [u64],
    pub writes: u64,
    pub faults: u64,
    pub calls: &'a Cell<u64>,
}

impl Sink for TrialSink<'_> {
    ghost written = { λ _. None };

    ghost took = { λ s. s.bytes.items };

    ghost faulted = { λ s. s.faults };

    ghost stalled = { λ _. 0 };

    fn write(&mut self, bytes: &[u8]) -> Result<usize, Failed> {
        note(self.calls, 2);
        let number = self.writes;
        self.writes = self.writes.saturating_add(1);
        if self.fail.contains(&number) {
            self.faults = self.faults.saturating_add(1);
            return Err(Failed);
        }
        let count = bytes.len().min(self.most.max(1));
        match self.bytes.extend_from_slice(&bytes[..count]) {
            Ok(()) => Ok(count),
            Err(_) => {
                self.faults = self.faults.saturating_add(1);
                Err(Failed)
            }
        }
    }

    fn faults(&self) -> u64 {
        self.faults
    }

    fn stalls(&self) -> u64 {
        0
    }
}
