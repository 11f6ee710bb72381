ghost use Rattle.std.specs.Prelude.{◌≡◌, IfOk, IsTrue, None};
ghost use Rattle.m3_outside.specs.Causes.{CountsFaults};
ghost use Rattle.mem_disk.specs.Calls.{is_listed, fails_next, calls_after, calls_after_restart};

use m3_model::Memory;
use std::alloc::Global;
use std::marker::Model;

// Which calls of a disk in memory fail, how many came, and how many of them failed. Contracts see it as `Calls`.
#[derive(Drop)]
pub struct Schedule {
    fail: Vec<u64>,
    fuse: Option<u64>,
    calls: u64,
    faults: u64,
}

impl Model for Schedule {
    ghost use Rattle.mem_disk.specs.Calls.{Calls};

    ghost Value = { Calls };

    ghost view = { λ s. record { fail = s.fail.items; fuse = s.fuse; calls = s.calls; faults = s.faults } };
}

impl Schedule {
    pub fn new(alloc: Global, fail: &[u64], fuse: Option<u64>) -> Result<Schedule, Memory>
        ensures { IfOk result (λ s. s ≡ record { fail = fail.now; fuse = fuse; calls = 0; faults = 0 }) }
    {
        Ok(Schedule {
            fail: Vec::from_slice(alloc, fail)?,
            fuse,
            calls: 0,
            faults: 0,
        })
    }

    // Counts a call other than a restart, and says whether it is to fail.
    pub fn next_fails(&mut self) -> bool
        ensures value { result ≡ fails_next self.old }
        ensures after { self.new ≡ calls_after self.old }
        ensures cause { CountsFaults (IsTrue result) self.old.faults self.new.faults }
    {
        let listed = !self.fail.is_empty() && self.fail.contains(&self.calls);
        let fails = listed || self.fuse == Some(0);
        self.calls = self.calls.saturating_add(1);
        if fails {
            self.faults = self.faults.saturating_add(1);
        } else if let Some(left) = self.fuse {
            self.fuse = Some(left - 1);
        }
        fails
    }

    // Counts a restart, and says whether it is to fail.
    pub fn next_restart_fails(&mut self) -> bool
        ensures value { result ≡ is_listed self.old }
        ensures after { self.new ≡ calls_after_restart self.old }
        ensures cause { CountsFaults (IsTrue result) self.old.faults self.new.faults }
    {
        let fails = self.fail.contains(&self.calls);
        self.calls = self.calls.saturating_add(1);
        if fails {
            self.faults = self.faults.saturating_add(1);
        }
        fails
    }

    pub fn take_fuse_out(&mut self)
        ensures { self.new ≡ record self.old { fuse = None } }
    {
        self.fuse = None;
    }

    pub fn faults(&self) -> u64
        ensures { result ≡ self.now.faults }
    {
        self.faults
    }
}
