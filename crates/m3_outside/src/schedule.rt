ghost use Rattle.std.specs.Prelude.{◌≡◌, ◌↔◌, ◌≤◌, if◌then◌else◌, Contains, IfOk, IsTrue};
ghost use Rattle.m3_outside.specs.Causes.{count_after};

use m3_model::Memory;
use std::alloc::Global;

// Which calls of an object in memory fail, how many came, and how many of them failed.
#[derive(Drop)]
pub struct Schedule {
    pub fail: Vec<u64>,
    pub calls: u64,
    pub faults: u64,
}

impl Schedule {
    pub fn new(alloc: Global, fail: &[u64]) -> Result<Schedule, Memory>
        ensures fail { IfOk result (λ s. s.fail.items ≡ fail.now) }
        ensures calls { IfOk result (λ s. s.calls ≡ 0) }
        ensures faults { IfOk result (λ s. s.faults ≡ 0) }
    {
        Ok(Schedule {
            fail: Vec::from_slice(alloc, fail)?,
            calls: 0,
            faults: 0,
        })
    }

    // Counts a call, and says whether it is to fail.
    pub fn next_fails(&mut self) -> bool
        ensures listed { IsTrue result ↔ Contains self.old.fail.items self.old.calls }
        ensures fail { self.new.fail ≡ self.old.fail }
        ensures calls { self.new.calls ≡ count_after self.old.calls }
        ensures faults { self.new.faults ≡ (if result then count_after self.old.faults else self.old.faults) }
        ensures later { self.old.faults ≤ self.new.faults }
    {
        let call = self.calls;
        self.calls = call.saturating_add(1);
        let listed = self.fail.contains(&call);
        if listed {
            self.faults = self.faults.saturating_add(1);
        }
        listed
    }
}
