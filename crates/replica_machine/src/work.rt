//! What a machine has done since it was made.
ghost use Rattle.std.specs.Prelude.{◌≡◌};
ghost use Rattle.replica_machine.specs.Works.{with_flush, with_merge, no_work, with_snapshot, with_tick, work_after};

/// How many ticks, flushes and snapshots a machine has answered with a number since it was made, and the sum of all numbers that
/// these and its merges answered; each modulo 2^64.
#[derive(Clone, Copy, Debug, PartialEq, Eq)]
pub struct Work {
    pub ticks: u64,
    pub flushes: u64,
    pub snapshots: u64,
    pub sum: u64,
}

impl Work {
    pub(crate) fn none() -> Work
        ensures { result ≡ no_work }
    {
        Work {
            ticks: 0,
            flushes: 0,
            snapshots: 0,
            sum: 0,
        }
    }

    pub(crate) fn note_tick<E>(&mut self, said: &Result<u64, E>)
        ensures { self.new ≡ work_after with_tick said.now self.old }
    {
        if let Ok(n) = said {
            self.ticks = self.ticks.wrapping_add(1);
            self.sum = self.sum.wrapping_add(*n);
        }
    }

    pub(crate) fn note_flush<E>(&mut self, said: &Result<u64, E>)
        ensures { self.new ≡ work_after with_flush said.now self.old }
    {
        if let Ok(n) = said {
            self.flushes = self.flushes.wrapping_add(1);
            self.sum = self.sum.wrapping_add(*n);
        }
    }

    pub(crate) fn note_snapshot<E>(&mut self, said: &Result<u64, E>)
        ensures { self.new ≡ work_after with_snapshot said.now self.old }
    {
        if let Ok(n) = said {
            self.snapshots = self.snapshots.wrapping_add(1);
            self.sum = self.sum.wrapping_add(*n);
        }
    }

    pub(crate) fn note_merge<E>(&mut self, said: &Result<u64, E>)
        ensures { self.new ≡ work_after with_merge said.now self.old }
    {
        if let Ok(n) = said {
            self.sum = self.sum.wrapping_add(*n);
        }
    }
}
