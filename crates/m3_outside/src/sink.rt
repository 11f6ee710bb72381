ghost use Rattle.std.specs.Prelude.{◌≡◌, ◌++◌, ℕ, List, Option, OnErr};
ghost use Rattle.std.specs.Io.{WritesAtMost};
ghost use Rattle.std.specs.Io.KnownBytes.{WriteAppends, Keeps};
ghost use Rattle.m3_outside.specs.Causes.{HasCause, CountsStalls};
ghost use Rattle.m3_outside.specs.Passing.{passed_front};

use crate::failed::Failed;

/// Where bytes go. An object in memory tells what was written, and a real one tells nothing of that. Each keeps, for
/// proofs alone, what its writes took.
pub trait Sink {
    /// The bytes that were written, where they are told.
    ghost written: { Self → Option (List ℕ) };

    /// All bytes that writes took so far, in order.
    ghost took: { Self → List ℕ };

    /// The count of faults. It never falls, and stays at its last value, 2^64 - 1.
    ghost faulted: { Self → ℕ };

    /// The count of the calls that took nothing of a piece that is not empty. It never falls, and
    /// stays at its last value, 2^64 - 1.
    ghost stalled: { Self → ℕ };

    /// Appends bytes of the front of the piece, and answers how many: at most `bytes.len()`. Where
    /// it is 0 and the piece is not empty, the count of stalls rose. Never fails for want of
    /// memory: a sink that has to grow and cannot takes nothing.
    ///
    /// # Errors
    ///
    /// `Failed` only where the count of faults rose in this call. Then nothing was written.
    fn write(&mut self, bytes: &[u8]) -> Result<usize, Failed>
        ensures bound { WritesAtMost result bytes.now }
        ensures bytes { WriteAppends (written self.old) (written self.new) result bytes.now }
        ensures took { took self.new ≡ took self.old ++ passed_front result bytes.now }
        ensures failed_writes_nothing { OnErr result (Keeps (written self.old) (written self.new)) }
        ensures cause { HasCause (faulted self.old) (faulted self.new) result }
        ensures stall { CountsStalls (stalled self.old) (stalled self.new) result bytes.now };

    /// The count of faults.
    fn faults(&self) -> u64
        ensures { result ≡ faulted self.now };

    /// The count of stalls.
    fn stalls(&self) -> u64
        ensures { result ≡ stalled self.now };
}
