ghost use Rattle.std.specs.Prelude.{◌≡◌, ◌↔◌, ◌<◌, ◌++◌, ℕ, List, Option, Bool, true, OnErr, length};
ghost use Rattle.std.specs.Io.{ReadsAtMost};
ghost use Rattle.std.specs.Io.KnownBytes.{ReadConsumes, IsAtEnd, Keeps};
ghost use Rattle.m3_outside.specs.Causes.{HasCause};
ghost use Rattle.m3_outside.specs.Passing.{passed_front};

use crate::failed::Failed;

/// Bytes to read. An object in memory tells what is left, and a real one tells nothing of that. Each keeps, for proofs
/// alone, what its reads gave, and whether the last one found nothing more.
pub trait Source {
    /// The bytes that are left to read, where they are told.
    ghost left: { Self → Option (List ℕ) };

    /// All bytes that reads gave so far, in order.
    ghost gave: { Self → List ℕ };

    /// Whether the last read found nothing more: it gave none of the bytes for which there was room.
    ghost ended: { Self → Bool };

    /// The count of faults. It never falls, and stays at its last value, 2^64 - 1.
    ghost faulted: { Self → ℕ };

    /// Takes bytes off the front of what is left, puts them at the front of `buf`, and answers how
    /// many: at most `buf.len()`. For a buffer that is not empty, 0 means that nothing is left.
    /// Takes no memory.
    ///
    /// # Errors
    ///
    /// `Failed` only where the count of faults rose in this call. Then nothing was taken.
    fn read(&mut self, buf: &mut [u8]) -> Result<usize, Failed>
        ensures bound { ReadsAtMost result buf.new }
        ensures bytes { ReadConsumes (left self.old) (left self.new) result buf.new }
        ensures gave { gave self.new ≡ gave self.old ++ passed_front result buf.new }
        ensures end { result ≡ Ok 0 → 0 < length buf.new → IsAtEnd (left self.new) }
        ensures ended { ended self.new ≡ true ↔ ((result ≡ Ok 0) × (0 < length buf.new)) }
        ensures failed_takes_nothing { OnErr result (Keeps (left self.old) (left self.new)) }
        ensures cause { HasCause (faulted self.old) (faulted self.new) result };

    /// The count of faults.
    fn faults(&self) -> u64
        ensures { result ≡ faulted self.now };
}
