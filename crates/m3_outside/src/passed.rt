ghost use Rattle.std.specs.Prelude.{◌≡◌, [], ◌∷◌, ◌++◌};

use std::marker::Model;
use std::snapshot::Snapshot;

/// The bytes that passed between a program and a stream so far, which the stream keeps for proofs alone. Contracts see
/// their list. A snapshot has no bytes, so however many passed, this takes no memory and adding costs no instruction.
#[cycle(passed)]
#[derive(Drop)]
pub struct Passed {
    last: Snapshot<Link>,
}

// The byte that passed last is outermost.
#[cycle(passed)]
#[derive(Drop)]
enum Link {
    Start,
    Then(Snapshot<Passed>, Snapshot<u8>),
}

impl Model for Passed {
    ghost use Rattle.std.specs.Prelude.{ℕ, List, length};

    ghost Value = { List ℕ };

    ghost use Rattle.m3_outside.specs.Passed.{bytes_of};

    ghost view = { λ p. bytes_of p.last.value };

    ghost size = { length };

    ghost use Rattle.std.proofs.Common.{arith, length-append};

    ghost size_decreases = { λ a h. Prim.grind (arith, length-append) };
}

impl Passed {
    /// None so far. Takes no memory, here and below.
    pub fn new() -> Passed
        ensures { result ≡ [] }
    {
        Passed {
            last: Snapshot::of(&Link::Start),
        }
    }

    fn add_one(&mut self, byte: &u8)
        ensures { self.new ≡ self.old ++ byte.now ∷ [] }
    {
        let last = Link::Then(Snapshot::of(self), Snapshot::of(byte));
        self.last = Snapshot::of(&last);
    }

    /// These passed, too.
    pub fn add(&mut self, bytes: &[u8])
        ensures { self.new ≡ self.old ++ bytes.now }
    {
        for byte in bytes {
            self.add_one(byte);
        }
    }
}
