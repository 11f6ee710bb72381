ghost use Rattle.std.specs.Prelude.{◌≡◌, ◌+◌, ◌-◌, ◌^◌, ◌≤◌, min, replicate, slice_index, slice_set};
ghost use Rattle.m3_model.specs.declared.limits.TheConstants.{MOST_CLIENTS};

use m3_model::limits::MOST_CLIENTS;
use std::marker::Model;

// The clients, and the lines outside `par`, whose client is 0.
const NUMBERS: usize = MOST_CLIENTS + 1;

/// The numbers that the next calls of clients 0 to 8 go by. Contracts see the list of them, by client.
#[derive(Drop)]
pub struct Calls {
    numbers: [u64; NUMBERS],
}

impl Model for Calls {
    ghost use Rattle.std.specs.Prelude.{ℕ, List};

    ghost Value = { List ℕ };

    ghost view = { λ c. c.numbers };
}

impl Calls {
    /// As a run begins: the next call of each client has the number 0.
    pub fn new() -> Calls
        ensures { result ≡ replicate (MOST_CLIENTS + 1) 0 }
    {
        Calls {
            numbers: [0; NUMBERS],
        }
    }

    /// The number of this call of the client, who is 0 to 8. The client's next call has the next number; after 2^64 - 1
    /// it has that number again. The others' numbers stay.
    pub fn next(&mut self, client: u32) -> u64
        requires { client ≤ MOST_CLIENTS }
        ensures number { result ≡ slice_index self.old client }
        ensures raised { self.new ≡ slice_set self.old client (min (result + 1) (2 ^ 64 - 1)) }
    {
        let number = self.numbers[client as usize];
        self.numbers[client as usize] = number.saturating_add(1);
        number
    }

    /// As after an accepted `fates` line: the next call of each client has the number 0 again.
    pub fn restart(&mut self)
        ensures { self.new ≡ replicate (MOST_CLIENTS + 1) 0 }
    {
        self.numbers = [0; NUMBERS];
    }
}
