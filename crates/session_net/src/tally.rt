//! The answers to one call, as they come in.
ghost use Rattle.std.specs.Prelude.{◌≡◌, ℕ, List, [], ◌∷◌, ◌++◌, suc, ◌<◌, length, IfOk};
ghost use Rattle.session_net.specs.Outcomes.{NodeOutcome, answering, refusing, IsShortOf};
ghost use Rattle.session_net.specs.Tallies.{HasRoom};

use crate::session_err::SessionErr;
use m3_model::{Memory, Reason, Seq};
use std::alloc::Global;

/// The nodes that answered, and the others with their reasons, each in the order in which they were asked.
#[derive(Drop)]
pub struct Tally {
    pub answered: Vec<u8>,
    pub reasons: Vec<(u8, Reason)>,
}

impl Tally {
    /// An empty one with room for so many nodes.
    pub fn with_room(alloc: Global, room: usize) -> Result<Tally, Memory>
        ensures answered { IfOk result (λ tally. tally.answered.items ≡ []) }
        ensures reasons { IfOk result (λ tally. tally.reasons.items ≡ []) }
        ensures room { IfOk result (HasRoom room) }
    {
        let answered = Vec::with_capacity(alloc, room)?;
        let reasons = Vec::with_capacity(alloc, room)?;
        Ok(Tally { answered, reasons })
    }

    /// Counts what one more node was told: no reason where it answered.
    pub fn add(&mut self, node: u8, outcome: Option<Reason>)
        requires { HasRoom 1 self.old }
        ensures room { (n : ℕ) → HasRoom (suc n) self.old → HasRoom n self.new }
        ensures answered { (told : List NodeOutcome) → self.old.answered.items ≡ answering told → self.new.answered.items ≡ answering (told ++ (node, outcome) ∷ []) }
        ensures reasons { (told : List NodeOutcome) → self.old.reasons.items ≡ refusing told → self.new.reasons.items ≡ refusing (told ++ (node, outcome) ∷ []) }
    {
        match outcome {
            None => self.answered.push_reserved(node),
            Some(why) => self.reasons.push_reserved((node, why)),
        }
    }

    /// That fewer than needed answered.
    pub fn too_few(self, shard: u32, needed: u32) -> SessionErr
        requires { length self.answered.items < needed }
        ensures { IsShortOf needed shard self.answered.items self.reasons.items result }
    {
        SessionErr::Consistency {
            shard,
            needed,
            got: self.answered.len() as u32,
            reasons: Seq::from_vec(self.reasons),
        }
    }
}
