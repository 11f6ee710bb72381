//! What a sweep finds, one replica after the other.
ghost use Rattle.std.specs.Prelude.{◌≡◌, ℕ, List, [], ◌∷◌, ◌++◌, suc, IfOk};
ghost use Rattle.m3_model.specs.declared.answer.Answer.TheVariants as answer;
ghost use Rattle.node_calls.specs.transcripts.Sweeps.{Entry, done_in, failed_in};
ghost use Rattle.cluster_upkeep.specs.Findings.{HasRoomFor, entry_at};

use m3_model::{Answer, Memory, Reason, Seq};
use node_calls::of_replica_exchange::Slot;
use std::alloc::Global;

/// The replicas that did what was asked, with how much they did, and those that refused, each in the order in which they were asked.
#[derive(Drop)]
pub(crate) struct Findings {
    pub(crate) done: Vec<(u8, u32, u64)>,
    pub(crate) failed: Vec<(u8, u32, Reason)>,
}

impl Findings {
    /// None yet, with room for so many replicas.
    pub(crate) fn with_room(alloc: Global, room: usize) -> Result<Findings, Memory>
        ensures done { IfOk result (λ findings. findings.done.items ≡ []) }
        ensures failed { IfOk result (λ findings. findings.failed.items ≡ []) }
        ensures room { IfOk result (HasRoomFor room) }
    {
        let done = Vec::with_capacity(alloc, room)?;
        let failed = Vec::with_capacity(alloc, room)?;
        Ok(Findings { done, failed })
    }

    /// Notes what one more replica said. Takes no memory.
    pub(crate) fn add(&mut self, slot: Slot, said: Result<u64, Reason>)
        requires { HasRoomFor 1 self.old }
        ensures room { (n : ℕ) → HasRoomFor (suc n) self.old → HasRoomFor n self.new }
        ensures done { (entries : List Entry) → self.old.done.items ≡ done_in entries → self.new.done.items ≡ done_in (entries ++ entry_at slot said ∷ []) }
        ensures failed { (entries : List Entry) → self.old.failed.items ≡ failed_in entries → self.new.failed.items ≡ failed_in (entries ++ entry_at slot said ∷ []) }
    {
        match said {
            Ok(count) => self.done.push_reserved((slot.node, slot.shard, count)),
            Err(why) => self.failed.push_reserved((slot.node, slot.shard, why)),
        }
    }

    /// The answer of the sweep.
    pub(crate) fn answer(self) -> Answer
        ensures { result ≡ answer.Swept self.done.items self.failed.items }
    {
        Answer::Swept {
            done: Seq::from_vec(self.done),
            failed: Seq::from_vec(self.failed),
        }
    }
}
