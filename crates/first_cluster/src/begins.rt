//! Replicas begun for the first time.
ghost use Rattle.std.specs.Prelude.{◌≡◌, ◌≢◌, ◌*◌, None, Err, length, OnOk, OnErr};
ghost use Rattle.std.specs.FinMap as finite;
ghost use Rattle.m3_model.specs.Members.{IsIn};
ghost use Rattle.m3_model.specs.declared.reason.Reason.TheVariants as reason;
ghost use Rattle.cluster_members.specs.cluster_core.Earlier.{HasTenure};
ghost use Rattle.cluster_members.specs.replica_exchange.MachineCalls.{HasRoom};
ghost use Rattle.cluster_members.specs.replica_exchange.declared.call_err.CallErr.TheVariants as call_err;
ghost use Rattle.first_cluster.specs.Begins.{WantedMemory, WasBegun, HaveBegun, HaveSomeBegun};
ghost use Rattle.first_cluster.specs.Slots.{AreApart, slots_in};
ghost use Rattle.first_cluster.specs.declared.start.Start.{Start as AtStart};

use crate::start::Start;
use cluster_members::of_replica_calls::Replicas;
use cluster_members::of_replica_exchange::CallErr;
use m3_model::{Memory, Reason};
use m3_outside::Disk;

// What is counted of the answer of a begin: only want of memory is a refusal.
fn only_memory(answer: Result<(), CallErr>) -> Result<(), Memory>
    ensures ok { OnOk result (¬ (answer ≡ Err (call_err.Refused reason.Memory))) }
    ensures err { OnErr result (answer ≡ Err (call_err.Refused reason.Memory)) }
{
    match answer {
        Err(CallErr::Refused(Reason::Memory)) => Err(Memory),
        _ => Ok(()),
    }
}

// Begins the replica of the start, which is there. Only want of memory counts as a refusal.
fn begin_first<D: Disk>(replicas: &mut Replicas<D>, start: Start) -> Result<(), Memory>
    requires tenure { HasTenure replicas.old.events start.slot.node start.slot.shard start.tenure }
    requires there { finite.get replicas.old.members start.slot ≢ None }
    requires room { HasRoom 2 replicas.old.events }
    ensures ok { OnOk result (WasBegun D.state start (λ said. ¬ WantedMemory said) replicas.old replicas.new) }
    ensures err { OnErr result (WasBegun D.state start WantedMemory replicas.old replicas.new) }
{
    only_memory(replicas.boot(start.slot, start.tenure))
}

// Begins the replicas of the starts, which are there. Want of memory ends it; a replica that refuses for another reason stays
// as that left it.
pub(crate) fn begin_all<D: Disk>(replicas: &mut Replicas<D>, starts: &[Start]) -> Result<(), Memory>
    requires apart { AreApart (slots_in starts.now) }
    requires tenures { (s : AtStart) → IsIn starts.now s → HasTenure replicas.old.events s.slot.node s.slot.shard s.tenure }
    requires there { (s : AtStart) → IsIn starts.now s → finite.get replicas.old.members s.slot ≢ None }
    requires room { HasRoom (2 * length starts.now) replicas.old.events }
    ensures ok { OnOk result (HaveBegun D.state starts.now replicas.old replicas.new) }
    ensures err { OnErr result (HaveSomeBegun D.state starts.now replicas.old replicas.new) }
{
    for start in starts {
        begin_first(replicas, *start)?;
    }
    Ok(())
}
