//! What a cluster begins with.
ghost use Rattle.std.specs.Prelude.{◌≡◌, ◌≢◌, ◌<◌, length, IfOk, IfErr, ℕ, List, OnOk, OnErr};
ghost use Rattle.std.specs.FinMap as finite;
ghost use Rattle.m3_outside.specs.Depots.{Depot};
ghost use Rattle.m3_outside.specs.Slots.{Out};
ghost use Rattle.m3_outside.specs.declared.slot.DiskSlot.{DiskSlot};
ghost use Rattle.cluster_members.specs.session_net.Ready.{IsReady};
ghost use Rattle.first_cluster.specs.Depots.{IsForReplicas};
ghost use Rattle.first_cluster.specs.First.{IsFirst, IsDiskAnswer, IsRefusedInit, IsLent, IsPlan, IsSomeLent, IsSomePlan};
ghost use Rattle.first_cluster.specs.Lending.{AreAsTheyWere, HasReturned};

use crate::lending::{begun, give_all, lent};
use crate::plan::Plan;
use crate::start::Start;
use crate::unopened::Unopened;
use cluster_members::Members;
use cluster_members::of_replica_exchange::Slot;
use cluster_members::of_session_net::Net;
use m3_model::{Answer, Duplicate, Memory, Placement};
use m3_outside::{Disk, Disks};
use net_plan::Fates;
use std::alloc::Global;

// That the disk of the slot couldn't be taken.
fn untaken(alloc: Global, place: &Placement, slot: Slot) -> Answer
    requires { slot.node < length place.now.instances }
    ensures { IsDiskAnswer place.now slot result }
{
    let instance = &place.instances.as_slice()[slot.node as usize];
    match instance.name.copy(alloc) {
        Ok(node) => Answer::Disk {
            node,
            shard: slot.shard,
        },
        Err(_) => Answer::Memory,
    }
}

/// A first cluster whose replicas didn't begin yet, with the starts of these and a copy of its placement.
#[derive(Drop)]
pub struct Lent<D: Disk> {
    pub members: Members<D>,
    pub starts: Vec<Start>,
    pub printed: Placement,
}

/// The cluster of the plan, with a replica that did no step over the disk of each slot, and the list of events opened by its placement
/// and by its rules.
///
/// # Errors
///
/// The answer: a disk that couldn't be taken, or want of memory. No disk of a replica is out then.
pub fn lend_first<D: Disk, X: Disks<D = D>>(
    alloc: Global,
    disks: &mut X,
    plan: Plan,
) -> Result<Lent<D>, Answer>
    requires planned { IsSomePlan plan }
    requires free { (slot : DiskSlot) → IsForReplicas slot → (X.depot disks.old).held slot ≢ Out }
    ensures state { IfOk result (λ lent. lent.members.net.state ≡ plan.state) }
    ensures lent { IfOk result (λ lent. (rf shards seed : ℕ) (nodes : List (List ℕ × List ℕ)) → IsPlan rf shards seed nodes plan → IsLent D.state rf shards seed nodes (X.depot disks.old) (X.depot disks.new) lent) }
    ensures refused { IfErr result (λ answer. (rf shards seed : ℕ) (nodes : List (List ℕ × List ℕ)) → IsPlan rf shards seed nodes plan → IsRefusedInit D.state rf shards seed nodes (X.depot disks.old) (X.depot disks.new) answer) }
{
    let replicas = match lent(alloc, disks, &plan) {
        Ok(replicas) => replicas,
        Err(Unopened::Disk(slot)) => return Err(untaken(alloc, &plan.state.place, slot)),
        Err(Unopened::Memory) => return Err(Answer::Memory),
    };
    let net = Net {
        state: plan.state,
        replicas,
        fates: Fates::empty(alloc),
        bag: plan.bag,
    };
    let members = Members {
        net,
        past: Vec::new(alloc),
        slots: plan.slots,
        stopped: plan.stopped,
    };
    Ok(Lent {
        members,
        starts: plan.starts,
        printed: plan.printed,
    })
}

/// Has each replica of a first cluster begin with the tenure that the placement gives it, and gives a copy of the placement. A replica
/// that refuses that for another reason than want of memory stays, closed.
///
/// # Errors
///
/// Want of memory. No disk of a replica is out then.
pub fn begin_first<D: Disk, X: Disks<D = D>>(
    disks: &mut X,
    lent: Lent<D>,
) -> Result<(Members<D>, Placement), Memory>
    requires lent { IsSomeLent D.state (X.depot disks.old) lent }
    ensures state { IfOk result (λ made. made.0.net.state ≡ lent.members.net.state) }
    ensures members { IfOk result (λ made. (rf shards seed : ℕ) (nodes : List (List ℕ × List ℕ)) (first : Depot D) → IsLent D.state rf shards seed nodes first (X.depot disks.old) lent → IsFirst D.state rf shards seed nodes first (X.depot disks.new) made.0) }
    ensures ready { IfOk result (λ made. IsReady made.0.net.state made.0.net.replicas made.0.net.bag) }
    ensures placement { IfOk result (λ made. made.1 ≡ made.0.net.state.place) }
    ensures same { OnOk result (disks.new ≡ disks.old) }
    ensures returned { OnErr result ((rf shards seed : ℕ) (nodes : List (List ℕ × List ℕ)) (first : Depot D) → IsLent D.state rf shards seed nodes first (X.depot disks.old) lent → HasReturned D.state first finite.empty (X.depot disks.new)) }
{
    let Lent {
        mut members,
        starts,
        printed,
    } = lent;
    let standing = &mut members;
    let slots = standing.slots.as_slice();
    let starts = starts.as_slice();
    match begun(disks, slots, starts, &mut standing.net.replicas) {
        Ok(()) => Ok((members, printed)),
        Err(why) => Err(why),
    }
}

/// Gives the disks of a first cluster back as they were taken, since its replicas didn't begin. Takes no memory.
pub fn give_back<D: Disk, X: Disks<D = D>>(disks: &mut X, lent: Lent<D>)
    requires lent { IsSomeLent D.state (X.depot disks.old) lent }
    ensures returned { (rf shards seed : ℕ) (nodes : List (List ℕ × List ℕ)) (first : Depot D) → IsLent D.state rf shards seed nodes first (X.depot disks.old) lent → HasReturned D.state first finite.empty (X.depot disks.new) }
    ensures as_they_were { (rf shards seed : ℕ) (nodes : List (List ℕ × List ℕ)) (first : Depot D) → IsLent D.state rf shards seed nodes first (X.depot disks.old) lent → AreAsTheyWere D.state first (X.depot disks.new) }
{
    let Lent { mut members, .. } = lent;
    let standing = &mut members;
    let slots = standing.slots.as_slice();
    give_all(disks, slots, &mut standing.net.replicas);
}
