//! Replicas over the disks of their slots, and the disks given back.
ghost use Rattle.std.specs.Prelude.{◌≡◌, ◌≢◌, ◌*◌, ℕ, Some, length, IfOk, OnOk, OnErr, IfErr};
ghost use Rattle.std.specs.FinMap as finite;
ghost use Rattle.m3_model.specs.Members.{IsIn};
ghost use Rattle.m3_outside.specs.Slots.{Out};
ghost use Rattle.placement_core.specs.Lawful.{IsLawful};
ghost use Rattle.cluster_members.specs.cluster_core.Earlier.{HasTenure};
ghost use Rattle.cluster_members.specs.cluster_core.Replicas.{replica, fresh};
ghost use Rattle.cluster_members.specs.replica_exchange.MachineCalls.{HasRoom};
ghost use Rattle.cluster_members.specs.replica_exchange.declared.member.Member.{Member as Replica};
ghost use Rattle.cluster_members.specs.replica_exchange.declared.slot.Slot.{Slot as AtSlot};
ghost use Rattle.m3_outside.specs.Depots.{Depot};
ghost use Rattle.first_cluster.specs.Begins.{HaveBegun};
ghost use Rattle.first_cluster.specs.Depots.{disk_slot_of};
ghost use Rattle.first_cluster.specs.First.{opening_of};
ghost use Rattle.first_cluster.specs.Lending.{IsFree, IsDiskTaken, KeepsOthers, HasReturned, HasTaken, MayHaveTaken, IsUnopened, HasGivenBack, first_tenure};
ghost use Rattle.first_cluster.specs.Slots.{AreApart, slots_in, slots_of};
ghost use Rattle.first_cluster.specs.declared.start.Start.{Start as AtStart};

use crate::begins::begin_all;
use crate::plan::Plan;
use crate::start::Start;
use crate::unopened::Unopened;
use cluster_members::of_event_trail::Trail;
use cluster_members::of_replica_calls::Replicas;
use cluster_members::of_replica_exchange::{Member, Slot};
use m3_model::{Memory, MetaState};
use m3_outside::{Disk, DiskErr, DiskSlot, Disks};
use std::alloc::Global;

// The slot of a replica's disk.
fn disk_slot(slot: Slot) -> DiskSlot
    ensures { result ≡ disk_slot_of slot }
{
    DiskSlot {
        node: slot.node,
        shard: slot.shard,
    }
}

// The disk of a replica that is let go.
fn disk_of<D: Disk>(member: Member<D>) -> D
    ensures { result ≡ member.machine.disk }
{
    let Member { machine, .. } = member;
    machine.into_disk()
}

// Takes the disk of a slot and puts a replica over it there. Refused: the disk wasn't taken, or is back.
fn take_one<D: Disk, X: Disks<D = D>>(
    alloc: Global,
    disks: &mut X,
    slot: Slot,
    replicas: &mut Replicas<D>,
) -> Result<(), Unopened>
    requires free { IsFree (X.depot disks.old).held replicas.old.members slot }
    requires new { replica slot.node slot.shard replicas.old.events ≡ fresh }
    ensures taken { IsDiskTaken D.state slot (X.depot disks.old) (X.depot disks.new) replicas.new.members result }
    ensures others { KeepsOthers slot (X.depot disks.old) replicas.old.members (X.depot disks.new) replicas.new.members }
    ensures list { replicas.new.events ≡ replicas.old.events }
{
    let disk = match disks.take(disk_slot(slot)) {
        Ok(disk) => disk,
        Err(DiskErr::Failed) => return Err(Unopened::Disk(slot)),
        Err(DiskErr::Memory) => return Err(Unopened::Memory),
    };
    match replicas.insert(alloc, slot, disk) {
        Ok(()) => Ok(()),
        Err(back) => {
            disks.give(disk_slot(slot), back);
            Err(Unopened::Memory)
        }
    }
}

// Takes the disk of each of the slots and puts a replica over it there. It ends with the first that is refused.
fn take_all<D: Disk, X: Disks<D = D>>(
    alloc: Global,
    disks: &mut X,
    slots: &[Slot],
    replicas: &mut Replicas<D>,
) -> Result<(), Unopened>
    requires apart { AreApart slots.now }
    requires none { replicas.old.members ≡ finite.empty }
    requires new { (n s : ℕ) → replica n s replicas.old.events ≡ fresh }
    requires free { (s : AtSlot) → IsIn slots.now s → (X.depot disks.old).held (disk_slot_of s) ≢ Out }
    ensures ok { OnOk result (HasTaken D.state slots.now (X.depot disks.old) replicas.new.members (X.depot disks.new)) }
    ensures err { IfErr result (MayHaveTaken D.state slots.now (X.depot disks.old) replicas.new.members (X.depot disks.new)) }
    ensures list { replicas.new.events ≡ replicas.old.events }
{
    for slot in slots {
        take_one(alloc, disks, *slot, replicas)?;
    }
    Ok(())
}

/// Gives the disks of all replicas at the slots back, and lets these go. The list of events stays.
pub fn give_all<D: Disk, X: Disks<D = D>>(disks: &mut X, slots: &[Slot], replicas: &mut Replicas<D>)
    requires { (s : AtSlot) (m : Replica D) → finite.get replicas.old.members s ≡ Some m → (X.depot disks.old).held (disk_slot_of s) ≡ Out }
    ensures given { HasGivenBack D.state slots.now (X.depot disks.old) replicas.old.members (X.depot disks.new) replicas.new.members }
    ensures list { replicas.new.events ≡ replicas.old.events }
{
    for slot in slots {
        match replicas.take(*slot) {
            Some(member) => disks.give(disk_slot(*slot), disk_of(member)),
            None => {}
        }
    }
}

// No replicas yet, and the list that such a cluster opens.
fn listed<D: Disk>(alloc: Global, state: &MetaState) -> Replicas<D>
    requires { IsLawful state.now.place }
    ensures { result ≡ record { members = finite.empty; events = opening_of state.now } }
{
    let trail = Trail::new(&state.place, &state.rules);
    Replicas::new(alloc, trail)
}

// Replicas over the disks of the plan's slots, which didn't begin, behind the events that open the list. Refused: a slot whose disk
// couldn't be taken, by a fault of the disks' own, or want of memory; no disk is out then.
pub(crate) fn lent<D: Disk, X: Disks<D = D>>(
    alloc: Global,
    disks: &mut X,
    plan: &Plan,
) -> Result<Replicas<D>, Unopened>
    requires lawful { IsLawful plan.now.state.place }
    requires slots { plan.now.slots.items ≡ slots_of plan.now.state.place }
    requires free { (s : AtSlot) → IsIn plan.now.slots.items s → (X.depot disks.old).held (disk_slot_of s) ≢ Out }
    ensures ok { IfOk result (λ replicas. HasTaken D.state plan.now.slots.items (X.depot disks.old) replicas.members (X.depot disks.new)) }
    ensures list { IfOk result (λ replicas. replicas.events ≡ opening_of plan.now.state) }
    ensures err { IfErr result (IsUnopened D.state plan.now.slots.items (X.depot disks.old) (X.depot disks.new)) }
{
    let mut replicas = listed(alloc, &plan.state);
    let slots = plan.slots.as_slice();
    match take_all(alloc, disks, slots, &mut replicas) {
        Ok(()) => Ok(replicas),
        Err(why) => {
            give_all(disks, slots, &mut replicas);
            Err(why)
        }
    }
}

// Begins the replicas of the starts over the disks that were taken for them. One that refuses that for another reason than want of
// memory stays, closed. For want of memory no disk is out.
pub(crate) fn begun<D: Disk, X: Disks<D = D>>(
    disks: &mut X,
    slots: &[Slot],
    starts: &[Start],
    replicas: &mut Replicas<D>,
) -> Result<(), Memory>
    requires apart { AreApart slots.now }
    requires slots { slots.now ≡ slots_in starts.now }
    requires first { (s : AtStart) → IsIn starts.now s → s.tenure ≡ first_tenure }
    requires tenures { (s : AtStart) → IsIn starts.now s → HasTenure replicas.old.events s.slot.node s.slot.shard s.tenure }
    requires room { HasRoom (2 * length starts.now) replicas.old.events }
    requires taken { (first : Depot D) × HasTaken D.state slots.now first replicas.old.members (X.depot disks.old) }
    ensures ok { OnOk result (HaveBegun D.state starts.now replicas.old replicas.new) }
    ensures same { OnOk result (disks.new ≡ disks.old) }
    ensures err { OnErr result ((first : Depot D) → HasTaken D.state slots.now first replicas.old.members (X.depot disks.old) → HasReturned D.state first finite.empty (X.depot disks.new)) }
{
    match begin_all(replicas, starts) {
        Ok(()) => Ok(()),
        Err(why) => {
            give_all(disks, slots, replicas);
            Err(why)
        }
    }
}
