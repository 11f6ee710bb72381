//! Replicas over the disks of slots that have none yet; where one can't be made, all of these disks are given back.
ghost use Rattle.std.specs.Prelude.{◌≡◌, OnOk, OnErr, IfErr};
ghost use Rattle.m3_model.specs.Members.{IsIn};
ghost use Rattle.cluster_core.specs.Replicas.{replica, fresh};
ghost use Rattle.node_calls.specs.replica_exchange.declared.slot.Slot.{Slot as AtSlot};
ghost use Rattle.first_cluster.specs.Depots.{disk_slot_of};
ghost use Rattle.first_cluster.specs.Lending.{IsFree, IsNewlyTaken, KeepsOthers};
ghost use Rattle.first_cluster.specs.Slots.{AreApart};
ghost use Rattle.cluster_placements.specs.Lending.{AreLent, HaveGained, HaveReturned, IsLeftBy, MayHaveGained, MayNotTake};

use crate::untaken::Untaken;
use first_cluster::give_all;
use m3_outside::{Disk, DiskErr, DiskSlot, Disks};
use node_calls::of_replica_calls::Replicas;
use node_calls::of_replica_exchange::Slot;
use std::alloc::Global;

// The slot of a replica's disk.
fn disk_slot(slot: Slot) -> DiskSlot
    ensures { result ≡ disk_slot_of slot }
{
    DiskSlot {
        node: slot.node,
        shard: slot.shard,
    }
}

// Takes the disk of a slot and puts a replica over it there. Refused: the disk wasn't taken, or is back.
fn take_one<D: Disk, X: Disks<D = D>>(
    alloc: Global,
    disks: &mut X,
    slot: Slot,
    replicas: &mut Replicas<D>,
) -> Result<(), Untaken>
    requires free { IsFree (X.depot disks.old).held replicas.old.members slot }
    requires new { replica slot.node slot.shard replicas.old.events ≡ fresh }
    ensures taken { OnOk result (IsNewlyTaken D.state (X.depot disks.old) replicas.new.members (X.depot disks.new) slot) }
    ensures left { IfErr result (IsLeftBy D.state (X.depot disks.old) (X.depot disks.new) slot) }
    ensures same { OnErr result (replicas.new ≡ replicas.old) }
    ensures others { KeepsOthers slot (X.depot disks.old) replicas.old.members (X.depot disks.new) replicas.new.members }
    ensures list { replicas.new.events ≡ replicas.old.events }
{
    let disk = match disks.take(disk_slot(slot)) {
        Ok(disk) => disk,
        Err(DiskErr::Failed) => return Err(Untaken::Disk(slot)),
        Err(DiskErr::Memory) => return Err(Untaken::Memory),
    };
    match replicas.insert(alloc, slot, disk) {
        Ok(()) => Ok(()),
        Err(back) => {
            disks.give(disk_slot(slot), back);
            Err(Untaken::Memory)
        }
    }
}

// Takes the disk of each of the slots and puts a replica over it there. It ends with the first that is refused.
fn take_all<D: Disk, X: Disks<D = D>>(
    alloc: Global,
    disks: &mut X,
    slots: &[Slot],
    replicas: &mut Replicas<D>,
) -> Result<(), Untaken>
    requires apart { AreApart slots.now }
    requires free { (s : AtSlot) → IsIn slots.now s → IsFree (X.depot disks.old).held replicas.old.members s }
    requires new { (s : AtSlot) → IsIn slots.now s → replica s.node s.shard replicas.old.events ≡ fresh }
    ensures ok { OnOk result (HaveGained D.state slots.now (X.depot disks.old) replicas.old.members (X.depot disks.new) replicas.new.members) }
    ensures err { IfErr result (MayHaveGained D.state slots.now (X.depot disks.old) replicas.old.members (X.depot disks.new) replicas.new.members) }
    ensures list { replicas.new.events ≡ replicas.old.events }
{
    for slot in slots {
        take_one(alloc, disks, *slot, replicas)?;
    }
    Ok(())
}

/// Takes the disk of each of the slots, in their order, and puts a replica over it there that didn't begin.
///
/// # Errors
///
/// The first slot whose disk couldn't be taken, by a fault of the disks' own, or want of memory. The replicas are as they were, and each disk
/// that was taken is given back as it was.
pub fn gain<D: Disk, X: Disks<D = D>>(
    alloc: Global,
    disks: &mut X,
    slots: &[Slot],
    replicas: &mut Replicas<D>,
) -> Result<(), Untaken>
    requires apart { AreApart slots.now }
    requires free { (s : AtSlot) → IsIn slots.now s → IsFree (X.depot disks.old).held replicas.old.members s }
    requires new { (s : AtSlot) → IsIn slots.now s → replica s.node s.shard replicas.old.events ≡ fresh }
    requires out { AreLent replicas.old.members (X.depot disks.old).held }
    ensures ok { OnOk result (HaveGained D.state slots.now (X.depot disks.old) replicas.old.members (X.depot disks.new) replicas.new.members) }
    ensures list { OnOk result (replicas.new.events ≡ replicas.old.events) }
    ensures same { OnErr result (replicas.new ≡ replicas.old) }
    ensures returned { OnErr result (HaveReturned D.state slots.now (X.depot disks.old) (X.depot disks.new)) }
    ensures cause { IfErr result (MayNotTake D.state slots.now (X.depot disks.old) (X.depot disks.new)) }
{
    match take_all(alloc, disks, slots, replicas) {
        Ok(()) => Ok(()),
        Err(why) => {
            give_all(disks, slots, replicas);
            Err(why)
        }
    }
}
