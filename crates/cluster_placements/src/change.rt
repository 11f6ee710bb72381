//! Lines that make a placement.
ghost use Rattle.std.specs.Prelude.{◌≡◌, ◌<◌, ◌+◌, ◌*◌, true, length};
ghost use Rattle.m3_model.specs.declared.act.Act.{Act as Line};
ghost use Rattle.placement_acts.specs.Acts.{is_step_act};
ghost use Rattle.node_calls.specs.replica_exchange.MachineCalls.{HasRoom};
ghost use Rattle.first_cluster.specs.First.{IsDiskAnswer};
ghost use Rattle.cluster_placements.specs.Steps.{IsChange, IsChanged, IsMade, IsPlanned, MakesPlanned, MayBeMade, MayChange, kept_in};

use crate::events::{end_all, place};
use crate::lending::gain;
use crate::plan::Change;
use crate::untaken::Untaken;
use m3_model::{Answer, Duplicate, Placement};
use m3_outside::{Disk, Disks};
use node_calls::of_cluster_members::Members;
use node_calls::of_replica_exchange::Slot;
use std::alloc::Global;
use std::mem::replace;

// That the disk of the slot couldn't be taken.
fn untaken(alloc: Global, place: &Placement, slot: Slot) -> Answer
    requires { slot.node < length place.now.instances }
    ensures { IsDiskAnswer place.now slot result }
{
    let instance = &place.instances.as_slice()[slot.node as usize];
    match instance.name.copy(alloc) {
        Ok(node) => Answer::Disk {
            node,
            shard: slot.shard,
        },
        Err(_) => Answer::Memory,
    }
}

// The cluster with the placement, whose new replicas stand: the list has it, the one before it is kept, and the tenures end that it takes
// away. Takes no memory.
fn make<D: Disk>(members: &mut Members<D>, change: Change) -> Answer
    requires { MayBeMade members.old change }
    ensures { IsMade D.state members.old change result members.new }
{
    let Change {
        next,
        printed,
        left,
        slots,
        stopped,
        ..
    } = change;
    place(&mut members.net.replicas, &next);
    end_all(&mut members.net.replicas, left.as_slice());
    let stood = replace(&mut members.net.state.place, next);
    members.past.push_reserved(stood);
    drop(replace(&mut members.slots, slots));
    drop(replace(&mut members.stopped, stopped));
    let version = printed.version;
    Answer::Placed {
        placement: printed,
        version,
    }
}

/// Makes what was planned for the line of an `add`, `drain`, `cancel`, `remove` or `replace` of this cluster, which is as it was then: the placement
/// stands, with a replica at Boot over the disk of each slot that had none, the tenures of replicas that it takes away are ended, and it is
/// answered with its version. The placement before it is kept. Nodes that are stopped stay so, also one that is named again.
///
/// Refused: `Full` where the list has no room for the placement and the ends of tenures; `Disk` with the node and the shard whose disk couldn't
/// be taken; or want of memory. The cluster is then as it was, and each disk that was taken for the line is given back as it was.
///
/// See M3DB's page "Placement".
pub fn make_change<D: Disk, X: Disks<D = D>>(
    members: &mut Members<D>,
    alloc: Global,
    disks: &mut X,
    change: Change,
) -> Answer
    requires planned { IsPlanned members.old change }
    requires may { MayChange members.old (X.depot disks.old).held }
    ensures may { MayChange members.new (X.depot disks.new).held }
    ensures changed { (a : Line) → is_step_act a ≡ true → IsChange members.old (kept_in members.old) a change → IsChanged D.state (kept_in members.old) a (X.depot disks.old) members.old result (X.depot disks.new) members.new }
    ensures placed { MakesPlanned D.state (X.depot disks.old) members.old change.next result (X.depot disks.new) members.new }
{
    if !members
        .net
        .replicas
        .has_room(2 + 2 * change.left.len() as u64)
    {
        return Answer::Full;
    }
    if members.past.try_reserve(1).is_err() {
        return Answer::Memory;
    }
    match gain(
        alloc,
        disks,
        change.new.as_slice(),
        &mut members.net.replicas,
    ) {
        Ok(()) => make(members, change),
        Err(Untaken::Disk(slot)) => untaken(alloc, &change.next, slot),
        Err(Untaken::Memory) => Answer::Memory,
    }
}
