//! Stops and restarts of a node's replicas.
ghost use Rattle.std.specs.Prelude.{◌≡◌, ◌≢◌, ◌≤◌, ◌*◌, None, length, IfErr, OnOk};
ghost use Rattle.std.specs.FinMap as finite;
ghost use Rattle.std.specs.List.{flat_map};
ghost use Rattle.cluster_members.specs.replica_exchange.MachineCalls.{HasRoom};
ghost use Rattle.cluster_members.specs.session_net.Runs.{Ran};
ghost use Rattle.node_calls.specs.Boots.{IsRestartTried, EndsRestarts};
ghost use Rattle.node_calls.specs.Halts.{slots_of_node, stop_at, restart_at, AreManned};

use crate::refused::Refused;
use cluster_members::of_replica_calls::Replicas;
use cluster_members::of_replica_exchange::{CallErr, Slot};
use m3_outside::Disk;

/// How many of the slots are the node's.
pub(crate) fn slots_of(slots: &[Slot], node: u8) -> u64
    ensures count { result ≡ length (slots_of_node node slots.now) }
    ensures few { result ≤ length slots.now }
{
    let mut count = 0;
    for slot in slots {
        if slot.node == node {
            count += 1;
        }
    }
    count
}

// Stops the replica at the slot, which is there.
fn stop_one<D: Disk>(replicas: &mut Replicas<D>, slot: Slot)
    requires there { finite.get replicas.old.members slot ≢ None }
    requires room { HasRoom 2 replicas.old.events }
    ensures { Ran D.state replicas.old (stop_at slot) replicas.new }
{
    match replicas.stop(slot) {
        Ok(()) => {}
        Err(_) => unreachable!(),
    }
}

/// Stops the replicas at the slots of a node.
pub(crate) fn stop_all<D: Disk>(replicas: &mut Replicas<D>, slots: &[Slot], node: u8)
    requires manned { AreManned slots.now replicas.old }
    requires room { HasRoom (2 * length (slots_of_node node slots.now)) replicas.old.events }
    ensures { Ran D.state replicas.old (flat_map stop_at (slots_of_node node slots.now)) replicas.new }
{
    for slot in slots {
        if slot.node == node {
            stop_one(replicas, *slot);
        }
    }
}

// Restarts the replica at the slot, which is there.
fn restart_one<D: Disk>(replicas: &mut Replicas<D>, slot: Slot, pick: u64) -> Result<(), Refused>
    requires there { finite.get replicas.old.members slot ≢ None }
    requires room { HasRoom 2 replicas.old.events }
    ensures { IsRestartTried D.state slot replicas.old replicas.new result }
{
    match replicas.restart(slot, pick) {
        Ok(()) => Ok(()),
        Err(CallErr::Refused(why)) => Err(Refused {
            shard: slot.shard,
            why,
        }),
        Err(CallErr::Full) => unreachable!(),
    }
}

/// Restarts the replicas at the slots of a node, up to the first that refuses.
pub(crate) fn restart_all<D: Disk>(
    replicas: &mut Replicas<D>,
    slots: &[Slot],
    node: u8,
    pick: u64,
) -> Result<(), Refused>
    requires manned { AreManned slots.now replicas.old }
    requires room { HasRoom (2 * length (slots_of_node node slots.now)) replicas.old.events }
    ensures ok { OnOk result (Ran D.state replicas.old (flat_map restart_at (slots_of_node node slots.now)) replicas.new) }
    ensures err { IfErr result (λ refused. EndsRestarts D.state (slots_of_node node slots.now) refused.shard refused.why replicas.old replicas.new) }
{
    for slot in slots {
        if slot.node == node {
            restart_one(replicas, *slot, pick)?;
        }
    }
    Ok(())
}
