//! Nodes that start again: restarts, and shards that a bootstrap asks for and that aren't there.
ghost use Rattle.std.specs.Prelude.{◌≡◌, ◌<◌, ◌≤◌, Some, IfNone, IfSome};
ghost use Rattle.cluster_members.specs.session_net.Ready.{IsReady};
ghost use Rattle.node_calls.specs.Boots.{IsNumberOf};
ghost use Rattle.node_calls.specs.Halts.{AreManned, HaveSameSlots};
ghost use Rattle.node_calls.specs.Nodes.{IsRestarted};

use crate::halts::{restart_all, slots_of, stop_all};
use crate::nodes::node_named;
use cluster_members::Members;
use m3_model::{Answer, Text};
use m3_outside::Disk;
use std::alloc::Global;

/// The shard that is asked for, where there aren't so many.
pub fn missing_shard(asked: Option<u32>, shards: usize) -> Option<u32>
    ensures some { IfSome result (λ shard. (asked ≡ Some shard) × (shards ≤ shard)) }
    ensures none { IfNone result (IfSome asked (λ shard. shard < shards)) }
{
    match asked {
        Some(shard) if shards <= shard as usize => Some(shard),
        _ => None,
    }
}

/// That there is no shard of this number, or that memory is wanted to say so.
pub fn unknown_shard(alloc: Global, shard: u32) -> Answer
    ensures { IsNumberOf shard result }
{
    match format!(in alloc; "{shard}") {
        Ok(name) => Answer::Unknown {
            name: Text::from_string(name),
        },
        Err(_) => Answer::Memory,
    }
}

/// Runs a stopped node again, and restarts each of its replicas. `Unknown` says that no node has the name, `State`
/// that it runs, and `Full` that the list lacks room for four events for each slot of the node; nothing changes then.
/// Where a replica can't be restarted, by a fault of its disk or for want of memory, all are stopped again.
pub fn restart<D: Disk>(members: &mut Members<D>, name: Text, pick: u64) -> Answer
    requires ready { IsReady members.old.net.state members.old.net.replicas members.old.net.bag }
    requires manned { AreManned members.old.slots.items members.old.net.replicas }
    ensures restarted { IsRestarted D.state members.old name result members.new }
    ensures ready { IsReady members.new.net.state members.new.net.replicas members.new.net.bag }
    ensures past { members.new.past.items ≡ members.old.past.items }
    ensures same_slots { HaveSameSlots members.old.net.replicas members.new.net.replicas }
{
    let instances = members.net.state.place.instances.as_slice();
    let Some(node) = node_named(instances, name.as_str()) else {
        return Answer::Unknown { name };
    };
    if !members.stopped[node] {
        return Answer::State { node: name };
    }
    let slots = members.slots.as_slice();
    if !members
        .net
        .replicas
        .has_room(4 * slots_of(slots, node as u8))
    {
        return Answer::Full;
    }
    if let Err(refused) = restart_all(&mut members.net.replicas, slots, node as u8, pick) {
        stop_all(&mut members.net.replicas, slots, node as u8);
        return refused.answer(name);
    }
    members.stopped[node] = false;
    Answer::Done
}
