//! What befalls the nodes of a cluster that stands, and the messages to them.
ghost use Rattle.std.specs.Prelude.{◌≡◌, ◌<◌, ◌≤◌, length, IfSome};
ghost use Rattle.m3_model.specs.declared.act.Act.TheVariants as act;
ghost use Rattle.m3_model.specs.Limits.{MeetsLimits};
ghost use Rattle.cluster_members.specs.session_net.Ready.{IsReady};
ghost use Rattle.cluster_members.specs.Names.{node_named};
ghost use Rattle.node_calls.specs.Halts.{AreManned, HaveSameSlots};
ghost use Rattle.node_calls.specs.Nodes.{IsResolved, IsFated, IsDeliverAnswer, IsStopped};

use crate::halts::{slots_of, stop_all};
use cluster_members::Members;
use cluster_members::of_session_net::SessionErr;
use m3_model::{Answer, Fate, Instance, Seq, Text};
use m3_outside::Disk;
use net_plan::Fates;
use std::alloc::Global;

/// The number of the listed node of this name. There are at most 16.
pub fn node_named(instances: &[Instance], name: &str) -> Option<usize>
    ensures found { result ≡ node_named name.now instances.now }
    ensures below { IfSome result (λ node. node < length instances.now) }
{
    instances.iter().position(|instance| instance.listed && instance.name.as_str() == name)
}

// The list with numbers in place of names, or the answer that refuses it: the first name that no node has, or want of
// memory.
fn resolved(
    alloc: Global,
    instances: &[Instance],
    list: Seq<(u32, u64, Text, Fate)>,
) -> Result<Seq<(u32, u64, u8, Fate)>, Answer>
    requires { length instances.now ≤ 256 }
    ensures { IsResolved instances.now list result }
{
    let mut numbered = Vec::new(alloc);
    for (client, call, name, fate) in list.into_vec() {
        let Some(node) = node_named(instances, name.as_str()) else {
            return Err(Answer::Unknown { name });
        };
        if numbered.push((client, call, node as u8, fate)).is_err() {
            return Err(Answer::Memory);
        }
    }
    Ok(Seq::from_vec(numbered))
}

/// Sets what becomes of messages, in place of all earlier fates. `Unknown` names the first name that no node has;
/// nothing changes then.
pub fn set_fates<D: Disk>(
    members: &mut Members<D>,
    alloc: Global,
    list: Seq<(u32, u64, Text, Fate)>,
) -> Answer
    requires { MeetsLimits (act.Fates list) }
    ensures { IsFated members.old list result members.new }
{
    match resolved(alloc, members.net.state.place.instances.as_slice(), list) {
        Ok(numbered) => {
            members.net.fates = Fates::new(numbered);
            Answer::Done
        }
        Err(refused) => refused,
    }
}

/// Delivers the late writes. `Full` says that the list lacks room for what they may add; nothing changes then.
pub fn deliver<D: Disk>(members: &mut Members<D>, alloc: Global) -> Answer
    requires ready { IsReady members.old.net.state members.old.net.replicas members.old.net.bag }
    ensures delivered { IsDeliverAnswer D.state members.old result members.new }
    ensures ready { IsReady members.new.net.state members.new.net.replicas members.new.net.bag }
    ensures past { members.new.past.items ≡ members.old.past.items }
    ensures same_slots { HaveSameSlots members.old.net.replicas members.new.net.replicas }
{
    match cluster_members::deliver(&mut members.net, alloc) {
        Ok(outcomes) => Answer::Outcomes { outcomes },
        Err(SessionErr::Full) => Answer::Full,
        Err(_) => Answer::Memory,
    }
}

/// Stops a node, and with it each of its replicas. `Unknown` says that no node has the name, `State` that it is stopped,
/// and `Full` that the list lacks room for two events for each slot of the node; nothing changes then.
pub fn stop<D: Disk>(members: &mut Members<D>, name: Text) -> Answer
    requires ready { IsReady members.old.net.state members.old.net.replicas members.old.net.bag }
    requires manned { AreManned members.old.slots.items members.old.net.replicas }
    ensures stopped { IsStopped D.state members.old name result members.new }
    ensures ready { IsReady members.new.net.state members.new.net.replicas members.new.net.bag }
    ensures past { members.new.past.items ≡ members.old.past.items }
    ensures same_slots { HaveSameSlots members.old.net.replicas members.new.net.replicas }
{
    let instances = members.net.state.place.instances.as_slice();
    let Some(node) = node_named(instances, name.as_str()) else {
        return Answer::Unknown { name };
    };
    if members.stopped[node] {
        return Answer::State { node: name };
    }
    let slots = members.slots.as_slice();
    if !members
        .net
        .replicas
        .has_room(2 * slots_of(slots, node as u8))
    {
        return Answer::Full;
    }
    stop_all(&mut members.net.replicas, slots, node as u8);
    members.stopped[node] = true;
    Answer::Done
}
