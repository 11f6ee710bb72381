//! The line of a `bootstrap`.
ghost use Rattle.std.specs.Prelude.{◌≡◌, ◌≤◌, length};
ghost use Rattle.m3_model.specs.declared.answer.Answer.TheVariants as answer;
ghost use Rattle.m3_model.specs.declared.limits.TheConstants.{MOST_SHARDS};
ghost use Rattle.m3_outside.specs.Slots.{Held};
ghost use Rattle.m3_outside.specs.declared.slot.DiskSlot.{DiskSlot};
ghost use Rattle.placement_core.specs.Lawful.{IsLawful};
ghost use Rattle.placement_plan.specs.Plans.{AreJoining};
ghost use Rattle.node_calls.specs.Nodes.{MayBoot};
ghost use Rattle.node_calls.specs.cluster_members.Kept.{PastServes};
ghost use Rattle.node_calls.specs.session_net.Ready.{IsReady};
ghost use Rattle.cluster_placements.specs.Steps.{MayChange};
ghost use Rattle.cluster_joins.specs.Boots.{IsBooting, MayBeLeft};
ghost use Rattle.cluster_joins.specs.Marks.{done_of};
ghost use Rattle.cluster_joins.specs.Opened.{HasRoomFor, IsUnmoved, MayMark, ended_answer};

use crate::marking::{Booting, Marking};
use crate::parts::marking_of;
use m3_model::limits::MOST_VERSIONS;
use m3_model::{Answer, Duplicate, Placement, Reason, Seq, Text};
use m3_outside::Disk;
use node_calls::of_cluster_members::Members;
use node_calls::{missing_shard, node_named, unknown_shard};
use node_joins::{JoinedShard, OpenErr, open_all};
use std::alloc::Global;

// What is answered where not all replicas of the node were opened.
fn ended(node: Text, why: OpenErr) -> Answer
    ensures { result ≡ ended_answer node why }
{
    match why {
        OpenErr::Refused {
            shard,
            why: Reason::Disk,
        } => Answer::Disk { node, shard },
        OpenErr::Refused {
            shard,
            why: Reason::Corrupt(damage),
        } => Answer::Corrupt {
            node,
            shard,
            damage,
        },
        OpenErr::Peers {
            shard,
            needed,
            got,
            reasons,
        } => Answer::Peers {
            got,
            needed,
            reasons,
            shard,
        },
        OpenErr::Full => Answer::Full,
        OpenErr::Refused { .. } | OpenErr::Memory => Answer::Memory,
    }
}

// What is answered where no shard was joined.
fn unmoved(alloc: Global, place: &Placement) -> Answer
    ensures { IsUnmoved place.now result }
{
    match place.copy(alloc) {
        Ok(placement) => Answer::Available {
            available: Seq::new(alloc),
            version: placement.version,
            placement,
        },
        Err(_) => Answer::Memory,
    }
}

// What is to be marked, with room for the placement that stands and for the events; or the answer where there is none.
fn prepared<D: Disk>(members: &mut Members<D>, marking: Marking) -> Booting
    requires few { length (marking.marked).sources.items ≤ MOST_SHARDS }
    ensures { HasRoomFor members.old marking result members.new }
{
    if members.past.try_reserve(1).is_err() {
        marking.give_up();
        return Booting::Answered(Answer::Memory);
    }
    let sources = marking.marked.sources.len() as u64;
    if !members.net.replicas.has_room(2 + 2 * sources) {
        marking.give_up();
        return Booting::Answered(Answer::Full);
    }
    Booting::Joined(marking)
}

// What is to be marked where the node joined these shards; or the answer, where these are none, as many versions are kept as may be, or
// memory or room is wanted.
fn to_mark<D: Disk>(
    members: &mut Members<D>,
    alloc: Global,
    node: u8,
    joined: Seq<JoinedShard>,
) -> Booting
    requires lawful { IsLawful members.old.net.state.place }
    requires joining { AreJoining members.old.net.state.place.shards (done_of node joined) }
    requires few { length joined ≤ MOST_SHARDS }
    ensures { MayMark members.old node joined result members.new }
{
    if joined.len() == 0 {
        return Booting::Answered(unmoved(alloc, &members.net.state.place));
    }
    if MOST_VERSIONS <= members.past.len() + 1 {
        return Booting::Answered(Answer::Limit {
            limit: MOST_VERSIONS as u64,
        });
    }
    match marking_of(alloc, &members.net.state.place, node, joined) {
        Ok(marking) => prepared(members, marking),
        Err(_) => Booting::Answered(Answer::Memory),
    }
}

// Opens the replicas of the node, which runs.
fn open_running<D: Disk>(
    members: &mut Members<D>,
    alloc: Global,
    name: Text,
    node: u8,
    asked: Option<u32>,
) -> Booting
    requires ready { IsReady members.old.net.state members.old.net.replicas members.old.net.bag }
    requires serves { PastServes members.old }
    requires runs { (may : MayBoot members.old name asked) × (may.runs.node ≡ node) }
    ensures booting { IsBooting D.state members.old name asked result members.new }
    ensures unmarked { MayBeLeft D.state members.old name asked result members.new }
    ensures state { members.new.net.state ≡ members.old.net.state }
    ensures past { members.new.past.items ≡ members.old.past.items }
    ensures ready { IsReady members.new.net.state members.new.net.replicas members.new.net.bag }
    ensures still { (held : DiskSlot → Held D) → MayChange members.old held → MayChange members.new held }
{
    match open_all(
        &mut members.net.replicas,
        alloc,
        &members.net.state.place,
        node,
        asked,
    ) {
        Ok(joined) => to_mark(members, alloc, node, joined),
        Err(why) => Booting::Answered(ended(name, why)),
    }
}

/// Has the replicas of a node that runs begin, each with the tenure that the placement gives it: all, or that of one shard. Each that joins its
/// shard is joined: its former replicas stream to it, by name, behind their fences, until a majority streamed whole. Where some were joined, they are to be
/// marked by `mark`, and all that this takes is in what is handed on; the list has no Place yet. Then `end_sources` answers the line. Else it is answered
/// here: with the placement that stands, or with a refusal. Where the marking is given up, the line may be answered `Memory`.
///
/// Refused: `Unknown` where no node has the name or there is no such shard, and `State` where the node is stopped; nothing changes then. `Disk`, `Corrupt` and
/// want of memory end it at a replica of the node, `Peers` at a shard of which fewer than a majority of the former replicas streamed whole, each of
/// the others with its reason, and `Full` where the list of events lacks room for what comes next; `Limit` comes at its end, where as many versions are
/// kept as may be. Nothing is marked then, and what was done until then stays: replicas are open, and what was merged stays merged.
///
/// See M3DB's page "Bootstrapping".
pub fn open_node<D: Disk>(
    members: &mut Members<D>,
    alloc: Global,
    name: Text,
    asked: Option<u32>,
) -> Booting
    requires ready { IsReady members.old.net.state members.old.net.replicas members.old.net.bag }
    requires serves { PastServes members.old }
    ensures booting { IsBooting D.state members.old name asked result members.new }
    ensures unmarked { MayBeLeft D.state members.old name asked result members.new }
    ensures state { members.new.net.state ≡ members.old.net.state }
    ensures past { members.new.past.items ≡ members.old.past.items }
    ensures ready { IsReady members.new.net.state members.new.net.replicas members.new.net.bag }
    ensures still { (held : DiskSlot → Held D) → MayChange members.old held → MayChange members.new held }
{
    let instances = members.net.state.place.instances.as_slice();
    let Some(node) = node_named(instances, name.as_str()) else {
        return Booting::Answered(Answer::Unknown { name });
    };
    let shards = members.net.state.place.shards.len();
    if let Some(shard) = missing_shard(asked, shards) {
        return Booting::Answered(unknown_shard(alloc, shard));
    }
    if members.stopped[node] {
        return Booting::Answered(Answer::State { node: name });
    }
    open_running(members, alloc, name, node as u8, asked)
}
