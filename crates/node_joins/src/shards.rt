//! All replicas of a node that are asked for, by shard.
ghost use Rattle.std.specs.Prelude.{◌≡◌, ◌≢◌, ◌+◌, ◌<◌, ◌≤◌, ◌^◌, ◌++◌, ℕ, suc, [], None, IfOk, length, vec_len};
ghost use Rattle.std.specs.FinMap as finite;
ghost use Rattle.std.specs.List.{Any};
ghost use Rattle.std.specs.Vec.{vec_capacity};
ghost use Rattle.m3_model.specs.Members.{IsIn};
ghost use Rattle.placement_core.specs.Lawful.{IsLawful};
ghost use Rattle.placement_core.specs.Shards.{nodes_of, shard_at};
ghost use Rattle.transcripts.specs.Waiting.{is_covering};
ghost use Rattle.session_net.specs.Ready.{Places};
ghost use Rattle.session_net.specs.Runs.{slot_at};
ghost use Rattle.node_joins.specs.Shards.{AreTried, IsShardTried, assignment_in, newly};
ghost use Rattle.node_joins.specs.Unowned.{CameUnowned};

use crate::joined::JoinedShard;
use crate::open_err::OpenErr;
use crate::opens::open_one;
use m3_model::{Assignment, Memory, Placement, Seq};
use session_net::Replicas;
use session_net::of_m3_outside::Disk;
use std::alloc::Global;

// Whether a bootstrap of this shard, or of all of a node's, is of the shard.
fn is_covering(shard: u32, asked: Option<u32>) -> bool
    ensures { result ≡ is_covering shard asked }
{
    match asked {
        Some(one) => shard == one,
        None => true,
    }
}

// The node's assignment, if it has the shard.
fn assignment_in(shard: &[Assignment], node: u8) -> Option<Assignment>
    ensures { result ≡ assignment_in node shard.now }
{
    for assignment in shard {
        if assignment.node == node {
            return Some(*assignment);
        }
    }
    None
}

// Opens the node's replica of the shard, if it is asked for and the placement gives it one.
fn open_shard<D: Disk>(
    replicas: &mut Replicas<D>,
    alloc: Global,
    place: &Placement,
    node: u8,
    asked: Option<u32>,
    shard: u32,
) -> Result<Option<JoinedShard>, OpenErr>
    requires lawful { IsLawful place.now }
    requires placed { Any (Places place.now) replicas.old.events }
    requires there { (n s : ℕ) → IsIn (nodes_of (shard_at place.now s)) n → finite.get replicas.old.members (slot_at n s) ≢ None }
    requires below { shard < length place.now.shards }
    ensures tried { IsShardTried D.state node asked place.entry.now shard replicas.old replicas.new result }
    ensures unowned { CameUnowned D.state replicas.old replicas.new }
{
    if !is_covering(shard, asked) {
        return Ok(None);
    }
    match assignment_in(place.shards.as_slice()[shard as usize].as_slice(), node) {
        Some(own) => open_one(replicas, alloc, place, shard, &own),
        None => Ok(None),
    }
}

// None yet, with room for so many.
fn with_room(alloc: Global, room: usize) -> Result<Vec<JoinedShard>, Memory>
    ensures empty { IfOk result (λ joined. joined.items ≡ []) }
    ensures room { IfOk result (λ joined. vec_len joined + room ≤ vec_capacity joined) }
{
    Ok(Vec::with_capacity(alloc, room)?)
}

// Keeps the shard that was joined, if one was.
fn keep(joined: &mut Vec<JoinedShard>, one: Option<JoinedShard>)
    requires { vec_len joined.old + 1 ≤ vec_capacity joined.old }
    ensures items { joined.new.items ≡ joined.old.items ++ newly one }
    ensures room { (n : ℕ) → vec_len joined.old + suc n ≤ vec_capacity joined.old → vec_len joined.new + n ≤ vec_capacity joined.new }
{
    if let Some(one) = one {
        joined.push_reserved(one);
    }
}

/// Opens the replicas of the node, by shard: all, or that of the shard that is asked for. Each begins the tenure that the placement gives it, and each that is
/// Initializing is joined: its former replicas stream to it, by name, until a majority streamed whole. The shards that were joined are answered, by number.
///
/// # Errors
///
/// `Refused` where a replica of the node refuses its begin or a merge by a fault of its disk, for damage or for want of memory; `Peers` where fewer than a
/// majority of the former replicas of a shard streamed whole; `Memory`, between two shards; `Full` where the list of events lacks room for what comes next. What was
/// done until then stays: replicas are open, and what was merged stays merged. Where a replica is passed over that doesn't own its tenure, it began a higher one or
/// its files hold one.
pub fn open_all<D: Disk>(
    replicas: &mut Replicas<D>,
    alloc: Global,
    place: &Placement,
    node: u8,
    asked: Option<u32>,
) -> Result<Seq<JoinedShard>, OpenErr>
    requires lawful { IsLawful place.now }
    requires placed { Any (Places place.now) replicas.old.events }
    requires there { (n s : ℕ) → IsIn (nodes_of (shard_at place.now s)) n → finite.get replicas.old.members (slot_at n s) ≢ None }
    requires few_shards { length place.now.shards < 2 ^ 32 }
    ensures tried { AreTried D.state node asked place.entry.now replicas.old replicas.new result }
    ensures unowned { CameUnowned D.state replicas.old replicas.new }
{
    let mut joined = with_room(alloc, place.shards.len())?;
    for shard in 0..place.shards.len() as u32 {
        let one = open_shard(replicas, alloc, place, node, asked, shard)?;
        keep(&mut joined, one);
    }
    Ok(Seq::from_vec(joined))
}
