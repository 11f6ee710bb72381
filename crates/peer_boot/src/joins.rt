//! Joins of shards: former replicas stream, by name, until a majority did so whole.
ghost use Rattle.std.specs.Prelude.{◌≡◌, ◌≢◌, ◌<◌, ℕ, suc, None, length, List, [], IfErr, IsPermutation, drop};
ghost use Rattle.std.specs.FinMap as finite;
ghost use Rattle.m3_model.specs.Ascends.{Ascends};
ghost use Rattle.m3_model.specs.Levels.{majority};
ghost use Rattle.m3_model.specs.Members.{IsIn};
ghost use Rattle.placement_core.specs.NodeNames.{IsNamedBelow};
ghost use Rattle.placement_core.specs.Shards.{former, nodes_of, shard_at};
ghost use Rattle.session_net.specs.Runs.{slot_at};
ghost use Rattle.session_net.specs.Tallies.{HasRoom as Counts};
ghost use Rattle.peer_boot.specs.Asks.{AsksOf, HasAsked};
ghost use Rattle.peer_boot.specs.Tries.{IsJoinTried};
ghost use Rattle.peer_boot.specs.declared.boot_err.BootErr.TheVariants as errors;

use crate::asking::Asking;
use crate::boot_err::BootErr;
use crate::merged::Merged;
use crate::stream_err::StreamErr;
use crate::streams::stream_from;
use m3_model::{Placement, Seq};
use quorum_count::majority;
use session_net::of_m3_outside::Disk;
use session_net::of_replica_exchange::Slot;
use session_net::{Replicas, Tally};

// Has a former replica stream to the joining one, and counts it: without a reason where it streamed whole.
fn ask<D: Disk>(
    replicas: &mut Replicas<D>,
    from: Slot,
    to: Slot,
    tenure: u64,
    tally: &mut Tally,
) -> Result<(), BootErr>
    requires one_shard { from.shard ≡ to.shard }
    requires from_there { finite.get replicas.old.members from ≢ None }
    requires to_there { finite.get replicas.old.members to ≢ None }
    requires counts { Counts 1 tally.old }
    ensures { HasAsked D.state from.shard from.node to.node tenure tally.old tally.new replicas.old replicas.new result }
{
    match stream_from(replicas, from, to, tenure) {
        Ok(cover) => {
            tally.add(cover.into_peer(), None);
            Ok(())
        }
        Err(StreamErr::From(why)) => {
            tally.add(from.node, Some(why));
            Ok(())
        }
        Err(StreamErr::To(why)) => Err(BootErr::Own(why)),
        Err(StreamErr::Full) => Err(BootErr::Full),
    }
}

// That these streamed whole.
fn merged(to: Slot, tenure: u64, tally: Tally) -> Merged
    ensures { result ≡ record { shard = to.shard; node = to.node; tenure = tenure; peers = tally.answered.items } }
{
    let Tally { answered, .. } = tally;
    Merged::of(to.shard, to.node, tenure, Seq::from_vec(answered))
}

// That too few did.
fn missed(needed: u32, tally: Tally) -> BootErr
    requires { length tally.answered.items < needed }
    ensures { result ≡ errors.Peers needed (length tally.answered.items) tally.reasons.items }
{
    BootErr::Peers {
        needed,
        got: tally.answered.len() as u32,
        reasons: Seq::from_vec(tally.reasons),
    }
}

// Asks these one after the other, until a majority streamed whole.
fn join_from<D: Disk>(
    replicas: &mut Replicas<D>,
    place: &Placement,
    peers: &[u8],
    to: Slot,
    tenure: u64,
    empty: Tally,
) -> Result<Merged, BootErr>
    requires same { IsPermutation (former (shard_at place.now to.shard)) peers.now }
    requires by_name { Ascends (IsNamedBelow place.now) peers.now }
    requires there { (n : ℕ) → IsIn peers.now n → finite.get replicas.old.members (slot_at n to.shard) ≢ None }
    requires to_there { finite.get replicas.old.members to ≢ None }
    requires counts { Counts (length peers.now) empty }
    requires none_answered { empty.answered.items ≡ [] }
    requires none_refused { empty.reasons.items ≡ [] }
    ensures { IsJoinTried D.state place.entry.now to.shard to.node tenure replicas.old replicas.new result }
{
    let mut tally = empty;
    let needed = majority(place.rf);
    for peer in peers {
        let from = Slot {
            shard: to.shard,
            node: *peer,
        };
        ask(replicas, from, to, tenure, &mut tally)?;
        if needed as usize <= tally.answered.len() {
            return Ok(merged(to, tenure, tally));
        }
    }
    Err(missed(needed, tally))
}

/// Has the former replicas of the shard, by name and from the first on, stream to the node that joins it with this tenure, until a
/// majority of them streamed whole. The node's replica has begun with the tenure, and no former one is asked once a majority streamed.
/// Takes no memory of its own.
///
/// # Errors
///
/// `Peers` where all were asked and fewer streamed whole, with one reason for each of the others; `Own` where the joining replica
/// refused to merge; `Full` where the list of events lacks room for what comes next. What was merged, and the fences, stay.
pub fn join_shard<D: Disk>(
    replicas: &mut Replicas<D>,
    place: &Placement,
    asking: Asking,
    shard: u32,
    node: u8,
    tenure: u64,
) -> Result<Merged, BootErr>
    requires asks { AsksOf place.now shard asking }
    requires there { (n : ℕ) → IsIn (nodes_of (shard_at place.now shard)) n → finite.get replicas.old.members (slot_at n shard) ≢ None }
    requires joins { IsIn (nodes_of (shard_at place.now shard)) node }
    ensures { IsJoinTried D.state place.entry.now shard node tenure replicas.old replicas.new result }
{
    let Asking { peers, tally, .. } = asking;
    let to = Slot { shard, node };
    join_from(replicas, place, peers.as_slice(), to, tenure, tally)
}
