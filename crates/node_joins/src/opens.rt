//! One replica of a node: it begins, and where it joins its shard former ones stream to it.
ghost use Rattle.std.specs.Prelude.{◌≡◌, ◌≢◌, ◌<◌, ℕ, None, Some, length};
ghost use Rattle.std.specs.FinMap as finite;
ghost use Rattle.m3_model.specs.Members.{IsIn};
ghost use Rattle.m3_model.specs.declared.placement.ShardState.TheVariants.{Initializing as Joins};
ghost use Rattle.placement_core.specs.Lawful.{IsLawful};
ghost use Rattle.placement_core.specs.Shards.{nodes_of, shard_at};
ghost use Rattle.session_net.specs.cluster_core.Earlier.{HasTenure};
ghost use Rattle.session_net.specs.Runs.{slot_at};
ghost use Rattle.node_joins.specs.Opens.{IsOpenTried, join_told};
ghost use Rattle.node_joins.specs.Unowned.{CameUnowned};

use crate::begins::begin;
use crate::joined::JoinedShard;
use crate::open_err::OpenErr;
use m3_model::{Assignment, Placement, Reason, ShardState};
use peer_boot::{Asking, BootErr, join_shard};
use session_net::Replicas;
use session_net::of_m3_outside::Disk;
use session_net::of_replica_exchange::Slot;
use std::alloc::Global;

// What a join that ended early says of the node: a replica that is closed, or doesn't own the shard any more, is passed over.
fn not_joined(shard: u32, why: BootErr) -> Result<Option<JoinedShard>, OpenErr>
    ensures { result ≡ join_told shard why }
{
    match why {
        BootErr::Own(Reason::Down | Reason::Boot | Reason::NotOwned) => Ok(None),
        BootErr::Own(why) => Err(OpenErr::Refused { shard, why }),
        BootErr::Peers {
            needed,
            got,
            reasons,
        } => Err(OpenErr::Peers {
            shard,
            needed,
            got,
            reasons,
        }),
        BootErr::Full => Err(OpenErr::Full),
    }
}

// Begins the replica that joins the shard, taking over from this node, and has former ones stream to it.
fn open_joining<D: Disk>(
    replicas: &mut Replicas<D>,
    alloc: Global,
    place: &Placement,
    shard: u32,
    own: &Assignment,
    source: u8,
) -> Result<Option<JoinedShard>, OpenErr>
    requires lawful { IsLawful place.now }
    requires below { shard < length place.now.shards }
    requires among { IsIn (shard_at place.now shard) own.now }
    requires joins { own.now.state ≡ Joins }
    requires source { own.now.source ≡ Some source }
    requires tenure { HasTenure replicas.old.events own.now.node shard own.now.tenure }
    requires there { (n : ℕ) → IsIn (nodes_of (shard_at place.now shard)) n → finite.get replicas.old.members (slot_at n shard) ≢ None }
    ensures tried { IsOpenTried D.state place.entry.now shard own.now replicas.old replicas.new result }
    ensures unowned { CameUnowned D.state replicas.old replicas.new }
{
    let asking = Asking::of(alloc, place, shard)?;
    let slot = Slot {
        shard,
        node: own.node,
    };
    if !begin(replicas, slot, own.tenure)? {
        return Ok(None);
    }
    match join_shard(replicas, place, asking, shard, own.node, own.tenure) {
        Ok(merged) => Ok(Some(JoinedShard::of(source, merged))),
        Err(why) => not_joined(shard, why),
    }
}

// Begins the replica, which joins no shard.
fn open_alone<D: Disk>(
    replicas: &mut Replicas<D>,
    place: &Placement,
    shard: u32,
    own: &Assignment,
) -> Result<Option<JoinedShard>, OpenErr>
    requires below { shard < length place.now.shards }
    requires among { IsIn (shard_at place.now shard) own.now }
    requires stays { own.now.state ≢ Joins }
    requires tenure { HasTenure replicas.old.events own.now.node shard own.now.tenure }
    requires there { finite.get replicas.old.members (slot_at own.now.node shard) ≢ None }
    ensures tried { IsOpenTried D.state place.entry.now shard own.now replicas.old replicas.new result }
    ensures unowned { CameUnowned D.state replicas.old replicas.new }
{
    let slot = Slot {
        shard,
        node: own.node,
    };
    begin(replicas, slot, own.tenure)?;
    Ok(None)
}

/// Begins the replica to which the placement gives the shard by this assignment, with its tenure, and joins it where it is Initializing. None where it
/// joins no shard, or is passed over.
pub(crate) fn open_one<D: Disk>(
    replicas: &mut Replicas<D>,
    alloc: Global,
    place: &Placement,
    shard: u32,
    own: &Assignment,
) -> Result<Option<JoinedShard>, OpenErr>
    requires lawful { IsLawful place.now }
    requires below { shard < length place.now.shards }
    requires among { IsIn (shard_at place.now shard) own.now }
    requires tenure { HasTenure replicas.old.events own.now.node shard own.now.tenure }
    requires there { (n : ℕ) → IsIn (nodes_of (shard_at place.now shard)) n → finite.get replicas.old.members (slot_at n shard) ≢ None }
    ensures tried { IsOpenTried D.state place.entry.now shard own.now replicas.old replicas.new result }
    ensures unowned { CameUnowned D.state replicas.old replicas.new }
{
    match own.state {
        ShardState::Initializing => match own.source {
            Some(source) => open_joining(replicas, alloc, place, shard, own, source),
            None => unreachable!(),
        },
        _ => open_alone(replicas, place, shard, own),
    }
}
