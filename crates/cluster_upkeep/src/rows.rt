//! The replicas of a placement, in the order in which upkeep goes over them.
ghost use Rattle.std.specs.Prelude.{◌≡◌, ◌<◌, ◌^◌, length, IfOk, OnOk};
ghost use Rattle.cluster_upkeep.specs.Rows.{AreRowsBelow, HasShardRows};

use m3_model::{Memory, Placement, ShardState};
use node_calls::of_replica_exchange::Slot;
use placement_core::members;
use std::alloc::Global;

/// A replica of the placement: its slot, and the state in which its node has the shard.
#[derive(Clone, Copy)]
pub(crate) struct Row {
    pub(crate) slot: Slot,
    pub(crate) state: ShardState,
}

// Lists the replicas of a shard behind the others, by the names of their nodes.
fn add_shard(
    alloc: Global,
    place: &Placement,
    shard: u32,
    rows: &mut Vec<Row>,
) -> Result<(), Memory>
    requires below { shard < length place.now.shards }
    ensures { OnOk result (HasShardRows place.entry.now shard rows.old.items rows.new.items) }
{
    let members = members(alloc, place, shard)?;
    let listed = members.as_slice();
    for member in listed {
        let slot = Slot {
            shard,
            node: member.node,
        };
        rows.push(Row {
            slot,
            state: member.state,
        })?;
    }
    Ok(())
}

/// All replicas of the placement, by shard and then by the names of their nodes. Refused only for want of memory.
pub(crate) fn all_rows(alloc: Global, place: &Placement) -> Result<Vec<Row>, Memory>
    requires few { length place.now.shards < 2 ^ 32 }
    ensures { IfOk result (λ rows. AreRowsBelow place.entry.now (length place.entry.now.shards) rows.items) }
{
    let mut rows = Vec::new(alloc);
    for shard in 0..place.shards.len() as u32 {
        add_shard(alloc, place, shard, &mut rows)?;
    }
    Ok(rows)
}
