//! How many shards each node has.
ghost use Rattle.std.specs.Prelude.{◌≡◌, ◌≢◌, ◌<◌, ◌≤◌, IfOk, length, slice_index};
ghost use Rattle.placement_core.specs.m3_model.declared.limits.TheConstants.{MOST_NODES, MOST_SHARDS};
ghost use Rattle.placement_plan.specs.Nodes.{serves, load};
ghost use Rattle.placement_plan.specs.Loads.{AreLoads, IsShifted};

use placement_core::of_m3_model::{Assignment, Memory, Seq, ShardState};
use std::alloc::Global;

/// Whether the node is Available or Initializing in the shard.
pub fn serves(shard: &[Assignment], node: u8) -> bool
    ensures { result ≡ serves node shard.now }
{
    shard
        .iter()
        .any(|a| a.node == node && a.state != ShardState::Leaving)
}

fn load_of(shards: &[Seq<Assignment>], node: u8) -> usize
    ensures { result ≡ load node shards.now }
{
    shards
        .iter()
        .filter(|shard| serves(shard.as_slice(), node))
        .count()
}

/// The loads of so many nodes, by number.
pub fn loads_of(
    alloc: Global,
    nodes: usize,
    shards: &[Seq<Assignment>],
) -> Result<Vec<usize>, Memory>
    requires { nodes ≤ MOST_NODES }
    ensures { IfOk result (λ loads. AreLoads nodes shards.now loads.items) }
{
    let mut loads = Vec::new(alloc);
    for node in 0..nodes {
        loads.push(load_of(shards, node as u8))?;
    }
    Ok(loads)
}

/// The table where a shard has moved from one node to another.
pub fn shift(loads: &mut Vec<usize>, from: u8, to: u8)
    requires from { from < length loads.old.items }
    requires to { to < length loads.old.items }
    requires differ { from ≢ to }
    requires small { slice_index loads.old.items to ≤ MOST_SHARDS }
    ensures { IsShifted loads.old.items loads.new.items from to }
{
    loads[from as usize] = loads[from as usize].saturating_sub(1);
    loads[to as usize] += 1;
}
