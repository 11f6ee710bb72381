//! What is in the way of a move.
ghost use Rattle.std.specs.Prelude.{◌≡◌, ◌≢◌, ◌≤◌, ◌↔◌, ℕ, false, IfSome, IfNone, IsTrue, length};
ghost use Rattle.placement_core.specs.m3_model.Members.{IsIn};
ghost use Rattle.placement_core.specs.m3_model.declared.placement.Assignment.{Assignment as Replica};
ghost use Rattle.placement_core.specs.m3_model.declared.placement.ShardState.TheVariants.{Initializing};
ghost use Rattle.placement_core.specs.m3_model.declared.limits.TheConstants.{MOST_SHARDS};
ghost use Rattle.placement_core.specs.Shards.{Shard, is_steady};
ghost use Rattle.placement_core.specs.Lawful.{IsShard};
ghost use Rattle.placement_plan.specs.Nodes.{Has, IsFirstWhere};
ghost use Rattle.isolation_groups.specs.Groups.{IsFree};
ghost use Rattle.placement_plan.specs.Plans.{IsReady};
ghost use Rattle.placement_plan.specs.Refusals.{IsBusy, IsInitializing};

use crate::shards::has_node;
use isolation_groups::is_free;
use placement_core::of_m3_model::{Assignment, Instance, Seq, ShardState};

fn joining_node(shard: &[Assignment]) -> Option<u8>
    ensures found { IfSome result (λ node. IsInitializing node shard.now) }
    ensures none { IfNone result ((a : Replica) → IsIn shard.now a → a.state ≢ Initializing) }
{
    for a in shard {
        match a.state {
            ShardState::Initializing => return Some(a.node),
            ShardState::Available | ShardState::Leaving => {}
        }
    }
    None
}

// The node that joins the shard, where the node asked about has it.
fn busy_in(shard: &Seq<Assignment>, node: u8) -> Option<u8>
    requires { (rf : ℕ) × ((version : ℕ) × IsShard rf version shard.now) }
    ensures found { IfSome result (λ joining. (Has node shard.now × (is_steady shard.now ≡ false)) × IsInitializing joining shard.now) }
    ensures none { IfNone result (¬ (Has node shard.now × (is_steady shard.now ≡ false))) }
{
    if has_node(shard.as_slice(), node) {
        joining_node(shard.as_slice())
    } else {
        None
    }
}

/// The least shard that the node has and of which a move goes on, with the node that joins it.
pub fn first_busy(shards: &[Seq<Assignment>], node: u8) -> Option<(u32, u8)>
    requires few { length shards.now ≤ MOST_SHARDS }
    requires shards { (shard : Shard) → IsIn shards.now shard → (rf : ℕ) × ((version : ℕ) × IsShard rf version shard) }
    ensures found { IfSome result (λ busy. IsBusy shards.now node busy.0 busy.1) }
    ensures none { IfNone result (IsReady shards.now node) }
{
    for (number, shard) in shards.iter().enumerate() {
        match busy_in(shard, node) {
            Some(joining) => return Some((number as u32, joining)),
            None => {}
        }
    }
    None
}

fn is_taken(instances: &[Instance], shard: &Seq<Assignment>, node: u8, group: &str) -> bool
    ensures { IsTrue result ↔ (Has node shard.now × ¬ IsFree instances.now shard.now node group.now) }
{
    has_node(shard.as_slice(), node) && !is_free(instances, shard.as_slice(), node, group)
}

/// The least shard that the node has and that has another replica in the group.
pub fn first_taken(
    instances: &[Instance],
    shards: &[Seq<Assignment>],
    node: u8,
    group: &str,
) -> Option<u32>
    requires { length shards.now ≤ MOST_SHARDS }
    ensures found { IfSome result (IsFirstWhere (λ shard. Has node shard × ¬ IsFree instances.now shard node group.now) shards.now) }
    ensures none { IfNone result ((shard : Shard) → IsIn shards.now shard → ¬ (Has node shard × ¬ IsFree instances.now shard node group.now)) }
{
    for (number, shard) in shards.iter().enumerate() {
        if is_taken(instances, shard, node, group) {
            return Some(number as u32);
        }
    }
    None
}
