//! Which node takes a shard.
ghost use Rattle.std.specs.Prelude.{◌≡◌, ◌<◌, ◌≤◌, ◌↔◌, ℕ, IfSome, IfNone, IsTrue, length, slice_index, if◌then◌else◌};
ghost use Rattle.std.specs.Ordering.{is_lt};
ghost use Rattle.placement_core.specs.m3_model.declared.limits.TheConstants.{MOST_NODES};
ghost use Rattle.placement_core.specs.NodeNames.{name_of};
ghost use Rattle.placement_plan.specs.Choices.{MayTake, IsLeastLoaded, taking_cmp};

use crate::nodes::name_of;
use crate::shards::has_node;
use isolation_groups::is_free;
use placement_core::of_m3_model::{Assignment, Instance};
use std::cmp::Ordering;

fn compare(instances: &[Instance], loads: &[usize], a: u8, b: u8) -> Ordering
    requires a_in { a < length loads.now }
    requires b_in { b < length loads.now }
    ensures { result ≡ taking_cmp instances.now (slice_index loads.now) a b }
{
    let by_load = loads[a as usize].cmp(&loads[b as usize]);
    by_load.then(name_of(instances, a).cmp(name_of(instances, b)))
}

/// The node, or the best one so far where that one is to be taken before it.
pub fn better(instances: &[Instance], loads: &[usize], best: Option<u8>, node: u8) -> u8
    requires node_in { node < length loads.now }
    requires best_in { IfSome best (λ b. b < length loads.now) }
    ensures alone { IfNone best (result ≡ node) }
    ensures before { IfSome best (λ b. result ≡ (if is_lt (taking_cmp instances.now (slice_index loads.now) node b) then node else b)) }
{
    match best {
        Some(best) => match compare(instances, loads, node, best) {
            Ordering::Less => node,
            Ordering::Equal | Ordering::Greater => best,
        },
        None => node,
    }
}

/// Whether the node may take the shard from the source.
pub fn may_take(instances: &[Instance], shard: &[Assignment], from: u8, node: u8) -> bool
    requires { node < length instances.now }
    ensures { IsTrue result ↔ MayTake instances.now shard.now from node }
{
    let instance = &instances[node as usize];
    if !instance.listed || instance.drained || has_node(shard, node) {
        return false;
    }
    is_free(instances, shard, from, instance.group.as_str())
}

/// Of the nodes that may take the shard from the source, the one with the least load, and of those the one with the
/// smallest name.
pub fn taker(instances: &[Instance], loads: &[usize], shard: &[Assignment], from: u8) -> Option<u8>
    requires few { length instances.now ≤ MOST_NODES }
    requires loads { length loads.now ≡ length instances.now }
    ensures found { IfSome result (IsLeastLoaded instances.now (slice_index loads.now) (MayTake instances.now shard.now from)) }
    ensures none { IfNone result ((node : ℕ) → ¬ MayTake instances.now shard.now from node) }
{
    let mut best = None;
    for number in 0..instances.len() {
        let node = number as u8;
        if may_take(instances, shard, from, node) {
            best = Some(better(instances, loads, best, node));
        }
    }
    best
}
