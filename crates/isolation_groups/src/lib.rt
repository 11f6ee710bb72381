//! Isolation groups of nodes: no two replicas of a shard stand in one.
#![tactic(auto)]

ghost use Rattle.std.specs.Prelude.{◌≡◌, ◌≢◌, ◌↔◌, All, IsTrue};
ghost use Rattle.isolation_groups.specs.Groups.{group_of, IsFree};

use placement_core::of_m3_model::{Assignment, Instance};

/// The isolation group of the node of this number, empty where no instance has it.
pub fn group_of(instances: &[Instance], node: u8) -> &str
    ensures { result.now ≡ group_of instances.now node }
{
    match instances.get(node as usize) {
        None => "",
        Some(instance) => instance.group.as_str(),
    }
}

fn is_beside(instances: &[Instance], assignment: &Assignment, from: u8, group: &str) -> bool
    ensures { IsTrue result ↔ (assignment.now.node ≢ from → group_of instances.now assignment.now.node ≢ group.now) }
{
    assignment.node == from || group_of(instances, assignment.node) != group
}

fn are_beside(instances: &[Instance], shard: &[Assignment], from: u8, group: &str) -> bool
    ensures { IsTrue result ↔ All (λ a. a.node ≢ from → group_of instances.now a.node ≢ group.now) shard.now }
{
    shard.iter().all(|a| is_beside(instances, a, from, group))
}

/// Whether no other replica of the shard than that of the source is in the group.
pub fn is_free(instances: &[Instance], shard: &[Assignment], from: u8, group: &str) -> bool
    ensures { IsTrue result ↔ IsFree instances.now shard.now from group.now }
{
    are_beside(instances, shard, from, group)
}
