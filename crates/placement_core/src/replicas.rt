//! Who serves a shard, in the order of the nodes' names.
ghost use Rattle.std.specs.Prelude.{◌≡◌, ◌<◌, length, map, filter, IfOk, IsPermutation, IsSortedByKey};
ghost use Rattle.std.specs.Ordering.{nat_cmp};
ghost use Rattle.std.specs.Cmp.Lexicographic.{slice_cmp};
ghost use Rattle.m3_model.specs.Ascends.{Ascends};
ghost use Rattle.placement_core.specs.NodeNames.{IsNamedBelow, name_of};
ghost use Rattle.placement_core.specs.Shards.{shard_at, is_available, is_holder, is_steady, nodes_of, counted, holders, former};
ghost use Rattle.placement_core.specs.Lawful.{IsLawful};

use crate::names::compare_names;
use m3_model::{Assignment, Instance, Memory, Placement, Seq, ShardState};
use std::alloc::Global;

fn assignments_of(place: &Placement, shard: u32) -> &[Assignment]
    requires { shard < length place.now.shards }
    ensures { result.now ≡ shard_at place.now shard }
{
    place.shards.as_slice()[shard as usize].as_slice()
}

fn is_steady(shard: &[Assignment]) -> bool
    ensures { result ≡ is_steady shard.now }
{
    shard.iter().all(|a| a.state == ShardState::Available)
}

fn counted_nodes(alloc: Global, shard: &[Assignment]) -> Result<Vec<u8>, Memory>
    ensures { IfOk result (λ nodes. nodes.items ≡ counted shard.now) }
{
    let nodes = shard
        .iter()
        .filter(|a| a.state == ShardState::Available)
        .map(|a| a.node)
        .collect(alloc)?;
    Ok(nodes)
}

fn holding_nodes(alloc: Global, shard: &[Assignment]) -> Result<Vec<u8>, Memory>
    ensures { IfOk result (λ nodes. nodes.items ≡ holders shard.now) }
{
    let nodes = shard
        .iter()
        .filter(|a| a.state != ShardState::Initializing)
        .map(|a| a.node)
        .collect(alloc)?;
    Ok(nodes)
}

fn sorted_nodes(instances: &[Instance], mut nodes: Vec<u8>) -> Result<Seq<u8>, Memory>
    ensures same { IfOk result (λ ordered. IsPermutation nodes.items ordered) }
    ensures order { IfOk result (λ ordered. IsSortedByKey (name_of instances.now) (slice_cmp nat_cmp) ordered) }
{
    nodes.sort_by(|a, b| compare_names(instances, *a, *b))?;
    Ok(Seq::from_vec(nodes))
}

fn sorted_assignments(
    instances: &[Instance],
    mut all: Vec<Assignment>,
) -> Result<Seq<Assignment>, Memory>
    ensures same { IfOk result (λ ordered. IsPermutation all.items ordered) }
    ensures order { IfOk result (λ ordered. IsSortedByKey (λ a. name_of instances.now a.node) (slice_cmp nat_cmp) ordered) }
{
    all.sort_by(|a, b| compare_names(instances, a.node, b.node))?;
    Ok(Seq::from_vec(all))
}

/// The nodes whose answers count for reads and writes of the shard: those where it is Available, ascending by the bytes
/// of their names. `shard` is below the number of shards. Refused only for want of memory.
///
/// See M3DB's pages "Placement" and "Consistency Levels".
pub fn counted(alloc: Global, place: &Placement, shard: u32) -> Result<Seq<u8>, Memory>
    requires { shard < length place.now.shards }
    ensures same { IfOk result (λ nodes. IsPermutation (counted (shard_at place.now shard)) nodes) }
    ensures by_name { IsLawful place.now → IfOk result (λ nodes. Ascends (IsNamedBelow place.now) nodes) }
{
    let nodes = counted_nodes(alloc, assignments_of(place, shard))?;
    sorted_nodes(place.instances.as_slice(), nodes)
}

/// All assignments of the shard, ascending by the bytes of the nodes' names. `shard` is below the number of shards.
/// Refused only for want of memory.
///
/// See M3DB's page "Placement".
pub fn members(alloc: Global, place: &Placement, shard: u32) -> Result<Seq<Assignment>, Memory>
    requires { shard < length place.now.shards }
    ensures same { IfOk result (λ all. IsPermutation (shard_at place.now shard) all) }
    ensures by_name { IsLawful place.now → IfOk result (λ all. Ascends (λ a b. IsNamedBelow place.now a.node b.node) all) }
{
    let instances = place.instances.as_slice();
    let all = Vec::from_slice(alloc, assignments_of(place, shard))?;
    sorted_assignments(instances, all)
}

/// The nodes that a joining node asks for the shard's points: where a move of the shard goes on, those where it is
/// Available or Leaving, ascending by the bytes of their names, and else none. `shard` is below the number of shards.
/// Refused only for want of memory.
///
/// See M3DB's pages "Placement" and "Peers bootstrapping".
pub fn former(alloc: Global, place: &Placement, shard: u32) -> Result<Seq<u8>, Memory>
    requires { shard < length place.now.shards }
    ensures same { IfOk result (λ nodes. IsPermutation (former (shard_at place.now shard)) nodes) }
    ensures by_name { IsLawful place.now → IfOk result (λ nodes. Ascends (IsNamedBelow place.now) nodes) }
{
    let assignments = assignments_of(place, shard);
    if is_steady(assignments) {
        return Ok(Seq::new(alloc));
    }
    let nodes = holding_nodes(alloc, assignments)?;
    sorted_nodes(place.instances.as_slice(), nodes)
}
