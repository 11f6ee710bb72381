//! Nodes whose shards all move away.
ghost use Rattle.std.specs.Prelude.{◌≡◌, ◌<◌, ◌≤◌, ℕ, [], IfOk, IfErr, IfSome, IfNone, length, slice_index};
ghost use Rattle.m3_model.specs.Members.{IsIn};
ghost use Rattle.m3_model.specs.declared.limits.TheConstants.{MOST_NODES, MOST_SHARDS};
ghost use Rattle.placement_core.specs.Shards.{Shard};
ghost use Rattle.placement_core.specs.Lawful.{IsLawful, IsSteady};
ghost use Rattle.placement_core.specs.Steps.{IsStep};
ghost use Rattle.placement_plan.specs.Nodes.{Has, ListsNode};
ghost use Rattle.placement_plan.specs.Choices.{MayTake};
ghost use Rattle.placement_plan.specs.Loads.{LoadsFollow};
ghost use Rattle.placement_plan.specs.Plans.{IsDrain, IsReady, MakesAll, MovesBy, MovesAway};
ghost use Rattle.placement_plan.specs.Refusals.{IsStuck, RefusesDrain};

use m3_model::{Assignment, Duplicate, Instance, Memory, Placement, Seq};
use placement_plan::{
    PlaceErr, drained, first_busy, has_node, listed_node, loads_of, moved, next_version, shift,
    taker,
};
use std::alloc::Global;

// The shard moved away from the node, where the node has it; nothing where no other node may take it.
fn moved_away(
    alloc: Global,
    instances: &[Instance],
    loads: &mut Vec<usize>,
    shard: &Seq<Assignment>,
    version: u64,
    node: u8,
) -> Result<Option<Seq<Assignment>>, Memory>
    requires few { length instances.now ≤ MOST_NODES }
    requires many { length loads.old.items ≡ length instances.now }
    requires small { (n : ℕ) → slice_index loads.old.items n ≤ MOST_SHARDS }
    requires within { Has node shard.now → node < length instances.now }
    requires steady { Has node shard.now → IsSteady shard.now }
    ensures moved { IfOk result (λ next. IfSome next (MovesBy instances.now (slice_index loads.old.items) version node shard.now)) }
    ensures loads { IfOk result (λ next. IfSome next (LoadsFollow (length instances.now) loads.old.items loads.new.items shard.now)) }
    ensures stuck { IfOk result (λ next. IfNone next (Has node shard.now × ((to : ℕ) → ¬ MayTake instances.now shard.now node to))) }
{
    if !has_node(shard.as_slice(), node) {
        return Ok(Some(shard.copy(alloc)?));
    }
    let Some(to) = taker(instances, loads.as_slice(), shard.as_slice(), node) else {
        return Ok(None);
    };
    let next = moved(alloc, shard.as_slice(), version, node, to)?;
    shift(loads, node, to);
    Ok(Some(next))
}

// The shards of a node moved away, one after the other.
fn all_moved_away(
    alloc: Global,
    instances: &[Instance],
    shards: &[Seq<Assignment>],
    version: u64,
    node: u8,
) -> Result<Seq<Seq<Assignment>>, PlaceErr>
    requires few { length instances.now ≤ MOST_NODES }
    requires few_shards { length shards.now ≤ MOST_SHARDS }
    requires node_in { node < length instances.now }
    requires steady { (shard : Shard) → IsIn shards.now shard → Has node shard → IsSteady shard }
    ensures moved { IfOk result (λ next. MakesAll (MovesAway instances.now shards.now next version node) shards.now next) }
    ensures stuck { IfErr result (IsStuck instances.now shards.now node) }
{
    let mut loads = loads_of(alloc, instances.len(), shards)?;
    let mut next = Vec::new(alloc);
    for (number, shard) in shards.iter().enumerate() {
        match moved_away(alloc, instances, &mut loads, shard, version, node)? {
            Some(moved) => next.push(moved)?,
            None => {
                let shard = number as u32;
                return Err(PlaceErr::Group { shard });
            }
        }
    }
    Ok(Seq::from_vec(next))
}

/// The placement where a move of each of the node's shards has begun, and the node is drained. By ascending number each
/// shard goes to the node with the least load of those that may take it, and of these to the one with the smallest name; the
/// earlier moves count. A node that has no shard is drained alone. Refused, the first of these that holds: `Unknown` where
/// no listed node has the name; `Busy` with the least shard that the node has and of which a move goes on, and the node
/// that joins it; `Group` with the least shard that no node may take.
///
/// See M3DB's page "Placement", on removing nodes.
pub fn drain(alloc: Global, place: &Placement, node: &str) -> Result<Placement, PlaceErr>
    requires { IsLawful place.now }
    ensures plan { IfOk result (IsDrain place.now node.now) }
    ensures lawful { IfOk result IsLawful }
    ensures step { IfOk result (λ next. IsStep place.now next []) }
    ensures refused { IfErr result (RefusesDrain place.now node.now) }
{
    let old = place.instances.as_slice();
    let shards = place.shards.as_slice();
    let Some(number) = listed_node(old, node) else {
        return Err(PlaceErr::Unknown);
    };
    if let Some((shard, node)) = first_busy(shards, number) {
        return Err(PlaceErr::Busy { shard, node });
    }
    let version = next_version(place.version)?;
    let shards = match all_moved_away(alloc, old, shards, version, number) {
        Ok(shards) => shards,
        Err(refused) => return Err(refused),
    };
    let instances = drained(alloc, &place.instances, number)?;
    Ok(Placement {
        version,
        rf: place.rf,
        instances,
        shards,
    })
}
