//! First placements.
ghost use Rattle.std.specs.Prelude.{◌≡◌, ◌≢◌, ◌<◌, ◌≤◌, ◌^◌, ◌↔◌, ℕ, List, [], ◌∷◌, ◌++◌, All, IfOk, IfErr, IfSome, IfNone, IsTrue, Some, length, slice_get, slice_index, take};
ghost use Rattle.m3_model.specs.Limits.{IsInit};
ghost use Rattle.m3_model.specs.declared.limits.TheConstants.{MOST_REPLICAS, MOST_SHARDS, MOST_NODES};
ghost use Rattle.placement_plan.specs.First.{first_instances, IsFirstPlacement, MayHold, IsPlacedShard, IsInitial, HasGroups, LacksGroups, RefusesInitial};
ghost use Rattle.placement_core.specs.Shards.{Shard};
ghost use Rattle.placement_core.specs.Lawful.{IsLawful};
ghost use Rattle.isolation_groups.specs.Groups.{group_of};
ghost use Rattle.placement_plan.specs.Choices.{IsLeastLoaded};
ghost use Rattle.placement_plan.specs.Loads.{AreLoads, IsRaised};

use isolation_groups::group_of;
use m3_model::{Assignment, Instance, Memory, Placement, Seq, ShardState, Text};
use placement_plan::{PlaceErr, better, loads_of};
use std::alloc::Global;

fn is_new_group(instances: &[Instance], shard: &[Assignment], node: u8) -> bool
    ensures { IsTrue result ↔ All (λ a. group_of instances.now a.node ≢ group_of instances.now node) shard.now }
{
    let group = group_of(instances, node);
    shard.iter().all(|a| group_of(instances, a.node) != group)
}

// Of the nodes whose group doesn't have the shard yet, the one with the least load, and of those the one with the
// smallest name.
fn holder(instances: &[Instance], loads: &[usize], shard: &[Assignment]) -> Option<u8>
    requires few { length instances.now ≤ MOST_NODES }
    requires loads { length loads.now ≡ length instances.now }
    ensures found { IfSome result (IsLeastLoaded instances.now (slice_index loads.now) (MayHold instances.now shard.now)) }
    ensures none { IfNone result ((node : ℕ) → ¬ MayHold instances.now shard.now node) }
{
    let mut best = None;
    for number in 0..instances.len() {
        let node = number as u8;
        if is_new_group(instances, shard, node) {
            best = Some(better(instances, loads, best, node));
        }
    }
    best
}

// The table where the node has one shard more.
fn raise(loads: &mut Vec<usize>, node: u8)
    requires node { node < length loads.old.items }
    requires small { slice_index loads.old.items node < 2 ^ 32 }
    ensures { IsRaised loads.old.items loads.new.items node }
{
    loads[node as usize] += 1;
}

// One more shard; nothing where there are too few groups.
fn placed_shard(
    alloc: Global,
    instances: &[Instance],
    loads: &mut Vec<usize>,
    rf: u32,
) -> Result<Option<Seq<Assignment>>, Memory>
    requires few { length instances.now ≤ MOST_NODES }
    requires many { length loads.old.items ≡ length instances.now }
    requires small { (n : ℕ) → slice_index loads.old.items n ≤ MOST_SHARDS }
    requires replicas { rf ≤ MOST_REPLICAS }
    ensures placed { IfOk result (λ shard. IfSome shard (λ shard. (lower : List Shard) → AreLoads (length instances.now) lower loads.old.items → IsPlacedShard rf instances.now lower shard)) }
    ensures loads { IfOk result (λ shard. IfSome shard (λ shard. (lower : List Shard) → AreLoads (length instances.now) lower loads.old.items → AreLoads (length instances.now) (lower ++ shard ∷ []) loads.new.items)) }
    ensures stuck { IfOk result (λ shard. IfNone shard (¬ HasGroups rf instances.now)) }
{
    let mut shard: Vec<Assignment> = Vec::new(alloc);
    for count in 0..rf {
        let Some(node) = holder(instances, loads.as_slice(), shard.as_slice()) else {
            return Ok(None);
        };
        shard.push(Assignment {
            node,
            tenure: 1,
            state: ShardState::Available,
            source: None,
        })?;
        raise(loads, node);
    }
    Ok(Some(Seq::from_vec(shard)))
}

fn placed_shards(
    alloc: Global,
    instances: &[Instance],
    rf: u32,
    shards: u32,
) -> Result<Seq<Seq<Assignment>>, PlaceErr>
    requires few { length instances.now ≤ MOST_NODES }
    requires few_shards { shards ≤ MOST_SHARDS }
    requires replicas { rf ≤ MOST_REPLICAS }
    ensures count { IfOk result (λ next. length next ≡ shards) }
    ensures each { IfOk result (λ next. (s : ℕ) (shard : Shard) → slice_get next s ≡ Some shard → IsPlacedShard rf instances.now (take s next) shard) }
    ensures stuck { IfErr result (LacksGroups rf instances.now) }
{
    let mut next: Vec<Seq<Assignment>> = Vec::new(alloc);
    let mut loads = loads_of(alloc, instances.len(), next.as_slice())?;
    for number in 0..shards {
        match placed_shard(alloc, instances, &mut loads, rf)? {
            Some(shard) => next.push(shard)?,
            None => return Err(PlaceErr::Group { shard: 0 }),
        }
    }
    Ok(Seq::from_vec(next))
}

fn instances_of(alloc: Global, nodes: Seq<(Text, Text)>) -> Result<Seq<Instance>, Memory>
    ensures { IfOk result (λ instances. instances ≡ first_instances nodes) }
{
    let mut instances = Vec::new(alloc);
    for (name, group) in nodes.into_vec() {
        instances.push(Instance {
            name,
            group,
            listed: true,
            drained: false,
        })?;
    }
    Ok(Seq::from_vec(instances))
}

/// The placement that a cluster of these nodes, given by name and isolation group, begins with: `rf` replicas of each of
/// so many shards, Available from version 1 on. Shard by shard and replica by replica the node with the least load is
/// taken whose group doesn't have the shard yet, and of these the one with the smallest name. `rf` is 1 to 5, there are 1
/// to 64 shards and 1 to 16 nodes, whose names differ. Refused `Group` of shard 0 where the nodes are in fewer than `rf`
/// groups.
///
/// See M3DB's pages "Placement" and "Placement Configuration".
pub fn initial(
    alloc: Global,
    rf: u32,
    shards: u32,
    nodes: Seq<(Text, Text)>,
) -> Result<Placement, PlaceErr>
    requires { IsInit rf shards 0 nodes }
    ensures plan { IfOk result (IsInitial rf shards nodes) }
    ensures lawful { IfOk result IsLawful }
    ensures first { IfOk result (IsFirstPlacement rf shards nodes) }
    ensures refused { IfErr result (RefusesInitial rf nodes) }
{
    let instances = instances_of(alloc, nodes)?;
    let shards = match placed_shards(alloc, instances.as_slice(), rf, shards) {
        Ok(shards) => shards,
        Err(refused) => return Err(refused),
    };
    Ok(Placement {
        version: 1,
        rf,
        instances,
        shards,
    })
}
