//! Nodes that are added.
ghost use Rattle.std.specs.Prelude.{◌≡◌, ◌<◌, ◌≤◌, ◌↔◌, ℕ, List, [], IfOk, IfErr, IfSome, IfNone, IsTrue, length, slice_get, slice_index, if◌then◌else◌};
ghost use Rattle.std.specs.Ordering.{is_lt};
ghost use Rattle.m3_model.specs.Names.{is_name};
ghost use Rattle.m3_model.specs.Members.{IsIn};
ghost use Rattle.m3_model.specs.declared.limits.TheConstants.{MOST_NODES, MOST_SHARDS};
ghost use Rattle.placement_core.specs.Shards.{Shard, is_steady};
ghost use Rattle.placement_core.specs.Lawful.{IsShard, IsLawful};
ghost use Rattle.placement_core.specs.Steps.{IsStep};
ghost use Rattle.placement_plan.specs.Nodes.{IsFirstWhere};
ghost use Rattle.placement_plan.specs.Loads.{AreLoads};
ghost use Rattle.placement_plan.specs.Additions.{MayMove, MayGiveShard, IsGiver, IsNextMove, IsAddition, Rebalances, giving_cmp};
ghost use Rattle.placement_plan.specs.Refusals.{IsMemory, RefusesAdd};

use m3_model::{Assignment, Duplicate, Instance, Memory, Placement, Seq, ShardState};
use placement_plan::{
    PlaceErr, has_node, joined, listed_node, loads_of, may_take, moved, name_of, next_version,
    number_for, shift,
};
use std::alloc::Global;
use std::cmp::Ordering;

fn is_steady(shard: &[Assignment]) -> bool
    ensures { result ≡ is_steady shard.now }
{
    shard.iter().all(|a| a.state == ShardState::Available)
}

fn may_move(instances: &[Instance], shard: &Seq<Assignment>, from: u8, to: u8) -> bool
    requires { to < length instances.now }
    ensures { IsTrue result ↔ MayMove instances.now from to shard.now }
{
    let shard = shard.as_slice();
    is_steady(shard) && has_node(shard, from) && may_take(instances, shard, from, to)
}

// The least shard that can move from the one node to the other.
fn first_to_move(
    instances: &[Instance],
    shards: &[Seq<Assignment>],
    from: u8,
    to: u8,
) -> Option<u32>
    requires to { to < length instances.now }
    requires few { length shards.now ≤ MOST_SHARDS }
    ensures found { IfSome result (IsFirstWhere (MayMove instances.now from to) shards.now) }
    ensures none { IfNone result ((shard : Shard) → IsIn shards.now shard → ¬ MayMove instances.now from to shard) }
{
    for (number, shard) in shards.iter().enumerate() {
        if may_move(instances, shard, from, to) {
            return Some(number as u32);
        }
    }
    None
}

fn may_give(
    instances: &[Instance],
    loads: &[usize],
    shards: &[Seq<Assignment>],
    to: u8,
    from: u8,
) -> bool
    requires to { to < length instances.now }
    requires from { from < length instances.now }
    requires loads { length loads.now ≡ length instances.now }
    requires small { slice_index loads.now to ≤ MOST_SHARDS }
    requires few { length shards.now ≤ MOST_SHARDS }
    ensures { IsTrue result ↔ MayGiveShard (slice_index loads.now) instances.now shards.now to from }
{
    loads[to as usize] + 2 <= loads[from as usize]
        && first_to_move(instances, shards, from, to).is_some()
}

fn heavier(instances: &[Instance], loads: &[usize], best: Option<u8>, node: u8) -> u8
    requires node_in { node < length loads.now }
    requires best_in { IfSome best (λ b. b < length loads.now) }
    ensures alone { IfNone best (result ≡ node) }
    ensures before { IfSome best (λ b. result ≡ (if is_lt (giving_cmp instances.now (slice_index loads.now) node b) then node else b)) }
{
    let Some(best) = best else {
        return node;
    };
    let by_load = loads[best as usize].cmp(&loads[node as usize]);
    match by_load.then(name_of(instances, node).cmp(name_of(instances, best))) {
        Ordering::Less => node,
        Ordering::Equal | Ordering::Greater => best,
    }
}

// The node that gives a shard next.
fn giver(instances: &[Instance], loads: &[usize], shards: &[Seq<Assignment>], to: u8) -> Option<u8>
    requires many { length instances.now ≤ MOST_NODES }
    requires to { to < length instances.now }
    requires loads { length loads.now ≡ length instances.now }
    requires small { slice_index loads.now to ≤ MOST_SHARDS }
    requires few { length shards.now ≤ MOST_SHARDS }
    ensures found { IfSome result (IsGiver (slice_index loads.now) instances.now shards.now to) }
    ensures none { IfNone result ((from : ℕ) → ¬ MayGiveShard (slice_index loads.now) instances.now shards.now to from) }
{
    let mut best = None;
    for number in 0..instances.len() {
        let node = number as u8;
        if may_give(instances, loads, shards, to, node) {
            best = Some(heavier(instances, loads, best, node));
        }
    }
    best
}

// The next shard that moves, and the node that gives it.
fn next_move(
    instances: &[Instance],
    loads: &[usize],
    shards: &[Seq<Assignment>],
    to: u8,
) -> Option<(u32, u8)>
    requires many { length instances.now ≤ MOST_NODES }
    requires to { to < length instances.now }
    requires loads { length loads.now ≡ length instances.now }
    requires small { slice_index loads.now to ≤ MOST_SHARDS }
    requires few { length shards.now ≤ MOST_SHARDS }
    ensures found { IfSome result (λ m. IsNextMove (slice_index loads.now) instances.now shards.now to m.0 m.1) }
    ensures none { IfNone result ((from : ℕ) → ¬ MayGiveShard (slice_index loads.now) instances.now shards.now to from) }
{
    let from = giver(instances, loads, shards, to)?;
    match first_to_move(instances, shards, from, to) {
        Some(number) => Some((number, from)),
        None => unreachable!(),
    }
}

// The shards after all moves to the node.
fn rebalanced(
    alloc: Global,
    instances: &[Instance],
    shards: &Seq<Seq<Assignment>>,
    version: u64,
    to: u8,
) -> Result<Seq<Seq<Assignment>>, PlaceErr>
    requires many { length instances.now ≤ MOST_NODES }
    requires to { to < length instances.now }
    requires few { length shards.now ≤ MOST_SHARDS }
    requires replicas { (shard : Shard) → IsIn shards.now shard → (rf : ℕ) × ((version : ℕ) × IsShard rf version shard) }
    ensures ok { IfOk result (λ next. (moves : List (ℕ × ℕ)) × Rebalances instances.now version to moves shards.now next) }
    ensures err { IfErr result IsMemory }
{
    let mut loads = loads_of(alloc, instances.len(), shards.as_slice())?;
    let mut next = shards.copy(alloc)?.into_vec();
    while let Some((number, from)) = next_move(instances, loads.as_slice(), next.as_slice(), to) {
        let shard = moved(alloc, next[number as usize].as_slice(), version, from, to)?;
        next[number as usize] = shard;
        shift(&mut loads, from, to);
    }
    Ok(Seq::from_vec(next))
}

/// The placement where the node is listed in the group, at the position that its name had before or after all other nodes,
/// and moves of shards to it have begun: again and again, of the nodes that have at least two shards more and one that
/// can move, the one with the greatest load, and of these the one with the smallest name, gives the least shard that it
/// can. Only steady shards move, each once; the moves before count as loads. Refused, the first of these that holds:
/// `Exists` where the node is listed; `Limit` where its name is new and 16 names are known.
///
/// See M3DB's page "Placement", on adding nodes.
pub fn add(alloc: Global, place: &Placement, node: &str, group: &str) -> Result<Placement, PlaceErr>
    requires lawful { IsLawful place.now }
    requires named { IsTrue (is_name node.now) }
    requires grouped { IsTrue (is_name group.now) }
    ensures plan { IfOk result (IsAddition place.now node.now group.now) }
    ensures lawful { IfOk result IsLawful }
    ensures step { IfOk result (λ next. IsStep place.now next []) }
    ensures refused { IfErr result (RefusesAdd place.now node.now) }
{
    let old = place.instances.as_slice();
    match listed_node(old, node) {
        Some(_) => return Err(PlaceErr::Exists),
        None => {}
    }
    let to = match number_for(old, node) {
        Ok(to) => to,
        Err(refused) => return Err(refused),
    };
    let version = next_version(place.version)?;
    let instances = joined(alloc, &place.instances, to, node, group)?;
    let shards = rebalanced(alloc, instances.as_slice(), &place.shards, version, to)?;
    Ok(Placement {
        version,
        rf: place.rf,
        instances,
        shards,
    })
}
