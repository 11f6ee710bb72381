//! Moves that end, and moves that are cancelled.
ghost use Rattle.std.specs.Prelude.{◌≡◌, ◌≤◌, ◌↔◌, [], All, IfOk, IfErr, IfSome, IsTrue, MatchOption, false, length, if◌then◌else◌};
ghost use Rattle.placement_core.specs.m3_model.declared.limits.TheConstants.{MOST_NODES};
ghost use Rattle.placement_core.specs.Lawful.{IsLawful};
ghost use Rattle.placement_core.specs.Steps.{IsStep, IsDoneList, Ends, done_at};
ghost use Rattle.placement_plan.specs.Plans.{MakesAll, IsAvailable, IsJoiningPair, AreJoining, EndsAsNamed, IsCancel, IsJoining, CancelsJoining, GivesTo, IsFreed};
ghost use Rattle.placement_plan.specs.Refusals.{IsMemory, RefusesCancel};

use crate::nodes::listed_node;
use crate::plan_err::PlaceErr;
use crate::shards::{joins_from, settled, source_of};
use crate::version::next_version;
use placement_core::of_m3_model::{Assignment, Duplicate, Instance, Memory, Placement, Seq};
use std::alloc::Global;

fn cancelled_shard(
    alloc: Global,
    shard: &Seq<Assignment>,
    node: u8,
) -> Result<Seq<Assignment>, Memory>
    ensures { IfOk result (CancelsJoining node shard.now) }
{
    match source_of(shard.as_slice(), node) {
        Some(from) => settled(alloc, shard.as_slice(), node, from),
        None => shard.copy(alloc),
    }
}

fn cancelled_shards(
    alloc: Global,
    shards: &[Seq<Assignment>],
    node: u8,
) -> Result<Seq<Seq<Assignment>>, Memory>
    ensures { IfOk result (MakesAll (λ s. CancelsJoining node) shards.now) }
{
    let mut next = Vec::new(alloc);
    for shard in shards {
        next.push(cancelled_shard(alloc, shard, node)?)?;
    }
    Ok(Seq::from_vec(next))
}

fn gives_to(shards: &[Seq<Assignment>], node: u8, from: u8) -> bool
    ensures { IsTrue result ↔ GivesTo shards.now node from }
{
    for shard in shards {
        if joins_from(shard.as_slice(), node, from) {
            return true;
        }
    }
    false
}

fn freed_node(alloc: Global, instance: &Instance, is_freed: bool) -> Result<Instance, Memory>
    ensures { IfOk result (λ next. next ≡ (if is_freed then record (instance.now) { drained = false } else instance.now)) }
{
    let mut next = instance.copy(alloc)?;
    if is_freed {
        next.drained = false;
    }
    Ok(next)
}

fn freed_nodes(
    alloc: Global,
    instances: &[Instance],
    shards: &[Seq<Assignment>],
    node: u8,
) -> Result<Seq<Instance>, Memory>
    requires { length instances.now ≤ MOST_NODES }
    ensures { IfOk result (MakesAll (IsFreed (GivesTo shards.now node)) instances.now) }
{
    let mut next = Vec::new(alloc);
    for (number, instance) in instances.iter().enumerate() {
        let is_freed = gives_to(shards, node, number as u8);
        next.push(freed_node(alloc, instance, is_freed)?)?;
    }
    Ok(Seq::from_vec(next))
}

/// The placement where the moves to the node are cancelled: its Initializing assignments go, and their sources are
/// Available again and not drained any more. The node stays listed. Refused `Unknown` where no listed node has the name.
pub fn cancel(alloc: Global, place: &Placement, node: &str) -> Result<Placement, PlaceErr>
    requires { IsLawful place.now }
    ensures plan { IfOk result (IsCancel place.now node.now) }
    ensures lawful { IfOk result IsLawful }
    ensures step { IfOk result (λ next. IsStep place.now next []) }
    ensures refused { IfErr result (RefusesCancel place.now node.now) }
{
    let Some(number) = listed_node(place.instances.as_slice(), node) else {
        return Err(PlaceErr::Unknown);
    };
    let version = next_version(place.version)?;
    let old = place.shards.as_slice();
    let instances = freed_nodes(alloc, place.instances.as_slice(), old, number)?;
    let shards = cancelled_shards(alloc, old, number)?;
    Ok(Placement {
        version,
        rf: place.rf,
        instances,
        shards,
    })
}

fn named_in(done: &[(u32, u8)], number: usize) -> Option<u8>
    ensures { result ≡ done_at number done.now }
{
    for (shard, node) in done {
        if *shard as usize == number {
            return Some(*node);
        }
    }
    None
}

fn ended_shard(
    alloc: Global,
    shard: &Seq<Assignment>,
    done: Option<u8>,
) -> Result<Seq<Assignment>, Memory>
    requires { IfSome done (λ node. IsJoining node shard.now) }
    ensures { IfOk result (λ next. MatchOption done (next ≡ shard.now) (λ node. Ends shard.now next node)) }
{
    let Some(node) = done else {
        return shard.copy(alloc);
    };
    match source_of(shard.as_slice(), node) {
        Some(from) => settled(alloc, shard.as_slice(), from, node),
        None => unreachable!(),
    }
}

fn ended_shards(
    alloc: Global,
    shards: &[Seq<Assignment>],
    done: &[(u32, u8)],
) -> Result<Seq<Seq<Assignment>>, Memory>
    requires { AreJoining shards.now done.now }
    ensures { IfOk result (MakesAll (EndsAsNamed done.now) shards.now) }
{
    let mut next = Vec::new(alloc);
    for (number, shard) in shards.iter().enumerate() {
        next.push(ended_shard(alloc, shard, named_in(done, number))?)?;
    }
    Ok(Seq::from_vec(next))
}

fn is_joining(shard: &[Assignment], node: u8) -> bool
    ensures { IsTrue result ↔ IsJoining node shard.now }
{
    source_of(shard, node).is_some()
}

// Whether the pair names a shard and a node that is joining it.
fn is_joining_pair(shards: &[Seq<Assignment>], pair: (u32, u8)) -> bool
    ensures { IsTrue result ↔ IsJoiningPair shards.now pair }
{
    let (number, node) = pair;
    match shards.get(number as usize) {
        Some(shard) => is_joining(shard.as_slice(), node),
        None => false,
    }
}

fn are_joining_pairs(shards: &[Seq<Assignment>], done: &[(u32, u8)]) -> bool
    ensures { IsTrue result ↔ All (IsJoiningPair shards.now) done.now }
{
    done.iter().all(|pair| is_joining_pair(shards, *pair))
}

/// Whether each pair is of a shard of the placement and a node that is Initializing there, so that `available` can end
/// these moves. Takes no memory.
pub fn are_joining(place: &Placement, done: &[(u32, u8)]) -> bool
    ensures { IsTrue result ↔ AreJoining place.now.shards done.now }
{
    are_joining_pairs(place.shards.as_slice(), done)
}

/// The placement where the named moves end: for each pair of a shard and a node that is Initializing there, which
/// `are_joining` tells, the node turns Available, and its source's assignment goes. It is a step with this done list where
/// the pairs ascend by shard. Refused only for want of memory.
///
/// See M3DB's page "Placement", on the states of shards.
pub fn available(
    alloc: Global,
    place: &Placement,
    done: &[(u32, u8)],
) -> Result<Placement, PlaceErr>
    requires lawful { IsLawful place.now }
    requires joining { AreJoining place.now.shards done.now }
    ensures plan { IfOk result (IsAvailable place.now done.now) }
    ensures lawful { IfOk result IsLawful }
    ensures step { IsDoneList (length place.now.shards) done.now → IfOk result (λ next. IsStep place.now next done.now) }
    ensures refused { IfErr result IsMemory }
{
    let version = next_version(place.version)?;
    let instances = place.instances.copy(alloc)?;
    let shards = ended_shards(alloc, place.shards.as_slice(), done)?;
    Ok(Placement {
        version,
        rf: place.rf,
        instances,
        shards,
    })
}
