//! Nodes that take all shards of another one.
ghost use Rattle.std.specs.Prelude.{◌≡◌, [], IfOk, IfErr, IsTrue};
ghost use Rattle.m3_model.specs.Names.{is_name};
ghost use Rattle.placement_core.specs.Lawful.{IsLawful};
ghost use Rattle.placement_core.specs.Steps.{IsStep};
ghost use Rattle.placement_plan.specs.Plans.{IsReplacement, MayReplace, MakesAll, MovesShardTo};
ghost use Rattle.placement_plan.specs.Refusals.{RefusesReplace};

use m3_model::{Assignment, Duplicate, Memory, Placement, Seq};
use placement_plan::{
    PlaceErr, drained, first_busy, first_taken, has_node, joined, listed_node, moved, next_version,
    number_for,
};
use std::alloc::Global;

fn moved_shard(
    alloc: Global,
    shard: &Seq<Assignment>,
    version: u64,
    from: u8,
    to: u8,
) -> Result<Seq<Assignment>, Memory>
    ensures { IfOk result (MovesShardTo version from to shard.now) }
{
    if has_node(shard.as_slice(), from) {
        moved(alloc, shard.as_slice(), version, from, to)
    } else {
        shard.copy(alloc)
    }
}

fn moved_shards(
    alloc: Global,
    shards: &[Seq<Assignment>],
    version: u64,
    from: u8,
    to: u8,
) -> Result<Seq<Seq<Assignment>>, Memory>
    ensures { IfOk result (MakesAll (λ s. MovesShardTo version from to) shards.now) }
{
    let mut next = Vec::new(alloc);
    for shard in shards {
        next.push(moved_shard(alloc, shard, version, from, to)?)?;
    }
    Ok(Seq::from_vec(next))
}

// The numbers of the node and of the one that is to replace it.
fn replaceable(place: &Placement, node: &str, by: &str, group: &str) -> Result<(u8, u8), PlaceErr>
    requires { IsLawful place.now }
    ensures ok { IfOk result (λ nodes. MayReplace place.now node.now by.now group.now nodes.0 nodes.1) }
    ensures err { IfErr result (RefusesReplace place.now node.now by.now group.now) }
{
    let old = place.instances.as_slice();
    let shards = place.shards.as_slice();
    match listed_node(old, by) {
        Some(_) => return Err(PlaceErr::Exists),
        None => {}
    }
    let Some(from) = listed_node(old, node) else {
        return Err(PlaceErr::Unknown);
    };
    let to = match number_for(old, by) {
        Ok(to) => to,
        Err(refused) => return Err(refused),
    };
    if let Some((shard, node)) = first_busy(shards, from) {
        return Err(PlaceErr::Busy { shard, node });
    }
    match first_taken(old, shards, from, group) {
        Some(shard) => Err(PlaceErr::Group { shard }),
        None => Ok((from, to)),
    }
}

/// The placement where a move of each of the node's shards to `by` has begun. `by` is listed in the group, at the position
/// that the name had before or after all other nodes, and isn't drained; the node is. Refused, the first of these that
/// holds: `Exists` where `by` is listed; `Unknown` where no listed node has the name; `Limit` where `by` is new and 16
/// names are known; `Busy` with the least shard that the node has and of which a move goes on, and the node that joins it;
/// `Group` with the least shard of the node that has another replica in the group.
///
/// See M3DB's page "Placement", on replacing nodes.
pub fn replace(
    alloc: Global,
    place: &Placement,
    node: &str,
    by: &str,
    group: &str,
) -> Result<Placement, PlaceErr>
    requires lawful { IsLawful place.now }
    requires named { IsTrue (is_name by.now) }
    requires grouped { IsTrue (is_name group.now) }
    ensures plan { IfOk result (IsReplacement place.now node.now by.now group.now) }
    ensures lawful { IfOk result IsLawful }
    ensures step { IfOk result (λ next. IsStep place.now next []) }
    ensures refused { IfErr result (RefusesReplace place.now node.now by.now group.now) }
{
    let (from, to) = replaceable(place, node, by, group)?;
    let version = next_version(place.version)?;
    let with = joined(alloc, &place.instances, to, by, group)?;
    let instances = drained(alloc, &with, from)?;
    let shards = moved_shards(alloc, place.shards.as_slice(), version, from, to)?;
    Ok(Placement {
        version,
        rf: place.rf,
        instances,
        shards,
    })
}
