//! Nodes that aren't listed any more.
ghost use Rattle.std.specs.Prelude.{[], IfOk, IfErr};
ghost use Rattle.placement_core.specs.Lawful.{IsLawful};
ghost use Rattle.placement_core.specs.Steps.{IsStep};
ghost use Rattle.placement_plan.specs.Plans.{IsRemoval};
ghost use Rattle.placement_plan.specs.Refusals.{RefusesRemove};

use crate::nodes::{listed_node, unlisted};
use crate::plan_err::PlaceErr;
use crate::shards::first_shard_of;
use crate::version::next_version;
use placement_core::of_m3_model::{Duplicate, Placement};
use std::alloc::Global;

/// The placement where the node, which has no shard, isn't listed any more. Its position among the nodes stays its own.
/// Refused `Unknown` where no listed node has the name, and `Busy` with the least shard that the node has, and the node.
///
/// See M3DB's page "Placement", on removing nodes.
pub fn remove(alloc: Global, place: &Placement, node: &str) -> Result<Placement, PlaceErr>
    requires { IsLawful place.now }
    ensures plan { IfOk result (IsRemoval place.now node.now) }
    ensures lawful { IfOk result IsLawful }
    ensures step { IfOk result (λ next. IsStep place.now next []) }
    ensures refused { IfErr result (RefusesRemove place.now node.now) }
{
    let Some(number) = listed_node(place.instances.as_slice(), node) else {
        return Err(PlaceErr::Unknown);
    };
    if let Some(shard) = first_shard_of(place.shards.as_slice(), number) {
        let node = number;
        return Err(PlaceErr::Busy { shard, node });
    }
    let version = next_version(place.version)?;
    let instances = unlisted(alloc, &place.instances, number)?;
    let shards = place.shards.copy(alloc)?;
    Ok(Placement {
        version,
        rf: place.rf,
        instances,
        shards,
    })
}
