//! What is to be marked, made of the shards that a node joined.
ghost use Rattle.std.specs.Prelude.{◌≡◌, ◌^◌, ◌<◌, length, map, IfOk};
ghost use Rattle.placement_core.specs.Lawful.{IsLawful};
ghost use Rattle.placement_core.specs.Steps.{IsDoneList, IsStep};
ghost use Rattle.placement_plan.specs.Plans.{AreJoining, IsAvailable};
ghost use Rattle.cluster_joins.specs.Marks.{IsMarkingOf, done_of, printed_pair, source_slot};

use crate::marking::{Marked, Marking};
use m3_model::{Duplicate, Memory, Placement, Seq};
use node_calls::of_replica_exchange::Slot;
use node_joins::JoinedShard;
use placement_plan::available;
use std::alloc::Global;

// Each of the shards, with the node.
fn done_of(alloc: Global, node: u8, joined: &[JoinedShard]) -> Result<Seq<(u32, u8)>, Memory>
    ensures { IfOk result (λ done. done ≡ done_of node joined.now) }
{
    let mut done = Vec::new(alloc);
    for one in joined {
        done.push((one.shard(), node))?;
    }
    Ok(Seq::from_vec(done))
}

// The slots from which a node takes over that joined the shards.
fn sources_of(alloc: Global, joined: &[JoinedShard]) -> Result<Vec<Slot>, Memory>
    ensures { IfOk result (λ sources. sources.items ≡ map source_slot joined.now) }
{
    let mut sources = Vec::new(alloc);
    for one in joined {
        sources.push(Slot {
            shard: one.shard(),
            node: one.source(),
        })?;
    }
    Ok(sources)
}

// Each of the shards, with whom the node merged.
fn printed_of(alloc: Global, joined: Seq<JoinedShard>) -> Result<Seq<(u32, Seq<u8>)>, Memory>
    ensures { IfOk result (λ printed. printed ≡ map printed_pair joined) }
{
    let mut printed = Vec::new(alloc);
    for one in joined.into_vec() {
        printed.push(one.into_printed())?;
    }
    Ok(Seq::from_vec(printed))
}

/// What is to be marked where the node joined these shards of the placement.
///
/// # Errors
///
/// Want of memory.
pub(crate) fn marking_of(
    alloc: Global,
    place: &Placement,
    node: u8,
    joined: Seq<JoinedShard>,
) -> Result<Marking, Memory>
    requires lawful { IsLawful place.now }
    requires joining { AreJoining place.now.shards (done_of node joined) }
    ensures next { IfOk result (λ marking. IsAvailable place.now (done_of node joined) marking.next) }
    ensures lawful { IfOk result (λ marking. IsLawful marking.next) }
    ensures step { IsDoneList (length place.now.shards) (done_of node joined) → IfOk result (λ marking. IsStep place.now marking.next (done_of node joined)) }
    ensures parts { IfOk result (IsMarkingOf node joined) }
{
    let done = done_of(alloc, node, joined.as_slice())?;
    let sources = sources_of(alloc, joined.as_slice())?;
    let Ok(next) = available(alloc, place, done.as_slice()) else {
        return Err(Memory);
    };
    let printed = next.copy(alloc)?;
    let joined = printed_of(alloc, joined)?;
    Ok(Marking {
        next,
        done,
        marked: Marked {
            printed,
            joined,
            sources,
        },
    })
}
