//! The slots of placements, and which of them get a replica or lose theirs.
ghost use Rattle.std.specs.Prelude.{◌≡◌, ◌↔◌, ◌≤◌, ◌^◌, ◌++◌, Some, not, filter, length, is_none, Any, IfOk, IsTrue};
ghost use Rattle.std.specs.FinMap as finite;
ghost use Rattle.std.specs.List.Sorted.{IsPermutation, IsSorted};
ghost use Rattle.node_calls.specs.transcripts.Placements.{has_replica};
ghost use Rattle.node_calls.specs.replica_calls.Slots.{slot_cmp};
ghost use Rattle.first_cluster.specs.Slots.{slots_of};

use m3_model::{Assignment, Memory, Placement};
use m3_outside::Disk;
use node_calls::of_replica_calls::Replicas;
use node_calls::of_replica_exchange::Slot;
use std::alloc::Global;

/// The slots of a placement's replicas, by shard.
///
/// # Errors
///
/// Want of memory.
pub fn slots_of(alloc: Global, place: &Placement) -> Result<Vec<Slot>, Memory>
    requires { length place.now.shards ≤ 2 ^ 32 }
    ensures { IfOk result (λ slots. slots.items ≡ slots_of place.now) }
{
    let mut slots = Vec::new(alloc);
    for (shard, assignments) in place.shards.as_slice().iter().enumerate() {
        for assignment in assignments.as_slice() {
            slots.push(Slot {
                shard: shard as u32,
                node: assignment.node,
            })?;
        }
    }
    Ok(slots)
}

// Those of the slots that have no replica.
pub(crate) fn unmanned<D: Disk>(
    alloc: Global,
    replicas: &Replicas<D>,
    slots: &[Slot],
) -> Result<Vec<Slot>, Memory>
    ensures { IfOk result (λ new. new.items ≡ filter (λ s. is_none (finite.get replicas.now.members s)) slots.now) }
{
    let mut new = Vec::new(alloc);
    for slot in slots {
        if replicas.get(*slot).is_none() {
            new.push(*slot)?;
        }
    }
    Ok(new)
}

// Whether the node has a replica of the shard.
fn has_node(shard: &[Assignment], node: u8) -> bool
    ensures { IsTrue result ↔ Any (λ a. a.node ≡ node) shard.now }
{
    shard.iter().any(|a| a.node == node)
}

// Whether the placement has a replica at the slot.
fn has_replica(place: &Placement, slot: Slot) -> bool
    ensures { result ≡ has_replica (Some place.now) slot.shard slot.node }
{
    match place.shards.as_slice().get(slot.shard as usize) {
        Some(shard) => has_node(shard.as_slice(), slot.node),
        None => false,
    }
}

// Those of the slots of which the placement has no replica.
pub(crate) fn left_out(
    alloc: Global,
    place: &Placement,
    slots: &[Slot],
) -> Result<Vec<Slot>, Memory>
    ensures { IfOk result (λ left. left.items ≡ filter (λ s. not (has_replica (Some place.now) s.shard s.node)) slots.now) }
{
    let mut left = Vec::new(alloc);
    for slot in slots {
        if !has_replica(place, *slot) {
            left.push(*slot)?;
        }
    }
    Ok(left)
}

// The slots of both lists, by shard and then by node.
pub(crate) fn together(alloc: Global, slots: &[Slot], more: &[Slot]) -> Result<Vec<Slot>, Memory>
    ensures all { IfOk result (λ all. IsPermutation (slots.now ++ more.now) all.items) }
    ensures order { IfOk result (λ all. IsSorted slot_cmp all.items) }
{
    let mut all = Vec::new(alloc);
    all.extend_from_slice(slots)?;
    all.extend_from_slice(more)?;
    all.sort()?;
    Ok(all)
}
