//! What a cluster is to be, before it takes any disk.
ghost use Rattle.std.specs.Prelude.{◌≡◌, ◌≤◌, ◌^◌, false, length, replicate, IfErr, IfOk};
ghost use Rattle.m3_model.specs.Limits.{IsInit};
ghost use Rattle.placement_plan.specs.First.{RefusesInitial};
ghost use Rattle.first_cluster.specs.First.{IsPlan};
ghost use Rattle.first_cluster.specs.Slots.{slots_in, starts_of};

use crate::start::Start;
use cluster_members::of_replica_exchange::Slot;
use first_placement::initial::initial;
use m3_model::{Duplicate, Memory, MetaState, Placement, Rules, Seq, Text};
use net_plan::Bag;
use placement_plan::PlaceErr;
use std::alloc::Global;

/// What a first cluster is to be.
#[derive(Drop)]
pub struct Plan {
    pub(crate) state: MetaState,
    pub(crate) starts: Vec<Start>,
    pub(crate) slots: Vec<Slot>,
    pub(crate) stopped: Vec<bool>,
    pub(crate) bag: Bag,
    // A copy of the placement, for the answer.
    pub(crate) printed: Placement,
}

// The slots of a placement's replicas, by shard, each with its tenure.
fn starts_of(alloc: Global, place: &Placement) -> Result<Vec<Start>, Memory>
    requires { length place.now.shards ≤ 2 ^ 32 }
    ensures { IfOk result (λ starts. starts.items ≡ starts_of place.now) }
{
    let mut starts = Vec::new(alloc);
    for (shard, assignments) in place.shards.as_slice().iter().enumerate() {
        for assignment in assignments.as_slice() {
            starts.push(Start {
                slot: Slot {
                    shard: shard as u32,
                    node: assignment.node,
                },
                tenure: assignment.tenure,
            })?;
        }
    }
    Ok(starts)
}

// Their slots alone.
fn slots_in(alloc: Global, starts: &[Start]) -> Result<Vec<Slot>, Memory>
    ensures { IfOk result (λ slots. slots.items ≡ slots_in starts.now) }
{
    let mut slots = Vec::new(alloc);
    for start in starts {
        slots.push(start.slot)?;
    }
    Ok(slots)
}

// That each of so many nodes runs.
fn none_stopped(alloc: Global, nodes: usize) -> Result<Vec<bool>, Memory>
    ensures { IfOk result (λ stopped. stopped.items ≡ replicate nodes false) }
{
    let mut stopped = Vec::new(alloc);
    for _ in 0..nodes {
        stopped.push(false)?;
    }
    Ok(stopped)
}

impl Plan {
    /// The state that it begins with.
    pub fn state(&self) -> &MetaState
        ensures { result.now ≡ self.now.state }
    {
        &self.state
    }
}

/// What `init` is to make of these nodes, with all memory that it takes but that of its replicas.
///
/// # Errors
///
/// `Group` of shard 0 exactly where the nodes are in fewer than `rf` isolation groups, unless memory was wanted; and want of memory.
pub fn plan_first(
    alloc: Global,
    rf: u32,
    shards: u32,
    seed: u32,
    nodes: Seq<(Text, Text)>,
) -> Result<Plan, PlaceErr>
    requires { IsInit rf shards seed nodes }
    ensures plan { IfOk result (IsPlan rf shards seed nodes) }
    ensures refused { IfErr result (RefusesInitial rf nodes) }
{
    let place = initial(alloc, rf, shards, nodes)?;
    let starts = starts_of(alloc, &place)?;
    let slots = slots_in(alloc, starts.as_slice())?;
    let stopped = none_stopped(alloc, place.instances.len())?;
    let printed = place.copy(alloc)?;
    let bag = Bag::new(alloc)?;
    let rules = Rules {
        now: 0,
        spaces: Seq::new(alloc),
    };
    Ok(Plan {
        state: MetaState { rules, seed, place },
        starts,
        slots,
        stopped,
        bag,
        printed,
    })
}
