//! What a cluster that goes on needs beside its state, before it takes any disk.
ghost use Rattle.std.specs.Prelude.{IfOk};
ghost use Rattle.placement_core.specs.Lawful.{IsLawful};
ghost use Rattle.opened_cluster.specs.Reopened.{IsPlan};

use cluster_placements::{slots_of, with_nodes};
use line_tracks::of_replica_exchange::Slot;
use m3_model::{Memory, Placement};
use net_plan::Bag;
use std::alloc::Global;

// What a cluster that goes on needs beside its state.
#[derive(Drop)]
pub(crate) struct Plan {
    pub(crate) slots: Vec<Slot>,
    pub(crate) stopped: Vec<bool>,
    pub(crate) bag: Bag,
}

// What it needs on this placement. Refused for want of memory alone.
pub(crate) fn planned(alloc: Global, place: &Placement) -> Result<Plan, Memory>
    requires { IsLawful place.now }
    ensures { IfOk result (IsPlan place.now) }
{
    let slots = slots_of(alloc, place)?;
    let stopped = with_nodes(alloc, &[], place.instances.len())?;
    let bag = Bag::new(alloc)?;
    Ok(Plan {
        slots,
        stopped,
        bag,
    })
}
