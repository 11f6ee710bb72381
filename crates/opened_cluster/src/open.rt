//! What a cluster goes on with.
ghost use Rattle.std.specs.Prelude.{◌≡◌, ◌≢◌, [], Some, IfOk, IfErr, OnErr};
ghost use Rattle.std.specs.FinMap as finite;
ghost use Rattle.m3_outside.specs.Slots.{Out};
ghost use Rattle.placement_core.specs.Lawful.{IsLawful};
ghost use Rattle.m3_outside.specs.declared.slot.DiskSlot.{DiskSlot as AtDisk};
ghost use Rattle.line_tracks.specs.first_cluster.Depots.{IsForReplicas};
ghost use Rattle.line_tracks.specs.first_cluster.First.{opening_of};
ghost use Rattle.line_tracks.specs.first_cluster.Slots.{slots_of};
ghost use Rattle.cluster_placements.specs.Lending.{HaveReturned, MayNotTake};
ghost use Rattle.cluster_placements.specs.Steps.{MayChange};
ghost use Rattle.meta_bytes.specs.States.{IsMetaState};
ghost use Rattle.line_tracks.specs.acts.Stands.{ClusterStands};
ghost use Rattle.opened_cluster.specs.Reopened.{IsPlan, IsReopened, StandsAnew};

use crate::plan::{Plan, planned};
use cluster_placements::{Untaken, gain};
use line_tracks::of_cluster_members::Members;
use line_tracks::of_event_trail::Trail;
use line_tracks::of_replica_calls::Replicas;
use line_tracks::of_session_net::Net;
use m3_model::MetaState;
use m3_outside::{Disk, Disks};
use net_plan::Fates;
use std::alloc::Global;

// No replicas yet, and the list that such a cluster opens.
fn listed<D: Disk>(alloc: Global, state: &MetaState) -> Replicas<D>
    requires { IsLawful state.now.place }
    ensures { result ≡ record { members = finite.empty; events = opening_of state.now } }
{
    let trail = Trail::new(&state.place, &state.rules);
    Replicas::new(alloc, trail)
}

// The cluster with the state, all that it needs beside it, and its replicas.
fn members_of<D: Disk>(
    alloc: Global,
    state: MetaState,
    plan: Plan,
    replicas: Replicas<D>,
) -> Members<D>
    requires state { IsMetaState state }
    requires plan { IsPlan state.place plan }
    ensures anew { StandsAnew state result }
    ensures replicas { result.net.replicas ≡ replicas }
{
    let Plan {
        slots,
        stopped,
        bag,
    } = plan;
    let net = Net {
        state,
        replicas,
        fates: Fates::empty(alloc),
        bag,
    };
    Members {
        net,
        past: Vec::new(alloc),
        slots,
        stopped,
    }
}

/// The cluster that goes on with a state that was saved: its rules, its seed and its placement stand, and no placement is kept but that one. Over the
/// disk of each slot of the placement stands a replica at Boot, which did no step; the list of events is opened by the placement and by the rules. No
/// node is stopped, and nothing is lost or late. No file is read or changed. All memory but that of the replicas is there before any disk is taken.
///
/// # Errors
///
/// The first slot, by shard, whose disk couldn't be taken, by a fault of the disks' own; or want of memory. Each disk that was taken is given back as
/// it was.
pub fn open_members<D: Disk, X: Disks<D = D>>(
    alloc: Global,
    disks: &mut X,
    state: MetaState,
) -> Result<Members<D>, Untaken>
    requires state { IsMetaState state }
    requires free { (disk_slot : AtDisk) → IsForReplicas disk_slot → (X.depot disks.old).held disk_slot ≢ Out }
    ensures opened { IfOk result (IsReopened D.state state (X.depot disks.old) (X.depot disks.new)) }

    // It is what a run that found the state begins with, before its first turn.
    ensures stands { IfOk result (ClusterStands (Some state) []) }

    // Lines may make placements from it.
    ensures may { IfOk result (λ members. MayChange members (X.depot disks.new).held) }

    ensures returned { OnErr result (HaveReturned D.state (slots_of state.place) (X.depot disks.old) (X.depot disks.new)) }
    ensures cause { IfErr result (MayNotTake D.state (slots_of state.place) (X.depot disks.old) (X.depot disks.new)) }
{
    let Ok(plan) = planned(alloc, &state.place) else {
        return Err(Untaken::Memory);
    };
    let mut replicas = listed(alloc, &state);
    match gain(alloc, disks, plan.slots.as_slice(), &mut replicas) {
        Ok(()) => Ok(members_of(alloc, state, plan, replicas)),
        Err(why) => Err(why),
    }
}
