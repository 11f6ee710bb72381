//! Opened over the disks of a run.
ghost use Rattle.std.specs.Prelude.{◌≡◌, ◌≢◌, [], IfOk, IfErr, OnErr};
ghost use Rattle.m3_outside.specs.DiskState.{Told};
ghost use Rattle.placement_log.specs.MetaHolds.{MetaHolds, MetaStands};
ghost use Rattle.placement_log.specs.States.{MayBeState};
ghost use Rattle.m3_outside.specs.Slots.{Out};
ghost use Rattle.m3_outside.specs.declared.slot.DiskSlot.{DiskSlot as AtSlot};
ghost use Rattle.line_tracks.specs.acts.Stands.{ClusterStands};
ghost use Rattle.line_tracks.specs.tracks.Lines.{EachMember};
ghost use Rattle.line_tracks.specs.first_cluster.Depots.{IsForReplicas};
ghost use Rattle.served_cluster.specs.Acts.{first_numbers};
ghost use Rattle.served_cluster.specs.Owned.{MayServeCluster};
ghost use Rattle.line_tracks.specs.first_cluster.Lending.{AreAsTheyWere};
ghost use Rattle.served_cluster.specs.Plans.{state_of};
ghost use Rattle.saved_cluster.specs.Openings.{BeginsTracked, IsGivenBack, IsOpened, IsRead, MayNotGoOn, MayNotOpen, MayNotOpenOver, OpensWith};
ghost use Rattle.saved_cluster.specs.Saved.{IsSaved, MayServeSaved};

use crate::saved::SavedCluster;
use line_tracks::of_cluster_placements::Untaken;
use m3_model::MetaState;
use m3_outside::{Disk, DiskErr, DiskSlot, Disks};
use opened_cluster::open_members;
use placement_log::{MetaLog, OpenErr};
use served_cluster::Cluster;
use std::alloc::Global;

// The cluster that goes on with the last state that was saved.
fn opened<D: Disk, X: Disks<D = D>>(
    alloc: Global,
    disks: &mut X,
    last: Option<MetaState>,
) -> Result<Cluster<D>, OpenErr>
    requires state { MayBeState last }
    requires free { (disk_slot : AtSlot) → IsForReplicas disk_slot → (X.depot disks.old).held disk_slot ≢ Out }
    ensures opened { IfOk result (λ c. OpensWith D.state last (X.depot disks.old) (X.depot disks.new) c.members) }
    ensures state { IfOk result (λ c. state_of c ≡ last) }
    ensures calls { IfOk result (λ c. c.calls ≡ first_numbers) }
    ensures may { IfOk result (λ c. MayServeCluster c (X.depot disks.new).held) }
    ensures stands { IfOk result (λ c. EachMember c.members (ClusterStands last [])) }
    ensures tracks { IfOk result (BeginsTracked D.state (X.depot disks.old) (X.depot disks.new)) }
    ensures returned { OnErr result (AreAsTheyWere D.state (X.depot disks.old) (X.depot disks.new)) }
    ensures cause { IfErr result (MayNotGoOn (X.depot disks.old) (X.depot disks.new)) }
{
    let Some(state) = last else {
        return Ok(Cluster::new());
    };
    match open_members(alloc, disks, state) {
        Ok(members) => Ok(Cluster::of(members)),
        Err(Untaken::Disk(_)) => Err(OpenErr::Disk),
        Err(Untaken::Memory) => Err(OpenErr::Memory),
    }
}

// The log of the meta disk, and the cluster that goes on with what it holds.
fn opened_over<D: Disk, X: Disks<D = D>>(
    alloc: Global,
    disks: &mut X,
    meta: &mut D,
) -> Result<(Cluster<D>, MetaLog), OpenErr>
    requires free { (disk_slot : AtSlot) → IsForReplicas disk_slot → (X.depot disks.old).held disk_slot ≢ Out }
    ensures opened { IfOk result (λ made. OpensWith D.state (state_of made.0) (X.depot disks.old) (X.depot disks.new) made.0.members) }
    ensures last { IfOk result (λ made. Told (D.state meta.old) (MetaHolds (state_of made.0))) }
    ensures saved { IfOk result (λ made. IsSaved (state_of made.0) (D.state meta.new)) }
    ensures state { IfOk result (λ made. MayBeState (state_of made.0)) }
    ensures calls { IfOk result (λ made. made.0.calls ≡ first_numbers) }
    ensures log { IfOk result (λ made. MetaStands made.1 (D.state meta.new)) }
    ensures may { IfOk result (λ made. MayServeCluster made.0 (X.depot disks.new).held) }
    ensures stands { IfOk result (λ made. EachMember made.0.members (ClusterStands (state_of made.0) [])) }
    ensures tracks { IfOk result (λ made. BeginsTracked D.state (X.depot disks.old) (X.depot disks.new) made.0) }
    ensures read { IsRead D.state meta.old meta.new }
    ensures returned { OnErr result (AreAsTheyWere D.state (X.depot disks.old) (X.depot disks.new)) }
    ensures cause { IfErr result (MayNotOpenOver D.state (X.depot disks.old) (X.depot disks.new) meta.old meta.new) }
{
    let (log, last) = match MetaLog::open(alloc, meta) {
        Ok(found) => found,
        Err(why) => return Err(why),
    };
    match opened(alloc, disks, last) {
        Ok(cluster) => Ok((cluster, log)),
        Err(why) => Err(why),
    }
}

impl<D: Disk> SavedCluster<D> {
    /// Opens the cluster that the meta disk holds, and takes its disks: nothing is initialised where no state was saved. Else the last state that was
    /// saved stands, with each replica at Boot; no node is stopped, and nothing is lost or late.
    ///
    /// # Errors
    ///
    /// A fault, by which the count of all faults rose, or that of the meta disk. Damage of the log of the meta disk. Want of memory. Each disk that was
    /// taken is given back: those of nodes as they were, and the meta disk with the files that it had.
    pub fn open<X: Disks<D = D>>(alloc: Global, disks: &mut X) -> Result<SavedCluster<D>, OpenErr>
        requires none_out { (disk_slot : AtSlot) → (X.depot disks.old).held disk_slot ≢ Out }
        ensures opened { IfOk result (IsOpened D.state (X.depot disks.old) (X.depot disks.new)) }
        ensures may { IfOk result (λ c. MayServeSaved D.state c (X.depot disks.new).held) }

        // It stands by the state that was found, before the first turn.
        ensures stands { IfOk result (λ c. EachMember c.cluster.members (ClusterStands (state_of c.cluster) [])) }

        ensures none_out { OnErr result ((disk_slot : AtSlot) → (X.depot disks.new).held disk_slot ≢ Out) }
        ensures returned { OnErr result (IsGivenBack D.state (X.depot disks.old) (X.depot disks.new)) }
        ensures cause { IfErr result (MayNotOpen D.state (X.depot disks.old) (X.depot disks.new)) }
    {
        let mut meta = match disks.take(DiskSlot::META) {
            Ok(meta) => meta,
            Err(DiskErr::Failed) => return Err(OpenErr::Disk),
            Err(DiskErr::Memory) => return Err(OpenErr::Memory),
        };
        match opened_over(alloc, disks, &mut meta) {
            Ok((cluster, log)) => Ok(SavedCluster { cluster, log, meta }),
            Err(why) => {
                disks.give(DiskSlot::META, meta);
                Err(why)
            }
        }
    }
}
