//! Snapshots of what is in memory.
ghost use Rattle.std.specs.Prelude.{◌≡◌, true, List, IfOk, IfErr, OnOk, IsErrOf};
ghost use Rattle.m3_model.specs.declared.limits.TheConstants.{MOST_NAMESPACES};
ghost use Rattle.m3_outside.specs.DiskState.{DiskState, EachImage};
ghost use Rattle.m3_outside.specs.declared.disk_err.DiskErr.TheVariants.{Failed as DiskFailed, Memory as WantOfMemory};
ghost use Rattle.store_log.specs.listed_volumes.commit_log.Contents.{next_after, numbers};
ghost use Rattle.store_log.specs.listed_volumes.shard_files.Keeps.{Rearranges};
ghost use Rattle.store_log.specs.listed_volumes.shard_files.Parts.{KnownVolume, VolumesAre};
ghost use Rattle.store_log.specs.listed_volumes.shard_files.Steps.{next_snapshot};
ghost use Rattle.store_log.specs.snapshot_steps.Saved.{AreSaveable};
ghost use Rattle.shard_store.specs.OneSnapshot.{AddsSpace, AreBelow, HasOneSnapshot};
ghost use Rattle.shard_store.specs.StoreParts.{IsOpenOn, content_of_opened, IsCountedIn};

use crate::opened::Opened;
use m3_model::limits::{MOST_NAMESPACES, TIME_END};
use m3_model::{Memory, Point, Seq};
use m3_outside::{Disk, DiskErr};
use shard_open::{Snap, append_rows, is_snapshot};
use std::alloc::Global;
use store_log::of_held_points::HeldPoints;
use store_log::of_snapshot_steps::take_snapshot;

// Appends the points in memory of the namespace, in order.
fn append_space(
    alloc: Global,
    held: &HeldPoints,
    ns: u8,
    points: &mut Vec<Point>,
) -> Result<(), Memory>
    ensures { OnOk result (AddsSpace ns held.now.points points.old.items points.new.items) }
{
    let rows = held.block(ns, 0, TIME_END)?;
    append_rows(alloc, ns, rows.as_slice(), points)
}

// The points in memory, in the order of their keys.
fn points_of(alloc: Global, held: &HeldPoints) -> Result<Vec<Point>, Memory>
    ensures { IfOk result (λ points. AreBelow MOST_NAMESPACES held.now.points points.items) }
{
    let mut points = Vec::new(alloc);
    for ns in 0..MOST_NAMESPACES as u8 {
        append_space(alloc, held, ns, &mut points)?;
    }
    Ok(points)
}

// The points, where a snapshot may have them. Else memory is said to be wanted: that may be where a disk doesn't tell what it
// holds, whose files may have given points out of bounds.
fn saveable(points: Seq<Point>) -> Result<Seq<Point>, DiskErr>
    ensures saveable { IfOk result AreSaveable }
    ensures same { IfOk result (λ kept. kept ≡ points) }
    ensures err { IfErr result (λ e. e ≡ WantOfMemory) }
{
    let snap = Snap {
        number: 0,
        tenure: 0,
        fence: 0,
        first: 0,
        points,
    };
    if is_snapshot(&snap) {
        Ok(snap.points)
    } else {
        Err(DiskErr::Memory)
    }
}

// The points in memory, as a snapshot may have them.
fn buffered_points(alloc: Global, held: &HeldPoints) -> Result<Seq<Point>, DiskErr>
    ensures saveable { IfOk result AreSaveable }
    ensures points { IfOk result (AreBelow MOST_NAMESPACES held.now.points) }
    ensures err { IfErr result (λ e. e ≡ WantOfMemory) }
{
    let points = points_of(alloc, held)?;
    saveable(Seq::from_vec(points))
}

impl Opened {
    /// Takes a snapshot of what is in memory, and gives its number.
    ///
    /// # Errors
    ///
    /// As those of `Store::snapshot`.
    pub(crate) fn snapshot<D: Disk>(&mut self, alloc: Global, disk: &mut D) -> Result<u64, DiskErr>
        requires kept { IsOpenOn self.old (D.state disk.old) }
        ensures kept { ¬ (IsErrOf result DiskFailed) → IsOpenOn self.new (D.state disk.new) }
        ensures number { (D.state disk.old).tells ≡ true → IfOk result (λ n. n ≡ next_snapshot (D.state disk.old).files) }
        ensures saved { IfOk result (λ n. EachImage (D.state disk.new) (HasOneSnapshot n (next_after (numbers (D.state disk.old).files)) self.old.held.points self.old.tenure self.old.fence)) }
        ensures counted { ¬ (IsErrOf result DiskFailed) → IsCountedIn self.old (D.state disk.old) → IsCountedIn self.new (D.state disk.new) }
        ensures known { (D.state disk.old).tells ≡ true → ¬ (IsErrOf result DiskFailed) → (known : List KnownVolume) → VolumesAre known (D.state disk.old).files → VolumesAre known (D.state disk.new).files }
        ensures held { self.new.held ≡ self.old.held }
        ensures volumes { self.new.volumes ≡ self.old.volumes }
        ensures cache { self.new.cache ≡ self.old.cache }
        ensures numbers { (self.new.tenure ≡ self.old.tenure) × (self.new.fence ≡ self.old.fence) }
        ensures disk { Rearranges (content_of_opened self.old) (IsErrOf result DiskFailed) (D.state disk.old) (D.state disk.new) }
    {
        let points = buffered_points(alloc, &self.held)?;
        take_snapshot(
            alloc,
            disk,
            &mut self.log,
            &mut self.counts,
            self.tenure,
            self.fence,
            points,
        )
    }
}
