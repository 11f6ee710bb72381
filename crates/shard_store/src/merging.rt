//! Points of a page joined to those of a store.
ghost use Rattle.std.specs.Prelude.{◌≡◌, true, None, length, OnOk, IfOk, IfErr, IsErrOf};
ghost use Rattle.m3_outside.specs.DiskState.{DiskState};
ghost use Rattle.store_log.specs.listed_volumes.block_buffer.Joins.{joined};
ghost use Rattle.store_log.specs.listed_volumes.fileset_read.Volumes.{IsUndamaged};
ghost use Rattle.store_log.specs.listed_volumes.fileset_read.declared.file_err.FileErr.TheVariants as unread;
ghost use Rattle.store_log.specs.joined_reads.Beside.{risen_in};
ghost use Rattle.store_log.specs.Whole.{BringsWhole, of_points};
ghost use Rattle.shard_store.specs.StoreParts.{IsCachedIn, IsCountedIn, IsOpenOn, content_of_opened};

use crate::opened::Opened;
use m3_model::Point;
use m3_outside::Disk;
use std::alloc::Global;
use store_log::of_fileset_read::FileErr;
use store_log::of_joined_reads::{are_mergeable, risen};
use store_log::take_points;

impl Opened {
    /// Joins the points: those that are new to the content or raise it are in one entry of the log, synced, and in memory. Answers how
    /// many these are. It looks into volumes.
    ///
    /// # Errors
    ///
    /// As those of `Store::merge`.
    pub(crate) fn merge<D: Disk>(
        &mut self,
        alloc: Global,
        disk: &mut D,
        points: &[Point],
    ) -> Result<u64, FileErr>
        requires kept { IsOpenOn self.old (D.state disk.old) }
        requires cached { IsCachedIn self.old (D.state disk.old) }
        ensures kept { ¬ (IsErrOf result unread.Disk) → IsOpenOn self.new (D.state disk.new) }
        ensures counted { ¬ (IsErrOf result unread.Disk) → IsCountedIn self.old (D.state disk.old) → IsCountedIn self.new (D.state disk.new) }
        ensures cached { IsCachedIn self.new (D.state disk.new) }
        ensures held { (D.state disk.old).tells ≡ true → OnOk result (self.new.held.points ≡ joined self.old.held.points (risen_in (content_of_opened self.old) points.now)) }
        ensures content { (D.state disk.old).tells ≡ true → OnOk result (content_of_opened self.new ≡ joined (content_of_opened self.old) points.now) }
        ensures count { (D.state disk.old).tells ≡ true → IfOk result (λ n. n ≡ length (risen_in (content_of_opened self.old) points.now)) }
        ensures memory { IsErrOf result unread.Memory → self.new.held ≡ self.old.held }
        ensures volumes { self.new.volumes ≡ self.old.volumes }
        ensures numbers { (self.new.tenure ≡ self.old.tenure) × (self.new.fence ≡ self.old.fence) }
        ensures sound { (D.state disk.old).tells ≡ true → IfErr result IsUndamaged }
        ensures disk { BringsWhole (of_points (risen_in (content_of_opened self.old) points.now)) (IsErrOf result unread.Disk) result (D.state disk.old) (D.state disk.new) }
    {
        if !are_mergeable(points) {
            return Err(FileErr::Memory);
        }
        let found = risen(
            alloc,
            disk,
            &self.held,
            &self.volumes,
            &mut self.cache,
            points,
        )?;
        let count = found.len();
        if count == 0 {
            return Ok(0);
        }
        let rises = found.as_slice();
        take_points(
            alloc,
            disk,
            &mut self.log,
            &mut self.held,
            &mut self.bytes,
            rises,
        )?;
        Ok(count as u64)
    }
}
