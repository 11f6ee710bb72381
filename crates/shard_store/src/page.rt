//! Pages of the points in memory, joined with those of volumes.
ghost use Rattle.std.specs.Prelude.{◌≡◌, true, IfOk, IfErr, IsErrOf};
ghost use Rattle.std.specs.Option.{option_copied};
ghost use Rattle.m3_outside.specs.DiskState.{DiskState};
ghost use Rattle.m3_outside.specs.DiskCalls.{LeavesFiles};
ghost use Rattle.store_log.specs.listed_volumes.fileset_read.Volumes.{IsUndamaged};
ghost use Rattle.store_log.specs.listed_volumes.fileset_read.declared.file_err.FileErr.TheVariants as failures;
ghost use Rattle.store_log.specs.first_points.Firsts.{IsPageOf};
ghost use Rattle.shard_store.specs.StoreParts.{IsCachedIn, IsOpenOn, content_of_opened};

use crate::opened::Opened;
use m3_model::{Key, Page};
use m3_outside::Disk;
use std::alloc::Global;
use store_log::of_fileset_read::FileErr;
use store_log::of_joined_reads::page_joined;

impl Opened {
    /// The page of the first points above the key, in memory and of volumes. Rows of volumes that it reads are kept.
    ///
    /// # Errors
    ///
    /// A fault. Want of memory. Damage only where the disk doesn't tell what it holds.
    pub(crate) fn page<D: Disk>(
        &mut self,
        alloc: Global,
        disk: &mut D,
        after: Option<&Key>,
    ) -> Result<Page, FileErr>
        requires kept { IsOpenOn self.old (D.state disk.old) }
        requires cached { IsCachedIn self.old (D.state disk.old) }
        ensures page { (D.state disk.old).tells ≡ true → IfOk result (IsPageOf (content_of_opened self.old) (option_copied after.entry)) }
        ensures leaves { LeavesFiles (IsErrOf result failures.Disk) (D.state disk.old) (D.state disk.new) }
        ensures sound { (D.state disk.old).tells ≡ true → IfErr result IsUndamaged }
        ensures same { self.new ≡ record self.old { cache = self.new.cache } }
        ensures cached { IsCachedIn self.new (D.state disk.new) }
    {
        page_joined(
            alloc,
            disk,
            &self.held,
            &self.volumes,
            &mut self.cache,
            after,
        )
    }
}
