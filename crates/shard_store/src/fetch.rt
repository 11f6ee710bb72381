//! Points read: those in memory joined with those of volumes.
ghost use Rattle.std.specs.Prelude.{◌≡◌, true, map, IfOk, IfErr, IsErrOf};
ghost use Rattle.m3_model.specs.Answers.{IsAnswer};
ghost use Rattle.m3_model.specs.Reads.{IsOrdered};
ghost use Rattle.m3_outside.specs.DiskState.{DiskState};
ghost use Rattle.m3_outside.specs.DiskCalls.{LeavesFiles};
ghost use Rattle.store_log.specs.listed_volumes.fileset_read.Volumes.{IsUndamaged};
ghost use Rattle.store_log.specs.listed_volumes.fileset_read.declared.file_err.FileErr.TheVariants as failures;
ghost use Rattle.shard_store.specs.StoreParts.{IsCachedIn, IsOpenOn, content_of_opened};

use crate::opened::Opened;
use crate::volumes::heads;
use m3_model::{Pick, Seq, Series};
use m3_outside::Disk;
use std::alloc::Global;
use store_log::of_fileset_read::FileErr;
use store_log::of_joined_reads::fetch_joined;
use store_log::of_listed_volumes::ListedVolume;
use store_log::of_volume_bytes::Head;

// The heads of the volumes.
pub(crate) fn heads_of(alloc: Global, listed: &[ListedVolume]) -> Result<Vec<Head>, FileErr>
    ensures ok { IfOk result (λ heads. heads.items ≡ map (λ v. v.head) listed.now) }
    ensures err { IfErr result (λ why. why ≡ failures.Memory) }
{
    match heads(alloc, listed) {
        Ok(heads) => Ok(heads),
        Err(_) => Err(FileErr::Memory),
    }
}

impl Opened {
    /// The points with `from <= t < to` of the series that the pick asks for, in memory and of volumes. Rows of volumes that it reads
    /// for matchers are kept.
    ///
    /// # Errors
    ///
    /// A fault. Want of memory. Damage only where the disk doesn't tell what it holds.
    pub(crate) fn fetch<D: Disk>(
        &mut self,
        alloc: Global,
        disk: &mut D,
        pick: &Pick,
        from: u64,
        to: u64,
    ) -> Result<Seq<Series>, FileErr>
        requires kept { IsOpenOn self.old (D.state disk.old) }
        requires cached { IsCachedIn self.old (D.state disk.old) }
        ensures answer { (D.state disk.old).tells ≡ true → IfOk result (IsAnswer (content_of_opened self.old) pick.now from to) }
        ensures ordered { IfOk result IsOrdered }
        ensures leaves { LeavesFiles (IsErrOf result failures.Disk) (D.state disk.old) (D.state disk.new) }
        ensures sound { (D.state disk.old).tells ≡ true → IfErr result IsUndamaged }
        ensures same { self.new ≡ record self.old { cache = self.new.cache } }
        ensures cached { IsCachedIn self.new (D.state disk.new) }
    {
        fetch_joined(
            alloc,
            disk,
            &self.held,
            &self.volumes,
            &mut self.cache,
            pick,
            from,
            to,
        )
    }
}
