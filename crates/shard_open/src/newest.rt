//! The newest snapshot that counts.
ghost use Rattle.std.specs.Prelude.{◌≡◌, ◌≤◌, true, IfOk, IfErr, IsErrOf};
ghost use Rattle.snapshot_files.specs.m3_outside.DiskState.{DiskState};
ghost use Rattle.snapshot_files.specs.m3_outside.DiskCalls.{LeavesFiles};
ghost use Rattle.snapshot_files.specs.shard_files.Loading.{Tells};
ghost use Rattle.snapshot_files.specs.shard_files.declared.load_err.LoadErr.TheVariants as failures;
ghost use Rattle.snapshot_files.specs.Told.{NewestTells};
ghost use Rattle.shard_open.specs.Loads.{IsNewest};
ghost use Rattle.shard_open.specs.Told.{AreApart};

use crate::told::told;
use m3_model::{Point, Seq};
use snapshot_files::newest;
use snapshot_files::of_m3_outside::Disk;
use snapshot_files::of_shard_files::LoadErr;
use std::alloc::Global;

/// What the newest snapshot has; nothing where there is none.
#[derive(Drop)]
pub(crate) struct Newest {
    /// Its number, 0 where there is none.
    pub number: u64,
    pub tenure: u64,
    /// Its fence, or its tenure where that is greater.
    pub fence: u64,
    pub points: Seq<Point>,
}

/// The newest snapshot that counts, checked whole.
///
/// # Errors
///
/// A fault. The first damage of that snapshot. Want of memory.
pub(crate) fn read_newest<D: Disk>(alloc: Global, disk: &mut D) -> Result<Newest, LoadErr>
    ensures leaves { LeavesFiles (IsErrOf result failures.Disk) (D.state disk.old) (D.state disk.new) }
    ensures ok { (D.state disk.old).tells ≡ true → IfOk result (IsNewest (D.state disk.old).files) }
    ensures order { IfOk result (λ n. n.tenure ≤ n.fence) }
    ensures err { (D.state disk.old).tells ≡ true → IfErr result (Tells (NewestTells (D.state disk.old).files)) }
    ensures apart { IfErr result AreApart }
{
    match newest(alloc, disk) {
        Ok(Some(snap)) => Ok(Newest {
            number: snap.number,
            tenure: snap.tenure,
            fence: snap.fence.max(snap.tenure),
            points: snap.points,
        }),
        Ok(None) => Ok(Newest {
            number: 0,
            tenure: 0,
            fence: 0,
            points: Seq::new(alloc),
        }),
        Err(why) => Err(told(why)),
    }
}
