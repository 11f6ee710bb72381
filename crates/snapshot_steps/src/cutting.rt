ghost use Rattle.std.specs.Prelude.{◌≡◌, ◌≤◌, ℕ, true, List, IsErrOf, OnOk};
ghost use Rattle.m3_model.specs.Contents.{Contents};
ghost use Rattle.snapshot_files.specs.m3_outside.Causes.{CountsFaults};
ghost use Rattle.snapshot_files.specs.m3_outside.DiskState.{DiskState, EachImage, Elapses, Becomes};
ghost use Rattle.snapshot_files.specs.m3_outside.declared.disk_err.DiskErr.TheVariants.{Failed as DiskFailed, Memory as WantOfMemory};
ghost use Rattle.snapshot_files.specs.commit_log.Contents.{numbers};
ghost use Rattle.snapshot_files.specs.commit_log.Cutting.{numbers_from};
ghost use Rattle.snapshot_files.specs.commit_log.LogEnd.{LogEnd, LogEndStands};
ghost use Rattle.snapshot_files.specs.wire_bytes.Snapshots.{Snapshot};
ghost use Rattle.snapshot_files.specs.shard_files.Keeps.{Keeps};
ghost use Rattle.snapshot_files.specs.shard_files.Parts.{KnownVolume};
ghost use Rattle.volume_steps.specs.Known.{HaveContent};
ghost use Rattle.snapshot_steps.specs.Saved.{HoldsSaved};

use snapshot_files::of_commit_log::cut_before;
use snapshot_files::of_m3_outside::{Disk, DiskErr};
use std::alloc::Global;

/// Takes away all segments of the log below this number, the lowest first. The newest snapshot has all that is in memory, the
/// tenure and the fence.
///
/// # Errors
///
/// A fault, after which the lowest few of them are gone, or none, or all. Want of memory, after which the files are as they were.
pub fn cut_log<D: Disk>(alloc: Global, disk: &mut D, number: u64) -> Result<(), DiskErr>
    // A stop at any moment leaves all that is to be kept, the tenure and the fence.
    ensures any_moment { (s : Snapshot) (kept memory : Contents) (known : List KnownVolume) (tenure fence : ℕ) → EachImage (D.state disk.old) (HoldsSaved s memory known tenure fence) → HaveContent memory known kept → (D.state disk.old).tells ≡ true → Elapses (Keeps kept) (D.state disk.old) (D.state disk.new) }

    ensures saved { (s : Snapshot) (memory : Contents) (known : List KnownVolume) (tenure fence : ℕ) → EachImage (D.state disk.old) (HoldsSaved s memory known tenure fence) → EachImage (D.state disk.new) (HoldsSaved s memory known tenure fence) }
    ensures memory { (D.state disk.old).tells ≡ true → IsErrOf result WantOfMemory → Becomes (λ files. files) (D.state disk.old) (D.state disk.new) }
    ensures segments { (D.state disk.old).tells ≡ true → OnOk result (numbers (D.state disk.new).files ≡ numbers_from number (D.state disk.old).files) }
    ensures log_stands { (log : LogEnd) → number ≤ log.number → LogEndStands log (D.state disk.old) → LogEndStands log (D.state disk.new) }
    ensures tells { (D.state disk.new).tells ≡ (D.state disk.old).tells }
    ensures faults { CountsFaults (IsErrOf result DiskFailed) (D.state disk.old).faults (D.state disk.new).faults }
{
    cut_before(alloc, disk, number)
}
