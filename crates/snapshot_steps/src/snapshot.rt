ghost use Rattle.std.specs.Prelude.{◌≡◌, ℕ, true, List, [], ◌∷◌, IfOk, IsErrOf, OnOk};
ghost use Rattle.m3_model.specs.Contents.{Contents};
ghost use Rattle.snapshot_files.specs.m3_outside.Causes.{CountsFaults};
ghost use Rattle.snapshot_files.specs.m3_outside.DiskState.{DiskState, EachImage, Elapses};
ghost use Rattle.snapshot_files.specs.m3_outside.declared.disk_err.DiskErr.TheVariants.{Failed as DiskFailed, Memory as WantOfMemory};
ghost use Rattle.snapshot_files.specs.commit_log.Contents.{next_after, numbers};
ghost use Rattle.snapshot_files.specs.commit_log.LogEnd.{LogEnd, LogEndStands};
ghost use Rattle.snapshot_files.specs.shard_files.Keeps.{Keeps};
ghost use Rattle.snapshot_files.specs.shard_files.Parts.{KnownVolume, counted_snapshots, snapshot_checkpoint};
ghost use Rattle.snapshot_files.specs.shard_files.Steps.{next_snapshot};
ghost use Rattle.volume_steps.specs.Known.{HoldsKnown, HaveContent};
ghost use Rattle.snapshot_steps.specs.Counts.{AreCounted};
ghost use Rattle.snapshot_steps.specs.Saved.{AreIn, AreSaveable, HoldsSaved, snapshot_of};

use crate::clearing::clear_snapshots;
use crate::counts::Counts;
use crate::cutting::cut_log;
use crate::saving::save_snapshot;
use crate::segment::begin_segment;
use m3_model::{Point, Seq};
use snapshot_files::of_commit_log::Log;
use snapshot_files::of_m3_outside::{Disk, DiskErr};
use std::alloc::Global;

/// Takes a snapshot of what is in memory, and gives its number, one above those of all snapshots of which a file is there: begins a
/// fresh segment as the log's end, saves, takes away all other segments, and then all other snapshots that count. The points are
/// just those in memory, the tenure and the fence those of the files. What was counted of the log and of its snapshots is then
/// counted of what is left.
///
/// # Errors
///
/// A fault. Want of memory, at any of these; the files hold what is in memory as they did, and the log goes on at its end.
pub fn take_snapshot<D: Disk>(
    alloc: Global,
    disk: &mut D,
    log: &mut Log,
    counts: &mut Counts,
    tenure: u64,
    fence: u64,
    points: Seq<Point>,
) -> Result<u64, DiskErr>
    requires { AreSaveable points }

    // A stop at any moment leaves all that is to be kept, the tenure and the fence.
    ensures any_moment { (kept memory : Contents) (known : List KnownVolume) → EachImage (D.state disk.old) (HoldsKnown memory known tenure fence) → AreIn memory points → HaveContent memory known kept → (D.state disk.old).tells ≡ true → Elapses (Keeps kept) (D.state disk.old) (D.state disk.new) }

    ensures next { (D.state disk.old).tells ≡ true → IfOk result (λ n. n ≡ next_snapshot (D.state disk.old).files) }

    // The newest snapshot has all that is in memory, and no other one counts.
    ensures saved { (memory : Contents) (known : List KnownVolume) → EachImage (D.state disk.old) (HoldsKnown memory known tenure fence) → AreIn memory points → IfOk result (λ n. EachImage (D.state disk.new) (HoldsSaved (snapshot_of n tenure fence log.new.number points) memory known tenure fence)) }
    ensures alone { (memory : Contents) (known : List KnownVolume) → EachImage (D.state disk.old) (HoldsKnown memory known tenure fence) → AreIn memory points → IfOk result (λ n. EachImage (D.state disk.new) (λ files. counted_snapshots files ≡ snapshot_checkpoint n ∷ [])) }

    // The log is one segment without chunks.
    ensures end { OnOk result ((log.new.at ≡ 0) × (log.new.clean ≡ true)) }
    ensures segments { (D.state disk.old).tells ≡ true → OnOk result (numbers (D.state disk.new).files ≡ log.new.number ∷ []) }
    ensures number { (D.state disk.old).tells ≡ true → OnOk result (log.new.number ≡ next_after (numbers (D.state disk.old).files)) }
    ensures stands { OnOk result (LogEndStands log.new (D.state disk.new)) }
    ensures memory { (memory : Contents) (known : List KnownVolume) → EachImage (D.state disk.old) (HoldsKnown memory known tenure fence) → AreIn memory points → IsErrOf result WantOfMemory → EachImage (D.state disk.new) (HoldsKnown memory known tenure fence) }
    ensures log_stands { IsErrOf result WantOfMemory → LogEndStands log.old (D.state disk.old) → LogEndStands log.new (D.state disk.new) }
    ensures counted { (memory : Contents) (known : List KnownVolume) → EachImage (D.state disk.old) (HoldsKnown memory known tenure fence) → AreIn memory points → (D.state disk.old).tells ≡ true → ¬ (IsErrOf result DiskFailed) → AreCounted log.old counts.old.missing counts.old.snapshot (D.state disk.old).files → AreCounted log.new counts.new.missing counts.new.snapshot (D.state disk.new).files }
    ensures tells { (D.state disk.new).tells ≡ (D.state disk.old).tells }
    ensures faults { CountsFaults (IsErrOf result DiskFailed) (D.state disk.old).faults (D.state disk.new).faults }
{
    let first = begin_segment(alloc, disk, log)?;
    let number = save_snapshot(alloc, disk, tenure, fence, first, points)?;
    counts.snapshot = number;
    cut_log(alloc, disk, first)?;
    counts.missing = first;
    clear_snapshots(alloc, disk, number)?;
    Ok(number)
}
