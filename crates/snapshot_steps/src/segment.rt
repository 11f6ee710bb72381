ghost use Rattle.std.specs.Prelude.{◌≡◌, ◌<◌, ℕ, true, List, IfOk, IsErr, IsErrOf, OnOk};
ghost use Rattle.m3_model.specs.Contents.{Contents};
ghost use Rattle.m3_model.specs.declared.limits.TheConstants.{NUMBER_END, SEGMENT_BYTES};
ghost use Rattle.snapshot_files.specs.m3_outside.Causes.{CountsFaults};
ghost use Rattle.snapshot_files.specs.m3_outside.DiskState.{DiskState, EachImage, Elapses, Becomes};
ghost use Rattle.snapshot_files.specs.m3_outside.Files.{IsPresent, files_with_zeros};
ghost use Rattle.snapshot_files.specs.m3_outside.declared.disk_err.DiskErr.TheVariants.{Failed as DiskFailed, Memory as WantOfMemory};
ghost use Rattle.snapshot_files.specs.commit_log.Contents.{next_after, numbers};
ghost use Rattle.snapshot_files.specs.commit_log.LogEnd.{LogEnd, LogEndStands};
ghost use Rattle.snapshot_files.specs.commit_log.Segment.{segment};
ghost use Rattle.snapshot_files.specs.shard_files.Keeps.{Keeps};
ghost use Rattle.snapshot_files.specs.shard_files.Parts.{KnownVolume};
ghost use Rattle.snapshot_files.specs.shard_files.Steps.{next_snapshot};
ghost use Rattle.volume_steps.specs.Known.{HoldsKnown, HaveContent};

use snapshot_files::of_commit_log::{Log, list_segments};
use snapshot_files::of_m3_outside::{Disk, DiskErr};
use std::alloc::Global;

/// Begins a fresh segment as the log's end, and gives its number: one above all that are there.
///
/// # Errors
///
/// A fault; the segment is there, empty, or not. Want of memory, also where the number would be `NUMBER_END` or a higher one; the
/// files are as they were. The log's end stays as it was known in either case.
pub fn begin_segment<D: Disk>(alloc: Global, disk: &mut D, log: &mut Log) -> Result<u64, DiskErr>
    ensures number { (D.state disk.old).tells ≡ true → IfOk result (λ n. n ≡ next_after (numbers (D.state disk.old).files)) }
    ensures limit { IfOk result (λ n. n < NUMBER_END) }
    ensures end { IfOk result (λ n. log.new ≡ record { number = n; at = 0; clean = true }) }
    ensures same { IsErr result → log.new ≡ log.old }
    ensures stands { OnOk result (LogEndStands log.new (D.state disk.new)) }
    ensures there { (D.state disk.old).tells ≡ true → IfOk result (λ n. IsPresent (segment n) (D.state disk.new).files) }
    ensures made { (D.state disk.old).tells ≡ true → IfOk result (λ n. (D.state disk.new).files ≡ files_with_zeros (segment n) SEGMENT_BYTES (D.state disk.old).files) }
    ensures snapshots { (D.state disk.old).tells ≡ true → next_snapshot (D.state disk.new).files ≡ next_snapshot (D.state disk.old).files }
    ensures unchanged { (D.state disk.old).tells ≡ true → IsErrOf result WantOfMemory → Becomes (λ files. files) (D.state disk.old) (D.state disk.new) }

    // A stop at any moment leaves all that is to be kept, the tenure and the fence.
    ensures any_moment { (kept memory : Contents) (known : List KnownVolume) (tenure fence : ℕ) → EachImage (D.state disk.old) (HoldsKnown memory known tenure fence) → HaveContent memory known kept → (D.state disk.old).tells ≡ true → Elapses (Keeps kept) (D.state disk.old) (D.state disk.new) }

    ensures known { (memory : Contents) (known : List KnownVolume) (tenure fence : ℕ) → EachImage (D.state disk.old) (HoldsKnown memory known tenure fence) → EachImage (D.state disk.new) (HoldsKnown memory known tenure fence) }
    ensures log_stands { IsErrOf result WantOfMemory → LogEndStands log.old (D.state disk.old) → LogEndStands log.new (D.state disk.new) }
    ensures tells { (D.state disk.new).tells ≡ (D.state disk.old).tells }
    ensures faults { CountsFaults (IsErrOf result DiskFailed) (D.state disk.old).faults (D.state disk.new).faults }
{
    let segments = list_segments(alloc, disk)?;
    *log = Log::begin(disk, segments.next)?;
    Ok(segments.next)
}
