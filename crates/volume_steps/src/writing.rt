ghost use Rattle.std.specs.Prelude.{◌≡◌, ◌<◌, ◌≤◌, ℕ, true, List, IfOk, IsErr, IsErrOf};
ghost use Rattle.m3_model.specs.Contents.{Contents};
ghost use Rattle.m3_model.specs.declared.limits.TheConstants.{NUMBER_END};
ghost use Rattle.shard_files.specs.m3_outside.Causes.{CountsFaults};
ghost use Rattle.shard_files.specs.m3_outside.DiskState.{DiskState, EachImage, Elapses};
ghost use Rattle.shard_files.specs.m3_outside.declared.disk_err.DiskErr.TheVariants.{Failed as DiskFailed, Memory as WantOfMemory};
ghost use Rattle.shard_files.specs.commit_log.Contents.{numbers};
ghost use Rattle.shard_files.specs.commit_log.LogEnd.{LogEnd, LogEndStands};
ghost use Rattle.shard_files.specs.wire_bytes.Volumes.{IsVolume};
ghost use Rattle.shard_files.specs.Keeps.{Keeps};
ghost use Rattle.shard_files.specs.Parts.{KnownVolume};
ghost use Rattle.shard_files.specs.Steps.{OthersStay, is_part, next_volume};
ghost use Rattle.volume_steps.specs.Known.{HoldsKnown, HaveContent, HaveRows};
ghost use Rattle.volume_steps.specs.KnownLists.{volume_of, with_volume};

use fileset_write::write;
use m3_model::{Seq, Series};
use shard_files::of_m3_outside::{Disk, DiskErr};
use std::alloc::Global;

/// Writes a volume of format 1 with these rows for the block of this namespace, start and size, and gives its number: one
/// above those of all volumes of the namespace and the start of which a file is there. The points of its rows are in memory or
/// in known volumes already.
///
/// Its costs are those of `fileset_write::write`.
///
/// # Errors
///
/// A fault; the volume counts then, or doesn't. Want of memory, also where the number would be `NUMBER_END` or a higher one; the
/// volume doesn't count then, and the known ones are as they were. Files of a volume that doesn't count may stay in either case.
pub fn write_volume<D: Disk>(
    alloc: Global,
    disk: &mut D,
    ns: u8,
    start: u64,
    size: u64,
    rows: &Seq<Series>,
) -> Result<u64, DiskErr>
    requires values { IsVolume (record { format = 1; ns = ns; start = start; size = size; number = 0 }) rows.now }
    ensures number { (D.state disk.old).tells ≡ true → IfOk result (λ n. n ≡ next_volume ns start (D.state disk.old).files) }
    ensures limit { IfOk result (λ n. n < NUMBER_END) }
    ensures full { (D.state disk.old).tells ≡ true → NUMBER_END ≤ next_volume ns start (D.state disk.old).files → IsErr result }

    // A stop at any moment leaves all that is to be kept, the tenure and the fence.
    ensures any_moment { (kept memory : Contents) (known : List KnownVolume) (tenure fence : ℕ) → EachImage (D.state disk.old) (HoldsKnown memory known tenure fence) → HaveContent memory known kept → HaveRows memory known ns rows.now → (D.state disk.old).tells ≡ true → Elapses (Keeps kept) (D.state disk.old) (D.state disk.new) }

    ensures known { (memory : Contents) (known : List KnownVolume) (tenure fence : ℕ) → EachImage (D.state disk.old) (HoldsKnown memory known tenure fence) → IfOk result (λ n. EachImage (D.state disk.new) (HoldsKnown memory (with_volume (volume_of ns start size n rows.now) known) tenure fence)) }
    ensures memory { (memory : Contents) (known : List KnownVolume) (tenure fence : ℕ) → EachImage (D.state disk.old) (HoldsKnown memory known tenure fence) → IsErrOf result WantOfMemory → EachImage (D.state disk.new) (HoldsKnown memory known tenure fence) }
    ensures others { (D.state disk.old).tells ≡ true → OthersStay (λ name. is_part ns start name ≡ true) (D.state disk.old).files (D.state disk.new).files }
    ensures segments { (D.state disk.old).tells ≡ true → numbers (D.state disk.new).files ≡ numbers (D.state disk.old).files }
    ensures log_stands { (log : LogEnd) → LogEndStands log (D.state disk.old) → LogEndStands log (D.state disk.new) }
    ensures tells { (D.state disk.new).tells ≡ (D.state disk.old).tells }
    ensures faults { CountsFaults (IsErrOf result DiskFailed) (D.state disk.old).faults (D.state disk.new).faults }
{
    write(alloc, disk, ns, start, size, rows)
}
