ghost use Rattle.std.specs.Prelude.{◌≡◌, ◌<◌, ◌≤◌, true, IfOk, IsErr, IsErrOf, OnOk};
ghost use Rattle.shard_files.specs.m3_model.declared.limits.TheConstants.{NUMBER_END};
ghost use Rattle.shard_files.specs.m3_outside.Files.{Files};
ghost use Rattle.shard_files.specs.m3_outside.Causes.{CountsFaults};
ghost use Rattle.shard_files.specs.m3_outside.DiskState.{DiskState, Elapses, StepOf};
ghost use Rattle.shard_files.specs.m3_outside.declared.disk_err.DiskErr.TheVariants.{Failed as DiskFailed, Memory as WantOfMemory};
ghost use Rattle.shard_files.specs.wire_bytes.Volumes.{IsVolume};
ghost use Rattle.shard_files.specs.Steps.{next_volume, volume_after, MayWrite, Wrote, WroteNone};

use crate::gate::put_all;
use crate::next_number::next_number;
use crate::volume::new_volume;
use shard_files::of_m3_model::{Seq, Series};
use shard_files::of_m3_outside::{Disk, DiskErr};
use std::alloc::Global;
use volume_bytes::Head;

/// Writes a volume of format 1 with these rows for the block of this namespace, start and size, and gives its number: one
/// above those of all volumes of the namespace and the start of which a file is there.
///
/// Info, summaries, index, data, bloom filter and digests are made one after another, each synced before the next begins; then
/// the checkpoint, whose gate is opened once all else is synced. So a stop at any moment leaves the whole volume or one that
/// doesn't count, and no other file is touched. Its bytes are made before the first file is, in time and memory in proportion to
/// them, and room is taken for two calls at a time.
///
/// # Errors
///
/// A fault, by which the disk's count rose in this call; the volume is there whole then, or doesn't count. Want of memory, also
/// where the number would be `NUMBER_END` or a higher one; the volume doesn't count then. Files of a volume that doesn't count
/// may stay in either case; they keep its number from being used again.
pub fn write<D: Disk>(
    alloc: Global,
    disk: &mut D,
    ns: u8,
    start: u64,
    size: u64,
    rows: &Seq<Series>,
) -> Result<u64, DiskErr>
    requires values { IsVolume (record { format = 1; ns = ns; start = start; size = size; number = 0 }) rows.now }
    ensures number { (D.state disk.old).tells ≡ true → IfOk result (λ n. n ≡ next_volume ns start (D.state disk.old).files) }
    ensures limit { IfOk result (λ n. n < NUMBER_END) }
    ensures full { (D.state disk.old).tells ≡ true → NUMBER_END ≤ next_volume ns start (D.state disk.old).files → IsErr result }

    // A stop at any moment leaves the volume whole, or one that doesn't count, and all other files.
    ensures any_moment { (D.state disk.old).tells ≡ true → Elapses (MayWrite (volume_after 1 ns start size (D.state disk.old).files) rows.now) (D.state disk.old) (D.state disk.new) }

    ensures acknowledged { (D.state disk.old).tells ≡ true → OnOk result ((c : Files) → (D.state disk.new).images c → StepOf (Wrote (volume_after 1 ns start size (D.state disk.old).files) rows.now) (D.state disk.old).images c) }
    ensures memory { (D.state disk.old).tells ≡ true → IsErrOf result WantOfMemory → (c : Files) → (D.state disk.new).images c → StepOf (WroteNone (volume_after 1 ns start size (D.state disk.old).files)) (D.state disk.old).images c }
    ensures files { (D.state disk.old).tells ≡ true → MayWrite (volume_after 1 ns start size (D.state disk.old).files) rows.now (D.state disk.old).files (D.state disk.new).files }
    ensures there { (D.state disk.old).tells ≡ true → OnOk result (Wrote (volume_after 1 ns start size (D.state disk.old).files) rows.now (D.state disk.old).files (D.state disk.new).files) }
    ensures not_there { (D.state disk.old).tells ≡ true → IsErrOf result WantOfMemory → WroteNone (volume_after 1 ns start size (D.state disk.old).files) (D.state disk.old).files (D.state disk.new).files }
    ensures tells { (D.state disk.new).tells ≡ (D.state disk.old).tells }
    ensures faults { CountsFaults (IsErrOf result DiskFailed) (D.state disk.old).faults (D.state disk.new).faults }
{
    let number = next_number(alloc, disk, ns, start)?;
    let head = Head {
        ns,
        start,
        size,
        number,
    };
    let volume = new_volume(alloc, &head, rows.as_slice())?;
    put_all(disk, &volume.files, volume.checkpoint, &volume.digest)?;
    Ok(number)
}
