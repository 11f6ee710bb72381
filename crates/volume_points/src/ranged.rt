//! Rows of a volume from an identifier on.
ghost use Rattle.std.specs.Prelude.{◌≡◌, true, List, IfOk, IfErr, IsErrOf};
ghost use Rattle.std.specs.Option.{option_copied};
ghost use Rattle.m3_model.specs.declared.point.Series.{Series as Row};
ghost use Rattle.fileset_check.specs.m3_outside.Causes.{CountsFaults};
ghost use Rattle.fileset_check.specs.m3_outside.DiskState.{DiskState, Told};
ghost use Rattle.fileset_check.specs.m3_outside.DiskCalls.{LeavesFiles};
ghost use Rattle.fileset_check.specs.shard_files.Parts.{VolumeHolds};
ghost use Rattle.fileset_check.specs.volume_bytes.Heads.{head_of};
ghost use Rattle.fileset_check.specs.fileset_read.Volumes.{IsThere, IsUndamaged};
ghost use Rattle.fileset_check.specs.fileset_read.declared.file_err.FileErr.TheVariants as failures;
ghost use Rattle.volume_rows.specs.Ranges.{AreRowsFrom};
ghost use Rattle.volume_rows.specs.Seekers.{IsSeekerOf};
ghost use Rattle.volume_points.specs.Picked.{AreAscending};

use crate::candidates::may_stand;
use crate::reading::data_of;
use fileset_check::of_fileset_read::FileErr;
use fileset_check::of_m3_outside::Disk;
use fileset_check::of_volume_bytes::Head;
use std::alloc::Global;
use volume_rows::{RowRange, Seeker, rows_from};

/// Rows of this volume, which is there whole, from the first one on that isn't below the identifier: all up to the last identifier, where there
/// is one, or the first of them that have as many points as `most` beside those of the first row. The rows ascend strictly by
/// identifier, and the points of each by time. A piece of its index is read, and one of its data.
///
/// # Errors
///
/// A fault, by which the disk's count rose in this call. Want of memory. Damage only where the disk doesn't tell what it holds.
/// In any case the files, and what a stop leaves of them, are as they were.
pub fn checked_range<D: Disk>(
    alloc: Global,
    disk: &mut D,
    head: &Head,
    seeker: &Seeker,
    id: &str,
    last: Option<&str>,
    most: u64,
) -> Result<RowRange, FileErr>
    requires there { Told (D.state disk.old) (IsThere (head_of head.now)) }
    requires seeker { Told (D.state disk.old) (IsSeekerOf (head_of head.now) seeker.now) }
    ensures leaves { LeavesFiles (IsErrOf result failures.Disk) (D.state disk.old) (D.state disk.new) }
    ensures ascending { IfOk result (λ found. AreAscending found.rows) }
    ensures ok { (D.state disk.old).tells ≡ true → IfOk result (λ found. (rows : List Row) → VolumeHolds (head_of head.now) rows (D.state disk.old).files → AreRowsFrom id.now (option_copied last.entry) most rows found) }
    ensures sound { (D.state disk.old).tells ≡ true → IfErr result IsUndamaged }
    ensures faults { CountsFaults (IsErrOf result failures.Disk) (D.state disk.old).faults (D.state disk.new).faults }
{
    let found = rows_from(alloc, disk, head, seeker, id, last, most)?;
    if !may_stand(head, found.rows.as_slice()) {
        let file = data_of(head);
        return Err(FileErr::Form { file });
    }
    Ok(found)
}
