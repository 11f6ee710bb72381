ghost use Rattle.std.specs.Prelude.{◌≡◌, true, List, IfOk, IfErr, IfSome, IsErrOf};
ghost use Rattle.fileset_read.specs.m3_model.declared.point.Series.{Series as Row};
ghost use Rattle.fileset_read.specs.m3_outside.Causes.{CountsFaults};
ghost use Rattle.fileset_read.specs.m3_outside.DiskState.{DiskState, Told};
ghost use Rattle.fileset_read.specs.m3_outside.DiskCalls.{LeavesFiles};
ghost use Rattle.fileset_read.specs.shard_files.Parts.{VolumeHolds};
ghost use Rattle.fileset_read.specs.volume_bytes.Heads.{head_of};
ghost use Rattle.fileset_read.specs.Rows.{IsSeriesOf};
ghost use Rattle.fileset_read.specs.Volumes.{IsThere, IsUndamaged};
ghost use Rattle.fileset_read.specs.declared.file_err.FileErr.TheVariants as failures;
ghost use Rattle.volume_rows.specs.Seekers.{IsSeekerOf};

use crate::entries::{find_entries, find_record};
use crate::parts::{SUMMARIES, part_name};
use crate::records::read_row;
use crate::seeker::Seeker;
use fileset_read::FileErr;
use fileset_read::of_m3_model::Series;
use fileset_read::of_m3_outside::Disk;
use fileset_read::of_volume_bytes::Head;
use std::alloc::Global;

/// The series of an identifier in a volume that counts, and none where the volume has none. Where the volume's bloom filter and
/// summaries exclude the identifier, nothing is read; else a piece of the index of 16 entries at most, and the record of the series
/// if there is one.
///
/// # Errors
///
/// A fault, by which the disk's count rose in this call. Want of memory. Damage only where the disk doesn't tell what it holds.
/// In any case the files, and what a stop leaves of them, are as they were.
pub fn row_of<D: Disk>(
    alloc: Global,
    disk: &mut D,
    head: &Head,
    seeker: &Seeker,
    id: &str,
) -> Result<Option<Series>, FileErr>
    requires there { Told (D.state disk.old) (IsThere (head_of head.now)) }
    requires seeker { Told (D.state disk.old) (IsSeekerOf (head_of head.now) seeker.now) }
    ensures leaves { LeavesFiles (IsErrOf result failures.Disk) (D.state disk.old) (D.state disk.new) }
    ensures ok { (D.state disk.old).tells ≡ true → IfOk result (λ found. (rows : List Row) → VolumeHolds (head_of head.now) rows (D.state disk.old).files → IsSeriesOf id.now rows found) }
    ensures named { IfOk result (λ found. IfSome found (λ s. s.id ≡ id.now)) }
    ensures sound { (D.state disk.old).tells ≡ true → IfErr result IsUndamaged }
    ensures faults { CountsFaults (IsErrOf result failures.Disk) (D.state disk.old).faults (D.state disk.new).faults }
{
    let stretch = match find_entries(seeker, id) {
        Ok(Some(stretch)) => stretch,
        Ok(None) => return Ok(None),
        Err(_) => {
            return Err(FileErr::Form {
                file: part_name(SUMMARIES, head),
            });
        }
    };
    let Some(spot) = find_record(alloc, disk, head, stretch, id)? else {
        return Ok(None);
    };
    Ok(Some(read_row(alloc, disk, head, spot, id)?))
}
