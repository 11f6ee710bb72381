ghost use Rattle.std.specs.Prelude.{◌≡◌, true, List, IfOk, IfErr, IsErrOf};
ghost use Rattle.fileset_read.specs.m3_model.declared.point.Series.{Series as Row};
ghost use Rattle.fileset_read.specs.m3_outside.DiskState.{DiskState, Told};
ghost use Rattle.fileset_read.specs.m3_outside.DiskCalls.{LeavesFiles};
ghost use Rattle.fileset_read.specs.wire_bytes.Volumes.{VolumeHead, IsVolume};
ghost use Rattle.fileset_read.specs.volume_bytes.Heads.{head_of};
ghost use Rattle.fileset_read.specs.Volumes.{IsThere, IsUndamaged};
ghost use Rattle.fileset_read.specs.declared.file_err.FileErr.TheVariants as failures;
ghost use Rattle.fileset_lookup.specs.Runs.{Gives};
ghost use Rattle.volume_rows.specs.Seekers.{Seeks};
ghost use Rattle.volume_rows.specs.Stretches.{FindsEntries, FindsRecord, HasEntries, OfVolume};

use crate::parts::{INDEX, part_name, read_stretch};
use crate::seeker::Seeker;
use fileset_lookup::{Spot, find, may_hold, span};
use fileset_read::FileErr;
use fileset_read::of_m3_outside::Disk;
use fileset_read::of_volume_bytes::Head;
use fileset_read::of_wire_bytes::WireErr;
use std::alloc::Global;

/// A piece of a file: its offset, and how many bytes it has.
#[derive(Clone, Copy)]
pub(crate) struct Stretch {
    pub at: u64,
    pub len: u64,
}

/// The piece of a volume's index in which the entry of the identifier stands, if the volume has it. None only where it hasn't. Takes
/// no memory.
///
/// # Errors
///
/// The seeker is that of no volume.
pub(crate) fn find_entries(seeker: &Seeker, id: &str) -> Result<Option<Stretch>, WireErr>
    ensures { (v : VolumeHead) (rows : List Row) → IsVolume v rows → Seeks v rows seeker.now → Gives result (FindsEntries v.format id.now rows) }
{
    if !may_hold(seeker.bloom.as_slice(), id.as_bytes()) {
        return Ok(None);
    }
    let Some(piece) = span(seeker.summaries.as_slice(), id.as_bytes())? else {
        return Ok(None);
    };
    let to = piece.to.unwrap_or(seeker.index_len);
    if to < piece.from {
        return Err(WireErr::Short);
    }
    Ok(Some(Stretch {
        at: piece.from,
        len: to - piece.from,
    }))
}

/// Where the record of the identifier's series stands in the data of a volume that counts, if the volume has it, by the entries in a
/// piece of its index. That piece is read.
///
/// # Errors
///
/// A fault, by which the disk's count rose in this call. Want of memory. Damage only where the disk doesn't tell what it holds.
/// In any case the files, and what a stop leaves of them, are as they were.
pub(crate) fn find_record<D: Disk>(
    alloc: Global,
    disk: &mut D,
    head: &Head,
    stretch: Stretch,
    id: &str,
) -> Result<Option<Spot>, FileErr>
    requires there { Told (D.state disk.old) (IsThere (head_of head.now)) }
    requires entries { Told (D.state disk.old) (OfVolume (head_of head.now) (λ rows. HasEntries 1 id.now rows stretch)) }
    ensures leaves { LeavesFiles (IsErrOf result failures.Disk) (D.state disk.old) (D.state disk.new) }
    ensures ok { (D.state disk.old).tells ≡ true → IfOk result (λ found. OfVolume (head_of head.now) (λ rows. FindsRecord id.now rows found) (D.state disk.old).files) }
    ensures sound { (D.state disk.old).tells ≡ true → IfErr result IsUndamaged }
{
    let file = part_name(INDEX, head);
    let bytes = read_stretch(alloc, disk, file, stretch.at, stretch.len)?;
    match find(bytes.as_slice(), 0, id.as_bytes()) {
        Ok(spot) => Ok(spot),
        Err(_) => Err(FileErr::Form { file }),
    }
}
