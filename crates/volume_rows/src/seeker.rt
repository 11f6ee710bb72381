ghost use Rattle.std.specs.Prelude.{◌≡◌, true, IfOk, IfErr, IsErrOf};
ghost use Rattle.fileset_read.specs.m3_outside.Causes.{CountsFaults};
ghost use Rattle.fileset_read.specs.m3_outside.DiskState.{DiskState, Told};
ghost use Rattle.fileset_read.specs.m3_outside.DiskCalls.{LeavesFiles};
ghost use Rattle.fileset_read.specs.volume_bytes.Heads.{head_of};
ghost use Rattle.fileset_read.specs.Volumes.{IsThere, IsUndamaged};
ghost use Rattle.fileset_read.specs.declared.file_err.FileErr.TheVariants as failures;
ghost use Rattle.volume_rows.specs.Seekers.{IsSeekerOf};

use crate::parts::{BLOOM, INDEX, SUMMARIES, part_len, part_name, read_part};
use fileset_read::FileErr;
use fileset_read::of_m3_model::Seq;
use fileset_read::of_m3_outside::Disk;
use fileset_read::of_volume_bytes::Head;
use std::alloc::Global;

/// What a caller keeps of a volume to look identifiers up in it, as long as the volume stays. It has two bytes for each series and
/// a summary for every sixteenth.
#[derive(Drop)]
pub struct Seeker {
    /// The bytes of the volume's bloom filter.
    pub bloom: Seq<u8>,
    /// The bytes of its summaries.
    pub summaries: Seq<u8>,
    /// How many bytes its index has.
    pub index_len: u64,
}

/// The seeker of a volume that counts. Its bloom filter and its summaries are read.
///
/// # Errors
///
/// A fault, by which the disk's count rose in this call. Want of memory. Damage only where the disk doesn't tell what it holds.
/// In any case the files, and what a stop leaves of them, are as they were.
pub fn seeker_of<D: Disk>(alloc: Global, disk: &mut D, head: &Head) -> Result<Seeker, FileErr>
    requires { Told (D.state disk.old) (IsThere (head_of head.now)) }
    ensures leaves { LeavesFiles (IsErrOf result failures.Disk) (D.state disk.old) (D.state disk.new) }
    ensures ok { (D.state disk.old).tells ≡ true → IfOk result (λ seeker. IsSeekerOf (head_of head.now) seeker (D.state disk.old).files) }
    ensures sound { (D.state disk.old).tells ≡ true → IfErr result IsUndamaged }
    ensures faults { CountsFaults (IsErrOf result failures.Disk) (D.state disk.old).faults (D.state disk.new).faults }
{
    let bloom = read_part(alloc, disk, part_name(BLOOM, head))?;
    let summaries = read_part(alloc, disk, part_name(SUMMARIES, head))?;
    let index_len = part_len(disk, part_name(INDEX, head))?;
    Ok(Seeker {
        bloom,
        summaries,
        index_len,
    })
}
