ghost use Rattle.std.specs.Prelude.{◌≡◌, ◌≤◌, ℕ, List, true, Some, length, take, IfOk, IsErrOf};
ghost use Rattle.std.specs.FinMap.{get};
ghost use Rattle.log_chunks.specs.m3_model.declared.limits.TheConstants.{SEGMENT_BYTES};
ghost use Rattle.log_chunks.specs.m3_outside.Causes.{CountsFaults};
ghost use Rattle.log_chunks.specs.m3_outside.Files.{IsInside, IsPresent};
ghost use Rattle.log_chunks.specs.m3_outside.DiskState.{DiskState, Told};
ghost use Rattle.log_chunks.specs.m3_outside.DiskCalls.{LeavesFiles};
ghost use Rattle.log_chunks.specs.m3_outside.declared.disk_err.DiskErr.TheVariants.{Failed as DiskFailed, Memory as WantOfMemory};
ghost use Rattle.commit_log.specs.Contents.{segment_bytes};
ghost use Rattle.commit_log.specs.Reading.{IsFront};
ghost use Rattle.commit_log.specs.Segment.{segment};

use crate::chunk::segment_name;
use log_chunks::of_m3_model::limits::SEGMENT_BYTES;
use log_chunks::of_m3_outside::{Disk, DiskErr, FileName};
use std::alloc::Global;

/// The first bytes of a segment's file, at most as many as a segment has.
#[derive(Drop)]
pub struct Front {
    pub bytes: Vec<u8>,
    /// Whether the file has just as many bytes as a segment.
    pub is_whole: bool,
}

// The first `size` bytes of a file.
fn read_file<D: Disk>(
    alloc: Global,
    disk: &mut D,
    name: FileName,
    size: u64,
) -> Result<Vec<u8>, DiskErr>
    requires inside { Told (D.state disk.old) (IsInside name 0 size) }
    ensures leaves { LeavesFiles (IsErrOf result DiskFailed) (D.state disk.old) (D.state disk.new) }
    ensures ok { (D.state disk.old).tells ≡ true → IfOk result (λ v. (file : List ℕ) → get (D.state disk.old).files name ≡ Some file → v.items ≡ take size file) }
    ensures size { IfOk result (λ v. length v.items ≡ size) }
{
    let mut bytes = vec![in alloc; 0u8; size as usize]?;
    disk.read(name, 0, &mut bytes)?;
    Ok(bytes)
}

/// The first bytes of the segment of this number. Of a segment that isn't there they are none.
///
/// # Errors
///
/// A fault, by which the disk's count rose in this call. Want of memory, which a segment that isn't there never has. After
/// either the files, and what a stop leaves of them, are as they were.
pub fn read_front<D: Disk>(alloc: Global, disk: &mut D, number: u64) -> Result<Front, DiskErr>
    ensures leaves { LeavesFiles (IsErrOf result DiskFailed) (D.state disk.old) (D.state disk.new) }
    ensures ok { (D.state disk.old).tells ≡ true → IfOk result (λ front. IsFront front.bytes.items front.is_whole (segment_bytes number (D.state disk.old).files)) }
    ensures short { IfOk result (λ front. length front.bytes.items ≤ SEGMENT_BYTES) }
    ensures memory { IsErrOf result WantOfMemory → Told (D.state disk.old) (IsPresent (segment number)) }
    ensures faults { CountsFaults (IsErrOf result DiskFailed) (D.state disk.old).faults (D.state disk.new).faults }
{
    let name = segment_name(number);
    let Some(size) = disk.size(name)? else {
        return Ok(Front {
            bytes: Vec::new(alloc),
            is_whole: false,
        });
    };
    let bytes = read_file(alloc, disk, name, size.min(SEGMENT_BYTES))?;
    Ok(Front {
        bytes,
        is_whole: size == SEGMENT_BYTES,
    })
}
