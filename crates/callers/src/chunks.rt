ghost use Rattle.std.specs.Prelude.{◌+◌, ◌≤◌, length, OnOk, IsErrOf};
ghost use Rattle.m3_model.specs.declared.limits.TheConstants.{SEGMENT_BYTES};
ghost use Rattle.m3_outside.specs.Causes.{CountsFaults};
ghost use Rattle.m3_outside.specs.DiskState.{DiskState, EachImage};
ghost use Rattle.m3_outside.specs.declared.disk_err.DiskErr.TheVariants.{Failed as DiskFailed};
ghost use Rattle.commit_log.specs.Segment.{segment};
ghost use Rattle.commit_log.specs.LogEnd.{LogEndStands};
ghost use Rattle.callers.specs.Chunks.{EndsWith};

use commit_log::Log;
use m3_outside::{Disk, DiskErr};

/// Appends a chunk to a log. From `Ok` on each stop leaves it as the last chunk of the log's segment.
///
/// # Errors
///
/// A fault or want of memory. The log stands, and the next call goes on, in a fresh segment where need be.
pub fn keep_chunk<D: Disk>(disk: &mut D, log: &mut Log, chunk: &[u8]) -> Result<(), DiskErr>
    requires short { 5 + length chunk.now ≤ SEGMENT_BYTES }
    requires stands { LogEndStands log.old (D.state disk.old) }
    ensures kept { OnOk result (EachImage (D.state disk.new) (EndsWith (segment log.new.number) chunk.now)) }
    ensures stands { LogEndStands log.new (D.state disk.new) }
    ensures faults { CountsFaults (IsErrOf result DiskFailed) (D.state disk.old).faults (D.state disk.new).faults }
{
    log.ready(disk, chunk.len() as u32)?;
    log.append(disk, chunk)?;
    Ok(())
}
