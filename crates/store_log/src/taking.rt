//! Points taken in together: in one entry of the log, and in memory.
ghost use Rattle.std.specs.Prelude.{◌≡◌, ◌+◌, ◌≤◌, ℕ, List, None, true, length, map, IfOk, OnOk, IsErrOf};
ghost use Rattle.m3_model.specs.declared.limits.TheConstants.{SEGMENT_BYTES};
ghost use Rattle.m3_outside.specs.DiskState.{DiskState};
ghost use Rattle.m3_outside.specs.declared.disk_err.DiskErr.TheVariants.{Failed as DiskFailed, Memory as WantOfMemory};
ghost use Rattle.joined_reads.specs.listed_volumes.block_buffer.Joins.{joined};
ghost use Rattle.joined_reads.specs.listed_volumes.commit_log.LogEnd.{LogEndStands};
ghost use Rattle.joined_reads.specs.listed_volumes.wire_bytes.Entries.{ArePoints, points_entry};
ghost use Rattle.joined_reads.specs.listed_volumes.shard_files.Parts.{KnownVolume};
ghost use Rattle.snapshot_steps.specs.Counts.{StayCounted};
ghost use Rattle.joined_reads.specs.held_pages.Rises.{AreOfSeries, points_of};
ghost use Rattle.store_log.specs.Kept.{IsKeptOn};
ghost use Rattle.store_log.specs.Whole.{BringsWhole, of_points};

use crate::log_step::{append_entry, ready_entry};
use joined_reads::of_commit_log::Log;
use joined_reads::of_held_pages::{Rise, hold_new, raise_all};
use joined_reads::of_held_points::HeldPoints;
use joined_reads::of_wire_bytes::put_points;
use m3_model::{Memory, Point};
use m3_outside::{Disk, DiskErr};
use std::alloc::Global;

// The points, as an entry of the log takes them.
fn lent<'a>(alloc: Global, rises: &'a [Rise]) -> Result<Vec<&'a Point>, Memory>
    ensures { IfOk result (λ points. map (λ p. p.now) points.items ≡ points_of rises.now) }
{
    let mut points = Vec::with_capacity(alloc, rises.len())?;
    for rise in rises {
        points.push(&rise.point)?;
    }
    Ok(points)
}

// Spells the entry of the points.
fn spell(alloc: Global, bytes: &mut Vec<u8>, rises: &[Rise]) -> Result<(), Memory>
    requires { ArePoints (points_of rises.now) }
    ensures ok { OnOk result (bytes.new.items ≡ points_entry (points_of rises.now)) }
    ensures short { OnOk result (5 + length bytes.new.items ≤ SEGMENT_BYTES) }
{
    let points = lent(alloc, rises)?;
    bytes.clear();
    put_points(bytes, points.as_slice())
}

/// Has the points in the log, in one entry, and in memory, where of two at one key the higher value stays. All memory is taken before
/// the entry. Costs the log's step, and for each point as much as a put of it. The bytes are the entry's.
///
/// # Errors
///
/// A fault: the entry may be there after a stop, or not, and what is in memory isn't what the log has. Want of memory leaves the points
/// in memory as they were, and what a stop leaves holds what it held.
pub fn take_points<D: Disk>(
    alloc: Global,
    disk: &mut D,
    log: &mut Log,
    held: &mut HeldPoints,
    bytes: &mut Vec<u8>,
    rises: &[Rise],
) -> Result<(), DiskErr>
    requires points { ArePoints (points_of rises.now) }
    requires series { AreOfSeries rises.now }
    requires room { held.old.room ≡ None }
    requires stands { LogEndStands log.old (D.state disk.old) }
    ensures kept { (known : List KnownVolume) (tenure fence : ℕ) → IsKeptOn log.old held.old known tenure fence (D.state disk.old) → ¬ (IsErrOf result DiskFailed) → IsKeptOn log.new held.new known tenure fence (D.state disk.new) }
    ensures ok { OnOk result (held.new ≡ record { points = joined held.old.points (points_of rises.now); room = None }) }
    ensures memory { IsErrOf result WantOfMemory → held.new ≡ held.old }
    ensures counts { (D.state disk.old).tells ≡ true → ¬ (IsErrOf result DiskFailed) → StayCounted log.old log.new (D.state disk.old).files (D.state disk.new).files }
    ensures disk { BringsWhole (of_points (points_of rises.now)) (IsErrOf result DiskFailed) result (D.state disk.old) (D.state disk.new) }
{
    spell(alloc, bytes, rises)?;
    ready_entry(disk, log, bytes.len() as u32)?;
    hold_new(held, rises)?;
    // From here on no memory is wanted.
    append_entry(disk, log, bytes)?;
    raise_all(held, rises);
    Ok(())
}
