ghost use Rattle.std.specs.Prelude.{◌≡◌, ◌+◌, ◌<◌, ◌≤◌, ◌^◌, [], true, List, length, filter, map, IfOk, IfErr, IsErrOf};
ghost use Rattle.m3_model.specs.Contents.{Holds, content_of};
ghost use Rattle.m3_model.specs.Members.{IsIn};
ghost use Rattle.m3_model.specs.Reads.{InRange, IsOrdered};
ghost use Rattle.m3_model.specs.declared.limits.TheConstants.{DURATION_END};
ghost use Rattle.m3_model.specs.declared.point.Point.{Point};
ghost use Rattle.fileset_check.specs.m3_outside.Causes.{CountsFaults};
ghost use Rattle.fileset_check.specs.m3_outside.DiskState.{DiskState, Told};
ghost use Rattle.fileset_check.specs.m3_outside.DiskCalls.{LeavesFiles};
ghost use Rattle.held_points.specs.block_buffer.Joins.{joined};
ghost use Rattle.fileset_check.specs.wire_bytes.Entries.{IsBounded};
ghost use Rattle.fileset_check.specs.wire_bytes.Volumes.{IsVolume, points_of_rows};
ghost use Rattle.fileset_check.specs.shard_files.Parts.{KnownVolume};
ghost use Rattle.fileset_check.specs.shard_files.FilesHold.{volume_points};
ghost use Rattle.fileset_check.specs.volume_bytes.Heads.{head_of};
ghost use Rattle.series_merge.specs.Merges.{IsMergeOf};
ghost use Rattle.volume_points.specs.Blocks.{AreRowsOf, IsOfNoDamage, IsTooLarge, block_head};
ghost use Rattle.volume_points.specs.Known.{AreOf, AreThere, is_head_of, is_of};
ghost use Rattle.volume_points.specs.declared.block_err.BlockErr.TheVariants as errors;

use crate::block_err::BlockErr;
use crate::candidates::may_stand;
use crate::reading::read;
use fileset_check::of_m3_outside::Disk;
use fileset_check::of_volume_bytes::Head;
use m3_model::{Memory, Pick, Seq, Series};
use series_merge::merge;
use std::alloc::Global;

// Whether the volume is of this block.
fn is_of_block(head: &Head, ns: u8, start: u64, size: u64) -> bool
    ensures { result ≡ is_head_of ns start size (head_of head.now) }
{
    head.ns == ns && head.start == start && head.size == size
}

// Those of the volumes that are of this block.
fn of_block(
    alloc: Global,
    volumes: &[Head],
    ns: u8,
    start: u64,
    size: u64,
) -> Result<Vec<Head>, Memory>
    ensures { IfOk result (λ found. found.items ≡ filter (λ h. is_head_of ns start size (head_of h)) volumes.now) }
{
    let mut found = Vec::new(alloc);
    found.extend_from_slice(volumes)?;
    found.retain(|head| is_of_block(head, ns, start, size));
    Ok(found)
}

/// The rows of a new volume of the block of this namespace, start and size: its points in memory, which are handed in as rows,
/// joined with those of all of these volumes that are of the block. Identifiers ascend strictly by bytes, times ascend strictly,
/// and no series is empty. Where there is a row, `fileset_write::write` takes them.
///
/// Each of the volumes is there whole. The rows in memory are in order, with points of this block that are within the bounds of a
/// point. The end of the block is below 2^64 and its size below `DURATION_END`, as those of each block of rules within their
/// limits. Costs as `read` does of the volumes of the block, and in proportion to the bytes of the rows.
///
/// # Errors
///
/// A fault, by which the disk's count rose in this call. Want of memory. Damage only where the disk doesn't tell what it holds.
/// `Large` where the joined rows are more than a volume may have: 2^28 series, or a series whose record has 2^32 bytes. In any case
/// the files, and what a stop leaves of them, are as they were.
pub fn block_rows<D: Disk>(
    alloc: Global,
    disk: &mut D,
    volumes: &[Head],
    ns: u8,
    start: u64,
    size: u64,
    buffered: Seq<Series>,
) -> Result<Seq<Series>, BlockErr>
    requires there { Told (D.state disk.old) (AreThere volumes.now) }
    requires end { start + size < 2 ^ 64 }
    requires size { size < DURATION_END }
    requires ordered { IsOrdered buffered }
    requires bounded { (p : Point) → IsIn (points_of_rows ns buffered) p → IsBounded p × InRange start (start + size) p }
    ensures leaves { LeavesFiles (IsErrOf result errors.Disk) (D.state disk.old) (D.state disk.new) }
    ensures ordered { IfOk result IsOrdered }
    ensures volume { IfOk result (λ rows. 1 ≤ length rows → IsVolume (block_head ns start size) rows) }
    ensures some { IfOk result (λ rows. 1 ≤ length buffered → 1 ≤ length rows) }
    ensures covers { IfOk result (λ rows. (p : Point) → IsIn (points_of_rows ns buffered) p → Holds (content_of (points_of_rows ns rows)) p) }
    ensures content { (D.state disk.old).tells ≡ true → IfOk result (λ rows. (known : List KnownVolume) → AreOf volumes.now known (D.state disk.old).files
        → content_of (points_of_rows ns rows) ≡ joined (content_of (points_of_rows ns buffered)) (volume_points (filter (is_of ns start size) known))) }
    ensures large { (D.state disk.old).tells ≡ true → IsErrOf result errors.Large → (known : List KnownVolume) → AreOf volumes.now known (D.state disk.old).files
        → IsTooLarge ns (joined (content_of (points_of_rows ns buffered)) (volume_points (filter (is_of ns start size) known))) }
    ensures sound { (D.state disk.old).tells ≡ true → IfErr result IsOfNoDamage }
    ensures faults { CountsFaults (IsErrOf result errors.Disk) (D.state disk.old).faults (D.state disk.new).faults }
{
    let found = of_block(alloc, volumes, ns, start, size)?;
    let every = Pick::Match {
        ns,
        wanted: Seq::new(alloc),
    };
    let read = read(alloc, disk, &found, &every, start, start + size)?;
    let rows = merge(alloc, buffered, read)?;
    let head = Head {
        ns,
        start,
        size,
        number: 0,
    };
    if !may_stand(&head, rows.as_slice()) {
        return Err(BlockErr::Large);
    }
    Ok(rows)
}
