//! All rows of a volume, and points copied from them.
ghost use Rattle.std.specs.Prelude.{◌≡◌, true, false, [], filter, List, IfOk, IfErr, IsErrOf};
ghost use Rattle.m3_model.specs.Answers.{IsAnswer};
ghost use Rattle.m3_model.specs.Contents.{content_of};
ghost use Rattle.m3_model.specs.Reads.{IsOrdered, space_picked};
ghost use Rattle.m3_model.specs.declared.point.Series.{Series as Row};
ghost use Rattle.fileset_check.specs.m3_outside.Causes.{CountsFaults};
ghost use Rattle.fileset_check.specs.m3_outside.DiskState.{DiskState, Told};
ghost use Rattle.fileset_check.specs.m3_outside.DiskCalls.{LeavesFiles};
ghost use Rattle.fileset_check.specs.wire_bytes.Volumes.{IsVolume, points_of_rows};
ghost use Rattle.fileset_check.specs.shard_files.Parts.{VolumeHolds};
ghost use Rattle.fileset_check.specs.volume_bytes.Heads.{head_of};
ghost use Rattle.fileset_check.specs.fileset_read.Volumes.{IsThere, IsUndamaged};
ghost use Rattle.fileset_check.specs.fileset_read.declared.file_err.FileErr.TheVariants as failures;
ghost use Rattle.volume_points.specs.Picked.{AreAscending, IsSelectionOf, cut_series, is_between};

use crate::candidates::may_stand;
use crate::matching::is_picked;
use crate::ranges::{add, is_inside};
use crate::reading::{data_of, meets, space_of};
use fileset_check::of_fileset_read::{FileErr, rows};
use fileset_check::of_m3_outside::Disk;
use fileset_check::of_volume_bytes::Head;
use m3_model::{Duplicate, Memory, Pick, Seq, Series};
use std::alloc::Global;

/// Whether a volume of this head may have a point with `from <= t < to` that the pick asks for, as far as its namespace and its
/// block tell. Takes no memory.
pub fn may_meet(head: &Head, pick: &Pick, from: u64, to: u64) -> bool
    ensures outside { result ≡ false → (rows : List Row) → IsVolume (head_of head.now) rows → IsAnswer (content_of (points_of_rows head.now.ns rows)) pick.now from to [] }
    ensures space { result ≡ true → head.now.ns ≡ space_picked pick.now }
{
    meets(head, space_of(pick), from, to)
}

/// All rows of this volume, which is there whole. Its data is read in one piece. The rows ascend strictly by identifier, and
/// the points of each by time.
///
/// # Errors
///
/// A fault, by which the disk's count rose in this call. Want of memory. Damage only where the disk doesn't tell what it holds.
/// In any case the files, and what a stop leaves of them, are as they were.
pub fn checked_rows<D: Disk>(
    alloc: Global,
    disk: &mut D,
    head: &Head,
) -> Result<Seq<Series>, FileErr>
    requires { Told (D.state disk.old) (IsThere (head_of head.now)) }
    ensures leaves { LeavesFiles (IsErrOf result failures.Disk) (D.state disk.old) (D.state disk.new) }
    ensures ascending { IfOk result AreAscending }
    ensures ok { (D.state disk.old).tells ≡ true → IfOk result (λ found. VolumeHolds (head_of head.now) found (D.state disk.old).files) }
    ensures sound { (D.state disk.old).tells ≡ true → IfErr result IsUndamaged }
    ensures faults { CountsFaults (IsErrOf result failures.Disk) (D.state disk.old).faults (D.state disk.new).faults }
{
    let found = rows(alloc, disk, head)?;
    if !may_stand(head, found.as_slice()) {
        let file = data_of(head);
        return Err(FileErr::Form { file });
    }
    Ok(found)
}

// The pairs with `from <= t < to`, copied.
fn copy_pairs(
    alloc: Global,
    points: &[(u64, i64)],
    from: u64,
    to: u64,
) -> Result<Vec<(u64, i64)>, Memory>
    ensures { IfOk result (λ pairs. pairs.items ≡ filter (is_between from to) points.now) }
{
    let mut pairs = Vec::new(alloc);
    for pair in points {
        if is_inside(pair, from, to) {
            pairs.push(*pair)?;
        }
    }
    Ok(pairs)
}

// The series with its pairs in the range, copied, if it has any there.
fn copy_cut(alloc: Global, series: &Series, from: u64, to: u64) -> Result<Option<Series>, Memory>
    ensures { IfOk result (λ part. part ≡ cut_series from to series.now) }
{
    let pairs = copy_pairs(alloc, series.points.as_slice(), from, to)?;
    if pairs.is_empty() {
        return Ok(None);
    }
    let id = series.id.copy(alloc)?;
    Ok(Some(Series {
        id,
        points: Seq::from_vec(pairs),
    }))
}

/// The points with `from <= t < to` of those of the series that the pick asks for, copied. Where identifiers and times of the
/// series ascend strictly, those of the answer do, and no series of it is empty. Costs in proportion to the number of the series
/// and to the points of those that the pick asks for.
///
/// # Errors
///
/// Want of memory.
pub fn select_from(
    alloc: Global,
    rows: &[Series],
    pick: &Pick,
    from: u64,
    to: u64,
) -> Result<Seq<Series>, Memory>
    ensures ordered { AreAscending rows.now → IfOk result IsOrdered }
    ensures selection { IfOk result (IsSelectionOf rows.now pick.now from to) }
{
    let mut kept = Vec::new(alloc);
    for series in rows {
        if is_picked(series.id.as_str(), pick) {
            let part = copy_cut(alloc, series, from, to)?;
            add(&mut kept, part)?;
        }
    }
    Ok(Seq::from_vec(kept))
}
