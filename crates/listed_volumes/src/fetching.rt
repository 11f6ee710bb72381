ghost use Rattle.std.specs.Prelude.{◌≡◌, [], ◌∷◌, true, IfOk, IfErr, IsErrOf};
ghost use Rattle.m3_model.specs.Answers.{IsAnswer};
ghost use Rattle.m3_model.specs.Contents.{content_of};
ghost use Rattle.m3_model.specs.Reads.{IsOrdered, space_picked};
ghost use Rattle.volume_points.specs.m3_outside.Causes.{CountsFaults};
ghost use Rattle.volume_points.specs.m3_outside.DiskState.{DiskState, Told};
ghost use Rattle.volume_points.specs.m3_outside.DiskCalls.{LeavesFiles};
ghost use Rattle.volume_points.specs.wire_bytes.Volumes.{points_of_rows};
ghost use Rattle.volume_points.specs.shard_files.Parts.{VolumeHolds};
ghost use Rattle.volume_points.specs.shard_files.FilesHold.{volume_points};
ghost use Rattle.volume_points.specs.volume_bytes.Heads.{head_of};
ghost use Rattle.volume_points.specs.fileset_read.Volumes.{IsUndamaged};
ghost use Rattle.volume_points.specs.fileset_read.declared.file_err.FileErr.TheVariants as failures;
ghost use Rattle.volume_points.specs.series_merge.Merges.{IsMergeOf};
ghost use Rattle.listed_volumes.specs.Listed.{AreHeld, known_as, known_in};
ghost use Rattle.listed_volumes.specs.Cached.{AreRight, IsMatch, StayOfVolumes, StayRight};

use crate::row_cache::RowCache;
use crate::volume::ListedVolume;
use m3_model::{Pick, Seq, Series};
use std::alloc::Global;
use volume_points::of_fileset_read::FileErr;
use volume_points::of_m3_outside::Disk;
use volume_points::of_series_merge::merge;
use volume_points::{checked_rows, may_meet, read_volume, select_from};

// What one volume, which may have some of them, has of the points that a match asks for. Its rows are read, and kept.
fn read_matched<D: Disk>(
    alloc: Global,
    disk: &mut D,
    volume: &ListedVolume,
    kept: &mut RowCache,
    pick: &Pick,
    from: u64,
    to: u64,
) -> Result<Seq<Series>, FileErr>
    requires there { Told (D.state disk.old) (VolumeHolds (head_of volume.now.head) volume.now.rows.value) }
    requires matched { IsMatch pick.now }
    requires space { volume.now.head.ns ≡ space_picked pick.now }
    ensures leaves { LeavesFiles (IsErrOf result failures.Disk) (D.state disk.old) (D.state disk.new) }
    ensures ordered { IfOk result IsOrdered }
    ensures answer { (D.state disk.old).tells ≡ true → IfOk result (IsAnswer (content_of (points_of_rows volume.now.head.ns volume.now.rows.value)) pick.now from to) }
    ensures sound { (D.state disk.old).tells ≡ true → IfErr result IsUndamaged }
    ensures kept { StayOfVolumes (known_as volume.now ∷ []) kept.old kept.new }
    ensures right { (D.state disk.old).tells ≡ true → StayRight (D.state disk.old).files kept.old kept.new }
{
    let rows = checked_rows(alloc, disk, &volume.head)?;
    let Ok(series) = select_from(alloc, rows.as_slice(), pick, from, to) else {
        return Err(FileErr::Memory);
    };
    kept.keep(alloc, &volume.head, rows);
    Ok(series)
}

// What one volume has of the points that a match asks for.
fn fetch_matched<D: Disk>(
    alloc: Global,
    disk: &mut D,
    volume: &ListedVolume,
    kept: &mut RowCache,
    pick: &Pick,
    from: u64,
    to: u64,
) -> Result<Seq<Series>, FileErr>
    requires there { Told (D.state disk.old) (VolumeHolds (head_of volume.now.head) volume.now.rows.value) }
    requires right { (D.state disk.old).tells ≡ true → AreRight (known_as volume.now ∷ []) kept.old }
    requires matched { IsMatch pick.now }
    ensures leaves { LeavesFiles (IsErrOf result failures.Disk) (D.state disk.old) (D.state disk.new) }
    ensures ordered { IfOk result IsOrdered }
    ensures answer { (D.state disk.old).tells ≡ true → IfOk result (IsAnswer (content_of (points_of_rows volume.now.head.ns volume.now.rows.value)) pick.now from to) }
    ensures sound { (D.state disk.old).tells ≡ true → IfErr result IsUndamaged }
    ensures kept { StayOfVolumes (known_as volume.now ∷ []) kept.old kept.new }
    ensures right { (D.state disk.old).tells ≡ true → StayRight (D.state disk.old).files kept.old kept.new }
{
    if !may_meet(&volume.head, pick, from, to) {
        return Ok(Seq::new(alloc));
    }
    match kept.find(alloc, &volume.head, pick, from, to) {
        Ok(Some(series)) => Ok(series),
        Ok(None) => read_matched(alloc, disk, volume, kept, pick, from, to),
        Err(_) => Err(FileErr::Memory),
    }
}

// What one volume has of the points that a read asks for.
fn fetch_one<D: Disk>(
    alloc: Global,
    disk: &mut D,
    volume: &ListedVolume,
    kept: &mut RowCache,
    pick: &Pick,
    from: u64,
    to: u64,
) -> Result<Seq<Series>, FileErr>
    requires there { Told (D.state disk.old) (VolumeHolds (head_of volume.now.head) volume.now.rows.value) }
    requires right { (D.state disk.old).tells ≡ true → AreRight (known_as volume.now ∷ []) kept.old }
    ensures leaves { LeavesFiles (IsErrOf result failures.Disk) (D.state disk.old) (D.state disk.new) }
    ensures ordered { IfOk result IsOrdered }
    ensures answer { (D.state disk.old).tells ≡ true → IfOk result (IsAnswer (content_of (points_of_rows volume.now.head.ns volume.now.rows.value)) pick.now from to) }
    ensures sound { (D.state disk.old).tells ≡ true → IfErr result IsUndamaged }
    ensures kept { StayOfVolumes (known_as volume.now ∷ []) kept.old kept.new }
    ensures right { (D.state disk.old).tells ≡ true → StayRight (D.state disk.old).files kept.old kept.new }
{
    match pick {
        Pick::Match { .. } => fetch_matched(alloc, disk, volume, kept, pick, from, to),
        Pick::One { .. } => read_volume(
            alloc,
            disk,
            &volume.head,
            volume.seeker.as_ref(),
            pick,
            from,
            to,
        ),
    }
}

// Both answers in one.
fn both(alloc: Global, one: Seq<Series>, other: Seq<Series>) -> Result<Seq<Series>, FileErr>
    requires one { IsOrdered one }
    requires other { IsOrdered other }
    ensures ok { IfOk result (IsMergeOf one other) }
    ensures err { IfErr result (λ e. e ≡ failures.Memory) }
{
    match merge(alloc, one, other) {
        Ok(series) => Ok(series),
        Err(_) => Err(FileErr::Memory),
    }
}

/// The points with `from <= t < to` that these volumes have, each of them there whole, of the series that the pick asks for: of the
/// one identifier, or of each identifier of the namespace for which every matcher holds; and of several at one time the highest.
/// Identifiers ascend strictly by bytes, times ascend strictly, and no series is empty.
///
/// Nothing is read of a volume of another namespace, or whose block has no time in the range. Of one identifier each other volume's
/// record of it is read, if there is one, and before it a piece of its index of 16 entries at most, unless bloom filter and summaries
/// exclude it; these two are at hand for each volume that is ready, and read first for another. For matchers each such volume's
/// data is read in one piece, but where its rows are kept, of which nothing is read; they are kept then, if there is memory for
/// them. Beside that it costs in proportion to the series that are found times the logarithm of the number of volumes.
///
/// # Errors
///
/// A fault, by which the disk's count rose in this call. Want of memory. Damage only where the disk doesn't tell what it holds.
/// In any case the files, and what a stop leaves of them, are as they were, and what is kept of each volume are its rows.
pub fn fetch<D: Disk>(
    alloc: Global,
    disk: &mut D,
    volumes: &[ListedVolume],
    kept: &mut RowCache,
    pick: &Pick,
    from: u64,
    to: u64,
) -> Result<Seq<Series>, FileErr>
    requires there { Told (D.state disk.old) (AreHeld (known_in volumes.now)) }
    requires right { (D.state disk.old).tells ≡ true → AreRight (known_in volumes.now) kept.old }
    ensures leaves { LeavesFiles (IsErrOf result failures.Disk) (D.state disk.old) (D.state disk.new) }
    ensures ordered { IfOk result IsOrdered }
    ensures answer { (D.state disk.old).tells ≡ true → IfOk result (IsAnswer (content_of (volume_points (known_in volumes.now))) pick.now from to) }
    ensures sound { (D.state disk.old).tells ≡ true → IfErr result IsUndamaged }
    ensures faults { CountsFaults (IsErrOf result failures.Disk) (D.state disk.old).faults (D.state disk.new).faults }
    ensures kept { StayOfVolumes (known_in volumes.now) kept.old kept.new }
    ensures right { (D.state disk.old).tells ≡ true → StayRight (D.state disk.old).files kept.old kept.new }
{
    match volumes {
        [] => Ok(Seq::new(alloc)),
        [volume] => fetch_one(alloc, disk, volume, kept, pick, from, to),
        _ => {
            let (one, other) = volumes.split_at(volumes.len() / 2);
            let early = fetch(alloc, disk, one, kept, pick, from, to)?;
            let late = fetch(alloc, disk, other, kept, pick, from, to)?;
            both(alloc, early, late)
        }
    }
}
