//! The first points above a key that volumes have.
ghost use Rattle.std.specs.Prelude.{◌≡◌, ◌↔◌, ◌+◌, ◌≤◌, [], ◌∷◌, length, true, Option, IfOk, IfErr, IsErrOf, IsTrue};
ghost use Rattle.std.specs.Option.{option_copied};
ghost use Rattle.m3_model.specs.Contents.{Contents, content_of};
ghost use Rattle.m3_model.specs.declared.point.Key.{Key as Last};
ghost use Rattle.volume_points.specs.m3_outside.Causes.{CountsFaults};
ghost use Rattle.volume_points.specs.m3_outside.DiskState.{DiskState, Told};
ghost use Rattle.volume_points.specs.m3_outside.DiskCalls.{LeavesFiles};
ghost use Rattle.volume_points.specs.wire_bytes.Volumes.{points_of_rows};
ghost use Rattle.volume_points.specs.shard_files.Parts.{VolumeHolds};
ghost use Rattle.volume_points.specs.shard_files.FilesHold.{volume_points};
ghost use Rattle.volume_points.specs.volume_bytes.Heads.{head_of};
ghost use Rattle.volume_points.specs.volume_rows.Seekers.{IsSeekerOf};
ghost use Rattle.volume_points.specs.fileset_read.Volumes.{IsUndamaged};
ghost use Rattle.volume_points.specs.fileset_read.declared.file_err.FileErr.TheVariants as failures;
ghost use Rattle.first_points.specs.Bounds.{points_up_to};
ghost use Rattle.first_points.specs.Firsts.{AreFirst};
ghost use Rattle.first_points.specs.Merges.{IsJoinOf};
ghost use Rattle.listed_volumes.specs.Listed.{AreHeld, known_as, known_in};
ghost use Rattle.listed_volumes.specs.Cached.{AreRight, StayOfVolumes, StayRight};
ghost use Rattle.listed_volumes.specs.FirstListed.{IsApart, IsLastNeeded, IsTimeApart};
ghost use Rattle.listed_volumes.specs.Between.{first_id, last_id};

use crate::row_cache::RowCache;
use crate::volume::ListedVolume;
use first_points::{first_of_both, first_of_rows};
use m3_model::{Key, Point, Seq};
use std::alloc::Global;
use volume_points::of_fileset_read::FileErr;
use volume_points::of_m3_outside::Disk;
use volume_points::of_volume_bytes::Head;
use volume_points::of_volume_rows::Seeker;
use volume_points::{checked_range, checked_rows};

// The first points above the key, up to the last one, of one volume, whose rows are read, and kept.
fn first_read<D: Disk>(
    alloc: Global,
    disk: &mut D,
    volume: &ListedVolume,
    kept: &mut RowCache,
    after: Option<&Key>,
    last: Option<&Point>,
    limit: usize,
) -> Result<Seq<Point>, FileErr>
    requires there { Told (D.state disk.old) (VolumeHolds (head_of volume.now.head) volume.now.rows.value) }
    ensures leaves { LeavesFiles (IsErrOf result failures.Disk) (D.state disk.old) (D.state disk.new) }
    ensures first { (D.state disk.old).tells ≡ true → IfOk result (AreFirst (content_of (points_up_to (option_copied last.entry) (points_of_rows volume.now.head.ns volume.now.rows.value))) (option_copied after.entry) limit) }
    ensures sound { (D.state disk.old).tells ≡ true → IfErr result IsUndamaged }
    ensures kept { StayOfVolumes (known_as volume.now ∷ []) kept.old kept.new }
    ensures right { (D.state disk.old).tells ≡ true → StayRight (D.state disk.old).files kept.old kept.new }
{
    let rows = checked_rows(alloc, disk, &volume.head)?;
    let Ok(points) = first_of_rows(alloc, volume.head.ns, rows.as_slice(), after, last, limit)
    else {
        return Err(FileErr::Memory);
    };
    kept.keep(alloc, &volume.head, rows);
    Ok(points)
}

// The identifier from which on a volume of the namespace may have points above the key.
fn first_id<'a>(ns: u8, after: Option<&'a Key>) -> &'a str
    ensures { result.now ≡ first_id ns (option_copied after.entry) }
{
    match after {
        Some(key) if key.ns == ns => key.id.as_str(),
        _ => "",
    }
}

// The last identifier of which it may have points up to the last one, where there is such.
fn last_id<'a>(ns: u8, last: Option<&'a Point>) -> Option<&'a str>
    ensures { option_copied result ≡ last_id ns (option_copied last.entry) }
{
    match last {
        Some(point) if point.ns == ns => Some(point.id.as_str()),
        _ => None,
    }
}

// The first points above the key, up to the last one, of one volume, of which those rows are read that may have them.
fn first_in_range<D: Disk>(
    alloc: Global,
    disk: &mut D,
    volume: &ListedVolume,
    seeker: &Seeker,
    after: Option<&Key>,
    last: Option<&Point>,
    limit: usize,
) -> Result<Seq<Point>, FileErr>
    requires there { Told (D.state disk.old) (VolumeHolds (head_of volume.now.head) volume.now.rows.value) }
    requires seeker { Told (D.state disk.old) (IsSeekerOf (head_of volume.now.head) seeker.now) }
    ensures leaves { LeavesFiles (IsErrOf result failures.Disk) (D.state disk.old) (D.state disk.new) }
    ensures first { (D.state disk.old).tells ≡ true → IfOk result (AreFirst (content_of (points_up_to (option_copied last.entry) (points_of_rows volume.now.head.ns volume.now.rows.value))) (option_copied after.entry) limit) }
    ensures sound { (D.state disk.old).tells ≡ true → IfErr result IsUndamaged }
{
    let head = &volume.head;
    let from = first_id(head.ns, after);
    let to = last_id(head.ns, last);
    let found = checked_range(alloc, disk, head, seeker, from, to, limit as u64)?;
    match first_of_rows(alloc, head.ns, found.rows.as_slice(), after, last, limit) {
        Ok(points) => Ok(points),
        Err(_) => Err(FileErr::Memory),
    }
}

// The first points above the key, up to the last one, of one volume whose rows aren't kept: they are read and kept, but where as many
// others are kept as may be.
fn first_unkept<D: Disk>(
    alloc: Global,
    disk: &mut D,
    volume: &ListedVolume,
    kept: &mut RowCache,
    after: Option<&Key>,
    last: Option<&Point>,
    limit: usize,
) -> Result<Seq<Point>, FileErr>
    requires there { Told (D.state disk.old) (VolumeHolds (head_of volume.now.head) volume.now.rows.value) }
    ensures leaves { LeavesFiles (IsErrOf result failures.Disk) (D.state disk.old) (D.state disk.new) }
    ensures first { (D.state disk.old).tells ≡ true → IfOk result (AreFirst (content_of (points_up_to (option_copied last.entry) (points_of_rows volume.now.head.ns volume.now.rows.value))) (option_copied after.entry) limit) }
    ensures sound { (D.state disk.old).tells ≡ true → IfErr result IsUndamaged }
    ensures kept { StayOfVolumes (known_as volume.now ∷ []) kept.old kept.new }
    ensures right { (D.state disk.old).tells ≡ true → StayRight (D.state disk.old).files kept.old kept.new }
{
    match &volume.seeker {
        Some(seeker) if kept.is_full() => {
            first_in_range(alloc, disk, volume, seeker, after, last, limit)
        }
        _ => first_read(alloc, disk, volume, kept, after, last, limit),
    }
}

// Whether the block of the volume ends at this time or earlier.
fn ends_by(head: &Head, t: u64) -> bool
    ensures { IsTrue result ↔ (head.now.start + head.now.size ≤ t) }
{
    head.start <= t && head.size <= t - head.start
}

// The first points above the key, up to the last one, of one volume.
fn first_of_one<D: Disk>(
    alloc: Global,
    disk: &mut D,
    volume: &ListedVolume,
    kept: &mut RowCache,
    after: Option<&Key>,
    last: Option<&Point>,
    limit: usize,
) -> Result<Seq<Point>, FileErr>
    requires there { Told (D.state disk.old) (VolumeHolds (head_of volume.now.head) volume.now.rows.value) }
    requires right { (D.state disk.old).tells ≡ true → AreRight (known_as volume.now ∷ []) kept.old }
    ensures leaves { LeavesFiles (IsErrOf result failures.Disk) (D.state disk.old) (D.state disk.new) }
    ensures first { (D.state disk.old).tells ≡ true → IfOk result (AreFirst (content_of (points_up_to (option_copied last.entry) (points_of_rows volume.now.head.ns volume.now.rows.value))) (option_copied after.entry) limit) }
    ensures sound { (D.state disk.old).tells ≡ true → IfErr result IsUndamaged }
    ensures kept { StayOfVolumes (known_as volume.now ∷ []) kept.old kept.new }
    ensures right { (D.state disk.old).tells ≡ true → StayRight (D.state disk.old).files kept.old kept.new }
{
    if is_apart(&volume.head, after, last) {
        return Ok(Seq::new(alloc));
    }
    match kept.first(alloc, &volume.head, after, last, limit) {
        Ok(Some(points)) => Ok(points),
        Ok(None) => first_unkept(alloc, disk, volume, kept, after, last, limit),
        Err(_) => Err(FileErr::Memory),
    }
}

// Whether key and last point are of one identifier of the volume's namespace, and its block ends before the time of the one or begins
// behind that of the other.
fn is_apart_in_time(head: &Head, key: &Key, point: &Point) -> bool
    ensures { result ≡ true → IsTimeApart (head_of head.now) key.now point.now }
{
    key.ns == head.ns
        && point.ns == head.ns
        && key.id.equals(point.id.as_str())
        && (ends_by(head, key.t) || point.t < head.start)
}

// Whether no point of the volume is above the key and, where there is one, up to the last point, as far as its head tells.
fn is_apart(head: &Head, after: Option<&Key>, last: Option<&Point>) -> bool
    ensures { result ≡ true → IsApart (head_of head.now) (option_copied after.entry) (option_copied last.entry) }
{
    match (after, last) {
        (Some(key), _) if head.ns < key.ns => true,
        (_, Some(point)) if point.ns < head.ns => true,
        (Some(key), Some(point)) => is_apart_in_time(head, key, point),
        _ => false,
    }
}

// Of the first points of two contents those of their join.
fn both(
    alloc: Global,
    one: Seq<Point>,
    other: Seq<Point>,
    limit: usize,
) -> Result<Seq<Point>, FileErr>
    ensures ok { IfOk result (λ points. (c d join : Contents) (after : Option Last) → IsJoinOf c d join → AreFirst c after limit one → AreFirst d after limit other → AreFirst join after limit points) }
    ensures err { IfErr result (λ e. e ≡ failures.Memory) }
{
    match first_of_both(alloc, one, other, limit) {
        Ok(points) => Ok(points),
        Err(_) => Err(FileErr::Memory),
    }
}

// The point above which no further one is needed: the last of these, where they are as many as are asked for; else the one given.
fn last_needed<'a>(points: &'a [Point], last: Option<&'a Point>, limit: usize) -> Option<&'a Point>
    ensures { IsLastNeeded points.now limit (option_copied last.entry) (option_copied result) }
{
    match points.last() {
        Some(point) if limit <= points.len() => Some(point),
        _ => last,
    }
}

// The first points above the key, up to the last one, that these volumes have. Where a half has as many as are asked for, nothing above
// the last of these is taken from the other half.
fn first_up_to<D: Disk>(
    alloc: Global,
    disk: &mut D,
    volumes: &[ListedVolume],
    kept: &mut RowCache,
    after: Option<&Key>,
    last: Option<&Point>,
    limit: usize,
) -> Result<Seq<Point>, FileErr>
    requires there { Told (D.state disk.old) (AreHeld (known_in volumes.now)) }
    requires right { (D.state disk.old).tells ≡ true → AreRight (known_in volumes.now) kept.old }
    ensures leaves { LeavesFiles (IsErrOf result failures.Disk) (D.state disk.old) (D.state disk.new) }
    ensures first { (D.state disk.old).tells ≡ true → IfOk result (AreFirst (content_of (points_up_to (option_copied last.entry) (volume_points (known_in volumes.now)))) (option_copied after.entry) limit) }
    ensures sound { (D.state disk.old).tells ≡ true → IfErr result IsUndamaged }
    ensures faults { CountsFaults (IsErrOf result failures.Disk) (D.state disk.old).faults (D.state disk.new).faults }
    ensures kept { StayOfVolumes (known_in volumes.now) kept.old kept.new }
    ensures right { (D.state disk.old).tells ≡ true → StayRight (D.state disk.old).files kept.old kept.new }
{
    match volumes {
        [] => Ok(Seq::new(alloc)),
        [volume] => first_of_one(alloc, disk, volume, kept, after, last, limit),
        _ => {
            let (one, other) = volumes.split_at(volumes.len() / 2);
            let early = first_up_to(alloc, disk, one, kept, after, last, limit)?;
            let needed = last_needed(early.as_slice(), last, limit);
            let late = first_up_to(alloc, disk, other, kept, after, needed, limit)?;
            both(alloc, early, late, limit)
        }
    }
}

// Whether the volume is of a namespace before the key's, or of the key's and its block ends by the key's time.
fn is_earlier(head: &Head, key: &Key) -> bool {
    head.ns < key.ns || (head.ns == key.ns && ends_by(head, key.t))
}

// How many of these volumes, which stand by namespace and block, come before the first one that may have points of the key's identifier
// above it.
fn count_earlier(volumes: &[ListedVolume], after: Option<&Key>) -> usize
    ensures { result ≤ length volumes.now }
{
    match after {
        Some(key) => volumes.partition_point(|volume| is_earlier(&volume.head, key)),
        None => 0,
    }
}

/// The first points above the key that these volumes have, each of them there whole: so many, or all; without a key the first of
/// all. Of several at one key the highest.
///
/// Nothing is read of a volume whose rows are kept, nor of one whose head tells that it has nothing above the key and up to the last point
/// that is needed of it: one of another namespace or, where both are of one series, one whose block ends by the key's time or begins
/// behind the point's. Of each other volume all rows are read, in one piece, and kept, if there is memory for them; but where as many
/// others are kept as may be, only those from the key's series to the last point's, or of these as many as have the points that are asked
/// for, by a piece of its index and one of its data. Beside that each volume costs the logarithm of its points, and those of its first
/// ones are copied that aren't above as many of the volumes before it: the more volumes, the fewer of each.
///
/// # Errors
///
/// A fault, by which the disk's count rose in this call. Want of memory. Damage only where the disk doesn't tell what it holds.
/// In any case the files, and what a stop leaves of them, are as they were, and what is kept of each volume are its rows.
pub fn first_listed<D: Disk>(
    alloc: Global,
    disk: &mut D,
    volumes: &[ListedVolume],
    kept: &mut RowCache,
    after: Option<&Key>,
    limit: usize,
) -> Result<Seq<Point>, FileErr>
    requires there { Told (D.state disk.old) (AreHeld (known_in volumes.now)) }
    requires right { (D.state disk.old).tells ≡ true → AreRight (known_in volumes.now) kept.old }
    ensures leaves { LeavesFiles (IsErrOf result failures.Disk) (D.state disk.old) (D.state disk.new) }
    ensures first { (D.state disk.old).tells ≡ true → IfOk result (AreFirst (content_of (volume_points (known_in volumes.now))) (option_copied after.entry) limit) }
    ensures sound { (D.state disk.old).tells ≡ true → IfErr result IsUndamaged }
    ensures faults { CountsFaults (IsErrOf result failures.Disk) (D.state disk.old).faults (D.state disk.new).faults }
    ensures kept { StayOfVolumes (known_in volumes.now) kept.old kept.new }
    ensures right { (D.state disk.old).tells ≡ true → StayRight (D.state disk.old).files kept.old kept.new }
{
    let (earlier, later) = volumes.split_at(count_earlier(volumes, after));
    let first = first_up_to(alloc, disk, later, kept, after, None, limit)?;
    let needed = last_needed(first.as_slice(), None, limit);
    let second = first_up_to(alloc, disk, earlier, kept, after, needed, limit)?;
    both(alloc, first, second, limit)
}
