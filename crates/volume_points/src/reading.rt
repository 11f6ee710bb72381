ghost use Rattle.std.specs.Prelude.{◌≡◌, ◌+◌, true, false, List, IfOk, IfErr, IfSome, IsErrOf};
ghost use Rattle.m3_model.specs.Answers.{IsAnswer};
ghost use Rattle.m3_model.specs.Contents.{content_of};
ghost use Rattle.m3_model.specs.Reads.{IsOrdered, space_picked};
ghost use Rattle.m3_model.specs.declared.point.Series.{Series as Row};
ghost use Rattle.fileset_check.specs.m3_outside.Causes.{CountsFaults};
ghost use Rattle.fileset_check.specs.m3_outside.DiskState.{DiskState, Told};
ghost use Rattle.fileset_check.specs.m3_outside.DiskCalls.{LeavesFiles};
ghost use Rattle.fileset_check.specs.wire_bytes.Volumes.{Data, points_of_rows};
ghost use Rattle.fileset_check.specs.shard_files.Parts.{KnownVolume, VolumeHolds, part_of};
ghost use Rattle.fileset_check.specs.shard_files.FilesHold.{volume_points};
ghost use Rattle.fileset_check.specs.volume_bytes.Heads.{head_of};
ghost use Rattle.fileset_check.specs.fileset_read.Volumes.{IsThere, IsUndamaged};
ghost use Rattle.fileset_check.specs.fileset_read.declared.file_err.FileErr.TheVariants as failures;
ghost use Rattle.volume_rows.specs.Seekers.{IsSeekerOf};
ghost use Rattle.series_merge.specs.Merges.{IsMergeOf};
ghost use Rattle.volume_points.specs.Candidates.{AreCandidates, MayStand};
ghost use Rattle.volume_points.specs.Known.{AreOf, AreThere};
ghost use Rattle.volume_points.specs.Picked.{AreAscending, HasNoneIn, IsSelectionOf};

use crate::candidates::{candidates, may_stand};
use crate::matching::picked;
use crate::ranges::cut;
use fileset_check::of_fileset_read::FileErr;
use fileset_check::of_m3_outside::{Disk, FileName};
use fileset_check::of_volume_bytes::Head;
use m3_model::{Memory, Pick, Seq, Series};
use series_merge::merge;
use std::alloc::Global;
use volume_rows::Seeker;

// The namespace of a pick.
pub(crate) fn space_of(pick: &Pick) -> u8
    ensures { result ≡ space_picked pick.now }
{
    match pick {
        Pick::One { ns, .. } | Pick::Match { ns, .. } => *ns,
    }
}

// Whether a volume of this head may have a point of the namespace with `from <= t < to`.
pub(crate) fn meets(head: &Head, ns: u8, from: u64, to: u64) -> bool
    ensures outside { result ≡ false → HasNoneIn head.now ns from to }
    ensures space { result ≡ true → head.now.ns ≡ ns }
{
    head.ns == ns && from < to && head.start < to && from < head.start.saturating_add(head.size)
}

// Of the series those that the pick asks for, with their points in the range.
fn select(
    alloc: Global,
    found: Seq<Series>,
    pick: &Pick,
    from: u64,
    to: u64,
) -> Result<Seq<Series>, Memory>
    ensures ordered { AreAscending found → IfOk result IsOrdered }
    ensures selection { IfOk result (IsSelectionOf found pick.now from to) }
{
    cut(alloc, picked(found, pick), from, to)
}

// The name of the file that has the volume's rows.
pub(crate) fn data_of(head: &Head) -> FileName
    ensures { result ≡ part_of Data (head_of head.now) }
{
    FileName {
        kind: 4,
        ns: head.ns,
        block: head.start,
        number: head.number,
    }
}

// The points in the range that the pick asks for, of series as they were read from the volume.
fn select_checked(
    alloc: Global,
    head: &Head,
    found: Seq<Series>,
    pick: &Pick,
    from: u64,
    to: u64,
) -> Result<Seq<Series>, FileErr>
    ensures ordered { IfOk result IsOrdered }
    ensures selection { IfOk result (IsSelectionOf found pick.now from to) }
    ensures sound { MayStand (head_of head.now) found → IfErr result IsUndamaged }
    ensures no_fault { ¬ (IsErrOf result failures.Disk) }
{
    if !may_stand(head, found.as_slice()) {
        let file = data_of(head);
        return Err(FileErr::Form { file });
    }
    match select(alloc, found, pick, from, to) {
        Ok(series) => Ok(series),
        Err(_) => Err(FileErr::Memory),
    }
}

/// The points with `from <= t < to` that this volume has, which is there whole, of the series that the pick asks for: of the one
/// identifier, or of each identifier of the namespace for which every matcher holds. Identifiers ascend strictly by bytes, times
/// ascend strictly, and no series is empty.
///
/// Nothing is read of a volume of another namespace, or whose block has no time in the range. Of one identifier the record of its
/// series is read, if there is one, and before it a piece of the index of 16 entries at most, unless bloom filter and summaries
/// exclude it; these two are read first where no seeker is at hand. For matchers the data is read in one piece.
///
/// # Errors
///
/// A fault, by which the disk's count rose in this call. Want of memory. Damage only where the disk doesn't tell what it holds.
/// In any case the files, and what a stop leaves of them, are as they were.
pub fn read_volume<D: Disk>(
    alloc: Global,
    disk: &mut D,
    head: &Head,
    seeker: Option<&Seeker>,
    pick: &Pick,
    from: u64,
    to: u64,
) -> Result<Seq<Series>, FileErr>
    requires there { Told (D.state disk.old) (IsThere (head_of head.now)) }
    requires seeker { Told (D.state disk.old) (λ files. IfSome seeker (λ k. IsSeekerOf (head_of head.now) k.now files)) }
    ensures leaves { LeavesFiles (IsErrOf result failures.Disk) (D.state disk.old) (D.state disk.new) }
    ensures ordered { IfOk result IsOrdered }
    ensures answer { (D.state disk.old).tells ≡ true → IfOk result (λ series. (rows : List Row) → VolumeHolds (head_of head.now) rows (D.state disk.old).files → IsAnswer (content_of (points_of_rows head.now.ns rows)) pick.now from to series) }
    ensures sound { (D.state disk.old).tells ≡ true → IfErr result IsUndamaged }
    ensures faults { CountsFaults (IsErrOf result failures.Disk) (D.state disk.old).faults (D.state disk.new).faults }
{
    if !meets(head, space_of(pick), from, to) {
        return Ok(Seq::new(alloc));
    }
    let found = candidates(alloc, disk, head, seeker, pick)?;
    select_checked(alloc, head, found, pick, from, to)
}

// Both answers in one.
fn both(alloc: Global, one: Seq<Series>, other: Seq<Series>) -> Result<Seq<Series>, FileErr>
    requires one { IsOrdered one }
    requires other { IsOrdered other }
    ensures ok { IfOk result (IsMergeOf one other) }
    ensures err { IfErr result (λ e. e ≡ failures.Memory) }
{
    match merge(alloc, one, other) {
        Ok(series) => Ok(series),
        Err(_) => Err(FileErr::Memory),
    }
}

/// The points with `from <= t < to` that these volumes have, each of them there whole, of the series that the pick asks for: of the
/// one identifier, or of each identifier of the namespace for which every matcher holds; and of several at one time the highest.
/// Identifiers ascend strictly by bytes, times ascend strictly, and no series is empty.
///
/// Of each volume is read what `read_volume` reads where no seeker is at hand. Beside that it costs in proportion to the series that
/// are found times the logarithm of the number of volumes.
///
/// # Errors
///
/// A fault, by which the disk's count rose in this call. Want of memory. Damage only where the disk doesn't tell what it holds.
/// In any case the files, and what a stop leaves of them, are as they were.
pub fn read<D: Disk>(
    alloc: Global,
    disk: &mut D,
    volumes: &[Head],
    pick: &Pick,
    from: u64,
    to: u64,
) -> Result<Seq<Series>, FileErr>
    requires { Told (D.state disk.old) (AreThere volumes.now) }
    ensures leaves { LeavesFiles (IsErrOf result failures.Disk) (D.state disk.old) (D.state disk.new) }
    ensures ordered { IfOk result IsOrdered }
    ensures answer { (D.state disk.old).tells ≡ true → IfOk result (λ series. (known : List KnownVolume) → AreOf volumes.now known (D.state disk.old).files → IsAnswer (content_of (volume_points known)) pick.now from to series) }
    ensures sound { (D.state disk.old).tells ≡ true → IfErr result IsUndamaged }
    ensures faults { CountsFaults (IsErrOf result failures.Disk) (D.state disk.old).faults (D.state disk.new).faults }
{
    match volumes {
        [] => Ok(Seq::new(alloc)),
        [head] => read_volume(alloc, disk, head, None, pick, from, to),
        _ => {
            let (one, other) = volumes.split_at(volumes.len() / 2);
            let early = read(alloc, disk, one, pick, from, to)?;
            let late = read(alloc, disk, other, pick, from, to)?;
            both(alloc, early, late)
        }
    }
}
