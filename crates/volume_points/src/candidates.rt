ghost use Rattle.std.specs.Prelude.{◌≡◌, ◌≤◌, ◌↔◌, true, List, length, IfOk, IfErr, IfSome, IsErrOf, IsTrue};
ghost use Rattle.m3_model.specs.declared.point.Series.{Series as Row};
ghost use Rattle.fileset_check.specs.m3_outside.DiskState.{DiskState, Told};
ghost use Rattle.fileset_check.specs.m3_outside.DiskCalls.{LeavesFiles};
ghost use Rattle.fileset_check.specs.shard_files.Parts.{VolumeHolds};
ghost use Rattle.fileset_check.specs.volume_bytes.Heads.{head_of};
ghost use Rattle.fileset_check.specs.fileset_read.Rows.{IsSeriesOf};
ghost use Rattle.fileset_check.specs.fileset_read.Volumes.{IsThere, IsUndamaged};
ghost use Rattle.fileset_check.specs.fileset_read.declared.file_err.FileErr.TheVariants as failures;
ghost use Rattle.volume_rows.specs.Seekers.{IsSeekerOf};
ghost use Rattle.volume_points.specs.Candidates.{AreCandidates, IsOneOf, MayStand, one_or_none};

use fileset_check::is_volume;
use fileset_check::of_fileset_read::{FileErr, rows};
use fileset_check::of_m3_outside::Disk;
use fileset_check::of_volume_bytes::Head;
use m3_model::{Memory, Pick, Seq, Series};
use std::alloc::Global;
use volume_rows::{Seeker, row_of, seeker_of};

// The series as a list.
fn one_or_none(alloc: Global, found: Option<Series>) -> Result<Seq<Series>, Memory>
    ensures { IfOk result (λ series. series ≡ one_or_none found) }
{
    let mut series = Vec::new(alloc);
    if let Some(found) = found {
        series.push(found)?;
    }
    Ok(Seq::from_vec(series))
}

// The series of one identifier, where nothing is kept of the volume.
fn look_up<D: Disk>(
    alloc: Global,
    disk: &mut D,
    head: &Head,
    id: &str,
) -> Result<Option<Series>, FileErr>
    requires { Told (D.state disk.old) (IsThere (head_of head.now)) }
    ensures leaves { LeavesFiles (IsErrOf result failures.Disk) (D.state disk.old) (D.state disk.new) }
    ensures ok { (D.state disk.old).tells ≡ true → IfOk result (λ found. (rows : List Row) → VolumeHolds (head_of head.now) rows (D.state disk.old).files → IsSeriesOf id.now rows found) }
    ensures sound { (D.state disk.old).tells ≡ true → IfErr result IsUndamaged }
{
    let seeker = seeker_of(alloc, disk, head)?;
    row_of(alloc, disk, head, &seeker, id)
}

// The series of one identifier.
fn look_up_kept<D: Disk>(
    alloc: Global,
    disk: &mut D,
    head: &Head,
    seeker: Option<&Seeker>,
    id: &str,
) -> Result<Option<Series>, FileErr>
    requires there { Told (D.state disk.old) (IsThere (head_of head.now)) }
    requires seeker { Told (D.state disk.old) (λ files. IfSome seeker (λ k. IsSeekerOf (head_of head.now) k.now files)) }
    ensures leaves { LeavesFiles (IsErrOf result failures.Disk) (D.state disk.old) (D.state disk.new) }
    ensures ok { (D.state disk.old).tells ≡ true → IfOk result (λ found. (rows : List Row) → VolumeHolds (head_of head.now) rows (D.state disk.old).files → IsSeriesOf id.now rows found) }
    ensures sound { (D.state disk.old).tells ≡ true → IfErr result IsUndamaged }
{
    match seeker {
        Some(seeker) => row_of(alloc, disk, head, seeker, id),
        None => look_up(alloc, disk, head, id),
    }
}

// The same as a list.
fn one_of<D: Disk>(
    alloc: Global,
    disk: &mut D,
    head: &Head,
    seeker: Option<&Seeker>,
    id: &str,
) -> Result<Seq<Series>, FileErr>
    requires there { Told (D.state disk.old) (IsThere (head_of head.now)) }
    requires seeker { Told (D.state disk.old) (λ files. IfSome seeker (λ k. IsSeekerOf (head_of head.now) k.now files)) }
    ensures leaves { LeavesFiles (IsErrOf result failures.Disk) (D.state disk.old) (D.state disk.new) }
    ensures ok { (D.state disk.old).tells ≡ true → IfOk result (λ found. (rows : List Row) → VolumeHolds (head_of head.now) rows (D.state disk.old).files → IsOneOf id.now rows found) }
    ensures sound { (D.state disk.old).tells ≡ true → IfErr result IsUndamaged }
{
    let found = look_up_kept(alloc, disk, head, seeker, id)?;
    match one_or_none(alloc, found) {
        Ok(series) => Ok(series),
        Err(_) => Err(FileErr::Memory),
    }
}

// Of the volume's series the one with the identifier that the pick asks for, or all where it asks by matchers.
pub(crate) fn candidates<D: Disk>(
    alloc: Global,
    disk: &mut D,
    head: &Head,
    seeker: Option<&Seeker>,
    pick: &Pick,
) -> Result<Seq<Series>, FileErr>
    requires there { Told (D.state disk.old) (IsThere (head_of head.now)) }
    requires seeker { Told (D.state disk.old) (λ files. IfSome seeker (λ k. IsSeekerOf (head_of head.now) k.now files)) }
    ensures leaves { LeavesFiles (IsErrOf result failures.Disk) (D.state disk.old) (D.state disk.new) }
    ensures ok { (D.state disk.old).tells ≡ true → IfOk result (λ found. (rows : List Row) → VolumeHolds (head_of head.now) rows (D.state disk.old).files → AreCandidates pick.now rows found) }
    ensures sound { (D.state disk.old).tells ≡ true → IfErr result IsUndamaged }
{
    match pick {
        Pick::One { id, .. } => one_of(alloc, disk, head, seeker, id.as_str()),
        Pick::Match { .. } => rows(alloc, disk, head),
    }
}

// Whether there may be a volume of this head with these series, or there are none. Takes no memory.
pub(crate) fn may_stand(head: &Head, found: &[Series]) -> bool
    ensures { IsTrue result ↔ MayStand (head_of head.now) found.now }
{
    found.is_empty() || is_volume(head, found)
}
