//! The volumes that count, checked and read.
ghost use Rattle.std.specs.Prelude.{◌≡◌, ◌++◌, [], ◌∷◌, true, map, IfOk, IfErr, OnOk, IsErrOf};
ghost use Rattle.m3_model.specs.Members.{IsIn};
ghost use Rattle.snapshot_files.specs.m3_outside.DiskState.{DiskState, Told};
ghost use Rattle.snapshot_files.specs.m3_outside.DiskCalls.{LeavesFiles};
ghost use Rattle.snapshot_files.specs.wire_bytes.Volumes.{points_of_rows};
ghost use Rattle.snapshot_files.specs.volume_bytes.Heads.{head_of};
ghost use Rattle.snapshot_files.specs.shard_files.FilesHold.{volume_points};
ghost use Rattle.snapshot_files.specs.shard_files.Loading.{Tells};
ghost use Rattle.snapshot_files.specs.shard_files.declared.load_err.LoadErr.TheVariants as failures;
ghost use Rattle.snapshot_files.specs.fileset_read.Volumes.{IsThere};
ghost use Rattle.snapshot_files.specs.fileset_check.Told.{VolumesTell};
ghost use Rattle.snapshot_files.specs.fileset_check.declared.volume.Volume.{Volume as Listed};
ghost use Rattle.shard_open.specs.Loads.{known_of, AreOpen, AreOpened, IsOpen};
ghost use Rattle.shard_open.specs.Told.{AreApart, IsUnreadAs};

use crate::rows::append_rows;
use crate::told::told;
use m3_model::{Memory, Point, Seq, Series};
use snapshot_files::of_fileset_check::{Volume, volumes};
use snapshot_files::of_fileset_read::{FileErr, rows};
use snapshot_files::of_m3_outside::Disk;
use snapshot_files::of_shard_files::LoadErr;
use std::alloc::Global;

/// A volume that counts.
#[derive(Drop)]
pub struct OpenVolume {
    /// Which one it is, and how many series and points it has.
    pub volume: Volume,
    /// Its series.
    pub rows: Seq<Series>,
}

// Why the volume wasn't read, of the replica's files.
fn unread(why: FileErr) -> LoadErr
    ensures same { IsUnreadAs why result }
    ensures apart { AreApart result }
{
    match why {
        FileErr::Disk => LoadErr::Disk,
        FileErr::Memory => LoadErr::Memory,
        FileErr::Form { file } => LoadErr::Form { file, at: 0 },
    }
}

// Opens the volume, which is there whole, and appends its points.
fn open_one<D: Disk>(
    alloc: Global,
    disk: &mut D,
    volume: Volume,
    points: &mut Vec<Point>,
) -> Result<OpenVolume, LoadErr>
    requires { Told (D.state disk.old) (IsThere (head_of volume.head)) }
    ensures leaves { LeavesFiles (IsErrOf result failures.Disk) (D.state disk.old) (D.state disk.new) }
    ensures ok { (D.state disk.old).tells ≡ true → IfOk result (IsOpen (D.state disk.old).files volume) }
    ensures points { IfOk result (λ v. points.new.items ≡ points.old.items ++ points_of_rows v.volume.head.ns v.rows) }
    ensures sound { (D.state disk.old).tells ≡ true → IfErr result (Tells (λ damage. ⊥)) }
    ensures apart { IfErr result AreApart }
{
    let found = match rows(alloc, disk, &volume.head) {
        Ok(found) => found,
        Err(why) => return Err(unread(why)),
    };
    append_rows(alloc, volume.head.ns, found.as_slice(), points)?;
    Ok(OpenVolume {
        volume,
        rows: found,
    })
}

// Appends the volume.
fn keep(found: &mut Vec<OpenVolume>, volume: OpenVolume) -> Result<(), Memory>
    ensures { OnOk result (found.new.items ≡ found.old.items ++ volume ∷ []) }
{
    found.push(volume)?;
    Ok(())
}

// Opens the volumes, which are there whole, and appends their points.
fn open_each<D: Disk>(
    alloc: Global,
    disk: &mut D,
    listed: &[Volume],
    points: &mut Vec<Point>,
) -> Result<Seq<OpenVolume>, LoadErr>
    requires { Told (D.state disk.old) (λ files. (v : Listed) → IsIn listed.now v → IsThere (head_of v.head) files) }
    ensures leaves { LeavesFiles (IsErrOf result failures.Disk) (D.state disk.old) (D.state disk.new) }
    ensures ok { (D.state disk.old).tells ≡ true → IfOk result (AreOpen (D.state disk.old).files listed.now) }
    ensures points { IfOk result (λ found. points.new.items ≡ points.old.items ++ volume_points (map known_of found)) }
    ensures sound { (D.state disk.old).tells ≡ true → IfErr result (Tells (λ damage. ⊥)) }
    ensures apart { IfErr result AreApart }
{
    let mut found = Vec::new(alloc);
    for volume in listed {
        let opened = open_one(alloc, disk, *volume, points)?;
        keep(&mut found, opened)?;
    }
    Ok(Seq::from_vec(found))
}

/// The volumes that count, ascending by namespace, start and number, each checked whole, and their points behind those before.
/// Each volume is read twice, and one after another.
///
/// # Errors
///
/// A fault. The first damage of the first volume that isn't whole. Want of memory.
pub(crate) fn open_volumes<D: Disk>(
    alloc: Global,
    disk: &mut D,
    points: &mut Vec<Point>,
) -> Result<Seq<OpenVolume>, LoadErr>
    ensures leaves { LeavesFiles (IsErrOf result failures.Disk) (D.state disk.old) (D.state disk.new) }
    ensures ok { (D.state disk.old).tells ≡ true → IfOk result (λ found. AreOpened found (D.state disk.old).files) }
    ensures points { IfOk result (λ found. points.new.items ≡ points.old.items ++ volume_points (map known_of found)) }
    ensures err { (D.state disk.old).tells ≡ true → IfErr result (Tells (VolumesTell (D.state disk.old).files)) }
    ensures apart { IfErr result AreApart }
{
    let listed = match volumes(alloc, disk) {
        Ok(listed) => listed,
        Err(why) => return Err(told(why)),
    };
    open_each(alloc, disk, listed.as_slice(), points)
}
