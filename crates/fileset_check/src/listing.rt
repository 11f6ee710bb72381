ghost use Rattle.std.specs.Prelude.{◌≡◌, [], true, IfOk, IfErr, OnOk, IsErrOf};
ghost use Rattle.fileset_read.specs.m3_model.Members.{IsIn};
ghost use Rattle.fileset_read.specs.m3_outside.Causes.{CountsFaults};
ghost use Rattle.fileset_read.specs.m3_outside.DiskState.{DiskState, Told};
ghost use Rattle.fileset_read.specs.m3_outside.DiskCalls.{LeavesFiles};
ghost use Rattle.fileset_read.specs.shard_files.Parts.{counted_volumes};
ghost use Rattle.fileset_read.specs.volume_bytes.Heads.{head_of};
ghost use Rattle.fileset_read.specs.Volumes.{IsThere};
ghost use Rattle.fileset_check.specs.Told.{MayTell, VolumesTell};
ghost use Rattle.fileset_check.specs.Whole.{AreVolumes};
ghost use Rattle.fileset_check.specs.declared.volume.Volume.{Volume as Listed};
ghost use Rattle.fileset_check.specs.declared.check_err.CheckErr.TheVariants as failures;

use crate::check_err::CheckErr;
use crate::volume::{Volume, check_volume};
use fileset_read::counted;
use fileset_read::of_m3_model::Seq;
use fileset_read::of_m3_outside::{Disk, FileName};
use std::alloc::Global;

// Appends the volumes of these checkpoints.
fn check_each<D: Disk>(
    alloc: Global,
    disk: &mut D,
    names: &[FileName],
    volumes: &mut Vec<Volume>,
) -> Result<(), CheckErr>
    requires none { volumes.old.items ≡ [] }
    requires counted { Told (D.state disk.old) (λ files. names.now ≡ counted_volumes files) }
    ensures leaves { LeavesFiles (IsErrOf result failures.Disk) (D.state disk.old) (D.state disk.new) }
    ensures ok { (D.state disk.old).tells ≡ true → OnOk result (AreVolumes (D.state disk.old).files volumes.new.items) }
    ensures err { (D.state disk.old).tells ≡ true → IfErr result (MayTell (VolumesTell (D.state disk.old).files)) }
{
    for name in names {
        let volume = check_volume(alloc, disk, *name)?;
        volumes.push(volume)?;
    }
    Ok(())
}

/// All volumes that count, ascending by namespace, start and number, each checked whole. So `rows` and `row` may be called of
/// each of them.
///
/// # Errors
///
/// A fault, by which the disk's count rose in this call. Want of memory. The first damage of the first volume that isn't whole.
/// In any case the files, and what a stop leaves of them, are as they were.
pub fn volumes<D: Disk>(alloc: Global, disk: &mut D) -> Result<Seq<Volume>, CheckErr>
    ensures leaves { LeavesFiles (IsErrOf result failures.Disk) (D.state disk.old) (D.state disk.new) }
    ensures ok { (D.state disk.old).tells ≡ true → IfOk result (AreVolumes (D.state disk.old).files) }
    ensures there { (D.state disk.old).tells ≡ true → IfOk result (λ found. (v : Listed) → IsIn found v → IsThere (head_of v.head) (D.state disk.old).files) }
    ensures err { (D.state disk.old).tells ≡ true → IfErr result (MayTell (VolumesTell (D.state disk.old).files)) }
    ensures faults { CountsFaults (IsErrOf result failures.Disk) (D.state disk.old).faults (D.state disk.new).faults }
{
    let names = counted(alloc, disk)?;
    let mut volumes = Vec::new(alloc);
    check_each(alloc, disk, names.as_slice(), &mut volumes)?;
    Ok(Seq::from_vec(volumes))
}
