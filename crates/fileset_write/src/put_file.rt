ghost use Rattle.std.specs.Prelude.{◌≡◌, ◌+◌, ◌<◌, ◌≤◌, ◌^◌, true, length, IsErrOf, OnOk};
ghost use Rattle.shard_files.specs.m3_outside.Files.{IsAbsent};
ghost use Rattle.shard_files.specs.m3_outside.Causes.{CountsFaults};
ghost use Rattle.shard_files.specs.m3_outside.DiskState.{DiskState, Told, Elapses, Becomes};
ghost use Rattle.shard_files.specs.m3_outside.declared.disk_err.DiskErr.TheVariants.{Failed as DiskFailed, Memory as WantOfMemory};
ghost use Rattle.fileset_write.specs.Putting.{MayPut, OthersOf, AreAbsent, AreApart, behind, names_of, with_file, with_files};

use crate::new_file::NewFile;
use shard_files::of_m3_outside::{Disk, DiskErr, FileName};

/// Room for a write and a sync.
pub(crate) const CALLS: u64 = 2;

/// Makes a file of `front` zeros with the bytes behind them, and syncs it. The zeros are never written over.
pub(crate) fn put_file<D: Disk>(
    disk: &mut D,
    name: FileName,
    front: u64,
    bytes: &[u8],
) -> Result<(), DiskErr>
    requires absent { Told (D.state disk.old) (IsAbsent name) }
    requires front { front ≤ 1 }
    ensures any_moment { (D.state disk.old).tells ≡ true → Elapses (MayPut name front (length bytes.now)) (D.state disk.old) (D.state disk.new) }
    ensures ok { (D.state disk.old).tells ≡ true → OnOk result (Becomes (with_file name (behind front bytes.now)) (D.state disk.old) (D.state disk.new)) }
    ensures memory { (D.state disk.old).tells ≡ true → IsErrOf result WantOfMemory → Becomes (λ files. files) (D.state disk.old) (D.state disk.new) }
    ensures files { (D.state disk.old).tells ≡ true → MayPut name front (length bytes.now) (D.state disk.old).files (D.state disk.new).files }
    ensures tells { (D.state disk.new).tells ≡ (D.state disk.old).tells }
    ensures faults { CountsFaults (IsErrOf result DiskFailed) (D.state disk.old).faults (D.state disk.new).faults }
{
    disk.reserve(CALLS)?;
    disk.create(name, front + bytes.len() as u64)?;
    disk.write_at(name, front, bytes)?;
    disk.sync(name)?;
    Ok(())
}

/// Makes these files, one after another.
pub(crate) fn put_files<D: Disk>(disk: &mut D, files: &[NewFile]) -> Result<(), DiskErr>
    requires apart { AreApart (names_of files.now) }
    requires absent { Told (D.state disk.old) (AreAbsent (names_of files.now)) }
    ensures any_moment { (D.state disk.old).tells ≡ true → Elapses (OthersOf (names_of files.now)) (D.state disk.old) (D.state disk.new) }
    ensures ok { (D.state disk.old).tells ≡ true → OnOk result (Becomes (with_files files.now) (D.state disk.old) (D.state disk.new)) }
    ensures files { (D.state disk.old).tells ≡ true → OthersOf (names_of files.now) (D.state disk.old).files (D.state disk.new).files }
    ensures tells { (D.state disk.new).tells ≡ (D.state disk.old).tells }
    ensures faults { CountsFaults (IsErrOf result DiskFailed) (D.state disk.old).faults (D.state disk.new).faults }
{
    for file in files {
        put_file(disk, file.name, 0, file.bytes.as_slice())?;
    }
    Ok(())
}
