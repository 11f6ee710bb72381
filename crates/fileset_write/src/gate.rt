ghost use Rattle.std.specs.Prelude.{◌≡◌, ◌∷◌, true, IsErrOf, OnOk};
ghost use Rattle.shard_files.specs.m3_outside.Files.{Files, IsAbsent};
ghost use Rattle.shard_files.specs.m3_outside.Causes.{CountsFaults};
ghost use Rattle.shard_files.specs.m3_outside.DiskState.{DiskState, Told, Elapses, StepOf, Becomes};
ghost use Rattle.shard_files.specs.m3_outside.declared.disk_err.DiskErr.TheVariants.{Failed as DiskFailed, Memory as WantOfMemory};
ghost use Rattle.fileset_write.specs.Putting.{IsShut, MayOpen, MayPutAll, PutNone, AreAbsent, AreApart, names_of, opened, with_volume};

use crate::new_file::NewFile;
use crate::put_file::{CALLS, put_file, put_files};
use shard_files::of_m3_outside::{Disk, DiskErr, FileName};

// An open gate.
const OPEN: u8 = 1;

// Opens the gate of a checkpoint, and syncs it. The digest behind it was synced.
fn open_gate<D: Disk>(disk: &mut D, name: FileName, digest: &[u8]) -> Result<(), DiskErr>
    requires shut { IsShut name digest.now (D.state disk.old) }
    ensures any_moment { (D.state disk.old).tells ≡ true → Elapses (MayOpen name digest.now) (D.state disk.old) (D.state disk.new) }
    ensures ok { (D.state disk.old).tells ≡ true → OnOk result (Becomes (opened name digest.now) (D.state disk.old) (D.state disk.new)) }
    ensures memory { (D.state disk.old).tells ≡ true → IsErrOf result WantOfMemory → Becomes (λ files. files) (D.state disk.old) (D.state disk.new) }
    ensures files { (D.state disk.old).tells ≡ true → MayOpen name digest.now (D.state disk.old).files (D.state disk.new).files }
    ensures tells { (D.state disk.new).tells ≡ (D.state disk.old).tells }
    ensures faults { CountsFaults (IsErrOf result DiskFailed) (D.state disk.old).faults (D.state disk.new).faults }
{
    disk.reserve(CALLS)?;
    disk.write_at(name, 0, &[OPEN])?;
    disk.sync(name)?;
    Ok(())
}

/// Makes these files, then the checkpoint with this digest behind a closed gate, and opens the gate last. All of it is
/// synced before that. Room is taken for two calls at a time.
///
/// # Errors
///
/// A fault, by which the disk's count rose in this call; all of it is there then, or the gate isn't open. Want of memory; the
/// gate isn't open then.
pub fn put_all<D: Disk>(
    disk: &mut D,
    files: &[NewFile],
    checkpoint: FileName,
    digest: &[u8],
) -> Result<(), DiskErr>
    requires apart { AreApart (checkpoint ∷ names_of files.now) }
    requires absent { Told (D.state disk.old) (AreAbsent (checkpoint ∷ names_of files.now)) }
    requires none { (D.state disk.old).tells ≡ true → (c : Files) → (D.state disk.old).images c → IsAbsent checkpoint c }
    ensures any_moment { (D.state disk.old).tells ≡ true → Elapses (MayPutAll files.now checkpoint digest.now) (D.state disk.old) (D.state disk.new) }
    ensures ok { (D.state disk.old).tells ≡ true → OnOk result (Becomes (with_volume files.now checkpoint digest.now) (D.state disk.old) (D.state disk.new)) }
    ensures memory { (D.state disk.old).tells ≡ true → IsErrOf result WantOfMemory → (c : Files) → (D.state disk.new).images c → StepOf (PutNone files.now checkpoint) (D.state disk.old).images c }
    ensures files { (D.state disk.old).tells ≡ true → MayPutAll files.now checkpoint digest.now (D.state disk.old).files (D.state disk.new).files }
    ensures shut { (D.state disk.old).tells ≡ true → IsErrOf result WantOfMemory → PutNone files.now checkpoint (D.state disk.old).files (D.state disk.new).files }
    ensures tells { (D.state disk.new).tells ≡ (D.state disk.old).tells }
    ensures faults { CountsFaults (IsErrOf result DiskFailed) (D.state disk.old).faults (D.state disk.new).faults }
{
    put_files(disk, files)?;
    put_file(disk, checkpoint, 1, digest)?;
    open_gate(disk, checkpoint, digest)
}
