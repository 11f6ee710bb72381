ghost use Rattle.std.specs.Prelude.{◌≡◌, true, IsErrOf, OnOk};
ghost use Rattle.fileset_check.specs.m3_outside.Files.{Files};
ghost use Rattle.fileset_check.specs.m3_outside.Causes.{CountsFaults};
ghost use Rattle.fileset_check.specs.m3_outside.DiskState.{DiskState, Told, Elapses, StepOf};
ghost use Rattle.fileset_check.specs.m3_outside.declared.disk_err.DiskErr.TheVariants.{Failed as DiskFailed, Memory as WantOfMemory};
ghost use Rattle.fileset_check.specs.wire_bytes.Snapshots.{IsSnapshot};
ghost use Rattle.fileset_check.specs.shard_files.Steps.{MaySave, Saved, SavedNone};
ghost use Rattle.snapshot_files.specs.Snaps.{IsNew, seen};

use crate::bytes::bytes_of;
use crate::names::{checkpoint_name, data_name};
use crate::snap::Snap;
use fileset_check::of_m3_outside::{Disk, DiskErr};
use fileset_check::of_wire_bytes::digest;
use fileset_write::{NewFile, put_all};
use std::alloc::Global;

/// Saves the snapshot under its number, of which no file is there yet.
///
/// Its data is made and synced, then the checkpoint, whose gate is opened once all else is synced. So a stop at any moment leaves
/// the whole snapshot or one that doesn't count, and no other file is touched. Its bytes are made before the first file is, in
/// time and memory in proportion to them, and room is taken for two calls at a time.
///
/// # Errors
///
/// A fault, by which the disk's count rose in this call; the snapshot is there whole then, or doesn't count. Want of memory; the
/// snapshot doesn't count then. Files of a snapshot that doesn't count may stay in either case.
pub fn save<D: Disk>(alloc: Global, disk: &mut D, snap: &Snap) -> Result<(), DiskErr>
    requires values { IsSnapshot (seen snap.now) }
    requires fresh { Told (D.state disk.old) (IsNew snap.now.number) }
    // A stop at any moment leaves the snapshot whole, or one that doesn't count, and all other files.
    ensures any_moment { (D.state disk.old).tells ≡ true → Elapses (MaySave (seen snap.now)) (D.state disk.old) (D.state disk.new) }

    ensures acknowledged { (D.state disk.old).tells ≡ true → OnOk result ((c : Files) → (D.state disk.new).images c → StepOf (Saved (seen snap.now)) (D.state disk.old).images c) }
    ensures memory { (D.state disk.old).tells ≡ true → IsErrOf result WantOfMemory → (c : Files) → (D.state disk.new).images c → StepOf (SavedNone snap.now.number) (D.state disk.old).images c }
    ensures files { (D.state disk.old).tells ≡ true → MaySave (seen snap.now) (D.state disk.old).files (D.state disk.new).files }
    ensures there { (D.state disk.old).tells ≡ true → OnOk result (Saved (seen snap.now) (D.state disk.old).files (D.state disk.new).files) }
    ensures not_there { (D.state disk.old).tells ≡ true → IsErrOf result WantOfMemory → SavedNone snap.now.number (D.state disk.old).files (D.state disk.new).files }
    ensures tells { (D.state disk.new).tells ≡ (D.state disk.old).tells }
    ensures faults { CountsFaults (IsErrOf result DiskFailed) (D.state disk.old).faults (D.state disk.new).faults }
{
    let bytes = bytes_of(alloc, snap)?;
    let digest = digest(bytes.as_slice());
    let files = [NewFile {
        name: data_name(snap.number),
        bytes,
    }];
    put_all(disk, &files, checkpoint_name(snap.number), &digest)
}
