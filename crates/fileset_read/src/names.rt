ghost use Rattle.std.specs.Prelude.{◌≡◌, ◌++◌, [], ◌∷◌, true, if◌then◌else◌, filter, IfOk, OnOk, IsErr, IsErrOf};
ghost use Rattle.std.specs.FinMap.{get};
ghost use Rattle.shard_files.specs.m3_outside.Causes.{CountsFaults};
ghost use Rattle.shard_files.specs.m3_outside.DiskState.{DiskState};
ghost use Rattle.shard_files.specs.m3_outside.DiskCalls.{LeavesFiles};
ghost use Rattle.shard_files.specs.m3_outside.declared.disk_err.DiskErr.TheVariants.{Failed as DiskFailed};
ghost use Rattle.shard_files.specs.Parts as parts;
ghost use Rattle.shard_files.specs.Parts.{counted_volumes};
ghost use Rattle.fileset_read.specs.Volumes.{is_counted};

use shard_files::of_m3_model::{Memory, Seq};
use shard_files::of_m3_outside::{Disk, DiskErr, Failed, FileName};
use std::alloc::Global;

// An open gate.
const OPEN: u8 = 1;

// The kind of a volume's checkpoint.
const CHECKPOINT: u8 = 7;

// Whether the file is there and its first byte is an open gate.
fn is_open<D: Disk>(disk: &mut D, name: FileName) -> Result<bool, Failed>
    ensures leaves { LeavesFiles (IsErr result) (D.state disk.old) (D.state disk.new) }
    ensures ok { (D.state disk.old).tells ≡ true → IfOk result (λ is. is ≡ parts.is_open (get (D.state disk.old).files name)) }
{
    let Some(size) = disk.size(name)? else {
        return Ok(false);
    };
    if size == 0 {
        return Ok(false);
    }
    let mut gate = [0; 1];
    disk.read(name, 0, &mut gate)?;
    Ok(gate[0] == OPEN)
}

// Whether it is the checkpoint of a volume that counts.
fn counts<D: Disk>(disk: &mut D, name: FileName) -> Result<bool, Failed>
    ensures leaves { LeavesFiles (IsErr result) (D.state disk.old) (D.state disk.new) }
    ensures ok { (D.state disk.old).tells ≡ true → IfOk result (λ is. is ≡ is_counted (D.state disk.old).files name) }
{
    if name.kind != CHECKPOINT {
        return Ok(false);
    }
    is_open(disk, name)
}

// Appends the name where it counts.
fn keep(names: &mut Vec<FileName>, name: FileName, counts: bool) -> Result<(), Memory>
    ensures { OnOk result (names.new.items ≡ names.old.items ++ (if counts then name ∷ [] else [])) }
{
    if counts {
        names.push(name)?;
    }
    Ok(())
}

// Appends those of the names that count.
fn keep_counted<D: Disk>(
    disk: &mut D,
    all: &[FileName],
    names: &mut Vec<FileName>,
) -> Result<(), DiskErr>
    requires { names.old.items ≡ [] }
    ensures leaves { LeavesFiles (IsErrOf result DiskFailed) (D.state disk.old) (D.state disk.new) }
    ensures ok { (D.state disk.old).tells ≡ true → OnOk result (names.new.items ≡ filter (is_counted (D.state disk.old).files) all.now) }
{
    for name in all {
        let is_kept = counts(disk, *name)?;
        keep(names, *name, is_kept)?;
    }
    Ok(())
}

/// The checkpoints of the volumes that count, ascending by namespace, start and number: those whose gate is open. Of each
/// checkpoint one byte is read.
///
/// # Errors
///
/// A fault, by which the disk's count rose in this call. Want of memory. In any case the files, and what a stop leaves of
/// them, are as they were.
pub fn counted<D: Disk>(alloc: Global, disk: &mut D) -> Result<Seq<FileName>, DiskErr>
    ensures leaves { LeavesFiles (IsErrOf result DiskFailed) (D.state disk.old) (D.state disk.new) }
    ensures ok { (D.state disk.old).tells ≡ true → IfOk result (λ names. names ≡ counted_volumes (D.state disk.old).files) }
    ensures faults { CountsFaults (IsErrOf result DiskFailed) (D.state disk.old).faults (D.state disk.new).faults }
{
    let all = disk.list()?;
    let mut names = Vec::new(alloc);
    keep_counted(disk, all.as_slice(), &mut names)?;
    Ok(Seq::from_vec(names))
}
