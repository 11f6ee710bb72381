ghost use Rattle.std.specs.Prelude.{◌≡◌, ◌≤◌, ◌++◌, true, filter, vec_len, IfOk, IsErrOf, OnOk};
ghost use Rattle.fileset_check.specs.m3_outside.Causes.{CountsFaults};
ghost use Rattle.fileset_check.specs.m3_outside.DiskState.{DiskState, Elapses, Becomes};
ghost use Rattle.fileset_check.specs.m3_outside.DiskCalls.{LeavesFiles};
ghost use Rattle.fileset_check.specs.m3_outside.Removal.{without_files, MayTakeAway, HasTakenAway};
ghost use Rattle.fileset_check.specs.m3_outside.declared.disk_err.DiskErr.TheVariants.{Failed as DiskFailed, Memory as WantOfMemory};
ghost use Rattle.fileset_check.specs.shard_files.Steps as steps;
ghost use Rattle.fileset_check.specs.shard_files.Steps.{snapshots_below};

use crate::names::{CHECKPOINT, DATA};
use fileset_check::of_m3_model::Memory;
use fileset_check::of_m3_outside::take_away::take_away;
use fileset_check::of_m3_outside::{Disk, DiskErr, FileName};
use std::alloc::Global;

// Whether it is the name of a file of this kind of a snapshot below this number.
fn is_older(kind: u8, number: u64, name: FileName) -> bool
    ensures { result ≡ steps.is_older kind number name }
{
    name.kind == kind && name.ns == 0 && name.block == 0 && name.number < number
}

// Those of the names that are of files of snapshots below this number, all checkpoints first.
fn older_of(alloc: Global, names: &[FileName], number: u64) -> Result<Vec<FileName>, Memory>
    ensures { IfOk result (λ older. older.items ≡ filter (steps.is_older 9 number) names.now ++ filter (steps.is_older 8 number) names.now) }
{
    let checkpoints = names
        .iter()
        .copied()
        .filter(|name| is_older(CHECKPOINT, number, *name));
    let data = names
        .iter()
        .copied()
        .filter(|name| is_older(DATA, number, *name));
    Ok(checkpoints.chain(data).collect(alloc)?)
}

// The files of the snapshots below this number in the order in which they are taken away, with room for that.
fn find_below<D: Disk>(alloc: Global, disk: &mut D, number: u64) -> Result<Vec<FileName>, DiskErr>
    ensures leaves { LeavesFiles (IsErrOf result DiskFailed) (D.state disk.old) (D.state disk.new) }
    ensures ok { (D.state disk.old).tells ≡ true → IfOk result (λ older. older.items ≡ snapshots_below number (D.state disk.old).files) }
    ensures room { IfOk result (λ older. vec_len older ≤ (D.state disk.new).spare) }
{
    let names = disk.list()?;
    let older = older_of(alloc, names.as_slice(), number)?;
    disk.reserve(older.len() as u64)?;
    Ok(older)
}

/// Takes away all snapshots below this number, complete or not: first their checkpoints, by ascending number, and then their
/// data. So a stop at any moment leaves no snapshot that counts without its data.
///
/// # Errors
///
/// A fault, by which the disk's count rose in this call; then the first few of the files are gone, or none, or all. Want of
/// memory, after which all are there.
pub fn clear_before<D: Disk>(alloc: Global, disk: &mut D, number: u64) -> Result<(), DiskErr>
    // A stop at any moment leaves all files but the first few of these.
    ensures any_moment { (D.state disk.old).tells ≡ true → Elapses (MayTakeAway (snapshots_below number (D.state disk.old).files)) (D.state disk.old) (D.state disk.new) }

    ensures ok { (D.state disk.old).tells ≡ true → OnOk result (Becomes (without_files (snapshots_below number (D.state disk.old).files)) (D.state disk.old) (D.state disk.new)) }
    ensures memory { (D.state disk.old).tells ≡ true → IsErrOf result WantOfMemory → Becomes (λ files. files) (D.state disk.old) (D.state disk.new) }
    ensures files { (D.state disk.old).tells ≡ true → HasTakenAway (snapshots_below number (D.state disk.old).files) (D.state disk.old) (D.state disk.new) }
    ensures tells { (D.state disk.new).tells ≡ (D.state disk.old).tells }
    ensures faults { CountsFaults (IsErrOf result DiskFailed) (D.state disk.old).faults (D.state disk.new).faults }
{
    let older = find_below(alloc, disk, number)?;
    take_away(disk, &older)?;
    Ok(())
}
