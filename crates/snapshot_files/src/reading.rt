ghost use Rattle.std.specs.Prelude.{◌≡◌, true, if◌then◌else◌, Some, filter, option_map, IfOk, IfErr, IsErr, IsErrOf};
ghost use Rattle.std.specs.FinMap.{get};
ghost use Rattle.fileset_check.specs.m3_outside.Causes.{CountsFaults};
ghost use Rattle.fileset_check.specs.m3_outside.DiskState.{DiskState};
ghost use Rattle.fileset_check.specs.m3_outside.DiskCalls.{LeavesFiles};
ghost use Rattle.fileset_check.specs.m3_outside.declared.disk_err.DiskErr.TheVariants.{Failed as DiskFailed};
ghost use Rattle.fileset_check.specs.shard_files.Damage.{last_of};
ghost use Rattle.fileset_check.specs.shard_files.Parts as parts;
ghost use Rattle.fileset_check.specs.shard_files.Parts.{NewestIs, counted_snapshots};
ghost use Rattle.fileset_check.specs.Told.{MayTell};
ghost use Rattle.fileset_check.specs.declared.check_err.CheckErr.TheVariants as failures;
ghost use Rattle.snapshot_files.specs.Snaps.{seen};
ghost use Rattle.snapshot_files.specs.Told.{NewestTells, checkpoint_of, is_counted};

use crate::check::check_snapshot;
use crate::names::CHECKPOINT;
use crate::snap::Snap;
use fileset_check::CheckErr;
use fileset_check::of_m3_outside::{Disk, DiskErr, Failed, FileName};
use std::alloc::Global;

// An open gate.
const OPEN: u8 = 1;

// Whether the file is there and its first byte is an open gate.
fn is_open<D: Disk>(disk: &mut D, name: FileName) -> Result<bool, Failed>
    ensures leaves { LeavesFiles (IsErr result) (D.state disk.old) (D.state disk.new) }
    ensures ok { (D.state disk.old).tells ≡ true → IfOk result (λ is. is ≡ parts.is_open (get (D.state disk.old).files name)) }
{
    let Some(size) = disk.size(name)? else {
        return Ok(false);
    };
    if size == 0 {
        return Ok(false);
    }
    let mut gate = [0; 1];
    disk.read(name, 0, &mut gate)?;
    Ok(gate[0] == OPEN)
}

// Whether it is the checkpoint of a snapshot that counts.
fn counts<D: Disk>(disk: &mut D, name: FileName) -> Result<bool, Failed>
    ensures leaves { LeavesFiles (IsErr result) (D.state disk.old) (D.state disk.new) }
    ensures ok { (D.state disk.old).tells ≡ true → IfOk result (λ is. is ≡ is_counted (D.state disk.old).files name) }
{
    if name.kind != CHECKPOINT || name.ns != 0 || name.block != 0 {
        return Ok(false);
    }
    is_open(disk, name)
}

// The number of the later one where that counts, and else of the one before.
fn later_of(before: Option<u64>, name: FileName, counts: bool) -> Option<u64>
    ensures { result ≡ (if counts then Some name.number else before) }
{
    if counts { Some(name.number) } else { before }
}

// The number of the last one of these checkpoints that counts.
fn last_counted<D: Disk>(disk: &mut D, names: &[FileName]) -> Result<Option<u64>, Failed>
    ensures leaves { LeavesFiles (IsErr result) (D.state disk.old) (D.state disk.new) }
    ensures ok { (D.state disk.old).tells ≡ true → IfOk result (λ last. last_of (filter (is_counted (D.state disk.old).files) names.now) ≡ checkpoint_of last) }
{
    let mut last = None;
    for name in names {
        let is_later = counts(disk, *name)?;
        last = later_of(last, *name, is_later);
    }
    Ok(last)
}

// The number of the newest snapshot that counts.
fn newest_number<D: Disk>(disk: &mut D) -> Result<Option<u64>, DiskErr>
    ensures leaves { LeavesFiles (IsErrOf result DiskFailed) (D.state disk.old) (D.state disk.new) }
    ensures ok { (D.state disk.old).tells ≡ true → IfOk result (λ last. last_of (counted_snapshots (D.state disk.old).files) ≡ checkpoint_of last) }
{
    let names = disk.list()?;
    Ok(last_counted(disk, names.as_slice())?)
}

/// The newest snapshot that counts, checked whole, and none where none counts. Of each snapshot's checkpoint one byte is read, and
/// both files of the newest, each once and in one piece. An older snapshot that counts is never taken in place of a damaged newer
/// one, and isn't looked into.
///
/// # Errors
///
/// A fault, by which the disk's count rose in this call. Want of memory. The first damage of the newest snapshot: of its
/// checkpoint, of the data's digest, or of the data; in data that keeps to its digest no offset is looked for. In any case the
/// files, and what a stop leaves of them, are as they were.
pub fn newest<D: Disk>(alloc: Global, disk: &mut D) -> Result<Option<Snap>, CheckErr>
    ensures leaves { LeavesFiles (IsErrOf result failures.Disk) (D.state disk.old) (D.state disk.new) }
    ensures ok { (D.state disk.old).tells ≡ true → IfOk result (λ found. NewestIs (option_map seen found) (D.state disk.old).files) }
    ensures err { (D.state disk.old).tells ≡ true → IfErr result (MayTell (NewestTells (D.state disk.old).files)) }
    ensures faults { CountsFaults (IsErrOf result failures.Disk) (D.state disk.old).faults (D.state disk.new).faults }
{
    let Some(number) = newest_number(disk)? else {
        return Ok(None);
    };
    Ok(Some(check_snapshot(alloc, disk, number)?))
}
