ghost use Rattle.std.specs.Prelude.{◌≡◌, ◌≤◌, true, length, map, vec_len, IsErrOf, IfOk, OnOk};
ghost use Rattle.log_chunks.specs.m3_outside.Causes.{CountsFaults};
ghost use Rattle.log_chunks.specs.m3_outside.DiskState.{DiskState, Elapses, Becomes};
ghost use Rattle.log_chunks.specs.m3_outside.DiskCalls.{LeavesFiles};
ghost use Rattle.log_chunks.specs.m3_outside.Removal.{without_files, MayTakeAway, HasTakenAway};
ghost use Rattle.log_chunks.specs.m3_outside.declared.disk_err.DiskErr.TheVariants.{Failed as DiskFailed, Memory as WantOfMemory};
ghost use Rattle.commit_log.specs.LogEnd.{LogEnd, LogEndStands};
ghost use Rattle.commit_log.specs.Segment.{segment};
ghost use Rattle.commit_log.specs.Cutting.{numbers_below, segments_below};

use crate::chunk::segment_name;
use crate::read::segment_numbers;
use log_chunks::of_m3_model::Memory;
use log_chunks::of_m3_outside::take_away::take_away;
use log_chunks::of_m3_outside::{Disk, DiskErr, FileName};
use std::alloc::Global;

// The names of the segments of these numbers.
fn names_of(alloc: Global, numbers: &[u64]) -> Result<Vec<FileName>, Memory>
    ensures { IfOk result (λ v. v.items ≡ map segment numbers.now) }
{
    let mut names = Vec::new(alloc);
    for number in numbers {
        names.push(segment_name(*number))?;
    }
    Ok(names)
}

// The names of the segments below this number, the lowest first, with room to take all of them away.
fn find_below<D: Disk>(alloc: Global, disk: &mut D, number: u64) -> Result<Vec<FileName>, DiskErr>
    ensures leaves { LeavesFiles (IsErrOf result DiskFailed) (D.state disk.old) (D.state disk.new) }
    ensures ok { (D.state disk.old).tells ≡ true → IfOk result (λ v. v.items ≡ segments_below number (D.state disk.old).files) }
    ensures room { IfOk result (λ v. vec_len v ≤ (D.state disk.new).spare) }
{
    let mut numbers = segment_numbers(alloc, disk)?;
    numbers.retain(|n| *n < number);
    let names = names_of(alloc, &numbers)?;
    disk.reserve(names.len() as u64)?;
    Ok(names)
}

/// Takes away all segments below this number, the lowest first.
///
/// # Errors
///
/// A fault, after which the lowest few of them are gone, or none, or all. Want of memory, after which all are there.
pub fn cut_before<D: Disk>(alloc: Global, disk: &mut D, number: u64) -> Result<(), DiskErr>
    // A stop at any moment leaves all files but the lowest few of these segments.
    ensures any_moment { (D.state disk.old).tells ≡ true → Elapses (MayTakeAway (segments_below number (D.state disk.old).files)) (D.state disk.old) (D.state disk.new) }

    ensures ok { (D.state disk.old).tells ≡ true → OnOk result (Becomes (without_files (segments_below number (D.state disk.old).files)) (D.state disk.old) (D.state disk.new)) }
    ensures memory { (D.state disk.old).tells ≡ true → IsErrOf result WantOfMemory → Becomes (λ files. files) (D.state disk.old) (D.state disk.new) }
    ensures files { (D.state disk.old).tells ≡ true → HasTakenAway (segments_below number (D.state disk.old).files) (D.state disk.old) (D.state disk.new) }
    ensures log_stands { (log : LogEnd) → number ≤ log.number → LogEndStands log (D.state disk.old) → LogEndStands log (D.state disk.new) }
    ensures tells { (D.state disk.new).tells ≡ (D.state disk.old).tells }
    ensures faults { CountsFaults (IsErrOf result DiskFailed) (D.state disk.old).faults (D.state disk.new).faults }
{
    let names = find_below(alloc, disk, number)?;
    take_away(disk, &names)?;
    Ok(())
}
