ghost use Rattle.std.specs.Prelude.{◌≡◌, ◌+◌, ◌<◌, ◌≤◌, true, if◌then◌else◌, [], ◌∷◌, ◌++◌, take, drop, length, IfOk, IsErr, IsErrOf, OnOk};
ghost use Rattle.shard_files.specs.m3_outside.Causes.{CountsFaults};
ghost use Rattle.shard_files.specs.m3_outside.DiskState.{DiskState, Elapses, Becomes};
ghost use Rattle.shard_files.specs.m3_outside.DiskCalls.{LeavesFiles};
ghost use Rattle.shard_files.specs.m3_outside.Removal.{without_files, MayTakeAway, HasTakenAway};
ghost use Rattle.shard_files.specs.m3_outside.declared.disk_err.DiskErr.TheVariants.{Failed as DiskFailed, Memory as WantOfMemory};
ghost use Rattle.shard_files.specs.Steps.{files_of_volume, parts_there, those_there};

use shard_files::of_m3_outside::take_away::take_away;
use shard_files::of_m3_outside::{Disk, DiskErr, Failed, FileName};

// How many files a volume has.
const FILES: usize = 7;

// The file of a volume of this kind.
fn part(kind: u8, ns: u8, start: u64, number: u64) -> FileName
    ensures { result ≡ record { kind = kind; ns = ns; block = start; number = number } }
{
    FileName {
        kind,
        ns,
        block: start,
        number,
    }
}

// The files of a volume in the order in which they are taken away.
fn files_in_order(ns: u8, start: u64, number: u64) -> [FileName; FILES]
    ensures { result ≡ files_of_volume ns start number }
{
    [
        part(7, ns, start, number),
        part(1, ns, start, number),
        part(2, ns, start, number),
        part(3, ns, start, number),
        part(4, ns, start, number),
        part(5, ns, start, number),
        part(6, ns, start, number),
    ]
}

// Puts the name behind the first `count` of the names, where its file is there. Gives how many are so far.
fn keep(names: &mut [FileName], count: usize, name: FileName, is_there: bool) -> usize
    requires { count < length names.old }
    ensures kept { take result names.new ≡ take count names.old ++ (if is_there then name ∷ [] else []) }
    ensures within { result ≤ count + 1 }
    ensures long { length names.new ≡ length names.old }
    ensures rest { drop (count + 1) names.new ≡ drop (count + 1) names.old }
{
    if !is_there {
        return count;
    }
    names[count] = name;
    count + 1
}

// Moves the names of files that are there to the front, in their order. Gives how many these are.
fn find_there<D: Disk>(disk: &mut D, names: &mut [FileName]) -> Result<usize, Failed>
    ensures leaves { LeavesFiles (IsErr result) (D.state disk.old) (D.state disk.new) }
    ensures long { length names.new ≡ length names.old }
    ensures within { IfOk result (λ count. count ≤ length names.old) }
    ensures ok { (D.state disk.old).tells ≡ true → IfOk result (λ count. take count names.new ≡ those_there names.old (D.state disk.old).files) }
{
    let mut count = 0;
    for i in 0..names.len() {
        let name = names[i];
        let is_there = disk.size(name)?.is_some();
        count = keep(names, count, name, is_there);
    }
    Ok(count)
}

/// Takes a volume away, complete or not: its checkpoint first, then those of its other files that are there. Uses up room for 7
/// calls at most, and takes no memory where there is as much.
///
/// # Errors
///
/// A fault, by which the disk's count rose in this call; then the first few of the files are gone, or none, or all. Want of
/// memory, after which all are there.
pub fn remove<D: Disk>(disk: &mut D, ns: u8, start: u64, number: u64) -> Result<(), DiskErr>
    // A stop at any moment leaves all files but the first few of these.
    ensures any_moment { (D.state disk.old).tells ≡ true → Elapses (MayTakeAway (parts_there ns start number (D.state disk.old).files)) (D.state disk.old) (D.state disk.new) }

    ensures ok { (D.state disk.old).tells ≡ true → OnOk result (Becomes (without_files (parts_there ns start number (D.state disk.old).files)) (D.state disk.old) (D.state disk.new)) }
    ensures memory { (D.state disk.old).tells ≡ true → IsErrOf result WantOfMemory → Becomes (λ files. files) (D.state disk.old) (D.state disk.new) }
    ensures files { (D.state disk.old).tells ≡ true → HasTakenAway (parts_there ns start number (D.state disk.old).files) (D.state disk.old) (D.state disk.new) }
    ensures room { 7 ≤ (D.state disk.old).spare → ¬ (IsErrOf result WantOfMemory) }
    ensures spare { (D.state disk.old).spare ≤ (D.state disk.new).spare + 7 }
    ensures tells { (D.state disk.new).tells ≡ (D.state disk.old).tells }
    ensures faults { CountsFaults (IsErrOf result DiskFailed) (D.state disk.old).faults (D.state disk.new).faults }
{
    let mut names = files_in_order(ns, start, number);
    let count = find_there(disk, &mut names)?;
    disk.reserve(count as u64)?;
    take_away(disk, &names[..count])?;
    Ok(())
}
