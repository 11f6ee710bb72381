ghost use Rattle.std.specs.Prelude.{◌≡◌, ◌+◌, ◌*◌, ◌≤◌, ℕ, true, length, List, IsErrOf, OnOk};
ghost use Rattle.m3_model.specs.Contents.{Contents};
ghost use Rattle.m3_model.specs.Members.{IsIn};
ghost use Rattle.shard_files.specs.m3_outside.Causes.{CountsFaults};
ghost use Rattle.shard_files.specs.m3_outside.DiskState.{DiskState, EachImage, Elapses, Becomes};
ghost use Rattle.shard_files.specs.m3_outside.Files.{IsAbsent};
ghost use Rattle.shard_files.specs.m3_outside.declared.disk_err.DiskErr.TheVariants.{Failed as DiskFailed, Memory as WantOfMemory};
ghost use Rattle.shard_files.specs.commit_log.Contents.{numbers};
ghost use Rattle.shard_files.specs.commit_log.LogEnd.{LogEnd, LogEndStands};
ghost use Rattle.shard_files.specs.wire_bytes.Volumes.{Part};
ghost use Rattle.shard_files.specs.Keeps.{Keeps};
ghost use Rattle.shard_files.specs.Parts.{KnownVolume, part_name};
ghost use Rattle.shard_files.specs.Steps.{OthersStay, is_part};
ghost use Rattle.volume_bytes.specs.declared.heads.Head.{Head as Listed};
ghost use Rattle.volume_steps.specs.Known.{HoldsKnown, HaveContent};
ghost use Rattle.volume_steps.specs.KnownLists.{IsOfOne, without_volume, without_volumes};

use fileset_write::remove;
use shard_files::of_m3_outside::{Disk, DiskErr};
use volume_bytes::Head;

/// Takes away the volume of this namespace, start and number, complete or not, its checkpoint first. What is to be kept is in
/// memory or in other known volumes. Uses up room for 7 calls at most, and takes no memory where there is as much.
///
/// # Errors
///
/// A fault; the volume counts then, or doesn't. Want of memory, after which the files are as they were.
pub fn remove_volume<D: Disk>(disk: &mut D, ns: u8, start: u64, number: u64) -> Result<(), DiskErr>
    // A stop at any moment leaves all that is to be kept, the tenure and the fence.
    ensures any_moment { (kept memory : Contents) (known : List KnownVolume) (tenure fence : ℕ) → EachImage (D.state disk.old) (HoldsKnown memory known tenure fence) → HaveContent memory (without_volume ns start number known) kept → (D.state disk.old).tells ≡ true → Elapses (Keeps kept) (D.state disk.old) (D.state disk.new) }

    ensures known { (memory : Contents) (known : List KnownVolume) (tenure fence : ℕ) → EachImage (D.state disk.old) (HoldsKnown memory known tenure fence) → OnOk result (EachImage (D.state disk.new) (HoldsKnown memory (without_volume ns start number known) tenure fence)) }
    ensures gone { (D.state disk.old).tells ≡ true → OnOk result ((part : Part) → IsAbsent (part_name part ns start number) (D.state disk.new).files) }
    ensures memory { (D.state disk.old).tells ≡ true → IsErrOf result WantOfMemory → Becomes (λ files. files) (D.state disk.old) (D.state disk.new) }
    ensures others { (D.state disk.old).tells ≡ true → OthersStay (λ name. (is_part ns start name ≡ true) × (name.number ≡ number)) (D.state disk.old).files (D.state disk.new).files }
    ensures segments { (D.state disk.old).tells ≡ true → numbers (D.state disk.new).files ≡ numbers (D.state disk.old).files }
    ensures log_stands { (log : LogEnd) → LogEndStands log (D.state disk.old) → LogEndStands log (D.state disk.new) }
    ensures room { 7 ≤ (D.state disk.old).spare → ¬ (IsErrOf result WantOfMemory) }
    ensures spare { (D.state disk.old).spare ≤ (D.state disk.new).spare + 7 }
    ensures tells { (D.state disk.new).tells ≡ (D.state disk.old).tells }
    ensures faults { CountsFaults (IsErrOf result DiskFailed) (D.state disk.old).faults (D.state disk.new).faults }
{
    remove(disk, ns, start, number)
}

// The device calls that the removal of a volume uses up room for.
const CALLS: u64 = 7;

/// Takes away these volumes one after another, as `remove_volume`. What is to be kept is in memory or in other known volumes.
/// The room for all of them is taken before the first.
///
/// # Errors
///
/// A fault; then the first few of the volumes don't count, or none, or all. Want of memory, after which the files are as they
/// were.
pub fn remove_volumes<D: Disk>(disk: &mut D, olds: &[Head]) -> Result<(), DiskErr>
    // A stop at any moment leaves all that is to be kept, the tenure and the fence.
    ensures any_moment { (kept memory : Contents) (known : List KnownVolume) (tenure fence : ℕ) → EachImage (D.state disk.old) (HoldsKnown memory known tenure fence) → HaveContent memory (without_volumes olds.now known) kept → (D.state disk.old).tells ≡ true → Elapses (Keeps kept) (D.state disk.old) (D.state disk.new) }

    ensures known { (memory : Contents) (known : List KnownVolume) (tenure fence : ℕ) → EachImage (D.state disk.old) (HoldsKnown memory known tenure fence) → OnOk result (EachImage (D.state disk.new) (HoldsKnown memory (without_volumes olds.now known) tenure fence)) }
    ensures gone { (D.state disk.old).tells ≡ true → OnOk result ((h : Listed) → IsIn olds.now h → (part : Part) → IsAbsent (part_name part h.ns h.start h.number) (D.state disk.new).files) }
    ensures memory { (D.state disk.old).tells ≡ true → IsErrOf result WantOfMemory → Becomes (λ files. files) (D.state disk.old) (D.state disk.new) }
    ensures others { (D.state disk.old).tells ≡ true → OthersStay (IsOfOne olds.now) (D.state disk.old).files (D.state disk.new).files }
    ensures segments { (D.state disk.old).tells ≡ true → numbers (D.state disk.new).files ≡ numbers (D.state disk.old).files }
    ensures log_stands { (log : LogEnd) → LogEndStands log (D.state disk.old) → LogEndStands log (D.state disk.new) }
    ensures room { 7 * length olds.now ≤ (D.state disk.old).spare → ¬ (IsErrOf result WantOfMemory) }
    ensures tells { (D.state disk.new).tells ≡ (D.state disk.old).tells }
    ensures faults { CountsFaults (IsErrOf result DiskFailed) (D.state disk.old).faults (D.state disk.new).faults }
{
    disk.reserve(CALLS * olds.len() as u64)?;
    for old in olds {
        remove_volume(disk, old.ns, old.start, old.number)?;
    }
    Ok(())
}
