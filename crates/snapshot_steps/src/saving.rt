ghost use Rattle.std.specs.Prelude.{◌≡◌, ◌<◌, ℕ, true, List, map, IfOk, IsErrOf};
ghost use Rattle.m3_model.specs.Contents.{Contents};
ghost use Rattle.m3_model.specs.declared.limits.TheConstants.{NUMBER_END};
ghost use Rattle.snapshot_files.specs.m3_outside.Causes.{CountsFaults};
ghost use Rattle.snapshot_files.specs.m3_outside.DiskState.{DiskState, EachImage, Elapses};
ghost use Rattle.snapshot_files.specs.m3_outside.DiskCalls.{LeavesFiles};
ghost use Rattle.snapshot_files.specs.m3_outside.declared.disk_err.DiskErr.TheVariants.{Failed as DiskFailed, Memory as WantOfMemory};
ghost use Rattle.snapshot_files.specs.commit_log.Contents as contents;
ghost use Rattle.snapshot_files.specs.commit_log.Contents.{numbers};
ghost use Rattle.snapshot_files.specs.commit_log.LogEnd.{LogEnd, LogEndStands};
ghost use Rattle.snapshot_files.specs.shard_files.Keeps.{Keeps};
ghost use Rattle.snapshot_files.specs.shard_files.Parts.{KnownVolume, IsNewestNumber};
ghost use Rattle.snapshot_files.specs.shard_files.Steps as steps;
ghost use Rattle.snapshot_files.specs.shard_files.Steps.{next_snapshot};
ghost use Rattle.volume_steps.specs.Known.{HoldsKnown, HaveContent};
ghost use Rattle.snapshot_steps.specs.Saved.{AreIn, AreSaveable, HoldsSaved, snapshot_of};

use m3_model::{Point, Seq};
use snapshot_files::of_commit_log::next_after;
use snapshot_files::of_m3_outside::{Disk, DiskErr, FileName};
use snapshot_files::{Snap, save};
use std::alloc::Global;

// The kinds of a snapshot's two files.
const DATA: u8 = 8;

const CHECKPOINT: u8 = 9;

// Whether it is the name of a snapshot's file of this kind.
fn is_snapshot_file(kind: u8, name: FileName) -> bool
    ensures { result ≡ steps.is_snapshot_file kind name }
{
    name.kind == kind && name.ns == 0 && name.block == 0
}

// The numbers of these snapshots, one for each of their files.
fn snapshot_numbers<D: Disk>(alloc: Global, disk: &mut D) -> Result<Vec<u64>, DiskErr>
    ensures leaves { LeavesFiles (IsErrOf result DiskFailed) (D.state disk.old) (D.state disk.new) }
    ensures ok { (D.state disk.old).tells ≡ true → IfOk result (λ v. contents.next_after v.items ≡ next_snapshot (D.state disk.old).files) }
{
    let names = disk.list()?;
    let data = names
        .as_slice()
        .iter()
        .copied()
        .filter(|name| is_snapshot_file(DATA, *name));
    let checkpoints = names
        .as_slice()
        .iter()
        .copied()
        .filter(|name| is_snapshot_file(CHECKPOINT, *name));
    Ok(
        data.chain(checkpoints)
            .map(|name| name.number)
            .collect(alloc)?,
    )
}

// The number for the next snapshot. Where that would be `NUMBER_END` or a higher one, memory is said to be wanted.
fn next_number<D: Disk>(alloc: Global, disk: &mut D) -> Result<u64, DiskErr>
    ensures leaves { LeavesFiles (IsErrOf result DiskFailed) (D.state disk.old) (D.state disk.new) }
    ensures ok { (D.state disk.old).tells ≡ true → IfOk result (λ n. n ≡ next_snapshot (D.state disk.old).files) }
    ensures limit { IfOk result (λ n. n < NUMBER_END) }
{
    let numbers = snapshot_numbers(alloc, disk)?;
    match next_after(&numbers) {
        None => Err(DiskErr::Memory),
        Some(next) => Ok(next),
    }
}

/// Saves a snapshot with this tenure, this fence and these points, beside which the log is needed from the segment `first` on, and
/// gives its number: one above those of all snapshots of which a file is there. The points are just those in memory, the tenure
/// and the fence those of the files.
///
/// Its costs are those of `snapshot_files::save`, beside one listing of the files.
///
/// # Errors
///
/// A fault; the snapshot counts then, or doesn't. Want of memory, also where the number would be `NUMBER_END` or a higher one; the
/// snapshot doesn't count then. Files of a snapshot that doesn't count may stay in either case.
pub fn save_snapshot<D: Disk>(
    alloc: Global,
    disk: &mut D,
    tenure: u64,
    fence: u64,
    first: u64,
    points: Seq<Point>,
) -> Result<u64, DiskErr>
    requires { AreSaveable points }
    ensures number { (D.state disk.old).tells ≡ true → IfOk result (λ n. n ≡ next_snapshot (D.state disk.old).files) }
    ensures limit { IfOk result (λ n. n < NUMBER_END) }

    // A stop at any moment leaves all that is to be kept, the tenure and the fence.
    ensures any_moment { (kept memory : Contents) (known : List KnownVolume) → EachImage (D.state disk.old) (HoldsKnown memory known tenure fence) → AreIn memory points → HaveContent memory known kept → (D.state disk.old).tells ≡ true → Elapses (Keeps kept) (D.state disk.old) (D.state disk.new) }

    ensures saved { (memory : Contents) (known : List KnownVolume) → EachImage (D.state disk.old) (HoldsKnown memory known tenure fence) → AreIn memory points → IfOk result (λ n. EachImage (D.state disk.new) (HoldsSaved (snapshot_of n tenure fence first points) memory known tenure fence)) }
    ensures memory { (memory : Contents) (known : List KnownVolume) (t f : ℕ) → EachImage (D.state disk.old) (HoldsKnown memory known t f) → IsErrOf result WantOfMemory → EachImage (D.state disk.new) (HoldsKnown memory known t f) }
    ensures newest { (D.state disk.old).tells ≡ true → IsErrOf result WantOfMemory → (n : ℕ) → IsNewestNumber n (D.state disk.old).files → IsNewestNumber n (D.state disk.new).files }
    ensures segments { (D.state disk.old).tells ≡ true → numbers (D.state disk.new).files ≡ numbers (D.state disk.old).files }
    ensures log_stands { (log : LogEnd) → LogEndStands log (D.state disk.old) → LogEndStands log (D.state disk.new) }
    ensures tells { (D.state disk.new).tells ≡ (D.state disk.old).tells }
    ensures faults { CountsFaults (IsErrOf result DiskFailed) (D.state disk.old).faults (D.state disk.new).faults }
{
    let number = next_number(alloc, disk)?;
    let snap = Snap {
        number,
        tenure,
        fence,
        first,
        points,
    };
    save(alloc, disk, &snap)?;
    Ok(number)
}
