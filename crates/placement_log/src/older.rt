//! The segments that a save makes needless.
ghost use Rattle.std.specs.Prelude.{◌≡◌, ◌-◌, true, map, IfOk, IsErrOf};
ghost use Rattle.m3_outside.specs.DiskState.{DiskState};
ghost use Rattle.m3_outside.specs.DiskCalls.{LeavesFiles};
ghost use Rattle.m3_outside.specs.declared.disk_err.DiskErr.TheVariants.{Failed as DiskFailed};
ghost use Rattle.commit_log.specs.Contents.{numbers};
ghost use Rattle.commit_log.specs.Segment.{segment};
ghost use Rattle.placement_log.specs.MetaHolds.{all_but_last};

use commit_log::{Segments, list_segments};
use m3_model::Memory;
use m3_outside::{Disk, DiskErr, FileName};
use std::alloc::Global;

fn segment_name(number: u64) -> FileName
    ensures { result ≡ segment number }
{
    FileName {
        kind: 0,
        ns: 0,
        block: 0,
        number,
    }
}

// The names of the segments of these numbers.
fn names_of(alloc: Global, numbers: &[u64]) -> Result<Vec<FileName>, Memory>
    ensures { IfOk result (λ v. v.items ≡ map segment numbers.now) }
{
    let mut names = Vec::new(alloc);
    for number in numbers {
        names.push(segment_name(*number))?;
    }
    Ok(names)
}

/// The names of all segments of the disk but the last.
pub(crate) fn older_segments<D: Disk>(alloc: Global, disk: &mut D) -> Result<Vec<FileName>, DiskErr>
    ensures leaves { LeavesFiles (IsErrOf result DiskFailed) (D.state disk.old) (D.state disk.new) }
    ensures ok { (D.state disk.old).tells ≡ true → IfOk result (λ v. v.items ≡ map segment (all_but_last (numbers (D.state disk.old).files))) }
{
    let Segments { numbers, .. } = list_segments(alloc, disk)?;
    let mut numbers = numbers.into_vec();
    numbers.pop();
    Ok(names_of(alloc, &numbers)?)
}
