ghost use Rattle.std.specs.Prelude.{◌≡◌, ◌<◌, true, map, IfOk, IsErrOf};
ghost use Rattle.shard_files.specs.m3_model.declared.limits.TheConstants.{NUMBER_END};
ghost use Rattle.shard_files.specs.m3_outside.DiskState.{DiskState};
ghost use Rattle.shard_files.specs.m3_outside.DiskCalls.{LeavesFiles};
ghost use Rattle.shard_files.specs.m3_outside.declared.disk_err.DiskErr.TheVariants.{Failed as DiskFailed};
ghost use Rattle.shard_files.specs.commit_log.Contents as contents;
ghost use Rattle.shard_files.specs.Steps as steps;
ghost use Rattle.shard_files.specs.Steps.{next_volume};

use shard_files::of_commit_log::next_after;
use shard_files::of_m3_outside::{Disk, DiskErr, FileName};
use std::alloc::Global;

// Whether the name is that of a file of some volume of this namespace and this start.
fn is_part(ns: u8, start: u64, name: FileName) -> bool
    ensures { result ≡ steps.is_part ns start name }
{
    1 <= name.kind && name.kind <= 7 && name.ns == ns && name.block == start
}

// The numbers of these volumes, one for each of their files.
fn volume_numbers<D: Disk>(
    alloc: Global,
    disk: &mut D,
    ns: u8,
    start: u64,
) -> Result<Vec<u64>, DiskErr>
    ensures leaves { LeavesFiles (IsErrOf result DiskFailed) (D.state disk.old) (D.state disk.new) }
    ensures ok { (D.state disk.old).tells ≡ true → IfOk result (λ v. contents.next_after v.items ≡ next_volume ns start (D.state disk.old).files) }
{
    let names = disk.list()?;
    let parts = names
        .as_slice()
        .iter()
        .copied()
        .filter(|name| is_part(ns, start, *name));
    Ok(parts.map(|name| name.number).collect(alloc)?)
}

/// The number for the next volume of this namespace and this start. Where that would be `NUMBER_END` or a higher one, memory is
/// said to be wanted.
pub(crate) fn next_number<D: Disk>(
    alloc: Global,
    disk: &mut D,
    ns: u8,
    start: u64,
) -> Result<u64, DiskErr>
    ensures leaves { LeavesFiles (IsErrOf result DiskFailed) (D.state disk.old) (D.state disk.new) }
    ensures ok { (D.state disk.old).tells ≡ true → IfOk result (λ n. n ≡ next_volume ns start (D.state disk.old).files) }
    ensures limit { IfOk result (λ n. n < NUMBER_END) }
{
    let numbers = volume_numbers(alloc, disk, ns, start)?;
    match next_after(&numbers) {
        None => Err(DiskErr::Memory),
        Some(next) => Ok(next),
    }
}
