ghost use Rattle.std.specs.Prelude.{◌≡◌, true, ℕ, List, length, take, Some, IfOk, IsErrOf, option_map};
ghost use Rattle.std.specs.FinMap.{get};
ghost use Rattle.shard_files.specs.m3_outside.Causes.{CountsFaults};
ghost use Rattle.shard_files.specs.m3_outside.DiskState.{DiskState, Told};
ghost use Rattle.shard_files.specs.m3_outside.DiskCalls.{LeavesFiles};
ghost use Rattle.shard_files.specs.m3_outside.declared.disk_err.DiskErr.TheVariants.{Failed as DiskFailed, Memory as WantOfMemory};

use shard_files::of_m3_model::Seq;
use shard_files::of_m3_outside::{Disk, DiskErr, FileName};
use std::alloc::Global;

// The bytes of a file of this size.
fn read_sized<D: Disk>(
    alloc: Global,
    disk: &mut D,
    name: FileName,
    size: u64,
) -> Result<Seq<u8>, DiskErr>
    requires { Told (D.state disk.old) (λ files. option_map length (get files name) ≡ Some size) }
    ensures leaves { LeavesFiles (IsErrOf result DiskFailed) (D.state disk.old) (D.state disk.new) }
    ensures ok { (D.state disk.old).tells ≡ true → IfOk result (λ bytes. (file : List ℕ) → get (D.state disk.old).files name ≡ Some file → bytes ≡ take size file) }
{
    let mut bytes = vec![in alloc; 0u8; size as usize]?;
    disk.read(name, 0, &mut bytes)?;
    Ok(Seq::from_vec(bytes))
}

/// The bytes of a file, and none where there is no such file.
///
/// # Errors
///
/// A fault, by which the disk's count rose in this call. Want of memory. After either the files, and what a stop leaves of
/// them, are as they were.
pub fn read_file<D: Disk>(
    alloc: Global,
    disk: &mut D,
    name: FileName,
) -> Result<Option<Seq<u8>>, DiskErr>
    ensures leaves { LeavesFiles (IsErrOf result DiskFailed) (D.state disk.old) (D.state disk.new) }
    ensures ok { (D.state disk.old).tells ≡ true → IfOk result (λ found. found ≡ get (D.state disk.old).files name) }
{
    let Some(size) = disk.size(name)? else {
        return Ok(None);
    };
    Ok(Some(read_sized(alloc, disk, name, size)?))
}
