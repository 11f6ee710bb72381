ghost use Rattle.std.specs.Prelude.{◌≡◌, true, None, IfOk, IsErrOf};
ghost use Rattle.m3_outside.specs.declared.disk_err.DiskErr.TheVariants.{Failed as DiskFailed};

use m3_outside::{Disk, DiskErr, FileName};
use mem_disk::MemDisk;
use std::alloc::Global;

/// Asks an empty disk, of which the first call fails and no other, twice for the size of a file: whether the first call
/// failed, and what the second one answered. Only memory may be wanted.
pub fn ask_twice(alloc: Global, name: FileName) -> Result<(bool, Option<u64>), DiskErr>
    ensures answers { IfOk result (λ answers. answers ≡ (true, None)) }
    ensures memory { ¬ IsErrOf result DiskFailed }
{
    let mut disk = MemDisk::new(alloc, &[0], None)?;
    let failed = disk.size(name).is_err();
    let size = disk.size(name)?;
    Ok((failed, size))
}
