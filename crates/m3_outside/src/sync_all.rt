ghost use Rattle.std.specs.Prelude.{◌≡◌, true, OnOk, IsErrOf};
ghost use Rattle.m3_outside.specs.DiskState.{EachImage, Proceeds};
ghost use Rattle.m3_outside.specs.Files.{Stays};
ghost use Rattle.m3_outside.specs.declared.disk_err.DiskErr.TheVariants.{Failed as DiskFailed};

use crate::disk::Disk;
use crate::disk_err::DiskErr;

/// Syncs all files: a stop then leaves what reads give, and nothing else.
///
/// # Errors
///
/// A fault or want of memory. What a stop may leave is what it might have left before.
pub fn sync_all<D: Disk>(disk: &mut D) -> Result<(), DiskErr>
    ensures proceeds { Proceeds Stays (IsErrOf result DiskFailed) (D.state disk.old) (D.state disk.new) }
    ensures files { (D.state disk.old).tells ≡ true → (D.state disk.new).files ≡ (D.state disk.old).files }
    ensures synced { OnOk result (EachImage (D.state disk.new) (λ c. c ≡ (D.state disk.new).files)) }
{
    let names = disk.list()?;
    let names = names.as_slice();
    disk.reserve(names.len() as u64)?;
    for name in names {
        disk.sync(*name)?;
    }
    Ok(())
}
