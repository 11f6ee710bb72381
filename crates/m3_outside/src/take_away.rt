ghost use Rattle.std.specs.Prelude.{◌≡◌, ◌≤◌, ◌+◌, true, length, IsErr, OnOk};
ghost use Rattle.m3_outside.specs.DiskState.{Told, Proceeds, Becomes};
ghost use Rattle.m3_outside.specs.Removal.{without_files, MayTakeAway, HasTakenAway, AreRemovable};

use crate::disk::Disk;
use crate::failed::Failed;
use crate::file_name::FileName;

/// Takes these files away, in their order, and uses up room for one call each. Takes no memory.
///
/// # Errors
///
/// A fault, after which the first few of them are gone, or none, or all.
pub fn take_away<D: Disk>(disk: &mut D, names: &[FileName]) -> Result<(), Failed>
    requires present { Told (D.state disk.old) (AreRemovable names.now) }
    requires room { length names.now ≤ (D.state disk.old).spare }
    // A stop at any moment leaves all files but the first few of these.
    ensures proceeds { Proceeds (MayTakeAway names.now) (IsErr result) (D.state disk.old) (D.state disk.new) }
    ensures ok { (D.state disk.old).tells ≡ true → OnOk result (Becomes (without_files names.now) (D.state disk.old) (D.state disk.new)) }
    ensures files { (D.state disk.old).tells ≡ true → HasTakenAway names.now (D.state disk.old) (D.state disk.new) }
    ensures spare { (D.state disk.old).spare ≤ (D.state disk.new).spare + length names.now }
{
    for name in names {
        disk.remove(*name)?;
    }
    Ok(())
}
