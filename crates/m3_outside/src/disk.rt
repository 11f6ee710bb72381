ghost use Rattle.std.specs.Prelude.{◌≡◌};

use crate::disk_err::DiskErr;
use crate::failed::Failed;
use crate::file_name::FileName;
use crate::name_list::NameList;

/// Files that outlive a stop of the process, as the disk's state tells: what reads give, and what a stop may leave.
///
/// Between two syncs of a file each range that was written may hold any bytes after a stop, and all other bytes stay.
/// Making a file or taking it away is done or not where a stop falls within the call, and stands once it answered Ok.
/// What a call says of contents holds where the disk tells them; objects in memory do, real ones don't.
///
/// A call of type `Result<_, Failed>` takes no memory.
pub trait Disk: Drop {
    ghost use Rattle.std.specs.Prelude.{◌≡◌, ◌≤◌, length};
    ghost use Rattle.m3_outside.specs.Files.{IsAbsent, IsPresent, IsInside};
    ghost use Rattle.m3_outside.specs.DiskState.{DiskState, Told, IsLawfulDisk};
    ghost use Rattle.m3_outside.specs.DiskCalls.{Reserves, Creates, Writes, Syncs, Reads, Sizes, Removes, Lists, Restarts};

    /// What the disk holds, what a stop may leave of it, its room and its count of faults.
    ghost state: { Self → DiskState };

    /// Makes room: so many writes, syncs and removals take no memory. Where there is as much room already, it takes none
    /// itself.
    ///
    /// # Errors
    ///
    /// A fault, or want of memory where there was less room. Files and images stay.
    fn reserve(&mut self, calls: u64) -> Result<(), DiskErr>
        ensures { Reserves calls result (state self.old) (state self.new) };

    /// Makes a file of `size` zeros, which is there for good once the call answered Ok.
    ///
    /// # Errors
    ///
    /// A fault, after which the file is there or not, as reads tell. Want of memory, after which it is not.
    fn create(&mut self, name: FileName, size: u64) -> Result<(), DiskErr>
        requires { Told (state self.old) (IsAbsent name) }
        ensures { Creates name size result (state self.old) (state self.new) };

    /// Writes over a part of a file, and uses up room for one call.
    ///
    /// # Errors
    ///
    /// A fault, after which reads of the range may give any bytes. The write is pending all the same.
    fn write_at(&mut self, name: FileName, at: u64, bytes: &[u8]) -> Result<(), Failed>
        requires inside { Told (state self.old) (IsInside name at (length bytes.now)) }
        requires room { 1 ≤ (state self.old).spare }
        ensures { Writes name at bytes.now result (state self.old) (state self.new) };

    /// Syncs a file: from now on a stop leaves of it what a read gives. Uses up room for one call.
    ///
    /// # Errors
    ///
    /// A fault, after which what was pending is so still.
    fn sync(&mut self, name: FileName) -> Result<(), Failed>
        requires present { Told (state self.old) (IsPresent name) }
        requires room { 1 ≤ (state self.old).spare }
        ensures { Syncs name result (state self.old) (state self.new) };

    /// Fills `buf` with the bytes of a file from `at` on.
    ///
    /// # Errors
    ///
    /// A fault, after which `buf` may hold any bytes.
    fn read(&mut self, name: FileName, at: u64, buf: &mut [u8]) -> Result<(), Failed>
        requires { Told (state self.old) (IsInside name at (length buf.old)) }
        ensures { Reads name at buf.new result (state self.old) (state self.new) };

    /// The size of a file in bytes, or None where there is no such file.
    ///
    /// # Errors
    ///
    /// A fault.
    fn size(&mut self, name: FileName) -> Result<Option<u64>, Failed>
        ensures { Sizes name result (state self.old) (state self.new) };

    /// Takes a file away, for good once the call answered Ok. Uses up room for one call.
    ///
    /// # Errors
    ///
    /// A fault, after which the file is there or not, as reads tell.
    fn remove(&mut self, name: FileName) -> Result<(), Failed>
        requires present { Told (state self.old) (IsPresent name) }
        requires room { 1 ≤ (state self.old).spare }
        ensures { Removes name result (state self.old) (state self.new) };

    /// The names of all files, ascending.
    ///
    /// # Errors
    ///
    /// A fault or want of memory.
    fn list(&mut self) -> Result<NameList, DiskErr>
        ensures { Lists result (state self.old) (state self.new) };

    /// The process stops here and starts again: reads give one of the images from now on, which the pick chooses where
    /// the disk knows how. Then nothing is pending.
    ///
    /// # Errors
    ///
    /// A fault or want of memory. Files and images stay.
    fn restart(&mut self, pick: u64) -> Result<(), DiskErr>
        ensures { Restarts result (state self.old) (state self.new) };

    /// Whether its calls wait for a device, so that calls of several disks are better made side by side.
    fn waits(&self) -> bool;

    /// The count of faults. It never falls, and stays at its last value, 2^64 - 1.
    fn faults(&self) -> u64
        ensures { result ≡ (state self.now).faults };

    /// What holds of every disk: what reads give a stop may leave, and no moment is forgotten.
    ghost lawful: { (d : Self) → IsLawfulDisk (state d) };
}
