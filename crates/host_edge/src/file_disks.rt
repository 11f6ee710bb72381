ghost use Rattle.std.specs.Prelude.{◌≡◌, IfOk};
ghost use Rattle.m3_outside.specs.DiskState.{IsEmpty};
ghost use Rattle.host_edge.specs.Silent.{silent};

use crate::file_disk::FileDisk;
use crate::folder::{make_folder, sync_folder};
use disk_slots::{DiskSlots, has_slot};
use file_names::{NAME_ROOM, add_folder};
use m3_outside::{DiskErr, DiskSlot, Disks};
use std::alloc::{AllocError, Global};
use std::fs;
use std::io::{self, ErrorKind};

/// A disk for each node below 16 and each shard below 64, and the meta disk, each in a folder of its own within one folder, which
/// no other program that locks it has.
#[derive(Drop)]
pub struct FileDisks {
    rt: HostRuntime,
    folder: String,
    // has the lock until it is dropped
    lock: fs::File,
    slots: DiskSlots<FileDisk>,
}

// Syncs the folder in which a folder is. Who found the folder there, and may not read the one that it is in, needn't.
fn sync_parent(rt: HostRuntime, folder: &str, made: bool) -> io::Result<()> {
    let mut parent = String::from_str(rt.alloc(), folder)?;
    parent.push_str("/..")?;
    match sync_folder(rt, parent.as_str()) {
        Err(error) if !made && error.kind() == ErrorKind::PermissionDenied => Ok(()),
        synced => synced,
    }
}

// Makes the folder where it isn't there, and locks it until the handle is dropped.
fn lock_folder(rt: HostRuntime, folder: &str) -> io::Result<fs::File> {
    let made = make_folder(rt, folder)?;
    sync_parent(rt, folder, made)?;
    let file = fs::File::open(&rt, folder)?;
    match file.try_lock() {
        Ok(()) => Ok(file),
        Err(error) => Err(error.into()),
    }
}

// The folder of a slot's disk.
fn folder_of(alloc: Global, folder: &str, slot: DiskSlot) -> Result<String, AllocError> {
    let mut path = String::from_str(alloc, folder)?;
    path.push_str("/")?;
    path.reserve(NAME_ROOM)?;
    add_folder(&mut path, slot);
    Ok(path)
}

// The disk of a slot of which no disk was taken yet.
fn open_disk(rt: HostRuntime, folder: &str, slot: DiskSlot) -> Result<FileDisk, DiskErr>
    ensures empty { IfOk result (λ d. IsEmpty (silent d)) }
    ensures faults { IfOk result (λ d. d.faults ≡ 0) }
{
    let folder = folder_of(rt.alloc(), folder, slot)?;
    match FileDisk::open(rt, folder) {
        Ok(disk) => Ok(disk),
        Err(error) if error.kind() == ErrorKind::OutOfMemory => Err(DiskErr::Memory),
        Err(_) => Err(DiskErr::Failed),
    }
}

impl FileDisks {
    ghost use Rattle.std.specs.Prelude.{◌≡◌, IfOk};
    ghost use Rattle.m3_outside.specs.declared.slot.DiskSlot.{DiskSlot as AtSlot};
    ghost use Rattle.m3_outside.specs.Slots.{Unused};
    ghost use Rattle.host_edge.specs.Slots.{depot_of};

    /// The disks in this folder, which is made where it isn't there, for its owner alone, and locked.
    ///
    /// # Errors
    ///
    /// `Failed` where the folder can't be made, opened or locked: so where another program has it. Want of memory.
    pub fn open(rt: HostRuntime, folder: &str) -> Result<FileDisks, DiskErr>
        ensures unused { IfOk result (λ d. (s : AtSlot) → (depot_of d).held s ≡ Unused) }
        ensures faults { IfOk result (λ d. (depot_of d).faults ≡ 0) }
    {
        let lock = match lock_folder(rt, folder) {
            Ok(lock) => lock,
            Err(error) if error.kind() == ErrorKind::OutOfMemory => return Err(DiskErr::Memory),
            Err(_) => return Err(DiskErr::Failed),
        };
        let folder = String::from_str(rt.alloc(), folder)?;
        let slots = DiskSlots::new(rt.alloc())?;
        Ok(FileDisks {
            rt,
            folder,
            lock,
            slots,
        })
    }
}

impl Disks for FileDisks {
    type D = FileDisk;

    ghost use Rattle.std.specs.Prelude.{◌≡◌, ◌-◌, IfOk, OnErr, IsErrOf};
    ghost use Rattle.m3_outside.specs.Causes.{CountsFaults, RoseBy};
    ghost use Rattle.m3_outside.specs.DiskState.{IsEmpty};
    ghost use Rattle.m3_outside.specs.Slots.{Here, Out, MayGive, OthersStay};
    ghost use Rattle.m3_outside.specs.declared.slot.DiskSlot.{DiskSlot as AtSlot};
    ghost use Rattle.host_edge.specs.Silent.{silent};
    ghost use Rattle.host_edge.specs.Slots.{depot_of};

    ghost depot = { depot_of };

    /// Takes the disk of a slot. Where none was taken of it before, what a stop left there of files that were being made
    /// is taken away first.
    fn take(&mut self, slot: DiskSlot) -> Result<FileDisk, DiskErr>
        requires { ¬ ((depot_of self.old).held slot ≡ Out) }
        ensures disk { IfOk result (MayGive (λ d. IsEmpty (silent d)) ((depot_of self.old).held slot)) }
        ensures disk_faults { IfOk result (λ d. (silent d).faults ≡ (depot_of self.old).counted slot) }
        ensures out { IfOk result (λ _. (depot_of self.new).held slot ≡ Out) }
        ensures refused { OnErr result ((depot_of self.new).held slot ≡ (depot_of self.old).held slot) }
        ensures others { OthersStay slot (depot_of self.old).held (depot_of self.new).held }
        ensures counted { (s : AtSlot) → (depot_of self.new).counted s ≡ (depot_of self.old).counted s }
        ensures cause { CountsFaults (IsErrOf result DiskErr.Failed) (depot_of self.old).faults (depot_of self.new).faults }
    {
        if !has_slot(slot) {
            return Err(DiskErr::Memory);
        }
        if self.slots.is_unused(slot) {
            let disk = match open_disk(self.rt, self.folder.as_str(), slot) {
                Ok(disk) => disk,
                Err(DiskErr::Memory) => return Err(DiskErr::Memory),
                Err(DiskErr::Failed) => {
                    self.slots.count_fault();
                    return Err(DiskErr::Failed);
                }
            };
            return Ok(self.slots.lend_fresh(slot, disk));
        }
        Ok(self.slots.lend(slot))
    }

    fn give(&mut self, slot: DiskSlot, disk: FileDisk)
        requires { (depot_of self.old).held slot ≡ Out }
        ensures here { (depot_of self.new).held slot ≡ Here disk }
        ensures others { OthersStay slot (depot_of self.old).held (depot_of self.new).held }
        ensures counted { (depot_of self.new).counted slot ≡ (silent disk).faults }
        ensures counted_others { OthersStay slot (depot_of self.old).counted (depot_of self.new).counted }
        ensures cause { CountsFaults ⊥ (depot_of self.old).faults (depot_of self.new).faults }
        ensures rose { RoseBy ((silent disk).faults - (depot_of self.old).counted slot) (depot_of self.old).faults (depot_of self.new).faults }
    {
        self.slots.give(slot, disk);
    }

    fn faults(&self) -> u64 {
        self.slots.faults()
    }
}
