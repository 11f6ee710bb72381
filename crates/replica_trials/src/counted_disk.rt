//! A disk in memory whose calls are counted, and of which it is kept which blocks were read.
use m3_outside::{Disk, DiskErr, Failed, FileName, NameList};
use mem_disk::MemDisk;
use std::sync::atomic::{AtomicU64, Ordering};

/// The calls of disks, but for `faults`, and of which blocks below 6,400 files of volumes were read: bit i is that of the block that begins at
/// 100 i. They are atomics since a disk may go to another thread.
#[derive(Drop)]
pub struct Counts {
    calls: AtomicU64,
    blocks: AtomicU64,
}

impl Counts {
    /// Nothing so far.
    pub fn new() -> Counts {
        Counts {
            calls: AtomicU64::new(0),
            blocks: AtomicU64::new(0),
        }
    }

    fn note_call(&self) {
        self.calls.fetch_add(1, Ordering::SeqCst);
    }

    fn note_read(&self, name: FileName) {
        if 1 <= name.kind && name.kind <= 7 {
            let bit = 1u64.wrapping_shl((name.block / 100 % 64) as u32);
            self.blocks.fetch_or(bit, Ordering::SeqCst);
        }
    }

    /// The calls and the blocks so far, which are forgotten.
    pub fn take(&self) -> (u64, u64) {
        let calls = self.calls.swap(0, Ordering::SeqCst);
        (calls, self.blocks.swap(0, Ordering::SeqCst))
    }
}

/// Does as the disk within, and counts.
#[derive(Drop)]
pub struct CountedDisk<'a> {
    pub disk: MemDisk,
    pub counts: &'a Counts,
}

impl Disk for CountedDisk<'_> {
    ghost use Rattle.disk_content.specs.Images.{lawful as lawful_state};
    ghost use Rattle.mem_disk.specs.Parts.{state_of};

    ghost state = { λ d. state_of d.disk };

    ghost lawful = { λ d. lawful_state d.disk.now d.disk.past.items d.disk.schedule.faults d.disk.sound };

    fn reserve(&mut self, calls: u64) -> Result<(), DiskErr> {
        self.counts.note_call();
        self.disk.reserve(calls)
    }

    fn create(&mut self, name: FileName, size: u64) -> Result<(), DiskErr> {
        self.counts.note_call();
        self.disk.create(name, size)
    }

    fn write_at(&mut self, name: FileName, at: u64, bytes: &[u8]) -> Result<(), Failed> {
        self.counts.note_call();
        self.disk.write_at(name, at, bytes)
    }

    fn sync(&mut self, name: FileName) -> Result<(), Failed> {
        self.counts.note_call();
        self.disk.sync(name)
    }

    fn read(&mut self, name: FileName, at: u64, buf: &mut [u8]) -> Result<(), Failed> {
        self.counts.note_call();
        self.counts.note_read(name);
        self.disk.read(name, at, buf)
    }

    fn size(&mut self, name: FileName) -> Result<Option<u64>, Failed> {
        self.counts.note_call();
        self.disk.size(name)
    }

    fn remove(&mut self, name: FileName) -> Result<(), Failed> {
        self.counts.note_call();
        self.disk.remove(name)
    }

    fn list(&mut self) -> Result<NameList, DiskErr> {
        self.counts.note_call();
        self.disk.list()
    }

    fn restart(&mut self, pick: u64) -> Result<(), DiskErr> {
        self.counts.note_call();
        self.disk.restart(pick)
    }

    fn waits(&self) -> bool {
        self.disk.waits()
    }

    fn faults(&self) -> u64 {
        self.disk.faults()
    }
}
