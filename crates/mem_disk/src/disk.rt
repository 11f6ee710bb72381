ghost use Rattle.std.specs.Prelude.{◌≡◌, ◌≤◌, ◌+◌, vec_len, vec_capacity, OnOk};
ghost use Rattle.std.specs.FinMap as finite;
ghost use Rattle.disk_content.specs.Images.{IsSound, IsSound-prop};

use crate::schedule::Schedule;
use disk_content::Content;
use m3_model::Memory;
use m3_outside::{Disk, DiskErr, Failed, FileName, NameList};
use std::alloc::Global;
use std::snapshot::Snapshot;

/// A disk in memory, which tells what it holds. What it held at past moments exists for proofs alone.
///
/// A file is found in constant expected time. A write costs in proportion to its bytes, a sync in proportion to the number
/// of pending writes, a removal in proportion to that number and to the file, a restart in proportion to the pending writes
/// and their bytes, and a list of the names the time to sort them. A file takes the memory of its bytes, and a pending write
/// that of as many again. Where there is none for a write it is done all the same, and a restart wants memory until the file is
/// synced or taken away.
#[derive(Drop)]
pub struct MemDisk {
    alloc: Global,
    now: Content,
    past: Vec<Snapshot<Content>>,
    schedule: Schedule,
    ghost sound: { IsSound now } by { IsSound-prop now },
    ghost past_room: { vec_len past + now.pending.room ≤ vec_capacity past },
}

// Takes the memory for one more past moment, beside those for which there is room.
fn make_room_for_moment(past: &mut Vec<Snapshot<Content>>, room: usize) -> Result<(), Memory>
    ensures ok { OnOk result (vec_len past.new + room + 1 ≤ vec_capacity past.new) }
    ensures items { past.new.items ≡ past.old.items }
    ensures len { vec_len past.new ≡ vec_len past.old }
    ensures capacity { vec_capacity past.old ≤ vec_capacity past.new }
{
    let Some(moments) = room.checked_add(1) else {
        return Err(Memory);
    };
    past.reserve(moments)?;
    Ok(())
}

impl MemDisk {
    ghost use Rattle.std.specs.Prelude.{◌≡◌, [], IfOk};
    ghost use Rattle.m3_outside.specs.DiskState.{IsEmpty};
    ghost use Rattle.mem_disk.specs.Parts.{content_of, calls_of, state_of};

    /// An empty disk without room. The calls numbered in `fail` fail, in any order, and with a fuse so many calls pass
    /// and all later ones fail, until a restart takes the fuse out. All calls of `Disk` but `faults` are numbered, from
    /// 0, those that are refused included; from number 2^64 - 1 on, each call has that number.
    ///
    /// # Errors
    ///
    /// Want of memory.
    pub fn new(alloc: Global, fail: &[u64], fuse: Option<u64>) -> Result<MemDisk, Memory>
        ensures empty { IfOk result (λ d. IsEmpty (state_of d)) }
        ensures content { IfOk result (λ d. content_of d ≡ record { seen = finite.empty; synced = finite.empty; pending = record { writes = []; room = 0 } }) }
        ensures calls { IfOk result (λ d. calls_of d ≡ record { fail = fail.now; fuse = fuse; calls = 0; faults = 0 }) }
    {
        let schedule = Schedule::new(alloc, fail, fuse)?;
        let now = Content::new(alloc);
        let past = Vec::new(alloc);
        Ok(MemDisk {
            alloc,
            now,
            past,
            schedule,
        })
    }
}

impl Disk for MemDisk {
    ghost use Rattle.std.specs.Prelude.{◌≡◌, ◌≤◌, false, length, if◌then◌else◌, is_ok, is_err};
    ghost use Rattle.m3_outside.specs.Files.{IsAbsent, IsPresent, IsInside};
    ghost use Rattle.m3_outside.specs.DiskState.{Told};
    ghost use Rattle.m3_outside.specs.DiskCalls.{Reserves, Creates, Writes, Syncs, Reads, Sizes, Removes, Lists, Restarts};
    ghost use Rattle.mem_disk.specs.Calls.{is_fault, CountsCall, CountsRestart};
    ghost use Rattle.disk_content.specs.Contents.{content_after_create, content_after_write, content_after_failed_write, content_after_sync, content_after_remove, content_after_restart};
    ghost use Rattle.disk_content.specs.Images.{disk_state, lawful as lawful_state};
    ghost use Rattle.mem_disk.specs.Parts.{content_of, calls_of, state_of, SameContent};

    ghost state = { λ d. disk_state d.now d.past.items d.schedule.faults };

    ghost lawful = { λ d. lawful_state d.now d.past.items d.schedule.faults d.sound };

    fn reserve(&mut self, calls: u64) -> Result<(), DiskErr>
        // As of every disk.
        ensures disk { Reserves calls result (state_of self.old) (state_of self.new) }

        // It fails exactly as it is to, and what it holds then.
        ensures calls { CountsCall (is_fault result) (calls_of self.old) (calls_of self.new) }
        ensures content { SameContent (content_of self.old) (content_of self.new) }
    {
        if self.schedule.next_fails() {
            return Err(DiskErr::Failed);
        }
        let calls = calls as usize;
        if calls <= self.now.room() {
            return Ok(());
        }
        self.past.reserve(calls)?;
        self.now.make_room(calls)?;
        Ok(())
    }

    fn create(&mut self, name: FileName, size: u64) -> Result<(), DiskErr>
        requires { Told (state_of self.old) (IsAbsent name) }

        // As of every disk.
        ensures disk { Creates name size result (state_of self.old) (state_of self.new) }

        // It fails exactly as it is to, and what it holds then.
        ensures calls { CountsCall (is_fault result) (calls_of self.old) (calls_of self.new) }
        ensures content { SameContent (if is_ok result then content_after_create name size (content_of self.old) else content_of self.old) (content_of self.new) }
    {
        if self.schedule.next_fails() {
            return Err(DiskErr::Failed);
        }
        make_room_for_moment(&mut self.past, self.now.room())?;
        let before = Snapshot::of(&self.now);
        self.now.create(self.alloc, name, size as usize)?;
        self.past.push_reserved(before);
        Ok(())
    }

    fn write_at(&mut self, name: FileName, at: u64, bytes: &[u8]) -> Result<(), Failed>
        requires inside { Told (state_of self.old) (IsInside name at (length bytes.now)) }
        requires room { 1 ≤ (state_of self.old).spare }

        // As of every disk.
        ensures disk { Writes name at bytes.now result (state_of self.old) (state_of self.new) }

        // It fails exactly as it is to, and what it holds then.
        ensures calls { CountsCall (is_err result) (calls_of self.old) (calls_of self.new) }
        ensures content { content_of self.new ≡ (if is_ok result then content_after_write name at bytes.now (content_of self.old) else content_after_failed_write name at bytes.now (content_of self.old)) }
    {
        let fails = self.schedule.next_fails();
        self.past.push_reserved(Snapshot::of(&self.now));
        if fails {
            self.now.fail_write(name, at as usize, bytes);
            return Err(Failed);
        }
        self.now.write(name, at as usize, bytes);
        Ok(())
    }

    fn sync(&mut self, name: FileName) -> Result<(), Failed>
        requires present { Told (state_of self.old) (IsPresent name) }
        requires room { 1 ≤ (state_of self.old).spare }

        // As of every disk.
        ensures disk { Syncs name result (state_of self.old) (state_of self.new) }

        // It fails exactly as it is to, and what it holds then.
        ensures calls { CountsCall (is_err result) (calls_of self.old) (calls_of self.new) }
        ensures content { content_of self.new ≡ (if is_ok result then content_after_sync name (content_of self.old) else content_of self.old) }
    {
        if self.schedule.next_fails() {
            return Err(Failed);
        }
        self.past.push_reserved(Snapshot::of(&self.now));
        self.now.sync(name);
        Ok(())
    }

    fn read(&mut self, name: FileName, at: u64, buf: &mut [u8]) -> Result<(), Failed>
        requires { Told (state_of self.old) (IsInside name at (length buf.old)) }

        // As of every disk.
        ensures disk { Reads name at buf.new result (state_of self.old) (state_of self.new) }

        // It fails exactly as it is to, and what it holds then.
        ensures calls { CountsCall (is_err result) (calls_of self.old) (calls_of self.new) }
        ensures content { content_of self.new ≡ content_of self.old }
    {
        if self.schedule.next_fails() {
            return Err(Failed);
        }
        if let Some(file) = self.now.get(name) {
            file.read(at as usize, buf);
        }
        Ok(())
    }

    fn size(&mut self, name: FileName) -> Result<Option<u64>, Failed>
        // As of every disk.
        ensures disk { Sizes name result (state_of self.old) (state_of self.new) }

        // It fails exactly as it is to, and what it holds then.
        ensures calls { CountsCall (is_err result) (calls_of self.old) (calls_of self.new) }
        ensures content { content_of self.new ≡ content_of self.old }
    {
        if self.schedule.next_fails() {
            return Err(Failed);
        }
        match self.now.get(name) {
            Some(file) => Ok(Some(file.len())),
            None => Ok(None),
        }
    }

    fn remove(&mut self, name: FileName) -> Result<(), Failed>
        requires present { Told (state_of self.old) (IsPresent name) }
        requires room { 1 ≤ (state_of self.old).spare }

        // As of every disk.
        ensures disk { Removes name result (state_of self.old) (state_of self.new) }

        // It fails exactly as it is to, and what it holds then.
        ensures calls { CountsCall (is_err result) (calls_of self.old) (calls_of self.new) }
        ensures content { content_of self.new ≡ (if is_ok result then content_after_remove name (content_of self.old) else content_of self.old) }
    {
        if self.schedule.next_fails() {
            return Err(Failed);
        }
        self.past.push_reserved(Snapshot::of(&self.now));
        self.now.remove(name);
        Ok(())
    }

    fn list(&mut self) -> Result<NameList, DiskErr>
        // As of every disk.
        ensures disk { Lists result (state_of self.old) (state_of self.new) }

        // It fails exactly as it is to, and what it holds then.
        ensures calls { CountsCall (is_fault result) (calls_of self.old) (calls_of self.new) }
        ensures content { content_of self.new ≡ content_of self.old }
    {
        if self.schedule.next_fails() {
            return Err(DiskErr::Failed);
        }
        let names = self.now.names(self.alloc)?;
        Ok(NameList::from_vec(names))
    }

    fn restart(&mut self, pick: u64) -> Result<(), DiskErr>
        // As of every disk.
        ensures disk { Restarts result (state_of self.old) (state_of self.new) }

        // It fails exactly as it is to, and what it holds then.
        ensures calls { CountsRestart (is_fault result) (is_ok result) (calls_of self.old) (calls_of self.new) }
        ensures content { content_of self.new ≡ (if is_ok result then content_after_restart pick (content_of self.old) else content_of self.old) }
    {
        if self.schedule.next_restart_fails() {
            return Err(DiskErr::Failed);
        }
        make_room_for_moment(&mut self.past, self.now.room())?;
        let before = Snapshot::of(&self.now);
        self.now.restart(pick)?;
        self.past.push_reserved(before);
        self.schedule.take_fuse_out();
        Ok(())
    }

    /// What is in memory is there at once.
    fn waits(&self) -> bool
        ensures { result ≡ false }
    {
        false
    }

    fn faults(&self) -> u64 {
        self.schedule.faults()
    }
}
