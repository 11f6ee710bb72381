ghost use Rattle.std.specs.Prelude.{◌≡◌, ◌≤◌, [], None, OnOk, OnErr, IfOk, length, max};
ghost use Rattle.std.specs.FinMap as finite;
ghost use Rattle.m3_outside.specs.Files.{IsPresent, IsInside};

use crate::file_bytes::FileBytes;
use crate::file_table::FileTable;
use crate::undo_log::UndoLog;
use m3_model::Memory;
use m3_outside::FileName;
use std::alloc::Global;
use std::marker::Model;

// What a disk in memory holds at a moment: the files as reads give them, as they stand synced, and the writes between.
// Contracts see these three. Of what stands synced only the ranges are kept that the writes between have replaced.
#[derive(Drop)]
pub struct Content {
    seen: FileTable,
    undo: UndoLog,
}

impl Model for Content {
    ghost use Rattle.disk_content.specs.Contents.{Content as Held, content_code};
    ghost use Rattle.disk_content.specs.Undo.{AllLieIn, held_in};

    ghost Value = { Held };

    ghost coded = { content_code };

    ghost view = { λ c. held_in c.seen c.undo };

    ghost invariant = { λ c. AllLieIn c.undo.entries c.seen };
}

impl Content {
    ghost use Rattle.std.specs.Option.{option_copied};
    ghost use Rattle.disk_content.specs.Contents.{content_after_create, content_after_write, content_after_failed_write, content_after_sync, content_after_remove, content_after_restart};

    pub fn new(alloc: Global) -> Content
        ensures { result ≡ record { seen = finite.empty; synced = finite.empty; pending = record { writes = []; room = 0 } } }
    {
        Content {
            seen: FileTable::new(alloc),
            undo: UndoLog::new(alloc),
        }
    }

    // For how many calls that change files there is room.
    pub fn room(&self) -> usize
        ensures { result ≡ self.now.pending.room }
    {
        self.undo.room()
    }

    // Makes room for so many calls that change files. What a write replaces takes its memory when it comes.
    pub fn make_room(&mut self, calls: usize) -> Result<(), Memory>
        ensures ok { OnOk result (self.new ≡ record self.old { pending = record self.old.pending { room = max self.old.pending.room calls } }) }
        ensures err { OnErr result (self.new ≡ self.old) }
    {
        self.undo.make_room(calls)
    }

    // Makes a file of zeros.
    pub fn create(&mut self, alloc: Global, name: FileName, size: usize) -> Result<(), Memory>
        requires { finite.get self.old.seen name ≡ None }
        ensures ok { OnOk result (self.new ≡ content_after_create name size self.old) }
        ensures err { OnErr result (self.new ≡ self.old) }
    {
        self.seen.insert_zeros(alloc, name, size)?;
        Ok(())
    }

    // Writes over a part of a file. Isn't refused for want of memory: a restart is, where what this replaces couldn't be kept,
    // until the file is synced or taken away. Uses up room for one call, as the next three.
    pub fn write(&mut self, name: FileName, at: usize, bytes: &[u8])
        requires inside { IsInside name at (length bytes.now) self.old.seen }
        requires room { 1 ≤ self.old.pending.room }
        ensures { self.new ≡ content_after_write name at bytes.now self.old }
    {
        self.undo.write(&mut self.seen, name, at, bytes);
    }

    // A write that failed: it is pending, and reads stay. As to memory it is as one that didn't.
    pub fn fail_write(&mut self, name: FileName, at: usize, bytes: &[u8])
        requires inside { IsInside name at (length bytes.now) self.old.seen }
        requires room { 1 ≤ self.old.pending.room }
        ensures { self.new ≡ content_after_failed_write name at bytes.now self.old }
    {
        self.undo.add_failed(name, at, bytes);
    }

    // Takes what reads give of a file for synced. What its writes replaced is kept no longer.
    pub fn sync(&mut self, name: FileName)
        requires present { IsPresent name self.old.seen }
        requires room { 1 ≤ self.old.pending.room }
        ensures { self.new ≡ content_after_sync name self.old }
    {
        self.undo.drop_file(name);
    }

    // Takes a file away.
    pub fn remove(&mut self, name: FileName)
        requires { 1 ≤ self.old.pending.room }
        ensures { self.new ≡ content_after_remove name self.old }
    {
        self.seen.remove(name);
        self.undo.drop_file(name);
    }

    // Takes what the pick leaves for what reads give and for synced. Costs in proportion to the pending writes. Wants memory
    // only where there was none to keep what a pending write replaced.
    pub fn restart(&mut self, pick: u64) -> Result<(), Memory>
        ensures ok { OnOk result (self.new ≡ content_after_restart pick self.old) }
        ensures err { OnErr result (self.new ≡ self.old) }
    {
        self.undo.restart(&mut self.seen, pick)
    }

    // The bytes of a file as reads give it, in constant expected time.
    pub fn get(&self, name: FileName) -> Option<&FileBytes>
        ensures { option_copied result ≡ finite.get self.now.seen name }
    {
        self.seen.get(name)
    }

    // The names of all files, ascending.
    pub fn names(&self, alloc: Global) -> Result<Vec<FileName>, Memory>
        ensures { IfOk result (λ names. names.items ≡ finite.keys self.now.seen) }
    {
        self.seen.names(alloc)
    }
}
