ghost use Rattle.std.specs.Prelude.{◌≡◌, ◌≤◌, [], true, false, OnOk, OnErr, ◌+◌, length, map, max, MatchOption, vec_len, vec_capacity};
ghost use Rattle.std.specs.FinMap as finite;
ghost use Rattle.m3_outside.specs.Files.{IsInside};
ghost use Rattle.disk_content.specs.Tables.{range_in, with_bytes, copied_bytes};
ghost use Rattle.disk_content.specs.Writes.{is_other};
ghost use Rattle.disk_content.specs.Undo.{entries_of_others, whole, AllLieIn, undo_after, undo_without, unwound};
ghost use Rattle.disk_content.specs.Picks.{picked_files};

use crate::file_bytes::{Copied, FileBytes, copy_of};
use crate::file_table::FileTable;
use crate::picks::apply;
use crate::unwind::unwind;
use m3_model::Memory;
use m3_outside::{FileName, Passed};
use std::alloc::Global;
use std::marker::Model;

// A write that no sync of its file has followed: what it replaced, where it is done, and else what it was to write. Where there
// was no memory for these bytes, they are lost: they exist for proofs alone.
#[derive(Drop)]
pub struct UndoEntry {
    pub name: FileName,
    pub at: usize,
    pub bytes: FileBytes,
    pub done: bool,
    pub lost: Option<Passed>,
}

// Such writes in their order, and room for more of them. Contracts see them as an `Undo`, in which no bytes are lost.
#[derive(Drop)]
pub struct UndoLog {
    alloc: Global,
    entries: Vec<UndoEntry>,
    // Vectors of dropped entries, whose memory later ones use again.
    buffers: Vec<Vec<u8>>,
    room: usize,
}

impl Model for UndoLog {
    ghost use Rattle.std.specs.Prelude.{◌≤◌, ◌+◌, map, vec_len, vec_capacity};
    ghost use Rattle.disk_content.specs.Undo.{Undo, whole};

    ghost Value = { Undo };

    ghost view = { λ u. record { entries = map whole u.entries.items; room = u.room } };

    ghost invariant = { λ u. vec_len u.entries + u.room ≤ vec_capacity u.entries };
}

// For how many vectors of dropped entries there is room.
const BUFFERS: usize = 8;

// How many bytes such a vector has at most.
const BUFFER_BYTES: usize = 4_096;

// Whether two names are two.
fn is_other(name: FileName, other: FileName) -> bool
    ensures { result ≡ is_other name other }
{
    name != other
}

// Whether bytes of one of the entries are lost.
fn has_lost(entries: &[UndoEntry]) -> bool
    ensures { result ≡ false → map whole entries.now ≡ entries.now }
{
    for entry in entries {
        if entry.lost.is_some() {
            return true;
        }
    }
    false
}

// Keeps the memory of a dropped entry for a later one, where it is small and there is room for it.
fn keep_buffer(buffers: &mut Vec<Vec<u8>>, bytes: Vec<u8>) {
    if bytes.capacity() > BUFFER_BYTES || buffers.len() >= buffers.capacity() {
        return;
    }
    buffers.push_reserved(bytes);
}

// Takes the last entry out, where it is one of this file.
fn pop_of(entries: &mut Vec<UndoEntry>, name: FileName) -> Option<UndoEntry>
    ensures others { entries_of_others name entries.new.items ≡ entries_of_others name entries.old.items }
    ensures len { MatchOption result (vec_len entries.new ≡ vec_len entries.old) (λ _. vec_len entries.new + 1 ≡ vec_len entries.old) }
    ensures capacity { vec_capacity entries.new ≡ vec_capacity entries.old }
{
    let last = entries.last()?;
    if is_other(name, last.name) {
        return None;
    }
    entries.pop()
}

// Drops the entries of a file that are left between those of others.
fn drop_between(entries: &mut Vec<UndoEntry>, name: FileName)
    ensures others { entries.new.items ≡ entries_of_others name entries.old.items }
    ensures len { vec_len entries.new ≤ vec_len entries.old }
    ensures capacity { vec_capacity entries.new ≡ vec_capacity entries.old }
{
    if entries.is_empty() {
        return;
    }
    entries.retain(|entry| is_other(name, entry.name));
}

impl UndoLog {
    pub fn new(alloc: Global) -> UndoLog
        ensures { result ≡ record { entries = []; room = 0 } }
    {
        UndoLog {
            alloc,
            entries: Vec::new(alloc),
            buffers: Vec::new(alloc),
            room: 0,
        }
    }

    // For how many calls that change files there is room.
    pub fn room(&self) -> usize
        ensures { result ≡ self.now.room }
    {
        self.room
    }

    // Makes room for the entries of so many calls that change files.
    pub fn make_room(&mut self, calls: usize) -> Result<(), Memory>
        ensures ok { OnOk result (self.new ≡ record self.old { room = max self.old.room calls }) }
        ensures err { OnErr result (self.new ≡ self.old) }
    {
        let room = self.room.max(calls);
        self.entries.reserve(room)?;
        if self.buffers.is_empty() {
            self.buffers.reserve(BUFFERS)?;
        }
        self.room = room;
        Ok(())
    }

    // A vector whose memory is used again, or that has none.
    fn take_buffer(&mut self) -> Vec<u8>
        ensures { self.new ≡ self.old }
    {
        match self.buffers.pop() {
            Some(buffer) => buffer,
            None => Vec::new(self.alloc),
        }
    }

    fn push(&mut self, name: FileName, at: usize, copy: Copied, done: bool)
        requires { 1 ≤ self.old.room }
        ensures { self.new ≡ undo_after name at (copied_bytes copy.bytes copy.lost) done self.old }
    {
        self.entries.push_reserved(UndoEntry {
            name,
            at,
            bytes: copy.bytes,
            done,
            lost: copy.lost,
        });
        self.room -= 1;
    }

    // Does a write, and adds what it replaced. Uses up room for one call, as the two below.
    pub fn write(&mut self, files: &mut FileTable, name: FileName, at: usize, bytes: &[u8])
        requires inside { IsInside name at (length bytes.now) files.old }
        requires room { 1 ≤ self.old.room }
        ensures files { files.new ≡ with_bytes name at bytes.now files.old }
        ensures after { self.new ≡ undo_after name at (range_in at (length bytes.now) (finite.get files.old name)) true self.old }
    {
        let buffer = self.take_buffer();
        let replaced = files.replace(self.alloc, name, at, bytes, buffer);
        self.push(name, at, replaced, true);
    }

    // Adds a write that wasn't done.
    pub fn add_failed(&mut self, name: FileName, at: usize, bytes: &[u8])
        requires { 1 ≤ self.old.room }
        ensures { self.new ≡ undo_after name at bytes.now false self.old }
    {
        let buffer = self.take_buffer();
        let copy = copy_of(self.alloc, buffer, bytes);
        self.push(name, at, copy, false);
    }

    // Drops the entries of a file.
    pub fn drop_file(&mut self, name: FileName)
        requires { 1 ≤ self.old.room }
        ensures { self.new ≡ undo_without name self.old }
    {
        while let Some(entry) = pop_of(&mut self.entries, name) {
            keep_buffer(&mut self.buffers, entry.bytes.into_vec());
        }
        drop_between(&mut self.entries, name);
        self.room -= 1;
    }

    // Drops all entries.
    fn clear(&mut self)
        ensures { self.new ≡ record self.old { entries = [] } }
    {
        while let Some(entry) = self.entries.pop() {
            keep_buffer(&mut self.buffers, entry.bytes.into_vec());
        }
    }

    // Undoes all writes, and does them again as the digits of the pick say. Wants memory only where bytes are lost, and then
    // changes nothing.
    pub fn restart(&mut self, files: &mut FileTable, pick: u64) -> Result<(), Memory>
        requires { AllLieIn self.old.entries files.old }
        ensures files { OnOk result (files.new ≡ (let synced = unwound self.old.entries files.old in picked_files pick synced.writes synced.files)) }
        ensures after { OnOk result (self.new ≡ record self.old { entries = [] }) }
        ensures err { OnErr result ((files.new ≡ files.old) × (self.new ≡ self.old)) }
    {
        if has_lost(&self.entries) {
            return Err(Memory);
        }
        unwind(files, &mut self.entries);
        apply(files, &mut self.entries, pick);
        self.clear();
        Ok(())
    }
}
