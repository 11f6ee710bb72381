ghost use Rattle.std.specs.Prelude.{◌≡◌, ◌⊎◌, ℕ, ◌+◌, ◌<◌, ◌≤◌, Bool, true, false, ◌↔◌, IsTrue, length, IfOk, IsErr, IsErrOf, OnOk, OnErr};
ghost use Rattle.log_chunks.specs.m3_model.declared.limits.TheConstants.{NUMBER_END, SEGMENT_BYTES};
ghost use Rattle.log_chunks.specs.m3_outside.Files.{Files, files_with_zeros};
ghost use Rattle.log_chunks.specs.m3_outside.Causes.{CountsFaults};
ghost use Rattle.log_chunks.specs.m3_outside.DiskState.{DiskState, Told, Elapses, StepOf, Becomes};
ghost use Rattle.log_chunks.specs.m3_outside.DiskCalls.{LeavesFiles};
ghost use Rattle.log_chunks.specs.m3_outside.declared.disk_err.DiskErr.TheVariants.{Failed as DiskFailed, Memory as WantOfMemory};
ghost use Rattle.commit_log.specs.Segment.{segment, MayAdd, Adds, OthersStay};
ghost use Rattle.commit_log.specs.LogEnd.{NoneFrom, LogEndStands, IsReadyFor, MayBeginSegment, BeganOrNot};

use crate::chunk::{put_chunk, segment_name};
use log_chunks::HEAD_BYTES;
use log_chunks::of_m3_model::limits::{NUMBER_END, SEGMENT_BYTES};
use log_chunks::of_m3_outside::{Disk, DiskErr, Failed};
use std::marker::Model;

// The device calls of an append that use up room.
const CALLS: u64 = 5;

/// The end of a log on a disk, which the caller keeps beside it. Contracts see it as a `LogEnd`.
#[derive(Debug, Drop)]
pub struct Log {
    number: u64,
    at: u64,
    // Whether the bytes from the offset on are known to be zeros.
    clean: bool,
}

impl Model for Log {
    ghost use Rattle.commit_log.specs.LogEnd.{LogEnd};

    ghost Value = { LogEnd };

    ghost view = { λ l. record { number = l.number; at = l.at; clean = l.clean } };
}

impl Log {
    /// Begins the segment of this number, empty, as the last of the disk. From the number `NUMBER_END` on memory is said
    /// to be wanted.
    ///
    /// # Errors
    ///
    /// A fault, after which the segment is there or not, as reads tell. Want of memory, after which it is not.
    pub fn begin<D: Disk>(disk: &mut D, number: u64) -> Result<Log, DiskErr>
        requires { Told (D.state disk.old) (NoneFrom number) }
        ensures ok { IfOk result (λ log. log ≡ record { number = number; at = 0; clean = true }) }
        ensures stands { OnOk result (LogEndStands (record { number = number; at = 0; clean = true }) (D.state disk.new)) }
        ensures limit { OnOk result (number < NUMBER_END) }
        ensures made { (D.state disk.old).tells ≡ true → OnOk result (Becomes (files_with_zeros (segment number) SEGMENT_BYTES) (D.state disk.old) (D.state disk.new)) }
        ensures memory { (D.state disk.old).tells ≡ true → IsErrOf result WantOfMemory → Becomes (λ files. files) (D.state disk.old) (D.state disk.new) }
        ensures files { (D.state disk.old).tells ≡ true → BeganOrNot number (D.state disk.old) (D.state disk.new) }
        ensures any_moment { (D.state disk.old).tells ≡ true → Elapses (MayBeginSegment number) (D.state disk.old) (D.state disk.new) }
        ensures tells { (D.state disk.new).tells ≡ (D.state disk.old).tells }
        ensures faults { CountsFaults (IsErrOf result DiskFailed) (D.state disk.old).faults (D.state disk.new).faults }
    {
        if number >= NUMBER_END {
            return Err(DiskErr::Memory);
        }
        disk.create(segment_name(number), SEGMENT_BYTES)?;
        Ok(Log {
            number,
            at: 0,
            clean: true,
        })
    }

    /// The number of the segment that the log ends in. Takes no memory.
    pub fn number(&self) -> u64
        ensures { result ≡ self.now.number }
    {
        self.number
    }

    // Whether the segment has room for a chunk of so many bytes.
    fn has_room(&self, len: u32) -> bool
        requires { self.now.at ≤ SEGMENT_BYTES }
        ensures { IsTrue result ↔ ((self.now.clean ≡ true) × (self.now.at + 5 + len ≤ SEGMENT_BYTES)) }
    {
        self.clean && self.at + HEAD_BYTES + u64::from(len) <= SEGMENT_BYTES
    }

    // Begins the segment of the next number. After a fault this number isn't tried again; want of memory leaves all as it was.
    fn begin_next<D: Disk>(&mut self, disk: &mut D) -> Result<(), DiskErr>
        requires { LogEndStands self.old (D.state disk.old) }
        ensures stands { LogEndStands self.new (D.state disk.new) }
        ensures ok { OnOk result (self.new ≡ record { number = self.old.number + 1; at = 0; clean = true }) }
        ensures end { (self.new ≡ self.old) ⊎ ((self.new.number ≡ self.old.number + 1) × (self.new.at ≡ 0)) }
        ensures memory { IsErrOf result WantOfMemory → self.new ≡ self.old }
        ensures unchanged { (D.state disk.old).tells ≡ true → IsErrOf result WantOfMemory → Becomes (λ files. files) (D.state disk.old) (D.state disk.new) }
        ensures limit { OnOk result (self.new.number < NUMBER_END) }
        ensures low { self.old.number < NUMBER_END → self.new.number < NUMBER_END }
        ensures spare { (D.state disk.old).spare ≤ (D.state disk.new).spare }
        ensures files { (D.state disk.old).tells ≡ true → BeganOrNot (self.old.number + 1) (D.state disk.old) (D.state disk.new) }
        ensures any_moment { (D.state disk.old).tells ≡ true → Elapses (MayBeginSegment (self.old.number + 1)) (D.state disk.old) (D.state disk.new) }
        ensures tells { (D.state disk.new).tells ≡ (D.state disk.old).tells }
        ensures faults { CountsFaults (IsErrOf result DiskFailed) (D.state disk.old).faults (D.state disk.new).faults }
    {
        if self.number >= NUMBER_END - 1 {
            return Err(DiskErr::Memory);
        }
        let next = self.number + 1;
        match disk.create(segment_name(next), SEGMENT_BYTES) {
            Ok(()) => {
                self.move_to(next, true);
                Ok(())
            }
            Err(DiskErr::Memory) => Err(DiskErr::Memory),
            Err(DiskErr::Failed) => {
                self.move_to(next, false);
                Err(DiskErr::Failed)
            }
        }
    }

    // Goes on at the begin of the segment of this number.
    fn move_to(&mut self, number: u64, clean: bool)
        ensures { self.new ≡ record { number = number; at = 0; clean = clean } }
    {
        self.number = number;
        self.at = 0;
        self.clean = clean;
    }

    /// Makes room for one chunk of `len` bytes, in a fresh segment where the present one has too little or its end isn't
    /// known. A fresh one has the next number; where that would be `NUMBER_END`, memory is said to be wanted.
    ///
    /// # Errors
    ///
    /// A fault, after which all chunks stay, and the fresh segment is there or not. Want of memory, which leaves the log's
    /// end and all files as they were.
    pub fn ready<D: Disk>(&mut self, disk: &mut D, len: u32) -> Result<(), DiskErr>
        requires short { 5 + len ≤ SEGMENT_BYTES }
        requires stands { LogEndStands self.old (D.state disk.old) }
        ensures ok { OnOk result (IsReadyFor self.new len (D.state disk.new)) }
        ensures stands { LogEndStands self.new (D.state disk.new) }
        ensures same { self.old.clean ≡ true → self.old.at + 5 + len ≤ SEGMENT_BYTES → self.new ≡ self.old }
        ensures stays { self.old.clean ≡ true → self.old.at + 5 + len ≤ SEGMENT_BYTES → LeavesFiles (IsErrOf result DiskFailed) (D.state disk.old) (D.state disk.new) }
        ensures fresh { OnOk result ((self.new ≡ self.old) ⊎ (self.new ≡ record { number = self.old.number + 1; at = 0; clean = true })) }
        ensures end { (self.new ≡ self.old) ⊎ ((self.new.number ≡ self.old.number + 1) × (self.new.at ≡ 0)) }
        ensures memory { IsErrOf result WantOfMemory → self.new ≡ self.old }
        ensures unchanged { (D.state disk.old).tells ≡ true → IsErrOf result WantOfMemory → Becomes (λ files. files) (D.state disk.old) (D.state disk.new) }
        ensures limit { self.old.number < NUMBER_END → self.new.number < NUMBER_END }
        ensures files { (D.state disk.old).tells ≡ true → BeganOrNot (self.old.number + 1) (D.state disk.old) (D.state disk.new) }
        ensures any_moment { (D.state disk.old).tells ≡ true → Elapses (MayBeginSegment (self.old.number + 1)) (D.state disk.old) (D.state disk.new) }
        ensures tells { (D.state disk.new).tells ≡ (D.state disk.old).tells }
        ensures faults { CountsFaults (IsErrOf result DiskFailed) (D.state disk.old).faults (D.state disk.new).faults }
    {
        // The memory first: a segment that is begun uses up no room.
        disk.reserve(CALLS)?;
        if self.has_room(len) {
            return Ok(());
        }
        self.begin_next(disk)
    }

    /// Adds a chunk. From `Ok` on each stop leaves it. Takes no memory.
    ///
    /// # Errors
    ///
    /// A fault. The chunk may be there after a stop, or not, and `ready` begins a segment before the next one.
    pub fn append<D: Disk>(&mut self, disk: &mut D, chunk: &[u8]) -> Result<(), Failed>
        requires { IsReadyFor self.old (length chunk.now) (D.state disk.old) }

        // A stop at any moment leaves the chunks from before, with the new one or without, and all other files.
        ensures any_moment { (D.state disk.old).tells ≡ true → Elapses (MayAdd (segment self.old.number) chunk.now) (D.state disk.old) (D.state disk.new) }

        ensures acknowledged { (D.state disk.old).tells ≡ true → OnOk result ((c : Files) → (D.state disk.new).images c → StepOf (Adds (segment self.old.number) chunk.now) (D.state disk.old).images c) }

        ensures others { (D.state disk.old).tells ≡ true → OthersStay (segment self.old.number) (D.state disk.old).files (D.state disk.new).files }
        ensures stands { LogEndStands self.new (D.state disk.new) }
        ensures number { self.new.number ≡ self.old.number }
        ensures next { OnOk result (self.new ≡ record { number = self.old.number; at = self.old.at + 5 + length chunk.now; clean = true }) }
        ensures closed { OnErr result (self.new ≡ record self.old { clean = false }) }
        ensures spare { (D.state disk.old).spare ≤ (D.state disk.new).spare + 5 }
        ensures tells { (D.state disk.new).tells ≡ (D.state disk.old).tells }
        ensures faults { CountsFaults (IsErr result) (D.state disk.old).faults (D.state disk.new).faults }
    {
        let at = self.at;
        self.clean = false;
        put_chunk(disk, self.number, at, chunk)?;
        self.at = at + HEAD_BYTES + chunk.len() as u64;
        self.clean = true;
        Ok(())
    }
}
