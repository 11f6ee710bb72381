ghost use Rattle.std.specs.Prelude.{◌≡◌, ◌≢◌, ◌+◌, ◌≤◌, true, Option, Some, None, IfOk, IfErr, OnOk, IsErr, IsErrOf};
ghost use Rattle.m3_model.specs.declared.limits.TheConstants.{SEGMENT_BYTES};
ghost use Rattle.m3_outside.specs.Causes.{CountsFaults};
ghost use Rattle.m3_outside.specs.DiskState.{DiskState, Told, EachImage, Elapses, StepOf};
ghost use Rattle.m3_outside.specs.Files.{Files, Stays};
ghost use Rattle.m3_outside.specs.declared.disk_err.DiskErr.TheVariants.{Failed as DiskFailed};
ghost use Rattle.meta_bytes.specs.States.{IsMetaState};
ghost use Rattle.placement_log.specs.MetaHolds.{MetaHolds, KeepsLast, MaySave, Saves, Sweeps, MetaStands, HasRoom, IsReadyToSave, Appended};
ghost use Rattle.placement_log.specs.States.{MayBeState};
ghost use Rattle.placement_log.specs.Damage.{MayBeDamaged};
ghost use Rattle.placement_log.specs.declared.open_err.OpenErr.TheVariants as failures;

use crate::older::older_segments;
use crate::open_err::OpenErr;
use crate::payload::payload_of;
use crate::read::{LogContents, read_log};
use commit_log::Log;
use m3_model::MetaState;
use m3_model::limits::NUMBER_END;
use m3_outside::sync_all::sync_all;
use m3_outside::take_away::take_away;
use m3_outside::{Disk, DiskErr, Failed, FileName};
use std::alloc::Global;
use std::marker::Model;
use std::mem;

// The device calls of an append that use up room.
const APPEND_CALLS: u64 = 5;

/// The log of the meta disk, whose owner keeps it beside the disk: the last state that was saved stands. Contracts see it as a
/// `MetaEnd`.
#[derive(Drop)]
pub struct MetaLog {
    alloc: Global,
    // The number for the first segment of this run, which the first `ready` begins.
    next: u64,
    log: Option<Log>,
    // What `ready` prepared: the chunk, and the files that go once it stands.
    payload: Vec<u8>,
    older: Vec<FileName>,
}

impl Model for MetaLog {
    ghost use Rattle.placement_log.specs.MetaHolds.{MetaEnd};

    ghost Value = { MetaEnd };

    ghost view = { λ m. record { next = m.next; log = m.log; payload = m.payload.items; older = m.older.items } };
}

impl MetaLog {
    /// Syncs each file of the meta disk, and gives the last state that was saved, or none where none was. The log goes on in a
    /// fresh segment, which the first `ready` begins.
    ///
    /// # Errors
    ///
    /// A fault, by which the disk's count rose in this call. Damage: the lowest damaged segment, with the digest that is kept
    /// of a state and the one that is found, or with the offset at which no log of states goes on. Want of memory, also where
    /// the next segment would have the number `NUMBER_END` or a higher one. Reads give what they gave, and a stop leaves what
    /// it might have left before.
    pub fn open<D: Disk>(
        alloc: Global,
        disk: &mut D,
    ) -> Result<(MetaLog, Option<MetaState>), OpenErr>
        ensures ok { IfOk result (λ r. Told (D.state disk.new) (MetaHolds r.1)) }
        ensures only { IfOk result (λ _. EachImage (D.state disk.new) (λ c. c ≡ (D.state disk.new).files)) }
        ensures stands { IfOk result (λ r. MetaStands r.0 (D.state disk.new)) }

        // Whatever the disk is, it is a state that a cluster may have.
        ensures state { IfOk result (λ r. MayBeState r.1) }

        ensures err { IfErr result (λ e. Told (D.state disk.old) (λ files. MayBeDamaged files e)) }
        ensures any_moment { (D.state disk.old).tells ≡ true → Elapses Stays (D.state disk.old) (D.state disk.new) }
        ensures files { (D.state disk.old).tells ≡ true → (D.state disk.new).files ≡ (D.state disk.old).files }
        ensures tells { (D.state disk.new).tells ≡ (D.state disk.old).tells }
        ensures faults { CountsFaults (IsErrOf result failures.Disk) (D.state disk.old).faults (D.state disk.new).faults }
    {
        sync_all(disk)?;
        let LogContents { last, next } = read_log(alloc, disk)?;
        let log = MetaLog {
            alloc,
            next,
            log: None,
            payload: Vec::new(alloc),
            older: Vec::new(alloc),
        };
        Ok((log, last))
    }

    // Begins the first segment of this run. After a fault its number isn't tried again.
    fn begin_log<D: Disk>(&mut self, disk: &mut D) -> Result<(), DiskErr>
        requires none { self.old.log ≡ None }
        requires stands { MetaStands self.old (D.state disk.old) }
        ensures ok { OnOk result (self.new ≡ record self.old { log = Some (record { number = self.old.next; at = 0; clean = true }) }) }
        ensures stands { MetaStands self.new (D.state disk.new) }
        ensures any_moment { (D.state disk.old).tells ≡ true → Elapses KeepsLast (D.state disk.old) (D.state disk.new) }
        ensures tells { (D.state disk.new).tells ≡ (D.state disk.old).tells }
        ensures faults { CountsFaults (IsErrOf result DiskFailed) (D.state disk.old).faults (D.state disk.new).faults }
    {
        if self.next >= NUMBER_END {
            return Err(DiskErr::Memory);
        }
        match Log::begin(disk, self.next) {
            Ok(log) => {
                drop(mem::replace(&mut self.log, Some(log)));
                Ok(())
            }
            Err(DiskErr::Memory) => Err(DiskErr::Memory),
            Err(DiskErr::Failed) => {
                self.next += 1;
                Err(DiskErr::Failed)
            }
        }
    }

    // Begins the first segment of this run, where none is begun yet.
    fn begin_once<D: Disk>(&mut self, disk: &mut D) -> Result<(), DiskErr>
        requires stands { MetaStands self.old (D.state disk.old) }
        ensures begun { OnOk result (self.new.log ≢ None) }
        ensures stands { MetaStands self.new (D.state disk.new) }
        ensures any_moment { (D.state disk.old).tells ≡ true → Elapses KeepsLast (D.state disk.old) (D.state disk.new) }
        ensures tells { (D.state disk.new).tells ≡ (D.state disk.old).tells }
        ensures faults { CountsFaults (IsErrOf result DiskFailed) (D.state disk.old).faults (D.state disk.new).faults }
    {
        if self.log.is_some() {
            return Ok(());
        }
        self.begin_log(disk)
    }

    // Room for a chunk of so many bytes in the segment that has been begun.
    fn ready_log<D: Disk>(&mut self, disk: &mut D, len: u32) -> Result<(), DiskErr>
        requires short { 5 + len ≤ SEGMENT_BYTES }
        requires begun { self.old.log ≢ None }
        requires stands { MetaStands self.old (D.state disk.old) }
        ensures ok { OnOk result (HasRoom self.new len (D.state disk.new)) }
        ensures stands { MetaStands self.new (D.state disk.new) }
        ensures any_moment { (D.state disk.old).tells ≡ true → Elapses KeepsLast (D.state disk.old) (D.state disk.new) }
        ensures tells { (D.state disk.new).tells ≡ (D.state disk.old).tells }
        ensures faults { CountsFaults (IsErrOf result DiskFailed) (D.state disk.old).faults (D.state disk.new).faults }
    {
        match &mut self.log {
            Some(log) => log.ready(disk, len),
            None => unreachable!(),
        }
    }

    // Room for a chunk of so many bytes, in a segment of this run.
    fn make_room<D: Disk>(&mut self, disk: &mut D, len: u32) -> Result<(), DiskErr>
        requires short { 5 + len ≤ SEGMENT_BYTES }
        requires stands { MetaStands self.old (D.state disk.old) }
        ensures ok { OnOk result (HasRoom self.new len (D.state disk.new)) }
        ensures stands { MetaStands self.new (D.state disk.new) }
        ensures any_moment { (D.state disk.old).tells ≡ true → Elapses KeepsLast (D.state disk.old) (D.state disk.new) }
        ensures tells { (D.state disk.new).tells ≡ (D.state disk.old).tells }
        ensures faults { CountsFaults (IsErrOf result DiskFailed) (D.state disk.old).faults (D.state disk.new).faults }
    {
        self.begin_once(disk)?;
        self.ready_log(disk, len)
    }

    /// Takes all that a save of this state needs, a new segment too. The last saved state stays.
    ///
    /// # Errors
    ///
    /// A fault, by which the disk's count rose in this call. Want of memory. After either the last saved state stands, and a new
    /// segment is there or not.
    pub fn ready<D: Disk>(&mut self, disk: &mut D, state: &MetaState) -> Result<(), DiskErr>
        requires state { IsMetaState state.now }
        requires stands { MetaStands self.old (D.state disk.old) }
        ensures ok { OnOk result (IsReadyToSave self.new state.now (D.state disk.new)) }
        ensures stands { MetaStands self.new (D.state disk.new) }

        // A stop at any moment leaves the last saved state.
        ensures any_moment { (D.state disk.old).tells ≡ true → Elapses KeepsLast (D.state disk.old) (D.state disk.new) }

        ensures tells { (D.state disk.new).tells ≡ (D.state disk.old).tells }
        ensures faults { CountsFaults (IsErrOf result DiskFailed) (D.state disk.old).faults (D.state disk.new).faults }
    {
        let payload = payload_of(self.alloc, state)?;
        self.make_room(disk, payload.len() as u32)?;
        let older = older_segments(self.alloc, disk)?;
        disk.reserve(APPEND_CALLS + older.len() as u64)?;
        drop(mem::replace(&mut self.payload, payload));
        drop(mem::replace(&mut self.older, older));
        Ok(())
    }

    // Adds the payload of the state to the log.
    fn append<D: Disk>(&mut self, disk: &mut D, state: &MetaState) -> Result<(), Failed>
        requires { IsReadyToSave self.old state.now (D.state disk.old) }
        ensures any_moment { (D.state disk.old).tells ≡ true → Elapses (MaySave state.now) (D.state disk.old) (D.state disk.new) }
        ensures appended { OnOk result (Appended self.old self.new state.now (D.state disk.old) (D.state disk.new)) }
        ensures stands { MetaStands self.new (D.state disk.new) }
        ensures older { self.new.older ≡ self.old.older }
        ensures spare { (D.state disk.old).spare ≤ (D.state disk.new).spare + 5 }
        ensures tells { (D.state disk.new).tells ≡ (D.state disk.old).tells }
        ensures faults { CountsFaults (IsErr result) (D.state disk.old).faults (D.state disk.new).faults }
    {
        match &mut self.log {
            Some(log) => log.append(disk, &self.payload),
            None => unreachable!(),
        }
    }

    /// Saves the state: from `Ok` on each stop leaves it, and its segment alone. So the first save into a new segment takes the
    /// older ones away, after it is done. Takes no memory.
    ///
    /// # Errors
    ///
    /// A fault, by which the disk's count rose in this call. A stop leaves the state from before or this one.
    pub fn save<D: Disk>(&mut self, disk: &mut D, state: &MetaState) -> Result<(), Failed>
        requires { IsReadyToSave self.old state.now (D.state disk.old) }

        // A stop at any moment leaves the state from before or this one.
        ensures any_moment { (D.state disk.old).tells ≡ true → Elapses (MaySave state.now) (D.state disk.old) (D.state disk.new) }

        ensures acknowledged { (D.state disk.old).tells ≡ true → OnOk result ((c : Files) → (D.state disk.new).images c → StepOf (Saves state.now) (D.state disk.old).images c) }
        ensures swept { (D.state disk.old).tells ≡ true → OnOk result (Sweeps self.old (D.state disk.new)) }
        ensures stands { MetaStands self.new (D.state disk.new) }
        ensures tells { (D.state disk.new).tells ≡ (D.state disk.old).tells }
        ensures faults { CountsFaults (IsErr result) (D.state disk.old).faults (D.state disk.new).faults }
    {
        self.append(disk, state)?;
        take_away(disk, &self.older)
    }
}
