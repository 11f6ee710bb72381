use crate::disk::MemDisk;
use disk_slots::{DiskSlots, has_slot};
use m3_model::Memory;
use m3_outside::{DiskErr, DiskSlot, Disks};
use std::alloc::Global;

/// Disks in memory that never fail: one for each node below 16 and each shard below 64, and the meta disk. Another
/// disk may be put in a slot, and only such disks have faults to count.
#[derive(Drop)]
pub struct MemDisks {
    alloc: Global,
    slots: DiskSlots<MemDisk>,
}

impl MemDisks {
    ghost use Rattle.std.specs.Prelude.{◌≡◌, Some, IfOk};
    ghost use Rattle.mem_disk.specs.Parts.{state_of};
    ghost use Rattle.m3_outside.specs.declared.slot.DiskSlot.{DiskSlot as AtSlot};
    ghost use Rattle.m3_outside.specs.Slots.{Unused, Here, Out, OthersStay};
    ghost use Rattle.disk_slots.specs.SlotStates.{HasSlot, disk_in};
    ghost use Rattle.m3_outside.specs.Causes.{count_with};
    ghost use Rattle.mem_disk.specs.Slots.{held_of, counted_of, faults_of};

    /// All slots, none of them used. Takes the memory for them, and none for their disks.
    ///
    /// # Errors
    ///
    /// Want of memory.
    pub fn new(alloc: Global) -> Result<MemDisks, Memory>
        ensures unused { IfOk result (λ d. (s : AtSlot) → held_of d s ≡ Unused) }
        ensures faults { IfOk result (λ d. faults_of d ≡ 0) }
    {
        let slots = DiskSlots::new(alloc)?;
        Ok(MemDisks { alloc, slots })
    }

    /// Puts a disk into a slot, and gives the one that lay there. The disk itself comes back where there is no such
    /// slot, or its disk is out. Its faults count among all from now on.
    pub fn put(&mut self, slot: DiskSlot, disk: MemDisk) -> Option<MemDisk>
        ensures here { HasSlot slot → ¬ (held_of self.old slot ≡ Out) → held_of self.new slot ≡ Here disk }
        ensures old { HasSlot slot → ¬ (held_of self.old slot ≡ Out) → result ≡ disk_in (held_of self.old slot) }
        ensures back { (HasSlot slot → held_of self.old slot ≡ Out) → (result ≡ Some disk) × (held_of self.new slot ≡ held_of self.old slot) }
        ensures others { OthersStay slot (held_of self.old) (held_of self.new) }
        ensures counted { HasSlot slot → ¬ (held_of self.old slot ≡ Out) → counted_of self.new slot ≡ (state_of disk).faults }
        ensures counted_others { OthersStay slot (counted_of self.old) (counted_of self.new) }
        ensures counts { HasSlot slot → ¬ (held_of self.old slot ≡ Out) → faults_of self.new ≡ count_with (faults_of self.old) (state_of disk).faults }
        ensures refused { (HasSlot slot → held_of self.old slot ≡ Out) → self.new ≡ self.old }
    {
        self.slots.put(slot, disk)
    }
}

impl Disks for MemDisks {
    type D = MemDisk;

    ghost use Rattle.std.specs.Prelude.{◌≡◌, ◌-◌, IfOk, OnErr, IsErrOf};
    ghost use Rattle.m3_outside.specs.Causes.{CountsFaults, RoseBy, count_with};
    ghost use Rattle.m3_outside.specs.DiskState.{IsEmpty};
    ghost use Rattle.m3_outside.specs.Slots.{Unused, Here, Out, MayGive, OthersStay};
    ghost use Rattle.m3_outside.specs.declared.slot.DiskSlot.{DiskSlot as AtSlot};
    ghost use Rattle.mem_disk.specs.Calls.{unfailing};
    ghost use Rattle.mem_disk.specs.Parts.{calls_of, state_of};
    ghost use Rattle.mem_disk.specs.Slots.{depot_of, held_of, counted_of, faults_of};

    ghost depot = { depot_of };

    /// Takes the disk of a slot. One that was never used gives a disk that never fails. This object has no faults of its own.
    fn take(&mut self, slot: DiskSlot) -> Result<MemDisk, DiskErr>
        requires { ¬ (held_of self.old slot ≡ Out) }
        // As of all disks.
        ensures disk { IfOk result (MayGive (λ d. IsEmpty (state_of d)) (held_of self.old slot)) }
        ensures disk_faults { IfOk result (λ d. (state_of d).faults ≡ counted_of self.old slot) }
        ensures out { IfOk result (λ _. held_of self.new slot ≡ Out) }
        ensures refused { OnErr result (held_of self.new slot ≡ held_of self.old slot) }
        ensures others { OthersStay slot (held_of self.old) (held_of self.new) }
        ensures counted { (s : AtSlot) → counted_of self.new s ≡ counted_of self.old s }
        ensures cause { CountsFaults (IsErrOf result DiskErr.Failed) (faults_of self.old) (faults_of self.new) }

        // A new disk fails at no call, and nothing is counted.
        ensures fresh { held_of self.old slot ≡ Unused → IfOk result (λ d. calls_of d ≡ unfailing) }
        ensures no_fault { ¬ (IsErrOf result DiskErr.Failed) }
        ensures counts { faults_of self.new ≡ faults_of self.old }
    {
        if !has_slot(slot) {
            return Err(DiskErr::Memory);
        }
        if self.slots.is_unused(slot) {
            let disk = MemDisk::new(self.alloc, &[], None)?;
            return Ok(self.slots.lend_fresh(slot, disk));
        }
        Ok(self.slots.lend(slot))
    }

    /// Gives the disk of a slot back: the faults that it had since it was taken are counted, and no others.
    fn give(&mut self, slot: DiskSlot, disk: MemDisk)
        requires { held_of self.old slot ≡ Out }
        // As of all disks.
        ensures here { held_of self.new slot ≡ Here disk }
        ensures others { OthersStay slot (held_of self.old) (held_of self.new) }
        ensures counted { counted_of self.new slot ≡ (state_of disk).faults }
        ensures counted_others { OthersStay slot (counted_of self.old) (counted_of self.new) }
        ensures cause { CountsFaults ⊥ (faults_of self.old) (faults_of self.new) }
        ensures rose { RoseBy ((state_of disk).faults - counted_of self.old slot) (faults_of self.old) (faults_of self.new) }

        // Exactly so many.
        ensures counts { faults_of self.new ≡ count_with (faults_of self.old) ((state_of disk).faults - counted_of self.old slot) }
    {
        self.slots.give(slot, disk);
    }

    fn faults(&self) -> u64 {
        self.slots.faults()
    }
}
