ghost use Rattle.std.specs.Prelude.{◌≡◌, ◌↔◌, suc, vec_len, IfOk, IsTrue};
ghost use Rattle.disk_slots.specs.SlotStates.{meta_position, AreEmpty, HasSlot};

use crate::slot_state::{SLOTS, SlotState, position_of};
use m3_model::Memory;
use m3_outside::{Disk, DiskSlot};
use std::alloc::Global;

/// A slot for each node below 16 and each shard below 64, and one for the meta disk. Contracts see what a set of disks shows
/// (`depot_of`): what lies in each, how many faults of its disk are counted, and the count of all faults, which never falls
/// and stays at its last value, 2^64 - 1.
#[derive(Drop)]
pub struct DiskSlots<D> {
    slots: Vec<SlotState<D>>,
    faults: u64,
    ghost all_slots: { vec_len slots ≡ suc meta_position },
}

// All slots, in none of which a disk lies.
fn empty_slots<D: Disk>(alloc: Global) -> Result<Vec<SlotState<D>>, Memory>
    ensures len { IfOk result (λ slots. vec_len slots ≡ suc meta_position) }
    ensures empty { IfOk result (λ slots. AreEmpty slots.items) }
{
    let mut slots = Vec::new(alloc);
    for _ in 0..SLOTS {
        slots.push(SlotState::Empty)?;
    }
    Ok(slots)
}

/// Whether there is such a slot. Takes no memory.
pub fn has_slot(slot: DiskSlot) -> bool
    ensures { IsTrue result ↔ HasSlot slot }
{
    position_of(slot).is_some()
}

impl<D: Disk> DiskSlots<D> {
    ghost use Rattle.std.specs.Prelude.{◌≡◌, ◌↔◌, ◌≤◌, ◌-◌, Some, IfOk, IsTrue};
    ghost use Rattle.m3_outside.specs.Causes.{count_after, count_with};
    ghost use Rattle.m3_outside.specs.declared.slot.DiskSlot.{DiskSlot as AtSlot};
    ghost use Rattle.m3_outside.specs.DiskState.{IsEmpty};
    ghost use Rattle.m3_outside.specs.Slots.{Unused, Here, Out, MayGive, OthersStay};
    ghost use Rattle.disk_slots.specs.SlotStates.{HasSlot, disk_in};
    ghost use Rattle.disk_slots.specs.Slots.{depot_of};

    /// All slots, none of them used. Takes the memory for them, and none for their disks.
    ///
    /// # Errors
    ///
    /// Want of memory.
    pub fn new(alloc: Global) -> Result<DiskSlots<D>, Memory>
        ensures unused { IfOk result (λ d. (s : AtSlot) → (depot_of D.state d).held s ≡ Unused) }
        ensures faults { IfOk result (λ d. (depot_of D.state d).faults ≡ 0) }
    {
        let slots = empty_slots(alloc)?;
        Ok(DiskSlots { slots, faults: 0 })
    }

    /// Whether no disk was ever taken of it, and none lies there. Then no faults of one are counted. So it is where there is no
    /// such slot. Takes no memory, here and below.
    pub fn is_unused(&self, slot: DiskSlot) -> bool
        ensures unused { IsTrue result ↔ ((depot_of D.state self.now).held slot ≡ Unused) }
        ensures counted { IsTrue result → (depot_of D.state self.now).counted slot ≡ 0 }
    {
        match position_of(slot) {
            Some(position) => self.slots[position].is_unused(),
            None => true,
        }
    }

    /// Lends the disk that lies in a slot. From now on it is out.
    pub fn lend(&mut self, slot: DiskSlot) -> D
        requires used { ¬ ((depot_of D.state self.old).held slot ≡ Unused) }
        requires there { ¬ ((depot_of D.state self.old).held slot ≡ Out) }
        ensures disk { MayGive (λ d. IsEmpty (D.state d)) ((depot_of D.state self.old).held slot) result }
        ensures disk_faults { (D.state result).faults ≡ (depot_of D.state self.old).counted slot }
        ensures out { (depot_of D.state self.new).held slot ≡ Out }
        ensures others { OthersStay slot (depot_of D.state self.old).held (depot_of D.state self.new).held }
        ensures counted { (s : AtSlot) → (depot_of D.state self.new).counted s ≡ (depot_of D.state self.old).counted s }
        ensures faults { (depot_of D.state self.new).faults ≡ (depot_of D.state self.old).faults }
    {
        let Some(position) = position_of(slot) else {
            unreachable!()
        };
        match self.slots[position].lend() {
            Some(disk) => disk,
            None => unreachable!(),
        }
    }

    /// Lends a new disk, which is empty and has no faults, as that of a slot of which none was ever taken.
    pub fn lend_fresh(&mut self, slot: DiskSlot, disk: D) -> D
        requires slot { HasSlot slot }
        requires unused { (depot_of D.state self.old).held slot ≡ Unused }
        requires empty { IsEmpty (D.state disk) }
        requires no_faults { (D.state disk).faults ≡ 0 }
        ensures same { result ≡ disk }
        ensures disk { MayGive (λ d. IsEmpty (D.state d)) ((depot_of D.state self.old).held slot) result }
        ensures disk_faults { (D.state result).faults ≡ (depot_of D.state self.old).counted slot }
        ensures out { (depot_of D.state self.new).held slot ≡ Out }
        ensures others { OthersStay slot (depot_of D.state self.old).held (depot_of D.state self.new).held }
        ensures counted { (s : AtSlot) → (depot_of D.state self.new).counted s ≡ (depot_of D.state self.old).counted s }
        ensures faults { (depot_of D.state self.new).faults ≡ (depot_of D.state self.old).faults }
    {
        let Some(position) = position_of(slot) else {
            unreachable!()
        };
        drop(self.slots[position].lend());
        disk
    }

    /// Gives the disk of a slot back: the faults that it had since it was lent are counted, and no others.
    pub fn give(&mut self, slot: DiskSlot, disk: D)
        requires { (depot_of D.state self.old).held slot ≡ Out }
        ensures here { (depot_of D.state self.new).held slot ≡ Here disk }
        ensures others { OthersStay slot (depot_of D.state self.old).held (depot_of D.state self.new).held }
        ensures counted { (depot_of D.state self.new).counted slot ≡ (D.state disk).faults }
        ensures counted_others { OthersStay slot (depot_of D.state self.old).counted (depot_of D.state self.new).counted }
        ensures counts { (depot_of D.state self.new).faults ≡ count_with (depot_of D.state self.old).faults ((D.state disk).faults - (depot_of D.state self.old).counted slot) }
        ensures later { (depot_of D.state self.old).faults ≤ (depot_of D.state self.new).faults }
    {
        let Some(position) = position_of(slot) else {
            unreachable!()
        };
        let counted = self.slots[position].counted();
        self.faults = self
            .faults
            .saturating_add(disk.faults().saturating_sub(counted));
        drop(self.slots[position].put(disk));
    }

    /// Puts a disk into a slot, and gives the one that lay there. The disk itself comes back where there is no such
    /// slot, or its disk is out. Its faults count among all from now on.
    pub fn put(&mut self, slot: DiskSlot, disk: D) -> Option<D>
        ensures here { HasSlot slot → ¬ ((depot_of D.state self.old).held slot ≡ Out) → (depot_of D.state self.new).held slot ≡ Here disk }
        ensures old { HasSlot slot → ¬ ((depot_of D.state self.old).held slot ≡ Out) → result ≡ disk_in ((depot_of D.state self.old).held slot) }
        ensures back { (HasSlot slot → (depot_of D.state self.old).held slot ≡ Out) → (result ≡ Some disk) × (self.new ≡ self.old) }
        ensures others { OthersStay slot (depot_of D.state self.old).held (depot_of D.state self.new).held }
        ensures counted { HasSlot slot → ¬ ((depot_of D.state self.old).held slot ≡ Out) → (depot_of D.state self.new).counted slot ≡ (D.state disk).faults }
        ensures counted_others { OthersStay slot (depot_of D.state self.old).counted (depot_of D.state self.new).counted }
        ensures counts { HasSlot slot → ¬ ((depot_of D.state self.old).held slot ≡ Out) → (depot_of D.state self.new).faults ≡ count_with (depot_of D.state self.old).faults (D.state disk).faults }
    {
        let Some(position) = position_of(slot) else {
            return Some(disk);
        };
        if self.slots[position].is_lent() {
            return Some(disk);
        }
        self.faults = self.faults.saturating_add(disk.faults());
        self.slots[position].put(disk)
    }

    /// Counts a fault that is none of its disks'.
    pub fn count_fault(&mut self)
        ensures counts { (depot_of D.state self.new).faults ≡ count_after (depot_of D.state self.old).faults }
        ensures later { (depot_of D.state self.old).faults ≤ (depot_of D.state self.new).faults }
        ensures held { (s : AtSlot) → (depot_of D.state self.new).held s ≡ (depot_of D.state self.old).held s }
        ensures counted { (s : AtSlot) → (depot_of D.state self.new).counted s ≡ (depot_of D.state self.old).counted s }
    {
        self.faults = self.faults.saturating_add(1);
    }

    /// The count of all faults.
    pub fn faults(&self) -> u64
        ensures { result ≡ (depot_of D.state self.now).faults }
    {
        self.faults
    }
}
