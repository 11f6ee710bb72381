ghost use Rattle.std.specs.Prelude.{◌≡◌, suc, ◌<◌, ◌↔◌, Some, IfSome, IsTrue};
ghost use Rattle.m3_outside.specs.Slots.{Unused, Out};
ghost use Rattle.disk_slots.specs.SlotStates as slots;

use m3_model::limits::{MOST_NODES, MOST_SHARDS};
use m3_outside::{Disk, DiskSlot};
use std::mem;

// What lies in a slot: nothing so far, a disk, or the count of faults of the disk that is out.
#[derive(Drop)]
pub enum SlotState<D> {
    Empty,
    Full(D),
    Lent(u64),
}

// The position of the meta disk, behind those of all nodes and shards.
const META_POSITION: usize = MOST_NODES * MOST_SHARDS as usize;

// How many slots there are.
pub const SLOTS: usize = META_POSITION + 1;

// The position of a slot.
pub fn position_of(slot: DiskSlot) -> Option<usize>
    ensures position { result ≡ slots.position_of slot }
    ensures below { IfSome result (λ i. i < suc slots.meta_position) }
{
    if (slot.node as usize) < MOST_NODES && slot.shard < MOST_SHARDS {
        Some(slot.node as usize * MOST_SHARDS as usize + slot.shard as usize)
    } else if slot == DiskSlot::META {
        Some(META_POSITION)
    } else {
        None
    }
}

impl<D: Disk> SlotState<D> {
    // How many faults of its disk are counted.
    pub fn counted(&self) -> u64
        ensures { result ≡ slots.counted_in D.state (Some self.now) }
    {
        match self {
            SlotState::Empty => 0,
            SlotState::Full(disk) => disk.faults(),
            SlotState::Lent(faults) => *faults,
        }
    }

    // Whether no disk was ever given back to it.
    pub fn is_unused(&self) -> bool
        ensures { IsTrue result ↔ (slots.held_in (Some self.now) ≡ Unused) }
    {
        matches!(self, SlotState::Empty)
    }

    // Whether its disk is out.
    pub fn is_lent(&self) -> bool
        ensures { IsTrue result ↔ (slots.held_in (Some self.now) ≡ Out) }
    {
        matches!(self, SlotState::Lent(_))
    }

    // Lends the disk that lies there, if one does. From now on it is out.
    pub fn lend(&mut self) -> Option<D>
        ensures disk { result ≡ slots.disk_in (slots.held_in (Some self.old)) }
        ensures out { slots.held_in (Some self.new) ≡ Out }
        ensures counted { slots.counted_in D.state (Some self.new) ≡ slots.counted_in D.state (Some self.old) }
    {
        let faults = self.counted();
        match mem::replace(self, SlotState::Lent(faults)) {
            SlotState::Full(disk) => Some(disk),
            SlotState::Empty | SlotState::Lent(_) => None,
        }
    }

    // Lays a disk there, and gives the one that lay there.
    pub fn put(&mut self, disk: D) -> Option<D>
        ensures here { self.new ≡ slots.full disk }
        ensures old { result ≡ slots.disk_in (slots.held_in (Some self.old)) }
    {
        match mem::replace(self, SlotState::Full(disk)) {
            SlotState::Full(old) => Some(old),
            SlotState::Empty | SlotState::Lent(_) => None,
        }
    }
}
