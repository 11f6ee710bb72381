//! Disks in memory, of which some fail.
ghost use Rattle.std.specs.Prelude.{◌≡◌, IfOk};
ghost use Rattle.m3_outside.specs.Slots.{Out};
ghost use Rattle.m3_outside.specs.declared.slot.DiskSlot.{DiskSlot as AtSlot};
ghost use Rattle.mem_disk.specs.Slots.{held_of};

use m3_model::Memory;
use m3_outside::DiskSlot;
use mem_disk::{MemDisk, MemDisks};
use std::alloc::Global;

/// Puts a disk into a slot.
pub(crate) fn put(disks: &mut MemDisks, slot: DiskSlot, disk: MemDisk)
    requires { (slot : AtSlot) → ¬ (held_of disks.old slot ≡ Out) }
    ensures { (slot : AtSlot) → ¬ (held_of disks.new slot ≡ Out) }
{
    drop(disks.put(slot, disk));
}

/// Disks that never fail, but for that of this node for this shard: of its calls those that are listed fail, and after so many
/// others all, until it is restarted.
pub fn disks_with(
    alloc: Global,
    slot: (u8, u32),
    fail: &[u64],
    fuse: Option<u64>,
) -> Result<MemDisks, Memory>
    ensures { IfOk result (λ disks. (slot : AtSlot) → ¬ (held_of disks slot ≡ Out)) }
{
    let (node, shard) = slot;
    let disk = MemDisk::new(alloc, fail, fuse)?;
    let mut disks = MemDisks::new(alloc)?;
    put(&mut disks, DiskSlot { node, shard }, disk);
    Ok(disks)
}
