//! Disks in memory that fail now and then.
ghost use Rattle.std.specs.Prelude.{◌≡◌, IfOk};
ghost use Rattle.m3_outside.specs.Slots.{Out};
ghost use Rattle.m3_outside.specs.declared.slot.DiskSlot.{DiskSlot as AtSlot};
ghost use Rattle.mem_disk.specs.Slots.{held_of};

use crate::disks::put;
use cluster_words::Dice;
use m3_model::Memory;
use m3_outside::DiskSlot;
use mem_disk::{MemDisk, MemDisks};
use std::alloc::Global;

/// A disk of which some calls fail, and maybe all after so many, until it is restarted.
pub fn failing_disk(alloc: Global, dice: &mut Dice) -> Result<MemDisk, Memory> {
    let fail = [dice.roll(100), 100 + dice.roll(100), 200 + dice.roll(100)];
    let fuse = if dice.roll(3) == 0 {
        Some(dice.roll(300))
    } else {
        None
    };
    MemDisk::new(alloc, &fail, fuse)
}

/// Those of the nodes 0, 1 and 2 for shard 0 are such disks, made in this order by the generator of the seed; no other fails.
pub fn failing_disks(alloc: Global, seed: u64) -> Result<MemDisks, Memory>
    ensures { IfOk result (λ disks. (slot : AtSlot) → ¬ (held_of disks slot ≡ Out)) }
{
    let mut dice = Dice::new(seed);
    let mut disks = MemDisks::new(alloc)?;
    for node in 0..3u8 {
        let disk = failing_disk(alloc, &mut dice)?;
        put(&mut disks, DiskSlot { node, shard: 0 }, disk);
    }
    Ok(disks)
}
