ghost use Rattle.std.specs.Prelude.{◌≡◌, true, None, max, length, OnOk, OnErr, IsErrOf};
ghost use Rattle.m3_model.specs.Contents.{raised};
ghost use Rattle.m3_outside.specs.declared.disk_err.DiskErr.TheVariants.{Failed as DiskFailed, Memory as WantOfMemory};
ghost use Rattle.m3_outside.specs.DiskState.{DiskState, Becomes};
ghost use Rattle.m3_outside.specs.Files.{Files};
ghost use Rattle.store_log.specs.listed_volumes.commit_log.Contents.{numbers};
ghost use Rattle.store_log.specs.listed_volumes.wire_bytes.Entries.{IsBounded};
ghost use Rattle.store_log.specs.listed_volumes.shard_files.Gains.{Brings, a_point, a_fence, a_tenure};
ghost use Rattle.store_log.specs.snapshot_steps.Counts.{AreCounted};
ghost use Rattle.store_log.specs.listed_volumes.Listed.{known_in};
ghost use Rattle.shard_store.specs.Stores.{IsKeptOn, joined_with};
ghost use Rattle.shard_store.specs.StoreParts.{IsCountedIn};

use m3_model::Point;
use m3_outside::{Disk, DiskErr};
use store_log::of_commit_log::Log;
use store_log::of_held_points::HeldPoints;
use store_log::of_listed_volumes::{ListedVolume, RowCache};
use store_log::of_snapshot_steps::Counts;
use store_log::of_wire_bytes::{put_fence, put_points, put_tenure};
use store_log::{append_entry, log_entry, ready_entry};

// What is in memory while a store is open.
#[derive(Drop)]
pub(crate) struct Opened {
    pub(crate) log: Log,
    // The points that no volume has.
    pub(crate) held: HeldPoints,
    // The volumes that count, by namespace, start and number.
    pub(crate) volumes: Vec<ListedVolume>,
    // Rows of these that were read for matches.
    pub(crate) cache: RowCache,
    pub(crate) tenure: u64,
    pub(crate) fence: u64,
    pub(crate) counts: Counts,
    // The bytes of the last entry.
    pub(crate) bytes: Vec<u8>,
}

impl Opened {
    // How many segments the log has.
    pub(crate) fn segments(&self) -> u64
        ensures { (files : Files) → AreCounted self.now.log self.now.counts.missing self.now.counts.snapshot files → result ≡ length (numbers files) }
    {
        let numbers = self.log.number().saturating_add(1);
        numbers.saturating_sub(self.counts.missing)
    }

    pub(crate) fn begin<D: Disk>(&mut self, disk: &mut D, tenure: u64) -> Result<(), DiskErr>
        requires kept { IsKeptOn self.old.log self.old.held (known_in self.old.volumes.items) self.old.tenure self.old.fence (D.state disk.old) }
        ensures kept { ¬ (IsErrOf result DiskFailed) → IsKeptOn self.new.log self.new.held (known_in self.new.volumes.items) self.new.tenure self.new.fence (D.state disk.new) }
        ensures unchanged { (D.state disk.old).tells ≡ true → IsErrOf result WantOfMemory → Becomes (λ files. files) (D.state disk.old) (D.state disk.new) }
        ensures ok { OnOk result ((self.new.tenure ≡ max self.old.tenure tenure) × (self.new.fence ≡ max self.old.fence tenure)) }
        ensures err { OnErr result ((self.new.tenure ≡ self.old.tenure) × (self.new.fence ≡ self.old.fence)) }
        ensures held { self.new.held ≡ self.old.held }
        ensures volumes { self.new.volumes ≡ self.old.volumes }
        ensures cache { self.new.cache ≡ self.old.cache }
        ensures counted { ¬ (IsErrOf result DiskFailed) → IsCountedIn self.old (D.state disk.old) → IsCountedIn self.new (D.state disk.new) }
        ensures disk { Brings (a_tenure tenure) result (D.state disk.old) (D.state disk.new) }
    {
        if tenure <= self.tenure {
            return Ok(());
        }
        self.bytes.clear();
        put_tenure(&mut self.bytes, tenure)?;
        log_entry(disk, &mut self.log, &self.bytes)?;
        self.tenure = tenure;
        self.fence = self.fence.max(tenure);
        Ok(())
    }

    pub(crate) fn fence<D: Disk>(&mut self, disk: &mut D, version: u64) -> Result<(), DiskErr>
        requires kept { IsKeptOn self.old.log self.old.held (known_in self.old.volumes.items) self.old.tenure self.old.fence (D.state disk.old) }
        ensures kept { ¬ (IsErrOf result DiskFailed) → IsKeptOn self.new.log self.new.held (known_in self.new.volumes.items) self.new.tenure self.new.fence (D.state disk.new) }
        ensures unchanged { (D.state disk.old).tells ≡ true → IsErrOf result WantOfMemory → Becomes (λ files. files) (D.state disk.old) (D.state disk.new) }
        ensures ok { OnOk result (self.new.fence ≡ max self.old.fence version) }
        ensures err { OnErr result (self.new.fence ≡ self.old.fence) }
        ensures tenure { self.new.tenure ≡ self.old.tenure }
        ensures held { self.new.held ≡ self.old.held }
        ensures volumes { self.new.volumes ≡ self.old.volumes }
        ensures cache { self.new.cache ≡ self.old.cache }
        ensures counted { ¬ (IsErrOf result DiskFailed) → IsCountedIn self.old (D.state disk.old) → IsCountedIn self.new (D.state disk.new) }
        ensures disk { Brings (a_fence version) result (D.state disk.old) (D.state disk.new) }
    {
        if version <= self.fence {
            return Ok(());
        }
        self.bytes.clear();
        put_fence(&mut self.bytes, version)?;
        log_entry(disk, &mut self.log, &self.bytes)?;
        self.fence = version;
        Ok(())
    }

    pub(crate) fn put<D: Disk>(&mut self, disk: &mut D, point: &Point) -> Result<(), DiskErr>
        requires kept { IsKeptOn self.old.log self.old.held (known_in self.old.volumes.items) self.old.tenure self.old.fence (D.state disk.old) }
        requires bounded { IsBounded point.now }
        ensures kept { ¬ (IsErrOf result DiskFailed) → IsKeptOn self.new.log self.new.held (known_in self.new.volumes.items) self.new.tenure self.new.fence (D.state disk.new) }
        ensures unchanged { (D.state disk.old).tells ≡ true → IsErrOf result WantOfMemory → Becomes (λ files. files) (D.state disk.old) (D.state disk.new) }
        ensures ok { OnOk result (self.new.held ≡ record { points = raised self.old.held.points point.now; room = None }) }
        ensures content { OnOk result (joined_with self.new.held.points (known_in self.new.volumes.items) ≡ raised (joined_with self.old.held.points (known_in self.old.volumes.items)) point.now) }
        ensures memory { IsErrOf result WantOfMemory → self.new.held ≡ self.old.held }
        ensures volumes { self.new.volumes ≡ self.old.volumes }
        ensures cache { self.new.cache ≡ self.old.cache }
        ensures tenure { self.new.tenure ≡ self.old.tenure }
        ensures fence { self.new.fence ≡ self.old.fence }
        ensures counted { ¬ (IsErrOf result DiskFailed) → IsCountedIn self.old (D.state disk.old) → IsCountedIn self.new (D.state disk.new) }
        ensures disk { Brings (a_point point.now) result (D.state disk.old) (D.state disk.new) }
    {
        self.bytes.clear();
        put_points(&mut self.bytes, &[point])?;
        self.held.room(point)?;
        if let Err(why) = ready_entry(disk, &mut self.log, self.bytes.len() as u32) {
            self.held.release(point);
            return Err(why);
        }
        // From here on no memory is wanted.
        append_entry(disk, &mut self.log, &self.bytes)?;
        self.held.put(point);
        Ok(())
    }
}
