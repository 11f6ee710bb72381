//! What has expired, taken away.
ghost use Rattle.std.specs.Prelude.{◌≡◌, ◌-◌, ◌+◌, ◌*◌, ◌≤◌, ◌<◌, ◌↔◌, IsTrue, ℕ, true, List, None, filter, map, length, IfOk, IfErr, IfSome, IsSome, OnOk, IsErrOf};
ghost use Rattle.std.specs.FinMap as finite;
ghost use Rattle.m3_model.specs.Contents.{content_of};
ghost use Rattle.m3_outside.specs.DiskState.{DiskState, Becomes};
ghost use Rattle.m3_outside.specs.DiskCalls.{LeavesFiles};
ghost use Rattle.store_log.specs.listed_volumes.block_buffer.Held.{has_expired, without};
ghost use Rattle.store_log.specs.listed_volumes.wire_bytes.Volumes.{count_of};
ghost use Rattle.store_log.specs.listed_volumes.shard_files.FilesHold.{volume_points};
ghost use Rattle.store_log.specs.listed_volumes.shard_files.Keeps.{Rearranges};
ghost use Rattle.store_log.specs.listed_volumes.volume_bytes.Heads.{head_of};
ghost use Rattle.store_log.specs.listed_volumes.fileset_read.Volumes.{IsUndamaged};
ghost use Rattle.store_log.specs.listed_volumes.fileset_read.declared.file_err.FileErr.TheVariants as unread;
ghost use Rattle.store_log.specs.listed_volumes.Listed.{known_in};
ghost use Rattle.shard_store.specs.StoreParts.{IsOpenOn, content_of_opened, IsCachedIn, IsCountedIn};
ghost use Rattle.shard_store.specs.Ticks.{expired_in, has_outlived, is_outlived, keys_in, live_volumes, ticked_content};

use crate::fetch::heads_of;
use crate::moments::is_past;
use crate::opened::Opened;
use m3_model::{Pick, Rules, Seq, Series};
use m3_outside::Disk;
use std::alloc::Global;
use store_log::of_fileset_read::FileErr;
use store_log::of_joined_reads::{fetch_held, join_both};
use store_log::of_listed_volumes::{ListedVolume, read};
use store_log::of_volume_bytes::Head;
use store_log::of_volume_steps::remove_volumes;

// The device calls that the removal of a volume uses up room for.
const CALLS: u64 = 7;

// Whether the block of the volume has expired as a whole.
fn outlived(rules: &Rules, head: &Head) -> bool
    ensures { result ≡ is_outlived rules.entry.now (head_of head.now) }
{
    match rules.spaces.as_slice().get(head.ns as usize) {
        Some(space) => is_past(head.start, head.size, space.retention, rules.now),
        None => false,
    }
}

// The volumes whose blocks have expired as a whole.
fn going(alloc: Global, listed: &[ListedVolume], rules: &Rules) -> Result<Vec<Head>, FileErr>
    ensures err { IfErr result (λ why. why ≡ unread.Memory) }
    ensures ok { IfOk result (λ found. map head_of found.items ≡ map (λ k. k.head) (filter (has_outlived rules.entry.now) (known_in listed.now))) }
{
    let mut found = heads_of(alloc, listed)?;
    found.retain(|head| outlived(rules, head));
    Ok(found)
}

// All others.
fn staying(alloc: Global, listed: &[ListedVolume], rules: &Rules) -> Result<Vec<Head>, FileErr>
    ensures err { IfErr result (λ why. why ≡ unread.Memory) }
    ensures ok { IfOk result (λ found. map head_of found.items ≡ map (λ k. k.head) (live_volumes rules.entry.now (known_in listed.now))) }
{
    let mut found = heads_of(alloc, listed)?;
    found.retain(|head| !outlived(rules, head));
    Ok(found)
}

// Takes the volumes off the list whose blocks have expired as a whole. Takes no memory.
fn forget(listed: &mut Vec<ListedVolume>, rules: &Rules)
    ensures { known_in listed.new.items ≡ live_volumes rules.entry.now (known_in listed.old.items) }
{
    listed.retain(|volume| !outlived(rules, &volume.head));
}

// The first time that hasn't expired, if it is a time.
fn first_live(retention: u64, now: u64) -> Option<u64>
    ensures { IfSome result (λ end. (t : ℕ) → IsTrue (expired_in retention now t) ↔ (t < end)) }
{
    if retention <= now {
        (now - retention).checked_add(1)
    } else {
        Some(0)
    }
}

// How many points the series have.
fn count(series: &[Series]) -> Option<u64>
    ensures { IfSome result (λ n. n ≡ count_of series.now) }
{
    let mut count: u64 = 0;
    for one in series {
        count = count.checked_add(one.points.len() as u64)?;
    }
    Some(count)
}

// The first count less the second, where there were few enough to count.
fn difference(more: Option<u64>, less: Option<u64>) -> Result<u64, FileErr>
    ensures ok { IfOk result (λ n. IfSome more (λ a. IfSome less (λ b. n ≡ a - b))) }
    ensures counted { IfOk result (λ n. IsSome more × IsSome less) }
    ensures err { IfErr result (λ why. why ≡ unread.Memory) }
{
    match (more, less) {
        (Some(more), Some(less)) => Ok(more.saturating_sub(less)),
        _ => Err(FileErr::Memory),
    }
}

impl Opened {
    // How many keys of the namespace with a time below this end are in memory or in a volume that goes, and in none that stays.
    fn lost_in<D: Disk>(
        &self,
        alloc: Global,
        disk: &mut D,
        rules: &Rules,
        ns: u8,
        end: u64,
        goes: &[Head],
        stays: &[Head],
    ) -> Result<u64, FileErr>
        requires kept { IsOpenOn self.now (D.state disk.old) }
        requires goes { map head_of goes.now ≡ map (λ k. k.head) (filter (has_outlived rules.now) (known_in self.now.volumes.items)) }
        requires stays { map head_of stays.now ≡ map (λ k. k.head) (live_volumes rules.now (known_in self.now.volumes.items)) }
        ensures lost { (D.state disk.old).tells ≡ true → IfOk result (λ n. n + keys_in (content_of (volume_points (live_volumes rules.entry.now (known_in self.now.volumes.items)))) ns end ≡ keys_in (content_of_opened self.now) ns end) }
        ensures leaves { LeavesFiles (IsErrOf result unread.Disk) (D.state disk.old) (D.state disk.new) }
        ensures sound { (D.state disk.old).tells ≡ true → IfErr result IsUndamaged }
    {
        let every = Pick::Match {
            ns,
            wanted: Seq::new(alloc),
        };
        let here = fetch_held(&self.held, &every, 0, end)?;
        let there = read(alloc, disk, goes, &every, 0, end)?;
        let gone = join_both(alloc, here, there)?;
        if gone.as_slice().is_empty() {
            return Ok(0);
        }
        let left = read(alloc, disk, stays, &every, 0, end)?;
        let counted = count(left.as_slice());
        let all = join_both(alloc, gone, left)?;
        difference(count(all.as_slice()), counted)
    }

    // How many keys the content loses.
    fn lost<D: Disk>(
        &self,
        alloc: Global,
        disk: &mut D,
        rules: &Rules,
        goes: &[Head],
        stays: &[Head],
    ) -> Result<u64, FileErr>
        requires kept { IsOpenOn self.now (D.state disk.old) }
        requires goes { map head_of goes.now ≡ map (λ k. k.head) (filter (has_outlived rules.now) (known_in self.now.volumes.items)) }
        requires stays { map head_of stays.now ≡ map (λ k. k.head) (live_volumes rules.now (known_in self.now.volumes.items)) }
        ensures lost { (D.state disk.old).tells ≡ true → IfOk result (λ n. n ≡ finite.len (content_of_opened self.now) - finite.len (ticked_content rules.entry.now self.now.held.points (known_in self.now.volumes.items))) }
        ensures leaves { LeavesFiles (IsErrOf result unread.Disk) (D.state disk.old) (D.state disk.new) }
        ensures sound { (D.state disk.old).tells ≡ true → IfErr result IsUndamaged }
    {
        let mut lost: u64 = 0;
        for (position, space) in rules.spaces.as_slice().iter().enumerate() {
            let Ok(ns) = u8::try_from(position) else {
                return Err(FileErr::Memory);
            };
            let Some(end) = first_live(space.retention, rules.now) else {
                return Err(FileErr::Memory);
            };
            let more = self.lost_in(alloc, disk, rules, ns, end, goes, stays)?;
            let Some(sum) = lost.checked_add(more) else {
                return Err(FileErr::Memory);
            };
            lost = sum;
        }
        Ok(lost)
    }

    // The volumes that go, and how many keys the content loses. There is room for their removal then.
    fn ready_tick<D: Disk>(
        &self,
        alloc: Global,
        disk: &mut D,
        rules: &Rules,
    ) -> Result<(Vec<Head>, u64), FileErr>
        requires kept { IsOpenOn self.now (D.state disk.old) }
        ensures goes { IfOk result (λ r. map head_of r.0.items ≡ map (λ k. k.head) (filter (has_outlived rules.entry.now) (known_in self.now.volumes.items))) }
        ensures lost { (D.state disk.old).tells ≡ true → IfOk result (λ r. r.1 ≡ finite.len (content_of_opened self.now) - finite.len (ticked_content rules.entry.now self.now.held.points (known_in self.now.volumes.items))) }
        ensures room { IfOk result (λ r. 7 * length r.0.items ≤ (D.state disk.new).spare) }
        ensures leaves { LeavesFiles (IsErrOf result unread.Disk) (D.state disk.old) (D.state disk.new) }
        ensures sound { (D.state disk.old).tells ≡ true → IfErr result IsUndamaged }
    {
        let goes = going(alloc, &self.volumes, rules)?;
        let stays = staying(alloc, &self.volumes, rules)?;
        let lost = self.lost(alloc, disk, rules, &goes, &stays)?;
        disk.reserve(CALLS * goes.len() as u64)?;
        Ok((goes, lost))
    }

    // Takes away what has expired, in memory first. These are the volumes that go, and there is room for their removal.
    fn drop_expired<D: Disk>(
        &mut self,
        disk: &mut D,
        rules: &Rules,
        goes: &[Head],
    ) -> Result<(), FileErr>
        requires kept { IsOpenOn self.old (D.state disk.old) }
        requires goes { map head_of goes.now ≡ map (λ k. k.head) (filter (has_outlived rules.now) (known_in self.old.volumes.items)) }
        requires room { 7 * length goes.now ≤ (D.state disk.old).spare }
        ensures kept { OnOk result (IsOpenOn self.new (D.state disk.new)) }
        ensures ok { OnOk result ((self.new.held.points ≡ without self.old.held.points (has_expired rules.entry.now)) × (known_in self.new.volumes.items ≡ live_volumes rules.entry.now (known_in self.old.volumes.items))) }
        ensures err { IfErr result (λ why. why ≡ unread.Disk) }
        ensures numbers { (self.new.tenure ≡ self.old.tenure) × (self.new.fence ≡ self.old.fence) }
        ensures counted { IsCountedIn self.old (D.state disk.old) → IsCountedIn self.new (D.state disk.new) }
        ensures cached { IsCachedIn self.old (D.state disk.old) → IsCachedIn self.new (D.state disk.new) }
        ensures disk { Rearranges (without (content_of_opened self.old) (has_expired rules.entry.now)) (IsErrOf result unread.Disk) (D.state disk.old) (D.state disk.new) }
    {
        self.held.expire(rules);
        remove_volumes(disk, goes)?;
        forget(&mut self.volumes, rules);
        self.cache.forget_all(goes);
        Ok(())
    }

    /// Drops what has expired: points in memory, and volumes whose blocks have expired as a whole. Answers how many keys the
    /// content lost.
    ///
    /// # Errors
    ///
    /// As those of `Store::tick`.
    pub(crate) fn tick<D: Disk>(
        &mut self,
        alloc: Global,
        disk: &mut D,
        rules: &Rules,
    ) -> Result<u64, FileErr>
        requires kept { IsOpenOn self.old (D.state disk.old) }
        ensures kept { OnOk result (IsOpenOn self.new (D.state disk.new)) }
        ensures kept_still { IsErrOf result unread.Memory → IsOpenOn self.new (D.state disk.new) }
        ensures ok { OnOk result ((self.new.held.points ≡ without self.old.held.points (has_expired rules.entry.now)) × (known_in self.new.volumes.items ≡ live_volumes rules.entry.now (known_in self.old.volumes.items))) }
        ensures memory { IsErrOf result unread.Memory → (self.new.held ≡ self.old.held) × (self.new.volumes.items ≡ self.old.volumes.items) }
        ensures unchanged { (D.state disk.old).tells ≡ true → IsErrOf result unread.Memory → Becomes (λ files. files) (D.state disk.old) (D.state disk.new) }
        ensures numbers { (self.new.tenure ≡ self.old.tenure) × (self.new.fence ≡ self.old.fence) }
        ensures lost { (D.state disk.old).tells ≡ true → IfOk result (λ n. n ≡ finite.len (content_of_opened self.old) - finite.len (content_of_opened self.new)) }
        ensures sound { (D.state disk.old).tells ≡ true → IfErr result IsUndamaged }
        ensures counted { IsCountedIn self.old (D.state disk.old) → IsCountedIn self.new (D.state disk.new) }
        ensures cached { IsCachedIn self.old (D.state disk.old) → IsCachedIn self.new (D.state disk.new) }
        ensures disk { Rearranges (without (content_of_opened self.old) (has_expired rules.entry.now)) (IsErrOf result unread.Disk) (D.state disk.old) (D.state disk.new) }
    {
        let ready = self.ready_tick(alloc, disk, rules)?;
        let (goes, lost) = ready;
        // From here on no memory is wanted.
        self.drop_expired(disk, rules, &goes)?;
        Ok(lost)
    }
}
