//! Blocks that have ended, written as volumes.
ghost use Rattle.std.specs.Prelude.{◌≡◌, ◌≢◌, ℕ, ◌+◌, ◌<◌, ◌^◌, true, false, List, Some, None, filter, map, length, slice_get, IfOk, IfErr, IfSome, OnOk, OnErr, IsErrOf};
ghost use Rattle.std.specs.List.{All};
ghost use Rattle.m3_model.specs.Answers.{HasPoint};
ghost use Rattle.m3_model.specs.Reads.{IsOrdered};
ghost use Rattle.m3_model.specs.declared.point.Matcher.{Matcher};
ghost use Rattle.m3_model.specs.declared.point.Pick.TheVariants as pick;
ghost use Rattle.m3_model.specs.declared.point.Point.{Point};
ghost use Rattle.m3_outside.specs.DiskState.{DiskState};
ghost use Rattle.m3_outside.specs.DiskCalls.{LeavesFiles};
ghost use Rattle.m3_outside.specs.declared.disk_err.DiskErr.TheVariants.{Failed as DiskFailed};
ghost use Rattle.store_log.specs.listed_volumes.series_slots.Ranges.{IsRangeOf};
ghost use Rattle.store_log.specs.listed_volumes.block_buffer.Blocks.{IsClosedBlocksOf};
ghost use Rattle.store_log.specs.listed_volumes.block_buffer.Held.{is_in_block, without};
ghost use Rattle.store_log.specs.listed_volumes.wire_bytes.Volumes.{IsVolume};
ghost use Rattle.store_log.specs.listed_volumes.shard_files.Keeps.{Rearranges};
ghost use Rattle.store_log.specs.listed_volumes.shard_files.Steps.{OthersStay, next_volume};
ghost use Rattle.store_log.specs.listed_volumes.volume_bytes.Heads.{head_of};
ghost use Rattle.store_log.specs.listed_volumes.fileset_read.Volumes.{IsUndamaged};
ghost use Rattle.store_log.specs.listed_volumes.fileset_read.declared.file_err.FileErr.TheVariants as unread;
ghost use Rattle.store_log.specs.listed_volumes.Blocks.{block_head};
ghost use Rattle.store_log.specs.listed_volumes.Known.{is_head_of, is_of};
ghost use Rattle.store_log.specs.snapshot_steps.volume_steps.Known.{HaveContent};
ghost use Rattle.store_log.specs.snapshot_steps.volume_steps.KnownLists.{IsOfOne, volume_of, with_volume, without_volumes};
ghost use Rattle.shard_store.specs.Blocks.{IsBlockJoin, IsOneVolume, OtherNumbersStay, block_said};
ghost use Rattle.shard_store.specs.Flushes.{AreFlushed, AreFlushedTo, ended_size, is_in_one};
ghost use Rattle.store_log.specs.listed_volumes.Listed.{known_in};
ghost use Rattle.shard_store.specs.StoreParts.{IsOpenOn, content_of_opened, IsCachedIn, IsCountedIn};

use crate::fetch::heads_of;
use crate::moments::is_past;
use crate::opened::Opened;
use crate::volumes::{add, take_off};
use m3_model::{Rules, Seq, Series, Space};
use m3_outside::{Disk, DiskErr};
use shard_open::is_volume;
use std::alloc::Global;
use store_log::of_fileset_read::FileErr;
use store_log::of_held_points::HeldPoints;
use store_log::of_listed_volumes::{BlockErr, ListedVolume, block_rows, list_volume};
use store_log::of_volume_bytes::Head;
use store_log::of_volume_steps::{remove_volumes, write_volume};

// Why a block wasn't joined, of the replica's files.
fn of_block(why: BlockErr) -> FileErr
    ensures { result ≡ block_said why }
{
    match why {
        BlockErr::Disk => FileErr::Disk,
        BlockErr::Memory | BlockErr::Large => FileErr::Memory,
        BlockErr::Form { file } => FileErr::Form { file },
    }
}

// Those of the volumes that are of this block.
fn older(
    alloc: Global,
    listed: &[ListedVolume],
    ns: u8,
    start: u64,
    size: u64,
) -> Result<Vec<Head>, FileErr>
    ensures err { IfErr result (λ why. why ≡ unread.Memory) }
    ensures ok { IfOk result (λ found. found.items ≡ filter (λ h. is_head_of ns start size (head_of h)) (map (λ v. v.head) listed.now)) }
{
    let mut found = heads_of(alloc, listed)?;
    found.retain(|head| head.ns == ns && head.start == start && head.size == size);
    Ok(found)
}

// The rows of a block in memory, where a volume may have them.
fn buffered_rows(held: &HeldPoints, ns: u8, start: u64, size: u64) -> Result<Seq<Series>, FileErr>
    requires { start + size < 2 ^ 64 }
    ensures rows { IfOk result (λ rows. (wanted : List Matcher) → IsRangeOf held.now.points (pick.Match ns wanted) start (start + size) rows) }
    ensures volume { IfOk result (IsVolume (block_head ns start size)) }
    ensures err { IfErr result (λ why. why ≡ unread.Memory) }
{
    let Ok(rows) = held.block(ns, start, size) else {
        return Err(FileErr::Memory);
    };
    let head = Head {
        ns,
        start,
        size,
        number: 0,
    };
    if !is_volume(&head, rows.as_slice()) {
        return Err(FileErr::Memory);
    }
    Ok(rows)
}

// The blocks that have points in memory and of which no write is taken any more.
fn blocks_of(held: &HeldPoints, rules: &Rules) -> Result<Seq<(u8, u64)>, FileErr>
    requires { All (λ space. 0 < space.block) rules.now.spaces }
    ensures blocks { IfOk result (IsClosedBlocksOf rules.entry.now held.now.points) }
    ensures err { IfErr result (λ why. why ≡ unread.Memory) }
{
    match held.closed_blocks(rules) {
        Ok(blocks) => Ok(blocks),
        Err(_) => Err(FileErr::Memory),
    }
}

// The size of a block of the space that begins here, if it may be flushed.
fn ended(space: &Space, start: u64, now: u64) -> Option<u64>
    ensures size { result ≡ ended_size (Some space.now) start now }
    ensures end { IfSome result (λ size. start + size < 2 ^ 64) }
{
    if is_past(start, space.block, space.past, now) {
        Some(space.block)
    } else {
        None
    }
}

// The size of the block that begins here, if it may be flushed.
fn flushable(rules: &Rules, ns: u8, start: u64) -> Option<u64>
    ensures size { result ≡ ended_size (slice_get rules.entry.now.spaces ns) start rules.entry.now.now }
    ensures end { IfSome result (λ size. start + size < 2 ^ 64) }
{
    match rules.spaces.as_slice().get(ns as usize) {
        Some(space) => ended(space, start, rules.now),
        None => None,
    }
}

impl Opened {
    // The rows of a new volume of the block.
    fn rows_of<D: Disk>(
        &self,
        alloc: Global,
        disk: &mut D,
        ns: u8,
        start: u64,
        size: u64,
    ) -> Result<Seq<Series>, FileErr>
        requires kept { IsOpenOn self.now (D.state disk.old) }
        requires end { start + size < 2 ^ 64 }
        ensures volume { IfOk result (IsVolume (block_head ns start size)) }
        ensures ordered { IfOk result IsOrdered }
        ensures join { (D.state disk.old).tells ≡ true → IfOk result (IsBlockJoin self.now.held.points (known_in self.now.volumes.items) ns start size) }
        ensures leaves { LeavesFiles (IsErrOf result unread.Disk) (D.state disk.old) (D.state disk.new) }
        ensures sound { (D.state disk.old).tells ≡ true → IfErr result IsUndamaged }
    {
        let buffered = buffered_rows(&self.held, ns, start, size)?;
        let heads = heads_of(alloc, &self.volumes)?;
        match block_rows(alloc, disk, &heads, ns, start, size, buffered) {
            Ok(rows) => Ok(rows),
            Err(why) => Err(of_block(why)),
        }
    }

    // Writes the volume of these rows, which are the join of the block. Its points leave memory then.
    fn write_block<D: Disk>(
        &mut self,
        alloc: Global,
        disk: &mut D,
        head: &Head,
        rows: &Seq<Series>,
    ) -> Result<(), DiskErr>
        requires kept { IsOpenOn self.old (D.state disk.old) }
        requires end { head.now.start + head.now.size < 2 ^ 64 }
        requires volume { IsVolume (block_head head.now.ns head.now.start head.now.size) rows.now }
        requires ordered { IsOrdered rows.now }
        requires join { (D.state disk.old).tells ≡ true → IsBlockJoin self.old.held.points (known_in self.old.volumes.items) head.now.ns head.now.start head.now.size rows.now }
        ensures kept { ¬ (IsErrOf result DiskFailed) → IsOpenOn self.new (D.state disk.new) }
        ensures ok { OnOk result (self.new.held ≡ record { points = without self.old.held.points (is_in_block head.now.ns head.now.start head.now.size); room = None }) }
        ensures known { OnOk result ((n : ℕ) × (known_in self.new.volumes.items ≡ with_volume (volume_of head.now.ns head.now.start head.now.size n rows.now) (known_in self.old.volumes.items))
            × ((D.state disk.old).tells ≡ true → n ≡ next_volume head.now.ns head.now.start (D.state disk.old).files)) }
        ensures err { OnErr result ((self.new.held ≡ self.old.held) × (self.new.volumes.items ≡ self.old.volumes.items)) }
        ensures numbers { (self.new.tenure ≡ self.old.tenure) × (self.new.fence ≡ self.old.fence) }
        ensures others { (D.state disk.old).tells ≡ true → OtherNumbersStay head.now.ns head.now.start (D.state disk.old).files (D.state disk.new).files }
        ensures content { (D.state disk.old).tells ≡ true → content_of_opened self.new ≡ content_of_opened self.old }
        ensures counted { IsCountedIn self.old (D.state disk.old) → IsCountedIn self.new (D.state disk.new) }
        ensures cached { IsCachedIn self.old (D.state disk.old) → IsCachedIn self.new (D.state disk.new) }
        ensures disk { Rearranges (content_of_opened self.old) (IsErrOf result DiskFailed) (D.state disk.old) (D.state disk.new) }
    {
        self.volumes.reserve(1)?;
        let mut volume = list_volume(alloc, *head, rows)?;
        let number = write_volume(alloc, disk, head.ns, head.start, head.size, rows)?;
        volume.head.number = number;
        self.held.drop_block(head.ns, head.start, head.size);
        self.cache.forget(&volume.head);
        add(&mut self.volumes, volume);
        Ok(())
    }

    // Takes away older volumes, whose points are in memory or in others.
    fn remove_older<D: Disk>(&mut self, disk: &mut D, olds: &[Head]) -> Result<(), DiskErr>
        requires kept { IsOpenOn self.old (D.state disk.old) }
        requires there { (D.state disk.old).tells ≡ true → HaveContent self.old.held.points (without_volumes olds.now (known_in self.old.volumes.items)) (content_of_opened self.old) }
        ensures kept { ¬ (IsErrOf result DiskFailed) → IsOpenOn self.new (D.state disk.new) }
        ensures held { self.new.held ≡ self.old.held }
        ensures ok { OnOk result (known_in self.new.volumes.items ≡ without_volumes olds.now (known_in self.old.volumes.items)) }
        ensures err { OnErr result (self.new.volumes.items ≡ self.old.volumes.items) }
        ensures numbers { (self.new.tenure ≡ self.old.tenure) × (self.new.fence ≡ self.old.fence) }
        ensures others { (D.state disk.old).tells ≡ true → OthersStay (IsOfOne olds.now) (D.state disk.old).files (D.state disk.new).files }
        ensures content { (D.state disk.old).tells ≡ true → content_of_opened self.new ≡ content_of_opened self.old }
        ensures counted { IsCountedIn self.old (D.state disk.old) → IsCountedIn self.new (D.state disk.new) }
        ensures cached { IsCachedIn self.old (D.state disk.old) → IsCachedIn self.new (D.state disk.new) }
        ensures disk { Rearranges (content_of_opened self.old) (IsErrOf result DiskFailed) (D.state disk.old) (D.state disk.new) }
    {
        remove_volumes(disk, olds)?;
        take_off(&mut self.volumes, olds);
        self.cache.forget_all(olds);
        Ok(())
    }

    // Writes the volume of these rows, which are the join of the block, and then takes away the block's older ones.
    fn replace_block<D: Disk>(
        &mut self,
        alloc: Global,
        disk: &mut D,
        head: &Head,
        rows: &Seq<Series>,
        olds: &[Head],
    ) -> Result<(), DiskErr>
        requires kept { IsOpenOn self.old (D.state disk.old) }
        requires end { head.now.start + head.now.size < 2 ^ 64 }
        requires volume { IsVolume (block_head head.now.ns head.now.start head.now.size) rows.now }
        requires ordered { IsOrdered rows.now }
        requires join { (D.state disk.old).tells ≡ true → IsBlockJoin self.old.held.points (known_in self.old.volumes.items) head.now.ns head.now.start head.now.size rows.now }
        requires olds { map head_of olds.now ≡ map (λ k. k.head) (filter (is_of head.now.ns head.now.start head.now.size) (known_in self.old.volumes.items)) }
        ensures kept { ¬ (IsErrOf result DiskFailed) → IsOpenOn self.new (D.state disk.new) }
        ensures ok { OnOk result (self.new.held.points ≡ without self.old.held.points (is_in_block head.now.ns head.now.start head.now.size)) }
        ensures one { (D.state disk.old).tells ≡ true → OnOk result (IsOneVolume head.now.ns head.now.start head.now.size self.old.held.points (known_in self.old.volumes.items) (D.state disk.old).files (known_in self.new.volumes.items)) }
        ensures numbers { (self.new.tenure ≡ self.old.tenure) × (self.new.fence ≡ self.old.fence) }
        ensures others { (D.state disk.old).tells ≡ true → OtherNumbersStay head.now.ns head.now.start (D.state disk.old).files (D.state disk.new).files }
        ensures fewer { (p : Point) → HasPoint self.new.held.points p → HasPoint self.old.held.points p }
        ensures content { (D.state disk.old).tells ≡ true → content_of_opened self.new ≡ content_of_opened self.old }
        ensures counted { IsCountedIn self.old (D.state disk.old) → IsCountedIn self.new (D.state disk.new) }
        ensures cached { IsCachedIn self.old (D.state disk.old) → IsCachedIn self.new (D.state disk.new) }
        ensures disk { Rearranges (content_of_opened self.old) (IsErrOf result DiskFailed) (D.state disk.old) (D.state disk.new) }
    {
        self.write_block(alloc, disk, head, rows)?;
        self.remove_older(disk, olds)?;
        Ok(())
    }

    // Flushes the block.
    fn flush_block<D: Disk>(
        &mut self,
        alloc: Global,
        disk: &mut D,
        ns: u8,
        start: u64,
        size: u64,
    ) -> Result<(), FileErr>
        requires kept { IsOpenOn self.old (D.state disk.old) }
        requires end { start + size < 2 ^ 64 }
        ensures kept { IsErrOf result unread.Memory → IsOpenOn self.new (D.state disk.new) }
        ensures kept_ok { OnOk result (IsOpenOn self.new (D.state disk.new)) }
        ensures ok { OnOk result (self.new.held.points ≡ without self.old.held.points (is_in_block ns start size)) }
        ensures one { (D.state disk.old).tells ≡ true → OnOk result (IsOneVolume ns start size self.old.held.points (known_in self.old.volumes.items) (D.state disk.old).files (known_in self.new.volumes.items)) }
        ensures numbers { (self.new.tenure ≡ self.old.tenure) × (self.new.fence ≡ self.old.fence) }
        ensures others { (D.state disk.old).tells ≡ true → OnOk result (OtherNumbersStay ns start (D.state disk.old).files (D.state disk.new).files) }
        ensures fewer { (p : Point) → HasPoint self.new.held.points p → HasPoint self.old.held.points p }
        ensures content { (D.state disk.old).tells ≡ true → content_of_opened self.new ≡ content_of_opened self.old }
        ensures sound { (D.state disk.old).tells ≡ true → IfErr result IsUndamaged }
        ensures counted { IsCountedIn self.old (D.state disk.old) → IsCountedIn self.new (D.state disk.new) }
        ensures cached { IsCachedIn self.old (D.state disk.old) → IsCachedIn self.new (D.state disk.new) }
        ensures disk { Rearranges (content_of_opened self.old) (IsErrOf result unread.Disk) (D.state disk.old) (D.state disk.new) }
    {
        let rows = self.rows_of(alloc, disk, ns, start, size)?;
        let olds = older(alloc, &self.volumes, ns, start, size)?;
        let head = Head {
            ns,
            start,
            size,
            number: 0,
        };
        self.replace_block(alloc, disk, &head, &rows, &olds)?;
        Ok(())
    }

    /// Flushes each block that may be flushed and has points in memory, and answers how many these were.
    ///
    /// # Errors
    ///
    /// As those of `Store::flush`.
    pub(crate) fn flush<D: Disk>(
        &mut self,
        alloc: Global,
        disk: &mut D,
        rules: &Rules,
    ) -> Result<u64, FileErr>
        requires kept { IsOpenOn self.old (D.state disk.old) }
        requires sizes { All (λ space. 0 < space.block) rules.now.spaces }
        ensures kept { IsErrOf result unread.Memory → IsOpenOn self.new (D.state disk.new) }
        ensures kept_ok { OnOk result (IsOpenOn self.new (D.state disk.new)) }
        ensures ok { IfOk result (λ n. (blocks : List (ℕ × ℕ)) × AreFlushed rules.entry.now self.old.held.points blocks × (n ≡ length blocks) × (self.new.held.points ≡ without self.old.held.points (is_in_one rules.entry.now blocks))
            × ((D.state disk.old).tells ≡ true → AreFlushedTo rules.entry.now self.old.held.points blocks (known_in self.old.volumes.items) (D.state disk.old).files (known_in self.new.volumes.items))) }
        ensures numbers { (self.new.tenure ≡ self.old.tenure) × (self.new.fence ≡ self.old.fence) }
        ensures fewer { (p : Point) → HasPoint self.new.held.points p → HasPoint self.old.held.points p }
        ensures content { (D.state disk.old).tells ≡ true → content_of_opened self.new ≡ content_of_opened self.old }
        ensures sound { (D.state disk.old).tells ≡ true → IfErr result IsUndamaged }
        ensures counted { IsCountedIn self.old (D.state disk.old) → IsCountedIn self.new (D.state disk.new) }
        ensures cached { IsCachedIn self.old (D.state disk.old) → IsCachedIn self.new (D.state disk.new) }
        ensures disk { Rearranges (content_of_opened self.old) (IsErrOf result unread.Disk) (D.state disk.old) (D.state disk.new) }
    {
        let blocks = blocks_of(&self.held, rules)?;
        let mut written = 0;
        for block in blocks.as_slice() {
            let (ns, start) = *block;
            let Some(size) = flushable(rules, ns, start) else {
                continue;
            };
            self.flush_block(alloc, disk, ns, start, size)?;
            written += 1;
        }
        Ok(written)
    }
}
