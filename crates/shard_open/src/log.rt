//! The entries of a replica's log.
ghost use Rattle.std.specs.Prelude.{◌≡◌, true, length, IfOk, OnOk, IfErr, IsErrOf};
ghost use Rattle.snapshot_files.specs.m3_outside.DiskState.{DiskState, Told};
ghost use Rattle.snapshot_files.specs.m3_outside.DiskCalls.{LeavesFiles};
ghost use Rattle.snapshot_files.specs.commit_log.Contents.{segment_bytes, numbers as numbers_in};
ghost use Rattle.snapshot_files.specs.commit_log.LogEnd.{NoneFrom};
ghost use Rattle.snapshot_files.specs.shard_files.HeldEntries.{HoldsEntries};
ghost use Rattle.snapshot_files.specs.shard_files.Damage.{BreaksSegment};
ghost use Rattle.snapshot_files.specs.shard_files.Loading.{ReadsEntries, FindsEntries, LogTells, Tells, in_segment};
ghost use Rattle.snapshot_files.specs.shard_files.declared.load_err.LoadErr.TheVariants as failures;
ghost use Rattle.shard_open.specs.Told.{AreApart};

use m3_model::Seq;
use snapshot_files::of_commit_log::{Segments, list_segments, read_front};
use snapshot_files::of_m3_outside::{Disk, FileName};
use snapshot_files::of_shard_files::{EntryErr, LoadErr, LogEntry, read_segment};
use std::alloc::Global;

/// What a replica's log holds.
#[derive(Drop)]
pub(crate) struct HeldEntries {
    /// The entries of all segments, by ascending number and offset.
    pub entries: Seq<LogEntry>,
    /// How many segments there are.
    pub segments: u64,
    /// The number for the next segment: one above all that are there, and 1 where none is.
    pub next: u64,
}

// The same of the segment of this number.
fn in_segment(e: EntryErr, number: u64) -> LoadErr
    ensures same { result ≡ in_segment number e }
    ensures apart { AreApart result }
{
    match e {
        EntryErr::Memory => LoadErr::Memory,
        EntryErr::Form { at } => LoadErr::Form {
            file: FileName {
                kind: 0,
                ns: 0,
                block: 0,
                number,
            },
            at: at as u64,
        },
    }
}

// Appends the entries of the segment of this number.
fn read_one<D: Disk>(
    alloc: Global,
    disk: &mut D,
    number: u64,
    entries: &mut Vec<LogEntry>,
) -> Result<(), LoadErr>
    ensures leaves { LeavesFiles (IsErrOf result failures.Disk) (D.state disk.old) (D.state disk.new) }
    ensures ok { (D.state disk.old).tells ≡ true → OnOk result (ReadsEntries (segment_bytes number (D.state disk.old).files) entries.old.items entries.new.items) }
    ensures err { (D.state disk.old).tells ≡ true → IfErr result (Tells (BreaksSegment (D.state disk.old).files number)) }
    ensures apart { IfErr result AreApart }
{
    let front = read_front(alloc, disk, number)?;
    match read_segment(alloc, &front, entries) {
        Ok(()) => Ok(()),
        Err(e) => Err(in_segment(e, number)),
    }
}

// Appends the entries of the segments of these numbers, which are all that the disk has.
fn read_segments<D: Disk>(
    alloc: Global,
    disk: &mut D,
    numbers: &[u64],
    entries: &mut Vec<LogEntry>,
) -> Result<(), LoadErr>
    requires { Told (D.state disk.old) (λ files. numbers.now ≡ numbers_in files) }
    ensures leaves { LeavesFiles (IsErrOf result failures.Disk) (D.state disk.old) (D.state disk.new) }
    ensures ok { (D.state disk.old).tells ≡ true → OnOk result (FindsEntries numbers.now (D.state disk.old).files entries.old.items entries.new.items) }
    ensures err { (D.state disk.old).tells ≡ true → IfErr result (Tells (LogTells (D.state disk.old).files)) }
    ensures apart { IfErr result AreApart }
{
    for number in numbers {
        read_one(alloc, disk, *number, entries)?;
    }
    Ok(())
}

/// Reads the entries of a whole log.
///
/// # Errors
///
/// A fault. The lowest damaged segment, and the first offset at which it stops to be one. Want of memory.
pub(crate) fn held_entries<D: Disk>(alloc: Global, disk: &mut D) -> Result<HeldEntries, LoadErr>
    ensures leaves { LeavesFiles (IsErrOf result failures.Disk) (D.state disk.old) (D.state disk.new) }
    ensures ok { (D.state disk.old).tells ≡ true → IfOk result (λ held. HoldsEntries held.entries (D.state disk.old).files) }
    ensures segments { (D.state disk.old).tells ≡ true → IfOk result (λ held. held.segments ≡ length (numbers_in (D.state disk.old).files)) }
    ensures fresh { IfOk result (λ held. Told (D.state disk.new) (NoneFrom held.next)) }
    ensures err { (D.state disk.old).tells ≡ true → IfErr result (Tells (LogTells (D.state disk.old).files)) }
    ensures apart { IfErr result AreApart }
{
    let Segments { numbers, next } = list_segments(alloc, disk)?;
    let mut entries = Vec::new(alloc);
    read_segments(alloc, disk, numbers.as_slice(), &mut entries)?;
    Ok(HeldEntries {
        entries: Seq::from_vec(entries),
        segments: numbers.len() as u64,
        next,
    })
}
