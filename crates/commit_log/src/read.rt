ghost use Rattle.std.specs.Prelude.{◌≡◌, ◌<◌, ◌≤◌, ℕ, true, ◌↔◌, IsTrue, IfOk, OnOk, IfErr, IfSome, IfNone, IsErr, IsErrOf};
ghost use Rattle.log_chunks.specs.m3_model.declared.limits.TheConstants.{NUMBER_END};
ghost use Rattle.log_chunks.specs.m3_outside.Causes.{CountsFaults};
ghost use Rattle.log_chunks.specs.m3_outside.DiskState.{DiskState, Told};
ghost use Rattle.log_chunks.specs.m3_outside.DiskCalls.{LeavesFiles};
ghost use Rattle.log_chunks.specs.m3_outside.declared.disk_err.DiskErr.TheVariants.{Failed as DiskFailed};
ghost use Rattle.commit_log.specs.Contents as contents;
ghost use Rattle.commit_log.specs.Contents.{LogHolds, numbers};
ghost use Rattle.commit_log.specs.LogEnd.{NoneFrom};
ghost use Rattle.commit_log.specs.Reading.{FindsAll, MayBeFirstDamage};
ghost use Rattle.commit_log.specs.declared.log_err.LogErr.TheVariants as errors;

use crate::file::read_front;
use crate::log_err::LogErr;
use crate::segment::read_chunks;
use log_chunks::of_m3_model::Seq;
use log_chunks::of_m3_model::limits::NUMBER_END;
use log_chunks::of_m3_outside::{Disk, DiskErr, FileName};
use std::alloc::Global;

/// What a log holds.
#[derive(Drop)]
pub struct Found {
    /// The chunks of all segments, by ascending number and offset.
    pub chunks: Seq<Seq<u8>>,
    /// The number for the next segment: one above all that are there, and 1 where none is.
    pub next: u64,
}

// Whether the file of this name is a segment.
fn is_segment(name: FileName) -> bool
    ensures { result ≡ contents.is_segment name }
{
    name.kind == 0 && name.ns == 0 && name.block == 0
}

/// The numbers of the disk's segments, ascending.
pub(crate) fn segment_numbers<D: Disk>(alloc: Global, disk: &mut D) -> Result<Vec<u64>, DiskErr>
    ensures leaves { LeavesFiles (IsErrOf result DiskFailed) (D.state disk.old) (D.state disk.new) }
    ensures ok { (D.state disk.old).tells ≡ true → IfOk result (λ v. v.items ≡ numbers (D.state disk.old).files) }
{
    let names = disk.list()?;
    let segments = names
        .as_slice()
        .iter()
        .copied()
        .filter(|name| is_segment(*name));
    Ok(segments.map(|name| name.number).collect(alloc)?)
}

/// One above all of these numbers, or 1 where there are none. `None` exactly where that would be `NUMBER_END` or a higher one.
/// Takes no memory.
pub fn next_after(numbers: &[u64]) -> Option<u64>
    ensures next { IfSome result (λ next. next ≡ contents.next_after numbers.now) }
    ensures limit { IfSome result (λ next. next < NUMBER_END) }
    ensures full { IfNone result (NUMBER_END ≤ contents.next_after numbers.now) }
{
    let mut next = 1;
    for number in numbers {
        if *number >= NUMBER_END - 1 {
            return None;
        }
        next = next.max(*number + 1);
    }
    Some(next)
}

/// The segments of a disk.
#[derive(Drop)]
pub struct Segments {
    /// Their numbers, ascending.
    pub numbers: Seq<u64>,
    /// The number for the next segment: one above all that are there, and 1 where none is.
    pub next: u64,
}

/// The numbers of the segments that are there. A log that was read goes on in a fresh segment of the number `next`, as
/// `Log::begin` makes it, and never in one that was read.
///
/// # Errors
///
/// A fault, by which the disk's count rose in this call. Want of memory, always where the number `next` would be `NUMBER_END`
/// or a higher one. After either the files, and what a stop leaves of them, are as they were.
pub fn list_segments<D: Disk>(alloc: Global, disk: &mut D) -> Result<Segments, DiskErr>
    ensures leaves { LeavesFiles (IsErrOf result DiskFailed) (D.state disk.old) (D.state disk.new) }
    ensures ok { (D.state disk.old).tells ≡ true → IfOk result (λ segments. segments.numbers ≡ numbers (D.state disk.old).files) }
    ensures next { IfOk result (λ segments. segments.next ≡ contents.next_after segments.numbers) }
    ensures limit { IfOk result (λ segments. segments.next < NUMBER_END) }
    ensures full { (D.state disk.old).tells ≡ true → NUMBER_END ≤ contents.next_after (numbers (D.state disk.old).files) → IsErr result }
    ensures fresh { IfOk result (λ segments. Told (D.state disk.new) (NoneFrom segments.next)) }
    ensures faults { CountsFaults (IsErrOf result DiskFailed) (D.state disk.old).faults (D.state disk.new).faults }
{
    let numbers = segment_numbers(alloc, disk)?;
    match next_after(&numbers) {
        None => Err(DiskErr::Memory),
        Some(next) => Ok(Segments {
            numbers: Seq::from_vec(numbers),
            next,
        }),
    }
}

// Appends the chunks of the segments of these numbers.
fn read_segments<D: Disk>(
    alloc: Global,
    disk: &mut D,
    numbers: &[u64],
    chunks: &mut Vec<Seq<u8>>,
) -> Result<(), LogErr>
    ensures leaves { LeavesFiles (IsErrOf result errors.Disk) (D.state disk.old) (D.state disk.new) }
    ensures ok { (D.state disk.old).tells ≡ true → OnOk result (FindsAll numbers.now (D.state disk.old).files chunks.old.items chunks.new.items) }
    ensures err { (D.state disk.old).tells ≡ true → IfErr result (MayBeFirstDamage numbers.now (D.state disk.old).files) }
{
    for number in numbers {
        let front = read_front(alloc, disk, *number)?;
        read_chunks(alloc, *number, &front, chunks)?;
    }
    Ok(())
}

/// Reads the whole log. A chunk is there where its gate is open: what stands behind a closed gate is no part of it.
///
/// # Errors
///
/// A fault. Damage, which names the lowest segment that isn't in the grammar and the first offset in it at which no segment
/// goes on. Want of memory, also where the number `next` would be `NUMBER_END` or a higher one. All files stay.
pub fn read_all<D: Disk>(alloc: Global, disk: &mut D) -> Result<Found, LogErr>
    ensures leaves { LeavesFiles (IsErrOf result errors.Disk) (D.state disk.old) (D.state disk.new) }
    ensures ok { (D.state disk.old).tells ≡ true → IfOk result (λ found. LogHolds found.chunks found.next (D.state disk.old).files) }
    ensures limit { IfOk result (λ found. found.next < NUMBER_END) }
    ensures fresh { IfOk result (λ found. Told (D.state disk.new) (NoneFrom found.next)) }
    ensures err { (D.state disk.old).tells ≡ true → IfErr result (MayBeFirstDamage (numbers (D.state disk.old).files) (D.state disk.old).files) }
{
    let Segments { numbers, next } = list_segments(alloc, disk)?;
    let mut chunks = Vec::new(alloc);
    read_segments(alloc, disk, numbers.as_slice(), &mut chunks)?;
    Ok(Found {
        chunks: Seq::from_vec(chunks),
        next,
    })
}
