//! The last state of all segments.
ghost use Rattle.std.specs.Prelude.{◌≡◌, ◌≤◌, true, None, IfOk, OnOk, IfErr, IsErrOf};
ghost use Rattle.m3_model.specs.declared.limits.TheConstants.{NUMBER_END};
ghost use Rattle.m3_outside.specs.DiskState.{DiskState, Told};
ghost use Rattle.m3_outside.specs.DiskCalls.{LeavesFiles};
ghost use Rattle.commit_log.specs.Contents.{segment_bytes, numbers as numbers_in};
ghost use Rattle.commit_log.specs.LogEnd.{NoneFrom};
ghost use Rattle.placement_log.specs.MetaHolds.{MetaHolds};
ghost use Rattle.placement_log.specs.States.{MayBeState};
ghost use Rattle.placement_log.specs.Damage.{in_segment, ReadsStates, FindsStates, MayBeBroken, MayBeDamaged};
ghost use Rattle.placement_log.specs.declared.open_err.OpenErr.TheVariants as failures;

use crate::open_err::OpenErr;
use crate::payload::PayloadErr;
use crate::segment::read_segment;
use commit_log::{Segments, list_segments, read_front};
use m3_model::MetaState;
use m3_outside::Disk;
use std::alloc::Global;

// The same of the segment of this number.
fn in_segment(e: PayloadErr, number: u64) -> OpenErr
    ensures { result ≡ in_segment number e }
{
    match e {
        PayloadErr::Memory => OpenErr::Memory,
        PayloadErr::Digest { kept, found } => OpenErr::Digest {
            number,
            kept,
            found,
        },
        PayloadErr::Form { at } => OpenErr::Form {
            number,
            at: at as u64,
        },
    }
}

// Reads the states of the segment of this number.
fn read_one<D: Disk>(
    alloc: Global,
    disk: &mut D,
    number: u64,
    last: &mut Option<MetaState>,
) -> Result<(), OpenErr>
    ensures leaves { LeavesFiles (IsErrOf result failures.Disk) (D.state disk.old) (D.state disk.new) }
    ensures ok { (D.state disk.old).tells ≡ true → OnOk result (ReadsStates (segment_bytes number (D.state disk.old).files) last.old last.new) }
    ensures err { (D.state disk.old).tells ≡ true → IfErr result (MayBeBroken number (D.state disk.old).files) }
    ensures state { MayBeState last.old → MayBeState last.new }
{
    let front = read_front(alloc, disk, number)?;
    match read_segment(alloc, &front, last) {
        Ok(()) => Ok(()),
        Err(e) => Err(in_segment(e, number)),
    }
}

// Reads the states of the segments of these numbers, which are all that the disk has.
fn read_segments<D: Disk>(
    alloc: Global,
    disk: &mut D,
    numbers: &[u64],
    last: &mut Option<MetaState>,
) -> Result<(), OpenErr>
    requires { Told (D.state disk.old) (λ files. numbers.now ≡ numbers_in files) }
    ensures leaves { LeavesFiles (IsErrOf result failures.Disk) (D.state disk.old) (D.state disk.new) }
    ensures ok { (D.state disk.old).tells ≡ true → OnOk result (FindsStates numbers.now (D.state disk.old).files last.old last.new) }
    ensures err { (D.state disk.old).tells ≡ true → IfErr result (MayBeDamaged (D.state disk.old).files) }
    ensures state { MayBeState last.old → MayBeState last.new }
{
    for number in numbers {
        read_one(alloc, disk, *number, last)?;
    }
    Ok(())
}

/// What a log of states holds.
#[derive(Drop)]
pub(crate) struct LogContents {
    /// The last state, or none where there is none.
    pub last: Option<MetaState>,
    /// The number for the next segment: one above all that are there, and 1 where none is.
    pub next: u64,
}

/// Reads the whole log.
pub(crate) fn read_log<D: Disk>(alloc: Global, disk: &mut D) -> Result<LogContents, OpenErr>
    ensures leaves { LeavesFiles (IsErrOf result failures.Disk) (D.state disk.old) (D.state disk.new) }
    ensures ok { (D.state disk.old).tells ≡ true → IfOk result (λ held. MetaHolds held.last (D.state disk.old).files) }
    ensures state { IfOk result (λ held. MayBeState held.last) }
    ensures fresh { IfOk result (λ held. Told (D.state disk.new) (NoneFrom held.next)) }
    ensures some { IfOk result (λ held. 1 ≤ held.next) }
    ensures few { IfOk result (λ held. held.next ≤ NUMBER_END) }
    ensures err { (D.state disk.old).tells ≡ true → IfErr result (MayBeDamaged (D.state disk.old).files) }
{
    let Segments { numbers, next } = list_segments(alloc, disk)?;
    let mut last = None;
    read_segments(alloc, disk, numbers.as_slice(), &mut last)?;
    Ok(LogContents { last, next })
}
