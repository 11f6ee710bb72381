//! Runs of the meta disk's log: what each of them opens with and saves.
ghost use Rattle.std.specs.Prelude.{IfOk, IfSome};
ghost use Rattle.m3_outside.specs.DiskState.{DiskState};
ghost use Rattle.meta_bytes.specs.States.{IsMetaState};
ghost use Rattle.placement_log.specs.MetaHolds.{MetaStands};

use crate::small_state::small_state;
use disk_stories::{small, tell_bytes};
use m3_model::{Memory, MetaState};
use m3_outside::{Disk, DiskErr};
use placement_log::{MetaLog, OpenErr};
use std::alloc::Global;

// Saves the state.
fn save_state<D: Disk>(disk: &mut D, log: &mut MetaLog, state: &MetaState) -> Result<(), DiskErr>
    requires state { IsMetaState state.now }
    requires stands { MetaStands log.old (D.state disk.old) }
    ensures { MetaStands log.new (D.state disk.new) }
{
    log.ready(disk, state)?;
    match log.save(disk, state) {
        Ok(()) => Ok(()),
        Err(_) => Err(DiskErr::Failed),
    }
}

// Saves a small state of this seed.
fn save_one<D: Disk>(
    alloc: Global,
    disk: &mut D,
    log: &mut MetaLog,
    seed: u8,
) -> Result<(), DiskErr>
    requires { MetaStands log.old (D.state disk.old) }
    ensures { MetaStands log.new (D.state disk.new) }
{
    match small_state(alloc, seed) {
        Ok(state) => save_state(disk, log, &state),
        Err(_) => Err(DiskErr::Memory),
    }
}

// Saves a state of each of these seeds, and tells the last one.
fn save_all<D: Disk>(
    alloc: Global,
    disk: &mut D,
    log: &mut MetaLog,
    seeds: &str,
    out: &mut String,
) -> Result<(), DiskErr>
    requires { MetaStands log.old (D.state disk.old) }
{
    let mut last = 0;
    for seed in seeds.split_terminator(',') {
        last = small(seed);
        save_one(alloc, disk, log, last)?;
    }
    write!(out, ">{last}")?;
    Ok(())
}

// The seed of the last state, 0 for none.
fn tell_last(last: &Option<MetaState>, out: &mut String) -> Result<(), Memory> {
    let seed = match last {
        Some(state) => state.seed,
        None => 0,
    };
    write!(out, "{seed}")?;
    Ok(())
}

// What is told in place of a state: damage.
fn tell_err(alloc: Global, e: OpenErr, out: &mut String) -> Result<(), DiskErr> {
    match e {
        OpenErr::Disk => return Err(DiskErr::Failed),
        OpenErr::Memory => return Err(DiskErr::Memory),
        OpenErr::Form { number, at } => write!(out, "form in {number} at {at}")?,
        OpenErr::Digest {
            number,
            kept,
            found,
        } => {
            write!(out, "digest in {number}")?;
            tell_bytes(alloc, " kept ", &kept, out)?;
            tell_bytes(alloc, " found ", &found, out)?;
        }
    }
    Ok(())
}

// Opens the log, and tells the seed of its last state.
fn open<D: Disk>(alloc: Global, disk: &mut D, out: &mut String) -> Result<Option<MetaLog>, DiskErr>
    ensures { IfOk result (λ log. IfSome log (λ log. MetaStands log (D.state disk.new))) }
{
    match MetaLog::open(alloc, disk) {
        Ok(opened) => {
            let (log, last) = opened;
            tell_last(&last, out)?;
            Ok(Some(log))
        }
        Err(e) => {
            tell_err(alloc, e, out)?;
            Ok(None)
        }
    }
}

/// `r` opens the log and tells the seed of its last state, 0 where it has none, or its damage. `r2,3` then saves a state of each of
/// these seeds, and tells the last one: `1>3`.
pub fn run<D: Disk>(
    alloc: Global,
    disk: &mut D,
    seeds: &str,
    out: &mut String,
) -> Result<bool, DiskErr> {
    if let Some(mut log) = open(alloc, disk, out)? {
        if !seeds.is_empty() {
            save_all(alloc, disk, &mut log, seeds, out)?;
        }
    }
    Ok(true)
}
