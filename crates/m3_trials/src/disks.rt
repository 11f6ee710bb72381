//! The disks of a case, of which some can't be taken, and what is done to them between its runs.
ghost use Rattle.std.specs.Prelude.{◌≡◌, IfOk, IsTrue};
ghost use Rattle.m3_outside.specs.Causes.{count_after};
ghost use Rattle.m3_trials.specs.Disks.{NoneIsOut};

use disk_stories::{file, part, say, turn};
use m3_model::Memory;
use m3_outside::{Disk, DiskErr, DiskSlot, Disks};
use mem_disk::{MemDisk, MemDisks};
use std::alloc::Global;
use trial_lines::{CaseErr, number};

/// Disks that fail as those that were laid there do, and of which the takings of these numbers fail.
#[derive(Drop)]
pub struct TrialDisks {
    disks: MemDisks,
    fail: Vec<u64>,
    taken: u64,
    faults: u64,
}

impl TrialDisks {
    /// Empty ones that never fail.
    pub fn new(alloc: Global) -> Result<TrialDisks, Memory>
        ensures { IfOk result NoneIsOut }
    {
        let disks = MemDisks::new(alloc)?;
        Ok(TrialDisks {
            disks,
            fail: Vec::new(alloc),
            taken: 0,
            faults: 0,
        })
    }

    /// From now on the takings of these numbers fail, the next one being number 0.
    pub fn fail_takings(&mut self, numbers: Vec<u64>)
        ensures { self.new.disks ≡ self.old.disks }
    {
        self.fail = numbers;
        self.taken = 0;
    }

    // Whether the next taking is to fail, which is counted then.
    fn next_fails(&mut self) -> bool
        ensures disks { self.new.disks ≡ self.old.disks }
        ensures failed { IsTrue result → self.new.faults ≡ count_after self.old.faults }
        ensures passed { ¬ IsTrue result → self.new.faults ≡ self.old.faults }
    {
        let fails = self.fail.contains(&self.taken);
        self.taken = self.taken.saturating_add(1);
        if fails {
            self.faults = self.faults.saturating_add(1);
        }
        fails
    }
}

impl Disks for TrialDisks {
    type D = MemDisk;

    ghost use Rattle.m3_outside.specs.Causes.{count_with};
    ghost use Rattle.mem_disk.specs.Slots.{held_of, counted_of, faults_of};

    ghost depot = { λ d. record { held = held_of d.disks; counted = counted_of d.disks; faults = count_with (faults_of d.disks) d.faults } };

    #[tactic(auto, using(crate::proofs::CountLemmas::counts_more, crate::proofs::CountLemmas::counts_same))]
    fn take(&mut self, slot: DiskSlot) -> Result<MemDisk, DiskErr> {
        if self.next_fails() {
            return Err(DiskErr::Failed);
        }
        self.disks.take(slot)
    }

    #[tactic(auto, using(crate::proofs::CountLemmas::counts_given, crate::proofs::CountLemmas::rose_given))]
    fn give(&mut self, slot: DiskSlot, disk: MemDisk) {
        self.disks.give(slot, disk);
    }

    fn faults(&self) -> u64 {
        self.disks.faults().saturating_add(self.faults)
    }
}

/// Lays a disk in a slot. Its faults count among all.
pub fn lay(disks: &mut TrialDisks, slot: DiskSlot, disk: MemDisk)
    requires { NoneIsOut disks.old }
    ensures { NoneIsOut disks.new }
{
    drop(disks.disks.put(slot, disk));
}

/// The faults of the disk in a slot. An empty disk lies there where none did.
#[tactic(auto, using(crate::proofs::DiskLemmas::none_is_out))]
pub fn faults_in(disks: &mut TrialDisks, slot: DiskSlot) -> Result<u64, DiskErr>
    requires { NoneIsOut disks.old }
    ensures { NoneIsOut disks.new }
{
    let disk = disks.disks.take(slot)?;
    let faults = disk.faults();
    disks.disks.give(slot, disk);
    Ok(faults)
}

// `x0.0.0.1:5:1` turns these bits of the byte of the file at the offset; other words are those of `disk_stories`.
fn do_word(
    alloc: Global,
    disk: &mut MemDisk,
    word: &str,
    out: &mut String,
) -> Result<bool, CaseErr> {
    let Some(rest) = word.strip_prefix("x") else {
        return Ok(say(alloc, disk, word, out)?);
    };
    let at = usize::try_from(number(part(rest, ':', 1))?).unwrap_or(usize::MAX);
    let bits = u8::try_from(number(part(rest, ':', 2))?).unwrap_or(0);
    Ok(turn(alloc, disk, file(part(rest, ':', 0)), at, bits)?)
}

/// Does a word on the disk of a slot, or on an empty one where none lay there, and writes what it tells into the text. False where there is
/// no such word, or it can't be done. The disk lies in its slot again in any case.
#[tactic(auto, using(crate::proofs::DiskLemmas::none_is_out))]
pub fn change(
    alloc: Global,
    disks: &mut TrialDisks,
    slot: DiskSlot,
    word: &str,
    out: &mut String,
) -> Result<bool, CaseErr>
    requires { NoneIsOut disks.old }
    ensures { NoneIsOut disks.new }
{
    let mut disk = disks.disks.take(slot)?;
    let done = do_word(alloc, &mut disk, word, out);
    disks.disks.give(slot, disk);
    done
}
