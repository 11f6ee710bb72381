//! What stands in a case: its two replicas, each over a disk of its own.
use crate::counted_disk::{CountedDisk, Counts};
use m3_outside::Disk;
use mem_disk::MemDisk;
use replica_stories::{Replica, rules_of, steps, stream};
use std::alloc::Global;
use std::mem;
use trial_lines::{CaseErr, Went};

// The windows of the two namespaces where a case sets none: blocks of 200, and points that expire after 500; blocks of 100, and points that
// expire after 300.
const WINDOWS: [[u64; 4]; 2] = [[200, 100, 50, 500], [100, 50, 50, 300]];

// A replica of a case.
type Told<'a> = Replica<CountedDisk<'a>>;

/// The replicas of a case, the windows under which new ones are made, and whether a disk failed that isn't there any more.
#[derive(Drop)]
pub struct Trial<'a> {
    alloc: Global,
    counts: &'a Counts,
    windows: [[u64; 4]; 2],
    here: Option<Told<'a>>,
    other: Option<Told<'a>>,
    failed: bool,
}

// Says the words of each line. What they answer comes into the text, a line each. Says whether all were done.
fn say_lines<'a>(
    replica: Told<'a>,
    lines: &str,
    out: &mut String,
) -> Result<(Told<'a>, bool), CaseErr> {
    let mut replica = replica;
    let mut all = true;
    for line in lines.lines() {
        if line.is_empty() {
            continue;
        }
        let (next, went) = steps(replica, line, out)?;
        out.push('\n')?;
        replica = next;
        all = all && went;
    }
    Ok((replica, all))
}

// Whether the replica's disk failed so far.
fn has_failed(replica: Option<Told<'_>>) -> bool {
    match replica {
        Some(replica) => 0 < replica.into_disk().faults(),
        None => false,
    }
}

impl<'a> Trial<'a> {
    /// A case at its beginning: both replicas are at Boot, over empty disks that never fail.
    pub fn new(alloc: Global, counts: &'a Counts) -> Trial<'a> {
        Trial {
            alloc,
            counts,
            windows: WINDOWS,
            here: None,
            other: None,
            failed: false,
        }
    }

    // A replica at Boot over a new disk.
    fn fresh(&self, fail: &[u64], fuse: Option<u64>) -> Result<Told<'a>, CaseErr> {
        let [first, second] = self.windows;
        let rules = rules_of(self.alloc, first, second)?;
        let disk = MemDisk::new(self.alloc, fail, fuse)?;
        let counts = self.counts;
        Ok(Replica::new(self.alloc, CountedDisk { disk, counts }, rules))
    }

    // The replica that words are said to.
    fn take(&mut self) -> Result<Told<'a>, CaseErr> {
        match self.here.take() {
            Some(replica) => Ok(replica),
            None => self.fresh(&[], None),
        }
    }

    // Another one stands there.
    fn put(&mut self, replica: Option<Told<'a>>) {
        let before = mem::replace(&mut self.here, replica);
        self.failed |= has_failed(before);
    }

    /// New replicas have these windows, and so has the one that words are said to, which is at Boot over an empty disk.
    pub fn set_windows(&mut self, windows: [[u64; 4]; 2]) {
        self.windows = windows;
        self.put(None);
    }

    /// Words are said to a replica at Boot over a new disk, of which these calls fail, and after so many all, until it starts again.
    pub fn lay_disk(&mut self, fail: &[u64], fuse: Option<u64>) -> Result<(), CaseErr> {
        let replica = self.fresh(fail, fuse)?;
        self.put(Some(replica));
        Ok(())
    }

    /// Words are said to the other replica from now on.
    pub fn turn(&mut self) {
        mem::swap(&mut self.here, &mut self.other);
    }

    /// Says the words of these lines. Says whether all were done.
    pub fn say(&mut self, lines: &str, out: &mut String) -> Result<bool, CaseErr> {
        let replica = self.take()?;
        let (replica, went) = say_lines(replica, lines, out)?;
        self.here = Some(replica);
        Ok(went)
    }

    /// Says the words of each of these lines to a new replica, behind those of the first lines, of which nothing is told.
    pub fn say_rows(
        &mut self,
        before: &str,
        rows: &str,
        out: &mut String,
    ) -> Result<bool, CaseErr> {
        let mut all = true;
        for row in rows.lines() {
            let mut scratch = String::new(self.alloc);
            self.put(None);
            all &= self.say(before, &mut scratch)?;
            self.say(row, out)?;
        }
        Ok(all)
    }

    /// Streams all pages of the other replica to this one, which merges them. Tells how many pages and points these were, and how many points were
    /// new or higher.
    pub fn stream(&mut self, out: &mut String) -> Result<(), CaseErr> {
        let mut here = self.take()?;
        self.turn();
        let mut from = self.take()?;
        match stream(&mut from, &mut here, true) {
            Ok(came) => write!(out, "{} {} {}|\n", came.pages, came.points, came.merged)?,
            Err(_) => out.push_str("refused|\n")?,
        }
        self.here = Some(here);
        self.other = Some(from);
        Ok(())
    }

    /// How the case went whose steps were all done.
    pub fn went(self) -> Went {
        let Trial {
            here,
            other,
            failed,
            ..
        } = self;
        let here = has_failed(here);
        let other = has_failed(other);
        if failed || here || other {
            return Went::Failed;
        }
        Went::Whole
    }
}
