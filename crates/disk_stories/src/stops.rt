//! Words while the disk stops, or fails once, at each of their calls.
//!
//! A row has parts with `%` between them: the words that come before, the words that are stopped, the files that these may change,
//! the words that tell what is left, and the pick with which the disk starts again.
use crate::files::digest_of;
use crate::stories::{quietly, steps};
use crate::words::{Words, number, part};
use m3_outside::{Disk, DiskErr, FileName};
use mem_disk::MemDisk;
use std::alloc::Global;
use std::test::Fail;

// More than all calls of a row.
const MOST_CALLS: u64 = 500;

// The picks that leave none and all of four pending writes.
const NONE: u64 = 0;

const ALL: u64 = 85;

fn field(row: &str, position: usize) -> &str {
    part(row, '%', position)
}

// One mark of two digests, in this order.
fn of_both(one: &[u8; 32], other: &[u8; 32]) -> [u8; 32] {
    let mut both = *other;
    for i in 0..32 {
        both[i] ^= one[i].rotate_left(1);
    }
    both
}

fn digest_of_others<W: Words>(
    alloc: Global,
    disk: &mut MemDisk,
    names: &[FileName],
    files: &str,
) -> Result<[u8; 32], DiskErr> {
    let mut all = [0; 32];
    for name in names {
        if !W::may_change(files, *name) {
            let of_file = digest_of(alloc, disk, *name)?;
            all = of_both(&all, &of_file);
        }
    }
    Ok(all)
}

// A digest of all files but these.
fn others<W: Words>(alloc: Global, disk: &mut MemDisk, files: &str) -> Result<[u8; 32], DiskErr> {
    let names = disk.list()?;
    digest_of_others::<W>(alloc, disk, names.as_slice(), files)
}

// How far a disk came before it stopped.
#[derive(Clone, Copy, PartialEq)]
enum Stop {
    // Not to the words that are to be stopped.
    Before,
    Within,
    After,
}

// Says the first words, and gives a digest of what those that are stopped are to leave as it is.
fn set_up<W: Words>(alloc: Global, disk: &mut MemDisk, row: &str) -> Result<[u8; 32], DiskErr> {
    if !quietly::<W>(alloc, disk, field(row, 0))? {
        return Err(DiskErr::Failed);
    }
    others::<W>(alloc, disk, field(row, 2))
}

// Says the words of a row, up to the stop; then the disk starts again, and what the last words tell is written into the text:
// `other` in front of it where another file isn't as it was.
fn stopped<W: Words>(
    alloc: Global,
    disk: &mut MemDisk,
    row: &str,
    pick: u64,
    out: &mut String,
) -> Result<Stop, DiskErr> {
    let Ok(before) = set_up::<W>(alloc, disk, row) else {
        return Ok(Stop::Before);
    };
    let done = quietly::<W>(alloc, disk, field(row, 1))?;
    disk.restart(pick)?;
    if others::<W>(alloc, disk, field(row, 2))? != before {
        out.push_str("other ")?;
    }
    steps::<W>(alloc, disk, field(row, 3), out)?;
    Ok(if done { Stop::After } else { Stop::Within })
}

fn with_fuse<W: Words>(
    alloc: Global,
    fuse: u64,
    row: &str,
    pick: u64,
    out: &mut String,
) -> Result<Stop, Fail> {
    let mut disk = MemDisk::new(alloc, &[], Some(fuse))?;
    Ok(stopped::<W>(alloc, &mut disk, row, pick, out)?)
}

// What each fuse leaves, up to the first at which the words aren't stopped.
fn all_stops<W: Words>(alloc: Global, row: &str, pick: u64, out: &mut String) -> Result<(), Fail> {
    for fuse in 0..MOST_CALLS {
        if with_fuse::<W>(alloc, fuse, row, pick, out)? == Stop::After {
            break;
        }
    }
    Ok(())
}

// Says the words of a row, of which those that are to be stopped fail once.
fn failed<W: Words>(
    alloc: Global,
    disk: &mut MemDisk,
    row: &str,
    out: &mut String,
) -> Result<Stop, DiskErr> {
    if !quietly::<W>(alloc, disk, field(row, 0))? {
        return Ok(Stop::Before);
    }
    let done = steps::<W>(alloc, disk, field(row, 1), out)?;
    Ok(if done { Stop::After } else { Stop::Within })
}

fn with_fault<W: Words>(
    alloc: Global,
    call: u64,
    row: &str,
    out: &mut String,
) -> Result<Stop, Fail> {
    let mut disk = MemDisk::new(alloc, &[call], None)?;
    Ok(failed::<W>(alloc, &mut disk, row, out)?)
}

// What the words tell where each of their calls fails, up to the first at which none does.
fn all_faults<W: Words>(alloc: Global, row: &str, out: &mut String) -> Result<(), Fail> {
    for call in 0..MOST_CALLS {
        if with_fault::<W>(alloc, call, row, out)? == Stop::After {
            break;
        }
    }
    Ok(())
}

/// What is done to the disk at each call of a row's words.
#[derive(Clone, Copy, PartialEq)]
pub enum At {
    /// It stops there.
    Stop,
    /// It fails there, once.
    Fault,
}

/// The first of these rows that doesn't tell what it is to, and what it told; nothing where there is none. What it is to tell, one
/// call after another, stands behind ` => `.
pub fn first_wrong<W: Words>(alloc: Global, rows: &str, at: At) -> Result<String, Fail> {
    let mut out = String::new(alloc);
    for row in rows.lines() {
        let (words, wanted) = row.split_once(" => ").unwrap_or((row, ""));
        match at {
            At::Stop => all_stops::<W>(alloc, words, number(field(words, 4)), &mut out)?,
            At::Fault => all_faults::<W>(alloc, words, &mut out)?,
        }
        if out.as_str() != wanted {
            write!(out, " of {words}")?;
            return Ok(out);
        }
        out.clear();
    }
    Ok(out)
}

// Whether each of these is one of two, which stand at its offset.
fn are_either(told: &str, one: &str, other: &str) -> bool {
    let both = one.split('|').zip(other.split('|'));
    told.split('|').count() == one.split('|').count()
        && told
            .split('|')
            .zip(both)
            .all(|(told, (one, other))| told == one || told == other)
}

// What each fuse leaves with this pick.
fn left<W: Words>(alloc: Global, row: &str, pick: u64) -> Result<String, Fail> {
    let mut out = String::new(alloc);
    all_stops::<W>(alloc, row, pick, &mut out)?;
    Ok(out)
}

/// The first pick below this one with which a fuse leaves neither what it leaves without the pending writes nor what it leaves with
/// all of them; none where there is no such pick.
pub fn first_other<W: Words>(alloc: Global, row: &str, picks: u64) -> Result<Option<u64>, Fail> {
    let none = left::<W>(alloc, row, NONE)?;
    let all = left::<W>(alloc, row, ALL)?;
    for pick in 0..picks {
        let told = left::<W>(alloc, row, pick)?;
        if !are_either(told.as_str(), none.as_str(), all.as_str()) {
            return Ok(Some(pick));
        }
    }
    Ok(None)
}
