//! Stories of words on one disk in memory.
use crate::words::Words;
use m3_outside::DiskErr;
use mem_disk::MemDisk;
use std::alloc::Global;
use std::test::Fail;

// What the answer to a word is written as.
fn mark(answer: Result<bool, DiskErr>) -> &'static str {
    match answer {
        Ok(true) => "|",
        Ok(false) => "no|",
        Err(DiskErr::Failed) => "fault|",
        Err(DiskErr::Memory) => "memory|",
    }
}

/// What each of the words tells, with a mark behind it, until one fails. Says whether none did.
pub fn steps<W: Words>(
    alloc: Global,
    disk: &mut MemDisk,
    words: &str,
    out: &mut String,
) -> Result<bool, DiskErr> {
    for word in words.split(' ') {
        let answer = W::say(alloc, disk, word, out);
        out.push_str(mark(answer))?;
        if answer.is_err() {
            return Ok(false);
        }
    }
    Ok(true)
}

/// Says the words. What they tell is lost.
pub fn quietly<W: Words>(alloc: Global, disk: &mut MemDisk, words: &str) -> Result<bool, DiskErr> {
    let mut scratch = String::new(alloc);
    steps::<W>(alloc, disk, words, &mut scratch)
}

// What the words of a row tell on the disk, once others were said; or what others behind them tell, where there are such.
fn say_all<W: Words>(
    alloc: Global,
    disk: &mut MemDisk,
    all: [&str; 3],
    out: &mut String,
) -> Result<(), DiskErr> {
    for words in all {
        if !words.is_empty() {
            out.clear();
            steps::<W>(alloc, disk, words, out)?;
        }
    }
    Ok(())
}

fn told<W: Words>(alloc: Global, all: [&str; 3], out: &mut String) -> Result<(), Fail> {
    let mut disk = MemDisk::new(alloc, &[], None)?;
    Ok(say_all::<W>(alloc, &mut disk, all, out)?)
}

/// The first of these rows that doesn't tell what it is to, and what it told; nothing where there is none. What it is to tell
/// stands behind ` => `. Other words come before those of each row, and others behind them, which tell.
pub fn first_wrong<W: Words>(
    alloc: Global,
    before: &str,
    rows: &str,
    last: &str,
) -> Result<String, Fail> {
    let mut out = String::new(alloc);
    for row in rows.lines() {
        let (words, wanted) = row.split_once(" => ").unwrap_or((row, ""));
        told::<W>(alloc, [before, words, last], &mut out)?;
        if out.as_str() != wanted {
            write!(out, " of {words}")?;
            return Ok(out);
        }
    }
    out.clear();
    Ok(out)
}
