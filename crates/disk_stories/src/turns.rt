//! Files of which each bit is turned.
use crate::files::turn;
use crate::stories::{quietly, steps};
use crate::words::Words;
use m3_outside::{DiskErr, FileName};
use mem_disk::MemDisk;
use std::alloc::Global;
use std::ops::Range;
use std::test::Fail;

// Whether what the words tell is what is to be told, where a byte at this offset has been turned.
fn are_told<W: Words>(
    alloc: Global,
    disk: &mut MemDisk,
    words: &str,
    name: FileName,
    at: usize,
) -> Result<bool, DiskErr> {
    let mut told = String::new(alloc);
    let mut wanted = String::new(alloc);
    steps::<W>(alloc, disk, words, &mut told)?;
    W::tell_turned(alloc, disk, name, at, &mut wanted)?;
    wanted.push('|')?;
    Ok(told == wanted)
}

// Turns the bits, says the words, and turns the bits back. False where there is no such byte, too.
fn is_told<W: Words>(
    alloc: Global,
    disk: &mut MemDisk,
    words: &str,
    name: FileName,
    at: usize,
    bits: u8,
) -> Result<bool, DiskErr> {
    if !turn(alloc, disk, name, at, bits)? {
        return Ok(false);
    }
    let is_told = are_told::<W>(alloc, disk, words, name, at)?;
    turn(alloc, disk, name, at, bits)?;
    Ok(is_told)
}

/// Each bit of a byte.
pub const EACH_BIT: [u8; 8] = [1, 2, 4, 8, 16, 32, 64, 128];

// The first byte among these of which one of these bits isn't told as it is to be.
fn first_on<W: Words>(
    alloc: Global,
    disk: &mut MemDisk,
    words: &str,
    name: FileName,
    offsets: Range<usize>,
    bits: &[u8],
) -> Result<Option<usize>, DiskErr> {
    for at in offsets {
        for bit in bits {
            if !is_told::<W>(alloc, disk, words, name, at, *bit)? {
                return Ok(Some(at));
            }
        }
    }
    Ok(None)
}

// The same, where the first words come before.
fn first_behind<W: Words>(
    alloc: Global,
    disk: &mut MemDisk,
    words: [&str; 2],
    name: FileName,
    offsets: Range<usize>,
    bits: &[u8],
) -> Result<Option<usize>, DiskErr> {
    let [before, last] = words;
    if !quietly::<W>(alloc, disk, before)? {
        return Ok(Some(0));
    }
    first_on::<W>(alloc, disk, last, name, offsets, bits)
}

/// The first byte of the file among these of which one of these bits is turned and the last words don't tell what they are to; none
/// where there is no such byte. The first words come before, and each bit is turned back.
pub fn first_untold<W: Words>(
    alloc: Global,
    words: [&str; 2],
    name: FileName,
    offsets: Range<usize>,
    bits: &[u8],
) -> Result<Option<usize>, Fail> {
    let mut disk = MemDisk::new(alloc, &[], None)?;
    let untold = first_behind::<W>(alloc, &mut disk, words, name, offsets, bits);
    Ok(untold?)
}
