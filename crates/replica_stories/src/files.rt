//! Words of the files of a replica's disk.
use crate::tells::{tell_fault, tell_kind};
use disk_stories::{cut, decoded, file, make, number, part, say, small, text, turn};
use m3_model::Memory;
use m3_outside::{Disk, DiskErr, FileName};
use std::alloc::Global;

// How many of these files are of this kind.
fn count_kind(names: &[FileName], kind: u8) -> usize {
    names.iter().filter(|name| name.kind == kind).count()
}

// `c` tells how many segments there are, and how many files of snapshots and of their checkpoints.
fn tell_counts<D: Disk>(disk: &mut D, out: &mut String) -> Result<bool, DiskErr> {
    let names = disk.list()?;
    for kind in [0, 8, 9] {
        write!(out, " {}", count_kind(names.as_slice(), kind))?;
    }
    Ok(true)
}

// `l` tells the checkpoints of volumes.
fn tell_checkpoints<D: Disk>(disk: &mut D, out: &mut String) -> Result<bool, DiskErr> {
    let names = disk.list()?;
    tell_kind(names.as_slice(), 7, out)?;
    Ok(true)
}

// `/x1.0.1000.1:5:32` turns these bits of the byte of the file at the offset.
fn turn_bits<D: Disk>(alloc: Global, disk: &mut D, words: &str) -> Result<bool, DiskErr> {
    let at = usize::try_from(number(part(words, ':', 1))).unwrap_or(usize::MAX);
    turn(
        alloc,
        disk,
        file(part(words, ':', 0)),
        at,
        small(part(words, ':', 2)),
    )
}

// `/m0.0.0.2:65536:0102` makes a file of so many bytes, of which these are the first and the others are zeros.
fn make_file<D: Disk>(alloc: Global, disk: &mut D, words: &str) -> Result<bool, DiskErr> {
    let (name, words) = cut(words, ':');
    let (size, digits) = cut(words, ':');
    let bytes = decoded(alloc, digits)?;
    make(disk, file(name), number(size), &bytes)
}

// Other words with `/` in front are those of `disk_stories`.
fn do_word<D: Disk>(
    alloc: Global,
    disk: &mut D,
    word: &str,
    out: &mut String,
) -> Result<bool, DiskErr> {
    match word.as_bytes() {
        [b'l'] => tell_checkpoints(disk, out),
        [b'c'] => tell_counts(disk, out),
        [b'/', b'x', rest @ ..] => turn_bits(alloc, disk, text(rest)),
        [b'/', b'm', rest @ ..] => make_file(alloc, disk, text(rest)),
        [b'/', rest @ ..] => say(alloc, disk, text(rest), out),
        _ => Ok(false),
    }
}

/// Whether the word is one of the files of a disk.
pub(crate) fn is_of_files(word: &str) -> bool {
    word == "l" || word == "c" || word.starts_with('/')
}

/// Does what a word of files says. Says whether it was done, and tells `no` or a fault where it wasn't.
pub(crate) fn change_files<D: Disk>(
    alloc: Global,
    disk: &mut D,
    word: &str,
    out: &mut String,
) -> Result<bool, Memory> {
    match do_word(alloc, disk, word, out) {
        Ok(true) => Ok(true),
        Ok(false) => {
            out.push_str("no")?;
            Ok(false)
        }
        Err(why) => {
            tell_fault(why, out)?;
            Ok(false)
        }
    }
}
