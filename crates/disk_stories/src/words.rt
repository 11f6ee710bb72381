//! What words are made of: texts, numbers, files, and the trait by which a crate of tests gives its own words.
use m3_outside::{DiskErr, FileName};
use mem_disk::MemDisk;
use std::alloc::Global;

/// The words of a crate of tests.
pub trait Words {
    /// Does what the word says, and writes into the text what it tells. False where there is no such word, or it can't be done.
    fn say(
        alloc: Global,
        disk: &mut MemDisk,
        word: &str,
        out: &mut String,
    ) -> Result<bool, DiskErr>;

    /// Whether a file of this name is among those that a word may change, which are named so.
    fn may_change(files: &str, name: FileName) -> bool;

    /// Writes into the text what is to be told of damage once bits of the byte at this position of the file have been turned.
    fn tell_turned(
        alloc: Global,
        disk: &mut MemDisk,
        name: FileName,
        at: usize,
        out: &mut String,
    ) -> Result<(), DiskErr>;
}

/// The text that the bytes are, and the empty one where they are none.
pub fn text(bytes: &[u8]) -> &str {
    str::from_utf8(bytes).unwrap_or("")
}

/// A number; 0 where the text is none.
pub fn number(text: &str) -> u64 {
    text.parse::<u64>().unwrap_or(0)
}

/// The same of a number below 256.
pub fn small(text: &str) -> u8 {
    text.parse::<u8>().unwrap_or(0)
}

/// What stands before the first sign of this kind, and what stands behind it: nothing where there is none.
pub fn cut(text: &str, sign: char) -> (&str, &str) {
    text.split_once(sign).unwrap_or((text, ""))
}

/// The part of the text at this position, of those with a sign of this kind between them, from 0 on; nothing where there is none.
pub fn part(text: &str, sign: char, position: usize) -> &str {
    text.split(sign).nth(position).unwrap_or("")
}

/// The file `4.2.100.1`: its kind, its namespace, its block and its number.
pub fn file(text: &str) -> FileName {
    FileName {
        kind: small(part(text, '.', 0)),
        ns: small(part(text, '.', 1)),
        block: number(part(text, '.', 2)),
        number: number(part(text, '.', 3)),
    }
}
