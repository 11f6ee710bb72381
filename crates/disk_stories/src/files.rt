//! Words of files: made, changed, taken away and told, and the disk that starts again.
use crate::words::{cut, file, number, part, text};
use fileset_read::read_file;
use m3_model::Memory;
use m3_outside::{Disk, DiskErr, FileName};
use std::alloc::Global;
use wire_bytes::digest;

// Writes the bytes into a file from this offset on, where there is such a range.
fn write_in<D: Disk>(disk: &mut D, name: FileName, at: u64, bytes: &[u8]) -> Result<bool, DiskErr> {
    disk.reserve(1)?;
    let Some(size) = disk.size(name)? else {
        return Ok(false);
    };
    if at > size || bytes.len() as u64 > size - at {
        return Ok(false);
    }
    disk.write_at(name, at, bytes)?;
    Ok(true)
}

fn sync<D: Disk>(disk: &mut D, name: FileName) -> Result<bool, DiskErr> {
    disk.reserve(1)?;
    let Some(_) = disk.size(name)? else {
        return Ok(false);
    };
    disk.sync(name)?;
    Ok(true)
}

/// Writes the bytes into a file from this offset on, where there is such a range, and syncs it.
pub fn put<D: Disk>(disk: &mut D, name: FileName, at: u64, bytes: &[u8]) -> Result<bool, DiskErr> {
    if !write_in(disk, name, at, bytes)? {
        return Ok(false);
    }
    sync(disk, name)
}

/// Makes a file of so many bytes, of which these are the first and the others are zeros, where there is none of the name.
pub fn make<D: Disk>(
    disk: &mut D,
    name: FileName,
    size: u64,
    bytes: &[u8],
) -> Result<bool, DiskErr> {
    if disk.size(name)?.is_some() {
        return Ok(false);
    }
    disk.create(name, size)?;
    put(disk, name, 0, bytes)
}

/// Takes a file away, where it is there.
pub fn drop_file<D: Disk>(disk: &mut D, name: FileName) -> Result<bool, DiskErr> {
    disk.reserve(1)?;
    let Some(_) = disk.size(name)? else {
        return Ok(false);
    };
    disk.remove(name)?;
    Ok(true)
}

/// The bytes that the hexadecimal digits are, and none where they are no such.
pub fn decoded(alloc: Global, digits: &str) -> Result<Vec<u8>, DiskErr> {
    match hex::decode(alloc, digits) {
        Ok(bytes) => Ok(bytes),
        Err(_) => Ok(Vec::new(alloc)),
    }
}

// `c4.2.100.1:00ff` makes a file of these bytes.
fn create<D: Disk>(alloc: Global, disk: &mut D, words: &str) -> Result<bool, DiskErr> {
    let (name, digits) = cut(words, ':');
    let bytes = decoded(alloc, digits)?;
    make(disk, file(name), bytes.len() as u64, &bytes)
}

// `b4.2.100.1:3:ff` writes these bytes over those from the offset on.
fn overwrite<D: Disk>(alloc: Global, disk: &mut D, words: &str) -> Result<bool, DiskErr> {
    let bytes = decoded(alloc, part(words, ':', 2))?;
    let at = number(part(words, ':', 1));
    put(disk, file(part(words, ':', 0)), at, &bytes)
}

/// So many bytes of a file from this offset on, and none where it has fewer.
pub fn bytes_at<D: Disk>(
    alloc: Global,
    disk: &mut D,
    name: FileName,
    at: u64,
    len: usize,
) -> Result<Vec<u8>, DiskErr> {
    let Some(size) = disk.size(name)? else {
        return Ok(Vec::new(alloc));
    };
    if at > size || len as u64 > size - at {
        return Ok(Vec::new(alloc));
    }
    let mut bytes = vec![in alloc; 0u8; len]?;
    disk.read(name, at, &mut bytes)?;
    Ok(bytes)
}

/// Turns these bits of the byte of the file at the offset, where there is one.
pub fn turn<D: Disk>(
    alloc: Global,
    disk: &mut D,
    name: FileName,
    at: usize,
    bits: u8,
) -> Result<bool, DiskErr> {
    let bytes = bytes_at(alloc, disk, name, at as u64, 1)?;
    match bytes.first() {
        Some(byte) => put(disk, name, at as u64, &[*byte ^ bits]),
        None => Ok(false),
    }
}

// `p85` stops the process, the pick says what is left, and it starts again.
fn restart<D: Disk>(disk: &mut D, pick: &str) -> Result<bool, DiskErr> {
    disk.restart(number(pick))?;
    Ok(true)
}

/// The digest of a file, and that of no bytes where there is no such file.
pub fn digest_of<D: Disk>(
    alloc: Global,
    disk: &mut D,
    name: FileName,
) -> Result<[u8; 32], DiskErr> {
    match read_file(alloc, disk, name)? {
        Some(bytes) => Ok(digest(bytes.as_slice())),
        None => Ok(digest(&[])),
    }
}

/// A file, as ` 4.2.100.1`.
pub fn tell_name(name: FileName, out: &mut String) -> Result<(), Memory> {
    let FileName {
        kind,
        ns,
        block,
        number,
    } = name;
    write!(out, " {kind}.{ns}.{block}.{number}")?;
    Ok(())
}

/// The bytes as hexadecimal digits, behind these words.
pub fn tell_bytes(
    alloc: Global,
    before: &str,
    bytes: &[u8],
    out: &mut String,
) -> Result<(), DiskErr> {
    out.push_str(before)?;
    let digits = hex::encode(alloc, bytes)?;
    out.push_str(digits.as_str())?;
    Ok(())
}

// `l` tells all files.
fn tell_files<D: Disk>(disk: &mut D, out: &mut String) -> Result<bool, DiskErr> {
    let names = disk.list()?;
    for name in names.as_slice() {
        tell_name(*name, out)?;
    }
    Ok(true)
}

// `g4.2.100.1` tells the bytes of a file.
fn tell_file<D: Disk>(
    alloc: Global,
    disk: &mut D,
    name: FileName,
    out: &mut String,
) -> Result<bool, DiskErr> {
    match read_file(alloc, disk, name)? {
        Some(bytes) => tell_bytes(alloc, "", bytes.as_slice(), out)?,
        None => out.push('-')?,
    }
    Ok(true)
}

/// Does what a word of files says, and writes into the text what it tells. False where there is no such word, or it can't be done.
pub fn say<D: Disk>(
    alloc: Global,
    disk: &mut D,
    word: &str,
    out: &mut String,
) -> Result<bool, DiskErr> {
    match word.as_bytes() {
        [b'c', rest @ ..] => create(alloc, disk, text(rest)),
        [b'd', rest @ ..] => drop_file(disk, file(text(rest))),
        [b'b', rest @ ..] => overwrite(alloc, disk, text(rest)),
        [b'p', rest @ ..] => restart(disk, text(rest)),
        [b'l'] => tell_files(disk, out),
        [b'g', rest @ ..] => tell_file(alloc, disk, file(text(rest)), out),
        _ => Ok(false),
    }
}
