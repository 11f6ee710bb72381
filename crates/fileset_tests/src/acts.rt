//! What the words of a story do to a disk.
use crate::tells::{tell, tell_turned};
use crate::words::{block, many, part, series};
use disk_stories::{Words, cut, digest_of, drop_file, files, make, number, text};
use fileset_check::is_volume;
use fileset_read::read_file;
use fileset_write::{remove, write};
use m3_model::{Seq, Series};
use m3_outside::{Disk, DiskErr, FileName};
use mem_disk::MemDisk;
use std::alloc::Global;
use volume_bytes::Head;

// Makes a file of the bytes of another one.
fn copy_file<D: Disk>(
    alloc: Global,
    disk: &mut D,
    from: FileName,
    to: FileName,
) -> Result<bool, DiskErr> {
    match read_file(alloc, disk, from)? {
        Some(bytes) => make(disk, to, bytes.len() as u64, bytes.as_slice()),
        None => Ok(false),
    }
}

// `y2.100.258` makes the first five files of the volume as those of 2.100.1.
fn copy<D: Disk>(alloc: Global, disk: &mut D, volume: &str) -> Result<bool, DiskErr> {
    for kind in 1..6 {
        copy_file(alloc, disk, part(kind, "2.100.1"), part(kind, volume))?;
    }
    Ok(true)
}

// Writes a volume of these series, where one may have them, and its number into the text.
fn write_rows<D: Disk>(
    alloc: Global,
    disk: &mut D,
    head: &Head,
    rows: &Seq<Series>,
    out: &mut String,
) -> Result<bool, DiskErr> {
    if !is_volume(head, rows.as_slice()) {
        return Ok(false);
    }
    let number = write(alloc, disk, head.ns, head.start, head.size, rows)?;
    write!(out, "{number}")?;
    Ok(true)
}

// `w2.100.50:hello,100=5;zulu` writes a volume of these series of the block.
fn write_volume<D: Disk>(
    alloc: Global,
    disk: &mut D,
    words: &str,
    out: &mut String,
) -> Result<bool, DiskErr> {
    let (head, rest) = cut(words, ':');
    let rows = series(alloc, rest)?;
    write_rows(alloc, disk, &block(head), &rows, out)
}

// `m17` writes a volume of 17 series.
fn write_many<D: Disk>(
    alloc: Global,
    disk: &mut D,
    count: &str,
    out: &mut String,
) -> Result<bool, DiskErr> {
    let rows = many(alloc, number(count))?;
    write_rows(alloc, disk, &block("0.1000.200"), &rows, out)
}

// `x2.100.1` takes a volume away.
fn take_away<D: Disk>(disk: &mut D, volume: &str) -> Result<bool, DiskErr> {
    let name = part(7, volume);
    remove(disk, name.ns, name.block, name.number)?;
    Ok(true)
}

// Makes the file of the digests of a volume anew, from its first five files as they are.
fn seal_files<D: Disk>(alloc: Global, disk: &mut D, volume: &str) -> Result<bool, DiskErr> {
    let mut all = [0; 160];
    for kind in 0..5u8 {
        let digest = digest_of(alloc, disk, part(kind + 1, volume))?;
        let at = usize::from(kind) * 32;
        all[at..at + 32].copy_from_slice(&digest);
    }
    drop_file(disk, part(6, volume))?;
    make(disk, part(6, volume), 160, &all)
}

// Makes its checkpoint anew, from its digests as they are.
fn seal_digests<D: Disk>(alloc: Global, disk: &mut D, volume: &str) -> Result<bool, DiskErr> {
    let mut gate = [1; 33];
    gate[1..].copy_from_slice(&digest_of(alloc, disk, part(6, volume))?);
    drop_file(disk, part(7, volume))?;
    make(disk, part(7, volume), 33, &gate)
}

// `s2.100.1` makes both.
fn seal<D: Disk>(alloc: Global, disk: &mut D, volume: &str) -> Result<bool, DiskErr> {
    if !seal_files(alloc, disk, volume)? {
        return Ok(false);
    }
    seal_digests(alloc, disk, volume)
}

// Does what a word of volumes says, or else of files.
fn act(alloc: Global, disk: &mut MemDisk, word: &str, out: &mut String) -> Result<bool, DiskErr> {
    match word.as_bytes() {
        [b'w', rest @ ..] => write_volume(alloc, disk, text(rest), out),
        [b'm', rest @ ..] => write_many(alloc, disk, text(rest), out),
        [b'x', rest @ ..] => take_away(disk, text(rest)),
        [b'y', rest @ ..] => copy(alloc, disk, text(rest)),
        [b's', rest @ ..] => seal(alloc, disk, text(rest)),
        [b'S', rest @ ..] => seal_digests(alloc, disk, text(rest)),
        _ => files::say(alloc, disk, word, out),
    }
}

/// The words of volumes.
pub struct Volumes;

impl Words for Volumes {
    fn say(
        alloc: Global,
        disk: &mut MemDisk,
        word: &str,
        out: &mut String,
    ) -> Result<bool, DiskErr> {
        if tell(alloc, disk, word, out)? {
            return Ok(true);
        }
        act(alloc, disk, word, out)
    }

    // `2.100.1` are the files of this volume.
    fn may_change(files: &str, name: FileName) -> bool {
        1 <= name.kind && name.kind <= 7 && name == part(name.kind, files)
    }

    fn tell_turned(
        _alloc: Global,
        _disk: &mut MemDisk,
        name: FileName,
        at: usize,
        out: &mut String,
    ) -> Result<(), DiskErr> {
        tell_turned(name, at, out)
    }
}
