//! The words of snapshots: saved, sealed, taken away and told.
ghost use Rattle.std.specs.Prelude.{◌≡◌, true, IfOk, IsTrue};
ghost use Rattle.m3_outside.specs.DiskState.{DiskState, Told};
ghost use Rattle.snapshot_files.specs.Snaps.{IsNew};

use crate::tells::{tell_newest, tell_number};
use disk_stories::{Words, cut, files, number, part, small, text};
use fileset_read::read_file;
use m3_model::{Memory, Point, Seq, Text};
use m3_outside::{Disk, DiskErr, FileName};
use mem_disk::MemDisk;
use snapshot_files::{Snap, clear_before, is_snapshot, save};
use std::alloc::Global;

/// The name of a snapshot's data.
pub fn data_name(number: u64) -> FileName
    ensures { result ≡ record { kind = 8; ns = 0; block = 0; number = number } }
{
    FileName {
        kind: 8,
        ns: 0,
        block: 0,
        number,
    }
}

/// The name of its checkpoint.
pub fn checkpoint_name(number: u64) -> FileName
    ensures { result ≡ record { kind = 9; ns = 0; block = 0; number = number } }
{
    FileName {
        kind: 9,
        ns: 0,
        block: 0,
        number,
    }
}

// An identifier; of `*512` it is one of so many letters.
fn identifier(alloc: Global, text: &str) -> Result<Text, Memory> {
    let Some(count) = text.strip_prefix('*') else {
        return Text::from_str(alloc, text);
    };
    let letters = "a".repeat(alloc, number(count) as usize)?;
    Text::from_str(alloc, letters.as_str())
}

// The point `0,hello,100,5`: its namespace, its identifier, its time and its value.
fn point(alloc: Global, text: &str) -> Result<Point, Memory> {
    Ok(Point {
        ns: small(part(text, ',', 0)),
        id: identifier(alloc, part(text, ',', 1))?,
        t: number(part(text, ',', 2)),
        v: part(text, ',', 3).parse::<i64>().unwrap_or(0),
    })
}

// Points, each with `;` behind it.
fn points(alloc: Global, text: &str) -> Result<Vec<Point>, Memory> {
    let mut points = Vec::new(alloc);
    for one in text.split_terminator(';') {
        points.push(point(alloc, one)?)?;
    }
    Ok(points)
}

// The snapshot `5.3.7.2:0,hello,100,5;`: its number, its tenure, its fence, its first segment and its points.
fn snap(alloc: Global, text: &str) -> Result<Snap, Memory> {
    let (head, rest) = cut(text, ':');
    let points = Seq::from_vec(points(alloc, rest)?);
    Ok(Snap {
        number: number(part(head, '.', 0)),
        tenure: number(part(head, '.', 1)),
        fence: number(part(head, '.', 2)),
        first: number(part(head, '.', 3)),
        points,
    })
}

// Whether no file of the snapshot is there.
fn is_new<D: Disk>(disk: &mut D, number: u64) -> Result<bool, DiskErr>
    ensures { IfOk result (λ is. IsTrue is → Told (D.state disk.new) (IsNew number)) }
{
    if disk.size(data_name(number))?.is_some() {
        return Ok(false);
    }
    Ok(disk.size(checkpoint_name(number))?.is_none())
}

// `w5.3.7.2:0,hello,100,5;` saves a snapshot, where it is one and its number is new.
fn save_one<D: Disk>(alloc: Global, disk: &mut D, words: &str) -> Result<bool, DiskErr> {
    let snap = snap(alloc, words)?;
    if !is_snapshot(&snap) || !is_new(disk, snap.number)? {
        return Ok(false);
    }
    save(alloc, disk, &snap)?;
    Ok(true)
}

// `x5` takes away all snapshots below the number.
fn clear<D: Disk>(alloc: Global, disk: &mut D, number: u64) -> Result<bool, DiskErr> {
    clear_before(alloc, disk, number)?;
    Ok(true)
}

// `s5` makes the checkpoint of a snapshot anew, from its data as it is.
fn seal<D: Disk>(alloc: Global, disk: &mut D, number: u64) -> Result<bool, DiskErr> {
    let mut gate = [1; 33];
    gate[1..].copy_from_slice(&files::digest_of(alloc, disk, data_name(number))?);
    files::drop_file(disk, checkpoint_name(number))?;
    files::make(disk, checkpoint_name(number), 33, &gate)
}

// The digests that are kept and found of the data of the snapshot 5.
fn tell_digests<D: Disk>(alloc: Global, disk: &mut D, out: &mut String) -> Result<(), DiskErr> {
    out.push_str("digest of 8.0.0.5")?;
    if let Some(gate) = read_file(alloc, disk, checkpoint_name(5))? {
        let kept = gate.as_slice().get(1..).unwrap_or(&[]);
        files::tell_bytes(alloc, " kept ", kept, out)?;
    }
    let found = files::digest_of(alloc, disk, data_name(5))?;
    files::tell_bytes(alloc, " found ", &found, out)
}

/// The words of snapshots.
pub struct Snapshots;

impl Words for Snapshots {
    fn say(
        alloc: Global,
        disk: &mut MemDisk,
        word: &str,
        out: &mut String,
    ) -> Result<bool, DiskErr> {
        match word.as_bytes() {
            [b'w', rest @ ..] => save_one(alloc, disk, text(rest)),
            [b'x', rest @ ..] => clear(alloc, disk, number(text(rest))),
            [b's', rest @ ..] => seal(alloc, disk, number(text(rest))),
            [b'e'] => tell_newest(alloc, disk, out),
            [b'n'] => tell_number(alloc, disk, out),
            _ => files::say(alloc, disk, word, out),
        }
    }

    // `5` are the files of the snapshot of this number, and `<5` those of all that are below.
    fn may_change(files: &str, name: FileName) -> bool {
        let is_named = match files.as_bytes() {
            [b'<', rest @ ..] => name.number < number(text(rest)),
            _ => name.number == number(files),
        };
        is_named && name.ns == 0 && name.block == 0 && 8 <= name.kind && name.kind <= 9
    }

    // The newest is the snapshot 5: its data has another digest than its checkpoint keeps, but where the gate was turned it is 4.
    fn tell_turned(
        alloc: Global,
        disk: &mut MemDisk,
        name: FileName,
        at: usize,
        out: &mut String,
    ) -> Result<(), DiskErr> {
        if name == checkpoint_name(5) && at == 0 {
            out.push_str("4.1.2.3:1,old,5,6;")?;
            return Ok(());
        }
        tell_digests(alloc, disk, out)
    }
}
