//! What the words of a story tell of a disk.
ghost use Rattle.std.specs.Prelude.{◌≡◌, true};
ghost use Rattle.m3_model.specs.Members.{IsIn};
ghost use Rattle.m3_outside.specs.DiskState.{DiskState, Told};
ghost use Rattle.volume_bytes.specs.Heads.{head_of};
ghost use Rattle.fileset_read.specs.Volumes.{IsThere};
ghost use Rattle.fileset_check.specs.declared.volume.Volume.{Volume as Listed};

use crate::joins::{tell_both, tell_matched, tell_rows_joined, tell_series_found};
use crate::words::part;
use disk_stories::{number, tell_bytes, tell_name, text};
use fileset_check::{CheckErr, Volume, volumes};
use fileset_read::{FileErr, counted, read_file, row, rows};
use m3_model::{Memory, Series};
use m3_outside::{Disk, DiskErr, FileName};
use std::alloc::Global;
use wire_bytes::digest;

// A series with its times and values.
fn tell_series(one: &Series, out: &mut String) -> Result<(), Memory> {
    write!(out, "({}", one.id.as_str())?;
    for (t, v) in one.points.as_slice() {
        write!(out, " {t}={v}")?;
    }
    out.push(')')?;
    Ok(())
}

/// Series, one behind the other.
pub fn tell_all(rows: &[Series], out: &mut String) -> Result<(), Memory> {
    for one in rows {
        tell_series(one, out)?;
    }
    Ok(())
}

/// What is told in place of series.
pub fn of_file(e: FileErr, out: &mut String) -> Result<(), DiskErr> {
    match e {
        FileErr::Disk => Err(DiskErr::Failed),
        FileErr::Memory => Err(DiskErr::Memory),
        FileErr::Form { file } => {
            out.push_str("form of")?;
            Ok(tell_name(file, out)?)
        }
    }
}

// A volume that is listed, with its numbers of series and points.
fn tell_head(volume: &Volume, out: &mut String) -> Result<(), Memory> {
    let Volume {
        head,
        series,
        points,
    } = *volume;
    write!(
        out,
        "{}.{}.{}.{} {series}/{points} ",
        head.ns, head.start, head.size, head.number
    )?;
    Ok(())
}

fn tell_rows<D: Disk>(
    alloc: Global,
    disk: &mut D,
    volume: &Volume,
    out: &mut String,
) -> Result<(), DiskErr>
    requires there { Told (D.state disk.old) (IsThere (head_of volume.now.head)) }
    ensures tells { (D.state disk.new).tells ≡ (D.state disk.old).tells }
    ensures files { (D.state disk.old).tells ≡ true → (D.state disk.new).files ≡ (D.state disk.old).files }
{
    match rows(alloc, disk, &volume.head) {
        Ok(rows) => Ok(tell_all(rows.as_slice(), out)?),
        Err(e) => of_file(e, out),
    }
}

fn tell_row<D: Disk>(
    alloc: Global,
    disk: &mut D,
    volume: &Volume,
    id: &str,
    out: &mut String,
) -> Result<(), DiskErr>
    requires there { Told (D.state disk.old) (IsThere (head_of volume.now.head)) }
    ensures tells { (D.state disk.new).tells ≡ (D.state disk.old).tells }
    ensures files { (D.state disk.old).tells ≡ true → (D.state disk.new).files ≡ (D.state disk.old).files }
{
    match row(alloc, disk, &volume.head, id) {
        Ok(Some(one)) => Ok(tell_series(&one, out)?),
        Ok(None) => Ok(out.push('-')?),
        Err(e) => of_file(e, out),
    }
}

// A volume, with all its series or with one of them.
fn tell_volume<D: Disk>(
    alloc: Global,
    disk: &mut D,
    volume: &Volume,
    id: Option<&str>,
    out: &mut String,
) -> Result<(), DiskErr>
    requires there { Told (D.state disk.old) (IsThere (head_of volume.now.head)) }
    ensures tells { (D.state disk.new).tells ≡ (D.state disk.old).tells }
    ensures files { (D.state disk.old).tells ≡ true → (D.state disk.new).files ≡ (D.state disk.old).files }
{
    tell_head(volume, out)?;
    match id {
        None => tell_rows(alloc, disk, volume, out),
        Some(id) => tell_row(alloc, disk, volume, id, out),
    }
}

fn tell_volumes<D: Disk>(
    alloc: Global,
    disk: &mut D,
    volumes: &[Volume],
    id: Option<&str>,
    out: &mut String,
) -> Result<(), DiskErr>
    requires there { Told (D.state disk.old) (λ files. (v : Listed) → IsIn volumes.now v → IsThere (head_of v.head) files) }
{
    for volume in volumes {
        tell_volume(alloc, disk, volume, id, out)?;
    }
    Ok(())
}

/// What is told in place of volumes. `full` has the digests, too.
pub fn of_damage(alloc: Global, e: CheckErr, full: bool, out: &mut String) -> Result<(), DiskErr> {
    match e {
        CheckErr::Disk => Err(DiskErr::Failed),
        CheckErr::Memory => Err(DiskErr::Memory),
        CheckErr::Form { file, at } => {
            out.push_str("form of")?;
            tell_name(file, out)?;
            write!(out, " at {at}")?;
            Ok(())
        }
        CheckErr::Digest { file, kept, found } => {
            out.push_str("digest of")?;
            tell_name(file, out)?;
            if full {
                tell_bytes(alloc, " kept ", &kept, out)?;
                tell_bytes(alloc, " found ", &found, out)?;
            }
            Ok(())
        }
    }
}

// `v` tells all volumes with their series, `r:id` with one of them.
fn tell_disk<D: Disk>(
    alloc: Global,
    disk: &mut D,
    id: Option<&str>,
    full: bool,
    out: &mut String,
) -> Result<(), DiskErr> {
    match volumes(alloc, disk) {
        Ok(all) => tell_volumes(alloc, disk, all.as_slice(), id, out),
        Err(e) => of_damage(alloc, e, full, out),
    }
}

// Whether there is a volume of this number among these.
fn has(volumes: &[Volume], number: u64) -> bool {
    volumes.iter().any(|volume| volume.head.number == number)
}

// `k2` tells whether a volume of this number counts: `w`, or `-`.
fn tell_whether<D: Disk>(
    alloc: Global,
    disk: &mut D,
    number: u64,
    out: &mut String,
) -> Result<(), DiskErr> {
    match volumes(alloc, disk) {
        Ok(all) => {
            out.push(if has(all.as_slice(), number) {
                'w'
            } else {
                '-'
            })?;
            Ok(())
        }
        Err(e) => of_damage(alloc, e, false, out),
    }
}

fn tell_names(names: &[FileName], out: &mut String) -> Result<(), Memory> {
    for name in names {
        tell_name(*name, out)?;
    }
    Ok(())
}

// `n` tells the checkpoints of the volumes that count.
fn tell_counted<D: Disk>(alloc: Global, disk: &mut D, out: &mut String) -> Result<(), DiskErr> {
    let names = counted(alloc, disk)?;
    tell_names(names.as_slice(), out)?;
    Ok(())
}

// `q2.100.1` tells the kinds of the files of a volume that are there.
fn tell_kinds<D: Disk>(disk: &mut D, volume: &str, out: &mut String) -> Result<(), DiskErr> {
    for kind in 1..8u8 {
        if disk.size(part(kind, volume))?.is_some() {
            write!(out, "{kind}")?;
        }
    }
    Ok(())
}

/// What `v` tells once bits of the byte at this position of a file of a volume have been turned: the file's digest is another one, or, behind the gate, that
/// of the digests. A volume whose gate has another first byte doesn't count.
pub fn tell_turned(name: FileName, at: usize, out: &mut String) -> Result<(), DiskErr> {
    if name.kind == 7 && at == 0 {
        return Ok(());
    }
    out.push_str("digest of")?;
    let kind = name.kind.min(6);
    Ok(tell_name(FileName { kind, ..name }, out)?)
}

// The length of a file, and the beginning of its digest.
fn tell_digest<D: Disk>(
    alloc: Global,
    disk: &mut D,
    name: FileName,
    out: &mut String,
) -> Result<(), DiskErr> {
    let Some(bytes) = read_file(alloc, disk, name)? else {
        return Ok(());
    };
    write!(out, " {}", bytes.as_slice().len())?;
    tell_bytes(alloc, ":", &digest(bytes.as_slice())[..4], out)
}

// `h2.100.1` tells that of each file of a volume.
fn tell_digests<D: Disk>(
    alloc: Global,
    disk: &mut D,
    volume: &str,
    out: &mut String,
) -> Result<(), DiskErr> {
    for kind in 1..8 {
        tell_digest(alloc, disk, part(kind, volume), out)?;
    }
    Ok(())
}

/// Writes into the text what a word asks for. False where there is no such word.
pub fn tell<D: Disk>(
    alloc: Global,
    disk: &mut D,
    word: &str,
    out: &mut String,
) -> Result<bool, DiskErr> {
    match word.as_bytes() {
        [b'v'] => tell_disk(alloc, disk, None, false, out)?,
        [b'e'] => tell_disk(alloc, disk, None, true, out)?,
        [b'r', id @ ..] => tell_disk(alloc, disk, Some(text(id)), false, out)?,
        [b'k', rest @ ..] => tell_whether(alloc, disk, number(text(rest)), out)?,
        [b'n'] => tell_counted(alloc, disk, out)?,
        [b'q', rest @ ..] => tell_kinds(disk, text(rest), out)?,
        [b'h', rest @ ..] => tell_digests(alloc, disk, text(rest), out)?,
        [b'f', rest @ ..] => return tell_series_found(alloc, disk, text(rest), out),
        [b'a', rest @ ..] => return tell_matched(alloc, disk, text(rest), out),
        [b'j', rest @ ..] => return tell_rows_joined(alloc, disk, text(rest), out),
        [b'o', rest @ ..] => return tell_both(alloc, disk, text(rest), out),
        _ => return Ok(false),
    }
    Ok(true)
}
