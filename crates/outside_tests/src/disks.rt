ghost use Rattle.std.specs.Prelude.{◌≡◌, IfOk};
ghost use Rattle.m3_outside.specs.Slots.{Out};
ghost use Rattle.mem_disk.specs.Slots.{held_of};

use m3_outside::laws::{images_come_from_images, synced_is_read, writes_one_file};
use m3_outside::{Disk, DiskErr, DiskSlot, Disks, FileName};
use mem_disk::{MemDisk, MemDisks};
use std::alloc::Global;
use std::test::Fail;

fn name(number: u8) -> FileName {
    FileName {
        kind: 0,
        ns: 0,
        block: 0,
        number: u64::from(number),
    }
}

// Makes a file of four bytes, where there is none. Two calls, or one.
fn create<D: Disk>(disk: &mut D, name: FileName) -> Result<bool, DiskErr> {
    if disk.size(name)?.is_some() {
        return Ok(false);
    }
    disk.create(name, 4)?;
    Ok(true)
}

// Writes, where there is such a range. Three calls, or two.
fn write<D: Disk>(disk: &mut D, name: FileName, at: u8, bytes: &[u8]) -> Result<bool, DiskErr> {
    disk.reserve(1)?;
    let Some(size) = disk.size(name)? else {
        return Ok(false);
    };
    if u64::from(at) > size || bytes.len() as u64 > size - u64::from(at) {
        return Ok(false);
    }
    disk.write_at(name, u64::from(at), bytes)?;
    Ok(true)
}

// Syncs a file that is there. Three calls, or two, as the next.
fn sync<D: Disk>(disk: &mut D, name: FileName) -> Result<bool, DiskErr> {
    disk.reserve(1)?;
    let Some(size) = disk.size(name)? else {
        return Ok(false);
    };
    disk.sync(name)?;
    Ok(size == 4)
}

fn remove<D: Disk>(disk: &mut D, name: FileName) -> Result<bool, DiskErr> {
    disk.reserve(1)?;
    let Some(size) = disk.size(name)? else {
        return Ok(false);
    };
    disk.remove(name)?;
    Ok(size == 4)
}

// Reads a file of four bytes. Two calls, or one.
fn read<D: Disk>(disk: &mut D, name: FileName, out: &mut String) -> Result<bool, DiskErr> {
    let mut buf = [0; 4];
    let Some(size) = disk.size(name)? else {
        return Ok(false);
    };
    if size != 4 {
        return Ok(false);
    }
    disk.read(name, 0, &mut buf)?;
    for byte in buf {
        match byte {
            0 => out.push('.')?,
            1..=127 => out.push(char::from(byte))?,
            _ => write!(out, "~{}", char::from(255 - byte))?,
        }
    }
    Ok(true)
}

fn list<D: Disk>(disk: &mut D, out: &mut String) -> Result<bool, DiskErr> {
    let names = disk.list()?;
    for name in names.as_slice() {
        write!(out, "{}", name.number)?;
    }
    Ok(true)
}

// Does what a word says, and writes what it gave.
fn step<D: Disk>(disk: &mut D, word: &str, out: &mut String) -> Result<bool, DiskErr> {
    match word.as_bytes() {
        [b'c', file] => create(disk, name(*file & 15)),
        [b'w', file, at, bytes @ ..] => write(disk, name(*file & 15), *at & 15, bytes),
        [b's', file] => sync(disk, name(*file & 15)),
        [b'd', file] => remove(disk, name(*file & 15)),
        [b'g', file] => read(disk, name(*file & 15), out),
        [b'l'] => list(disk, out),
        [b'f'] => {
            write!(out, "{}", disk.faults())?;
            Ok(true)
        }
        [b'p', a, b] => {
            disk.restart(u64::from(*a & 15) * 16 + u64::from(*b & 15))?;
            Ok(true)
        }
        _ => Ok(false),
    }
}

// What the answer of a step is written as.
fn mark(answer: Result<bool, DiskErr>) -> &'static str {
    match answer {
        Ok(true) => "|",
        Ok(false) => "-|",
        Err(DiskErr::Failed) => "!|",
        Err(DiskErr::Memory) => "?|",
    }
}

fn steps<D: Disk>(disk: &mut D, words: &str, out: &mut String) -> Result<(), DiskErr> {
    for word in words.split(' ') {
        let told = mark(step(disk, word, out));
        out.push_str(told)?;
    }
    Ok(())
}

// What the words give on a new disk.
fn run(
    alloc: Global,
    fail: &[u64],
    fuse: Option<u64>,
    words: &str,
    out: &mut String,
) -> Result<(), DiskErr> {
    let mut disk = MemDisk::new(alloc, fail, fuse)?;
    steps(&mut disk, words, out)
}

// The calls that fail, the fuse, words, and what they give.
const ROWS: &str = ";-;c1 w10ab g1 p00 g1 => ||ab..||....|
;-;c1 w10ab p01 g1 => |||ab..|
;-;c1 w10abc p02 g1 => |||a...|
;-;c1 w11ab p03 g1 => |||.~a~b.|
;-;c1 c2 w10ab w20cd w11xy p21 g1 g2 => ||||||ax..|....|
;-;c1 c2 w10ab w20cd s1 p01 g1 g2 => ||||||ab..|cd..|
;-;c1 w10ab s1 w11cd p00 g1 => |||||ab..|
;-;c1 w10aaaa w10bb p01 g1 => ||||aaaa|
;-;c1 w10ab p01 w11cd p00 g1 => |||||ab..|
4;-;c1 w10ab g1 p01 g1 => |!|....||ab..|
7;-;c1 w10ab s1 g1 p00 g1 => ||!|ab..||....|
7;-;c1 w10aaaa w11xy w12b s1 p33 g1 => ||!||||aaba|
7;-;c1 w10aaaa w11xy g1 p05 g1 => ||!|aaaa||axya|
1;-;c1 g1 l => !|-||
4;-;c1 d1 g1 => |!|....|
;-;c1 w10ab d1 p01 l g1 => |||||-|
;-;c3 c1 c2 p00 l => ||||123|
;3;c1 w10ab l p01 l g1 => |!|!||1|....|
;0;l p00 l => !|||
0;0;p00 l p00 l => !|!|||
1;2;c1 l l => !||!|";

fn numbers(alloc: Global, text: &str) -> Result<Vec<u64>, Fail> {
    let mut all = Vec::new(alloc);
    for byte in text.as_bytes() {
        all.push(u64::from(*byte & 15))?;
    }
    Ok(all)
}

fn fuse_of(fuse: &str) -> Option<u64> {
    match fuse.as_bytes() {
        [b'-'] => None,
        [left] => Some(u64::from(*left & 15)),
        _ => None,
    }
}

// What a row's words give on the disk that the row tells of.
fn given(alloc: Global, told: &str, out: &mut String) -> Result<(), Fail> {
    let (fail, rest) = told.split_once(';').unwrap_or(("", ""));
    let (fuse, words) = rest.split_once(';').unwrap_or(("", ""));
    let fail = numbers(alloc, fail)?;
    run(alloc, &fail, fuse_of(fuse), words, out)?;
    Ok(())
}

#[test]
fn disks_keep_what_was_synced(rt: HostRuntime) -> Result<(), Fail> {
    for row in ROWS.lines() {
        let (told, wanted) = row.split_once(" => ").unwrap_or(("", ""));
        let mut got = String::new(rt.alloc());
        given(rt.alloc(), told, &mut got)?;
        assert_eq!(rt; got.as_str(), wanted, "{told}");
    }
    Ok(())
}

// Does what the words say on the disk of a slot, and gives the disk back.
fn visit(disks: &mut MemDisks, slot: DiskSlot, words: &str, out: &mut String) -> Result<(), DiskErr>
    requires { ¬ (held_of disks.old slot ≡ Out) }
    ensures free { ¬ (held_of disks.new slot ≡ Out) }
{
    let mut disk = disks.take(slot)?;
    let told = steps(&mut disk, words, out);
    disks.give(slot, disk);
    told
}

// A file made by one visit is found by the next.
fn kept_by_slot(alloc: Global, slot: DiskSlot, out: &mut String) -> Result<(), Fail> {
    let mut disks = MemDisks::new(alloc)?;
    visit(&mut disks, slot, "c7", out)?;
    visit(&mut disks, slot, "l", out)?;
    Ok(write!(out, "{}", disks.faults())?)
}

#[test]
fn slots_keep_their_disks(rt: HostRuntime) -> Result<(), Fail> {
    let slot = DiskSlot {
        node: 15,
        shard: 63,
    };
    let mut out = String::new(rt.alloc());
    kept_by_slot(rt.alloc(), slot, &mut out)?;
    assert_eq!(rt; out.as_str(), "|7|0");
    Ok(())
}

// Whether a disk lay there, or there is no such slot.
fn put_new(
    alloc: Global,
    disks: &mut MemDisks,
    slot: DiskSlot,
    fuse: Option<u64>,
) -> Result<bool, Fail> {
    let disk = MemDisk::new(alloc, &[], fuse)?;
    Ok(disks.put(slot, disk).is_some())
}

fn put_three(alloc: Global, out: &mut String) -> Result<(), Fail> {
    let nowhere = DiskSlot { node: 16, shard: 0 };
    let mut disks = MemDisks::new(alloc)?;
    write!(
        out,
        "{} ",
        put_new(alloc, &mut disks, DiskSlot::META, None)?
    )?;
    write!(
        out,
        "{} ",
        put_new(alloc, &mut disks, DiskSlot::META, Some(0))?
    )?;
    Ok(write!(out, "{}", put_new(alloc, &mut disks, nowhere, None)?)?)
}

#[test]
fn put_gives_what_lay_there(rt: HostRuntime) -> Result<(), Fail> {
    let mut out = String::new(rt.alloc());
    put_three(rt.alloc(), &mut out)?;
    assert_eq!(rt; out.as_str(), "false true true");
    Ok(())
}

// Sets of disks, in whose first slot lies one of which the first and the third call fail.
fn failing(alloc: Global) -> Result<MemDisks, Fail>
    ensures { IfOk result (λ disks. ¬ (held_of disks (record { node = 0; shard = 0 }) ≡ Out)) }
{
    let mut disks = MemDisks::new(alloc)?;
    let disk = MemDisk::new(alloc, &[0, 2], None)?;
    drop(disks.put(DiskSlot { node: 0, shard: 0 }, disk));
    Ok(disks)
}

// Lists that disk once, and then twice more, with its count of faults, and that of all after each visit.
fn counted(alloc: Global, out: &mut String) -> Result<(), Fail> {
    let slot = DiskSlot { node: 0, shard: 0 };
    let mut disks = failing(alloc)?;
    visit(&mut disks, slot, "l f", out)?;
    write!(out, "{} ", disks.faults())?;
    visit(&mut disks, slot, "l l", out)?;
    Ok(write!(out, "{}", disks.faults())?)
}

#[test]
fn faults_count_once(rt: HostRuntime) -> Result<(), Fail> {
    let mut out = String::new(rt.alloc());
    counted(rt.alloc(), &mut out)?;
    assert_eq!(rt; out.as_str(), "!|1|1 |!|2");
    Ok(())
}

#[test]
fn laws_can_be_called() {
    synced_is_read::<MemDisk>();
    writes_one_file::<MemDisk>();
    images_come_from_images::<MemDisk>();
}
