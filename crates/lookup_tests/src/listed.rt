//! What is found of one identifier in volumes that are listed, and how little is read for it.
use crate::counted_disk::CountedDisk;
use crate::volumes::{evens, id_of, part, value_of, written};
use fileset_read::FileErr;
use listed_volumes::{ListedVolume, RowCache, fetch, list_volume};
use m3_model::{Memory, Pick, Seq, Series, Text};
use m3_outside::DiskErr;
use std::alloc::Global;
use std::test::Fail;
use volume_points::read;

// One more volume of so many series, on the disk and on the list; none of no series.
fn add(
    alloc: Global,
    disk: &mut CountedDisk,
    volumes: &mut Vec<ListedVolume>,
    count: u64,
) -> Result<(), DiskErr> {
    if count == 0 {
        return Ok(());
    }
    let head = written(alloc, disk, count)?;
    let rows = evens(alloc, count)?;
    volumes.push(list_volume(alloc, head, &rows)?)?;
    Ok(())
}

fn one(alloc: Global, number: u64) -> Result<Pick, Memory> {
    let id = id_of(alloc, number)?;
    Ok(Pick::One {
        ns: 3,
        id: Text::from_string(id),
    })
}

// What is found, as `told` of `volumes` has it.
fn tell(alloc: Global, found: Result<Seq<Series>, FileErr>) -> Result<String, Memory> {
    match found {
        Ok(found) => tell_all(alloc, found.as_slice()),
        Err(FileErr::Disk) => Ok(String::from_str(alloc, "fault")?),
        Err(FileErr::Memory) => Err(Memory),
        Err(FileErr::Form { file }) => Ok(format!(in alloc; "form of {}", file.kind)?),
    }
}

fn tell_all(alloc: Global, found: &[Series]) -> Result<String, Memory> {
    match found {
        [] => Ok(String::from_str(alloc, "-")?),
        [row] => value_of(alloc, row),
        _ => Ok(String::from_str(alloc, "several")?),
    }
}

fn fetched(
    alloc: Global,
    disk: &mut CountedDisk,
    volumes: &[ListedVolume],
    number: u64,
    to: u64,
) -> Result<String, Memory> {
    let pick = one(alloc, number)?;
    let mut kept = RowCache::new();
    let found = fetch(alloc, disk, volumes, &mut kept, &pick, 0, to);
    tell(alloc, found)
}

// What is to be found where there are so many series.
fn wanted(alloc: Global, count: u64, number: u64) -> Result<String, Memory> {
    if number % 2 == 1 || number / 2 >= count {
        return Ok(String::from_str(alloc, "-")?);
    }
    Ok(format!(in alloc; "{number} at 1000")?)
}

// The first number of which something else is found.
fn first_wrong(alloc: Global, count: u64) -> Result<Option<u64>, DiskErr> {
    let mut disk = CountedDisk::new(alloc);
    let mut volumes = Vec::new(alloc);
    add(alloc, &mut disk, &mut volumes, count)?;
    for number in 0..count.saturating_mul(2).saturating_add(2) {
        let found = fetched(alloc, &mut disk, &volumes, number, 2000)?;
        if found != wanted(alloc, count, number)? {
            return Ok(Some(number));
        }
    }
    Ok(None)
}

#[test]
fn each_listed_is_found(rt: HostRuntime) -> Result<(), Fail> {
    for count in [0, 1, 15, 16, 17, 32, 33] {
        assert_eq!(rt; first_wrong(rt.alloc(), count)?, None);
    }
    Ok(())
}

// Of a volume of 10,000 series, by two reads, of which the longer has 16 entries of 20 bytes.
#[test]
fn a_fetch_reads_two_pieces(rt: HostRuntime) -> Result<(), Fail> {
    let mut disk = CountedDisk::new(rt.alloc());
    let mut volumes = Vec::new(rt.alloc());
    add(rt.alloc(), &mut disk, &mut volumes, 10_000)?;
    for number in [0, 32, 34, 10_000, 19_966, 19_968, 19_998] {
        disk.begin();
        let found = fetched(rt.alloc(), &mut disk, &volumes, number, 2000)?;
        assert_eq!(rt; found, format!(in rt.alloc(); "{number} at 1000")?);
        assert_eq!(rt; disk.reads, 2);
        assert_eq!(rt; disk.longest, 320);
    }
    Ok(())
}

// Two of each volume; and nothing of volumes whose block has no time in the range.
#[test]
fn each_volume_is_read_so(rt: HostRuntime) -> Result<(), Fail> {
    let mut disk = CountedDisk::new(rt.alloc());
    let mut volumes = Vec::new(rt.alloc());
    add(rt.alloc(), &mut disk, &mut volumes, 100)?;
    add(rt.alloc(), &mut disk, &mut volumes, 40)?;
    add(rt.alloc(), &mut disk, &mut volumes, 17)?;
    disk.begin();
    let found = fetched(rt.alloc(), &mut disk, &volumes, 32, 2000)?;
    assert_eq!(rt; found.as_str(), "32 at 1000");
    assert_eq!(rt; disk.reads, 6);
    disk.begin();
    let found = fetched(rt.alloc(), &mut disk, &volumes, 32, 1000)?;
    assert_eq!(rt; found.as_str(), "-");
    assert_eq!(rt; disk.reads, 0);
    Ok(())
}

// Where nothing is kept of a volume, its bloom filter and summaries are read before.
#[test]
fn four_reads_of_a_head(rt: HostRuntime) -> Result<(), Fail> {
    let mut disk = CountedDisk::new(rt.alloc());
    let head = written(rt.alloc(), &mut disk, 1_000)?;
    let pick = one(rt.alloc(), 700)?;
    disk.begin();
    let found = read(rt.alloc(), &mut disk, &[head], &pick, 0, 2000);
    assert_eq!(rt; tell(rt.alloc(), found)?.as_str(), "700 at 1000");
    assert_eq!(rt; disk.reads, 4);
    Ok(())
}

// What a fetch gives of which the read of this number fails.
fn with_fault(alloc: Global, failing: u64) -> Result<String, DiskErr> {
    let mut disk = CountedDisk::new(alloc);
    let mut volumes = Vec::new(alloc);
    add(alloc, &mut disk, &mut volumes, 40)?;
    disk.begin();
    disk.failing = Some(failing);
    Ok(fetched(alloc, &mut disk, &volumes, 34, 2000)?)
}

#[test]
fn a_fault_of_a_fetch_is_told(rt: HostRuntime) -> Result<(), Fail> {
    assert_eq!(rt; with_fault(rt.alloc(), 0)?.as_str(), "fault");
    assert_eq!(rt; with_fault(rt.alloc(), 1)?.as_str(), "fault");
    assert_eq!(rt; with_fault(rt.alloc(), 2)?.as_str(), "34 at 1000");
    Ok(())
}

// What a fetch gives where a byte of a file is another one since the volume was listed.
fn with_byte(alloc: Global, kind: u8, at: usize, byte: u8) -> Result<String, DiskErr> {
    let mut disk = CountedDisk::new(alloc);
    let mut volumes = Vec::new(alloc);
    let head = written(alloc, &mut disk, 40)?;
    let rows = evens(alloc, 40)?;
    volumes.push(list_volume(alloc, head, &rows)?)?;
    disk.put(part(kind, &head), at, &[byte]);
    Ok(fetched(alloc, &mut disk, &volumes, 34, 2000)?)
}

// A point's time, its value, a count and a name; and what a fetch doesn't read: the first series, the bits and the summaries.
#[test]
fn bytes_that_are_read_are_looked_at(rt: HostRuntime) -> Result<(), Fail> {
    assert_eq!(rt; with_byte(rt.alloc(), 4, 488, 99)?.as_str(), "form of 4");
    assert_eq!(rt; with_byte(rt.alloc(), 4, 483, b'5')?.as_str(), "form of 4");
    assert_eq!(rt; with_byte(rt.alloc(), 3, 340, 99)?.as_str(), "form of 3");
    assert_eq!(rt; with_byte(rt.alloc(), 4, 3, b'x')?.as_str(), "34 at 1000");
    assert_eq!(rt; with_byte(rt.alloc(), 5, 4, 0)?.as_str(), "34 at 1000");
    assert_eq!(rt; with_byte(rt.alloc(), 2, 16, 99)?.as_str(), "34 at 1000");
    Ok(())
}
