//! Volumes of series whose identifiers are s00000, s00002, s00004 and so on, and what is looked up in them.
use crate::counted_disk::CountedDisk;
use fileset_check::is_volume;
use fileset_read::FileErr;
use fileset_write::write;
use m3_model::{Memory, Seq, Series, Text};
use m3_outside::{DiskErr, FileName};
use std::alloc::Global;
use volume_bytes::Head;
use volume_rows::{Seeker, row_of};

/// An entry of the index has two bytes, the six of the identifier, eight and four.
pub const ENTRY: u64 = 20;

/// A record in the data has two bytes, the six of the identifier, four, and 16 for one point.
pub const RECORD: u64 = 28;

/// The identifier s00007 for 7.
pub fn id_of(alloc: Global, number: u64) -> Result<String, Memory> {
    Ok(format!(in alloc; "s{number:05}")?)
}

/// The series of this number, with it as the value at 1000.
pub fn series_of(alloc: Global, number: u64) -> Result<Series, Memory> {
    let id = id_of(alloc, number)?;
    let mut points = Vec::new(alloc);
    points.push((1000, i64::try_from(number).unwrap_or(0)))?;
    Ok(Series {
        id: Text::from_string(id),
        points: Seq::from_vec(points),
    })
}

/// The series of the even numbers, so many of them.
pub fn evens(alloc: Global, count: u64) -> Result<Seq<Series>, Memory> {
    let mut rows = Vec::new(alloc);
    for number in 0..count.min(50_000) {
        rows.push(series_of(alloc, 2 * number)?)?;
    }
    Ok(Seq::from_vec(rows))
}

/// The volume of so many series that is written on the disk; of other counts than 1 to 50,000 none is.
pub fn written(alloc: Global, disk: &mut CountedDisk, count: u64) -> Result<Head, DiskErr> {
    let head = Head {
        ns: 3,
        start: 1000,
        size: 100,
        number: 0,
    };
    let rows = evens(alloc, count)?;
    if !is_volume(&head, rows.as_slice()) {
        return Ok(head);
    }
    let number = write(alloc, disk, head.ns, head.start, head.size, &rows)?;
    Ok(Head { number, ..head })
}

/// The file of this kind of the volume.
pub fn part(kind: u8, head: &Head) -> FileName {
    FileName {
        kind,
        ns: head.ns,
        block: head.start,
        number: head.number,
    }
}

/// What a look-up gives: the only value of the series and its time, as `7 at 1000`; `-` where there is none, and words for an error.
pub fn told(
    alloc: Global,
    disk: &mut CountedDisk,
    head: &Head,
    seeker: &Seeker,
    number: u64,
) -> Result<String, Memory> {
    let id = id_of(alloc, number)?;
    match row_of(alloc, disk, head, seeker, id.as_str()) {
        Ok(Some(row)) => value_of(alloc, &row),
        Ok(None) => Ok(String::from_str(alloc, "-")?),
        Err(FileErr::Disk) => Ok(String::from_str(alloc, "fault")?),
        Err(FileErr::Memory) => Err(Memory),
        Err(FileErr::Form { file }) => Ok(format!(in alloc; "form of {}", file.kind)?),
    }
}

/// The only value of the series and its time.
pub fn value_of(alloc: Global, row: &Series) -> Result<String, Memory> {
    match row.points.as_slice() {
        [point] => {
            let (t, value) = *point;
            Ok(format!(in alloc; "{value} at {t}")?)
        }
        _ => Ok(String::from_str(alloc, "other points")?),
    }
}
