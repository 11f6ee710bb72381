//! Pages of points over more volumes than have their rows kept: each point is there once, and how little is read.
use crate::counted_disk::CountedDisk;
use crate::volumes::id_of;
use fileset_check::is_volume;
use fileset_read::FileErr;
use fileset_write::write;
use listed_volumes::{ListedVolume, RowCache, first_listed, list_volume};
use m3_model::{Key, Memory, Point, Seq, Series, Text};
use m3_outside::DiskErr;
use std::alloc::Global;
use std::test::Fail;
use volume_bytes::Head;

// So many blocks of a size of 1000 follow one another from 0 on. Each has so many series, s00000, s00001 and so on, with so many points,
// at 100, 200 and 300 in the block. Points are numbered by identifier and time, over all blocks, and have their number as the value.
const BLOCKS: u64 = 70;

const SERIES: u64 = 33;

const POINTS: u64 = 3;

// The points of a series in all blocks, and those of all series.
const OF_SERIES: u64 = 210;

const ALL: u64 = 6930;

// Volumes on a disk and on a list, and what is kept of them.
#[derive(Drop)]
struct Shelf {
    disk: CountedDisk,
    volumes: Vec<ListedVolume>,
    kept: RowCache,
}

fn time_of(number: u64) -> u64 {
    let position = number % OF_SERIES;
    position / POINTS * 1000 + position % POINTS * 100 + 100
}

// The value of the point, made so much lower.
fn value_of(number: u64, lower: i64) -> i64 {
    i64::try_from(number).unwrap_or(0).saturating_sub(lower)
}

fn key_of(alloc: Global, number: u64) -> Result<Key, Memory> {
    let id = id_of(alloc, number / OF_SERIES)?;
    Ok(Key {
        ns: 3,
        id: Text::from_string(id),
        t: time_of(number),
    })
}

// The number of the first point of a series in a block.
fn number_of(series: u64, block: u64) -> u64 {
    let before = series.saturating_mul(OF_SERIES);
    before.saturating_add(block.saturating_mul(POINTS))
}

// A series with its points in a block.
fn series_in(alloc: Global, series: u64, block: u64, lower: i64) -> Result<Series, Memory> {
    let id = id_of(alloc, series)?;
    let first = number_of(series, block);
    let mut points = Vec::new(alloc);
    for number in first..first.saturating_add(POINTS) {
        points.push((time_of(number), value_of(number, lower)))?;
    }
    Ok(Series {
        id: Text::from_string(id),
        points: Seq::from_vec(points),
    })
}

fn rows_in(alloc: Global, block: u64, lower: i64) -> Result<Seq<Series>, Memory> {
    let mut rows = Vec::new(alloc);
    for series in 0..SERIES {
        rows.push(series_in(alloc, series, block, lower)?)?;
    }
    Ok(Seq::from_vec(rows))
}

// One more volume of this block, on the disk and on the list.
fn add(alloc: Global, shelf: &mut Shelf, block: u64, lower: i64) -> Result<(), DiskErr> {
    let rows = rows_in(alloc, block, lower)?;
    let head = Head {
        ns: 3,
        start: block.saturating_mul(1000),
        size: 1000,
        number: 0,
    };
    if !is_volume(&head, rows.as_slice()) {
        return Ok(());
    }
    let disk = &mut shelf.disk;
    let number = write(alloc, disk, head.ns, head.start, head.size, &rows)?;
    let volume = list_volume(alloc, Head { number, ..head }, &rows)?;
    shelf.volumes.push(volume)?;
    Ok(())
}

// Of each tenth block a volume for each of these numbers, with values that are so much lower.
fn add_layers(alloc: Global, shelf: &mut Shelf, block: u64, layers: &[i64]) -> Result<(), DiskErr> {
    if block % 10 != 5 {
        return add(alloc, shelf, block, 0);
    }
    for lower in layers {
        add(alloc, shelf, block, *lower)?;
    }
    Ok(())
}

fn shelf_of(alloc: Global, layers: &[i64]) -> Result<Shelf, DiskErr> {
    let mut shelf = Shelf {
        disk: CountedDisk::new(alloc),
        volumes: Vec::new(alloc),
        kept: RowCache::new(),
    };
    for block in 0..BLOCKS {
        add_layers(alloc, &mut shelf, block, layers)?;
    }
    Ok(shelf)
}

// The first points above the key that the volumes between these positions of the list have.
fn page_of(
    alloc: Global,
    shelf: &mut Shelf,
    from: usize,
    to: usize,
    after: Option<&Key>,
    limit: usize,
) -> Result<Seq<Point>, DiskErr> {
    let volumes = shelf.volumes.as_slice().get(from..to).unwrap_or(&[]);
    let found = first_listed(
        alloc,
        &mut shelf.disk,
        volumes,
        &mut shelf.kept,
        after,
        limit,
    );
    match found {
        Ok(points) => Ok(points),
        Err(FileErr::Memory) => Err(DiskErr::Memory),
        Err(_) => Err(DiskErr::Failed),
    }
}

// The same of all volumes.
fn page(
    alloc: Global,
    shelf: &mut Shelf,
    after: Option<&Key>,
    limit: usize,
) -> Result<Seq<Point>, DiskErr> {
    let count = shelf.volumes.len();
    page_of(alloc, shelf, 0, count, after, limit)
}

fn is_point(alloc: Global, point: &Point, number: u64) -> Result<bool, Memory> {
    let key = key_of(alloc, number)?;
    Ok(
        point.ns == key.ns
            && point.id.equals(key.id.as_str())
            && point.t == key.t
            && point.v == value_of(number, 0),
    )
}

// Whether these are the points from this one on, as many as the limit or all.
fn are_points(alloc: Global, points: &[Point], first: u64, limit: u64) -> Result<bool, Memory> {
    let mut number = first;
    for point in points {
        if !is_point(alloc, point, number)? {
            return Ok(false);
        }
        number = number.saturating_add(1);
    }
    Ok(number == ALL.min(first.saturating_add(limit)))
}

fn key_before(alloc: Global, number: u64) -> Result<Option<Key>, Memory> {
    if number == 0 {
        return Ok(None);
    }
    Ok(Some(key_of(alloc, number - 1)?))
}

// Whether the page behind the point before this one has what it is to have.
fn is_right(alloc: Global, shelf: &mut Shelf, first: u64, limit: u64) -> Result<bool, DiskErr> {
    let after = key_before(alloc, first)?;
    let points = page(alloc, shelf, after.as_ref(), limit as usize)?;
    Ok(are_points(alloc, points.as_slice(), first, limit)?)
}

// The first point of the first page that is wrong, of pages each of which goes on behind the last point of the one before, up to
// one that has less than it may.
fn first_wrong(alloc: Global, layers: &[i64], limit: u64) -> Result<Option<u64>, DiskErr> {
    let mut shelf = shelf_of(alloc, layers)?;
    let whole = ALL / limit.max(1);
    for count in 0..whole.saturating_add(1) {
        let first = limit.saturating_mul(count);
        if !is_right(alloc, &mut shelf, first, limit)? {
            return Ok(Some(first));
        }
    }
    Ok(None)
}

#[test]
fn each_point_is_on_one_short_page(rt: HostRuntime) -> Result<(), Fail> {
    assert_eq!(rt; first_wrong(rt.alloc(), &[0], 7)?, None);
    Ok(())
}

#[test]
fn each_point_is_on_one_long_page(rt: HostRuntime) -> Result<(), Fail> {
    assert_eq!(rt; first_wrong(rt.alloc(), &[0], 64)?, None);
    assert_eq!(rt; first_wrong(rt.alloc(), &[0], 10_000)?, None);
    Ok(())
}

// Of two volumes of one block, in either order; the rows of some are kept, those of others not.
#[test]
fn the_highest_of_a_key_stands_once(rt: HostRuntime) -> Result<(), Fail> {
    assert_eq!(rt; first_wrong(rt.alloc(), &[0, 9], 64)?, None);
    assert_eq!(rt; first_wrong(rt.alloc(), &[9, 0], 64)?, None);
    Ok(())
}

// The reads since the count began, and the bytes of the longest.
fn reads(alloc: Global, disk: &CountedDisk) -> Result<String, Memory> {
    Ok(format!(in alloc; "{} of {}", disk.reads, disk.longest)?)
}

// What is read for a page of these volumes without a key.
fn reads_for_part(
    alloc: Global,
    shelf: &mut Shelf,
    from: usize,
    to: usize,
) -> Result<String, DiskErr> {
    shelf.disk.begin();
    drop(page_of(alloc, shelf, from, to, None, 7)?);
    Ok(reads(alloc, &shelf.disk)?)
}

// A shelf of which the rows of all volumes but those of the blocks 30 to 35 are kept, as many as may be.
fn mostly_kept(alloc: Global) -> Result<Shelf, DiskErr> {
    let mut shelf = shelf_of(alloc, &[0])?;
    drop(reads_for_part(alloc, &mut shelf, 0, 30)?);
    drop(reads_for_part(alloc, &mut shelf, 36, 70)?);
    Ok(shelf)
}

// What is read for the page behind the first point of a series in a block, where its points are right.
fn reads_for_page(
    alloc: Global,
    shelf: &mut Shelf,
    series: u64,
    block: u64,
    limit: u64,
) -> Result<String, DiskErr> {
    shelf.disk.begin();
    let first = number_of(series, block).saturating_add(1);
    if !is_right(alloc, shelf, first, limit)? {
        return Ok(String::from_str(alloc, "wrong")?);
    }
    Ok(reads(alloc, &shelf.disk)?)
}

// The same for some pages, one after another.
fn reads_for_pages(alloc: Global, pages: &[(u64, u64, u64)]) -> Result<String, DiskErr> {
    let mut shelf = mostly_kept(alloc)?;
    let mut told = String::new(alloc);
    for page in pages {
        let (series, block, limit) = *page;
        let one = reads_for_page(alloc, &mut shelf, series, block, limit)?;
        told = format!(in alloc; "{told} {one};")?;
    }
    Ok(told)
}

fn reads_to_keep(alloc: Global) -> Result<String, DiskErr> {
    let mut shelf = shelf_of(alloc, &[0])?;
    let one = reads_for_part(alloc, &mut shelf, 0, 30)?;
    let other = reads_for_part(alloc, &mut shelf, 36, 70)?;
    let again = reads_for_part(alloc, &mut shelf, 36, 70)?;
    Ok(format!(in alloc; "{one}; {other}; {again}")?)
}

// A record has two bytes, the six of the identifier, four, and 16 for each of three points: 60, and 1980 for all series.
#[test]
fn rows_that_are_kept_are_read_whole_once(rt: HostRuntime) -> Result<(), Fail> {
    let told = reads_to_keep(rt.alloc())?;
    assert_eq!(rt; told.as_str(), "30 of 1980; 34 of 1980; 0 of 0");
    Ok(())
}

// Within a series, and in blocks before or behind those of which nothing is kept.
#[test]
fn blocks_apart_are_not_read(rt: HostRuntime) -> Result<(), Fail> {
    let told = reads_for_pages(rt.alloc(), &[(5, 10, 7), (5, 50, 7)])?;
    assert_eq!(rt; told.as_str(), " 0 of 0; 0 of 0;");
    Ok(())
}

// Five points in two blocks, of which nothing is kept: of each a piece of the index, whose entries have 20 bytes, and one of the data. Of
// the first block entries up to the last of 33 are read, from the first on for series 5, from the 17th for 20, the last for 32; and
// no more than three records of 60 bytes. A second time it costs the same.
#[test]
fn two_pieces_of_each_block_are_read(rt: HostRuntime) -> Result<(), Fail> {
    let pages = [(5, 30, 5), (20, 30, 5), (32, 30, 5), (5, 30, 5)];
    let told = reads_for_pages(rt.alloc(), &pages)?;
    assert_eq!(rt; told.as_str(), " 4 of 660; 4 of 340; 4 of 60; 4 of 660;");
    Ok(())
}

// A page over the end of series 5: of each of the six volumes 16 entries, and the records of series 5 and 6.
#[test]
fn two_series_are_in_two_pieces(rt: HostRuntime) -> Result<(), Fail> {
    let told = reads_for_pages(rt.alloc(), &[(5, 69, 7)])?;
    assert_eq!(rt; told.as_str(), " 12 of 320;");
    Ok(())
}

fn told_values(alloc: Global, points: &[Point]) -> Result<String, Memory> {
    let mut told = String::new(alloc);
    for point in points {
        told = format!(in alloc; "{told} {};", point.v)?;
    }
    Ok(told)
}

// The values of a page of two behind this key.
fn behind(alloc: Global, shelf: &mut Shelf, ns: u8, id: &str, t: u64) -> Result<String, DiskErr> {
    let key = Key {
        ns,
        id: Text::from_string(String::from_str(alloc, id)?),
        t,
    };
    let points = page(alloc, shelf, Some(&key), 2)?;
    Ok(told_values(alloc, points.as_slice())?)
}

// The first of these keys, as namespace, identifier and time, behind which something else is found than the text says.
fn first_other(alloc: Global, keys: &[(u8, &str, u64, &str)]) -> Result<Option<u64>, DiskErr> {
    let mut shelf = mostly_kept(alloc)?;
    let mut count = 0u64;
    for key in keys {
        let (ns, id, t, wanted) = *key;
        if behind(alloc, &mut shelf, ns, id, t)?.as_str() != wanted {
            return Ok(Some(count));
        }
        count = count.saturating_add(1);
    }
    Ok(None)
}

// Of another namespace; before all, between two points, between two series, at the last point but one, at the last, and above all.
#[test]
fn keys_without_points(rt: HostRuntime) -> Result<(), Fail> {
    let keys = [
        (2, "t", u64::MAX, " 0; 1;"),
        (4, "", 0, ""),
        (3, "", 9, " 0; 1;"),
        (3, "s00005", 33_150, " 1150; 1151;"),
        (3, "s000051", 0, " 1260; 1261;"),
        (3, "s00032", 69_200, " 6929;"),
        (3, "s00032", 69_300, ""),
        (3, "t", 0, ""),
    ];
    assert_eq!(rt; first_other(rt.alloc(), &keys)?, None);
    Ok(())
}

// How many points pages with this limit have, without a key and behind the first point of series 5 in block 33.
fn lengths(alloc: Global, shelf: &mut Shelf, limit: usize) -> Result<(usize, usize), DiskErr> {
    let first = page(alloc, shelf, None, limit)?.len();
    let key = key_of(alloc, number_of(5, 33))?;
    let later = page(alloc, shelf, Some(&key), limit)?.len();
    Ok((first, later))
}

// The same for some limits.
fn all_lengths(alloc: Global, limits: &[usize]) -> Result<String, DiskErr> {
    let mut shelf = mostly_kept(alloc)?;
    let mut told = String::new(alloc);
    for limit in limits {
        let (first, later) = lengths(alloc, &mut shelf, *limit)?;
        told = format!(in alloc; "{told} {first} {later};")?;
    }
    Ok(told)
}

// Series 5 to 32 have 5880 points, of which 100 are up to the first one in block 33.
#[test]
fn a_page_has_its_limit_or_all(rt: HostRuntime) -> Result<(), Fail> {
    let told = all_lengths(rt.alloc(), &[0, 1, 5780, usize::MAX])?;
    assert_eq!(rt; told.as_str(), " 0 0; 1 1; 5780 5780; 6930 5780;");
    Ok(())
}
