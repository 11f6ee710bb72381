// A log on a disk in memory: its bytes, and what each stop within it leaves.
use commit_log::{Found, Log, LogErr, cut_before, read_all};
use m3_model::Memory;
use m3_model::limits::SEGMENT_BYTES;
use m3_outside::{Disk, DiskErr, FileName};
use mem_disk::MemDisk;
use std::alloc::Global;
use std::test::Fail;

// The file of the first segment.
const FIRST: FileName = FileName {
    kind: 0,
    ns: 0,
    block: 0,
    number: 1,
};

// How many appends were acknowledged, and how many were begun.
#[derive(Clone, Copy)]
struct Outcome {
    acknowledged: usize,
    begun: usize,
}

// Opens the log and appends these chunks, up to the first call that fails.
fn append_all<D: Disk>(
    alloc: Global,
    disk: &mut D,
    chunks: &[Vec<u8>],
    outcome: &mut Outcome,
) -> Result<(), LogErr> {
    let found = read_all(alloc, disk)?;
    let mut log = Log::begin(disk, found.next)?;
    for (i, chunk) in chunks.iter().enumerate() {
        if chunk.len() > 65_531 {
            return Err(LogErr::Memory);
        }
        log.ready(disk, chunk.len() as u32)?;
        outcome.begun = i + 1;
        log.append(disk, chunk)?;
        outcome.acknowledged = i + 1;
    }
    Ok(())
}

fn new_disk(alloc: Global, fuse: Option<u64>) -> Result<MemDisk, LogErr> {
    MemDisk::new(alloc, &[], fuse).map_err(|_| LogErr::Memory)
}

// Appends up to the first call of the disk that fails. Then the disk starts again.
fn stopped<D: Disk>(
    alloc: Global,
    disk: &mut D,
    chunks: &[Vec<u8>],
    pick: u64,
) -> Result<Outcome, LogErr> {
    let mut outcome = Outcome {
        acknowledged: 0,
        begun: 0,
    };
    let _ = append_all(alloc, disk, chunks, &mut outcome);
    disk.restart(pick)?;
    Ok(outcome)
}

// Whether these are the first so many of the chunks.
fn are_first(found: &Found, chunks: &[Vec<u8>]) -> bool {
    let mut both = found.chunks.as_slice().iter().zip(chunks);
    both.all(|(one, other)| one.as_slice() == other.as_slice())
}

fn chunks_of(alloc: Global, lengths: [usize; 3]) -> Result<Vec<Vec<u8>>, Memory> {
    let mut chunks = Vec::new(alloc);
    for (byte, len) in (7u8..).zip(lengths) {
        chunks.push(vec![in alloc; byte; len]?)?;
    }
    Ok(chunks)
}

// Whether a stop left the acknowledged chunks, with the one in flight or without it.
fn is_right(outcome: &Outcome, found: &Found, chunks: &[Vec<u8>]) -> bool {
    let count = found.chunks.len();
    outcome.acknowledged <= count && count <= outcome.begun && are_first(found, chunks)
}

// Appends again, in a fresh segment, and says whether this left what was found, and then all the chunks.
fn goes_on<D: Disk>(
    alloc: Global,
    disk: &mut D,
    found: &Found,
    chunks: &[Vec<u8>],
) -> Result<bool, LogErr> {
    let mut outcome = Outcome {
        acknowledged: 0,
        begun: 0,
    };
    append_all(alloc, disk, chunks, &mut outcome)?;
    disk.restart(0)?;
    let later = read_all(alloc, disk)?;
    let count = found.chunks.len();
    let all = later.chunks.as_slice();
    Ok(
        found.next < later.next
            && count <= all.len()
            && are_first(&later, &chunks[..count.min(chunks.len())])
            && all.len() - count == chunks.len()
            && all[count..]
                .iter()
                .zip(chunks)
                .all(|(one, other)| one.as_slice() == other.as_slice()),
    )
}

// What a stop left: how many chunks, and whether these and the log are as they are to be.
#[derive(Clone, Copy)]
struct Left {
    outcome: Outcome,
    found: usize,
    right: bool,
}

// A stop leaves at most two pending writes, so picks from 16 on choose as lower ones do, and after these the log isn't gone
// on with.
fn left_by_stop<D: Disk>(
    alloc: Global,
    disk: &mut D,
    chunks: &[Vec<u8>],
    pick: u64,
) -> Result<Left, LogErr> {
    let outcome = stopped(alloc, disk, chunks, pick)?;
    let found = read_all(alloc, disk)?;
    let right = is_right(&outcome, &found, chunks)
        && (16 <= pick || goes_on(alloc, disk, &found, chunks)?);
    Ok(Left {
        outcome,
        found: found.chunks.len(),
        right,
    })
}

// What the stops of a log left: the first fuse and pick at which it wasn't what it is to be, and whether a chunk in flight
// was ever kept, and ever lost.
#[derive(Clone, Copy)]
struct Tally {
    wrong: Option<(u64, u64)>,
    kept: bool,
    lost: bool,
}

// Three appends under each fuse from 0 to 22, of which the last never fails, and all these picks.
fn stops(alloc: Global, lengths: [usize; 3], picks: u64) -> Result<Tally, LogErr> {
    let chunks = chunks_of(alloc, lengths).map_err(|_| LogErr::Memory)?;
    let mut tally = Tally {
        wrong: None,
        kept: false,
        lost: false,
    };
    for fuse in 0..23 {
        for pick in 0..picks {
            let mut disk = new_disk(alloc, Some(fuse))?;
            let left = left_by_stop(alloc, &mut disk, &chunks, pick)?;
            tally.kept |= left.outcome.acknowledged < left.found;
            tally.lost |= left.found < left.outcome.begun;
            if !left.right || (fuse == 22 && left.outcome.acknowledged < 3) {
                tally.wrong = tally.wrong.or(Some((fuse, pick)));
            }
        }
    }
    Ok(tally)
}

#[test]
fn stops_leave_what_was_acknowledged(rt: HostRuntime) -> Result<(), Fail> {
    let tally = stops(rt.alloc(), [1, 0, 3], 256)?;
    assert_eq!(rt; tally.wrong, None);
    assert!(rt; tally.kept && tally.lost);
    Ok(())
}

// The second chunk begins a second segment.
#[test]
fn stops_between_segments(rt: HostRuntime) -> Result<(), Fail> {
    let tally = stops(rt.alloc(), [40_000, 30_000, 20_000], 16)?;
    assert_eq!(rt; tally.wrong, None);
    assert!(rt; tally.kept && tally.lost);
    Ok(())
}

// Makes the first segment with these bytes at its beginning, where there is none. Two calls, or one.
fn put_segment<D: Disk>(disk: &mut D, bytes: &[u8]) -> Result<bool, DiskErr> {
    if bytes.len() > 64 || disk.size(FIRST)?.is_some() {
        return Ok(false);
    }
    disk.create(FIRST, SEGMENT_BYTES)?;
    disk.reserve(1)?;
    disk.write_at(FIRST, 0, bytes)?;
    Ok(true)
}

// The bytes of the first segment.
fn first_segment<D: Disk>(alloc: Global, disk: &mut D) -> Result<Vec<u8>, LogErr> {
    let size = disk.size(FIRST)?.unwrap_or(0);
    if size != SEGMENT_BYTES {
        return Err(LogErr::Memory);
    }
    let mut bytes = vec![in alloc; 0u8; SEGMENT_BYTES as usize]?;
    disk.read(FIRST, 0, &mut bytes)?;
    Ok(bytes)
}

// The fence 3 as a chunk.
const CHUNK: [u8; 14] = [1, 0, 0, 0, 9, 2, 0, 0, 0, 0, 0, 0, 0, 3];

// The first segment after one append.
fn segment_with<D: Disk>(
    alloc: Global,
    disk: &mut D,
    chunks: &[Vec<u8>],
) -> Result<Vec<u8>, LogErr> {
    let mut outcome = Outcome {
        acknowledged: 0,
        begun: 0,
    };
    append_all(alloc, disk, chunks, &mut outcome)?;
    first_segment(alloc, disk)
}

// Whether a segment begins with the chunk, and has zeros behind it.
fn is_spelled(bytes: &[u8]) -> bool {
    bytes.len() == 65_536 && bytes[..14] == CHUNK[..] && bytes[14..].iter().all(|byte| *byte == 0)
}

#[test]
fn a_chunk_is_spelled_so(rt: HostRuntime) -> Result<(), Fail> {
    let mut disk = new_disk(rt.alloc(), None)?;
    let chunk = Vec::from_slice(rt.alloc(), &CHUNK[5..])?;
    let chunks = vec![in rt.alloc(); chunk]?;
    let bytes = segment_with(rt.alloc(), &mut disk, &chunks)?;
    assert!(rt; is_spelled(&bytes));
    Ok(())
}

// The beginnings of segments, and how many chunks are read there, or the offset of the damage.
const SEGMENTS: [(&[u8], Result<usize, u64>); 10] = [
    (&[], Ok(0)),
    (&CHUNK, Ok(1)),
    (&[0, 0, 0, 0, 1, 97], Ok(0)),
    (&[2, 0, 0, 0, 1, 97], Ok(0)),
    (&[1, 0, 0, 0, 0, 1, 0, 0, 0, 1, 97], Ok(2)),
    (
        &[1, 0, 0, 0, 1, 97, 0, 0, 0, 0, 1, 98, 1, 0, 0, 0, 1, 99],
        Ok(1),
    ),
    (&[1, 0, 0, 0xff, 0xfb], Ok(1)),
    (&[1, 0, 0, 0xff, 0xfc], Err(4)),
    (&[1, 0, 1, 0, 0], Err(2)),
    (&[1, 0, 0, 0, 1, 97, 1, 1, 0, 0, 0, 98], Err(7)),
];

// How many chunks are read in a first segment that begins with these bytes, and the number of the next segment.
fn read_behind<D: Disk>(alloc: Global, disk: &mut D, bytes: &[u8]) -> Result<(usize, u64), LogErr> {
    if !put_segment(disk, bytes)? {
        return Err(LogErr::Memory);
    }
    let found = read_all(alloc, disk)?;
    Ok((found.chunks.len(), found.next))
}

fn is_read(found: Result<(usize, u64), LogErr>, read: Result<usize, u64>) -> bool {
    match (found, read) {
        (Ok(found), Ok(count)) => found == (count, 2),
        (Err(LogErr::Form { number, at }), Err(offset)) => number == 1 && at == offset,
        _ => false,
    }
}

#[test]
fn segments_read_as_they_stand(rt: HostRuntime) -> Result<(), Fail> {
    for (bytes, read) in SEGMENTS {
        let mut disk = new_disk(rt.alloc(), None)?;
        let found = read_behind(rt.alloc(), &mut disk, bytes);
        assert!(rt; is_read(found, read), "{bytes:?}");
    }
    Ok(())
}

// How many chunks are left by each of these cuts, one after the other.
fn left_by_cuts<D: Disk>(
    alloc: Global,
    disk: &mut D,
    chunks: &[Vec<u8>],
) -> Result<[usize; 5], LogErr> {
    let mut outcome = Outcome {
        acknowledged: 0,
        begun: 0,
    };
    append_all(alloc, disk, chunks, &mut outcome)?;
    let mut left = [outcome.acknowledged; 5];
    for number in 1..5 {
        cut_before(alloc, disk, number)?;
        left[number as usize] = read_all(alloc, disk)?.chunks.len();
    }
    Ok(left)
}

#[test]
fn cut_segments_are_gone(rt: HostRuntime) -> Result<(), Fail> {
    let mut disk = new_disk(rt.alloc(), None)?;
    let chunks = chunks_of(rt.alloc(), [40_000, 30_000, 50_000])?;
    assert_eq!(rt;
        left_by_cuts(rt.alloc(), &mut disk, &chunks)?,
        [3, 3, 2, 1, 0]
    );
    Ok(())
}
