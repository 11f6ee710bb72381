//! Where identifiers below, at, between and above those of a volume are looked for, and where they are found.
use crate::counted_disk::CountedDisk;
use crate::volumes::{ENTRY, RECORD, id_of, part, written};
use fileset_lookup::{Piece, Spot, find, from_summary, may_hold, span};
use fileset_read::read_file;
use m3_model::Seq;
use m3_outside::DiskErr;
use std::alloc::Global;
use std::test::Fail;
use volume_bytes::Head;

// The bytes of a volume that look-ups read.
#[derive(Drop)]
struct Tables {
    bloom: Seq<u8>,
    summaries: Seq<u8>,
    index: Seq<u8>,
}

fn bytes_of(
    alloc: Global,
    disk: &mut CountedDisk,
    kind: u8,
    head: &Head,
) -> Result<Seq<u8>, DiskErr> {
    match read_file(alloc, disk, part(kind, head))? {
        Some(bytes) => Ok(bytes),
        None => Ok(Seq::new(alloc)),
    }
}

fn read_tables(alloc: Global, count: u64) -> Result<Tables, DiskErr> {
    let mut disk = CountedDisk::new(alloc);
    let head = written(alloc, &mut disk, count)?;
    Ok(Tables {
        bloom: bytes_of(alloc, &mut disk, 5, &head)?,
        summaries: bytes_of(alloc, &mut disk, 2, &head)?,
        index: bytes_of(alloc, &mut disk, 3, &head)?,
    })
}

// The piece in which an identifier is looked for that `rank` of `count` series aren't above.
fn wanted_piece(count: u64, rank: u64) -> Option<Piece> {
    if rank == 0 {
        return None;
    }
    let first = (rank - 1) / 16;
    let next = first.saturating_mul(16).saturating_add(16);
    Some(Piece {
        from: first.saturating_mul(16).saturating_mul(ENTRY),
        to: if next < count {
            Some(next.saturating_mul(ENTRY))
        } else {
            None
        },
    })
}

// Where the record of the series s00006 stands, for 6; none for odd numbers and those that are too high.
fn wanted_spot(count: u64, number: u64) -> Option<Spot> {
    let position = number / 2;
    if number % 2 == 1 || position >= count {
        return None;
    }
    Some(Spot {
        at: position.saturating_mul(RECORD),
        len: RECORD as u32,
    })
}

// The piece of the index.
fn cut(index: &[u8], piece: Piece) -> &[u8] {
    let to = piece.to.unwrap_or(index.len() as u64) as usize;
    index.get(piece.from as usize..to).unwrap_or(&[])
}

// Whether the identifier is found at the spot, in the piece and in the index from there on.
fn is_found(tables: &Tables, piece: Piece, id: &[u8], spot: Option<Spot>) -> bool {
    let index = tables.index.as_slice();
    find(cut(index, piece), 0, id) == Ok(spot) && find(index, piece.from, id) == Ok(spot)
}

// Whether all is as it is to be of an identifier.
fn is_right(tables: &Tables, count: u64, rank: u64, id: &[u8], spot: Option<Spot>) -> bool {
    let wanted = wanted_piece(count, rank);
    let summaries = tables.summaries.as_slice();
    if span(summaries, id) != Ok(wanted)
        || from_summary(summaries, id) != Ok(wanted.map(|piece| piece.from))
    {
        return false;
    }
    if spot.is_some() && !may_hold(tables.bloom.as_slice(), id) {
        return false;
    }
    match wanted {
        Some(piece) => is_found(tables, piece, id, spot),
        None => spot.is_none(),
    }
}

// The first identifier of which something is wrong.
fn first_wrong(alloc: Global, count: u64) -> Result<Option<u64>, DiskErr> {
    let tables = read_tables(alloc, count)?;
    if !is_right(&tables, count, 0, b"s", None) || !is_right(&tables, count, count, b"t", None) {
        return Ok(Some(100_000));
    }
    for number in 0..count.saturating_mul(2).saturating_add(2) {
        let id = id_of(alloc, number)?;
        let rank = (number / 2).saturating_add(1).min(count);
        if !is_right(
            &tables,
            count,
            rank,
            id.as_bytes(),
            wanted_spot(count, number),
        ) {
            return Ok(Some(number));
        }
    }
    Ok(None)
}

#[test]
fn each_is_found(rt: HostRuntime) -> Result<(), Fail> {
    for count in [1, 2, 15, 16, 17, 31, 32, 33, 100] {
        assert_eq!(rt; first_wrong(rt.alloc(), count)?, None);
    }
    Ok(())
}

#[test]
fn in_no_bytes_is_nothing(rt: HostRuntime) -> Result<(), Fail> {
    assert_eq!(rt; span(&[], b"a"), Ok(None));
    assert_eq!(rt; from_summary(&[], b"a"), Ok(None));
    assert_eq!(rt; find(&[], 0, b"a"), Ok(None));
    assert_eq!(rt; find(&[], 7, b"a"), Ok(None));
    assert!(rt; may_hold(&[], b"a"));
    Ok(())
}

// The filter of `hello` alone has 16 bits, of which the two of 0x44 in the second byte are set.
#[test]
fn bits_are_counted_from_the_lowest(rt: HostRuntime) -> Result<(), Fail> {
    assert!(rt; may_hold(&[0, 0, 0, 16, 0x00, 0x44], b"hello"));
    assert!(rt; !may_hold(&[0, 0, 0, 16, 0x44, 0x00], b"hello"));
    assert!(rt; !may_hold(&[0, 0, 0, 16, 0x00, 0x04], b"hello"));
    assert!(rt; !may_hold(&[0, 0, 0, 16, 0x00, 0x22], b"hello"));
    assert!(rt; may_hold(&[0, 0, 0, 15, 0x00, 0x00], b"hello"));
    assert!(rt; may_hold(&[0, 0, 0, 16, 0x00], b"hello"));
    Ok(())
}
