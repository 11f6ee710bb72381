//! How little a look-up reads, and what faults and other bytes give.
use crate::counted_disk::CountedDisk;
use crate::volumes::{id_of, part, told, written};
use fileset_lookup::may_hold;
use fileset_read::FileErr;
use m3_model::{Memory, Seq};
use m3_outside::DiskErr;
use std::alloc::Global;
use std::test::Fail;
use volume_bytes::Head;
use volume_rows::{Seeker, seeker_of};

fn opened(alloc: Global, disk: &mut CountedDisk, head: &Head) -> Result<Seeker, DiskErr> {
    match seeker_of(alloc, disk, head) {
        Ok(seeker) => Ok(seeker),
        Err(FileErr::Memory) => Err(DiskErr::Memory),
        Err(_) => Err(DiskErr::Failed),
    }
}

// Of a volume of 10,000 series, each identifier that is there is found by two reads, of which the longer has 16 entries of 20 bytes.
#[test]
fn two_short_reads_find_a_series(rt: HostRuntime) -> Result<(), Fail> {
    let mut disk = CountedDisk::new(rt.alloc());
    let head = written(rt.alloc(), &mut disk, 10_000)?;
    let seeker = opened(rt.alloc(), &mut disk, &head)?;
    for number in [0, 2, 30, 32, 34, 9_998, 10_000, 19_966, 19_968, 19_998] {
        disk.begin();
        let found = told(rt.alloc(), &mut disk, &head, &seeker, number)?;
        assert_eq!(rt; found, format!(in rt.alloc(); "{number} at 1000")?);
        assert_eq!(rt; disk.reads, 2);
        assert_eq!(rt; disk.longest, 320);
    }
    Ok(())
}

// The others aren't found, by one read at most, also those that the bits don't exclude.
#[test]
fn bits_that_are_set_find_nothing(rt: HostRuntime) -> Result<(), Fail> {
    let mut disk = CountedDisk::new(rt.alloc());
    let head = written(rt.alloc(), &mut disk, 1_000)?;
    let seeker = opened(rt.alloc(), &mut disk, &head)?;
    let mut not_excluded = 0u64;
    disk.begin();
    for number in 0..2_000u64 {
        let id = id_of(rt.alloc(), 2 * number + 1)?;
        if may_hold(seeker.bloom.as_slice(), id.as_bytes()) {
            not_excluded = not_excluded.saturating_add(1);
        }
        let found = told(rt.alloc(), &mut disk, &head, &seeker, 2 * number + 1)?;
        assert_eq!(rt; found.as_str(), "-");
    }
    assert!(rt; 0 < not_excluded && not_excluded < 20);
    assert_eq!(rt; disk.reads, not_excluded);
    Ok(())
}

// What two look-ups give, of which the read of this number of the first fails.
fn told_twice(alloc: Global, failing: u64) -> Result<String, DiskErr> {
    let mut disk = CountedDisk::new(alloc);
    let head = written(alloc, &mut disk, 40)?;
    let seeker = opened(alloc, &mut disk, &head)?;
    disk.begin();
    disk.failing = Some(failing);
    let first = told(alloc, &mut disk, &head, &seeker, 34)?;
    let second = told(alloc, &mut disk, &head, &seeker, 34)?;
    Ok(format!(in alloc; "{first} {second}")?)
}

#[test]
fn a_fault_is_told(rt: HostRuntime) -> Result<(), Fail> {
    assert_eq!(rt; told_twice(rt.alloc(), 0)?.as_str(), "fault 34 at 1000");
    assert_eq!(rt; told_twice(rt.alloc(), 1)?.as_str(), "fault 34 at 1000");
    assert_eq!(rt; told_twice(rt.alloc(), 2)?.as_str(), "34 at 1000 fault");
    assert_eq!(rt;
        told_twice(rt.alloc(), 4)?.as_str(),
        "34 at 1000 34 at 1000"
    );
    Ok(())
}

// What a look-up gives where a byte of a file of the volume is another one before the seeker is made.
fn told_of_other(alloc: Global, kind: u8, at: usize, byte: u8) -> Result<String, DiskErr> {
    let mut disk = CountedDisk::new(alloc);
    let head = written(alloc, &mut disk, 40)?;
    disk.put(part(kind, &head), at, &[byte]);
    let seeker = opened(alloc, &mut disk, &head)?;
    Ok(told(alloc, &mut disk, &head, &seeker, 34)?)
}

// 34 is the eighteenth: the second one of the second summary, whose entry stands at 320 of the index; its own stands at 340, and its
// record at 476 of the data.
#[test]
fn other_bytes_give_no_other_series(rt: HostRuntime) -> Result<(), Fail> {
    assert_eq!(rt; told_of_other(rt.alloc(), 2, 16, 99)?.as_str(), "form of 2");
    assert_eq!(rt;
        told_of_other(rt.alloc(), 3, 340, 99)?.as_str(),
        "form of 3"
    );
    assert_eq!(rt;
        told_of_other(rt.alloc(), 4, 483, b'5')?.as_str(),
        "form of 4"
    );
    assert_eq!(rt;
        told_of_other(rt.alloc(), 4, 477, 99)?.as_str(),
        "form of 4"
    );
    assert_eq!(rt;
        told_of_other(rt.alloc(), 3, 359, 29)?.as_str(),
        "form of 4"
    );
    assert_eq!(rt;
        told_of_other(rt.alloc(), 3, 359, 27)?.as_str(),
        "form of 4"
    );
    Ok(())
}

// Of a summary that is out of place, the piece has no length.
#[test]
fn no_seeker_of_a_volume(rt: HostRuntime) -> Result<(), Fail> {
    let mut disk = CountedDisk::new(rt.alloc());
    let head = written(rt.alloc(), &mut disk, 40)?;
    let seeker = Seeker {
        bloom: Seq::new(rt.alloc()),
        summaries: opened(rt.alloc(), &mut disk, &head)?.summaries,
        index_len: 10,
    };
    let found: Result<String, Memory> = told(rt.alloc(), &mut disk, &head, &seeker, 78);
    assert_eq!(rt; found?.as_str(), "form of 2");
    Ok(())
}
