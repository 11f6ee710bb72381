// The names of files on the host, read and spelled.
use file_names::{NAME_ROOM, add_folder, add_name, name_of};
use m3_outside::{DiskSlot, FileName};
use std::alloc::{AllocError, Global};
use std::test::Fail;

// A text, and the file of which it is the name: its kind, namespace, block and number.
const ROWS: &str = "log-0.db>0,0,0,0
log-18446744073709551615.db>0,0,0,18446744073709551615
log-18446744073709551616.db>-
log-007.db>-
log-+7.db>-
log-7.db.new>-
log-7>-
LOG-7.db>-
log-.db>-
fileset-0-1000-2-info.db>1,0,1000,2
fileset-7-0-1-summaries.db>2,7,0,1
fileset-1-200-3-index.db>3,1,200,3
fileset-1-200-3-data.db>4,1,200,3
fileset-1-200-3-bloom.db>5,1,200,3
fileset-1-200-3-digests.db>6,1,200,3
fileset-255-200-3-checkpoint.db>7,255,200,3
fileset-256-200-3-checkpoint.db>-
fileset-1-200-checkpoint.db>-
fileset-1-200-3-4-data.db>-
fileset-1-200-3-rows.db>-
snapshot-5-data.db>8,0,0,5
snapshot-5-checkpoint.db>9,0,0,5
snapshot-5-index.db>-
snapshot-05-data.db>-
notes.txt>-
.db>-
>-";

fn tell(name: Option<FileName>, out: &mut String) -> Result<(), Fail> {
    match name {
        Some(name) => Ok(write!(
            out,
            "{},{},{},{}",
            name.kind, name.ns, name.block, name.number
        )?),
        None => Ok(out.push_str("-")?),
    }
}

fn tell_rows(alloc: Global, out: &mut String) -> Result<(), Fail> {
    let mut room = String::with_capacity(alloc, NAME_ROOM)?;
    for row in ROWS.lines() {
        let (text, _) = row.split_once('>').unwrap_or(("", ""));
        write!(out, "{text}>")?;
        tell(name_of(text, &mut room)?, out)?;
        out.push_str("\n")?;
    }
    Ok(())
}

#[test]
fn names_are_read(rt: HostRuntime) -> Result<(), Fail> {
    let mut out = String::new(rt.alloc());
    tell_rows(rt.alloc(), &mut out)?;
    assert_eq!(rt; out.as_str().trim_end(), ROWS);
    Ok(())
}

// Each file of the first few of each kind has a name of its own, which is read as that file.
fn read_back(alloc: Global, name: FileName) -> Result<bool, AllocError> {
    let mut text = String::with_capacity(alloc, NAME_ROOM)?;
    text.reserve(NAME_ROOM)?;
    add_name(&mut text, name);
    let mut room = String::new(alloc);
    Ok(name_of(text.as_str(), &mut room)? == Some(name))
}

#[test]
fn spelled_names_are_read(rt: HostRuntime) -> Result<(), Fail> {
    for kind in 0..10u8 {
        for number in [0u64, 9, 10, u64::MAX] {
            let of_volume = 0 < kind && kind < 8;
            let name = FileName {
                kind,
                ns: if of_volume { 3 } else { 0 },
                block: if of_volume { number } else { 0 },
                number,
            };
            assert!(rt; read_back(rt.alloc(), name)?);
        }
    }
    Ok(())
}

fn folder(alloc: Global, node: u8, shard: u32) -> Result<String, AllocError> {
    let mut text = String::new(alloc);
    text.reserve(NAME_ROOM)?;
    add_folder(&mut text, DiskSlot { node, shard });
    Ok(text)
}

#[test]
fn folders_are_spelled(rt: HostRuntime) -> Result<(), Fail> {
    assert_eq!(rt; folder(rt.alloc(), 0, 0)?.as_str(), "0-0");
    assert_eq!(rt; folder(rt.alloc(), 15, 63)?.as_str(), "15-63");
    assert_eq!(rt; folder(rt.alloc(), u8::MAX, u32::MAX)?.as_str(), "meta");
    Ok(())
}
