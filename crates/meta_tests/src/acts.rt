//! The words of the meta disk's log and of states.
use crate::runs::run;
use crate::states;
use disk_stories::{Words, cut, files, number, text};
use m3_model::limits::SEGMENT_BYTES;
use m3_outside::{Disk, DiskErr, FileName};
use mem_disk::MemDisk;
use std::alloc::Global;
use wire_bytes::digest;

/// The name of a segment.
pub fn segment_name(number: u64) -> FileName {
    FileName {
        kind: 0,
        ns: 0,
        block: 0,
        number,
    }
}

// `S2:0102` makes a segment of these bytes, and zeros behind them.
fn make_segment<D: Disk>(alloc: Global, disk: &mut D, words: &str) -> Result<bool, DiskErr> {
    let (segment, digits) = cut(words, ':');
    let bytes = files::decoded(alloc, digits)?;
    files::make(disk, segment_name(number(segment)), SEGMENT_BYTES, &bytes)
}

// `t0102` tells the state that these bytes are.
fn tell_state(alloc: Global, digits: &str, out: &mut String) -> Result<bool, DiskErr> {
    let bytes = files::decoded(alloc, digits)?;
    states::tell_bytes(alloc, &bytes, out)?;
    Ok(true)
}

// The bytes of a chunk with a small state: its gate and its length, a digest, and the state.
const HEAD: usize = 5;

const DIGEST: usize = 32;

const CHUNK: usize = HEAD + DIGEST + 42;

// Tells the digest that is kept in a chunk's payload, and the one that is found.
fn tell_digests(alloc: Global, payload: &[u8], out: &mut String) -> Result<(), DiskErr> {
    let (kept, state) = payload.split_at(payload.len().min(DIGEST));
    files::tell_bytes(alloc, " kept ", kept, out)?;
    files::tell_bytes(alloc, " found ", &digest(state), out)
}

/// The words of the meta disk's log and of states.
pub struct MetaWords;

impl Words for MetaWords {
    fn say(
        alloc: Global,
        disk: &mut MemDisk,
        word: &str,
        out: &mut String,
    ) -> Result<bool, DiskErr> {
        match word.as_bytes() {
            [b'r', rest @ ..] => run(alloc, disk, text(rest), out),
            [b'S', rest @ ..] => make_segment(alloc, disk, text(rest)),
            [b't', rest @ ..] => tell_state(alloc, text(rest), out),
            _ => files::say(alloc, disk, word, out),
        }
    }

    // The segments of the log.
    fn may_change(_files: &str, name: FileName) -> bool {
        name.kind == 0 && name.ns == 0 && name.block == 0
    }

    // The digests of the chunk, in a segment of small states, of which a bit was turned behind its length.
    fn tell_turned(
        alloc: Global,
        disk: &mut MemDisk,
        name: FileName,
        at: usize,
        out: &mut String,
    ) -> Result<(), DiskErr> {
        write!(out, "digest in {}", name.number)?;
        let from = at / CHUNK * CHUNK + HEAD;
        let payload = files::bytes_at(alloc, disk, name, from as u64, CHUNK - HEAD)?;
        tell_digests(alloc, &payload, out)
    }
}
