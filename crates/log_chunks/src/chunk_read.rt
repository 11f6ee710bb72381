ghost use Rattle.std.specs.Prelude.{◌≡◌, ℕ, ◌≤◌, List, length, take};
ghost use Rattle.wire_bytes.specs.m3_model.declared.limits.TheConstants.{SEGMENT_BYTES};
ghost use Rattle.log_chunks.specs.Segment.{written};
ghost use Rattle.log_chunks.specs.Offsets.{IsNext};

use crate::head::{HEAD_BYTES, OPEN};
use wire_bytes::of_m3_model::limits::SEGMENT_BYTES;
use wire_bytes::{WireErr, get_between};

/// What stands at an offset in the first bytes of a segment.
#[derive(Clone, Copy, Debug, PartialEq, Eq)]
pub enum ChunkAt {
    /// A whole chunk: its payload is the bytes from `from` to `next`, which is the offset behind it.
    Chunk { from: usize, next: usize },
    /// No whole chunk. Reading ends here.
    End,
    /// The length of a chunk for which the segment has no room: no segment has the byte at `at` there, though some segment
    /// begins with those before it.
    Bad { at: usize },
}

/// What stands at the offset, behind whole chunks, in the first bytes of a segment. Where there are fewer bytes than a
/// segment has, a chunk that reaches beyond them isn't whole. Takes no memory.
pub fn get_chunk(bytes: &[u8], at: usize) -> ChunkAt
    requires short { length bytes.now ≤ SEGMENT_BYTES }
    requires inside { at ≤ length bytes.now }
    ensures { (chunks : List (List ℕ)) → take at bytes.now ≡ written chunks → IsNext chunks bytes.now at result }
{
    let segment = SEGMENT_BYTES as usize;
    let head = HEAD_BYTES as usize;
    if at == bytes.len() || bytes[at] != OPEN || segment - at < head {
        return ChunkAt::End;
    }
    match get_between(bytes, at + 1, 4, 0, (segment - at - head) as u64) {
        Err(WireErr::Short) => ChunkAt::End,
        Err(WireErr::Bad { at }) => ChunkAt::Bad { at },
        Ok(len) => {
            let from = at + head;
            let next = from + len as usize;
            if bytes.len() < next {
                return ChunkAt::End;
            }
            ChunkAt::Chunk { from, next }
        }
    }
}
