ghost use Rattle.std.specs.Prelude.{ℕ, ◌-◌, ◌≤◌, List, length, take, drop, IfOk, IfErr, OnOk};
ghost use Rattle.commit_log.specs.m3_model.declared.limits.TheConstants.{SEGMENT_BYTES};
ghost use Rattle.commit_log.specs.Reading.{IsFront};
ghost use Rattle.shard_files.specs.Entries.{IsEntry, MayBreakFrom};
ghost use Rattle.shard_files.specs.Loading.{ReadsEntries, MayStop};

use crate::entries::{EntryErr, LogEntry, read_entry};
use commit_log::{ChunkAt, Front, get_chunk};
use std::alloc::Global;

// The entry that the bytes between the two offsets are; where they are none, its offset is one in all the bytes.
fn read_between(alloc: Global, bytes: &[u8], from: usize, next: usize) -> Result<LogEntry, EntryErr>
    requires order { from ≤ next }
    requires inside { next ≤ length bytes.now }
    ensures ok { IfOk result (λ e. IsEntry (take (next - from) (drop from bytes.now)) e) }
    ensures err { IfErr result (MayBreakFrom from (take (next - from) (drop from bytes.now))) }
{
    match read_entry(alloc, &bytes[from..next]) {
        Ok(entry) => Ok(entry),
        Err(EntryErr::Memory) => Err(EntryErr::Memory),
        Err(EntryErr::Form { at }) => Err(EntryErr::Form { at: from + at }),
    }
}

/// Appends the entries of the segment whose file begins so, a chunk at a time.
///
/// # Errors
///
/// Want of memory. The first offset at which no segment goes on, or at which a whole chunk stops to be an entry.
pub fn read_segment(
    alloc: Global,
    front: &Front,
    entries: &mut Vec<LogEntry>,
) -> Result<(), EntryErr>
    requires { length front.now.bytes.items ≤ SEGMENT_BYTES }
    ensures ok { OnOk result ((file : List ℕ) → IsFront front.now.bytes.items front.now.is_whole file → ReadsEntries file entries.old.items entries.new.items) }
    ensures err { IfErr result (λ e. (file : List ℕ) → IsFront front.now.bytes.items front.now.is_whole file → MayStop file e) }
{
    let bytes = front.bytes.as_slice();
    let mut at = 0;
    let mut found = get_chunk(bytes, at);
    while let ChunkAt::Chunk { from, next } = found {
        let entry = read_between(alloc, bytes, from, next)?;
        entries.push(entry)?;
        at = next;
        found = get_chunk(bytes, at);
    }
    if let ChunkAt::Bad { at } = found {
        return Err(EntryErr::Form { at });
    }
    if !front.is_whole {
        return Err(EntryErr::Form { at: bytes.len() });
    }
    Ok(())
}
