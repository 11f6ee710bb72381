//! The states of one segment.
ghost use Rattle.std.specs.Prelude.{ℕ, ◌-◌, ◌≤◌, List, length, take, drop, IfOk, IfErr, OnOk};
ghost use Rattle.m3_model.specs.declared.limits.TheConstants.{SEGMENT_BYTES};
ghost use Rattle.commit_log.specs.Reading.{IsFront};
ghost use Rattle.placement_log.specs.States.{IsPayload, MayBeState};
ghost use Rattle.placement_log.specs.Damage.{MayBreakFrom, ReadsStates, MayStop};

use crate::payload::{PayloadErr, read_payload};
use commit_log::{ChunkAt, Front, get_chunk};
use m3_model::MetaState;
use std::alloc::Global;
use std::mem;

// The state whose payload the bytes between the two offsets are; where they are none, its offset is one in all the bytes.
fn read_between(
    alloc: Global,
    bytes: &[u8],
    from: usize,
    next: usize,
) -> Result<MetaState, PayloadErr>
    requires order { from ≤ next }
    requires inside { next ≤ length bytes.now }
    ensures ok { IfOk result (IsPayload (take (next - from) (drop from bytes.now))) }
    ensures err { IfErr result (MayBreakFrom from (take (next - from) (drop from bytes.now))) }
{
    match read_payload(alloc, &bytes[from..next]) {
        Ok(state) => Ok(state),
        Err(PayloadErr::Memory) => Err(PayloadErr::Memory),
        Err(PayloadErr::Digest { kept, found }) => Err(PayloadErr::Digest { kept, found }),
        Err(PayloadErr::Form { at }) => Err(PayloadErr::Form { at: from + at }),
    }
}

/// Reads the states of the segment whose file begins so, a chunk at a time, and keeps the last one.
///
/// # Errors
///
/// Want of memory. The first chunk that is no state's payload, or the offset at which no segment goes on, whichever comes first.
pub(crate) fn read_segment(
    alloc: Global,
    front: &Front,
    last: &mut Option<MetaState>,
) -> Result<(), PayloadErr>
    requires { length front.now.bytes.items ≤ SEGMENT_BYTES }
    ensures ok { OnOk result ((file : List ℕ) → IsFront front.now.bytes.items front.now.is_whole file → ReadsStates file last.old last.new) }
    ensures err { IfErr result (λ e. (file : List ℕ) → IsFront front.now.bytes.items front.now.is_whole file → MayStop file e) }
    ensures state { MayBeState last.old → MayBeState last.new }
{
    let bytes = front.bytes.as_slice();
    let mut at = 0;
    let mut found = get_chunk(bytes, at);
    while let ChunkAt::Chunk { from, next } = found {
        let state = read_between(alloc, bytes, from, next)?;
        drop(mem::replace(last, Some(state)));
        at = next;
        found = get_chunk(bytes, at);
    }
    if let ChunkAt::Bad { at } = found {
        return Err(PayloadErr::Form { at });
    }
    if !front.is_whole {
        return Err(PayloadErr::Form { at: bytes.len() });
    }
    Ok(())
}
