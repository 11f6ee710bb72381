//! The payload of a state: a digest, and the bytes that it is of.
ghost use Rattle.std.specs.Prelude.{◌≡◌, ◌+◌, ◌≤◌, length, take, drop, IfOk, IfErr};
ghost use Rattle.sha2.specs.Sha256.{sha256};
ghost use Rattle.m3_model.specs.declared.limits.TheConstants.{SEGMENT_BYTES};
ghost use Rattle.meta_bytes.specs.States.{IsMetaState};
ghost use Rattle.placement_log.specs.States.{payload_bytes, IsPayload};
ghost use Rattle.placement_log.specs.Damage.{MayBreakPayload};

use m3_model::{Memory, MetaState};
use meta_bytes::{StateErr, read_state, spell_state};
use std::alloc::Global;
use wire_bytes::digest;

/// The bytes of a digest.
const DIGEST_BYTES: usize = 32;

/// Why some bytes aren't read as a payload.
#[derive(Clone, Copy, Debug, PartialEq, Eq)]
pub enum PayloadErr {
    /// Want of memory.
    Memory,
    /// The digest that is kept is another one than that of the bytes behind it.
    Digest { kept: [u8; 32], found: [u8; 32] },
    /// They aren't the bytes of a payload, by the offset `at`.
    Form { at: usize },
}

/// The state's payload.
pub(crate) fn payload_of(alloc: Global, state: &MetaState) -> Result<Vec<u8>, Memory>
    requires { IsMetaState state.now }
    ensures ok { IfOk result (λ v. v.items ≡ payload_bytes state.now) }
    ensures short { IfOk result (λ v. 5 + length v.items ≤ SEGMENT_BYTES) }
{
    let bytes = spell_state(alloc, state)?;
    let mut payload = Vec::from_slice(alloc, &digest(&bytes))?;
    payload.extend_from_slice(&bytes)?;
    Ok(payload)
}

// The digest that begins the chunk.
fn kept_digest(chunk: &[u8]) -> [u8; DIGEST_BYTES]
    requires { 32 ≤ length chunk.now }
    ensures { result ≡ take 32 chunk.now }
{
    let mut kept = [0; DIGEST_BYTES];
    kept.copy_from_slice(&chunk[..DIGEST_BYTES]);
    kept
}

// The state whose bytes stand behind a digest, which is that of these bytes.
fn read_behind(alloc: Global, chunk: &[u8]) -> Result<MetaState, PayloadErr>
    requires long { 32 ≤ length chunk.now }
    requires digest { take 32 chunk.now ≡ sha256 (drop 32 chunk.now) }
    ensures ok { IfOk result (IsPayload chunk.now) }
    ensures err { IfErr result (MayBreakPayload chunk.now) }
{
    match read_state(alloc, &chunk[DIGEST_BYTES..]) {
        Ok(state) => Ok(state),
        Err(StateErr::Memory) => Err(PayloadErr::Memory),
        Err(StateErr::Form { at }) => Err(PayloadErr::Form {
            at: DIGEST_BYTES + at,
        }),
        Err(StateErr::Rules) => Err(PayloadErr::Form { at: chunk.len() }),
    }
}

/// The state whose payload these bytes are.
pub(crate) fn read_payload(alloc: Global, chunk: &[u8]) -> Result<MetaState, PayloadErr>
    ensures ok { IfOk result (IsPayload chunk.now) }
    ensures err { IfErr result (MayBreakPayload chunk.now) }
{
    if chunk.len() < DIGEST_BYTES {
        return Err(PayloadErr::Form { at: chunk.len() });
    }
    let kept = kept_digest(chunk);
    let found = digest(&chunk[DIGEST_BYTES..]);
    if kept != found {
        return Err(PayloadErr::Digest { kept, found });
    }
    read_behind(alloc, chunk)
}
