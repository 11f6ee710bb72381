ghost use Rattle.std.specs.Prelude.{◌≡◌, ℕ, length, IfOk, IfErr};
ghost use Rattle.meta_bytes.specs.Forms.{HasForm, StandsAs, MayFault};
ghost use Rattle.meta_bytes.specs.States.{FitsState, state_form, state_bytes, IsStateOf, MayBreak, placed};

use crate::lawful_state::is_meta_state;
use crate::numbers::read_number;
use crate::read_err::ReadErr;
use crate::spelled::read_all;
use crate::state::FORMAT;
use m3_model::limits::{
    MOST_NAMESPACES, MOST_NODES, MOST_REPLICAS, MOST_SHARDS, NUMBER_END, SEED_END, TIME_END,
};
use m3_model::{MetaState, Placement, Rules};
use std::alloc::Global;
use thiserror::Error;
use wire_bytes::WireErr;

/// Why some bytes aren't read as a state.
#[derive(Clone, Copy, Debug, PartialEq, Eq, Error)]
pub enum StateErr {
    /// Want of memory.
    #[error("out of memory")]
    Memory,
    /// They haven't the form of a state: some bytes of the form begin with those before the offset `at`, and none go on with
    /// the byte there, or there is none.
    #[error("no state goes on with the byte at {at}")]
    Form { at: usize },
    /// They have the form of a state, but what its fields say doesn't go together: no cluster may have it.
    #[error("the fields of the state do not go together")]
    Rules,
}

// The state whose fields stand in the first bytes, and the offset behind them.
fn read_fields(alloc: Global, bytes: &[u8]) -> Result<(MetaState, usize), ReadErr>
    ensures ok { IfOk result (λ r. StandsAs state_form (state_bytes r.0) bytes.now 0 r.1) }
    ensures fits { IfOk result (λ r. FitsState r.0) }
    ensures err { IfErr result (MayFault (HasForm state_form) bytes.now 0) }
{
    let (_format, now_at) = read_number(bytes, 0, 1, FORMAT, FORMAT)?;
    let (now, seed_at) = read_number(bytes, now_at, 8, 0, TIME_END - 1)?;
    let (seed, rf_at) = read_number(bytes, seed_at, 4, 0, SEED_END - 1)?;
    let (rf, version_at) = read_number(bytes, rf_at, 1, 1, MOST_REPLICAS as u64)?;
    let (version, instances_at) = read_number(bytes, version_at, 8, 0, NUMBER_END - 1)?;
    let (instances, shards_at) = read_all(alloc, bytes, instances_at, 1, MOST_NODES as u64)?;
    let (shards, spaces_at) = read_all(alloc, bytes, shards_at, 1, MOST_SHARDS as u64)?;
    let (spaces, next) = read_all(alloc, bytes, spaces_at, 0, MOST_NAMESPACES as u64)?;
    let state = MetaState {
        rules: Rules { now, spaces },
        seed: seed as u32,
        place: Placement {
            version,
            rf: rf as u32,
            instances,
            shards,
        },
    };
    Ok((state, next))
}

// A fault as an offset in so many bytes.
fn placed(e: ReadErr, len: usize) -> StateErr
    ensures { result ≡ placed len e }
{
    match e {
        ReadErr::Memory => StateErr::Memory,
        ReadErr::Wire {
            why: WireErr::Short,
        } => StateErr::Form { at: len },
        ReadErr::Wire {
            why: WireErr::Bad { at },
        } => StateErr::Form { at },
    }
}

/// The state that all these bytes are, which is one that a cluster may have: `spell_state` gives just these bytes for it.
///
/// # Errors
///
/// Want of memory. Where the bytes haven't the form of a state, the first offset at which they stop to have it; and where they
/// have it, but what the fields say doesn't go together, that this is so.
pub fn read_state(alloc: Global, bytes: &[u8]) -> Result<MetaState, StateErr>
    ensures ok { IfOk result (IsStateOf bytes.now) }
    ensures err { IfErr result (MayBreak bytes.now) }
{
    let (state, next) = match read_fields(alloc, bytes) {
        Ok(found) => found,
        Err(e) => return Err(placed(e, bytes.len())),
    };
    if next < bytes.len() {
        return Err(StateErr::Form { at: next });
    }
    if !is_meta_state(&state) {
        return Err(StateErr::Rules);
    }
    Ok(state)
}
