ghost use Rattle.std.specs.Prelude.{◌≡◌, ◌++◌, IfOk, OnOk};
ghost use Rattle.meta_bytes.specs.States.{FitsState, IsMetaState, state_bytes};

use crate::spelled::put_all;
use m3_model::{Memory, MetaState};
use std::alloc::Global;
use wire_bytes::put_number;

// The first byte of a state.
pub(crate) const FORMAT: u64 = 1;

// Appends the state's bytes.
fn put_state(out: &mut Vec<u8>, state: &MetaState) -> Result<(), Memory>
    requires { FitsState state.now }
    ensures { OnOk result (out.new.items ≡ out.old.items ++ state_bytes state.now) }
{
    put_number(out, 1, FORMAT)?;
    put_number(out, 8, state.rules.now)?;
    put_number(out, 4, u64::from(state.seed))?;
    put_number(out, 1, u64::from(state.place.rf))?;
    put_number(out, 8, state.place.version)?;
    put_all(out, state.place.instances.as_slice())?;
    put_all(out, state.place.shards.as_slice())?;
    put_all(out, state.rules.spaces.as_slice())
}

/// The bytes of the state, which is to be one that a cluster may have. `read_state` gives it back.
///
/// # Errors
///
/// Want of memory.
pub fn spell_state(alloc: Global, state: &MetaState) -> Result<Vec<u8>, Memory>
    requires { IsMetaState state.now }
    ensures { IfOk result (λ v. v.items ≡ state_bytes state.now) }
{
    let mut out = Vec::new(alloc);
    put_state(&mut out, state)?;
    Ok(out)
}
