//! A cluster of one node, told from others by its seed.
ghost use Rattle.std.specs.Prelude.{IfOk};
ghost use Rattle.meta_bytes.specs.States.{IsMetaState};

use m3_model::MetaState;
use meta_bytes::{StateErr, read_state};
use std::alloc::Global;

// The moment 0, the seed 0, one replica, version 1; the node a in g, listed; one shard, Available there; no namespaces.
const BYTES: [u8; 42] = [
    1, 0, 0, 0, 0, 0, 0, 0, 0, 0, 0, 0, 0, 1, 0, 0, 0, 0, 0, 0, 0, 1, 1, 1, 97, 1, 103, 1, 1, 1, 0,
    0, 0, 0, 0, 0, 0, 0, 1, 1, 255, 0,
];

/// The state of such a cluster.
pub fn small_state(alloc: Global, seed: u8) -> Result<MetaState, StateErr>
    ensures { IfOk result IsMetaState }
{
    let mut bytes = BYTES;
    bytes[12] = seed;
    read_state(alloc, &bytes)
}
