ghost use Rattle.std.specs.Prelude.{◌≡◌};
ghost use Rattle.node_joins.specs.declared.open_err.OpenErr.TheVariants as errors;

use m3_model::{Memory, Reason, Seq};
use thiserror::Error;

/// Why the replicas of a node weren't all opened.
#[derive(Debug, Drop, Error)]
pub enum OpenErr {
    /// The replica of this shard refused its begin or a merge: a fault, damage or want of memory.
    #[error("the replica of shard {shard} refused: {why:?}")]
    Refused {
        shard: u32,
        why: Reason,
    },
    /// Fewer than a majority of the former replicas of this shard streamed whole.
    #[error("{got} of {needed} former replicas of shard {shard} streamed whole")]
    Peers {
        shard: u32,
        /// A majority of the replicas of a shard.
        needed: u32,
        /// How many streamed whole.
        got: u32,
        /// Each of the others with its reason, in the order of the nodes' names.
        reasons: Seq<(u8, Reason)>,
    },
    /// Want of memory.
    #[error("out of memory")]
    Memory,
    /// The list of events has no room for what comes next.
    #[error("the list of events is full")]
    Full,
}

impl From<Memory> for OpenErr {
    ghost from_gives = { λ _ e. e ≡ errors.Memory };

    fn from(_: Memory) -> OpenErr {
        OpenErr::Memory
    }
}
