ghost use Rattle.std.specs.Prelude.{◌≡◌};
ghost use Rattle.placement_plan.specs.declared.plan_err.PlaceErr.TheVariants as errors;

use placement_core::of_m3_model::memory;
use std::alloc::{AllocError, AllocFailed};
use thiserror::Error;

/// Why there is no plan. The placement that was asked about stays as it is.
#[derive(Clone, Copy, Debug, PartialEq, Eq, Error)]
pub enum PlaceErr {
    /// The least shard in the way, and the node that is in the way there.
    #[error("shard {shard} moves at node {node}")]
    Busy { shard: u32, node: u8 },
    /// The least shard for which no isolation group is left.
    #[error("no isolation group is left for shard {shard}")]
    Group { shard: u32 },
    /// No listed node has the name.
    #[error("no node has the name")]
    Unknown,
    /// A listed node has the name already.
    #[error("a node has the name already")]
    Exists,
    /// So many node names stand, and no more may.
    #[error("there may be at most {limit} names of nodes")]
    Limit { limit: u64 },
    /// There is no memory, or no further version, for the plan.
    #[error("out of memory, or of versions")]
    Memory,
}

impl From<memory::Memory> for PlaceErr {
    ghost from_gives = { λ _ e. e ≡ errors.Memory };

    fn from(_: memory::Memory) -> PlaceErr {
        PlaceErr::Memory
    }
}

impl From<AllocError> for PlaceErr {
    ghost from_gives = { λ _ e. e ≡ errors.Memory };

    fn from(_: AllocError) -> PlaceErr {
        PlaceErr::Memory
    }
}

impl<T: Drop> From<AllocFailed<T>> for PlaceErr {
    ghost from_gives = { λ _ e. e ≡ errors.Memory };

    fn from(_: AllocFailed<T>) -> PlaceErr {
        PlaceErr::Memory
    }
}
