ghost use Rattle.std.specs.Prelude.{◌≡◌};
ghost use Rattle.session_net.specs.declared.session_err.SessionErr.TheVariants as errors;

use m3_model::{Memory, Reason, Seq};
use thiserror::Error;

/// Why a call of the session is refused.
#[derive(Debug, Drop, Error)]
pub enum SessionErr {
    /// Fewer replicas than needed answered.
    #[error("{got} of {needed} replicas of shard {shard} answered")]
    Consistency {
        /// The shard of which too few answered.
        shard: u32,
        /// How many answers the call's level needs.
        needed: u32,
        /// How many answered.
        got: u32,
        /// Each node that was asked and didn't answer, with its reason, in the order of the nodes' names.
        reasons: Seq<(u8, Reason)>,
    },
    /// Want of memory.
    #[error("out of memory")]
    Memory,
    /// The list of events has no room for what the call may add.
    #[error("the list of events is full")]
    Full,
}

impl From<Memory> for SessionErr {
    ghost from_gives = { λ _ e. e ≡ errors.Memory };

    fn from(_: Memory) -> SessionErr {
        SessionErr::Memory
    }
}
