use m3_model::{Reason, Seq};
use thiserror::Error;

/// Why the join of a shard ended early.
#[derive(Debug, Drop, Error)]
pub enum BootErr {
    /// All former replicas were asked, and fewer than a majority streamed whole.
    #[error("{got} of {needed} former replicas streamed whole")]
    Peers {
        /// A majority of the replicas of a shard.
        needed: u32,
        /// How many streamed whole.
        got: u32,
        /// Each of the others with its reason, in the order of the nodes' names.
        reasons: Seq<(u8, Reason)>,
    },
    /// The joining replica refused to merge a page.
    #[error("the joining replica refused: {0:?}")]
    Own(Reason),
    /// The list of events has no room for what comes next.
    #[error("the list of events is full")]
    Full,
}
