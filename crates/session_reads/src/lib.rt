//! Reads: the replicas that count for a shard, or for every shard, are asked, and their answers are joined.
#![tactic(auto)]

mod ask;
mod gather;
pub mod read;
mod shard;

pub use read::{Found, fetch};
