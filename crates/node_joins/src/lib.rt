//! The replicas of a node begin, by shard, each with the tenure that the placement gives it; and those that join their shard are joined.
#![tactic(auto)]

mod begins;
pub mod joined;
pub mod open_err;
pub mod opens;
pub mod shards;

pub use joined::JoinedShard;
pub use open_err::OpenErr;
pub use shards::open_all;
