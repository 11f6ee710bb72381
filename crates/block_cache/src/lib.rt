//! The blocks that were read last, by the volume they were read from.
#![tactic(auto)]

mod cache;
pub mod laws;

pub use cache::Cache;
