//! The generated script: requests that write, move a shard's replicas, flush and read, by a seed of draws. One seed gives
//! one script, whoever makes it. And what the replies to it came to, as one line.
#![tactic(auto)]

mod draws;
pub mod laws;
mod lines;
mod script;
mod summary;

pub use script::Script;
pub use summary::Summary;
