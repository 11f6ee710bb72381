//! Laws over the transcript definitions where shards move: who doesn't own a shard, which fences there are, what a
//! bootstrap prints, which slots had a replica, and what lines that make a placement answer.
#![tactic(auto)]

pub mod bootstraps;
pub mod fences;
pub mod owners;
pub mod slots;
pub mod steps;
