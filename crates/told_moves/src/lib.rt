//! Where a legal list of events tells of a run over moving placements, refusals of nodes that don't own a shard and of
//! fenced replicas have their causes.
#![tactic(auto)]

pub mod moves;

pub use moves::{not_owned_is_said, stale_is_said, streams_are_owned};
