//! What a cluster goes on with where a state was saved: the state stands, with a replica that didn't begin yet over the disk of each slot.
#![tactic(auto)]

pub mod open;
mod plan;

pub use open::open_members;
