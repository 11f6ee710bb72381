//! How many events a bootstrap adds at most.
#![tactic(auto)]

pub mod laws;

pub use laws::joins_are_few;
