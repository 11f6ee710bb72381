//! Ordered lists of series, merged in one pass: what replicas answer, or what a replica holds in several places.
#![tactic(auto)]

pub mod laws;
pub mod merging;
mod pairs;
mod same;

pub use merging::merge;
