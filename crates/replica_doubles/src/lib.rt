//! A double of a cluster's replicas, for tests: machines over equal disks, called as the replicas are, with each event kept.
#![tactic(auto)]

pub mod doubles;
pub mod heard;

pub use doubles::{Change, Double, Job, NODES, Range, Sending, space_of};
pub use heard::Heard;
