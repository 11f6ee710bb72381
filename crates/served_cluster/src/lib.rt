//! The cluster: a request in, its reply out.
#![tactic(auto)]

pub mod cluster;
pub mod joins;
pub mod plan;

pub use cluster::Cluster;
pub use plan::Plan;
