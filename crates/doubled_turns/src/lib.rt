//! What a cluster would answer to words whose replicas are doubles, for tests.
#![tactic(auto)]

pub mod sessions;
pub mod sweeps;
pub mod turns;

pub use sessions::{deliver, read, write};
pub use sweeps::{status, sweep};
pub use turns::{keep, open};
