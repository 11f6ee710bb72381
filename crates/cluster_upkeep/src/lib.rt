//! What is done from time to time on a cluster that stands: each of its replicas ticks, flushes or saves what it
//! has in memory, or says how it stands.
#![tactic(auto)]

mod findings;
pub mod reports;
mod rows;
pub mod sweeps;

pub use reports::status;
pub use sweeps::{flush, snapshot, tick};
