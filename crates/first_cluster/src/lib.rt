//! What a cluster begins with: replicas are made over the disks of its slots and begun, behind the events that open the run's list; and
//! the disks are given back.
#![tactic(auto)]

mod begins;
pub mod first;
pub mod laws;
pub mod lending;
pub mod plan;
pub mod start;
mod unopened;

pub use first::{Lent, begin_first, give_back, lend_first};
pub use lending::give_all;
pub use plan::{Plan, plan_first};
pub use start::Start;
