//! The line of a bootstrap on a cluster that stands: the replicas of a node begin, those that join their shards are joined, then one
//! placement ends their moves, and the tenures of the sources end. Each of these three is a call of its own, so that a state can be saved between.
#![tactic(auto)]

pub mod boots;
mod events;
pub mod marking;
pub mod marks;
mod parts;

pub use boots::open_node;
pub use marking::{Booting, Marked, Marking};
pub use marks::{end_sources, mark};
