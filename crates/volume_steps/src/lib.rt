//! Volumes that are written and taken away, in the words of what is in memory of a replica's files: a stop at any moment keeps
//! each point that is to be kept, the tenure and the fence.
#![tactic(auto)]

pub mod laws;
mod removal;
mod writing;

pub use removal::{remove_volume, remove_volumes};
pub use writing::write_volume;
