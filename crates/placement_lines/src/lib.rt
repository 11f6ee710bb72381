//! What a line that makes a placement leads to: the next placement, or the first refusal that is due.
#![tactic(auto)]

pub mod laws;
pub mod lines;

pub use lines::{initial_placement, next_placement};
