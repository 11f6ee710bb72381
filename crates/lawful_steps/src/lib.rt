//! Whether a step of a replica is lawful, by its state and by the events before it.
#![tactic(auto)]

mod refusals;
pub mod rows;

pub use rows::is_lawful_step;
