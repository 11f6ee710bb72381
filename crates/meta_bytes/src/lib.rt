//! The state of a cluster as bytes, in one spelling: its moment, its namespaces and its placement.
#![tactic(auto)]

mod lawful_state;
pub mod laws;
mod names;
mod nodes;
mod numbers;
mod read_err;
mod shards;
mod spaces;
mod spelled;
mod state;
mod state_read;

pub use lawful_state::is_meta_state;
pub use state::spell_state;
pub use state_read::{StateErr, read_state};
