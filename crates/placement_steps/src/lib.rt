//! Which placement may follow another, decided.
#![tactic(auto)]

mod shard_step;
pub mod step;

pub use step::is_step;
