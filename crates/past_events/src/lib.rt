//! What the events before one tell of it: what was asked for, the placements and rules that stand, who took a point, and what a
//! joining replica has merged.
#![tactic(auto)]

pub mod asks;
pub mod earlier;
pub mod joins;

pub use asks::was_asked;
pub use earlier::{are_counted, has_put, has_shard, last_clock, last_place};
pub use joins::has_joined;
