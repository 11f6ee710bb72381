//! The points of one shard that one replica holds in memory, and what it answers a read with.
#![tactic(auto)]

mod candidates;
mod counted;
pub mod held;
mod listing;
mod matching;
mod ranges;

pub use held::{HeldPoints, hold};

// Of libraries that the rows of crates above need not name: what these crates name of them.
/// Of `series_id`.
pub mod of_series_id {
    pub use series_id::{has_tag, shard_of};
}
