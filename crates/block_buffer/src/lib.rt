//! The points that a replica holds in memory.
#![tactic(auto)]

mod all_series;
mod blocks;
mod bounds;
pub mod buffer;
mod first_times;
pub mod laws;
mod room;
mod spot;
pub mod stand;
pub mod taken;

pub use buffer::Buffer;
pub use stand::Stand;
pub use taken::Taken;
