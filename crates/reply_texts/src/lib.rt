//! Replies to writes and to reads, written as they are made: no tree of values stands between them and their text.
#![tactic(auto)]

mod items;
pub mod texts;
mod tokens;

pub use texts::{acks_into, found_into};
