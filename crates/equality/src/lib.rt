//! Whether two values are equal, decided.
#![tactic(auto)]

pub mod same;

pub use same::{Same, are_same};
