//! What the line of a bootstrap that ends moves adds to the list, and that a run which is told and served stays so by it.
#![tactic(auto)]

pub mod lines;

pub use lines::{broken_joins_are_refused, joins_are_whole, joins_serve, missed_joins_serve};
