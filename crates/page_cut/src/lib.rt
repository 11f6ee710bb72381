//! Pages of a list of points: each goes on from a key, up to a limit, and says with which key the next one goes on.
#![tactic(auto)]

pub mod laws;
mod pages;

pub use pages::{ascend, cut};
