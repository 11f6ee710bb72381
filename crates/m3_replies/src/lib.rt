//! The texts of replies: each one is a line of compact JSON with its keys in ascending order.
#![tactic(auto)]

pub mod laws;
mod reply;
mod shortfall;
mod success;

pub use reply::print_reply;
