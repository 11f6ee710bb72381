//! The placement that a cluster begins with.
#![tactic(auto)]

pub mod initial;
