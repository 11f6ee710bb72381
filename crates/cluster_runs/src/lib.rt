//! What a cluster answers to words, opened over the disks of a run; and its members.
#![tactic(auto)]

pub mod runs;

pub use runs::{members_after, run, tell_word};
