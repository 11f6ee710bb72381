//! Laws over the transcript definitions: which worked transcripts they accept, and which they refuse.
#![tactic(auto)]

pub mod accepted;
pub mod general;
pub mod numbers;
pub mod refused;
pub mod shapes;
pub mod tags;
pub mod uncaused;
