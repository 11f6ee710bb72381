//! Bootstrappers in their order: which of them claims which ranges of a replica's shard. Each is asked for what those
//! before it left, and claims some of that, so the claims and what is left at the end are the ranges that were asked for,
//! each of them once.
#![tactic(auto)]

pub mod bootstrapper;
pub mod chain;
pub mod laws;
pub mod origin;
pub mod range;

pub use bootstrapper::Bootstrapper;
pub use chain::{Claims, run_chain};
pub use origin::{Claimant, Origin, claim_by_origin};
pub use range::{Range, RangeList};
