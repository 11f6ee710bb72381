//! Laws over the transcript definitions where nodes join: whom a node joined with, why a bootstrap ends no move, which
//! replicas only a fault explains, and what earlier runs left to replicas.
#![tactic(auto)]

pub mod blamed;
pub mod joined;
pub mod left;
pub mod limits;
pub mod peers;
