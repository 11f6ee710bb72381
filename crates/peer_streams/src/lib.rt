//! What a joining replica asks of former ones, and what came of it: streams, and the joins that are made of them.
#![tactic(auto)]

pub mod laws;

pub use laws::whole_streams_join;
