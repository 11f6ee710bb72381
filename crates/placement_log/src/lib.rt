//! The log of the meta disk: the last state of the cluster that was saved stands, wherever a stop falls.
#![tactic(auto)]

pub mod laws;
mod meta_log;
mod older;
mod open_err;
mod payload;
mod read;
mod segment;

pub use meta_log::MetaLog;
pub use open_err::OpenErr;
