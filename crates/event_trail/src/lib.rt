//! The list of a run's events, as one thread adds to it. It exists for proofs alone, and costs neither time nor memory in proportion.
#![tactic(auto)]

pub mod apart;
mod past;
pub mod trail;
pub mod views;

pub use apart::tell_apart;
pub use trail::{Trail, reads_keep};
pub use views::{CallView, EventView, ReplyView};
