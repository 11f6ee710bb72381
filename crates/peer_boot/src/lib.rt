//! The peers bootstrapper: a replica that joins a shard streams from former ones, by name, until a majority streamed whole. Each
//! is fenced first, on its disk, and gives its pages after that, each of which the joining one merges before the next is asked for.
#![tactic(auto)]

pub mod asking;
pub mod boot_err;
mod calls;
pub mod joins;
pub mod merged;
pub mod stream_err;
pub mod streams;

pub use asking::Asking;
pub use boot_err::BootErr;
pub use joins::join_shard;
pub use merged::{Cover, Merged};
pub use stream_err::StreamErr;
pub use streams::stream_from;
