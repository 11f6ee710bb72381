//! The top call: request lines in, reply lines out; or a script, and one line of summary out.
#![tactic(auto)]

mod exchange;
mod input;
pub mod laws;
mod output;
pub mod run;
mod script;
pub mod status;

pub use command_words::{WordsErr, folder};
pub use status::Status;
