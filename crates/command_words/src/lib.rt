//! The words after the program's name: which task they ask for, and in which folder. They are read as one command with two
//! subcommands.
#![tactic(auto)]

mod command;
mod disk_folder;
pub mod laws;
mod task;
mod words_err;

pub use disk_folder::folder;
pub use task::{Task, task_of};
pub use words_err::WordsErr;
