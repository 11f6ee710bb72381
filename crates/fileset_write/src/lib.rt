//! Volumes written and taken away: at every moment one is there whole, or it doesn't count. And what a snapshot is written
//! with, too: files, and a checkpoint whose gate is opened last.
#![tactic(auto)]

mod gate;
mod new_file;
mod next_number;
mod put_file;
mod removal;
mod volume;
mod writing;

pub use gate::put_all;
pub use new_file::NewFile;
pub use removal::remove;
pub use writing::write;
