//! What a disk in memory holds at a moment: the files as reads give them, as they stand synced, and the writes between.
#![tactic(auto)]

pub mod content;
pub mod file_bytes;
pub mod file_table;
mod picks;
mod undo_log;
mod unwind;

pub use content::Content;
pub use file_bytes::FileBytes;
pub use file_table::FileTable;
