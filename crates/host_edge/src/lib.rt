//! The host: disks in a folder, and the standard streams. They tell nothing of what the host holds. Of the bytes that pass
//! through the streams their bodies, and the toolchain's calls, are trusted to move just those that they say.
#![tactic(auto)]

pub mod file_disk;
pub mod file_disks;
mod folder;
mod paths;
pub mod std_sink;
pub mod std_source;

pub use file_disk::FileDisk;
pub use file_disks::FileDisks;
pub use std_sink::StdSink;
pub use std_source::StdSource;
