//! What lies outside the program: the traits of sources, sinks, disks and gates, and sources and sinks in memory.
#![tactic(auto)]

pub mod disk;
pub mod disk_err;
pub mod disks;
pub mod failed;
pub mod file_name;
pub mod gate;
pub mod laws;
pub mod mem_sink;
pub mod mem_source;
pub mod name_list;
pub mod passed;
mod schedule;
pub mod sink;
pub mod slot;
pub mod source;
pub mod sync_all;
pub mod take_away;

pub use disk::Disk;
pub use disk_err::DiskErr;
pub use disks::Disks;
pub use failed::Failed;
pub use file_name::FileName;
pub use gate::{Gate, OpenGate};
pub use mem_sink::MemSink;
pub use mem_source::MemSource;
pub use name_list::NameList;
pub use passed::Passed;
pub use sink::Sink;
pub use slot::DiskSlot;
pub use source::Source;
