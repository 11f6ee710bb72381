//! Disks in memory, which tell what they hold, what a stop may leave, and which of their calls fail.
#![tactic(auto)]

pub mod disk;
pub mod disks;
mod schedule;

pub use disk::MemDisk;
pub use disks::MemDisks;
