//! Disks in memory of which some calls fail: those that a test names, or by chance.
#![tactic(auto)]

pub mod disks;
pub mod failing;

pub use disks::disks_with;
pub use failing::{failing_disk, failing_disks};
