//! The slots of a set of disks, each of which is unused, holds its disk, or has lent it out.
#![tactic(auto)]

mod slot_state;
pub mod slots;

pub use slots::{DiskSlots, has_slot};
