//! Laws over the transcript definitions where messages are lost or late, nodes are stopped, disks fail, or disks don't tell
//! what they hold.
#![tactic(auto)]

pub mod deliveries;
pub mod fault_kinds;
pub mod faults;
pub mod messages;
pub mod served;
pub mod short_reads;
pub mod untold;
pub mod upkeep;
pub mod versions;
