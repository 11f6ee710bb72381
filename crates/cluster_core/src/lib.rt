//! The events of a cluster, the lists of them that are legal, and what the reads of a legal list keep.
#![tactic(auto)]

pub mod event;
pub mod laws;
pub mod passes;
pub mod replica_state;

pub use event::{Asked, Event, StepCall, StepReply};
pub use passes::{own_replica, seen_is_lawful, seen_reads_keep};
pub use replica_state::{ReplicaState, replica_of};
