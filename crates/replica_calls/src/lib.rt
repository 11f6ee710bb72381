//! The replicas of a run by their slots, with the list of its events: each call of a replica is an Ask and a step on it.
#![tactic(auto)]

pub mod replicas;

pub use replica_exchange::CallId;
pub use replicas::Replicas;

// Of libraries that the rows of crates above need not name: what these crates name of them.
/// Of `event_trail`.
pub mod of_event_trail {
    pub use replica_exchange::of_event_trail::{EventView, Trail, tell_apart};
}
/// Of `m3_outside`.
pub mod of_m3_outside {
    pub use replica_exchange::of_m3_outside::Disk;
}
/// Of `placement_core`.
pub mod of_placement_core {
    pub use replica_exchange::of_placement_core::counted;
}
/// Of `replica_exchange`.
pub mod of_replica_exchange {
    pub use replica_exchange::{CallErr, CallId, Member, Slot};
}
/// Of `series_id`.
pub mod of_series_id {
    pub use replica_exchange::of_series_id::shard_of;
}
