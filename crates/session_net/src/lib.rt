//! What calls of clients share: the replicas that they reach, what becomes of their messages, and the count of their answers.
#![tactic(auto)]

pub mod adding;
pub mod messages;
pub mod net;
pub mod session_err;
pub mod tally;

pub use adding::add;
pub use messages::{fate_to, is_cut};
pub use net::Net;
pub use replica_calls::Replicas;
pub use session_err::SessionErr;
pub use tally::Tally;

// Of libraries that the rows of crates above need not name: what these crates name of them.
/// Of `event_trail`.
pub mod of_event_trail {
    pub use replica_calls::of_event_trail::{EventView, Trail, tell_apart};
}
/// Of `m3_outside`.
pub mod of_m3_outside {
    pub use replica_calls::of_m3_outside::Disk;
}
/// Of `net_plan`.
pub mod of_net_plan {
    pub use net_plan::Fates;
}
/// Of `placement_core`.
pub mod of_placement_core {
    pub use replica_calls::of_placement_core::counted;
}
/// Of `replica_calls`.
pub mod of_replica_calls {
    pub use replica_calls::Replicas;
}
/// Of `replica_exchange`.
pub mod of_replica_exchange {
    pub use replica_calls::of_replica_exchange::{CallErr, CallId, Member, Slot};
}
/// Of `series_id`.
pub mod of_series_id {
    pub use replica_calls::of_series_id::shard_of;
}
