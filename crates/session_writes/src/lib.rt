//! Writes: a point is sent to the replicas of its shard and acknowledged where enough of those that count took it; and late
//! writes are delivered.
#![tactic(auto)]

pub mod deliver;
mod put;
pub mod write;

// Of libraries that the rows of crates above need not name: what these crates name of them.
/// Of `event_trail`.
pub mod of_event_trail {
    pub use session_net::of_event_trail::{EventView, Trail, tell_apart};
}
/// Of `replica_calls`.
pub mod of_replica_calls {
    pub use session_net::of_replica_calls::Replicas;
}
/// Of `replica_exchange`.
pub mod of_replica_exchange {
    pub use session_net::of_replica_exchange::{CallErr, CallId, Member, Slot};
}
/// Of `session_net`.
pub mod of_session_net {
    pub use session_net::{Net, Replicas, SessionErr, add, fate_to};
}
