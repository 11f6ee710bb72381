//! A cluster that stands: what its calls meet, and what it answers of namespaces, of the moment and of clients' calls.
#![tactic(auto)]

pub mod calls;
mod clock;
pub mod kept;
pub mod members;
pub mod rules;
mod spaces;

pub use calls::Range;
pub use kept::unknown_number;
pub use members::Members;
pub use session_writes::deliver::deliver;

// Of libraries that the rows of crates above need not name: what these crates name of them.
/// Of `event_trail`.
pub mod of_event_trail {
    pub use session_writes::of_event_trail::Trail;
}
/// Of `replica_calls`.
pub mod of_replica_calls {
    pub use session_writes::of_replica_calls::Replicas;
}
/// Of `replica_exchange`.
pub mod of_replica_exchange {
    pub use session_writes::of_replica_exchange::{CallErr, CallId, Member, Slot};
}
/// Of `session_net`.
pub mod of_session_net {
    pub use session_writes::of_session_net::{Net, SessionErr, add, fate_to};
}
