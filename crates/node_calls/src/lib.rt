//! What befalls the nodes of a cluster that stands, and the messages to them: each call adds its events to the list of the run.
#![tactic(auto)]

pub mod boots;
mod halts;
pub mod nodes;
mod refused;

pub use boots::{missing_shard, restart, unknown_shard};
pub use cluster_members::Members;
pub use nodes::{deliver, node_named, set_fates, stop};

// Of libraries that the rows of crates above need not name: what these crates name of them.
/// Of `cluster_members`.
pub mod of_cluster_members {
    pub use cluster_members::{Members, Range};
}
/// Of `event_trail`.
pub mod of_event_trail {
    pub use cluster_members::of_event_trail::Trail;
}
/// Of `replica_calls`.
pub mod of_replica_calls {
    pub use cluster_members::of_replica_calls::Replicas;
}
/// Of `replica_exchange`.
pub mod of_replica_exchange {
    pub use cluster_members::of_replica_exchange::{CallErr, CallId, Slot};
}
/// Of `session_net`.
pub mod of_session_net {
    pub use cluster_members::of_session_net::{Net, add};
}
