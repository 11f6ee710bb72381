//! What is so of a cluster after the turns of a run, how each line that it answers is tracked with them, and what a run promises by it
//! at its end. On the way there: what came to the list of events of a line tells of the line and serves it, whether it is a client's call,
//! sets the rules or the fates, stops or restarts a node, is one of upkeep, makes a placement, joins shards, is an `init`, or is refused or
//! given up; and the cluster stands afterwards. Each of these is a law on a function with an empty body. Crates above rest on the lemmas
//! of `proofs`, so that few of the functions are public.
#![tactic(auto)]

mod call_laws;
mod due;
mod inits;
mod join_laws;
mod lines;
mod nodes;
mod placement_laws;
mod settings;
mod track_laws;
mod upkeep;

pub use lines::lines_are_tracked;
pub use track_laws::tracked_runs_promise;

// Of libraries that the rows of crates above need not name: what these crates name of them.
/// Of `cluster_joins`.
pub mod of_cluster_joins {
    pub use cluster_joins::{Booting, Marked, Marking, end_sources, mark, open_node};
}
/// Of `cluster_members`.
pub mod of_cluster_members {
    pub use node_calls::of_cluster_members::{Members, Range};
}
/// Of `cluster_placements`.
pub mod of_cluster_placements {
    pub use cluster_placements::{Change, Untaken, make_change, plan_change};
}
/// Of `cluster_upkeep`.
pub mod of_cluster_upkeep {
    pub use cluster_upkeep::{flush, snapshot, status, tick};
}
/// Of `event_trail`.
pub mod of_event_trail {
    pub use node_calls::of_event_trail::Trail;
}
/// Of `first_cluster`.
pub mod of_first_cluster {
    pub use first_cluster::{Lent, begin_first, give_all, give_back, lend_first, plan_first};
}
/// Of `node_calls`.
pub mod of_node_calls {
    pub use node_calls::{deliver, restart, set_fates, stop};
}
/// Of `replica_calls`.
pub mod of_replica_calls {
    pub use node_calls::of_replica_calls::Replicas;
}
/// Of `replica_exchange`.
pub mod of_replica_exchange {
    pub use node_calls::of_replica_exchange::{CallId, Slot};
}
/// Of `session_net`.
pub mod of_session_net {
    pub use session_net::Net;
}
