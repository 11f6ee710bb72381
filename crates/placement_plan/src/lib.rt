//! Which placement a request to cancel moves, end them or remove a node leads to, and when there is none. What all plans
//! share, those that begin moves too: nodes, their shards and loads, and laws.
#![tactic(auto)]

pub mod choice;
pub mod completion;
pub mod laws;
pub mod loads;
pub mod nodes;
pub mod plan_err;
pub mod readiness;
pub mod removal;
pub mod shards;
pub mod version;

pub use choice::{better, may_take, taker};
pub use completion::{are_joining, available, cancel};
pub use loads::{loads_of, serves, shift};
pub use nodes::{drained, joined, listed_node, name_of, named_node, number_for, unlisted};
pub use plan_err::PlaceErr;
pub use readiness::{first_busy, first_taken};
pub use removal::remove;
pub use shards::{first_shard_of, has_node, joins_from, moved, settled, source_of};
pub use version::next_version;
