//! A snapshot of what is in memory of a replica's files, and the log cut behind it: a stop at any moment keeps each point that is
//! to be kept, the tenure and the fence.
#![tactic(auto)]

mod clearing;
mod counts;
mod cutting;
mod saving;
mod segment;
mod snapshot;

pub use clearing::clear_snapshots;
pub use counts::Counts;
pub use cutting::cut_log;
pub use saving::save_snapshot;
pub use segment::begin_segment;
pub use snapshot::take_snapshot;

// Of libraries that the rows of crates above need not name: what these crates name of them.
/// Of `volume_steps`.
pub mod of_volume_steps {
    pub use volume_steps::{remove_volumes, write_volume};
}
