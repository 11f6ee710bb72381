//! The points of volumes: read from a disk for what a read asks for, joined with points in memory, and joined to the rows of a
//! new volume of their block. It holds no state.
#![tactic(auto)]

mod block;
mod block_err;
mod candidates;
mod joining;
pub mod laws;
mod matching;
mod ranged;
mod ranges;
mod reading;
mod whole;

pub use block::block_rows;
pub use block_err::BlockErr;
pub use joining::join;
pub use ranged::checked_range;
pub use reading::{read, read_volume};
pub use whole::{checked_rows, may_meet, select_from};

// Of libraries that the rows of crates above need not name: what these crates name of them.
/// Of `commit_log`.
pub mod of_commit_log {
    pub use fileset_check::of_commit_log::Log;
}
/// Of `fileset_check`.
pub mod of_fileset_check {
    pub use fileset_check::is_volume;
}
/// Of `fileset_read`.
pub mod of_fileset_read {
    pub use fileset_check::of_fileset_read::FileErr;
}
/// Of `held_points`.
pub mod of_held_points {
    pub use held_points::{HeldPoints, hold};
}
/// Of `m3_outside`.
pub mod of_m3_outside {
    pub use fileset_check::of_m3_outside::Disk;
}
/// Of `series_id`.
pub mod of_series_id {
    pub use held_points::of_series_id::shard_of;
}
/// Of `series_merge`.
pub mod of_series_merge {
    pub use series_merge::merge;
}
/// Of `shard_files`.
pub mod of_shard_files {
    pub use fileset_check::of_shard_files::LoadErr;
}
/// Of `volume_bytes`.
pub mod of_volume_bytes {
    pub use fileset_check::of_volume_bytes::{Head, Tables, bloom_filter, tables_of};
}
/// Of `volume_rows`.
pub mod of_volume_rows {
    pub use volume_rows::{RowRange, Seeker};
}
/// Of `wire_bytes`.
pub mod of_wire_bytes {
    pub use fileset_check::of_wire_bytes::{put_fence, put_points, put_tenure};
}
