//! Entries of a replica's log in the words of what is in memory of a store: what each stop leaves of it, one entry on; and points that are
//! held and logged in one entry.
#![tactic(auto)]

mod log_step;
mod taking;

pub use log_step::{append_entry, begin_log, log_entry, ready_entry};
pub use taking::take_points;

// Of libraries that the rows of crates above need not name: what these crates name of them.
/// Of `commit_log`.
pub mod of_commit_log {
    pub use joined_reads::of_commit_log::Log;
}
/// Of `fileset_read`.
pub mod of_fileset_read {
    pub use joined_reads::of_fileset_read::FileErr;
}
/// Of `held_points`.
pub mod of_held_points {
    pub use joined_reads::of_held_points::{HeldPoints, hold};
}
/// Of `joined_reads`.
pub mod of_joined_reads {
    pub use joined_reads::{
        are_mergeable, fetch_held, fetch_joined, join_both, page_joined, risen,
    };
}
/// Of `listed_volumes`.
pub mod of_listed_volumes {
    pub use joined_reads::of_listed_volumes::{
        BlockErr, ListedVolume, RowCache, block_rows, list_volume, read,
    };
}
/// Of `series_id`.
pub mod of_series_id {
    pub use joined_reads::of_series_id::shard_of;
}
/// Of `shard_files`.
pub mod of_shard_files {
    pub use joined_reads::of_shard_files::LoadErr;
}
/// Of `snapshot_steps`.
pub mod of_snapshot_steps {
    pub use snapshot_steps::{Counts, take_snapshot};
}
/// Of `volume_bytes`.
pub mod of_volume_bytes {
    pub use joined_reads::of_volume_bytes::Head;
}
/// Of `volume_steps`.
pub mod of_volume_steps {
    pub use snapshot_steps::of_volume_steps::{remove_volumes, write_volume};
}
/// Of `wire_bytes`.
pub mod of_wire_bytes {
    pub use joined_reads::of_wire_bytes::{put_fence, put_points, put_tenure};
}
