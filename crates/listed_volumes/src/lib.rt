//! The volumes that count, as a store lists them: each by its head, with what a look-up in it begins with; and what a read asks for,
//! found in all of them.
#![tactic(auto)]

mod fetching;
mod first;
mod keeping;
mod row_cache;
mod volume;

pub use fetching::fetch;
pub use first::first_listed;
pub use keeping::list_volume;
pub use row_cache::RowCache;
pub use volume::ListedVolume;
pub use volume_points::{BlockErr, block_rows, join, read};

// Of libraries that the rows of crates above need not name: what these crates name of them.
/// Of `commit_log`.
pub mod of_commit_log {
    pub use volume_points::of_commit_log::Log;
}
/// Of `fileset_read`.
pub mod of_fileset_read {
    pub use volume_points::of_fileset_read::FileErr;
}
/// Of `held_points`.
pub mod of_held_points {
    pub use volume_points::of_held_points::{HeldPoints, hold};
}
/// Of `series_id`.
pub mod of_series_id {
    pub use volume_points::of_series_id::shard_of;
}
/// Of `shard_files`.
pub mod of_shard_files {
    pub use volume_points::of_shard_files::LoadErr;
}
/// Of `volume_bytes`.
pub mod of_volume_bytes {
    pub use volume_points::of_volume_bytes::Head;
}
/// Of `wire_bytes`.
pub mod of_wire_bytes {
    pub use volume_points::of_wire_bytes::{put_fence, put_points, put_tenure};
}
