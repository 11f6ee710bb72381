//! Reads of points in memory joined with those of listed volumes: what a fetch asks for, a page, and which points are new to them.
#![tactic(auto)]

mod bounds;
mod fetching;
mod paging;
mod rising;

pub use bounds::are_mergeable;
pub use fetching::{fetch_held, fetch_joined, join_both};
pub use paging::page_joined;
pub use rising::risen;

// Of libraries that the rows of crates above need not name: what these crates name of them.
/// Of `commit_log`.
pub mod of_commit_log {
    pub use listed_volumes::of_commit_log::Log;
}
/// Of `fileset_read`.
pub mod of_fileset_read {
    pub use listed_volumes::of_fileset_read::FileErr;
}
/// Of `held_pages`.
pub mod of_held_pages {
    pub use held_pages::{Rise, hold_new, raise_all};
}
/// Of `held_points`.
pub mod of_held_points {
    pub use listed_volumes::of_held_points::{HeldPoints, hold};
}
/// Of `listed_volumes`.
pub mod of_listed_volumes {
    pub use listed_volumes::{BlockErr, ListedVolume, RowCache, block_rows, list_volume, read};
}
/// Of `series_id`.
pub mod of_series_id {
    pub use listed_volumes::of_series_id::shard_of;
}
/// Of `shard_files`.
pub mod of_shard_files {
    pub use listed_volumes::of_shard_files::LoadErr;
}
/// Of `volume_bytes`.
pub mod of_volume_bytes {
    pub use listed_volumes::of_volume_bytes::Head;
}
/// Of `wire_bytes`.
pub mod of_wire_bytes {
    pub use listed_volumes::of_wire_bytes::{put_fence, put_points, put_tenure};
}
