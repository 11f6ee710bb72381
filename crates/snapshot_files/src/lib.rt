//! Snapshots saved, read and taken away: at every moment one is there whole, or it doesn't count.
#![tactic(auto)]

mod body;
mod bytes;
mod check;
mod clearing;
mod lawful;
pub mod laws;
mod names;
mod order;
mod reading;
mod saving;
mod snap;

pub use clearing::clear_before;
pub use lawful::is_snapshot;
pub use reading::newest;
pub use saving::save;
pub use snap::Snap;

// Of libraries that the rows of crates above need not name: what these crates name of them.
/// Of `commit_log`.
pub mod of_commit_log {
    pub use fileset_check::of_commit_log::{
        Log, Segments, cut_before, list_segments, next_after, read_front,
    };
}
/// Of `fileset_check`.
pub mod of_fileset_check {
    pub use fileset_check::{CheckErr, Volume, is_volume, volumes};
}
/// Of `fileset_read`.
pub mod of_fileset_read {
    pub use fileset_check::of_fileset_read::{FileErr, rows};
}
/// Of `m3_outside`.
pub mod of_m3_outside {
    pub use fileset_check::of_m3_outside::{Disk, DiskErr, FileName, sync_all};
}
/// Of `shard_files`.
pub mod of_shard_files {
    pub use fileset_check::of_shard_files::{
        Amount, EntryErr, LoadErr, LogEntry, join_entries, read_segment,
    };
}
/// Of `volume_bytes`.
pub mod of_volume_bytes {
    pub use fileset_check::of_volume_bytes::Head;
}
