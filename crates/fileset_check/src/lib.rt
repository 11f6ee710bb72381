//! Volumes checked whole: each file of one that counts against its digest and against the rows, and which rows a volume may
//! have.
#![tactic(auto)]

mod body;
mod check_err;
mod digests;
mod due;
mod gate;
mod head;
mod lawful;
pub mod laws;
mod listing;
mod numbers;
mod part_err;
mod parts;
mod volume;

pub use check_err::CheckErr;
pub use lawful::is_volume;
pub use listing::volumes;
pub use volume::{Volume, check_volume};

// Of libraries that the rows of crates above need not name: what these crates name of them.
/// Of `commit_log`.
pub mod of_commit_log {
    pub use fileset_read::of_commit_log::{
        Log, Segments, cut_before, list_segments, next_after, read_front,
    };
}
/// Of `fileset_read`.
pub mod of_fileset_read {
    pub use fileset_read::{FileErr, RowErr, read_file, rows};
}
/// Of `m3_model`.
pub mod of_m3_model {
    pub use fileset_read::of_m3_model::{Memory, Point, Seq, Text, limits};
}
/// Of `m3_outside`.
pub mod of_m3_outside {
    pub use fileset_read::of_m3_outside::{Disk, DiskErr, Failed, FileName, sync_all, take_away};
}
/// Of `shard_files`.
pub mod of_shard_files {
    pub use fileset_read::of_shard_files::{
        Amount, EntryErr, LoadErr, LogEntry, join_entries, read_segment,
    };
}
/// Of `volume_bytes`.
pub mod of_volume_bytes {
    pub use fileset_read::of_volume_bytes::{Head, Tables, bloom_filter, tables_of};
}
/// Of `wire_bytes`.
pub mod of_wire_bytes {
    pub use fileset_read::of_wire_bytes::{
        WireErr, digest, get_between, get_number, get_point, put_fence, put_number, put_point,
        put_points, put_tenure,
    };
}
