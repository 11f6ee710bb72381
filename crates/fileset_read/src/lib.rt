//! Volumes read: which count, all series of one, or the series of one identifier; and what a check of a volume reads with, a file
//! in one piece and the series in the bytes of data.
#![tactic(auto)]

mod file;
mod file_err;
mod names;
mod row_at;
mod row_err;
mod series;
mod volume;

pub use file::read_file;
pub use file_err::FileErr;
pub use names::counted;
pub use row_err::RowErr;
pub use series::rows_in;
pub use volume::{row, rows};

// Of libraries that the rows of crates above need not name: what these crates name of them.
/// Of `commit_log`.
pub mod of_commit_log {
    pub use shard_files::of_commit_log::{
        Log, Segments, cut_before, list_segments, next_after, read_front,
    };
}
/// Of `m3_model`.
pub mod of_m3_model {
    pub use shard_files::of_m3_model::{Memory, Point, Seq, Series, Text, limits};
}
/// Of `m3_outside`.
pub mod of_m3_outside {
    pub use shard_files::of_m3_outside::{Disk, DiskErr, Failed, FileName, sync_all, take_away};
}
/// Of `shard_files`.
pub mod of_shard_files {
    pub use shard_files::{Amount, EntryErr, LoadErr, LogEntry, join_entries, read_segment};
}
/// Of `volume_bytes`.
pub mod of_volume_bytes {
    pub use volume_bytes::{Head, Tables, bloom_filter, info, tables_of};
}
/// Of `wire_bytes`.
pub mod of_wire_bytes {
    pub use shard_files::of_wire_bytes::{
        WireErr, digest, get_between, get_number, get_point, put_fence, put_number, put_point,
        put_points, put_tenure,
    };
}
