//! What the files of one replica's disk hold: the definitions that its readers and writers share, and the entries of its log.
#![tactic(auto)]

pub mod amount;
pub mod entries;
pub mod file_laws;
pub mod laws;
pub mod load_err;
pub mod segment_entries;

pub use amount::{Amount, join_entries};
pub use entries::{EntryErr, LogEntry, read_entry};
pub use load_err::LoadErr;
pub use segment_entries::read_segment;

// Of libraries that the rows of crates above need not name: what these crates name of them.
/// Of `commit_log`.
pub mod of_commit_log {
    pub use commit_log::{Log, Segments, cut_before, list_segments, next_after, read_front};
}
/// Of `m3_model`.
pub mod of_m3_model {
    pub use commit_log::of_m3_model::{Memory, Point, Seq, Series, Text, limits};
}
/// Of `m3_outside`.
pub mod of_m3_outside {
    pub use commit_log::of_m3_outside::{Disk, DiskErr, Failed, FileName, sync_all, take_away};
}
/// Of `wire_bytes`.
pub mod of_wire_bytes {
    pub use commit_log::of_wire_bytes::{
        WireErr, digest, get_between, get_number, get_point, put_fence, put_number, put_point,
        put_points, put_tenure,
    };
}
