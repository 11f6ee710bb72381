//! A log of chunks of bytes in segments: what was acknowledged is there after a stop at any moment.
#![tactic(auto)]

mod chunk;
mod cut;
mod file;
pub mod laws;
mod log;
mod log_err;
mod read;
mod segment;

pub use cut::cut_before;
pub use file::{Front, read_front};
pub use log::Log;
pub use log_chunks::{ChunkAt, get_chunk};
pub use log_err::LogErr;
pub use read::{Found, Segments, list_segments, next_after, read_all};

// Of libraries that the rows of crates above need not name: what these crates name of them.
/// Of `m3_model`.
pub mod of_m3_model {
    pub use log_chunks::of_m3_model::{Memory, Point, Seq, Series, Text, limits};
}
/// Of `m3_outside`.
pub mod of_m3_outside {
    pub use log_chunks::of_m3_outside::{Disk, DiskErr, Failed, FileName, sync_all, take_away};
}
/// Of `wire_bytes`.
pub mod of_wire_bytes {
    pub use log_chunks::of_wire_bytes::{
        EntryAt, WireErr, digest, get_between, get_entry, get_number, get_point, put_fence,
        put_number, put_point, put_points, put_tenure,
    };
}
