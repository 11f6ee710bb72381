//! Chunks in the bytes of a log's segment, and what stands at an offset there.
#![tactic(auto)]

mod chunk_read;
mod head;

pub use chunk_read::{ChunkAt, get_chunk};
pub use head::{HEAD_BYTES, OPEN};

// Of libraries that the rows of crates above need not name: what these crates name of them.
/// Of `m3_model`.
pub mod of_m3_model {
    pub use wire_bytes::of_m3_model::{Memory, Point, Seq, Series, Text, limits};
}
/// Of `m3_outside`.
pub mod of_m3_outside {
    pub use m3_outside::{Disk, DiskErr, Failed, FileName, sync_all, take_away};
}
/// Of `wire_bytes`.
pub mod of_wire_bytes {
    pub use wire_bytes::{
        EntryAt, WireErr, digest, get_between, get_entry, get_number, get_point, put_fence,
        put_number, put_point, put_points, put_tenure,
    };
}
