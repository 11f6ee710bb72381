//! The bytes of numbers, points and entries, as they lie in files: one spelling for each value, written and read exactly.
#![tactic(auto)]

mod digests;
mod due;
mod entries;
mod entry_read;
pub mod laws;
mod numbers;
mod points;
mod texts;
mod wire_err;

pub use digests::digest;
pub use entries::{put_fence, put_points, put_tenure};
pub use entry_read::{EntryAt, get_entry};
pub use numbers::{get_between, get_number, put_number};
pub use points::{PointAt, get_point, put_point};
pub use wire_err::WireErr;

// Of libraries that the rows of crates above need not name: what these crates name of them.
/// Of `m3_model`.
pub mod of_m3_model {
    pub use m3_model::{Memory, Point, Seq, Series, Text, limits};
}
