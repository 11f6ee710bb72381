//! Where the series of an identifier stands in a volume, from the bytes of its bloom filter, its summaries and its index. Takes no
//! memory.
#![tactic(auto)]

mod bits;
mod entries;
mod extents;
mod fields;
mod summaries;

pub use bits::may_hold;
pub use entries::{Spot, find};
pub use extents::{Extent, find_extent};
pub use summaries::{Piece, from_summary, span};
