//! Identifiers of series: their grammar, their tags and their shards.
#![tactic(auto)]

mod bytes;
mod hash;
mod id_err;
pub mod laws;
mod position;
mod read;
mod scan;
mod series_id;
mod spell;

pub use hash::shard_of;
pub use id_err::IdErr;
pub use series_id::{SeriesId, has_tag, of_tags, parse, valid};
