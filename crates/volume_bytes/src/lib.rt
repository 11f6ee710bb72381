//! The bytes of a volume's files, made from its rows.
#![tactic(auto)]

mod bits;
mod bloom;
mod heads;
mod rows;
mod tables;

pub use bloom::bloom_filter;
pub use heads::{Head, digests, info};
pub use tables::{Tables, tables_of};
