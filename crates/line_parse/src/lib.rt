//! A line's bytes, parsed to a tree that borrows its texts from them, and the data that it stands for: what serde_json reads.
#![tactic(auto)]

pub mod keys;
pub mod numbers;
pub mod parse;
pub mod values;

pub use keys::is_named;
pub use numbers::number_of;
pub use values::{as_array, as_i64, as_object, as_str, as_u64, get};
