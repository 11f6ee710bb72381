//! Stories of words on a disk in memory: what each word does and tells, also where the disk stops or fails at each of its calls.
#![tactic(auto)]

pub mod files;
pub mod stops;
pub mod stories;
pub mod turns;
pub mod words;

pub use files::{
    bytes_at, decoded, digest_of, drop_file, make, put, say, tell_bytes, tell_name, turn,
};
pub use stops::{At, first_other};
pub use stories::{quietly, steps};
pub use turns::{EACH_BIT, first_untold};
pub use words::{Words, cut, file, number, part, small, text};
